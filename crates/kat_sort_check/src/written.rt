//! Starts and constants, as a design's file can have them.
ghost use Rattle.std.specs.Prelude.{◌≡◌, ◌==◌, ◌≤◌, IfOk, length};
ghost use Rattle.std.specs.List.{list_all};
ghost use Rattle.kat_num.specs.Bytes.{is_name_byte};
ghost use Rattle.kat_num.specs.Names.{code_of};
ghost use Rattle.kat_design.specs.Faults.{first_of, is_name_code, is_written, list_faults, start_faults};

use crate::faults::{here_if, within};
use kat_design::{Kind, is_kind, value_kind};
use kat_num::{Items, NAME_LIMIT, Value, bytes_of, code_of, is_name_byte};
use std::alloc::{AllocError, Global};

/// The least number that a file can have.
const LEAST: i128 = -0x8000_0000_0000_0000;

/// The least number that a file can't have.
const PAST: i128 = 0x1_0000_0000_0000_0000;

/// Whether a file can have the value: a number of 64 bits with or without a sign, a name, or a truth value.
pub fn is_written(alloc: Global, value: Value) -> Result<bool, AllocError>
    ensures { IfOk result (λ written. written ≡ is_written value) }
{
    match value {
        Value::Bool(_) => Ok(true),
        Value::Num(number) => Ok(LEAST <= number && number < PAST),
        Value::Name(code) => is_name_code(alloc, code),
    }
}

/// Whether the code is that of a name.
fn is_name_code(alloc: Global, code: u128) -> Result<bool, AllocError>
    ensures { IfOk result (λ is. is ≡ is_name_code code) }
{
    let name = bytes_of(alloc, code)?;
    Ok(are_name_bytes(&name) && has_code(&name, code))
}

/// Whether each byte is one of names.
fn are_name_bytes(bytes: &[u8]) -> bool
    ensures { result ≡ list_all is_name_byte bytes.now }
{
    bytes.iter().all(|byte| is_name_byte(*byte))
}

/// Whether the bytes, padded as a name's, have the code.
fn has_code(name: &[u8], code: u128) -> bool
    requires { length name.now ≤ NAME_LIMIT }
    ensures { result ≡ (code_of name.now == code) }
{
    code_of(name) == code
}

/// The first start that isn't of the kind of its leaf, or that no file has.
pub fn starts_fault(
    alloc: Global,
    starts: &[Value],
    kinds: &[Kind],
) -> Result<Option<Items<u32>>, AllocError>
    ensures { IfOk result (λ fault. fault ≡ first_of (list_faults start_faults starts.now kinds.now)) }
{
    if starts.len() != kinds.len() {
        return Ok(here_if(alloc, true));
    }
    for i in 0..starts.len() {
        let fault = start_fault(alloc, starts[i], kinds[i])?;
        if fault.is_some() {
            return within(alloc, i, fault);
        }
    }
    Ok(None)
}

/// The fault of a start.
fn start_fault(alloc: Global, start: Value, kind: Kind) -> Result<Option<Items<u32>>, AllocError>
    ensures { IfOk result (λ fault. fault ≡ first_of (start_faults start kind)) }
{
    let fits = is_kind(kind, value_kind(start)) && is_written(alloc, start)?;
    Ok(here_if(alloc, !fits))
}
