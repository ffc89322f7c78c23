//! `verdicts LEAVES NAME ..` prints what `prove` answers of designs with this many leaves for each walk. NAME stands for the files
//! NAME.type and NAME.design. For each there is a line: the name, `proved`, `open`, `spent`, `rows` or `wide`, and the number of
//! candidates that were dropped. Files that can't be read, or don't agree, have the word `unread` instead, and so have those for
//! which memory ran out.
ghost use Rattle.std.specs.Prelude.{◌≤◌};

use crate::differences::design_for;
use crate::words::{next_number, print_line};
use kat_prove::{Proving, prove};
use kat_sat::Decision;
use kat_table::{leaves, push_number};
use kat_type::SeqType;
use kat_type_file::read_type;
use std::alloc::Global;
use std::env::Args;
use std::{fs, io};

// The answer's name and the number of drops.
fn told(proving: &Proving) -> (&'static str, usize) {
    match proving {
        Proving::Proved { drops, .. } => ("proved", drops.len()),
        Proving::OpenCert { drops, .. } => ("open", drops.len()),
        Proving::Stuck {
            drops,
            decision,
            ..
        } => match decision {
            Decision::Rows { .. } => ("rows", drops.len()),
            Decision::Wide { .. } => ("wide", drops.len()),
            _ => ("spent", drops.len()),
        },
    }
}

// What is answered of a design file's bytes for a type.
fn answered_for(
    alloc: Global,
    ty: &SeqType,
    design: &[u8],
    effort: u32,
) -> Option<(&'static str, usize)>
    requires { (1 ≤ effort) × (effort ≤ 10_000) }
{
    let design = design_for(alloc, ty, design)?;
    match prove(alloc, ty, &design, effort) {
        Ok(proving) => Some(told(&proving)),
        Err(_) => None,
    }
}

// The same with the type file's bytes.
fn answered(alloc: Global, ty: &[u8], design: &[u8], effort: u32) -> Option<(&'static str, usize)>
    requires { (1 ≤ effort) × (effort ≤ 10_000) }
{
    match read_type(alloc, ty) {
        Ok(ty) => answered_for(alloc, &ty, design, effort),
        Err(_) => None,
    }
}

// The bytes of the file with this name and this end.
fn content(rt: &HostRuntime, name: &str, end: &str) -> io::Result<Vec<u8>> {
    let path = format!(in rt.alloc(); "{name}{end}")?;
    fs::read(rt, path.as_str())
}

// The same with the files' name.
fn judged(rt: &HostRuntime, name: &str, effort: u32) -> Option<(&'static str, usize)>
    requires { (1 ≤ effort) × (effort ≤ 10_000) }
{
    let ty = content(rt, name, ".type").ok()?;
    let design = content(rt, name, ".design").ok()?;
    answered(rt.alloc(), &ty, &design, effort)
}

// Tells what is answered of a name's files.
fn tell(rt: &HostRuntime, name: &str, effort: u32) -> io::Result<()>
    requires { (1 ≤ effort) × (effort ≤ 10_000) }
{
    let (verdict, drops) = judged(rt, name, effort).unwrap_or(("unread", 0));
    let mut text = Vec::from_slice(rt.alloc(), name.as_bytes())?;
    text.push(b' ')?;
    text.extend_from_slice(verdict.as_bytes())?;
    push_number(&mut text, " ", drops)?;
    print_line(rt, text)
}

pub(crate) fn measure(rt: &HostRuntime, mut words: Args) -> io::Result<()> {
    let effort = leaves(next_number(&mut words));
    for name in words {
        tell(rt, name.as_str(), effort)?;
    }
    Ok(())
}
