//! `differences NAME ROUNDS` looks for a history on which a right design of the type `register`, `cart` or `element_set` differs
//! from it, that many times, and prints how many histories there are and what was found.

ghost use Rattle.std.specs.Prelude.{◌≡◌, IfSome};
ghost use Rattle.kat_design.specs.Designs.{design_form};
ghost use Rattle.kat_design.specs.Sorted as designs;
ghost use Rattle.kat_type.specs.Fits as types;
ghost use Rattle.kat_type.specs.Signatures.{signature_of};
ghost use Rattle.kat_type.specs.Types.{type_form};
ghost use Rattle.kat_type.specs.Within.{IsWithinLimits};

use crate::words::{next_number, print_line};
use kat_design::Design;
use kat_hist::{Histories, first_difference};
use kat_sort_check::accepted_designs_are_well_sorted;
use kat_table::push_number;
use kat_type::SeqType;
use kat_type_file::read_type;
use kat_wire::{agrees, read_file};
use std::alloc::{AllocError, Global};
use std::env::Args;
use std::io;

const REGISTER: &str =
    "type register\nstate v: int = 0\nop set(x: int) rank time, replica: v := x\nquery get(): int = v\n";

const REGISTER_DESIGN: &str =
    r#"["katara",1,[[["set",["int"]]],[["get",[],"int"]]],[[["cell",["lex","max",["lex","max","max"]],[0,0,0],[["time","replica","p0"]]]],[["leaf",0,2]]],[],[],[]]"#;

const CART: &str =
    "type cart\nstate c: table name -> nat = 0\nop add(x: name, n: nat) rank 0: c[x] := c[x] + n\nquery count(x: name): nat = c[x]\n";

const CART_DESIGN: &str =
    r#"["katara",1,[[["add",["name","nat"]]],[["count",["name"],"nat"]]],[[["tallies","name",[["p0","p1"]]]],[["leaf",0,0,0]]],[],[],[]]"#;

const ELEMENT_SET: &str =
    "type element_set\nstate s: table name -> bool = false\nop insert(x: name) rank time, 1: s[x] := true\nop remove(x: name) rank time, 0: s[x] := false\nquery contains(x: name): bool = s[x]\n";

const ELEMENT_SET_DESIGN: &str =
    r#"["katara",1,[[["insert",["name"]],["remove",["name"]]],[["contains",["name"],"bool"]]],[[["table","name",["lex","max","or"],[0,false],[["p0",["time",true]],["p0",["time",false]]]]],[["leaf",0,1,0]]],[],[],[]]"#;

// The text of a type and that of its design.
fn texts(name: &str) -> (&'static str, &'static str) {
    match name {
        "register" => (REGISTER, REGISTER_DESIGN),
        "cart" => (CART, CART_DESIGN),
        _ => (ELEMENT_SET, ELEMENT_SET_DESIGN),
    }
}

// The design of a text, if it has the type's signature.
pub(crate) fn design_for(alloc: Global, ty: &SeqType, text: &[u8]) -> Option<Design>
    ensures sorted { IfSome result (λ design. designs.IsWellSorted (design_form design)) }
    ensures agrees { IfSome result (λ design. design.sig ≡ signature_of (type_form ty.now)) }
{
    accepted_designs_are_well_sorted();
    let Ok(file) = read_file(alloc, text) else {
        return None;
    };
    if !agrees(ty, &file.design) {
        return None;
    }
    Some(file.into_design())
}

// The number of the first history on which the design differs, if there is one, looked for that many times.
fn found_again(
    alloc: Global,
    ty: &SeqType,
    design: &Design,
    rounds: u32,
) -> Result<Option<u64>, AllocError>
    requires limits { IsWithinLimits (type_form ty.now) }
    requires type_sorted { types.IsWellSorted (type_form ty.now) }
    requires sorted { designs.IsWellSorted (design_form design.now) }
    requires agrees { design.now.sig ≡ signature_of (type_form ty.now) }
{
    let mut found = None;
    for _ in 0..rounds {
        found = first_difference(alloc, ty, design)?;
    }
    Ok(found)
}

// How many histories a type has.
fn history_count(alloc: Global, ty: &SeqType) -> Result<u64, AllocError>
    requires { types.IsWellSorted (type_form ty.now) }
{
    Ok(Histories::new(alloc, ty)?.len())
}

// How many histories a type has, and what was found.
fn counted(
    alloc: Global,
    ty: &SeqType,
    design: &Design,
    rounds: u32,
) -> Result<(u64, Option<u64>), AllocError>
    requires limits { IsWithinLimits (type_form ty.now) }
    requires type_sorted { types.IsWellSorted (type_form ty.now) }
    requires sorted { designs.IsWellSorted (design_form design.now) }
    requires agrees { design.now.sig ≡ signature_of (type_form ty.now) }
{
    let len = history_count(alloc, ty)?;
    let found = found_again(alloc, ty, design, rounds)?;
    Ok((len, found))
}

// The same with the text of the design; `None` if it can't be read, or memory runs out.
fn compared_with(
    alloc: Global,
    ty: &SeqType,
    design: &[u8],
    rounds: u32,
) -> Option<(u64, Option<u64>)>
    requires limits { IsWithinLimits (type_form ty.now) }
    requires type_sorted { types.IsWellSorted (type_form ty.now) }
{
    match design_for(alloc, ty, design) {
        Some(design) => counted(alloc, ty, &design, rounds).ok(),
        None => None,
    }
}

// The same with both texts.
fn compared(alloc: Global, ty: &[u8], design: &[u8], rounds: u32) -> Option<(u64, Option<u64>)> {
    match read_type(alloc, ty) {
        Ok(ty) => compared_with(alloc, &ty, design, rounds),
        Err(_) => None,
    }
}

// Appends what was found.
fn push_found(text: &mut Vec<u8>, found: Option<(u64, Option<u64>)>) -> Result<(), AllocError> {
    match found {
        Some((len, None)) => push_number(text, ": differs on none of ", len),
        Some((len, Some(first))) => {
            push_number(text, ": differs on history ", first)?;
            push_number(text, " of ", len)
        }
        None => text.extend_from_slice(b": not read"),
    }
}

// Looks that many times, and reports what was found.
fn tell(rt: &HostRuntime, name: &str, rounds: u32) -> io::Result<()> {
    let (ty, design) = texts(name);
    let found = compared(rt.alloc(), ty.as_bytes(), design.as_bytes(), rounds);
    let mut text = Vec::from_slice(rt.alloc(), name.as_bytes())?;
    push_found(&mut text, found)?;
    print_line(rt, text)
}

pub(crate) fn measure(rt: &HostRuntime, mut words: Args) -> io::Result<()> {
    let Some(name) = words.next() else {
        return Ok(());
    };
    let rounds = next_number(&mut words);
    tell(rt, name.as_str(), rounds)
}
