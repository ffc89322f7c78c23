//! The designs that are built in.
ghost use Rattle.std.specs.Prelude.{◌≡◌, Some, IfOk, [], ◌∷◌};
ghost use Rattle.kat_wire.specs.Builtins.{builtin_of, is_spaced, is_space, builtin_design, one_each, one_leaf};
ghost use Rattle.std.specs.List.{list_all};
ghost use Rattle.kat_design.specs.Designs.{design_form, component_form};
ghost use Rattle.kat_wire.specs.declared.builtin.Builtin.TheVariants as variant;
ghost use Rattle.kat_design.specs.Designs.ComponentForm.{a_cell};
ghost use Rattle.kat_shape.specs.Forms.{form_of};

use crate::lists::{none, one};
use kat_design::{Ask, Component, Design, Leaf};
use kat_lex::words::{ADD, GET};
use kat_num::{Items, Sort, Value};
use kat_shape::Shape;
use kat_type::{OpSig, QuerySig, Signature};
use std::alloc::{AllocError, Global};

/// A design that is built in.
#[derive(Clone, Copy, PartialEq, Eq, Debug)]
pub enum Builtin {
    Max,
    Or,
    Set,
    Tally,
}

/// The code of `raise`.
const RAISE: u128 = 0x7261697365 << 80;

/// The code of `has`.
const HAS: u128 = 0x686173 << 96;

/// The design that the bytes are the text of: its name, with blanks and newlines at the end.
pub(crate) fn builtin_of(bytes: &[u8]) -> Option<Builtin>
    ensures { result ≡ builtin_of bytes.now }
{
    if is_spaced(b"builtin max", bytes) {
        Some(Builtin::Max)
    } else if is_spaced(b"builtin or", bytes) {
        Some(Builtin::Or)
    } else if is_spaced(b"builtin set", bytes) {
        Some(Builtin::Set)
    } else if is_spaced(b"builtin tally", bytes) {
        Some(Builtin::Tally)
    } else {
        None
    }
}

/// Whether the bytes are the text with blanks and newlines after it.
fn is_spaced(text: &[u8], bytes: &[u8]) -> bool
    ensures { result ≡ is_spaced text.now bytes.now }
{
    if bytes.len() < text.len() {
        return false;
    }
    let (front, rest) = bytes.split_at(text.len());
    front == text && are_spaces(rest)
}

fn are_spaces(bytes: &[u8]) -> bool
    ensures { result ≡ list_all is_space bytes.now }
{
    bytes.iter().all(|byte| is_space(*byte))
}

fn is_space(byte: u8) -> bool
    ensures { result ≡ is_space byte }
{
    matches!(byte, b' ' | b'\t' | b'\r' | b'\n')
}

/// The design that is built in under this name.
pub(crate) fn builtin_design(alloc: Global, builtin: Builtin) -> Result<Design, AllocError>
    ensures { IfOk result (λ design. design_form design ≡ builtin_design builtin) }
{
    match builtin {
        Builtin::Max => max(alloc),
        Builtin::Or => or(alloc),
        Builtin::Set => set(alloc),
        Builtin::Tally => tally(alloc),
    }
}

/// A greatest number.
fn max(alloc: Global) -> Result<Design, AllocError>
    ensures { IfOk result (λ design. design_form design ≡ builtin_design variant.Max) }
{
    let sig = one_each(
        alloc,
        ADD,
        one(alloc, Sort::Nat)?,
        GET,
        none(alloc),
        Sort::Nat,
    )?;
    let component = one_cell(alloc, Shape::Max, Value::Num(0), Leaf::Arg(0))?;
    one_leaf(alloc, sig, component, None)
}

/// A flag that is raised.
fn or(alloc: Global) -> Result<Design, AllocError>
    ensures { IfOk result (λ design. design_form design ≡ builtin_design variant.Or) }
{
    let sig = one_each(alloc, RAISE, none(alloc), GET, none(alloc), Sort::Bool)?;
    let component = one_cell(alloc, Shape::Or, Value::Bool(false), Leaf::True)?;
    one_leaf(alloc, sig, component, None)
}

/// A set of names.
fn set(alloc: Global) -> Result<Design, AllocError>
    ensures { IfOk result (λ design. design_form design ≡ builtin_design variant.Set) }
{
    let names = one(alloc, Sort::Name)?;
    let sig = one_each(alloc, ADD, names, HAS, one(alloc, Sort::Name)?, Sort::Bool)?;
    let effects = one(alloc, Some(0))?;
    let key = Sort::Name;
    one_leaf(alloc, sig, Component::Set { key, effects }, Some(0))
}

/// A sum.
fn tally(alloc: Global) -> Result<Design, AllocError>
    ensures { IfOk result (λ design. design_form design ≡ builtin_design variant.Tally) }
{
    let sig = one_each(
        alloc,
        ADD,
        one(alloc, Sort::Nat)?,
        GET,
        none(alloc),
        Sort::Nat,
    )?;
    let effects = one(alloc, Some(Leaf::Arg(0)))?;
    one_leaf(alloc, sig, Component::Tally { effects }, None)
}

/// A signature of one operation and one query.
fn one_each(
    alloc: Global,
    operation: u128,
    sorts: Items<Sort>,
    query: u128,
    asked: Items<Sort>,
    answer: Sort,
) -> Result<Signature, AllocError>
    ensures { IfOk result (λ sig. sig ≡ one_each operation sorts query asked answer) }
{
    let operation = OpSig {
        name: operation,
        sorts,
    };
    let query = QuerySig {
        name: query,
        sorts: asked,
        sort: answer,
    };
    Ok(Signature {
        ops: one(alloc, operation)?,
        queries: one(alloc, query)?,
    })
}

/// A cell of one leaf, to which the operation gives this.
fn one_cell(alloc: Global, shape: Shape, start: Value, given: Leaf) -> Result<Component, AllocError>
    ensures { IfOk result (λ component. component_form component ≡ a_cell (form_of shape) (start ∷ []) (Some (given ∷ []) ∷ [])) }
{
    let starts = one(alloc, start)?;
    let effect = one(alloc, given)?;
    let effects = one(alloc, Some(effect))?;
    Ok(Component::Cell {
        shape,
        starts,
        effects,
    })
}

/// A design of one component, whose one leaf the query reads.
fn one_leaf(
    alloc: Global,
    sig: Signature,
    component: Component,
    key: Option<u32>,
) -> Result<Design, AllocError>
    ensures { IfOk result (λ design. design_form design ≡ one_leaf sig (component_form component) key) }
{
    let ask = Ask::Leaf {
        component: 0,
        leaf: 0,
        key,
    };
    Ok(Design {
        sig,
        components: one(alloc, component)?,
        asks: one(alloc, ask)?,
    })
}
