//! The parts of a module: the components of a design, with names.
ghost use Rattle.std.specs.Prelude.{◌≡◌, IfOk};
ghost use Rattle.kat_design.specs.Designs.{component_form};
ghost use Rattle.kat_emit.specs.Statements.{part_form};

use crate::leaves::leaf_words;
use kat_design::{Component, Kind, kinds_of};
use kat_num::{Sort, Value};
use kat_relation::Conjunct;
use kat_shape::Shape;
use kat_type::Operation;
use std::alloc::{AllocError, Global};

/// What a part keeps: a value, a value at each key, keys, a sum of each replica, or such sums at each key.
#[derive(Clone, Copy)]
pub enum Form {
    Cell,
    Table,
    Set,
    Tally,
    Tallies,
}

/// A component with its name, the kinds and names of its leaves if it is a cell or a table, and the field that it is said to equal.
pub struct Part<'a> {
    pub component: &'a Component,
    pub form: Form,
    pub key: Option<Sort>,
    pub kinds: Vec<Kind>,
    pub word: String,
    pub leaves: Vec<String>,
    pub field: Option<u32>,
}

impl Drop for Part<'_> {
    fn drop(self) {
        let Self {
            component: _,
            form: _,
            key: _,
            kinds: _,
            word: _,
            leaves: _,
            field: _,
        } = self;
    }
}

impl Part<'_> {
    /// The shape of its values, if it is a cell or a table.
    pub fn shape(&self) -> Option<&Shape> {
        match self.component {
            Component::Cell { shape, .. } | Component::Table { shape, .. } => Some(shape),
            Component::Set { .. } | Component::Tally { .. } | Component::Tallies { .. } => None,
        }
    }

    /// The leaves of its start, if it is a cell or a table.
    pub fn starts(&self) -> &[Value] {
        match self.component {
            Component::Cell { starts, .. } | Component::Table { starts, .. } => starts.as_slice(),
            Component::Set { .. } | Component::Tally { .. } | Component::Tallies { .. } => &[],
        }
    }

    /// Whether its values have several leaves.
    pub fn is_record(&self) -> bool {
        self.kinds.len() > 1
    }

    /// Whether the start of the leaf at a place is a number that 64 bits with a sign don't hold.
    pub fn is_wide_leaf(&self, place: usize) -> bool {
        match self.starts().get(place) {
            Some(Value::Num(number)) => *number > 9_223_372_036_854_775_807,
            _ => false,
        }
    }

    /// Whether of two values one is always at or below the other.
    pub fn is_chain(&self) -> bool {
        match self.shape() {
            Some(shape) => is_chain(shape),
            None => true,
        }
    }
}

/// Whether of two values of a shape one is always at or below the other.
pub fn is_chain(shape: &Shape) -> bool {
    match shape {
        Shape::Max | Shape::Name | Shape::Or => true,
        Shape::Lex(first, second) => is_chain(first) && is_chain(second),
        Shape::Pair(_, _) => false,
    }
}

/// The part of the component with this number, which `explain` calls `name`.
pub(crate) fn part_of<'a>(
    alloc: Global,
    ops: &[Operation],
    relation: &[Conjunct],
    place: usize,
    component: &'a Component,
    name: &[u8],
) -> Result<Part<'a>, AllocError>
    ensures { IfOk result (λ part. part_form part ≡ component_form component.now) }
{
    let kinds = part_kinds(alloc, component)?;
    let leaves = leaf_words(alloc, ops, component, &kinds)?;
    Ok(Part {
        component,
        form: form_of(component),
        key: key_of(component),
        kinds,
        word: part_word(alloc, name)?,
        leaves,
        field: field_of(place, relation),
    })
}

/// The kinds of the leaves of a cell or a table.
fn part_kinds(alloc: Global, component: &Component) -> Result<Vec<Kind>, AllocError> {
    match component {
        Component::Cell { shape, .. } | Component::Table { shape, .. } => kinds_of(alloc, shape),
        Component::Set { .. } | Component::Tally { .. } | Component::Tallies { .. } => {
            Ok(Vec::new(alloc))
        }
    }
}

/// A name without the mark before its number.
fn part_word(alloc: Global, name: &[u8]) -> Result<String, AllocError> {
    let mut word = String::new(alloc);
    for letter in name {
        if *letter != b'#' {
            word.push(char::from(*letter))?;
        }
    }
    Ok(word)
}

fn form_of(component: &Component) -> Form {
    match component {
        Component::Cell { .. } => Form::Cell,
        Component::Table { .. } => Form::Table,
        Component::Set { .. } => Form::Set,
        Component::Tally { .. } => Form::Tally,
        Component::Tallies { .. } => Form::Tallies,
    }
}

fn key_of(component: &Component) -> Option<Sort> {
    match component {
        Component::Cell { .. } | Component::Tally { .. } => None,
        Component::Table { key, .. }
        | Component::Set { key, .. }
        | Component::Tallies { key, .. } => Some(*key),
    }
}

/// The first field that a conjunct says to equal a leaf of the component.
fn field_of(component: usize, relation: &[Conjunct]) -> Option<u32> {
    for conjunct in relation {
        if let Conjunct::Equal { field, leaf } = conjunct {
            if leaf.component as usize == component {
                return Some(*field);
            }
        }
    }
    None
}
