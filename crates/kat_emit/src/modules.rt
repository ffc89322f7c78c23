//! A module: what is to be written of a design, whatever the language.
ghost use Rattle.std.specs.Prelude.{◌≡◌, IfOk, map};
ghost use Rattle.kat_design.specs.Designs.{component_form};
ghost use Rattle.kat_emit.specs.Statements.{part_form};

use crate::leaves::push_name;
use crate::lines::{Lines, read_lines};
use crate::parts::{Part, part_of};
use kat_design::{Ask, Design};
use kat_pseudocode::{component_names, text_at};
use kat_relation::Relation;
use kat_type::{Operation, Query, SeqType};
use std::alloc::{AllocError, Global};

/// A module: its word, what the lines of the type say, its parts, its operations, and its queries with what each asks.
pub struct Module<'a> {
    pub word: String,
    pub lines: Lines,
    pub parts: Vec<Part<'a>>,
    pub ops: &'a [Operation],
    pub queries: &'a [Query],
    pub asks: &'a [Ask],
}

impl Drop for Module<'_> {
    fn drop(self) {
        let Self {
            word: _,
            lines: _,
            parts: _,
            ops: _,
            queries: _,
            asks: _,
        } = self;
    }
}

/// The module of a design for a type, which `text` says, with names by this relation.
pub fn module_of<'a>(
    alloc: Global,
    text: &str,
    ty: &'a SeqType,
    design: &'a Design,
    relation: &Relation,
) -> Result<Module<'a>, AllocError>
    ensures { IfOk result (λ made. map part_form made.parts.items ≡ map component_form design.now.components) }
{
    let mut word = String::new(alloc);
    push_name(alloc, ty.name, &mut word)?;
    Ok(Module {
        word,
        lines: read_lines(alloc, text)?,
        parts: parts_of(alloc, ty, design, relation)?,
        ops: ty.ops.as_slice(),
        queries: ty.queries.as_slice(),
        asks: design.asks.as_slice(),
    })
}

/// The parts of a module.
fn parts_of<'a>(
    alloc: Global,
    ty: &SeqType,
    design: &'a Design,
    relation: &Relation,
) -> Result<Vec<Part<'a>>, AllocError>
    ensures { IfOk result (λ parts. map part_form parts.items ≡ map component_form design.now.components) }
{
    let conjuncts = relation.conjuncts.as_slice();
    let components = design.components.as_slice();
    let names = component_names(alloc, ty, conjuncts, components)?;
    let mut parts = Vec::new(alloc);
    for (place, component) in components.iter().enumerate() {
        let name = text_at(&names, place);
        let part = part_of(alloc, ty.ops.as_slice(), conjuncts, place, component, name)?;
        parts.push(part)?;
    }
    Ok(parts)
}
