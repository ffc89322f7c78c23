//! The names of components.
ghost use Rattle.std.specs.Prelude.{◌≡◌, IfOk, map, slice_get};
ghost use Rattle.kat_design.specs.Designs.{component_form};
ghost use Rattle.kat_pseudocode.specs.Naming.{acts, component_names, component_word, component_words, equal_field, field_of, field_word, kind_word, only_acting, only_op, op_word};
ghost use Rattle.kat_type.specs.Types.{operation_form, type_form};

use crate::leaves::distinct;
use kat_design::Component;
use kat_num::{Items, code_of};
use kat_relation::Conjunct;
use kat_type::{Field, Operation, SeqType};
use std::alloc::{AllocError, Global};

/// The field that a conjunct says to equal a leaf of the component.
fn equal_field(component: usize, conjunct: &Conjunct) -> Option<u32>
    ensures { result ≡ equal_field component conjunct.now }
{
    match conjunct {
        Conjunct::Equal { field, leaf } => {
            if leaf.component as usize == component {
                Some(*field)
            } else {
                None
            }
        }
        Conjunct::Query(_)
        | Conjunct::Bounded { .. }
        | Conjunct::AtLeast { .. }
        | Conjunct::Matched { .. }
        | Conjunct::Total(_) => None,
    }
}

/// The first such field.
fn field_of(component: usize, relation: &[Conjunct]) -> Option<u32>
    ensures { result ≡ field_of component relation.now }
{
    let mut rest = relation;
    'conjuncts: while let [conjunct, behind @ ..] = rest {
        if let Some(field) = equal_field(component, conjunct) {
            return Some(field);
        }
        rest = behind;
    }
    None
}

/// The name of that field.
fn field_word(fields: &[Field], place: Option<u32>) -> Option<u128>
    ensures { result ≡ field_word fields.now place }
{
    match place {
        None => None,
        Some(place) => match fields.get(place as usize) {
            None => None,
            Some(Field::Plain { name, .. }) | Some(Field::Keyed { name, .. }) => Some(*name),
        },
    }
}

/// Whether an operation has an effect.
pub(crate) fn acts<E>(effects: &[Option<E>]) -> bool
    ensures { result ≡ acts effects.now }
{
    let mut rest = effects;
    'effects: while let [effect, behind @ ..] = rest {
        if effect.is_some() {
            return true;
        }
        rest = behind;
    }
    false
}

/// The only operation that has an effect.
fn only_acting<E>(effects: &[Option<E>]) -> Option<usize>
    ensures { result ≡ only_acting 0 effects.now }
{
    let mut op = 0;
    let mut rest = effects;
    'effects: while let [effect, behind @ ..] = rest {
        if effect.is_some() {
            return if acts(behind) { None } else { Some(op) };
        }
        op += 1;
        rest = behind;
    }
    None
}

fn only_op(component: &Component) -> Option<usize>
    ensures { result ≡ only_op (component_form component.now) }
{
    match component {
        Component::Cell { effects, .. } => only_acting(effects.as_slice()),
        Component::Table { effects, .. } => only_acting(effects.as_slice()),
        Component::Set { effects, .. } => only_acting(effects.as_slice()),
        Component::Tally { effects } => only_acting(effects.as_slice()),
        Component::Tallies { effects, .. } => only_acting(effects.as_slice()),
    }
}

/// The name of that operation.
fn op_word(ops: &[Operation], place: Option<usize>) -> Option<u128>
    ensures { result ≡ op_word (map operation_form ops.now) place }
{
    match place {
        None => None,
        Some(place) => match ops.get(place) {
            None => None,
            Some(op) => Some(op.name),
        },
    }
}

/// What a component is.
fn kind_word(component: &Component) -> u128
    ensures { result ≡ kind_word (component_form component.now) }
{
    match component {
        Component::Cell { .. } => code_of(b"cell"),
        Component::Table { .. } => code_of(b"table"),
        Component::Set { .. } => code_of(b"set"),
        Component::Tally { .. } => code_of(b"sum"),
        Component::Tallies { .. } => code_of(b"sums"),
    }
}

/// The word of a component with this number.
fn component_word(ty: &SeqType, relation: &[Conjunct], place: usize, component: &Component) -> u128
    ensures { result ≡ component_word (type_form ty.now) relation.now place (component_form component.now) }
{
    if let Some(word) = field_word(ty.fields.as_slice(), field_of(place, relation)) {
        return word;
    }
    match op_word(ty.ops.as_slice(), only_op(component)) {
        Some(word) => word,
        None => kind_word(component),
    }
}

fn component_words(
    alloc: Global,
    ty: &SeqType,
    relation: &[Conjunct],
    components: &[Component],
) -> Result<Vec<u128>, AllocError>
    ensures { IfOk result (λ words. words.items ≡ component_words (type_form ty.now) relation.now 0 (map component_form components.now)) }
{
    let mut words = Vec::new(alloc);
    let mut rest = components;
    'components: while let [component, behind @ ..] = rest {
        let word = component_word(ty, relation, words.len(), component);
        words.push(word)?;
        rest = behind;
    }
    Ok(words)
}

/// The names of all components, which are all different.
pub fn component_names(
    alloc: Global,
    ty: &SeqType,
    relation: &[Conjunct],
    components: &[Component],
) -> Result<Vec<Items<u8>>, AllocError>
    ensures { IfOk result (λ names. names.items ≡ component_names (type_form ty.now) relation.now (map component_form components.now)) }
{
    let words = component_words(alloc, ty, relation, components)?;
    distinct(alloc, &words)
}
