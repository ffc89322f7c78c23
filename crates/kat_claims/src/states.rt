//! The sides at the start and before an operation: how the two states and the last operation are read there.
ghost use Rattle.std.specs.Prelude.{◌≡◌, ◌≤◌, ◌-◌, ◌∷◌, [], IfErr, IfOk, Some, length, map, slice_get};
ghost use Rattle.kat_design.specs.Designs.{component_form, design_form};
ghost use Rattle.kat_design.specs.Kinds.{kinds_of, leaf_kind};
ghost use Rattle.kat_shape.specs.Forms.{form_of as shape_form};
ghost use Rattle.kat_type.specs.Types.{type_form};
ghost use Rattle.kat_claims.specs.States.{field_start, is_truth_at, is_truth_field, is_truth_kind, is_truth_sort, leaf_start, old_side, start_at, start_side};

use kat_design::{Component, Design, Kind};
use kat_expr::argument;
use kat_form::Formula;
use kat_linear::Row;
use kat_num::{Sort, Value};
use kat_shape::Shape;
use kat_symbols::{Instance, Name, Place, ReadSide, Reader, Symbol, symbol_of};
use kat_type::{Field, SeqType};
use std::alloc::{AllocError, Global};

/// What stands for a value that isn't there.
const ABSENT: Value = Value::Bool(false);

/// The start of a type and a design.
#[derive(Clone, Copy)]
pub struct StartSide<'a> {
    pub ty: &'a SeqType,
    pub design: &'a Design,
}

/// A state of a type and a design before an operation.
#[derive(Clone, Copy)]
pub struct OldSide<'a> {
    pub ty: &'a SeqType,
    pub design: &'a Design,
}

impl<'a> ReadSide for StartSide<'a> {
    ghost side = { λ s. start_side (type_form s.ty.now) (design_form s.design.now) };

    fn value(
        &self,
        alloc: Global,
        reader: &mut Reader,
        place: Place,
        at: Option<Instance>,
    ) -> Result<Symbol, AllocError> {
        symbol_of(alloc, start_at(self.ty, self.design, place))
    }

    fn begun(&self, reader: &mut Reader) -> Result<Formula, AllocError> {
        Ok(Formula::False)
    }

    fn element(
        &self,
        alloc: Global,
        reader: &mut Reader,
        position: u32,
    ) -> Result<Row, AllocError> {
        reader.read_name(alloc, Name::Element(position))
    }
}

impl<'a> ReadSide for OldSide<'a> {
    ghost side = { λ s. old_side (type_form s.ty.now) (design_form s.design.now) };

    fn value(
        &self,
        alloc: Global,
        reader: &mut Reader,
        place: Place,
        at: Option<Instance>,
    ) -> Result<Symbol, AllocError> {
        let is_truth = is_truth_at(self.ty, self.design, place);
        reader.read_variable(alloc, is_truth, Name::Kept(place, at))
    }

    fn begun(&self, reader: &mut Reader) -> Result<Formula, AllocError> {
        reader.read_flag(Name::Begun)
    }

    fn element(
        &self,
        alloc: Global,
        reader: &mut Reader,
        position: u32,
    ) -> Result<Row, AllocError> {
        reader.read_name(alloc, Name::Element(position))
    }
}

/// The start of what is kept at a place.
fn start_at(ty: &SeqType, design: &Design, place: Place) -> Value
    ensures { result ≡ start_at (type_form ty.now) (design_form design.now) place }
{
    match place {
        Place::Field(field) => field_start(ty.fields.as_slice(), field),
        Place::Leaf(component, leaf) => leaf_start(design.components.as_slice(), component, leaf),
    }
}

/// The start of a field. Of a field that isn't there, it's false.
pub fn field_start(fields: &[Field], place: u32) -> Value
    ensures { result ≡ field_start (slice_get fields.now place) }
{
    match fields.get(place as usize) {
        None => ABSENT,
        Some(Field::Plain { start, .. }) => *start,
        Some(Field::Keyed { start, .. }) => *start,
    }
}

/// The start of a leaf.
fn leaf_start(components: &[Component], component: u32, leaf: u32) -> Value
    ensures { result ≡ leaf_start (slice_get (map component_form components.now) component) leaf }
{
    match components.get(component as usize) {
        None => ABSENT,
        Some(component) => component_start(component, leaf),
    }
}

/// The start of a leaf of a component.
fn component_start(component: &Component, leaf: u32) -> Value
    ensures { result ≡ leaf_start (Some (component_form component.now)) leaf }
{
    match component {
        Component::Cell { starts, .. } => argument(starts.as_slice(), leaf),
        Component::Table { starts, .. } => argument(starts.as_slice(), leaf),
        Component::Set { .. } => Value::Bool(false),
        Component::Tally { .. } => Value::Num(0),
        Component::Tallies { .. } => Value::Num(0),
    }
}

/// Whether values of the sort are truth values.
pub(crate) fn is_truth_sort(sort: Sort) -> bool
    ensures { result ≡ is_truth_sort sort }
{
    match sort {
        Sort::Bool => true,
        Sort::Int => false,
        Sort::Nat => false,
        Sort::Name => false,
    }
}

/// Whether a field keeps truth values. One that isn't there doesn't.
pub fn is_truth_field(fields: &[Field], place: u32) -> bool
    ensures { result ≡ is_truth_field (slice_get fields.now place) }
{
    match fields.get(place as usize) {
        None => false,
        Some(Field::Plain { sort, .. }) => is_truth_sort(*sort),
        Some(Field::Keyed { sort, .. }) => is_truth_sort(*sort),
    }
}

/// Whether what is of a kind is a truth value.
fn is_truth_kind(kind: Option<Kind>) -> bool
    ensures { result ≡ is_truth_kind kind }
{
    match kind {
        None => false,
        Some(Kind::Number) => false,
        Some(Kind::Name) => false,
        Some(Kind::Truth) => true,
    }
}

/// The kind of a shape's leaf with a number; of a number past its leaves, how far past them it is.
#[tactic(auto, using(crate::proofs::LeafKinds::before, crate::proofs::LeafKinds::behind, crate::proofs::LeafKinds::past, crate::proofs::LeafKinds::left_over))]
fn kind_at(shape: &Shape, leaf: u32) -> Result<Kind, u32>
    ensures found { IfOk result (λ kind. slice_get (kinds_of (shape_form shape.now)) leaf ≡ Some kind) }
    ensures past { IfErr result (λ left. length (kinds_of (shape_form shape.now)) ≤ leaf) }
    ensures left { IfErr result (λ left. left ≡ leaf - length (kinds_of (shape_form shape.now))) }
{
    match shape {
        Shape::Max => only_kind(Kind::Number, leaf),
        Shape::Name => only_kind(Kind::Name, leaf),
        Shape::Or => only_kind(Kind::Truth, leaf),
        Shape::Lex(first, second) | Shape::Pair(first, second) => match kind_at(first, leaf) {
            Ok(kind) => Ok(kind),
            Err(left) => kind_at(second, left),
        },
    }
}

/// The same, of one leaf alone.
fn only_kind(kind: Kind, leaf: u32) -> Result<Kind, u32>
    ensures found { IfOk result (λ found. slice_get (kind ∷ []) leaf ≡ Some found) }
    ensures past { IfErr result (λ left. 1 ≤ leaf) }
    ensures left { IfErr result (λ left. left ≡ leaf - 1) }
{
    if leaf == 0 { Ok(kind) } else { Err(leaf - 1) }
}

/// The kind of a component's leaf, if there are both. It takes no memory, since each read of a leaf asks for it.
fn leaf_kind(components: &[Component], component: u32, leaf: u32) -> Option<Kind>
    ensures { result ≡ leaf_kind (slice_get (map component_form components.now) component) leaf }
{
    match components.get(component as usize) {
        None => None,
        Some(component) => kind_in(component, leaf),
    }
}

/// The kind of a leaf of a component.
fn kind_in(component: &Component, leaf: u32) -> Option<Kind>
    ensures { result ≡ leaf_kind (Some (component_form component.now)) leaf }
{
    match component {
        Component::Cell { shape, .. } => kind_at(shape, leaf).ok(),
        Component::Table { shape, .. } => kind_at(shape, leaf).ok(),
        Component::Set { .. } => only_kind(Kind::Truth, leaf).ok(),
        Component::Tally { .. } => only_kind(Kind::Number, leaf).ok(),
        Component::Tallies { .. } => only_kind(Kind::Number, leaf).ok(),
    }
}

/// Whether what is kept at a place is a truth value.
fn is_truth_at(ty: &SeqType, design: &Design, place: Place) -> bool
    ensures { result ≡ is_truth_at (type_form ty.now) (design_form design.now) place }
{
    match place {
        Place::Field(field) => is_truth_field(ty.fields.as_slice(), field),
        Place::Leaf(component, leaf) => {
            is_truth_kind(leaf_kind(design.components.as_slice(), component, leaf))
        }
    }
}
