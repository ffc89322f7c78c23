//! What an operation gives to the leaves of a component, joined with what is there.
ghost use Rattle.std.specs.Prelude.{◌≡◌, ◌+◌, IfOk, Some, map, option_map, slice_get};
ghost use Rattle.std.specs.Option.{option_flatten};
ghost use Rattle.kat_design.specs.Designs.{component_form};
ghost use Rattle.kat_linear.specs.Rows.{form_of};
ghost use Rattle.kat_shape.specs.Forms.{form_of as shape_form, width_of};
ghost use Rattle.kat_claims.specs.Changes.{effects_of, old_of};
ghost use Rattle.kat_symbols.specs.Readers.{read_once};
ghost use Rattle.kat_claims.specs.Effects.{above_zero, added_read, cell_after, either_read, gift_read, greater_read, grown_read, is_truth_parameter, join_read, leaf_after, ordered_by, pairs_read, same_key_read, set_after, table_after, tallies_after, tally_after};
ghost use Rattle.kat_symbols.specs.Views.{behind, pairs_form, reader_of, symbol_form, GivesFact, GivesSymbol};

use crate::states::{OldSide, is_truth_sort};
use kat_design::{Component, Leaf};
use kat_form::Formula;
use kat_linear::Row;
use kat_num::Items;
use kat_shape::Shape;
use kat_symbols::{
    Instance, Name, Place, ReadSide, Reader, Symbol, either, greater, less, minus, numeral, plus,
    same, symbols_greater, symbols_less,
};
use kat_type::Param;
use std::alloc::{AllocError, Global};

/// A change of a component at a key: the state before it, and the parameters of the operation.
#[derive(Clone, Copy)]
pub struct Change<'a> {
    pub old: OldSide<'a>,
    pub params: &'a [Param],
    pub component: u32,
    pub at: Option<Instance>,
}

/// The numbers of an operation and of a leaf.
#[derive(Clone, Copy)]
pub struct Numbers {
    pub op: u32,
    pub leaf: u32,
}

/// Whether an argument is a truth value.
fn is_truth_parameter(params: &[Param], place: u32) -> bool
    ensures { result ≡ is_truth_parameter (slice_get params.now place) }
{
    match params.get(place as usize) {
        None => false,
        Some(param) => is_truth_sort(param.sort),
    }
}

/// A number, or 0 if it is less.
fn above_zero(alloc: Global, reader: &mut Reader, row: Row) -> Result<Symbol, AllocError>
    ensures { GivesSymbol (above_zero (form_of row) (reader_of reader.old)) result (reader_of reader.new) }
{
    let zero = numeral(alloc, 0);
    let is_less = less(alloc, &row, &zero)?;
    Ok(Symbol::Number(reader.choose(alloc, is_less, zero, row)?))
}

/// What an operation gives to a leaf.
fn gift_read(
    alloc: Global,
    reader: &mut Reader,
    params: &[Param],
    gift: Leaf,
) -> Result<Symbol, AllocError>
    ensures { GivesSymbol (gift_read params.now gift (reader_of reader.old)) result (reader_of reader.new) }
{
    match gift {
        Leaf::Arg(place) => {
            let name = Name::Key(Instance::Argument(place));
            reader.read_variable(alloc, is_truth_parameter(params, place), name)
        }
        Leaf::Time => Ok(Symbol::Number(reader.read_name(alloc, Name::Time)?)),
        Leaf::Replica => Ok(Symbol::Number(reader.read_name(alloc, Name::Replica)?)),
        Leaf::Zero => Ok(Symbol::Number(numeral(alloc, 0))),
        Leaf::One => Ok(Symbol::Number(numeral(alloc, 1))),
        Leaf::Pos(place) => {
            let row = reader.read_name(alloc, Name::Key(Instance::Argument(place)))?;
            above_zero(alloc, reader, row)
        }
        Leaf::Neg(place) => {
            let row = reader.read_name(alloc, Name::Key(Instance::Argument(place)))?;
            let opposite = minus(alloc, &numeral(alloc, 0), &row)?;
            above_zero(alloc, reader, opposite)
        }
        Leaf::False => Ok(Symbol::Truth(Formula::False)),
        Leaf::True => Ok(Symbol::Truth(Formula::True)),
    }
}

/// The effect of the operation with a number, if it has one.
fn effect_at<T>(effects: &[Option<T>], op: u32) -> Option<&T>
    ensures { option_map (λ effect. effect.now) result ≡ option_flatten (slice_get effects.now op) }
{
    match effects.get(op as usize) {
        None => None,
        Some(None) => None,
        Some(Some(effect)) => Some(effect),
    }
}

/// What is given to a leaf, if there is something.
fn gift_at(gifts: &[Leaf], leaf: u32) -> Option<Leaf>
    ensures { result ≡ slice_get gifts.now leaf }
{
    gifts.get(leaf as usize).copied()
}

/// What an operation gives to a leaf, read once.
fn gift_once(
    alloc: Global,
    reader: &mut Reader,
    params: &[Param],
    name: Name,
    gift: Leaf,
) -> Result<Symbol, AllocError>
    ensures { GivesSymbol (read_once name (gift_read params.now gift) (reader_of reader.old)) result (reader_of reader.new) }
{
    match reader.found(alloc, name)? {
        Some(symbol) => Ok(symbol),
        None => {
            let symbol = gift_read(alloc, reader, params, gift)?;
            reader.keep(alloc, name, symbol)
        }
    }
}

impl<'a> Change<'a> {
    /// The leaf before the operation.
    fn old_leaf(&self, alloc: Global, reader: &mut Reader, leaf: u32) -> Result<Symbol, AllocError>
        ensures { GivesSymbol (old_of self.now leaf (reader_of reader.old)) result (reader_of reader.new) }
    {
        let place = Place::Leaf(self.component, leaf);
        self.old.value(alloc, reader, place, self.at)
    }

    /// What the operation gives to the leaf.
    fn effect(
        &self,
        alloc: Global,
        reader: &mut Reader,
        gifts: &[Leaf],
        leaf: u32,
    ) -> Result<Symbol, AllocError>
        ensures { GivesSymbol (effects_of self.now gifts.now leaf (reader_of reader.old)) result (reader_of reader.new) }
    {
        match gift_at(gifts, leaf) {
            None => Ok(Symbol::Truth(Formula::False)),
            Some(gift) => {
                let name = Name::Effect(self.component, leaf);
                gift_once(alloc, reader, self.params, name, gift)
            }
        }
    }

    /// The greater of a leaf and its effect.
    fn greater_read(
        &self,
        alloc: Global,
        reader: &mut Reader,
        gifts: &[Leaf],
        leaf: u32,
    ) -> Result<Symbol, AllocError>
        ensures { GivesSymbol (greater_read (old_of self.now) (effects_of self.now gifts.now) leaf (reader_of reader.old)) result
            (reader_of reader.new) }
    {
        let old = self.old_leaf(alloc, reader, leaf)?.into_number(alloc);
        let effect = self.effect(alloc, reader, gifts, leaf)?.into_number(alloc);
        Ok(Symbol::Number(greater(alloc, reader, old, effect)?))
    }

    /// A leaf or its effect.
    fn either_read(
        &self,
        alloc: Global,
        reader: &mut Reader,
        gifts: &[Leaf],
        leaf: u32,
    ) -> Result<Symbol, AllocError>
        ensures { GivesSymbol (either_read (old_of self.now) (effects_of self.now gifts.now) leaf (reader_of reader.old)) result
            (reader_of reader.new) }
    {
        let old = self.old_leaf(alloc, reader, leaf)?.into_truth();
        let effect = self.effect(alloc, reader, gifts, leaf)?.into_truth();
        Ok(Symbol::Truth(either(alloc, old, effect)?))
    }

    /// This many leaves from a number on, each with its effect.
    fn push_pairs(
        &self,
        alloc: Global,
        reader: &mut Reader,
        gifts: &[Leaf],
        from: u32,
        left: u32,
        pairs: &mut Vec<(Symbol, Symbol)>,
    ) -> Result<(), AllocError>
        ensures { IfOk result (λ u. behind (pairs_form pairs.old.items)
            (pairs_read (old_of self.now) (effects_of self.now gifts.now) from left (reader_of reader.old))
            ≡ (pairs_form pairs.new.items, reader_of reader.new)) }
    {
        if left == 0 {
            return Ok(());
        }
        let old = self.old_leaf(alloc, reader, from)?;
        let effect = self.effect(alloc, reader, gifts, from)?;
        pairs.push((old, effect))?;
        let next = sum(from, 1)?;
        self.push_pairs(alloc, reader, gifts, next, left - 1, pairs)?;
        Ok(())
    }

    /// A leaf of the join of a shape whose first leaf has the number `from`.
    fn join_read(
        &self,
        alloc: Global,
        reader: &mut Reader,
        gifts: &[Leaf],
        shape: &Shape,
        from: u32,
        leaf: u32,
    ) -> Result<Symbol, AllocError>
        ensures { GivesSymbol (join_read (old_of self.now) (effects_of self.now gifts.now) (shape_form shape.now) from leaf
            (reader_of reader.old)) result (reader_of reader.new) }
    {
        match shape {
            Shape::Max => self.greater_read(alloc, reader, gifts, leaf),
            Shape::Name => self.greater_read(alloc, reader, gifts, leaf),
            Shape::Or => self.either_read(alloc, reader, gifts, leaf),
            Shape::Lex(a, b) => {
                let width = width(a)?;
                let second = sum(from, width)?;
                if leaf < second {
                    self.join_read(alloc, reader, gifts, a, from, leaf)
                } else {
                    let mut first = Vec::new(alloc);
                    self.push_pairs(alloc, reader, gifts, from, width, &mut first)?;
                    let effect = self.effect(alloc, reader, gifts, leaf)?;
                    let old = self.old_leaf(alloc, reader, leaf)?;
                    let joined = self.join_read(alloc, reader, gifts, b, second, leaf)?;
                    ordered_by(alloc, reader, &first, effect, old, joined)
                }
            }
            Shape::Pair(a, b) => {
                let second = sum(from, width(a)?)?;
                if leaf < second {
                    self.join_read(alloc, reader, gifts, a, from, leaf)
                } else {
                    self.join_read(alloc, reader, gifts, b, second, leaf)
                }
            }
        }
    }

    /// A sum that grows by a weight.
    fn grown_read(
        &self,
        alloc: Global,
        reader: &mut Reader,
        gift: Leaf,
        leaf: u32,
    ) -> Result<Symbol, AllocError>
        ensures { GivesSymbol (grown_read (old_of self.now) self.now.params.now self.now.component gift leaf (reader_of reader.old)) result
            (reader_of reader.new) }
    {
        let old = self.old_leaf(alloc, reader, leaf)?.into_number(alloc);
        let name = Name::Effect(self.component, 0);
        let weight = gift_once(alloc, reader, self.params, name, gift)?.into_number(alloc);
        Ok(Symbol::Number(plus(alloc, &old, &weight)?))
    }

    /// The key is in the set.
    fn added_read(
        &self,
        alloc: Global,
        reader: &mut Reader,
        leaf: u32,
    ) -> Result<Symbol, AllocError>
        ensures { GivesSymbol (added_read (old_of self.now) leaf (reader_of reader.old)) result (reader_of reader.new) }
    {
        let old = self.old_leaf(alloc, reader, leaf)?.into_truth();
        Ok(Symbol::Truth(either(alloc, old, Formula::True)?))
    }

    /// A leaf of the whole join.
    fn joined(
        &self,
        alloc: Global,
        reader: &mut Reader,
        shape: &Shape,
        gifts: &Items<Leaf>,
        leaf: u32,
    ) -> Result<Symbol, AllocError>
        ensures { GivesSymbol (join_read (old_of self.now) (effects_of self.now gifts.now) (shape_form shape.now) 0 leaf
            (reader_of reader.old)) result (reader_of reader.new) }
    {
        self.join_read(alloc, reader, gifts.as_slice(), shape, 0, leaf)
    }

    /// A leaf of a cell after the operation with a number.
    fn cell_after(
        &self,
        alloc: Global,
        reader: &mut Reader,
        shape: &Shape,
        effects: &[Option<Items<Leaf>>],
        place: Numbers,
    ) -> Result<Symbol, AllocError>
        ensures { GivesSymbol (cell_after (old_of self.now) self.now.params.now self.now.component (shape_form shape.now)
            (option_flatten (slice_get effects.now place.op)) place.leaf (reader_of reader.old)) result (reader_of reader.new) }
    {
        match effect_at(effects, place.op) {
            None => self.old_leaf(alloc, reader, place.leaf),
            Some(gifts) => self.joined(alloc, reader, shape, gifts, place.leaf),
        }
    }

    /// A leaf of a table after an effect at the key of an argument.
    fn joined_at(
        &self,
        alloc: Global,
        reader: &mut Reader,
        shape: &Shape,
        effect: &(u32, Items<Leaf>),
        leaf: u32,
    ) -> Result<Symbol, AllocError>
        ensures { GivesSymbol (table_after (old_of self.now) self.now.params.now self.now.component self.now.at (shape_form shape.now)
            (Some effect.now) leaf (reader_of reader.old)) result (reader_of reader.new) }
    {
        let same = same_key_read(alloc, reader, self.at, effect.0)?;
        let new = self.joined(alloc, reader, shape, &effect.1, leaf)?;
        let old = self.old_leaf(alloc, reader, leaf)?;
        reader.symbol_if(alloc, same, new, old)
    }

    /// A leaf of a table after the operation with a number.
    fn table_after(
        &self,
        alloc: Global,
        reader: &mut Reader,
        shape: &Shape,
        effects: &[Option<(u32, Items<Leaf>)>],
        place: Numbers,
    ) -> Result<Symbol, AllocError>
        ensures { GivesSymbol (table_after (old_of self.now) self.now.params.now self.now.component self.now.at (shape_form shape.now)
            (option_flatten (slice_get effects.now place.op)) place.leaf (reader_of reader.old)) result (reader_of reader.new) }
    {
        match effect_at(effects, place.op) {
            None => self.old_leaf(alloc, reader, place.leaf),
            Some(effect) => self.joined_at(alloc, reader, shape, effect, place.leaf),
        }
    }

    /// The leaf of a set after the operation with a number.
    fn set_after(
        &self,
        alloc: Global,
        reader: &mut Reader,
        effects: &[Option<u32>],
        place: Numbers,
    ) -> Result<Symbol, AllocError>
        ensures { GivesSymbol (set_after (old_of self.now) self.now.at (option_flatten (slice_get effects.now place.op)) place.leaf
            (reader_of reader.old)) result (reader_of reader.new) }
    {
        match effects.get(place.op as usize) {
            None => self.old_leaf(alloc, reader, place.leaf),
            Some(None) => self.old_leaf(alloc, reader, place.leaf),
            Some(Some(key)) => {
                let same = same_key_read(alloc, reader, self.at, *key)?;
                let new = self.added_read(alloc, reader, place.leaf)?;
                let old = self.old_leaf(alloc, reader, place.leaf)?;
                reader.symbol_if(alloc, same, new, old)
            }
        }
    }

    /// The sum of a tally after the operation with a number.
    fn tally_after(
        &self,
        alloc: Global,
        reader: &mut Reader,
        effects: &[Option<Leaf>],
        place: Numbers,
    ) -> Result<Symbol, AllocError>
        ensures { GivesSymbol (tally_after (old_of self.now) self.now.params.now self.now.component
            (option_flatten (slice_get effects.now place.op)) place.leaf (reader_of reader.old)) result (reader_of reader.new) }
    {
        match effects.get(place.op as usize) {
            None => self.old_leaf(alloc, reader, place.leaf),
            Some(None) => self.old_leaf(alloc, reader, place.leaf),
            Some(Some(gift)) => self.grown_read(alloc, reader, *gift, place.leaf),
        }
    }

    /// The sum of tallies by key after the operation with a number.
    fn tallies_after(
        &self,
        alloc: Global,
        reader: &mut Reader,
        effects: &[Option<(u32, Leaf)>],
        place: Numbers,
    ) -> Result<Symbol, AllocError>
        ensures { GivesSymbol (tallies_after (old_of self.now) self.now.params.now self.now.component self.now.at
            (option_flatten (slice_get effects.now place.op)) place.leaf (reader_of reader.old)) result (reader_of reader.new) }
    {
        match effects.get(place.op as usize) {
            None => self.old_leaf(alloc, reader, place.leaf),
            Some(None) => self.old_leaf(alloc, reader, place.leaf),
            Some(Some((key, gift))) => {
                let same = same_key_read(alloc, reader, self.at, *key)?;
                let new = self.grown_read(alloc, reader, *gift, place.leaf)?;
                let old = self.old_leaf(alloc, reader, place.leaf)?;
                reader.symbol_if(alloc, same, new, old)
            }
        }
    }

    /// A leaf of a component after the operation with a number.
    fn component_after(
        &self,
        alloc: Global,
        reader: &mut Reader,
        component: &Component,
        place: Numbers,
    ) -> Result<Symbol, AllocError>
        ensures { GivesSymbol (leaf_after (old_of self.now) self.now.params.now place.op self.now.component self.now.at
            (Some (component_form component.now)) place.leaf (reader_of reader.old)) result (reader_of reader.new) }
    {
        match component {
            Component::Cell { shape, effects, .. } => {
                self.cell_after(alloc, reader, shape, effects.as_slice(), place)
            }
            Component::Table { shape, effects, .. } => {
                self.table_after(alloc, reader, shape, effects.as_slice(), place)
            }
            Component::Set { effects, .. } => {
                self.set_after(alloc, reader, effects.as_slice(), place)
            }
            Component::Tally { effects } => {
                self.tally_after(alloc, reader, effects.as_slice(), place)
            }
            Component::Tallies { effects, .. } => {
                self.tallies_after(alloc, reader, effects.as_slice(), place)
            }
        }
    }

    /// A leaf of the component after the operation with a number; if there is no component, what the old side has. Leaves past 32
    /// bits are answered as out of memory.
    pub fn leaf_after(
        &self,
        alloc: Global,
        reader: &mut Reader,
        components: &[Component],
        place: Numbers,
    ) -> Result<Symbol, AllocError>
        ensures { GivesSymbol (leaf_after (old_of self.now) self.now.params.now place.op self.now.component self.now.at
            (slice_get (map component_form components.now) self.now.component) place.leaf (reader_of reader.old)) result
            (reader_of reader.new) }
    {
        match components.get(self.component as usize) {
            None => self.old_leaf(alloc, reader, place.leaf),
            Some(component) => self.component_after(alloc, reader, component, place),
        }
    }
}

/// A key is the one that an argument gives. What has no key is at none.
pub fn same_key_read(
    alloc: Global,
    reader: &mut Reader,
    at: Option<Instance>,
    key: u32,
) -> Result<Formula, AllocError>
    ensures { GivesFact (same_key_read at key (reader_of reader.old)) result (reader_of reader.new) }
{
    match at {
        None => Ok(Formula::False),
        Some(instance) => {
            let own = reader.read_name(alloc, Name::Key(instance))?;
            let given = reader.read_name(alloc, Name::Key(Instance::Argument(key)))?;
            same(alloc, &own, &given)
        }
    }
}

/// A leaf of a second part by the first parts and their effects.
fn ordered_by(
    alloc: Global,
    reader: &mut Reader,
    first: &[(Symbol, Symbol)],
    effect: Symbol,
    old: Symbol,
    joined: Symbol,
) -> Result<Symbol, AllocError>
    ensures { GivesSymbol (ordered_by (pairs_form first.now) (symbol_form effect) (symbol_form old) (symbol_form joined)
        (reader_of reader.old)) result (reader_of reader.new) }
{
    let greater = symbols_greater(alloc, first)?;
    let rest = reader.symbol_if(alloc, greater, old, joined)?;
    let less = symbols_less(alloc, first)?;
    reader.symbol_if(alloc, less, effect, rest)
}

/// The number of leaves of a shape. More than 32 bits count are answered as out of memory.
fn width(shape: &Shape) -> Result<u32, AllocError>
    ensures { IfOk result (λ width. width ≡ width_of (shape_form shape.now)) }
{
    match shape {
        Shape::Max => Ok(1),
        Shape::Name => Ok(1),
        Shape::Or => Ok(1),
        Shape::Lex(a, b) => sum(width(a)?, width(b)?),
        Shape::Pair(a, b) => sum(width(a)?, width(b)?),
    }
}

/// The sum of two counts or places. More than 32 bits are answered as out of memory.
pub fn sum(a: u32, b: u32) -> Result<u32, AllocError>
    ensures { IfOk result (λ sum. sum ≡ a + b) }
{
    match a.checked_add(b) {
        Some(sum) => Ok(sum),
        None => Err(AllocError),
    }
}
