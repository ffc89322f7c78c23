//! The side after an operation.
ghost use Rattle.std.specs.Prelude.{map, reverse, slice_get};
ghost use Rattle.kat_design.specs.Designs.{design_form};
ghost use Rattle.kat_expr.specs.Terms.{term_of};
ghost use Rattle.kat_type.specs.Types.{assigned_by, operation_form, type_form};
ghost use Rattle.kat_claims.specs.States.{old_side};
ghost use Rattle.kat_vc.specs.Steps.{after_side, element_after, field_after, right_read, value_after};
ghost use Rattle.kat_symbols.specs.Views.{reader_of, GivesRow, GivesSymbol};

use kat_claims::{Change, Numbers, OldSide, field_start, is_truth_field, same_key_read};
use kat_expr::Expr;
use kat_form::Formula;
use kat_linear::Row;
use kat_num::Value;
use kat_symbols::{
    Instance, Name, Place, ReadSide, Reader, Symbol, number_read, numeral, symbol_of, truth_read,
};
use kat_type::{Assign, Operation, Rank};
use std::alloc::{AllocError, Global};

/// The state after the operation with a number, which is the last one.
#[derive(Clone, Copy)]
pub(crate) struct AfterSide<'a> {
    pub(crate) old: OldSide<'a>,
    pub(crate) number: u32,
    pub(crate) op: &'a Operation,
}

impl<'a> AfterSide<'a> {
    /// What is kept at a place after the operation.
    fn value_after(
        &self,
        alloc: Global,
        reader: &mut Reader,
        place: Place,
        at: Option<Instance>,
    ) -> Result<Symbol, AllocError>
        ensures { GivesSymbol (value_after (type_form self.now.old.ty.now) (design_form self.now.old.design.now) self.now.number
            (operation_form self.now.op.now) place at (reader_of reader.old)) result (reader_of reader.new) }
    {
        match place {
            Place::Field(field) => {
                let write = Write {
                    old: self.old,
                    is_truth: is_truth_field(self.old.ty.fields.as_slice(), field),
                    start: field_start(self.old.ty.fields.as_slice(), field),
                    field,
                    at,
                };
                write.field_after(alloc, reader, self.op.assigns.as_slice())
            }
            Place::Leaf(component, leaf) => {
                let change = Change {
                    old: self.old,
                    params: self.op.params.as_slice(),
                    component,
                    at,
                };
                let place = Numbers {
                    op: self.number,
                    leaf,
                };
                change.leaf_after(alloc, reader, self.old.design.components.as_slice(), place)
            }
        }
    }
}

impl<'a> ReadSide for AfterSide<'a> {
    ghost side = { λ s. after_side (type_form s.old.ty.now) (design_form s.old.design.now) s.number (operation_form s.op.now) };

    fn value(
        &self,
        alloc: Global,
        reader: &mut Reader,
        place: Place,
        at: Option<Instance>,
    ) -> Result<Symbol, AllocError> {
        let name = Name::Kept(place, at);
        match reader.found(alloc, name)? {
            Some(symbol) => Ok(symbol),
            None => {
                let symbol = self.value_after(alloc, reader, place, at)?;
                reader.keep(alloc, name, symbol)
            }
        }
    }

    fn begun(&self, reader: &mut Reader) -> Result<Formula, AllocError> {
        Ok(Formula::True)
    }

    fn element(
        &self,
        alloc: Global,
        reader: &mut Reader,
        position: u32,
    ) -> Result<Row, AllocError> {
        element_after(alloc, reader, self.op.ranks.as_slice(), position)
    }
}

/// An element of a rank that the operation has.
fn element_after(
    alloc: Global,
    reader: &mut Reader,
    ranks: &[Rank],
    position: u32,
) -> Result<Row, AllocError>
    ensures { GivesRow (element_after (slice_get ranks.now position) (reader_of reader.old)) result (reader_of reader.new) }
{
    match ranks.get(position as usize) {
        None => Ok(numeral(alloc, 0)),
        Some(Rank::Digit(digit)) => Ok(numeral(alloc, i128::from(*digit))),
        Some(Rank::Time) => reader.read_name(alloc, Name::Time),
        Some(Rank::Replica) => reader.read_name(alloc, Name::Replica),
        Some(Rank::Arg(place)) => reader.read_name(alloc, Name::Key(Instance::Argument(*place))),
    }
}

/// A field that is read after assignments, at a key if it is a table.
#[derive(Clone, Copy)]
struct Write<'a> {
    old: OldSide<'a>,
    is_truth: bool,
    start: Value,
    field: u32,
    at: Option<Instance>,
}

impl<'a> Write<'a> {
    /// What is assigned, in the old state.
    fn right_read(
        &self,
        alloc: Global,
        reader: &mut Reader,
        right: &Expr,
    ) -> Result<Symbol, AllocError>
        ensures { GivesSymbol (right_read (old_side (type_form self.now.old.ty.now) (design_form self.now.old.design.now))
            self.now.is_truth (term_of right.now) (reader_of reader.old)) result (reader_of reader.new) }
    {
        if self.is_truth {
            Ok(Symbol::Truth(truth_read(alloc, reader, &self.old, None, right)?))
        } else {
            Ok(Symbol::Number(number_read(alloc, reader, &self.old, None, right)?))
        }
    }

    /// The field after the assignments, of which the last ones count first.
    fn field_after(
        &self,
        alloc: Global,
        reader: &mut Reader,
        assigns: &[Assign],
    ) -> Result<Symbol, AllocError>
        ensures { GivesSymbol (field_after (old_side (type_form self.now.old.ty.now) (design_form self.now.old.design.now))
            self.now.is_truth self.now.start self.now.field self.now.at (reverse (map assigned_by assigns.now)) (reader_of reader.old)) result
            (reader_of reader.new) }
    {
        match assigns {
            [] => self
                .old
                .value(alloc, reader, Place::Field(self.field), self.at),
            [earlier @ .., Assign::Plain { field, right }] => {
                if *field == self.field {
                    self.right_read(alloc, reader, right)
                } else {
                    self.field_after(alloc, reader, earlier)
                }
            }
            [earlier @ .., Assign::Keyed { field, key, right }] => {
                if *field == self.field {
                    let same = same_key_read(alloc, reader, self.at, *key)?;
                    let new = self.right_read(alloc, reader, right)?;
                    let old = self.field_after(alloc, reader, earlier)?;
                    reader.symbol_if(alloc, same, new, old)
                } else {
                    self.field_after(alloc, reader, earlier)
                }
            }
            [earlier @ .., Assign::Clear { field }] => {
                if *field == self.field {
                    symbol_of(alloc, self.start)
                } else {
                    self.field_after(alloc, reader, earlier)
                }
            }
        }
    }
}
