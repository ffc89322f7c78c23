//! Printing plain parts: a JSON value for each.
ghost use Rattle.std.specs.Prelude.{◌≡◌, IfOk, ◌∷◌, [], ◌++◌, decimal, map, ◌<◌};
ghost use Rattle.kat_design.specs.Sorted.{IsWritten};
ghost use Rattle.serde_json.specs.View.{view};
ghost use Rattle.kat_json.specs.Printed.{value_data, sort_data, effect_data, keyed_data, key_data, leaf_data};
ghost use Rattle.serde_json.specs.Data.{number as a_number, string, Data};
ghost use Rattle.serde_json.specs.Find.{of_integer};
ghost use Rattle.kat_json.specs.WrittenParts.{Is64Bits};
ghost use Rattle.kat_num.specs.Names.{IsNameCode, name_of_code};
ghost use Rattle.kat_json.specs.Lists.{list};

use crate::forms::{AnySort, EffectLeaf, EffectOf, Key, KeyedBy, ListOf};
use kat_design::Leaf;
use kat_num::{Items, Sort, Value as Constant, bytes_of};
use serde_json::{Number, Value};
use std::alloc::{AllocError, Global};

/// A start or a constant.
pub fn constant_value(alloc: Global, constant: Constant) -> Result<Value, AllocError>
    requires { IsWritten constant }
    ensures { IfOk result (λ value. view value ≡ value_data constant) }
{
    match constant {
        Constant::Bool(truth) => Ok(Value::from(truth)),
        Constant::Num(number) => Ok(number_value(number)),
        Constant::Name(code) => name_value(alloc, code),
    }
}

/// A number of 64 bits.
pub fn number_value(number: i128) -> Value
    requires { Is64Bits number }
    ensures { view result ≡ a_number (of_integer number) }
{
    match Number::from_i128(number) {
        Some(number) => Value::from(number),
        None => unreachable!(),
    }
}

/// A name.
pub fn name_value(alloc: Global, code: u128) -> Result<Value, AllocError>
    requires { IsNameCode code }
    ensures { IfOk result (λ value. view value ≡ string (name_of_code code)) }
{
    match String::from_utf8(bytes_of(alloc, code)?) {
        Ok(name) => Ok(Value::from(name)),
        Err(_) => unreachable!(),
    }
}

/// A sort.
pub fn sort_value(alloc: Global, sort: Sort) -> Result<Value, AllocError>
    ensures { IfOk result (λ value. view value ≡ sort_data sort) }
{
    match sort {
        Sort::Bool => word(alloc, "bool"),
        Sort::Int => word(alloc, "int"),
        Sort::Nat => word(alloc, "nat"),
        Sort::Name => word(alloc, "name"),
    }
}

/// A word with two values after it.
pub fn three(alloc: Global, tag: &str, first: Value, second: Value) -> Result<Value, AllocError>
    ensures { IfOk result (λ value. view value ≡ list (string tag.now ∷ view first ∷ view second ∷ [])) }
{
    let word = word(alloc, tag)?;
    Ok(Value::from(vec![in alloc; word, first, second]?))
}

/// A word.
pub fn word(alloc: Global, text: &str) -> Result<Value, AllocError>
    ensures { IfOk result (λ value. view value ≡ string text.now) }
{
    Value::try_from_str(alloc, text)
}

/// A word with a number after it.
fn numbered(alloc: Global, word: &str, place: u32) -> Result<Value, AllocError>
    ensures { IfOk result (λ value. view value ≡ string (word.now ++ decimal place)) }
{
    let text = format!(in alloc; "{word}{place}")?;
    Ok(Value::from(text))
}

/// How what a form says is printed.
pub trait Print {
    type Printed;

    // the value that is printed
    ghost printed: { Self.Printed → Data };

    fn value(alloc: Global, item: &Self::Printed) -> Result<Value, AllocError>
        ensures { IfOk result (λ value. view value ≡ printed item.now) };
}

impl<P: Print> Print for ListOf<P> {
    type Printed = Items<P::Printed>;

    ghost printed = { λ items. list (map P.Print.printed items) };

    fn value(alloc: Global, items: &Items<P::Printed>) -> Result<Value, AllocError> {
        list_value::<P>(alloc, items.as_slice())
    }
}

pub fn list_value<P: Print>(alloc: Global, items: &[P::Printed]) -> Result<Value, AllocError>
    ensures { IfOk result (λ value. view value ≡ list (map P.printed items.now)) }
{
    let mut values = Vec::with_capacity(alloc, items.len())?;
    for item in items {
        let value = P::value(alloc, item)?;
        values.push(value)?;
    }
    Ok(Value::from(values))
}

impl<P: Print> Print for EffectOf<P> {
    type Printed = Option<P::Printed>;

    ghost printed = { effect_data P.Print.printed };

    fn value(alloc: Global, effect: &Option<P::Printed>) -> Result<Value, AllocError> {
        match effect {
            Some(effect) => P::value(alloc, effect),
            None => Ok(Value::Null),
        }
    }
}

impl<P: Print> Print for KeyedBy<P> {
    type Printed = (u32, P::Printed);

    ghost printed = { keyed_data P.Print.printed };

    fn value(alloc: Global, effect: &(u32, P::Printed)) -> Result<Value, AllocError> {
        let key = Key::value(alloc, &effect.0)?;
        let given = P::value(alloc, &effect.1)?;
        Ok(Value::from(vec![in alloc; key, given]?))
    }
}

impl Print for Key {
    type Printed = u32;

    ghost printed = { key_data };

    fn value(alloc: Global, place: &u32) -> Result<Value, AllocError> {
        numbered(alloc, "p", *place)
    }
}

impl Print for EffectLeaf {
    type Printed = Leaf;

    ghost printed = { leaf_data };

    fn value(alloc: Global, leaf: &Leaf) -> Result<Value, AllocError> {
        match leaf {
            Leaf::Arg(place) => numbered(alloc, "p", *place),
            Leaf::Time => word(alloc, "time"),
            Leaf::Replica => word(alloc, "replica"),
            Leaf::Zero => Ok(Value::from(0_u32)),
            Leaf::One => Ok(Value::from(1_u32)),
            Leaf::Pos(place) => numbered(alloc, "pos", *place),
            Leaf::Neg(place) => numbered(alloc, "neg", *place),
            Leaf::False => Ok(Value::from(false)),
            Leaf::True => Ok(Value::from(true)),
        }
    }
}

impl Print for AnySort {
    type Printed = Sort;

    ghost printed = { sort_data };

    fn value(alloc: Global, sort: &Sort) -> Result<Value, AllocError> {
        sort_value(alloc, *sort)
    }
}
