//! The constants of a type.
ghost use Rattle.std.specs.Prelude.{◌≡◌, [], ◌∷◌, IfOk, map};
ghost use Rattle.kat_rules.specs.Constants.{all_noted, constants_of, first_constants, has_value, noted, start_of, with_value, is_same_value, of_kind};
ghost use Rattle.kat_rules.specs.Listed.{setting_of};
ghost use Rattle.kat_type.specs.Types.{type_form};

use crate::kind_sets::Kinds;
use kat_design::Kind;
use kat_num::{Items, Value};
use kat_type::{Field, SeqType, Signature, signature};
use std::alloc::{AllocError, Global};

/// The constants of a type: its numbers, names and truth values, each in their order.
#[derive(Drop)]
pub struct Constants {
    pub numbers: Items<Value>,
    pub names: Items<Value>,
    pub truths: Items<Value>,
}

/// What a listing knows of its type.
pub struct Setting {
    pub sig: Signature,
    pub constants: Constants,
    pub kinds: Kinds,
}

impl Drop for Setting {
    fn drop(self) {
        let Self {
            sig: _,
            constants: _,
            kinds: _,
        } = self;
    }
}

/// Whether a value is there.
pub(crate) fn has_value(values: &[Value], value: Value) -> bool
    ensures { result ≡ has_value values.now value }
{
    match values {
        [] => false,
        [first, rest @ ..] => is_same_value(*first, value) || has_value(rest, value),
    }
}

/// The values, and one more after them unless it is there already.
fn with_value(values: Items<Value>, value: Value) -> Result<Items<Value>, AllocError>
    ensures { IfOk result (λ all. all ≡ with_value values value) }
{
    if has_value(values.as_slice(), value) {
        return Ok(values);
    }
    let mut all = values.into_vec();
    all.push(value)?;
    Ok(Items::from_vec(all))
}

/// The constants, and a start value among those of its kind.
fn noted(constants: Constants, value: Value) -> Result<Constants, AllocError>
    ensures { IfOk result (λ all. all ≡ noted constants value) }
{
    match value {
        Value::Bool(_) => Ok(Constants {
            numbers: constants.numbers,
            names: constants.names,
            truths: with_value(constants.truths, value)?,
        }),
        Value::Num(_) => Ok(Constants {
            numbers: with_value(constants.numbers, value)?,
            names: constants.names,
            truths: constants.truths,
        }),
        Value::Name(_) => Ok(Constants {
            numbers: constants.numbers,
            names: with_value(constants.names, value)?,
            truths: constants.truths,
        }),
    }
}

/// The start of a field.
fn start_of(field: Field) -> Value
    ensures { result ≡ start_of field }
{
    match field {
        Field::Plain { start, .. } => start,
        Field::Keyed { start, .. } => start,
    }
}

/// The constants, and the starts of fields.
fn all_noted(constants: Constants, fields: &[Field]) -> Result<Constants, AllocError>
    ensures { IfOk result (λ all. all ≡ all_noted constants (map start_of fields.now)) }
{
    match fields {
        [] => Ok(constants),
        [first, rest @ ..] => all_noted(noted(constants, start_of(*first))?, rest),
    }
}

/// A list of one value.
fn alone(alloc: Global, value: Value) -> Result<Items<Value>, AllocError>
    ensures { IfOk result (λ values. values ≡ value ∷ []) }
{
    let mut values = Vec::new(alloc);
    values.push(value)?;
    Ok(Items::from_vec(values))
}

/// The constants that every type has.
fn first_constants(alloc: Global) -> Result<Constants, AllocError>
    ensures { IfOk result (λ constants. constants ≡ first_constants) }
{
    Ok(Constants {
        numbers: alone(alloc, Value::Num(0))?,
        names: alone(alloc, Value::Name(0))?,
        truths: alone(alloc, Value::Bool(false))?,
    })
}

/// The constants of a type with these fields.
fn constants_of(alloc: Global, fields: &[Field]) -> Result<Constants, AllocError>
    ensures { IfOk result (λ constants. constants ≡ constants_of fields.now) }
{
    all_noted(first_constants(alloc)?, fields)
}

/// What a listing knows of a type.
pub fn setting_of(alloc: Global, ty: &SeqType, kinds: Kinds) -> Result<Setting, AllocError>
    ensures { IfOk result (λ setting. setting ≡ setting_of (type_form ty.now) kinds) }
{
    Ok(Setting {
        sig: signature(alloc, ty)?,
        constants: constants_of(alloc, ty.fields.as_slice())?,
        kinds,
    })
}

/// Equal values, in their order.
fn copied(alloc: Global, values: &[Value]) -> Result<Items<Value>, AllocError>
    ensures { IfOk result (λ copy. copy ≡ values.now) }
{
    Ok(Items::from_vec(values.iter().copied().collect(alloc)?))
}

impl Constants {
    /// Equal constants.
    fn copy(&self, alloc: Global) -> Result<Constants, AllocError>
        ensures { IfOk result (λ copy. copy ≡ self.now) }
    {
        Ok(Constants {
            numbers: copied(alloc, self.numbers.as_slice())?,
            names: copied(alloc, self.names.as_slice())?,
            truths: copied(alloc, self.truths.as_slice())?,
        })
    }
}

impl Setting {
    /// An equal setting.
    pub fn copy(&self, alloc: Global) -> Result<Setting, AllocError>
        ensures { IfOk result (λ copy. copy ≡ self.now) }
    {
        Ok(Setting {
            sig: self.sig.copy(alloc)?,
            constants: self.constants.copy(alloc)?,
            kinds: self.kinds,
        })
    }
}

/// Whether two values are equal.
pub(crate) fn is_same_value(left: Value, right: Value) -> bool
    ensures { result ≡ is_same_value left right }
{
    match (left, right) {
        (Value::Bool(a), Value::Bool(b)) => { if a { b } else { !b } }
        (Value::Num(a), Value::Num(b)) => a == b,
        (Value::Name(a), Value::Name(b)) => a == b,
        _ => false,
    }
}

/// The constants of a kind.
pub fn of_kind(constants: &Constants, kind: Kind) -> &[Value]
    ensures { result.now ≡ of_kind constants.now kind }
{
    match kind {
        Kind::Number => constants.numbers.as_slice(),
        Kind::Name => constants.names.as_slice(),
        Kind::Truth => constants.truths.as_slice(),
    }
}
