//! What is read of a state.
ghost use Rattle.std.specs.Prelude.{◌≡◌};
ghost use Rattle.kat_expr.specs.Slots.{absent, argument, is_same, read_plain, read_table, slot_at};

use crate::expressions::Slot;
use kat_num::Value;

/// What stands for a value that isn't there.
const ABSENT: Value = Value::Bool(false);

/// Whether two numbers or two names are equal.
pub fn is_same(left: Value, right: Value) -> bool
    ensures { result ≡ is_same left right }
{
    match (left, right) {
        (Value::Num(x), Value::Num(y)) => x == y,
        (Value::Name(x), Value::Name(y)) => x == y,
        _ => false,
    }
}

/// The value of a field.
pub fn read_plain(state: &[Slot], place: u32) -> Value
    ensures { result ≡ read_plain (slot_at state.now place) }
{
    match state.get(place as usize) {
        Some(Slot::Plain(value)) => *value,
        _ => ABSENT,
    }
}

/// The value of a table at a key.
pub fn read_table(state: &[Slot], place: u32, key: Value) -> Value
    ensures { result ≡ read_table key (slot_at state.now place) }
{
    match state.get(place as usize) {
        Some(Slot::Keyed { start, entries }) => entries.get(key, *start),
        _ => ABSENT,
    }
}

/// The argument with this number.
pub fn argument(args: &[Value], place: u32) -> Value
    ensures { result ≡ argument args.now place }
{
    match args.get(place as usize) {
        Some(value) => *value,
        None => ABSENT,
    }
}
