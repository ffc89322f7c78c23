//! The entries of a table.
ghost use Rattle.std.specs.Prelude.{◌≡◌, ◌↔◌, ◌++◌, ◌∷◌, ◌<◌, ◌≤◌, ℕ, [], true, false, length, IfOk, IsTrue, OnErr, OnOk, slice_index_or};
ghost use Rattle.kat_expr.specs.Entries.{AreAscending, IsKey, IsLast, is_before};
ghost use Rattle.kat_expr.specs.Puts.{IsInside, Undoes, taken_back, with_value};
ghost use Rattle.kat_expr.specs.Slots.{entry_at, is_same};
ghost use Rattle.kat_num.specs.declared.values.Value.{Value};

use crate::slots::is_same;
use kat_num::Value;
use std::alloc::{AllocError, Global};
use std::marker::Model;
use std::mem;

/// What a step changed, with all that is needed to take it back without memory.
#[derive(Clone, Copy, PartialEq, Eq, Debug)]
pub enum Undo {
    /// Nothing changed.
    Nothing,
    /// An entry was inserted at a place.
    Added(usize),
    /// An entry was replaced: the place, and what was there.
    Changed(usize, (Value, Value)),
}

/// The values of a table at some keys, ascending by key. Contracts see them as a list.
///
/// ```
/// let mut entries = Entries::new(alloc);
/// entries.push(alloc, Value::Num(1), Value::Bool(true))?;
/// entries.push(alloc, Value::Num(7), Value::Bool(false))?;
/// assert!(entries.get(Value::Num(7), Value::Bool(true)) == Value::Bool(false));
/// ```
pub struct Entries {
    entries: Vec<(Value, Value)>,
}

impl Drop for Entries {
    fn drop(self) {
        let Self { entries: _ } = self;
    }
}

impl Model for Entries {
    ghost use Rattle.std.specs.Prelude.{List};
    ghost use Rattle.kat_num.specs.declared.values.Value as values;
    ghost use Rattle.kat_expr.specs.Entries.{AreAscending};

    ghost Value = { List (values.Value × values.Value) };

    ghost view = { λ table. table.entries.items };

    ghost invariant = { λ table. AreAscending table.entries.items };
}

impl Entries {
    /// No entries.
    pub fn new(alloc: Global) -> Entries
        ensures { result ≡ [] }
    {
        Entries {
            entries: Vec::new(alloc),
        }
    }

    /// Whether an entry with this key may be put after the others: it is a number or a name, and comes after
    /// their keys.
    pub fn goes_behind(&self, key: Value) -> bool
        ensures { IsTrue result ↔ IsLast self.now key }
    {
        is_last(&self.entries, key)
    }

    /// Puts an entry after the others. After an error they are as they were.
    pub fn push(&mut self, _alloc: Global, key: Value, value: Value) -> Result<(), AllocError>
        requires { IsLast self.old key }
        ensures ok { OnOk result (self.new ≡ self.old ++ (key, value) ∷ []) }
        ensures err { OnErr result (self.new ≡ self.old) }
    {
        self.entries.push((key, value))?;
        Ok(())
    }

    /// Keeps a value at a key, and gives what takes the step back. If the key is a truth value, nothing is kept, and
    /// after an error the entries are as they were.
    pub fn put(&mut self, _alloc: Global, key: Value, value: Value) -> Result<Undo, AllocError>
        ensures ok { OnOk result (self.new ≡ with_value key value self.old) }
        ensures back { IfOk result (λ undo. Undoes undo self.old self.new) }
        ensures err { OnErr result (self.new ≡ self.old) }
    {
        let place = place_of(&self.entries, key);
        if !is_key(key) {
            return Ok(Undo::Nothing);
        }
        if has_key_at(&self.entries, place, key) {
            let entry = mem::replace(&mut self.entries[place], (key, value));
            return Ok(Undo::Changed(place, entry));
        }
        self.entries.insert(place, (key, value))?;
        Ok(Undo::Added(place))
    }

    /// Takes a step back, without memory.
    pub fn take_back(&mut self, undo: Undo)
        requires inside { IsInside undo self.old }
        requires kept { AreAscending (taken_back undo self.old) }
        ensures { self.new ≡ taken_back undo self.old }
    {
        match undo {
            Undo::Nothing => {}
            Undo::Added(place) => {
                self.entries.remove(place);
            }
            Undo::Changed(place, entry) => self.entries[place] = entry,
        }
    }

    /// The entries.
    pub fn as_slice(&self) -> &[(Value, Value)]
        ensures all { result.now ≡ self.now }
        ensures ascending { AreAscending self.now }
    {
        &self.entries
    }

    /// The value at a key, which is the start if there is no entry.
    pub fn get(&self, key: Value, start: Value) -> Value
        ensures { result ≡ entry_at key start self.now }
    {
        look_up(&self.entries, key, start)
    }
}

/// Whether the entry at a place is that of the key.
fn has_key_at(entries: &[(Value, Value)], place: usize, key: Value) -> bool
    ensures there { result ≡ true → (place < length entries.now)
        × ((d : Value × Value) → is_same (slice_index_or entries.now place d).0 key ≡ true) }
    ensures other { result ≡ false → place < length entries.now → (d : Value × Value)
        → is_same (slice_index_or entries.now place d).0 key ≡ false }
{
    if place >= entries.len() {
        return false;
    }
    is_same(entries[place].0, key)
}

/// Whether the key comes after those of the entries.
fn is_last(entries: &[(Value, Value)], key: Value) -> bool
    requires { AreAscending entries.now }
    ensures { IsTrue result ↔ IsLast entries.now key }
{
    if !is_key(key) {
        return false;
    }
    let count = entries.len();
    if count == 0 {
        return true;
    }
    is_before(entries[count - 1].0, key)
}

/// Whether the value is a number or a name.
fn is_key(value: Value) -> bool
    ensures { IsTrue result ↔ IsKey value }
{
    match value {
        Value::Bool(_) => false,
        Value::Num(_) | Value::Name(_) => true,
    }
}

/// The value at a key, or else the start.
fn look_up(entries: &[(Value, Value)], key: Value, start: Value) -> Value
    requires { AreAscending entries.now }
    ensures { result ≡ entry_at key start entries.now }
{
    let place = place_of(entries, key);
    if place < entries.len() && is_same(entries[place].0, key) {
        entries[place].1
    } else {
        start
    }
}

/// How many entries have a key before this one.
fn place_of(entries: &[(Value, Value)], key: Value) -> usize
    requires { AreAscending entries.now }
    ensures within { result ≤ length entries.now }
    ensures before { (i : ℕ) (d : Value × Value) → i < result → is_before (slice_index_or entries.now i d).0 key ≡ true }
    ensures behind { (i : ℕ) (d : Value × Value) → result ≤ i → i < length entries.now
        → is_before (slice_index_or entries.now i d).0 key ≡ false }
{
    let mut low = 0;
    let mut high = entries.len();
    while low < high {
        let middle = low + (high - low) / 2;
        if is_before(entries[middle].0, key) {
            low = middle + 1;
        } else {
            high = middle;
        }
    }
    low
}

/// Whether a key comes before another.
pub fn is_before(left: Value, right: Value) -> bool
    ensures { result ≡ is_before left right }
{
    match (left, right) {
        (Value::Num(x), Value::Num(y)) => x < y,
        (Value::Num(_), Value::Name(_)) => true,
        (Value::Name(x), Value::Name(y)) => x < y,
        _ => false,
    }
}
