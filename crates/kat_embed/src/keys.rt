//! The keys at which queries may find something.
ghost use Rattle.std.specs.Prelude.{◌≡◌, ◌∷◌, ◌++◌, [], Some, IfOk, OnOk, map, slice_get, slice_index_or};
ghost use Rattle.kat_design.specs.Designs.AskForm.{constant};
ghost use Rattle.kat_design.specs.Designs.{ask_form};
ghost use Rattle.kat_expr.specs.Slots.{absent};
ghost use Rattle.kat_lattice.specs.Sets.{SetsKin, sets_joined};
ghost use Rattle.kat_num.specs.Orders.{value_order};
ghost use Rattle.kat_replica.specs.Printing.{comma_before};
ghost use Rattle.kat_replica.specs.Texts.{listed};
ghost use Rattle.kat_embed.specs.KeyLists.{entry_keys, keys_of};
ghost use Rattle.kat_embed.specs.Keys.{AreKeys, HasKey, components_read, keys_text};

use kat_design::{Ask, Part};
use kat_lattice::{GrowMap, GrowSet, Lattice};
use kat_num::{Value, print};
use kat_shape::tells_values_apart;
use std::alloc::{AllocError, Global};

/// The components that an ask reads.
pub(crate) fn components_read(alloc: Global, ask: &Ask) -> Result<Vec<u32>, AllocError>
    ensures { IfOk result (λ components. components.items ≡ components_read (ask_form ask.now)) }
{
    match ask {
        Ask::Leaf { component, .. } => alone(alloc, *component),
        Ask::Arg(_) => Ok(Vec::new(alloc)),
        Ask::Const(_) => Ok(Vec::new(alloc)),
        Ask::Not(inner) => components_read(alloc, inner),
        Ask::And(left, right) => followed_by(
            components_read(alloc, left)?,
            &components_read(alloc, right)?,
        ),
        Ask::Or(left, right) => followed_by(
            components_read(alloc, left)?,
            &components_read(alloc, right)?,
        ),
        Ask::Less(left, right) => followed_by(
            components_read(alloc, left)?,
            &components_read(alloc, right)?,
        ),
        Ask::Plus(left, right) => followed_by(
            components_read(alloc, left)?,
            &components_read(alloc, right)?,
        ),
        Ask::Minus(left, right) => followed_by(
            components_read(alloc, left)?,
            &components_read(alloc, right)?,
        ),
    }
}

/// The components that the ask of a query reads; none if there is no ask.
pub(crate) fn read_by(alloc: Global, asks: &[Ask], query: u32) -> Result<Vec<u32>, AllocError>
    ensures { IfOk result (λ components. components.items
        ≡ components_read (slice_index_or (map ask_form asks.now) query (constant absent))) }
{
    match asks.get(query as usize) {
        Some(ask) => components_read(alloc, ask),
        None => Ok(Vec::new(alloc)),
    }
}

/// A list of one.
fn alone(alloc: Global, component: u32) -> Result<Vec<u32>, AllocError>
    ensures { IfOk result (λ list. list.items ≡ component ∷ []) }
{
    let mut list = Vec::new(alloc);
    list.push(component)?;
    Ok(list)
}

/// A list with another one after it.
fn followed_by(list: Vec<u32>, more: &[u32]) -> Result<Vec<u32>, AllocError>
    ensures { IfOk result (λ both. both.items ≡ list.items ++ more.now) }
{
    let mut both = list;
    both.extend_from_slice(more)?;
    Ok(both)
}

/// The keys that one of these components has.
pub(crate) fn keys_in(
    alloc: Global,
    parts: &[Part],
    components: &[u32],
) -> Result<GrowSet<Value>, AllocError>
    ensures { IfOk result (AreKeys (HasKey parts.now components.now)) }
{
    match components {
        [] => Ok(GrowSet::new(alloc)),
        [first, rest @ ..] => {
            let keys = keys_in(alloc, parts, rest)?;
            let more = keys_at(alloc, parts, *first)?;
            with_keys(alloc, keys, &more)
        }
    }
}

/// A set of keys with those of another one.
pub(crate) fn with_keys(
    alloc: Global,
    keys: GrowSet<Value>,
    more: &GrowSet<Value>,
) -> Result<GrowSet<Value>, AllocError>
    ensures joined { IfOk result (λ all. all ≡ sets_joined value_order keys more.now) }
    ensures kin { SetsKin value_order keys more.now }
{
    tells_values_apart();
    let mut all = keys;
    all.goes_with(more);
    all.join(alloc, more)?;
    Ok(all)
}

/// The keys that a component has.
fn keys_at(alloc: Global, parts: &[Part], component: u32) -> Result<GrowSet<Value>, AllocError>
    ensures { IfOk result (λ keys. keys ≡ keys_of (slice_get parts.now component)) }
{
    match parts.get(component as usize) {
        Some(part) => part_keys(alloc, part),
        None => Ok(GrowSet::new(alloc)),
    }
}

/// The keys that a part has.
fn part_keys(alloc: Global, part: &Part) -> Result<GrowSet<Value>, AllocError>
    ensures { IfOk result (λ keys. keys ≡ keys_of (Some part.now)) }
{
    match part {
        Part::Table(table) => table_keys(alloc, table),
        Part::Set(keys) => keys.copy(alloc),
        Part::Tallies(table) => table_keys(alloc, table),
        Part::Cell(_) => Ok(GrowSet::new(alloc)),
        Part::Tally(_) => Ok(GrowSet::new(alloc)),
    }
}

/// The keys of the entries of a table.
fn table_keys<V: Lattice>(
    alloc: Global,
    table: &GrowMap<Value, V>,
) -> Result<GrowSet<Value>, AllocError>
    ensures { IfOk result (λ keys. keys ≡ entry_keys table.now.entries) }
{
    let keys = entry_keys(alloc, table.entries())?;
    Ok(GrowSet::from_keys(keys))
}

/// The keys of entries, in their order.
pub(crate) fn entry_keys<V: Lattice>(
    alloc: Global,
    entries: &[(Value, V)],
) -> Result<Vec<Value>, AllocError>
    ensures { IfOk result (λ keys. keys.items ≡ entry_keys entries.now) }
{
    let mut keys = Vec::new(alloc);
    for entry in entries {
        keys.push(entry.0)?;
    }
    Ok(keys)
}

/// The text of a list of keys: between brackets, with a comma between each two.
pub(crate) fn keys_text(alloc: Global, keys: &[Value]) -> Result<Vec<u8>, AllocError>
    ensures { IfOk result (λ text. text.items ≡ keys_text keys.now) }
{
    let mut text = Vec::new(alloc);
    push_list(alloc, keys, &mut text)?;
    Ok(text)
}

/// What has a text in a list.
trait Listed {
    ghost use Rattle.std.specs.Prelude.{ℕ, List};

    // the text
    ghost text: { Self → List ℕ };

    /// Appends the text.
    fn push(&self, alloc: Global, into: &mut Vec<u8>) -> Result<(), AllocError>
        ensures { OnOk result (into.new.items ≡ into.old.items ++ text self.now) };
}

impl Listed for Value {
    ghost use Rattle.kat_num.specs.Values.{value_text};

    ghost text = { value_text };

    fn push(&self, alloc: Global, into: &mut Vec<u8>) -> Result<(), AllocError> {
        print(alloc, self, into)
    }
}

/// Appends a list between brackets, with a comma between each two.
fn push_list<T: Listed>(alloc: Global, items: &[T], into: &mut Vec<u8>) -> Result<(), AllocError>
    ensures { OnOk result (into.new.items ≡ into.old.items ++ listed (map T.text items.now)) }
{
    into.extend_from_slice(b"[")?;
    for (place, item) in items.iter().enumerate() {
        push_comma(place, into)?;
        item.push(alloc, into)?;
    }
    into.extend_from_slice(b"]")
}

/// Appends a comma, but not before the first element.
fn push_comma(place: usize, into: &mut Vec<u8>) -> Result<(), AllocError>
    ensures { OnOk result (into.new.items ≡ into.old.items ++ comma_before place) }
{
    if place == 0 {
        return Ok(());
    }
    into.extend_from_slice(b",")
}
