//! Steps on ascending lists that can be taken back.

ghost use Rattle.std.specs.Prelude.{◌≡◌};
ghost use Rattle.kat_lattice.specs.Undos.{taken_back, IsInside};

/// What one step changed in a set, a map or a tally, with all that is needed to take it back without memory.
///
/// A step on several values takes all memory first, or leaves all as they were: if a later step fails, the earlier
/// ones are taken back.
///
/// ```
/// let undo = first.insert_step(alloc, key)?;
/// if let Err(error) = second.insert(alloc, key) {
///     first.take_back(undo);
///     return Err(error);
/// }
/// ```
#[derive(PartialEq, Eq, Debug, Drop)]
pub enum Undo<E> {
    /// Nothing changed.
    Same,
    /// An entry was inserted at a place.
    Added(usize),
    /// An entry was replaced: the place, and what was there.
    Changed(usize, E),
}

/// Takes the step back.
pub(crate) fn take_back<E: Drop>(entries: &mut Vec<E>, undo: Undo<E>)
    requires { IsInside undo entries.old.items }
    ensures { entries.new.items ≡ taken_back undo entries.old.items }
{
    match undo {
        Undo::Same => {}
        Undo::Added(at) => {
            entries.remove(at);
        }
        Undo::Changed(at, entry) => entries[at] = entry,
    }
}
