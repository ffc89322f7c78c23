//! All ways to choose elements of lists, in order.
ghost use Rattle.std.specs.Prelude.{◌≡◌, ◌++◌, ◌∷◌, [], map, IfOk, OnOk};
ghost use Rattle.kat_histories.specs.Choices.{headed, some_of};

use kat_num::Items;
use std::alloc::{AllocError, Global};

/// The list whose only element is the empty list.
pub(crate) fn nothing<T: Copy>(alloc: Global) -> Result<Vec<Items<T>>, AllocError>
    ensures { IfOk result (λ lists. lists.items ≡ [] ∷ []) }
{
    let mut lists = Vec::new(alloc);
    lists.push(Items::from_vec(Vec::new(alloc)))?;
    Ok(lists)
}

/// Appends these lists, each after an element.
pub(crate) fn push_headed<T: Copy>(
    alloc: Global,
    head: T,
    lists: &[Items<T>],
    into: &mut Vec<Items<T>>,
) -> Result<(), AllocError>
    ensures { OnOk result (into.new.items ≡ into.old.items ++ map (headed head) lists.now) }
{
    for list in lists {
        into.push(headed(alloc, head, list.as_slice())?)?;
    }
    Ok(())
}

/// A list after an element.
fn headed<T: Copy>(alloc: Global, head: T, list: &[T]) -> Result<Items<T>, AllocError>
    ensures { IfOk result (λ whole. whole ≡ headed head list.now) }
{
    let mut whole = Vec::with_capacity(alloc, list.len())?;
    whole.push(head)?;
    whole.extend_from_slice(list)?;
    Ok(Items::from_vec(whole))
}

/// Appends the lists of this many different places of a list, ascending.
pub(crate) fn push_some_of<T: Copy>(
    alloc: Global,
    count: usize,
    list: &[T],
    into: &mut Vec<Items<T>>,
) -> Result<(), AllocError>
    ensures { OnOk result (into.new.items ≡ into.old.items ++ some_of count list.now) }
{
    if count == 0 {
        into.push(Items::from_vec(Vec::new(alloc)))?;
        return Ok(());
    }
    match list {
        [] => Ok(()),
        [first, more @ ..] => {
            let mut rests = Vec::new(alloc);
            push_some_of(alloc, count - 1, more, &mut rests)?;
            push_headed(alloc, *first, &rests, into)?;
            push_some_of(alloc, count, more, into)
        }
    }
}
