//! Judging lists whose elements ascend: the first place that can't be that of a replica of the design.
ghost use Rattle.std.specs.Prelude.{◌≡◌, [], IfErr, IfOk, Option};
ghost use Rattle.kat_json.specs.Refused.{IsRefused};
ghost use Rattle.std.specs.Ordering.{is_lt};
ghost use Rattle.kat_node.specs.Possible.{element_faults, follows, ordered_faults, range_faults};

use kat_json::WireError;
use kat_json::forms::{here, within};
use std::alloc::Global;
use std::cmp::Ordering;

/// What each element of a list must keep.
pub(crate) trait Rule {
    ghost use Rattle.kat_design.specs.Faults.{Path};
    ghost use Rattle.std.specs.Prelude.{Bool, List};

    type Element;

    type Key: Copy;

    // the key by which the elements ascend
    ghost key: { Self.Element → Self.Key };

    // whether a key may come after another
    ghost ascend: { Self.Key → Self.Key → Bool };

    // the faults of an element by itself
    ghost faults: { Self → Self.Element → List Path };

    fn key_of(element: &Self::Element) -> Self::Key
        ensures { result ≡ key element.now };

    fn may_follow(last: Self::Key, next: Self::Key) -> bool
        ensures { result ≡ ascend last next };

    fn judge(&self, alloc: Global, element: &Self::Element) -> Result<(), WireError>
        ensures done { IfOk result (λ _. faults self.now element.now ≡ []) }
        ensures refused { IfErr result (IsRefused (faults self.now element.now)) };
}

/// Judges the elements of a list.
pub(crate) fn judge_each<R: Rule>(
    alloc: Global,
    rule: &R,
    elements: &[R::Element],
) -> Result<(), WireError>
    ensures done { IfOk result (λ _. ordered_faults R.ascend R.key (R.faults rule.now) elements.now ≡ []) }
    ensures refused { IfErr result (IsRefused (ordered_faults R.ascend R.key (R.faults rule.now) elements.now)) }
{
    let mut last = None;
    for i in 0..elements.len() {
        within(
            alloc,
            i,
            judge_element::<R>(alloc, rule, last, &elements[i]),
        )?;
        last = Some(R::key_of(&elements[i]));
    }
    Ok(())
}

/// Judges an element after one with this key.
fn judge_element<R: Rule>(
    alloc: Global,
    rule: &R,
    last: Option<R::Key>,
    element: &R::Element,
) -> Result<(), WireError>
    ensures done { IfOk result (λ _. element_faults R.ascend R.key (R.faults rule.now) (last, element.now) ≡ []) }
    ensures refused { IfErr result (IsRefused (element_faults R.ascend R.key (R.faults rule.now) (last, element.now))) }
{
    if !follows::<R>(last, R::key_of(element)) {
        return Err(here(alloc));
    }
    rule.judge(alloc, element)
}

/// Whether a key may come after the last one, if there is one.
fn follows<R: Rule>(last: Option<R::Key>, key: R::Key) -> bool
    ensures { result ≡ follows R.ascend last key }
{
    match last {
        Some(last) => R::may_follow(last, key),
        None => true,
    }
}

pub(crate) fn is_less(ordering: Ordering) -> bool
    ensures { result ≡ is_lt ordering }
{
    match ordering {
        Ordering::Less => true,
        Ordering::Equal => false,
        Ordering::Greater => false,
    }
}

/// A number in a range, both ends included.
pub(crate) fn in_range(alloc: Global, low: u64, high: u64, number: &i128) -> Result<(), WireError>
    ensures done { IfOk result (λ _. range_faults low high number.now ≡ []) }
    ensures refused { IfErr result (IsRefused (range_faults low high number.now)) }
{
    if i128::from(low) <= *number && *number <= i128::from(high) {
        Ok(())
    } else {
        Err(here(alloc))
    }
}
