//! Rules that a type breaks.
ghost use Rattle.std.specs.Prelude.{◌≡◌};
ghost use Rattle.kat_judging.specs.Faults.{earlier, fault_if, first_of, is_before};

/// A rule that is broken: at which byte, and which (5 an unknown word, 6 a name that is there already, 7 a wrong sort,
/// 8 ranks that don't match, 9 past a limit). `Fault { at: 22, number: 5 }` is an unknown word at byte 22.
#[derive(Clone, Copy, PartialEq, Eq, Debug)]
pub struct Fault {
    pub at: usize,
    pub number: u8,
}

/// The fault of a rule at a byte, if the rule is broken.
pub fn fault_if(broken: bool, number: u8, at: usize) -> Option<Fault>
    ensures { result ≡ first_of (fault_if broken number at) }
{
    if broken {
        Some(Fault { at, number })
    } else {
        None
    }
}

/// Whether a fault comes before another: at an earlier byte, or at the same one with a smaller number.
fn is_before(left: Fault, right: Fault) -> bool
    ensures { result ≡ is_before left right }
{
    left.at < right.at || left.at == right.at && left.number < right.number
}

/// The first of two faults, by their bytes, and at one byte by their numbers; the only one if there is no other.
pub fn earlier(left: Option<Fault>, right: Option<Fault>) -> Option<Fault>
    ensures { result ≡ earlier left right }
{
    match (left, right) {
        (None, right) => right,
        (Some(left), None) => Some(left),
        (Some(left), Some(right)) => {
            if is_before(right, left) {
                Some(right)
            } else {
                Some(left)
            }
        }
    }
}
