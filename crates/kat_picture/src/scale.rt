//! Where things are in a drawing, in pixels from its upper left corner.
ghost use Rattle.std.specs.Prelude.{◌≡◌, ◌≤◌, ◌^◌};
ghost use Rattle.kat_picture.specs.Drawing.{lane_width, x_of, y_of};

use crate::pictures::Event;

/// The greatest distance between two replicas.
pub(crate) const WIDEST_LANE: u128 = 1336;

/// How far replicas are apart: there is room for the longest text, of which at most 160 bytes count, and for the name of a
/// replica, which is centered above its line and takes less than 88 pixels.
pub(crate) fn lane_width(events: &[Event]) -> u128
    ensures width { result ≡ lane_width events.now }
    ensures few { result ≤ WIDEST_LANE }
{
    let mut widest: usize = 4;
    let mut rest = events;
    'events: while let [event, behind @ ..] = rest {
        widest = widest.max(event.text.as_slice().len().min(160));
        rest = behind;
    }
    56 + 8 * widest as u128
}

/// How far to the right the line of a replica is.
pub(crate) fn x_of(width: u128, replica: u32) -> u128
    requires { width ≤ WIDEST_LANE }
    ensures place { result ≡ x_of width replica }
    ensures small { result ≤ 2 ^ 64 }
{
    40 + width * u128::from(replica.saturating_sub(1))
}

/// How far down a row is.
pub(crate) fn y_of(row: u64) -> u128
    ensures place { result ≡ y_of row }
    ensures small { result ≤ 2 ^ 80 }
{
    56 + 30 * u128::from(row)
}
