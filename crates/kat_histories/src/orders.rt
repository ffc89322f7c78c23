//! All orders of a history's operations.
ghost use Rattle.std.specs.Prelude.{◌≡◌, ◌≤◌, All, length, map};
ghost use Rattle.kat_histories.specs.Orders.{orders_of};
ghost use Rattle.kat_histories.specs.Places.{IsOrderOf, ordered};

use kat_type::Done;

/// All orders of at most three operations, by their places; only as many places count as there are operations.
pub fn orders_of(ones: &[Done]) -> &'static [[usize; 3]]
    requires few { length ones.now ≤ 3 }
    ensures orders { map (ordered ones.now) result.now ≡ orders_of ones.now }
    ensures within { All (IsOrderOf ones.now) result.now }
{
    match ones {
        [] | [_] => &[[0, 0, 0]],
        [_, _] => &[[0, 1, 0], [1, 0, 0]],
        _ => &[
            [0, 1, 2],
            [1, 0, 2],
            [1, 2, 0],
            [0, 2, 1],
            [2, 0, 1],
            [2, 1, 0],
        ],
    }
}
