//! How great the numbers of a state are.

ghost use Rattle.std.specs.Prelude.{◌≤◌, ◌^◌};

use kat_design::{Part, State, is_small, roomy};
use kat_lattice::Tally;
use kat_num::{Items, Value};
use kat_shape::{Shape, cell};
use std::alloc::{AllocError, Global};
use std::test::Fail;

/// A state with one part: whether its sums leave room, and whether its numbers are small.
fn judge(alloc: Global, part: Part) -> Result<(bool, bool), AllocError> {
    let state = State {
        parts: Items::from_vec(vec![in alloc; part]?),
    };
    Ok((roomy(&state), is_small(&state)))
}

/// A tally with this sum of replica 3.
fn tally_of(alloc: Global, sum: u128) -> Result<Part, AllocError>
    requires { sum ≤ 2 ^ 100 }
{
    let mut tally = Tally::new(alloc);
    tally.bump(alloc, 3, sum)?;
    Ok(Part::Tally(tally))
}

#[test]
fn sums_leave_room(rt: HostRuntime) -> Result<(), Fail> {
    let alloc = rt.alloc();
    let room = (1u128 << 100) - 1_000_000_000_000;
    for (sum, has_room) in [(0, true), (room - 1, true), (room, true), (room + 1, false)] {
        assert!(rt; judge(alloc, tally_of(alloc, sum)?)? == (has_room, true));
    }
    Ok(())
}

/// A cell with this number.
fn cell_of(alloc: Global, number: i128) -> Result<Part, AllocError> {
    Ok(Part::Cell(cell(alloc, &Shape::Max, &[Value::Num(number)])?))
}

#[test]
fn numbers_of_states_are_small(rt: HostRuntime) -> Result<(), Fail> {
    let alloc = rt.alloc();
    let most = 1i128 << 100;
    for (number, small) in [
        (most, true),
        (-most, true),
        (most + 1, false),
        (-most - 1, false),
    ] {
        assert!(rt; judge(alloc, cell_of(alloc, number)?)? == (true, small));
    }
    Ok(())
}
