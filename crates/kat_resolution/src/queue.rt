//! The order in which variables are decided: one list of the variables, each less one, of which the first open one is next.
ghost use Rattle.std.specs.Prelude.{◌<◌, ◌≤◌, ◌^◌, IfOk, IfSome};
ghost use Rattle.kat_clause.specs.Literals.{has_of};
ghost use Rattle.kat_resolution.specs.Queues.{IsFree, IsQueue};

use crate::marks::{is_known, variable_at};
use kat_links::Links;
use std::alloc::{AllocError, Global};

/// One list of the variables from 1 to the greatest, the last in front.
pub fn queue_of(alloc: Global, greatest: u32) -> Result<Links, AllocError>
    requires { greatest ≤ 2 ^ 28 }
    ensures { IfOk result (λ q. IsQueue greatest q) }
{
    let mut queue = Links::new(alloc, 1, greatest)?;
    for item in 0..greatest {
        match queue.list_of(item) {
            None => queue.push_front(0, item),
            Some(_) => {}
        }
    }
    Ok(queue)
}

/// Moves a variable to the head of the queue. One that isn't from 1 to the greatest is in none.
pub fn move_up(queue: &mut Links, variable: u32, greatest: u32)
    requires { IsQueue greatest queue.old }
    ensures { IsQueue greatest queue.new }
{
    if variable == 0 || variable > greatest {
        return;
    }
    let item = variable - 1;
    match queue.list_of(item) {
        Some(_) => queue.move_to_front(0, item),
        None => {}
    }
}

/// The first variable of the queue neither of whose literals is marked.
pub fn first_open(queue: &Links, marks: &[bool], greatest: u32) -> Option<i32>
    requires limit { greatest ≤ 2 ^ 28 }
    requires queue { IsQueue greatest queue.now }
    ensures { IfSome result (IsFree greatest (has_of marks.now)) }
{
    let mut next = queue.first(0);
    for _turn in 0..greatest {
        let Some(item) = next else {
            return None;
        };
        if item >= greatest {
            return None;
        }
        if !is_known(marks, item as usize) {
            return Some(variable_at(item as usize));
        }
        next = match queue.list_of(item) {
            Some(_) => queue.next(item),
            None => None,
        };
    }
    None
}
