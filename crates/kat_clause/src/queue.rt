//! Numbers that are taken out by size.
ghost use Rattle.std.specs.Prelude.{◌≡◌, ℕ, ◌<◌, List, [], map, OnOk};
ghost use Rattle.std.specs.Ordering.{nat_cmp};
ghost use Rattle.std.specs.BinaryHeap.{IsHeap, heap_items};
ghost use Rattle.kat_clause.specs.Queues.{numbers_of, Pushes, Pops};

use std::alloc::{AllocError, Global};
use std::cmp::Reverse;
use std::collections::BinaryHeap;
use std::marker::Model;

/// Numbers, the least of which comes out first. Contracts see them as a list, in whichever order.
#[derive(Drop)]
pub struct Queue {
    heap: BinaryHeap<Reverse<usize>>,
}

impl Model for Queue {
    ghost Value = { List ℕ };

    ghost view = { λ q. numbers_of (heap_items q.heap) };

    ghost invariant = { λ q. IsHeap (λ x y. nat_cmp y.0 x.0) (heap_items q.heap) };
}

impl Queue {
    /// No numbers.
    pub fn new(alloc: Global) -> Queue
        ensures { result ≡ [] }
    {
        Queue {
            heap: BinaryHeap::new(alloc),
        }
    }

    /// Puts a number in.
    pub fn push(&mut self, number: usize) -> Result<(), AllocError>
        ensures { OnOk result (Pushes number self.old self.new) }
    {
        self.heap.push(Reverse(number))?;
        Ok(())
    }

    /// Takes the least number out.
    pub fn pop(&mut self) -> Option<usize>
        ensures { Pops self.old self.new result }
    {
        match self.heap.pop() {
            Some(top) => {
                return Some(top.0);
            }
            None => {
                return None;
            }
        }
    }
}
