//! What is learned of a falsified clause: it is resolved with the reasons of its literals back along the trail, until it has one
//! literal of its last level alone, the first unique implication point (Marques-Silva and Sakallah 1996; Zhang, Madigan,
//! Moskewicz and Malik 2001).

use crate::engine::Engine;
use kat_resolution::resolve;
use std::alloc::{AllocError, Global};

/// Where each variable's literal is on the trail.
#[derive(Drop)]
pub(crate) struct Places {
    places: Vec<usize>,
}

impl Places {
    /// The places of the assigned literals.
    pub(crate) fn new(alloc: Global, engine: &Engine) -> Result<Places, AllocError> {
        let mut places = vec![in alloc; 0; engine.greatest() as usize + 1]?;
        for (i, literal) in engine.trail().iter().enumerate() {
            let variable = literal.unsigned_abs() as usize;
            if variable < places.len() {
                places[variable] = i;
            }
        }
        Ok(Places { places })
    }

    // The place of a literal's variable.
    fn place(&self, literal: i32) -> usize {
        let variable = literal.unsigned_abs() as usize;
        if variable < self.places.len() {
            self.places[variable]
        } else {
            0
        }
    }

    /// The last place of a literal of the clause before a limit.
    pub(crate) fn last_before(&self, clause: &[i32], limit: usize) -> Option<usize> {
        let mut last = None;
        for literal in clause {
            let place = self.place(*literal);
            if place < limit {
                last = last.max(Some(place));
            }
        }
        last
    }

    /// How many literals of the clause are at a place or after it.
    pub(crate) fn count_from(&self, clause: &[i32], start: usize) -> usize {
        clause.iter().filter(|k| self.place(**k) >= start).count()
    }
}

/// The falsified clause resolved back to the first unique implication point of its last level, which begins at a place of the
/// trail.
pub(crate) fn first_point(
    alloc: Global,
    engine: &Engine,
    places: &Places,
    falsified: &[i32],
    start: usize,
) -> Result<Vec<i32>, AllocError> {
    let trail = engine.trail();
    let mut clause = Vec::from_slice(alloc, falsified)?;
    for step in 0..trail.len() {
        if places.count_from(&clause, start) <= 1 {
            break;
        }
        let place = trail.len() - 1 - step;
        let literal = trail[place];
        if !clause.contains(&literal.wrapping_neg()) {
            continue;
        }
        let Some(reason) = engine.reason(place) else {
            break;
        };
        clause = resolve(alloc, reason, &clause, literal)?;
    }
    Ok(clause)
}
