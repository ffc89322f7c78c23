//! Where rows with given coefficients may be. No contract says so: a caller compares the row at the place that it is given.

use crate::tidying::{mixed, size_of};
use crate::working::{Combination, Numbers};
use std::alloc::{AllocError, Global};

/// For each number that is made of coefficients the place of the last row that was noted under it.
#[derive(Drop)]
pub struct Places {
    slots: Vec<usize>,
}

/// How many bits such a number has.
const BITS: u32 = 12;

/// If at most this many rows are made, no places are noted.
const FEW: usize = 64;

impl Places {
    /// The places of rows after which `many` rows are to be made; none are noted if these are few.
    pub fn new(alloc: Global, rows: &[Combination], many: usize) -> Result<Places, AllocError> {
        if many <= FEW {
            return Ok(Places {
                slots: Vec::new(alloc),
            });
        }
        let mut places = Places {
            slots: vec![in alloc; 0; 1 << BITS]?,
        };
        for (place, row) in rows.iter().enumerate() {
            places.note(&row.coefficients, place);
        }
        Ok(places)
    }

    /// Notes the place of a row with these coefficients, unless no places are noted.
    pub fn note(&mut self, coefficients: &Numbers, place: usize) {
        let slot = slot_of(coefficients);
        if slot < self.slots.len() {
            self.slots[slot] = place;
        }
    }

    /// The place at which a row with these coefficients may be.
    pub fn of(&self, coefficients: &Numbers) -> usize {
        match self.slots.get(slot_of(coefficients)) {
            Some(place) => *place,
            None => 0,
        }
    }
}

// A number made of coefficients.
fn slot_of(coefficients: &Numbers) -> usize {
    let mut number = 0;
    for (place, c) in &coefficients.entries {
        number = mixed(mixed(number, *place as u64), size_of(*c));
    }
    (number >> (64 - BITS)) as usize
}
