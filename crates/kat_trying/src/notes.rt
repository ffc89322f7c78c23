//! What is known of the designs that were tried.

use crate::long_runs::LongRun;
use std::alloc::{AllocError, Global};

/// How many designs of a listing may be left that no history refutes and that aren't proved.
const OPEN: u32 = 4;

/// How many designs were tried, and which of them came furthest.
pub(crate) struct Notes {
    pub(crate) tried: u64,
    /// The numbers of the histories that refuted some of them.
    pub(crate) cited: Vec<u64>,
    /// The longer histories, once they were made, and the places of those that refuted some designs.
    pub(crate) long: Option<Vec<LongRun>>,
    pub(crate) cited_long: Vec<usize>,
    /// How many are refuted by a longer history.
    pub(crate) late: u32,
    /// How many no history refutes, and that aren't proved; and how many of them are of this listing.
    pub(crate) open: u32,
    pub(crate) open_here: u32,
    /// The first of them, with what is in the way of its proof, in words.
    pub(crate) unproved: Vec<u8>,
    /// The number of the history that refuted the best of the others.
    pub(crate) furthest: u64,
    /// The best of them, with what is in its way, in words; nothing if none was refuted.
    pub(crate) best: Vec<u8>,
    /// The texts of the guesses that were tried.
    guesses: Vec<Vec<u8>>,
}

impl Drop for Notes {
    fn drop(self) {
        let Self {
            tried: _,
            cited: _,
            long: _,
            cited_long: _,
            late: _,
            open: _,
            open_here: _,
            unproved: _,
            furthest: _,
            best: _,
            guesses: _,
        } = self;
    }
}

impl Notes {
    /// No design was tried yet.
    pub(crate) fn new(alloc: Global) -> Notes {
        Notes {
            tried: 0,
            cited: Vec::new(alloc),
            long: None,
            cited_long: Vec::new(alloc),
            late: 0,
            open: 0,
            open_here: 0,
            unproved: Vec::new(alloc),
            furthest: 0,
            best: Vec::new(alloc),
            guesses: Vec::new(alloc),
        }
    }

    /// Whether the guess with a text was tried before; otherwise it is noted.
    pub(crate) fn is_known(&mut self, text: Vec<u8>) -> Result<bool, AllocError> {
        if self
            .guesses
            .iter()
            .any(|known| known.as_slice() == text.as_slice())
        {
            return Ok(true);
        }
        self.guesses.push(text)?;
        Ok(false)
    }

    /// Whether so many designs are open that no further one of the listing is tried.
    pub(crate) fn is_over(&self) -> bool {
        self.open_here >= OPEN
    }

    /// Notes that a longer history refutes a design.
    pub(crate) fn count_late(&mut self) {
        self.late = self.late.saturating_add(1);
    }

    /// Notes that the longer history at a place refutes a design, and refuted none before.
    pub(crate) fn cite_long(&mut self, place: usize) -> Result<(), AllocError> {
        self.count_late();
        self.cited_long.push(place)?;
        Ok(())
    }

    /// Notes a design that no history refutes and that isn't proved.
    pub(crate) fn count_open(&mut self) {
        self.open = self.open.saturating_add(1);
        self.open_here = self.open_here.saturating_add(1);
    }
}
