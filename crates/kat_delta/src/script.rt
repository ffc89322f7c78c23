//! Scripts with deltas.
use kat_num::Items;
use kat_script::Line;

/// A line of a script, or a delta that is made: a replica's own operations after the first `from`, under a packet's word.
#[derive(Debug, Drop, PartialEq)]
pub enum DeltaLine {
    Plain(Line),
    Delta {
        replica: u32,
        packet: u32,
        from: u64,
    },
}

/// How many replicas and packets there are, and what happens, in order.
#[derive(Debug, Drop, PartialEq)]
pub struct DeltaScript {
    pub replicas: u32,
    pub packets: u32,
    pub lines: Items<DeltaLine>,
}
