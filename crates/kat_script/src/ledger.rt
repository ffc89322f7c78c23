//! What the lines before a line have settled.
ghost use Rattle.std.specs.Prelude.{◌≡◌, ◌<◌, ◌≤◌, ◌+◌, ◌^◌, ℕ, true, false, length, nat_lt, unwrap_or, Some, None, IfOk, IfSome};
ghost use Rattle.kat_script.specs.Rules.{HasFewCalls, Keeps, clock_of, first_broken, is_broken, is_replica, is_shipped, line_of, packet_of, place_of, time_of, is_past_limit, is_late, is_bad_call, is_no_replica, is_misplaced, is_unknown_packet};
ghost use Rattle.kat_script.specs.Script.{Place, behind, start};

use crate::calls::is_bad_call;
use crate::rules::{LINE_LIMIT, PACKET_LIMIT, REPLICA_LIMIT, Rule, TIME_LIMIT, values_of};
use crate::said::Said;
use crate::script::Line;
use kat_num::Items;
use kat_type::{Done, Signature};
use std::alloc::{AllocError, Global};

/// A packet that was shipped: its word, and its clock.
#[derive(Clone, Copy)]
pub struct Shipped {
    pub word: u128,
    pub clock: u64,
}

/// What the lines before a line have settled: the clocks of the replicas, the packets in the order of the first use of
/// their words, and how many lines there were.
pub struct Ledger {
    pub clocks: Vec<u64>,
    pub packets: Vec<Shipped>,
    pub lines: u64,
    ghost few_replicas: { length clocks.items ≤ 32 },
    ghost few_packets: { length packets.items ≤ 32 },
}

impl Drop for Ledger {
    fn drop(self) {
        let Self {
            clocks: _,
            packets: _,
            lines: _,
        } = self;
    }
}

impl Ledger {
    ghost use Rattle.kat_script.specs.Calls.{call_in};
    ghost use Rattle.kat_script.specs.Ledger.{Matches, known_of, packet_in};

    /// Before the first line.
    pub fn new(alloc: Global) -> Self
        ensures { Matches result start }
    {
        Ledger {
            clocks: Vec::new(alloc),
            packets: Vec::new(alloc),
            lines: 0,
        }
    }

    fn is_replica(&self, replica: u64) -> bool
        ensures { result ≡ is_replica (known_of self.now) replica }
    {
        1 <= replica && replica <= self.clocks.len() as u64
    }

    /// The clock of a replica, 0 if there is none of this number.
    pub fn clock_of(&self, replica: u64) -> u64
        ensures { result ≡ clock_of (known_of self.now) replica }
    {
        match usize::try_from(replica.saturating_sub(1)) {
            Ok(place) => self.clocks.get(place).copied().unwrap_or(0),
            Err(_) => 0,
        }
    }

    /// The time that is written, or the clock's next, which may be past every limit.
    fn time_of(&self, replica: u64, time: Option<u64>) -> u128
        ensures { result ≡ time_of (known_of self.now) replica time }
    {
        match time {
            Some(time) => u128::from(time),
            None => u128::from(self.clock_of(replica)) + 1,
        }
    }

    fn place_of(&self, packet: u128) -> Option<usize>
        ensures place { result ≡ place_of (known_of self.now) packet }
        ensures within { IfSome result (λ place. place < length self.now.packets.items) }
    {
        self.packets
            .iter()
            .map(|shipped| shipped.word)
            .position(|word| word == packet)
    }

    /// Whether a packet was shipped, by its number.
    #[tactic(auto, using(crate::proofs::Numbers::shipped_by_number))]
    fn is_shipped(&self, word: u128, packet: usize) -> bool
        requires { packet ≡ packet_of (known_of self.now) word }
        ensures { result ≡ is_shipped (known_of self.now) word }
    {
        packet < self.packets.len()
    }

    /// The number of the packet that a line names, and 0 if it names none.
    pub fn packet_in(&self, said: &Said) -> usize
        ensures number { result ≡ packet_in (known_of self.now) said.now }
        ensures small { result < 2 ^ 32 }
    {
        match said {
            Said::Ships { packet, .. } | Said::Delivers { packet, .. } => {
                self.packet_number(*packet)
            }
            _ => 0,
        }
    }

    fn is_misplaced(&self, said: &Said) -> bool
        ensures { result ≡ is_misplaced (known_of self.now) said.now }
    {
        let is_opening = matches!(said, Said::Replicas(_));
        if self.lines == 0 {
            !is_opening
        } else {
            is_opening
        }
    }

    fn is_no_replica(&self, said: &Said) -> bool
        ensures { result ≡ is_no_replica (known_of self.now) said.now }
    {
        match said {
            Said::Replicas(_) => false,
            Said::Does { replica, .. }
            | Said::Ships { replica, .. }
            | Said::Delivers { replica, .. }
            | Said::Asks { replica, .. }
            | Said::Shows { replica } => !self.is_replica(*replica),
        }
    }

    fn is_unknown_packet(&self, said: &Said, packet: usize) -> bool
        requires { packet ≡ packet_in (known_of self.now) said.now }
        ensures { result ≡ is_unknown_packet (known_of self.now) said.now }
    {
        match said {
            Said::Delivers { packet: word, .. } => !self.is_shipped(*word, packet),
            _ => false,
        }
    }

    fn is_late(&self, said: &Said) -> bool
        ensures { result ≡ is_late (known_of self.now) said.now }
    {
        match said {
            Said::Does {
                replica,
                time: Some(time),
                ..
            } => *time <= self.clock_of(*replica),
            _ => false,
        }
    }

    fn is_past_limit(&self, said: &Said, packet: usize) -> bool
        requires { packet ≡ packet_in (known_of self.now) said.now }
        ensures { result ≡ is_past_limit (known_of self.now) said.now }
    {
        match said {
            Said::Replicas(n) => !(1 <= *n && *n <= REPLICA_LIMIT),
            Said::Does { replica, time, .. } => self.time_of(*replica, *time)
                > u128::from(TIME_LIMIT),
            Said::Ships { packet: word, .. } => !self.is_shipped(*word, packet)
                && self.packets.len() >= PACKET_LIMIT,
            _ => false,
        }
    }

    /// The first rule that the line breaks, if it names the packet and calls the operation or query of
    /// these numbers.
    pub fn first_broken(
        &self,
        sig: &Signature,
        said: &Said,
        packet: usize,
        call: usize,
    ) -> Option<Rule>
        requires packet { packet ≡ packet_in (known_of self.now) said.now }
        requires call { call ≡ call_in sig.now said.now }
        ensures first { result ≡ first_broken sig.now (known_of self.now) said.now }
        ensures kept { result ≡ None → Keeps sig.now (known_of self.now) said.now }
    {
        if self.is_misplaced(said) {
            Some(Rule::Syntax)
        } else if self.is_no_replica(said) {
            Some(Rule::NoReplica)
        } else if self.is_unknown_packet(said, packet) {
            Some(Rule::NoPacket)
        } else if self.is_late(said) {
            Some(Rule::Late)
        } else if is_bad_call(sig, said, call) {
            Some(Rule::BadCall)
        } else if self.is_past_limit(said, packet) || self.lines >= LINE_LIMIT {
            Some(Rule::TooLarge)
        } else {
            None
        }
    }

    /// The number of a replica that there is.
    fn replica_number(&self, replica: u64) -> u32
        requires { is_replica (known_of self.now) replica ≡ true }
        ensures { result ≡ replica }
    {
        replica as u32
    }

    /// The number of a packet's word.
    fn packet_number(&self, packet: u128) -> usize
        ensures number { result ≡ packet_of (known_of self.now) packet }
        ensures small { result < 2 ^ 32 }
    {
        match self.place_of(packet) {
            Some(place) => place,
            None => self.packets.len(),
        }
    }

    /// The time of an operation that is within its limit.
    pub(crate) fn small_time(&self, replica: u64, time: Option<u64>) -> u64
        requires { nat_lt TIME_LIMIT (time_of (known_of self.now) replica time) ≡ false }
        ensures { result ≡ time_of (known_of self.now) replica time }
    {
        self.time_of(replica, time) as u64
    }

    /// The line that is said, or none if it says how many replicas there are.
    #[tactic(auto, using(crate::proofs::Numbers::op_is_number, crate::proofs::Numbers::query_is_number))]
    pub fn line_of(
        &self,
        alloc: Global,
        sig: &Signature,
        said: &Said,
        packet: usize,
        call: usize,
    ) -> Result<Option<Line>, AllocError>
        requires packet { packet ≡ packet_in (known_of self.now) said.now }
        requires small { packet < 2 ^ 32 }
        requires call { call ≡ call_in sig.now said.now }
        requires small_call { call < 2 ^ 32 }
        requires kept { Keeps sig.now (known_of self.now) said.now }
        ensures { IfOk result (λ line. line ≡ line_of sig.now (known_of self.now) said.now) }
    {
        match said {
            Said::Replicas(_) => Ok(None),
            Said::Does {
                replica,
                args,
                time,
                ..
            } => {
                let values = values_of(alloc, args.as_slice())?;
                Ok(Some(Line::Do(Done {
                    replica: self.replica_number(*replica),
                    time: self.small_time(*replica, *time),
                    op: call as u32,
                    args: Items::from_vec(values),
                })))
            }
            Said::Ships { replica, .. } => Ok(Some(Line::Ship {
                replica: self.replica_number(*replica),
                packet: packet as u32,
            })),
            Said::Delivers { replica, .. } => Ok(Some(Line::Deliver {
                packet: packet as u32,
                replica: self.replica_number(*replica),
            })),
            Said::Asks { replica, args, .. } => {
                let values = values_of(alloc, args.as_slice())?;
                Ok(Some(Line::Ask {
                    replica: self.replica_number(*replica),
                    query: call as u32,
                    args: Items::from_vec(values),
                }))
            }
            Said::Shows { replica } => Ok(Some(Line::Show {
                replica: self.replica_number(*replica),
            })),
        }
    }
}
