//! Scripts, judged and with all times filled in.

use kat_num::{Items, Value};
use kat_type::Done;

/// One event at one replica. Replicas are numbered from 1, packets from 0 by the first use of their
/// word, queries from 0 by the signature.
#[derive(Debug, Drop, PartialEq)]
pub enum Line {
    Do(Done),
    Ship {
        replica: u32,
        packet: u32,
    },
    Deliver {
        packet: u32,
        replica: u32,
    },
    Ask {
        replica: u32,
        query: u32,
        args: Items<Value>,
    },
    Show {
        replica: u32,
    },
}

/// How many replicas and packets there are, and what happens, in order.
#[derive(Debug, Drop, PartialEq)]
pub struct Script {
    pub replicas: u32,
    pub packets: u32,
    pub lines: Items<Line>,
}
