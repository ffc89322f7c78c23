//! Cards of histories: the one answer of a type to each query, if there is one.
use kat_num::{Items, Value};
use kat_type::Done;

/// What a type answers to a query, by its number in the signature (from 0), after the operations of a history: the one answer, or `None` if
/// two orders of them that respect the ranks give different ones.
#[derive(Debug, PartialEq)]
pub struct CardAnswer {
    pub query: u32,
    pub args: Items<Value>,
    pub value: Option<Value>,
}

impl Drop for CardAnswer {
    fn drop(self) {
        let Self {
            query: _,
            args: _,
            value: _,
        } = self;
    }
}

/// What a history asks of the designs of a type: its operations, and the answers to all queries with arguments of the pools, by
/// query and then by arguments.
#[derive(Debug, PartialEq)]
pub struct Card {
    pub ops: Items<Done>,
    pub answers: Items<CardAnswer>,
}

impl Drop for Card {
    fn drop(self) {
        let Self { ops: _, answers: _ } = self;
    }
}
