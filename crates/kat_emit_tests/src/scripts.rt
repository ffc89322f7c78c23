//! Scripts that are drawn.
use crate::dice::Dice;
use kat_emit::push_name;
use kat_num::Sort;
use kat_type::{OpSig, QuerySig, Signature};
use std::alloc::{AllocError, Global};

/// How many lines are drawn.
const LINES: usize = 30;

/// How many replicas a script has.
pub(crate) const REPLICAS: usize = 3;

const NAMES: [&str; 6] = [
    "\"\"",
    "\"a\"",
    "\"b\"",
    "\"milk\"",
    "\"Z.9_-\"",
    "\"abcdefghijklmno\"",
];

const NATURALS: [&str; 6] = ["0", "1", "2", "3", "7", "1000000000000"];

const INTEGERS: [&str; 7] = ["0", "1", "-1", "2", "5", "-7", "-1000000000000"];

/// The text of a script for a signature: an operation, a shipment and a delivery, lines that are drawn, and then each replica is shown.
pub(crate) fn drawn_script(
    alloc: Global,
    sig: &Signature,
    dice: &mut Dice,
) -> Result<String, AllocError> {
    let mut text = String::from_str(alloc, "replicas 3\n")?;
    let mut packets: Vec<usize> = Vec::new(alloc);
    for line in 0..LINES {
        let kind = match line {
            0 => 0,
            1 => 5,
            2 => 7,
            _ => dice.below(12),
        };
        push_drawn(alloc, sig, kind, dice, &mut packets, &mut text)?;
    }
    for replica in 1..=REPLICAS {
        push_start("show", replica, &mut text)?;
        text.push('\n')?;
    }
    Ok(text)
}

/// Appends a line of a kind: of twelve kinds five do, two ship, three deliver and two ask.
fn push_drawn(
    alloc: Global,
    sig: &Signature,
    kind: usize,
    dice: &mut Dice,
    packets: &mut Vec<usize>,
    into: &mut String,
) -> Result<(), AllocError> {
    let replica = dice.below(REPLICAS).saturating_add(1);
    if kind == 5 || kind == 6 {
        let packet = dice.below(5);
        packets.push(packet)?;
        push_start("ship", replica, into)?;
        return push_packet(packet, into);
    }
    if kind > 6 && kind < 10 && !packets.is_empty() {
        let packet = packets.get(dice.below(packets.len())).copied().unwrap_or(0);
        into.push_str("deliver")?;
        push_packet_word(packet, into)?;
        into.push(' ')?;
        push_number(replica, into)?;
        return into.push('\n');
    }
    if kind >= 10 {
        return match sig
            .queries
            .as_slice()
            .get(dice.below(sig.queries.as_slice().len()))
        {
            Some(query) => push_ask(alloc, query, replica, dice, into),
            None => Ok(()),
        };
    }
    match sig.ops.as_slice().get(dice.below(sig.ops.as_slice().len())) {
        Some(op) => push_do(alloc, op, replica, dice, into),
        None => Ok(()),
    }
}

fn push_do(
    alloc: Global,
    op: &OpSig,
    replica: usize,
    dice: &mut Dice,
    into: &mut String,
) -> Result<(), AllocError> {
    push_start("do", replica, into)?;
    push_call(alloc, op.name, op.sorts.as_slice(), dice, into)
}

fn push_ask(
    alloc: Global,
    query: &QuerySig,
    replica: usize,
    dice: &mut Dice,
    into: &mut String,
) -> Result<(), AllocError> {
    push_start("ask", replica, into)?;
    push_call(alloc, query.name, query.sorts.as_slice(), dice, into)
}

/// Appends what is called, and arguments that are drawn.
fn push_call(
    alloc: Global,
    name: u128,
    sorts: &[Sort],
    dice: &mut Dice,
    into: &mut String,
) -> Result<(), AllocError> {
    into.push(' ')?;
    push_name(alloc, name, into)?;
    for sort in sorts {
        into.push(' ')?;
        into.push_str(drawn_argument(*sort, dice))?;
    }
    into.push('\n')
}

fn drawn_argument(sort: Sort, dice: &mut Dice) -> &'static str {
    match sort {
        Sort::Bool => { if dice.below(2) == 0 { "false" } else { "true" } }
        Sort::Int => text_at(&INTEGERS, dice.below(INTEGERS.len())),
        Sort::Nat => text_at(&NATURALS, dice.below(NATURALS.len())),
        Sort::Name => text_at(&NAMES, dice.below(NAMES.len())),
    }
}

fn text_at(texts: &[&'static str], place: usize) -> &'static str {
    texts.get(place).copied().unwrap_or("0")
}

fn push_start(verb: &str, replica: usize, into: &mut String) -> Result<(), AllocError> {
    into.push_str(verb)?;
    into.push(' ')?;
    push_number(replica, into)
}

fn push_packet(packet: usize, into: &mut String) -> Result<(), AllocError> {
    push_packet_word(packet, into)?;
    into.push('\n')
}

fn push_packet_word(packet: usize, into: &mut String) -> Result<(), AllocError> {
    into.push_str(" p")?;
    push_number(packet, into)
}

/// Appends a number.
pub(crate) fn push_number(number: usize, into: &mut String) -> Result<(), AllocError> {
    into.push_str(itoa::Buffer::new().format(number as u128))
}
