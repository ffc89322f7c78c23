//! Pictures for a terminal of 80 columns.
ghost use Rattle.std.specs.Prelude.{◌≡◌, ◌≤◌, ◌<◌, ◌++◌, IfOk, OnOk, drop, take};
ghost use Rattle.kat_picture.specs.Lanes.{for_each};
ghost use Rattle.kat_picture.specs.Plain.{event_text, event_words, events_text, further, gap_of, heads, ones, picture_text, piece, room_of, row_number, tens, wrapped};

use crate::cells::{push_blanks, push_cells};
use crate::drawing::push_number;
use crate::pictures::{Event, EventKind, Picture};
use itoa::Buffer;
use std::alloc::{AllocError, Global};

/// Appends the picture for a terminal: a column for each replica, and the script downwards, with what happens beside it. It is laid
/// out for 80 columns.
pub fn push_text(alloc: Global, picture: &Picture, into: &mut Vec<u8>) -> Result<(), AllocError>
    ensures { OnOk result (into.new.items ≡ into.old.items ++ picture_text picture.now) }
{
    push_heads(alloc, picture.replicas, into)?;
    push_events(alloc, picture.replicas, picture.events.as_slice(), into)
}

fn push_events(
    alloc: Global,
    replicas: u32,
    events: &[Event],
    into: &mut Vec<u8>,
) -> Result<(), AllocError>
    ensures { OnOk result (into.new.items ≡ into.old.items ++ events_text replicas events.now) }
{
    for event in events {
        push_event(alloc, replicas, event, into)?;
    }
    Ok(())
}

/// How many columns are between the lines of this many replicas.
fn gap_of(replicas: u32) -> usize
    ensures gap { result ≡ gap_of replicas }
    ensures small { result ≤ 3 }
{
    if replicas <= 8 {
        3
    } else if replicas <= 16 {
        2
    } else {
        1
    }
}

/// How many columns are left for the text of an event, 8 at least.
fn room_of(replicas: u32) -> usize
    ensures room { result ≡ room_of replicas }
    ensures some { 0 < result }
{
    let lanes = replicas as usize * (gap_of(replicas) + 1);
    72usize.saturating_sub(lanes).max(8)
}

/// Appends the numbers of the replicas.
fn push_heads(alloc: Global, replicas: u32, into: &mut Vec<u8>) -> Result<(), AllocError>
    ensures { OnOk result (into.new.items ≡ into.old.items ++ heads replicas) }
{
    if replicas >= 10 {
        push_blanks(alloc, 8, into)?;
        push_tens(alloc, replicas, into)?;
        into.extend_from_slice(b"\n")?;
    }
    into.extend_from_slice(b"replica ")?;
    push_ones(alloc, replicas, into)?;
    into.extend_from_slice(b"\n")
}

fn push_tens(alloc: Global, replicas: u32, into: &mut Vec<u8>) -> Result<(), AllocError>
    ensures { OnOk result (into.new.items ≡ into.old.items ++ for_each (tens (gap_of replicas)) replicas) }
{
    let gap = gap_of(replicas);
    for number in 0..replicas {
        push_tens_of(alloc, gap, number + 1, into)?;
    }
    Ok(())
}

fn push_tens_of(alloc: Global, gap: usize, lane: u32, into: &mut Vec<u8>) -> Result<(), AllocError>
    ensures { OnOk result (into.new.items ≡ into.old.items ++ tens gap lane) }
{
    into.push(if lane < 10 {
        b' '
    } else {
        b'0' + (lane / 10 % 10) as u8
    })?;
    push_blanks(alloc, gap, into)
}

fn push_ones(alloc: Global, replicas: u32, into: &mut Vec<u8>) -> Result<(), AllocError>
    ensures { OnOk result (into.new.items ≡ into.old.items ++ for_each (ones (gap_of replicas)) replicas) }
{
    let gap = gap_of(replicas);
    for number in 0..replicas {
        push_ones_of(alloc, gap, number + 1, into)?;
    }
    Ok(())
}

fn push_ones_of(alloc: Global, gap: usize, lane: u32, into: &mut Vec<u8>) -> Result<(), AllocError>
    ensures { OnOk result (into.new.items ≡ into.old.items ++ ones gap lane) }
{
    into.push(b'0' + (lane % 10) as u8)?;
    push_blanks(alloc, gap, into)
}

/// Appends an event: its row, the lines of the replicas, and what it says.
fn push_event(
    alloc: Global,
    replicas: u32,
    event: &Event,
    into: &mut Vec<u8>,
) -> Result<(), AllocError>
    ensures { OnOk result (into.new.items ≡ into.old.items ++ event_text replicas event.now) }
{
    let gap = gap_of(replicas);
    let mut before = Vec::new(alloc);
    push_row_number(alloc, u128::from(event.row) + 1, &mut before)?;
    push_blanks(alloc, 3, &mut before)?;
    push_cells(alloc, gap, event.kind, event.replica, replicas, &mut before)?;
    let mut behind = Vec::new(alloc);
    push_blanks(alloc, 8, &mut behind)?;
    push_cells(alloc, gap, EventKind::Shows, 0, replicas, &mut behind)?;
    let words = event_words(alloc, event.kind, event.text.as_slice())?;
    push_wrapped(&before, &behind, room_of(replicas), &words, into)
}

/// Appends a number at the right end of 5 columns.
fn push_row_number(alloc: Global, row: u128, into: &mut Vec<u8>) -> Result<(), AllocError>
    ensures { OnOk result (into.new.items ≡ into.old.items ++ row_number row) }
{
    let mut buffer = Buffer::new();
    let digits = buffer.format(row).as_bytes();
    push_blanks(alloc, 5usize.saturating_sub(digits.len()), into)?;
    into.extend_from_slice(digits)
}

/// What an event says.
fn event_words(alloc: Global, kind: EventKind, text: &[u8]) -> Result<Vec<u8>, AllocError>
    ensures { IfOk result (λ words. words.items ≡ event_words kind text.now) }
{
    match kind {
        EventKind::Does | EventKind::Asks => Vec::from_slice(alloc, text),
        EventKind::Shows => Vec::from_slice(alloc, b"show"),
        EventKind::Ships { lost } => shipped_words(alloc, lost, text),
        EventKind::Delivers { row, .. } => {
            let mut words = Vec::from_slice(alloc, b"deliver ")?;
            words.extend_from_slice(text)?;
            push_number(b", shipped in row ", u128::from(row) + 1, &mut words)?;
            Ok(words)
        }
    }
}

/// What is said of a packet that is shipped.
fn shipped_words(alloc: Global, lost: bool, text: &[u8]) -> Result<Vec<u8>, AllocError>
    ensures { IfOk result (λ words. words.items ≡ event_words (EventKind.Ships lost) text.now) }
{
    let mut words = Vec::from_slice(alloc, b"ship ")?;
    words.extend_from_slice(text)?;
    if lost {
        words.extend_from_slice(b", never delivered")?;
        return Ok(words);
    }
    Ok(words)
}

/// Appends a text in a line, and in further ones if it doesn't fit there.
fn push_wrapped(
    before: &[u8],
    behind: &[u8],
    room: usize,
    text: &[u8],
    into: &mut Vec<u8>,
) -> Result<(), AllocError>
    requires { 0 < room }
    ensures { OnOk result (into.new.items ≡ into.old.items ++ wrapped before.now behind.now room text.now) }
{
    push_piece(before, room, text, into)?;
    let count = text.len().saturating_sub(1) / room;
    push_further(behind, room, count, rest(text, room), into)
}

/// Appends at most this many bytes of a text in a line.
fn push_piece(before: &[u8], room: usize, text: &[u8], into: &mut Vec<u8>) -> Result<(), AllocError>
    ensures { OnOk result (into.new.items ≡ into.old.items ++ piece before.now room text.now) }
{
    into.extend_from_slice(before)?;
    into.extend_from_slice(front(text, room))?;
    into.extend_from_slice(b"\n")
}

/// Appends the pieces of a text, this many, each in a line of its own.
fn push_further(
    before: &[u8],
    room: usize,
    count: usize,
    text: &[u8],
    into: &mut Vec<u8>,
) -> Result<(), AllocError>
    ensures { OnOk result (into.new.items ≡ into.old.items ++ further before.now room count text.now) }
{
    let mut left = count;
    let mut behind = text;
    'pieces: while left > 0 {
        push_piece(before, room, behind, into)?;
        behind = rest(behind, room);
        left -= 1;
    }
    Ok(())
}

/// At most this many bytes from the beginning of a text.
fn front(text: &[u8], room: usize) -> &[u8]
    ensures { result.now ≡ take room text.now }
{
    if room < text.len() {
        &text[..room]
    } else {
        text
    }
}

/// The rest after them.
fn rest(text: &[u8], room: usize) -> &[u8]
    ensures { result.now ≡ drop room text.now }
{
    if room < text.len() {
        &text[room..]
    } else {
        &text[text.len()..]
    }
}
