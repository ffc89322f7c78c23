//! Pictures as data.
ghost use Rattle.std.specs.Prelude.{◌≡◌, IfOk};
ghost use Rattle.kat_picture.specs.Pictures.{answers_behind, event_of, picture_of};

use crate::labels::{asked_text, did_text, word_text};
use crate::shipping::{Shipping, is_delivered, note_ship, shipping_of};
use kat_num::{Items, Value};
use kat_script::{Line, Script};
use kat_type::Signature;
use std::alloc::{AllocError, Global};

/// What an event is.
#[derive(Clone, Copy)]
pub enum EventKind {
    Does,
    Asks,
    Shows,
    /// A packet is shipped; it is lost if it is never delivered.
    Ships { lost: bool },
    /// A packet is delivered that was shipped in this row, from 0, at this replica.
    Delivers { row: u64, replica: u32 },
}

/// An event: its row, from 0 in the order of the script, its replica, from 1, what it is, and the text beside its mark.
#[derive(Drop)]
pub struct Event {
    pub row: u64,
    pub replica: u32,
    pub kind: EventKind,
    pub text: Items<u8>,
}

/// How many replicas there are, and the events in the order of the script.
#[derive(Drop)]
pub struct Picture {
    pub replicas: u32,
    pub events: Items<Event>,
}

/// The picture of a script: an event for each line, in its order. The words are those of the packets, by number. The answers are
/// taken by the asks in their order; an ask for which none is left is drawn without one.
pub fn picture_of(
    alloc: Global,
    sig: &Signature,
    words: &[u128],
    answers: &[Value],
    script: &Script,
) -> Result<Picture, AllocError>
    ensures { IfOk result (λ picture. picture ≡ picture_of sig.now words.now answers.now script.now) }
{
    let mut events: Vec<Event> = Vec::new(alloc);
    let mut ships = Vec::new(alloc);
    let mut left = answers;
    let mut rest = script.lines.as_slice();
    'lines: while let [line, behind @ ..] = rest {
        let row = events.len() as u64;
        let event = event_of(alloc, sig, words, left, row, &ships, line, behind)?;
        events.push(event)?;
        note_ship(&mut ships, row, line)?;
        left = answers_behind(line, left);
        rest = behind;
    }
    Ok(Picture {
        replicas: script.replicas,
        events: Items::from_vec(events),
    })
}

/// The event of a line, after what was shipped and before the lines that follow.
fn event_of(
    alloc: Global,
    sig: &Signature,
    words: &[u128],
    answers: &[Value],
    row: u64,
    ships: &[Shipping],
    line: &Line,
    behind: &[Line],
) -> Result<Event, AllocError>
    ensures { IfOk result (λ event. event ≡ event_of sig.now words.now answers.now row ships.now line.now behind.now) }
{
    match line {
        Line::Do(done) => {
            let text = did_text(alloc, sig, done)?;
            Ok(new_event(row, done.replica, EventKind::Does, text))
        }
        Line::Ship { replica, packet } => {
            let lost = !is_delivered(behind, *packet);
            let text = word_text(alloc, words, *packet)?;
            Ok(new_event(row, *replica, EventKind::Ships { lost }, text))
        }
        Line::Deliver { packet, replica } => {
            let ship = shipping_of(ships, *packet);
            let kind = EventKind::Delivers {
                row: ship.row,
                replica: ship.replica,
            };
            let text = word_text(alloc, words, *packet)?;
            Ok(new_event(row, *replica, kind, text))
        }
        Line::Ask {
            replica,
            query,
            args,
        } => {
            let text = asked_text(alloc, sig, *query, args.as_slice(), answers)?;
            Ok(new_event(row, *replica, EventKind::Asks, text))
        }
        Line::Show { replica } => Ok(new_event(row, *replica, EventKind::Shows, Vec::new(alloc))),
    }
}

fn new_event(row: u64, replica: u32, kind: EventKind, text: Vec<u8>) -> Event
    ensures row { result.row ≡ row }
    ensures replica { result.replica ≡ replica }
    ensures kind { result.kind ≡ kind }
    ensures text { result.text ≡ text.items }
{
    Event {
        row,
        replica,
        kind,
        text: Items::from_vec(text),
    }
}

/// The answers that are left after a line: an ask takes one.
fn answers_behind<'a>(line: &Line, answers: &'a [Value]) -> &'a [Value]
    ensures { result.now ≡ answers_behind line.now answers.now }
{
    match (line, answers) {
        (Line::Ask { .. }, [_, behind @ ..]) => behind,
        _ => answers,
    }
}
