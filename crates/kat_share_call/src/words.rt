//! The words of a call.
ghost use Rattle.std.specs.Prelude.{◌≡◌, IfOk, IfSome, map, string_bytes};
ghost use Rattle.kat_share_call.specs.Sharing.{BeginsWith, word_of};
ghost use Rattle.kat_share_call.specs.Verbs.{verb_word};

use kat_share_step::PACKETS_LIMIT;
use std::alloc::{AllocError, Global};

/// What is asked for.
#[derive(Clone, Copy)]
pub enum Command {
    /// The share file of a new replica.
    Begin,
    /// The packet of all that a share has.
    Difference,
    /// The packet of what a share has beyond a known one.
    DifferenceBeyond,
    /// A share after packets and actions.
    Take,
}

/// The first word.
#[derive(Clone, Copy)]
pub(crate) enum Verb {
    Share,
    Difference,
    Take,
}

/// The words, read: what is asked for, the paths, and the number of a new replica.
pub(crate) struct Request<'a> {
    pub(crate) command: Command,
    pub(crate) paths: Vec<&'a str>,
    pub(crate) number: u32,
}

impl Drop for Request<'_> {
    fn drop(self) {
        let Self {
            command: _,
            paths: _,
            number: _,
        } = self;
    }
}

/// What a word says.
#[derive(Clone, Copy)]
enum Word<'a> {
    Path(&'a str),
    /// The next word is the number of a replica.
    Replica,
    /// The number of a replica.
    Number(&'a str),
    /// All words after it are paths.
    End,
    Other,
}

/// Reads the words; none if they are those of no command:
///
/// - `node-share DESIGN --replica R`
/// - `node-difference DESIGN SHARE [KNOWN]`
/// - `node-take DESIGN SHARE ACTIONS [PACKET ..]`, with at most 30 packets
///
/// An option may be anywhere after the command, at most once. After `--` each word is a path.
pub(crate) fn read_words(alloc: Global, words: &[String]) -> Result<Option<Request<'_>>, AllocError>
    ensures { IfOk result (λ asked. IfSome asked (λ request. BeginsWith (map string_bytes words.now) (word_of request.command))) }
{
    let Some((verb, rest)) = verb_of(words) else {
        return Ok(None);
    };
    let mut paths = Vec::new(alloc);
    let mut number = None;
    if !take_all(rest, &mut paths, &mut number)? {
        return Ok(None);
    }
    Ok(asked_for(verb, paths, number))
}

/// The first word, and the words after it.
fn verb_of(words: &[String]) -> Option<(Verb, &[String])>
    ensures { IfSome result (λ found. BeginsWith (map string_bytes words.now) (verb_word found.0)) }
{
    let [first, rest @ ..] = words else {
        return None;
    };
    match read_verb(first.as_str()) {
        Some(verb) => Some((verb, rest)),
        None => None,
    }
}

/// The first word.
fn read_verb(word: &str) -> Option<Verb>
    ensures { IfSome result (λ verb. word.now ≡ verb_word verb) }
{
    match word {
        "node-share" => Some(Verb::Share),
        "node-difference" => Some(Verb::Difference),
        "node-take" => Some(Verb::Take),
        _ => None,
    }
}

/// Takes the words after the first one; whether each is allowed there.
fn take_all<'a>(
    words: &'a [String],
    paths: &mut Vec<&'a str>,
    number: &mut Option<u32>,
) -> Result<bool, AllocError> {
    let mut ended = false;
    let mut awaits_number = false;
    for word in words {
        if awaits_number {
            awaits_number = false;
            if !choose(word.as_str(), number) {
                return Ok(false);
            }
            continue;
        }
        match read_word(word.as_str(), ended) {
            Word::Path(path) => paths.push(path)?,
            Word::Replica => awaits_number = true,
            Word::Number(value) => {
                if !choose(value, number) {
                    return Ok(false);
                }
            }
            Word::End => ended = true,
            Word::Other => return Ok(false),
        }
    }
    Ok(!awaits_number)
}

/// Takes the number of a replica; whether it is one, from 1 to 32, and there was none before.
fn choose(value: &str, number: &mut Option<u32>) -> bool {
    match value.parse::<u32>() {
        Ok(replica) if number.is_none() && replica >= 1 && replica <= 32 => {
            *number = Some(replica);
            true
        }
        _ => false,
    }
}

/// What the first word, paths and a number ask for.
fn asked_for(verb: Verb, paths: Vec<&str>, number: Option<u32>) -> Option<Request<'_>>
    ensures { IfSome result (λ request. word_of request.command ≡ verb_word verb) }
{
    match command_of(verb, paths.len(), number.is_some()) {
        Some(command) => Some(Request {
            command,
            paths,
            number: number.unwrap_or(1),
        }),
        None => None,
    }
}

/// The command of the first word with so many paths, and with or without the number of a replica.
fn command_of(verb: Verb, count: usize, numbered: bool) -> Option<Command>
    ensures { IfSome result (λ command. word_of command ≡ verb_word verb) }
{
    match (verb, numbered) {
        (Verb::Share, true) if count == 1 => Some(Command::Begin),
        (Verb::Difference, false) if count == 2 => Some(Command::Difference),
        (Verb::Difference, false) if count == 3 => Some(Command::DifferenceBeyond),
        (Verb::Take, false) if count >= 3 && count - 3 <= PACKETS_LIMIT => Some(Command::Take),
        _ => None,
    }
}

/// A word: a path, or an option.
fn read_word(word: &str, ended: bool) -> Word<'_> {
    if ended || word == "-" || !word.starts_with("-") {
        return Word::Path(word);
    }
    match word {
        "--" => Word::End,
        "--replica" => Word::Replica,
        _ => match word.strip_prefix("--replica=") {
            Some(value) => Word::Number(value),
            None => Word::Other,
        },
    }
}
