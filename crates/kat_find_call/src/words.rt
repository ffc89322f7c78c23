//! The words of a call.

use std::alloc::{AllocError, Global};

/// What is asked for.
#[derive(Clone, Copy, PartialEq, Eq, Debug)]
pub(crate) enum Command {
    /// Find a design for a type.
    Find,
    /// Prove a design for a type.
    Prove,
}

/// The words, read: what is asked for, the paths of the type and of the design to be proved, the leaves of each walk, and how
/// many designs of the listing are tried.
pub(crate) struct Request<'a> {
    pub(crate) command: Command,
    pub(crate) paths: Vec<&'a str>,
    pub(crate) effort: u32,
    pub(crate) designs: u32,
}

impl Drop for Request<'_> {
    fn drop(self) {
        let Self {
            command: _,
            paths: _,
            effort: _,
            designs: _,
        } = self;
    }
}

/// What may be said besides the paths.
#[derive(Clone, Copy, PartialEq, Eq, Debug)]
pub(crate) enum Choice {
    Effort,
    Designs,
}

/// What is wrong with the words of a command.
#[derive(Clone, Copy, Debug)]
pub(crate) enum Fault<'a> {
    /// The word isn't an option of the command.
    Unknown(&'a str),
    /// The option was said before.
    Again(Choice),
    /// The word isn't a value of the option.
    BadValue(Choice, &'a str),
    /// No word is left for the value of the option.
    NoValue(Choice),
    /// The command takes fewer paths.
    Further(&'a str),
    /// The command takes more paths.
    Missing,
}

/// What is read of the words after a command, without those that aren't allowed there.
#[derive(Drop)]
pub(crate) struct Heard<'a> {
    pub(crate) command: Command,
    pub(crate) paths: Vec<&'a str>,
    /// A number that is out of range is the nearest one that isn't.
    pub(crate) effort: Option<u32>,
    pub(crate) designs: Option<u32>,
    /// The first thing that is wrong.
    pub(crate) fault: Option<Fault<'a>>,
    /// The option whose value is the next word.
    awaited: Option<Choice>,
    /// Whether a number may follow that belongs to an option which isn't one of the command.
    is_loose: bool,
    ended: bool,
}

/// What is read of a word.
#[derive(Clone, Copy)]
enum Word<'a> {
    Path(&'a str),
    /// An option, with its value if that is in the word.
    Setting(Choice, Option<&'a str>),
    /// All words after it are paths.
    End,
    Other,
}

/// The leaves of each walk, if they aren't given.
const EFFORT: u32 = 2_000;

/// The greatest number of leaves.
const EFFORT_LIMIT: u32 = 10_000;

/// How many designs of the listing are tried, if that isn't given.
const DESIGNS: u32 = 10_000;

/// The greatest number of designs.
const DESIGNS_LIMIT: u32 = 1_000_000;

/// The greatest value of an option.
pub(crate) fn limit_of(choice: Choice) -> u32 {
    match choice {
        Choice::Effort => EFFORT_LIMIT,
        Choice::Designs => DESIGNS_LIMIT,
    }
}

/// Reads the words; none if they are those of no command. The first is `find`, with one path, or `prove`, with two; options
/// may be anywhere after it, each at most once: `--effort` with a number from 1 to 10,000, and for `find` `--designs` with a
/// number from 1 to 1,000,000. After `--` each word is a path.
pub(crate) fn read_words(
    alloc: Global,
    words: &[String],
) -> Result<Option<Request<'_>>, AllocError> {
    match hear(alloc, words)? {
        Some(heard) => Ok(request_of(heard)),
        None => Ok(None),
    }
}

/// What is asked for, if nothing is wrong.
fn request_of(heard: Heard<'_>) -> Option<Request<'_>> {
    let Heard {
        command,
        paths,
        effort,
        designs,
        fault,
        ..
    } = heard;
    match fault {
        Some(_) => None,
        None => Some(Request {
            command,
            paths,
            effort: effort.unwrap_or(EFFORT),
            designs: designs.unwrap_or(DESIGNS),
        }),
    }
}

/// Hears the words of a command, even if something is wrong with them; none if the first word is no command.
pub(crate) fn hear(alloc: Global, words: &[String]) -> Result<Option<Heard<'_>>, AllocError> {
    let Some((command, rest)) = command_of(words) else {
        return Ok(None);
    };
    let mut heard = Heard {
        command,
        paths: Vec::new(alloc),
        effort: None,
        designs: None,
        fault: None,
        awaited: None,
        is_loose: false,
        ended: false,
    };
    for word in rest {
        take(word.as_str(), &mut heard)?;
    }
    end(&mut heard);
    Ok(Some(heard))
}

/// Notes what is missing after the last word.
fn end(heard: &mut Heard<'_>) {
    if let Some(choice) = heard.awaited {
        note(Fault::NoValue(choice), heard);
    }
    if heard.paths.len() < path_count(heard.command) {
        note(Fault::Missing, heard);
    }
}

/// Notes what is wrong, unless something was before.
fn note<'a>(fault: Fault<'a>, heard: &mut Heard<'a>) {
    if heard.fault.is_none() {
        heard.fault = Some(fault);
    }
}

/// How many paths a command has.
fn path_count(command: Command) -> usize {
    match command {
        Command::Find => 1,
        Command::Prove => 2,
    }
}

/// The command, and the words after it.
fn command_of(words: &[String]) -> Option<(Command, &[String])> {
    match words {
        [first, rest @ ..] if first.as_str() == "find" => Some((Command::Find, rest)),
        [first, rest @ ..] if first.as_str() == "prove" => Some((Command::Prove, rest)),
        _ => None,
    }
}

/// Whether the first word asks for a search.
pub fn is_search(words: &[String]) -> bool {
    match command_of(words) {
        Some((Command::Find, _)) => true,
        _ => false,
    }
}

/// Takes a word.
fn take<'a>(word: &'a str, heard: &mut Heard<'a>) -> Result<(), AllocError> {
    if let Some(choice) = heard.awaited {
        heard.awaited = None;
        set(choice, word, heard);
        return Ok(());
    }
    let is_value = heard.is_loose && word.parse::<u32>().is_ok();
    heard.is_loose = false;
    if is_value {
        return Ok(());
    }
    match read_word(word, heard.ended) {
        Word::Path(path) => take_path(path, heard)?,
        Word::Setting(choice, value) => take_option(word, choice, value, heard),
        Word::End => heard.ended = true,
        Word::Other => {
            heard.is_loose = true;
            note(Fault::Unknown(word), heard);
        }
    }
    Ok(())
}

/// Takes a path.
fn take_path<'a>(path: &'a str, heard: &mut Heard<'a>) -> Result<(), AllocError> {
    if heard.paths.len() < path_count(heard.command) {
        heard.paths.push(path)?;
    } else {
        note(Fault::Further(path), heard);
    }
    Ok(())
}

/// Takes an option, with the value that is in the word, if one is.
fn take_option<'a>(word: &'a str, choice: Choice, value: Option<&'a str>, heard: &mut Heard<'a>) {
    if heard.command == Command::Prove && choice == Choice::Designs {
        heard.is_loose = value.is_none();
        note(Fault::Unknown(word), heard);
        return;
    }
    match value {
        Some(value) => set(choice, value, heard),
        None => heard.awaited = Some(choice),
    }
}

/// Sets an option.
fn set<'a>(choice: Choice, value: &'a str, heard: &mut Heard<'a>) {
    let said = match choice {
        Choice::Effort => heard.effort,
        Choice::Designs => heard.designs,
    };
    if said.is_some() {
        note(Fault::Again(choice), heard);
        return;
    }
    let limit = limit_of(choice);
    if number(value, limit).is_none() {
        note(Fault::BadValue(choice, value), heard);
    }
    let nearest = nearest_number(value, limit);
    match choice {
        Choice::Effort => heard.effort = nearest,
        Choice::Designs => heard.designs = nearest,
    }
}

/// A word: a path, or an option with the value that is in it.
fn read_word(word: &str, ended: bool) -> Word<'_> {
    if ended || word == "-" {
        return Word::Path(word);
    }
    if word == "--" {
        return Word::End;
    }
    if word == "--effort" {
        return Word::Setting(Choice::Effort, None);
    }
    if word == "--designs" {
        return Word::Setting(Choice::Designs, None);
    }
    if let Some(value) = word.strip_prefix("--effort=") {
        return Word::Setting(Choice::Effort, Some(value));
    }
    if let Some(value) = word.strip_prefix("--designs=") {
        return Word::Setting(Choice::Designs, Some(value));
    }
    if word.starts_with("-") {
        return Word::Other;
    }
    Word::Path(word)
}

/// A number from 1 to a limit.
fn number(value: &str, limit: u32) -> Option<u32> {
    match value.parse::<u32>() {
        Ok(number) if number >= 1 && number <= limit => Some(number),
        _ => None,
    }
}

/// The number from 1 to a limit that is nearest to the one that a word says.
fn nearest_number(value: &str, limit: u32) -> Option<u32> {
    match value.parse::<u32>() {
        Ok(number) => Some(number.max(1).min(limit)),
        Err(_) => None,
    }
}
