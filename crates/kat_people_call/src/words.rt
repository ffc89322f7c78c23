//! The words of a call.
ghost use Rattle.std.specs.Prelude.{◌≡◌, IfOk, IfSome, map, string_bytes};
ghost use Rattle.kat_people_call.specs.Showing.{BeginsWith, word_of};
ghost use Rattle.kat_people_call.specs.Verbs.{verb_word};

use kat_emit_text::{Language, language_of};
use std::alloc::{AllocError, Global};

/// What is asked for.
#[derive(Clone, Copy)]
pub enum Command {
    /// Draw a script.
    Picture,
    /// Draw a script with the answers of a design.
    Answers,
    /// Draw a history that a report cites.
    History,
    /// Explain a design.
    Explain,
    /// Write a design as code.
    Emit,
}

/// The first word.
#[derive(Clone, Copy)]
pub(crate) enum Verb {
    Picture,
    Explain,
    Emit,
}

/// The words, read: what is asked for, the paths, with the number of a history as the last, whether the drawing is to be a text for a
/// terminal, whether the explanation is to be a page of Markdown, the language of the code, and whether a whole package is asked for.
pub(crate) struct Request<'a> {
    pub(crate) command: Command,
    pub(crate) paths: Vec<&'a str>,
    pub(crate) as_text: bool,
    pub(crate) as_markdown: bool,
    pub(crate) language: Option<Language>,
    pub(crate) as_package: bool,
}

impl Drop for Request<'_> {
    fn drop(self) {
        let Self {
            command: _,
            paths: _,
            as_text: _,
            as_markdown: _,
            language: _,
            as_package: _,
        } = self;
    }
}

/// The options of a call.
#[derive(Clone, Copy)]
struct Options {
    text: bool,
    report: bool,
    markdown: bool,
    language: Option<Language>,
    package: bool,
}

/// What a word says.
#[derive(Clone, Copy)]
enum Word<'a> {
    Path(&'a str),
    Text,
    Report,
    Markdown,
    /// The next word is a language.
    Language,
    /// A language by its name.
    Named(&'a str),
    Package,
    /// All words after it are paths.
    End,
    Other,
}

/// Reads the words; none if they are those of no command:
///
/// - `picture SCRIPT [TYPE DESIGN] [--text]`
/// - `picture --report REPORT K [--text]`
/// - `explain TYPE DESIGN [--markdown]`
/// - `emit TYPE DESIGN --language LANGUAGE [--package]`
///
/// An option may be anywhere after the command, at most once. After `--` each word is a path.
pub(crate) fn read_words(alloc: Global, words: &[String]) -> Result<Option<Request<'_>>, AllocError>
    ensures { IfOk result (λ asked. IfSome asked (λ request. BeginsWith (map string_bytes words.now) (word_of request.command))) }
{
    let Some((verb, rest)) = verb_of(words) else {
        return Ok(None);
    };
    let mut paths = Vec::new(alloc);
    let mut options = Options {
        text: false,
        report: false,
        markdown: false,
        language: None,
        package: false,
    };
    if !take_all(rest, &mut paths, &mut options)? {
        return Ok(None);
    }
    Ok(asked_for(verb, paths, options))
}

/// The first word, and the words after it.
fn verb_of(words: &[String]) -> Option<(Verb, &[String])>
    ensures { IfSome result (λ found. BeginsWith (map string_bytes words.now) (verb_word found.0)) }
{
    let [first, rest @ ..] = words else {
        return None;
    };
    match read_verb(first.as_str()) {
        Some(verb) => Some((verb, rest)),
        None => None,
    }
}

/// Takes the words after the first one; whether each is allowed there.
fn take_all<'a>(
    words: &'a [String],
    paths: &mut Vec<&'a str>,
    options: &mut Options,
) -> Result<bool, AllocError> {
    let mut ended = false;
    let mut awaits_language = false;
    for word in words {
        if awaits_language {
            awaits_language = false;
            if !choose(word.as_str(), options) {
                return Ok(false);
            }
            continue;
        }
        match read_word(word.as_str(), ended) {
            Word::Path(path) => paths.push(path)?,
            Word::Text if !options.text => options.text = true,
            Word::Report if !options.report => options.report = true,
            Word::Markdown if !options.markdown => options.markdown = true,
            Word::Language => awaits_language = true,
            Word::Package if !options.package => options.package = true,
            Word::Named(name) => {
                if !choose(name, options) {
                    return Ok(false);
                }
            }
            Word::End => ended = true,
            _ => return Ok(false),
        }
    }
    Ok(!awaits_language)
}

/// Takes a language by its name; whether there is such a language, and there was none before.
fn choose(name: &str, options: &mut Options) -> bool {
    match language_of(name) {
        Some(language) if options.language.is_none() => {
            options.language = Some(language);
            true
        }
        _ => false,
    }
}

/// The first word.
fn read_verb(word: &str) -> Option<Verb>
    ensures { IfSome result (λ verb. word.now ≡ verb_word verb) }
{
    match word {
        "picture" => Some(Verb::Picture),
        "explain" => Some(Verb::Explain),
        "emit" => Some(Verb::Emit),
        _ => None,
    }
}

/// What the first word, paths and options ask for.
fn asked_for(verb: Verb, paths: Vec<&str>, options: Options) -> Option<Request<'_>>
    ensures { IfSome result (λ request. word_of request.command ≡ verb_word verb) }
{
    match command_of(verb, paths.len(), options) {
        Some(command) => Some(Request {
            command,
            paths,
            as_text: options.text,
            as_markdown: options.markdown,
            language: options.language,
            as_package: options.package,
        }),
        None => None,
    }
}

/// The command of the first word with so many paths and these options.
fn command_of(verb: Verb, count: usize, options: Options) -> Option<Command>
    ensures { IfSome result (λ command. word_of command ≡ verb_word verb) }
{
    match verb {
        Verb::Picture => picture_of(count, options),
        Verb::Explain => explanation_of(count, options),
        Verb::Emit => emission_of(count, options),
    }
}

/// The picture that so many paths and these options ask for.
fn picture_of(count: usize, options: Options) -> Option<Command>
    ensures { IfSome result (λ command. word_of command ≡ verb_word Verb.Picture) }
{
    if options.markdown || options.language.is_some() || options.package {
        return None;
    }
    match (count, options.report) {
        (1, false) => Some(Command::Picture),
        (3, false) => Some(Command::Answers),
        (2, true) => Some(Command::History),
        _ => None,
    }
}

/// The explanation that so many paths and these options ask for.
fn explanation_of(count: usize, options: Options) -> Option<Command>
    ensures { IfSome result (λ command. word_of command ≡ verb_word Verb.Explain) }
{
    let has_others = options.report || options.text || options.package;
    if has_others || options.language.is_some() || count != 2 {
        return None;
    }
    Some(Command::Explain)
}

/// The code that so many paths and these options ask for.
fn emission_of(count: usize, options: Options) -> Option<Command>
    ensures { IfSome result (λ command. word_of command ≡ verb_word Verb.Emit) }
{
    let has_others = options.report || options.text || options.markdown;
    if has_others || options.language.is_none() || count != 2 {
        return None;
    }
    Some(Command::Emit)
}

/// A word: a path, or an option.
fn read_word(word: &str, ended: bool) -> Word<'_> {
    if ended || word == "-" || !word.starts_with("-") {
        return Word::Path(word);
    }
    match word {
        "--" => Word::End,
        "--text" => Word::Text,
        "--report" => Word::Report,
        "--markdown" => Word::Markdown,
        "--language" => Word::Language,
        "--package" => Word::Package,
        _ => match word.strip_prefix("--language=") {
            Some(name) => Word::Named(name),
            None => Word::Other,
        },
    }
}
