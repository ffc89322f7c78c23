//! The commands, and what `clap` found of one.
ghost use Rattle.std.specs.Prelude.{◌≡◌, ◌≤◌, IfOk, IfSome, List, Some, map, option_map};
ghost use Rattle.clap.specs.Matches.{first_value, found_of};
ghost use Rattle.clap.specs.Walk.{Row, rows_of};
ghost use Rattle.clap.specs.Simple.{subcommand_rows_of};
ghost use Rattle.kat_words.specs.Parts.{Parts, Text};
ghost use Rattle.kat_words.specs.Parsers.{Holds, paths_found};
ghost use Rattle.kat_words.specs.Words.{IsSynthInRange, KeepsRanges, command_named, designs_said, files_of, has_paths, kinds_said, lines_said, list_of, node_new_of, number_of, replica_said, request_by, request_with, said, said_by, sample_number, sample_of, search_said, size_said};
ghost use Rattle.kat_words.specs.declared.words.Command.TheVariants as command;

use crate::kinds::{all_kinds, kinds_of};
use crate::numbers::number_of;
use crate::options::{ListOptions, NodeOptions, SampleOptions, SynthOptions};
use clap::ArgMatches;
use kat_rules::Kinds;
use std::alloc::{AllocError, Global};

/// How great a size a listing has at most.
const SIZE_LIMIT: u64 = 24;

/// How much effort a condition gets at most.
const EFFORT_LIMIT: u64 = 10_000;

/// How many designs are listed at most.
const DESIGNS_LIMIT: u64 = 1_000_000;

/// The greatest number of a sample.
const SAMPLE_LIMIT: u64 = 999_999;

/// How many lines a sample has at most.
const LINES_LIMIT: u64 = 90_000;

/// The greatest number of a replica.
const REPLICA_LIMIT: u64 = 32;

/// What the words ask for.
#[derive(Clone, Copy)]
pub enum Command {
    Synth(SynthOptions),
    Audit(SynthOptions),
    Check,
    Migrate,
    Run,
    Deltas,
    Converge,
    Model,
    NodeNew(NodeOptions),
    NodeStep,
    NodeAsk,
    List(ListOptions),
    Sample(SampleOptions),
}

/// A command, with the paths of its files in the order of the words.
#[derive(Drop)]
pub struct Request<'a> {
    pub command: Command,
    pub paths: Vec<&'a str>,
}

/// The request that `clap` found, or nothing if it is none.
pub(crate) fn requested<'a>(
    alloc: Global,
    matches: &ArgMatches<'a>,
) -> Result<Option<Request<'a>>, AllocError>
    ensures is { (name : Text) (rows : List Row) (parts : Parts) → subcommand_rows_of matches.now ≡ Some (name, rows) → Holds rows parts
        → IfOk result (λ found. option_map said_by found ≡ request_with name parts) }
    ensures within { IfOk result (λ found. IfSome found (λ request. KeepsRanges request.command)) }
{
    match matches.subcommand() {
        Some((name, found)) => requested_by(alloc, name, found),
        None => Ok(None),
    }
}

/// The request by the command of this name. Each command takes a path.
fn requested_by<'a>(
    alloc: Global,
    name: &str,
    matches: &ArgMatches<'a>,
) -> Result<Option<Request<'a>>, AllocError>
    ensures is { IfOk result (λ found. option_map said_by found
        ≡ request_by name.now (paths_found (found_of matches.now)) (first_value (found_of matches.now))) }
    ensures within { IfOk result (λ found. IfSome found (λ request. KeepsRanges request.command)) }
{
    let Some(paths) = matches.get_strs("paths") else {
        return Ok(None);
    };
    let Some(command) = command_named(name, paths, matches) else {
        return Ok(None);
    };
    if !has_paths(command, paths.len()) {
        return Ok(None);
    }
    let paths = copied(alloc, files_of(command, paths))?;
    Ok(Some(Request { command, paths }))
}

/// The texts, in a list of its own.
fn copied<'a>(alloc: Global, texts: &[&'a str]) -> Result<Vec<&'a str>, AllocError>
    ensures { IfOk result (λ copy. map (λ text. text.now) copy.items ≡ map (λ text. text.now) texts.now) }
{
    let mut copy = Vec::new(alloc);
    copy.extend_from_slice(texts)?;
    Ok(copy)
}

/// The paths of files among a command's paths: a sample's number is none.
fn files_of<'m, 'a>(command: Command, paths: &'m [&'a str]) -> &'m [&'a str]
    ensures { map (λ path. path.now) result.now ≡ files_of command (map (λ path. path.now) paths.now) }
{
    match command {
        Command::Sample(_) => &paths[..0],
        _ => paths,
    }
}

/// Whether a command takes this many paths.
fn has_paths(command: Command, count: usize) -> bool
    ensures { result ≡ has_paths command count }
{
    match command {
        Command::Synth(_) | Command::List(_) | Command::Sample(_) | Command::NodeNew(_) => count
            == 1,
        Command::Audit(_)
        | Command::Check
        | Command::Migrate
        | Command::Converge
        | Command::Model => count == 2,
        Command::Run | Command::Deltas => count == 3,
        Command::NodeStep => 3 <= count && count <= 33,
        Command::NodeAsk => count == 4,
    }
}

/// The command of a name with the options and paths that were found.
fn command_named(name: &str, paths: &[&str], matches: &ArgMatches) -> Option<Command>
    ensures is { result ≡ command_named name.now (map (λ path. path.now) paths.now) (first_value (found_of matches.now)) }
    ensures within { IfSome result KeepsRanges }
{
    match name {
        "synth" => synth_command(matches),
        "audit" => audit_command(matches),
        "check" => Some(Command::Check),
        "migrate" => Some(Command::Migrate),
        "run" => Some(Command::Run),
        "deltas" => Some(Command::Deltas),
        "converge" => Some(Command::Converge),
        "model" => Some(Command::Model),
        "node-new" => node_new_command(matches),
        "node-step" => Some(Command::NodeStep),
        "node-ask" => Some(Command::NodeAsk),
        "list" => list_command(matches),
        "sample" => sample_command(paths, matches),
        _ => None,
    }
}

/// The search with the options that were found.
fn synth_command(matches: &ArgMatches) -> Option<Command>
    ensures is { result ≡ option_map command.Synth (search_said (first_value (found_of matches.now))) }
    ensures within { IfSome result KeepsRanges }
{
    let options = search_said(matches)?;
    Some(Command::Synth(options))
}

/// The audit of a report of a search with the options that were found.
fn audit_command(matches: &ArgMatches) -> Option<Command>
    ensures is { result ≡ option_map command.Audit (search_said (first_value (found_of matches.now))) }
    ensures within { IfSome result KeepsRanges }
{
    let options = search_said(matches)?;
    Some(Command::Audit(options))
}

/// The options of a search that were found.
fn search_said(matches: &ArgMatches) -> Option<SynthOptions>
    ensures is { result ≡ search_said (first_value (found_of matches.now)) }
    ensures within { IfSome result IsSynthInRange }
{
    Some(SynthOptions {
        size: number_said("size", SIZE_LIMIT, 5, matches)? as u32,
        effort: number_said("effort", EFFORT_LIMIT, 2_000, matches)? as u32,
        designs: number_said("designs", DESIGNS_LIMIT, 200_000, matches)?,
        kinds: kinds_said(matches)?,
    })
}

/// The listing with the options that were found.
fn list_command(matches: &ArgMatches) -> Option<Command>
    ensures is { result ≡ list_of (size_said (first_value (found_of matches.now))) (designs_said (first_value (found_of matches.now)))
        (kinds_said (first_value (found_of matches.now))) }
    ensures within { IfSome result KeepsRanges }
{
    Some(Command::List(ListOptions {
        size: number_said("size", SIZE_LIMIT, 5, matches)? as u32,
        designs: number_said("designs", DESIGNS_LIMIT, 200_000, matches)?,
        kinds: kinds_said(matches)?,
    }))
}

/// The new replica of the number that was found, which is needed.
fn node_new_command(matches: &ArgMatches) -> Option<Command>
    ensures is { result ≡ node_new_of (replica_said (first_value (found_of matches.now))) }
    ensures within { IfSome result KeepsRanges }
{
    let value = matches.get_str("replica")?;
    let number = number_of(1, REPLICA_LIMIT, value)?;
    Some(Command::NodeNew(NodeOptions {
        number: number as u32,
    }))
}

/// The sample whose number comes first among the paths.
fn sample_command(paths: &[&str], matches: &ArgMatches) -> Option<Command>
    ensures is { result ≡ sample_of (sample_number (map (λ path. path.now) paths.now)) (lines_said (first_value (found_of matches.now))) }
    ensures within { IfSome result KeepsRanges }
{
    Some(Command::Sample(SampleOptions {
        number: sample_number(paths)? as u32,
        lines: number_said("lines", LINES_LIMIT, 20_000, matches)? as u32,
    }))
}

/// The number of a sample.
fn sample_number(paths: &[&str]) -> Option<u64>
    ensures is { result ≡ sample_number (map (λ path. path.now) paths.now) }
    ensures within { IfSome result (λ number. number ≤ 999999) }
{
    match paths {
        [path, ..] => number_of(0, SAMPLE_LIMIT, path),
        [] => None,
    }
}

/// The number that an option says, from 1 on, or the one that holds without it.
fn number_said(name: &str, most: u64, default: u64, matches: &ArgMatches) -> Option<u64>
    requires { (1 ≤ default) × (default ≤ most) }
    ensures is { result ≡ said (number_of 1 most) default (first_value (found_of matches.now) name.now) }
    ensures within { IfSome result (λ number. (1 ≤ number) × (number ≤ most)) }
{
    match matches.get_str(name) {
        Some(value) => number_of(1, most, value),
        None => Some(default),
    }
}

/// The kinds that the option says, or all kinds without it.
fn kinds_said(matches: &ArgMatches) -> Option<Kinds>
    ensures { result ≡ kinds_said (first_value (found_of matches.now)) }
{
    match matches.get_str("kinds") {
        Some(value) => kinds_of(value),
        None => Some(all_kinds()),
    }
}
