//! The commands as `clap` reads them.
ghost use Rattle.std.specs.Prelude.{◌≡◌, ◌∷◌, IfOk, List, [], codes, false, fold, map};
ghost use Rattle.clap.specs.Walk.{rule_of};
ghost use Rattle.clap.specs.Simple.{app_of};
ghost use Rattle.kat_words.specs.Parsers.{IsCommand, bare_app, option_arg, program_app, with_command};

use clap::{Arg, ArgAction, Command};
use std::alloc::{AllocError, Global};

/// The program: one of its commands is wanted, and no help is among them.
pub(crate) fn program<'a>(alloc: Global) -> Result<Command<'a>, AllocError>
    ensures { IfOk result (λ program. app_of program ≡ program_app) }
{
    let none: &[&'a str] = &[];
    let bare = bare_program(alloc);
    let synth = with_command(
        alloc,
        bare,
        "synth",
        &["size", "effort", "designs", "kinds"],
    )?;
    let audit = with_command(
        alloc,
        synth,
        "audit",
        &["size", "effort", "designs", "kinds"],
    )?;
    let check = with_command(alloc, audit, "check", none)?;
    let migrate = with_command(alloc, check, "migrate", none)?;
    let run = with_command(alloc, migrate, "run", none)?;
    let deltas = with_command(alloc, run, "deltas", none)?;
    let converge = with_command(alloc, deltas, "converge", none)?;
    let model = with_command(alloc, converge, "model", none)?;
    let node_new = with_command(alloc, model, "node-new", &["replica"])?;
    let node_step = with_command(alloc, node_new, "node-step", none)?;
    let node_ask = with_command(alloc, node_step, "node-ask", none)?;
    let list = with_command(alloc, node_ask, "list", &["size", "designs", "kinds"])?;
    with_command(alloc, list, "sample", &["lines"])
}

/// The program without its commands.
fn bare_program<'a>(alloc: Global) -> Command<'a>
    ensures { app_of result ≡ bare_app }
{
    Command::new(alloc, "katara")
        .no_binary_name(true)
        .disable_help_flag(true)
        .disable_help_subcommand(true)
        .subcommand_required(true)
}

/// The program with one more command, of this name and with these options.
fn with_command<'a>(
    alloc: Global,
    program: Command<'a>,
    name: &'a str,
    options: &[&'a str],
) -> Result<Command<'a>, AllocError>
    ensures { IfOk result (λ more. app_of more ≡ with_command (app_of program.entry) (name.now, map (λ option. option.now) options.now)) }
{
    let command = new_command(alloc, name, options)?;
    program.subcommand(command)
}

/// A command of this name, with these options and with paths.
fn new_command<'a>(
    alloc: Global,
    name: &'a str,
    options: &[&'a str],
) -> Result<Command<'a>, AllocError>
    ensures { IfOk result (IsCommand name.now (map (λ option. option.now) options.now)) }
{
    let mut command = bare_command(alloc, name)?;
    'each: for option in options {
        command = command.arg(option_arg(alloc, option))?;
    }
    Ok(command)
}

/// A command of this name, with paths alone.
fn bare_command<'a>(alloc: Global, name: &'a str) -> Result<Command<'a>, AllocError>
    ensures { IfOk result (IsCommand name.now []) }
{
    let paths = Arg::new(alloc, "paths").action(ArgAction::Append);
    Command::new(alloc, name).arg(paths)
}

/// An option of this name, which takes a value.
fn option_arg<'a>(alloc: Global, name: &'a str) -> Arg<'a>
    ensures rule { rule_of result ≡ option_arg name.now }
    ensures own { result.global ≡ false }
{
    Arg::new(alloc, name).long(name)
}
