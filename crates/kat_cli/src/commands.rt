//! What each command does with the bytes of its files: one arm a command, and what several commands need.
ghost use Rattle.std.specs.Prelude.{◌≡◌, ◌≤◌, ◌⊎◌, [], true, length};
ghost use Rattle.kat_cli.specs.Ending.{Judges, contents};
ghost use Rattle.kat_cli.specs.Refusals.{delta_status, design_status, file_status, node_status, other_signature, script_status, step_status, type_status};
ghost use Rattle.kat_cli.specs.Commands.{has_files};
ghost use Rattle.kat_words.specs.Words.{KeepsRanges};

use crate::audit_command::judge_audit;
use crate::check_command::judge_check;
use crate::converge_command::judge_converge;
use crate::deltas_command::judge_deltas;
use crate::list_command::judge_list;
use crate::migrate_command::judge_migrate;
use crate::model_command::judge_model;
use crate::node_commands::{judge_node_ask, judge_node_new, judge_node_step};
use crate::run_command::judge_run;
use crate::sample_command::judge_sample;
use crate::status::{At, Refusal, Status};
use crate::synth_command::judge_synth;
use kat_delta_script::DeltaScriptError;
use kat_io::Sink;
use kat_node::NodeError;
use kat_node_texts::FileError;
use kat_num::Items;
use kat_script::ScriptError;
use kat_step::StepError;
use kat_type::TypeError;
use kat_wire::WireError;
use kat_words::Command;
use std::alloc::Global;

/// Judges the files of a command in their order, and does what the command says.
pub(crate) fn judge<K: Sink>(
    alloc: Global,
    command: Command,
    files: &[Vec<u8>],
    out: &mut K,
) -> Status
    requires paths { has_files command (length files.now) ≡ true }
    requires ranges { KeepsRanges command }
    ensures judged { Judges command (contents files.now) (record {
      written = K.written out.old;
      written_after = K.written out.new;
      faults = K.faults out.old;
      faults_after = K.faults out.new;
    }) result }
    ensures later { K.faults out.old ≤ K.faults out.new }
{
    match command {
        Command::Converge => match files {
            [design, script] => judge_converge(alloc, design, script, out),
            _ => unreachable!(),
        },
        Command::Model => match files {
            [ty, script] => judge_model(alloc, ty, script, out),
            _ => unreachable!(),
        },
        Command::List(options) => match files {
            [ty] => judge_list(alloc, options, ty, out),
            _ => unreachable!(),
        },
        Command::Check => match files {
            [ty, design] => judge_check(alloc, ty, design, out),
            _ => unreachable!(),
        },
        Command::Migrate => match files {
            [ty, design] => judge_migrate(alloc, ty, design, out),
            _ => unreachable!(),
        },
        Command::Run => match files {
            [ty, design, script] => judge_run(alloc, ty, design, script, out),
            _ => unreachable!(),
        },
        Command::Deltas => match files {
            [ty, design, script] => judge_deltas(alloc, ty, design, script, out),
            _ => unreachable!(),
        },
        Command::Synth(options) => match files {
            [ty] => judge_synth(alloc, options, ty, out),
            _ => unreachable!(),
        },
        Command::Sample(options) => match files {
            [] => judge_sample(alloc, options, out),
            _ => unreachable!(),
        },
        Command::NodeNew(options) => match files {
            [design] => judge_node_new(alloc, options, design, out),
            _ => unreachable!(),
        },
        Command::NodeStep => match files {
            [design, state, actions, packets @ ..] => {
                judge_node_step(alloc, design, state, actions, packets, out)
            }
            _ => unreachable!(),
        },
        Command::NodeAsk => match files {
            [ty, design, state, questions] => {
                judge_node_ask(alloc, ty, design, state, questions, out)
            }
            _ => unreachable!(),
        },
        Command::Audit(options) => match files {
            [ty, report] => judge_audit(alloc, options, ty, report, out),
            _ => unreachable!(),
        },
    }
}

/// A file is refused by a rule, at a place.
pub(crate) fn refused(file: u32, number: u8, at: At) -> Status
    ensures { result ≡ Status.Refused file (record { number = number; at = at }) }
{
    Status::Refused {
        file,
        refusal: Refusal { number, at },
    }
}

/// How a call ends if a type file isn't read.
pub(crate) fn refused_type(file: u32, error: TypeError) -> Status
    ensures { result ≡ type_status file error }
{
    match error {
        TypeError::Refused { number, at } => refused(file, number, At::Byte(at)),
        TypeError::Memory => Status::Memory,
    }
}

/// How a call ends if a script isn't read.
pub(crate) fn refused_script(file: u32, error: ScriptError) -> Status
    ensures { result ≡ script_status file error }
{
    match error {
        ScriptError::Refused { number, at } => refused(file, number, At::Byte(at)),
        ScriptError::Line { number, line } => refused(file, number, At::Line(line)),
        ScriptError::Late { line, clock } => refused(file, 13, At::Late { line, clock }),
        ScriptError::Memory => Status::Memory,
    }
}

/// How a call ends if a script with deltas isn't read.
pub(crate) fn refused_deltas(file: u32, error: DeltaScriptError) -> Status
    ensures { result ≡ delta_status file error }
{
    match error {
        DeltaScriptError::Script(error) => refused_script(file, error),
        DeltaScriptError::NoCount { line } => refused(file, 23, At::Line(line)),
        DeltaScriptError::Gap {
            line,
            origin,
            have,
            need,
        } => refused(
            file,
            24,
            At::Gap {
                line,
                origin,
                have,
                need,
            },
        ),
    }
}

/// How a call ends if a design file isn't read.
pub(crate) fn refused_design(alloc: Global, file: u32, error: WireError) -> Status
    ensures { result ≡ design_status file error }
{
    match error {
        WireError::BadDesign(place) => refused(file, 16, At::Place(place)),
        WireError::Json => refused(file, 17, top(alloc)),
        WireError::Form(place) => refused(file, 18, At::Place(place)),
        WireError::Version => refused(file, 19, top(alloc)),
        WireError::Memory => Status::Memory,
    }
}

/// How a call ends if a state file isn't read.
pub(crate) fn refused_node(alloc: Global, file: u32, error: NodeError) -> Status
    ensures { result ≡ node_status file error }
{
    match error {
        NodeError::Json => refused(file, 17, top(alloc)),
        NodeError::Form(place) => refused(file, 18, At::Place(place)),
        NodeError::Version => refused(file, 19, top(alloc)),
        NodeError::BadState(place) => refused(file, 28, At::Place(place)),
        NodeError::Memory => Status::Memory,
    }
}

/// How a call ends if a file of a step isn't read.
pub(crate) fn refused_step_file(alloc: Global, file: u32, error: FileError) -> Status
    ensures { result ≡ file_status file error }
{
    match error {
        FileError::State(error) => refused_node(alloc, file, error),
        FileError::Calls(error) => refused_script(file, error),
    }
}

/// How a call ends if an action can't be done.
pub(crate) fn refused_step(file: u32, error: StepError) -> Status
    ensures { result ≡ step_status file error }
{
    match error {
        StepError::TooLarge { line } => refused(file, 15, At::Line(line)),
        StepError::FullState { line } => refused(file, 29, At::Line(line)),
        StepError::Memory => Status::Memory,
    }
}

/// How a call ends if a design file has another signature than the type.
pub(crate) fn refused_signature(alloc: Global, file: u32) -> Status
    ensures { (result ≡ Status.Memory) ⊎ (result ≡ Status.Refused file other_signature) }
{
    match vec![in alloc; 2_u32] {
        Ok(place) => refused(file, 16, At::Place(Items::from_vec(place))),
        Err(_) => Status::Memory,
    }
}

/// The place of a whole file.
fn top(alloc: Global) -> At
    ensures { result ≡ At.Place [] }
{
    At::Place(Items::from_vec(Vec::new(alloc)))
}
