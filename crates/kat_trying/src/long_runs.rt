//! Longer histories, on which designs are tried that no short one refutes.
ghost use Rattle.std.specs.Prelude.{◌≡◌, ◌≤◌, [], IsTrue, length};
ghost use Rattle.kat_design.specs.Designs.{design_form};
ghost use Rattle.kat_design.specs.Faults.{faults_of};
ghost use Rattle.kat_script.specs.declared.rules.TheConstants.{CALL_LIMIT};
ghost use Rattle.kat_type.specs.Types.{type_form};
ghost use Rattle.kat_type.specs.Within.{IsWithinLimits};

use crate::long_scripts::{drawn_text, run_text};
use crate::pools::{Pools, pools_of};
use kat_design::Design;
use kat_io::MemSink;
use kat_script::{CALL_LIMIT, ScriptError, read_script};
use kat_sort_check::accepted_designs_are_well_sorted;
use kat_type::{SeqType, Signature, signature};
use kat_world::{WorldError, converge, model};
use std::alloc::{AllocError, Global};

/// A longer history: its script, and what the type answers.
#[derive(Drop)]
pub(crate) struct LongRun {
    pub(crate) script: Vec<u8>,
    answers: Vec<u8>,
}

/// How many scripts are drawn.
const SCRIPTS: u32 = 48;

/// The longer histories of a type: runs of each operation alone, and scripts that are drawn.
pub(crate) fn long_runs(alloc: Global, ty: &SeqType) -> Result<Vec<LongRun>, AllocError>
    requires limits { IsWithinLimits (type_form ty.now) }
{
    let pools = pools_of(alloc, ty)?;
    let mut runs = Vec::new(alloc);
    push_runs(alloc, ty, &pools, &mut runs)?;
    for seed in 0..SCRIPTS {
        let script = drawn_text(alloc, ty, &pools, seed)?;
        push_run(alloc, ty, script, &mut runs)?;
    }
    Ok(runs)
}

/// Appends the runs of each operation: with the same arguments each time, and with others.
fn push_runs(
    alloc: Global,
    ty: &SeqType,
    pools: &Pools,
    into: &mut Vec<LongRun>,
) -> Result<(), AllocError>
    requires limits { IsWithinLimits (type_form ty.now) }
{
    for op in ty.ops.as_slice() {
        for seed in 0..3_u32 {
            let script = run_text(alloc, ty, pools, op, seed)?;
            push_run(alloc, ty, script, into)?;
        }
    }
    Ok(())
}

/// Appends the history of a script, if it is a script of the type.
fn push_run(
    alloc: Global,
    ty: &SeqType,
    script: Vec<u8>,
    into: &mut Vec<LongRun>,
) -> Result<(), AllocError>
    requires limits { IsWithinLimits (type_form ty.now) }
{
    if let Some(answers) = answers_of_type(alloc, ty, &script)? {
        into.push(LongRun { script, answers })?;
    }
    Ok(())
}

/// What the type answers on a script.
pub(crate) fn answers_of_type(
    alloc: Global,
    ty: &SeqType,
    text: &[u8],
) -> Result<Option<Vec<u8>>, AllocError>
    requires limits { IsWithinLimits (type_form ty.now) }
{
    let sig = signature(alloc, ty)?;
    if !has_few_calls(&sig) {
        return Ok(None);
    }
    let script = match read_script(alloc, text, &sig) {
        Ok(script) => script,
        Err(ScriptError::Memory) => return Err(AllocError),
        Err(_) => return Ok(None),
    };
    let mut sink = empty_sink(alloc);
    let written = model(alloc, ty, &script, &mut sink);
    answers_in(written, sink)
}

/// What a design answers on a script.
fn answers_of_design(
    alloc: Global,
    design: &Design,
    text: &[u8],
) -> Result<Option<Vec<u8>>, AllocError>
    requires accepted { faults_of (design_form design.now) ≡ [] }
{
    accepted_designs_are_well_sorted();
    if !has_few_calls(&design.sig) {
        return Ok(None);
    }
    let script = match read_script(alloc, text, &design.sig) {
        Ok(script) => script,
        Err(ScriptError::Memory) => return Err(AllocError),
        Err(_) => return Ok(None),
    };
    let mut sink = empty_sink(alloc);
    let written = converge(alloc, design, &script, &mut sink);
    answers_in(written, sink)
}

/// Whether there are as few operations and queries as scripts may name.
fn has_few_calls(sig: &Signature) -> bool
    ensures ops { IsTrue result → length sig.now.ops ≤ CALL_LIMIT }
    ensures queries { IsTrue result → length sig.now.queries ≤ CALL_LIMIT }
{
    sig.ops.as_slice().len() <= CALL_LIMIT && sig.queries.as_slice().len() <= CALL_LIMIT
}

/// A sink that takes everything.
fn empty_sink(alloc: Global) -> MemSink {
    MemSink {
        written: Vec::new(alloc),
        calls: 0,
        failing: Vec::new(alloc),
        faults: 0,
    }
}

/// What was written, unless memory ran out.
fn answers_in(
    written: Result<(), WorldError>,
    sink: MemSink,
) -> Result<Option<Vec<u8>>, AllocError> {
    match written {
        Ok(()) => Ok(Some(sink.written)),
        Err(WorldError::Memory) => Err(AllocError),
        Err(WorldError::WriteFault) => Ok(None),
    }
}

/// The place of the first of these histories on which a design answers otherwise than the type.
pub(crate) fn first_refuting(
    alloc: Global,
    design: &Design,
    runs: &[LongRun],
) -> Result<Option<usize>, AllocError>
    requires accepted { faults_of (design_form design.now) ≡ [] }
{
    for (place, run) in runs.iter().enumerate() {
        if differs_on(alloc, design, run)? {
            return Ok(Some(place));
        }
    }
    Ok(None)
}

/// Whether a design answers otherwise than the type on one of the histories at these places.
pub(crate) fn differs_at_any(
    alloc: Global,
    design: &Design,
    runs: &[LongRun],
    places: &[usize],
) -> Result<bool, AllocError>
    requires accepted { faults_of (design_form design.now) ≡ [] }
{
    for place in places {
        if let Some(run) = runs.get(*place) {
            if differs_on(alloc, design, run)? {
                return Ok(true);
            }
        }
    }
    Ok(false)
}

/// Whether a design answers otherwise than the type on a history.
fn differs_on(alloc: Global, design: &Design, run: &LongRun) -> Result<bool, AllocError>
    requires accepted { faults_of (design_form design.now) ≡ [] }
{
    match answers_of_design(alloc, design, &run.script)? {
        Some(answers) => Ok(answers.as_slice() != run.answers.as_slice()),
        None => Ok(false),
    }
}
