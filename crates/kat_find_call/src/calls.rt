//! What the words ask for.
ghost use Rattle.std.specs.Prelude.{◌≡◌, ℕ, ◌≤◌, List, [], IfErr, IfOk, Some, max, min};
ghost use Rattle.kat_design.specs.Designs.{design_form};
ghost use Rattle.kat_design.specs.Faults.{faults_of};
ghost use Rattle.kat_design_json.specs.Signatures.{IsSignature};
ghost use Rattle.kat_io.specs.Outside.{Tells, grown};
ghost use Rattle.kat_type.specs.Fits.{IsWellSorted};
ghost use Rattle.kat_type.specs.Types.{type_form};
ghost use Rattle.kat_type.specs.Within.{IsWithinLimits};
ghost use Rattle.kat_find_call.specs.Calls.{Wrote, WroteAccepted, WroteDesign, WroteProved};

use crate::status::{At, Status, refused_at, refused_design, refused_type};
use crate::words::{Command, read_words};
use kat_by_hand::{Answer, prove_by_hand};
use kat_design::Design;
use kat_find::{Bounds, find_design};
use kat_io::{Files, ReadEnd, ReadError, Sink};
use kat_search::files_have_signatures;
use kat_type::SeqType;
use kat_type_file::read_type;
use kat_wire::{agrees, read_file};
use std::alloc::Global;

/// How many bytes a file has at most.
const FILE_LIMIT: usize = 16_777_216;

const _: () = prove!(FILE_LIMIT == 16_777_216);

/// Does what the words say, with these files and this place for output, and says how it ended.
pub fn find_or_prove<F: Files, K: Sink>(
    alloc: Global,
    words: &[String],
    files: &mut F,
    out: &mut K,
) -> Status
    ensures done { result ≡ Status.Done → Wrote (F.holds files.old) (K.written out.old) (K.written out.new) }
{
    let request = match read_words(alloc, words) {
        Ok(Some(request)) => request,
        Ok(None) => return Status::Usage,
        Err(_) => return Status::Memory,
    };
    let effort = leaves(request.effort);
    let designs = request.designs;
    match (request.command, request.paths.as_slice()) {
        (Command::Find, [ty]) => find_file(alloc, ty, Bounds { effort, designs }, files, out),
        (Command::Prove, [ty, design]) => prove_file(alloc, ty, design, effort, files, out),
        _ => Status::Usage,
    }
}

/// The leaves of each walk: a number from 1 to 10,000, or the nearest one that is.
fn leaves(effort: u32) -> u32
    ensures within { (1 ≤ result) × (result ≤ 10_000) }
    ensures nearest { result ≡ max 1 (min effort 10_000) }
{
    if effort < 1 {
        1
    } else if effort > 10_000 {
        10_000
    } else {
        effort
    }
}

/// Finds a design for the type of a file, and writes its file or a report.
fn find_file<F: Files, K: Sink>(
    alloc: Global,
    ty_path: &str,
    bounds: Bounds,
    files: &mut F,
    out: &mut K,
) -> Status
    requires effort { (1 ≤ bounds.effort) × (bounds.effort ≤ 10_000) }
    ensures done { result ≡ Status.Done → WroteAccepted (F.holds files.old ty_path.now) (K.written out.old) (K.written out.new) }
{
    let bytes = match content(alloc, 0, ty_path, files) {
        Ok(bytes) => bytes,
        Err(status) => return status,
    };
    find_text(alloc, &bytes, bounds, out)
}

/// Finds a design for the type that a text says, and writes its file or a report.
fn find_text<K: Sink>(alloc: Global, ty: &[u8], bounds: Bounds, out: &mut K) -> Status
    requires effort { (1 ≤ bounds.effort) × (bounds.effort ≤ 10_000) }
    ensures done { result ≡ Status.Done → WroteAccepted (Some ty.now) (K.written out.old) (K.written out.new) }
{
    let ty = match read_type(alloc, ty) {
        Ok(ty) => ty,
        Err(error) => return refused_type(0, error),
    };
    files_have_signatures();
    match find_design(alloc, &ty, bounds) {
        Ok(Answer::File(file)) => print(alloc, file.as_slice(), Status::Done, out),
        Ok(Answer::Report(report)) => print(alloc, &report, Status::Undecided, out),
        Err(_) => Status::Memory,
    }
}

/// Proves the design of a file for the type of another, and writes its file or a report.
fn prove_file<F: Files, K: Sink>(
    alloc: Global,
    ty_path: &str,
    design_path: &str,
    effort: u32,
    files: &mut F,
    out: &mut K,
) -> Status
    requires effort { (1 ≤ effort) × (effort ≤ 10_000) }
    ensures done { result ≡ Status.Done → WroteProved (F.holds files.old ty_path.now) (F.holds files.old design_path.now)
        (K.written out.old) (K.written out.new) }
{
    let bytes = match content(alloc, 0, ty_path, files) {
        Ok(bytes) => bytes,
        Err(status) => return status,
    };
    let design = match content(alloc, 1, design_path, files) {
        Ok(bytes) => bytes,
        Err(status) => return status,
    };
    prove_texts(alloc, &bytes, &design, effort, out)
}

/// Proves the design that a text says for the type of another, and writes its file or a report.
fn prove_texts<K: Sink>(alloc: Global, ty: &[u8], design: &[u8], effort: u32, out: &mut K) -> Status
    requires effort { (1 ≤ effort) × (effort ≤ 10_000) }
    ensures done { result ≡ Status.Done → WroteProved (Some ty.now) (Some design.now) (K.written out.old) (K.written out.new) }
{
    let ty = match read_type(alloc, ty) {
        Ok(ty) => ty,
        Err(error) => return refused_type(0, error),
    };
    let file = match read_file(alloc, design) {
        Ok(file) => file,
        Err(error) => return refused_design(1, error),
    };
    prove_design(alloc, &ty, &file.design, effort, out)
}

/// Proves a design for a type, whose signature it must have, and writes its file or a report.
fn prove_design<K: Sink>(
    alloc: Global,
    ty: &SeqType,
    design: &Design,
    effort: u32,
    out: &mut K,
) -> Status
    requires limits { IsWithinLimits (type_form ty.now) }
    requires sorted { IsWellSorted (type_form ty.now) }
    requires signature { IsSignature design.now.sig }
    requires accepted { faults_of (design_form design.now) ≡ [] }
    requires effort { (1 ≤ effort) × (effort ≤ 10_000) }
    ensures done { result ≡ Status.Done → WroteDesign (type_form ty.now) (design_form design.now) (K.written out.old) (K.written out.new) }
{
    if !agrees(ty, design) {
        return refused_at(1, 16, At::Signature);
    }
    match prove_by_hand(alloc, ty, design, effort) {
        Ok(Answer::File(file)) => print(alloc, file.as_slice(), Status::Done, out),
        Ok(Answer::Report(report)) => print(alloc, &report, Status::Undecided, out),
        Err(_) => Status::Memory,
    }
}

/// The bytes of a file, or how the call ends without them.
fn content<F: Files>(alloc: Global, file: u32, path: &str, files: &mut F) -> Result<Vec<u8>, Status>
    ensures told { IfOk result (λ bytes. Tells (F.holds files.old path.now) bytes.items) }
    ensures same { (other : List ℕ) → F.holds files.new other ≡ F.holds files.old other }
    ensures not_done { IfErr result (λ status. status ≡ Status.Done → ⊥) }
{
    let mut bytes = Vec::new(alloc);
    match files.read(alloc, path, FILE_LIMIT, &mut bytes) {
        Ok(ReadEnd::Whole) => Ok(bytes),
        Ok(ReadEnd::Longer) => Err(refused_at(file, 20, At::Length)),
        Err(ReadError::Failed) => Err(Status::ReadFault { file }),
        Err(ReadError::Memory) => Err(Status::Memory),
    }
}

/// Writes a text, and says how that ended: with `end`, unless writing fails or memory runs out.
fn print<K: Sink>(alloc: Global, text: &[u8], end: Status, out: &mut K) -> Status
    ensures done { result ≡ Status.Done → (end ≡ Status.Done) × (K.written out.new ≡ grown (K.written out.old) text.now) }
{
    match out.write(alloc, text) {
        Ok(()) => end,
        Err(kat_io::WriteError::Failed) => Status::WriteFault,
        Err(kat_io::WriteError::Memory) => Status::Memory,
    }
}
