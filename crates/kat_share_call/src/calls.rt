//! What the words ask for.
ghost use Rattle.std.specs.Prelude.{◌≡◌, ◌≤◌, ℕ, List, IfErr, IfOk, map, max, min, string_bytes};
ghost use Rattle.kat_io.specs.Outside.{Tells};
ghost use Rattle.kat_share_call.specs.Codes.{Ends, IsPlain, LeavesOutput};
ghost use Rattle.kat_share_call.specs.Sharing.{AreAt, MeetsGap, Shared, Writes};
ghost use Rattle.kat_share_call.specs.Written.{contents};

use crate::status::{At, Status, refused_at};
use crate::texts::{write_difference, write_new, write_step};
use crate::words::{Command, Request, read_words};
use kat_io::{Files, ReadEnd, ReadError, Sink};
use kat_share_step::PACKETS_LIMIT;
use std::alloc::Global;

/// How many bytes a file has at most.
const FILE_LIMIT: usize = 16_777_216;

const _: () = prove!(FILE_LIMIT == 16_777_216);

/// Does what the words say, with these files and this place for output, and says how it ended.
///
/// - `node-share DESIGN --replica R` writes the share file of a new replica.
/// - `node-difference DESIGN SHARE [KNOWN]` writes the packet of what a share has beyond a known one.
/// - `node-take DESIGN SHARE ACTIONS [PACKET ..]` writes a share after packets and actions, or says which packet leaves out what is
///   missing.
pub fn share_nodes<F: Files, K: Sink>(
    alloc: Global,
    words: &[String],
    files: &mut F,
    out: &mut K,
) -> Status
    ensures done { result ≡ Status.Done → Shared (map string_bytes words.now) (F.holds files.old) (K.written out.old) (K.written out.new) }
    ensures gap { (packet : ℕ) → result ≡ Status.Gap packet → MeetsGap (F.holds files.old) packet }
    ensures untouched { LeavesOutput result → K.written out.new ≡ K.written out.old }
{
    match read_words(alloc, words) {
        Ok(Some(request)) => answer(alloc, &request, files, out),
        Ok(None) => Status::Usage,
        Err(_) => Status::Memory,
    }
}

/// The same for words that are read.
fn answer<F: Files, K: Sink>(
    alloc: Global,
    request: &Request<'_>,
    files: &mut F,
    out: &mut K,
) -> Status
    ensures ends { Ends (Writes request.now.command (F.holds files.old) (K.written out.old) (K.written out.new)) (MeetsGap (F.holds files.old))
        (K.written out.old) (K.written out.new) result }
{
    let paths = request.paths.as_slice();
    match request.command {
        Command::Begin => match paths {
            [design] => begin_file(alloc, design, replica_number(request.number), files, out),
            _ => Status::Usage,
        },
        Command::Difference => match paths {
            [design, share] => difference_files(alloc, design, share, files, out),
            _ => Status::Usage,
        },
        Command::DifferenceBeyond => match paths {
            [design, share, known] => difference_beyond(alloc, design, share, known, files, out),
            _ => Status::Usage,
        },
        Command::Take => match paths {
            [design, share, actions, packets @ ..] => {
                take_files(alloc, design, share, actions, packets, files, out)
            }
            _ => Status::Usage,
        },
    }
}

/// A number of a replica: from 1 to 32, or the nearest one that is.
fn replica_number(number: u32) -> u32
    ensures least { 1 ≤ result }
    ensures most { result ≤ 32 }
    ensures nearest { result ≡ max 1 (min number 32) }
{
    if number < 1 {
        1
    } else if number > 32 {
        32
    } else {
        number
    }
}

/// Writes the share file of a new replica of the design of a file.
fn begin_file<F: Files, K: Sink>(
    alloc: Global,
    design_path: &str,
    number: u32,
    files: &mut F,
    out: &mut K,
) -> Status
    requires least { 1 ≤ number }
    requires most { number ≤ 32 }
    ensures ends { Ends (Writes Command.Begin (F.holds files.old) (K.written out.old) (K.written out.new)) (MeetsGap (F.holds files.old))
        (K.written out.old) (K.written out.new) result }
{
    match content(alloc, 0, design_path, files) {
        Ok(design) => write_new(alloc, &design, number, out),
        Err(status) => status,
    }
}

/// Writes the packet of all that the share of a file has.
fn difference_files<F: Files, K: Sink>(
    alloc: Global,
    design_path: &str,
    share_path: &str,
    files: &mut F,
    out: &mut K,
) -> Status
    ensures ends { Ends (Writes Command.Difference (F.holds files.old) (K.written out.old) (K.written out.new)) (MeetsGap (F.holds files.old))
        (K.written out.old) (K.written out.new) result }
{
    match two_contents(alloc, design_path, share_path, files) {
        Ok(texts) => write_difference(alloc, &texts.0, &texts.1, &[], out),
        Err(status) => status,
    }
}

/// Writes the packet of what the share of a file has beyond that of another.
fn difference_beyond<F: Files, K: Sink>(
    alloc: Global,
    design_path: &str,
    share_path: &str,
    known_path: &str,
    files: &mut F,
    out: &mut K,
) -> Status
    ensures ends { Ends (Writes Command.DifferenceBeyond (F.holds files.old) (K.written out.old) (K.written out.new)) (MeetsGap (F.holds files.old))
        (K.written out.old) (K.written out.new) result }
{
    let texts = match two_contents(alloc, design_path, share_path, files) {
        Ok(texts) => texts,
        Err(status) => return status,
    };
    match content(alloc, 2, known_path, files) {
        Ok(known) => write_difference(alloc, &texts.0, &texts.1, &known, out),
        Err(status) => status,
    }
}

/// Writes the share of a file after the packets and the actions of others.
fn take_files<F: Files, K: Sink>(
    alloc: Global,
    design_path: &str,
    share_path: &str,
    actions_path: &str,
    packet_paths: &[&str],
    files: &mut F,
    out: &mut K,
) -> Status
    ensures ends { Ends (Writes Command.Take (F.holds files.old) (K.written out.old) (K.written out.new)) (MeetsGap (F.holds files.old))
        (K.written out.old) (K.written out.new) result }
{
    let texts = match two_contents(alloc, design_path, share_path, files) {
        Ok(texts) => texts,
        Err(status) => return status,
    };
    let actions = match content(alloc, 2, actions_path, files) {
        Ok(actions) => actions,
        Err(status) => return status,
    };
    let packets = match contents(alloc, 3, packet_paths, files) {
        Ok(packets) => packets,
        Err(status) => return status,
    };
    if packets.len() > PACKETS_LIMIT {
        return Status::Usage;
    }
    write_step(alloc, &texts.0, &texts.1, &actions, &packets, out)
}

/// The bytes of two files, or how the call ends without them.
fn two_contents<F: Files>(
    alloc: Global,
    first: &str,
    second: &str,
    files: &mut F,
) -> Result<(Vec<u8>, Vec<u8>), Status>
    ensures told { IfOk result (λ read. Tells (F.holds files.old first.now) read.0.items
        × Tells (F.holds files.old second.now) read.1.items) }
    ensures same { (other : List ℕ) → F.holds files.new other ≡ F.holds files.old other }
    ensures plain { IfErr result IsPlain }
{
    let bytes = match content(alloc, 0, first, files) {
        Ok(bytes) => bytes,
        Err(status) => return Err(status),
    };
    match content(alloc, 1, second, files) {
        Ok(others) => Ok((bytes, others)),
        Err(status) => Err(status),
    }
}

/// The bytes of all files at these paths, of which the first is the file of this number, or how the call ends without them.
fn contents<F: Files>(
    alloc: Global,
    first: u32,
    paths: &[&str],
    files: &mut F,
) -> Result<Vec<Vec<u8>>, Status>
    ensures told { IfOk result (λ read. AreAt (F.holds files.old) (map (λ path. path.now) paths.now) (contents read.items)) }
    ensures same { (other : List ℕ) → F.holds files.new other ≡ F.holds files.old other }
    ensures plain { IfErr result IsPlain }
{
    let Some((path, rest)) = paths.split_first() else {
        return Ok(Vec::new(alloc));
    };
    let bytes = match content(alloc, first, path, files) {
        Ok(bytes) => bytes,
        Err(status) => return Err(status),
    };
    let mut others = match contents(alloc, first.saturating_add(1), rest, files) {
        Ok(others) => others,
        Err(status) => return Err(status),
    };
    match others.insert(0, bytes) {
        Ok(()) => Ok(others),
        Err(_) => Err(Status::Memory),
    }
}

/// The bytes of a file, or how the call ends without them.
fn content<F: Files>(alloc: Global, file: u32, path: &str, files: &mut F) -> Result<Vec<u8>, Status>
    ensures told { IfOk result (λ bytes. Tells (F.holds files.old path.now) bytes.items) }
    ensures same { (other : List ℕ) → F.holds files.new other ≡ F.holds files.old other }
    ensures plain { IfErr result IsPlain }
{
    let mut bytes = Vec::new(alloc);
    match files.read(alloc, path, FILE_LIMIT, &mut bytes) {
        Ok(ReadEnd::Whole) => Ok(bytes),
        Ok(ReadEnd::Longer) => Err(refused_at(file, 20, At::Length)),
        Err(ReadError::Failed) => Err(Status::ReadFault { file }),
        Err(ReadError::Memory) => Err(Status::Memory),
    }
}
