//! `list TYPE`: the designs of a type's listing, one a line.
ghost use Rattle.std.specs.Prelude.{◌≡◌, ◌<◌, ◌≤◌, ◌+◌, ◌++◌, ◌∷◌, [], ◌^◌, IfOk, IsErrOf, OnErr, OnOk, nat_lt, length, not, option_map};
ghost use Rattle.kat_design.specs.Designs.{design_form};
ghost use Rattle.kat_design.specs.Faults.{faults_of};
ghost use Rattle.kat_gram.specs.Listings.{given_of, last_number, to_come};
ghost use Rattle.kat_io.specs.Outside.{Rose, grown};
ghost use Rattle.kat_world.specs.Written.{IsCutShort};
ghost use Rattle.kat_cli.specs.Ending.{Judges, Prints};
ghost use Rattle.kat_cli.specs.ListCommand.{design_line, end_of, output};
ghost use Rattle.kat_cli.specs.Listing.{ArePassed, WritesNext, next_line};
ghost use Rattle.kat_words.specs.Words.{IsListInRange};

use crate::commands::refused_type;
use crate::status::Status;
use itoa::Buffer;
use kat_design::Design;
use kat_gram::Listing;
use kat_io::Sink;
use kat_type_file::read_type;
use kat_wire::design_text;
use kat_words::{Command, ListOptions};
use kat_world::{WorldError, emit};
use std::alloc::{AllocError, Global};

/// Judges the type, and writes its listing.
pub(crate) fn judge_list<K: Sink>(
    alloc: Global,
    options: ListOptions,
    ty: &[u8],
    out: &mut K,
) -> Status
    requires { IsListInRange options }
    ensures judged { Judges (Command.List options) (ty.now ∷ []) (record {
      written = K.written out.old;
      written_after = K.written out.new;
      faults = K.faults out.old;
      faults_after = K.faults out.new;
    }) result }
    ensures later { K.faults out.old ≤ K.faults out.new }
{
    let ty = match read_type(alloc, ty) {
        Ok(ty) => ty,
        Err(error) => return refused_type(0, error),
    };
    match Listing::new(alloc, &ty, options.size, options.kinds) {
        Ok(mut listing) => print(alloc, &mut listing, options.designs, out),
        Err(_) => Status::Memory,
    }
}

/// Writes the first designs of those to come, and says how that ended.
fn print<K: Sink>(alloc: Global, listing: &mut Listing, most: u64, out: &mut K) -> Status
    requires passed { ArePassed (to_come listing.old) }
    requires none { given_of listing.old ≡ [] }
    requires few { most ≤ 1_000_000 }
    ensures prints { Prints (output most (to_come listing.old)) (end_of most (to_come listing.old)) (record {
      written = K.written out.old;
      written_after = K.written out.new;
      faults = K.faults out.old;
      faults_after = K.faults out.new;
    }) result }
    ensures later { K.faults out.old ≤ K.faults out.new }
{
    match write_designs(alloc, listing, most, out) {
        Ok(true) => Status::Stopped,
        Ok(false) => Status::Done,
        Err(WorldError::WriteFault) => Status::WriteFault,
        Err(WorldError::Memory) => Status::Memory,
    }
}

/// Writes the lines of at most this many designs, and says whether there are more.
fn write_designs<K: Sink>(
    alloc: Global,
    listing: &mut Listing,
    most: u64,
    out: &mut K,
) -> Result<bool, WorldError>
    requires passed { ArePassed (to_come listing.old) }
    requires none { given_of listing.old ≡ [] }
    requires few { most ≤ 1_000_000 }
    ensures ok { IfOk result (λ _. K.written out.new ≡ grown (K.written out.old) (output most (to_come listing.old))) }
    ensures more { IfOk result (λ more. more ≡ nat_lt most (length (to_come listing.old))) }
    ensures err { OnErr result (IsCutShort (K.written out.old) (K.written out.new) (output most (to_come listing.old))) }
    ensures fault { IsErrOf result WorldError.WriteFault → Rose (K.faults out.old) (K.faults out.new) }
    ensures later { K.faults out.old ≤ K.faults out.new }
{
    'designs: for written in 0..most {
        if !write_next(alloc, written + 1, listing, out)? {
            return Ok(false);
        }
    }
    Ok(listing.next(alloc)?.is_some())
}

/// Writes the line of the next design, and says whether there is one.
fn write_next<K: Sink>(
    alloc: Global,
    number: u64,
    listing: &mut Listing,
    out: &mut K,
) -> Result<bool, WorldError>
    requires passed { ArePassed (to_come listing.old) }
    requires few { length (given_of listing.old) ≤ last_number }
    ensures given { length (given_of listing.new) ≤ length (given_of listing.old) + 1 }
    ensures ok { IfOk result (WritesNext number (to_come listing.old) (to_come listing.new) (K.written out.old) (K.written out.new)) }
    ensures err { OnErr result (IsCutShort (K.written out.old) (K.written out.new) (next_line number (to_come listing.old))) }
    ensures fault { IsErrOf result WorldError.WriteFault → Rose (K.faults out.old) (K.faults out.new) }
    ensures later { K.faults out.old ≤ K.faults out.new }
{
    match listing.next(alloc)? {
        Some(design) => {
            write_design(alloc, number, &design, out)?;
            Ok(true)
        }
        None => Ok(false),
    }
}

/// Writes the line of a design.
fn write_design<K: Sink>(
    alloc: Global,
    number: u64,
    design: &Design,
    out: &mut K,
) -> Result<(), WorldError>
    requires { faults_of (design_form design.now) ≡ [] }
    ensures ok { OnOk result (K.written out.new ≡ grown (K.written out.old) (design_line number (design_form design.now))) }
    ensures err { OnErr result (IsCutShort (K.written out.old) (K.written out.new) (design_line number (design_form design.now))) }
    ensures fault { IsErrOf result WorldError.WriteFault → Rose (K.faults out.old) (K.faults out.new) }
    ensures later { K.faults out.old ≤ K.faults out.new }
{
    let line = design_line(alloc, number, design)?;
    emit(alloc, &line, out)
}

/// The line of a design: its number and its JSON text.
fn design_line(alloc: Global, number: u64, design: &Design) -> Result<Vec<u8>, AllocError>
    requires { faults_of (design_form design.now) ≡ [] }
    ensures { IfOk result (λ line. line.items ≡ design_line number (design_form design.now)) }
{
    let mut line = Vec::new(alloc);
    line.extend_from_slice(Buffer::new().format(number).as_bytes())?;
    line.push(b' ')?;
    line.extend_from_slice(&design_text(alloc, design)?)?;
    line.push(b'\n')?;
    Ok(line)
}
