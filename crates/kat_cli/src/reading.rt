//! The files of a command are read.
ghost use Rattle.std.specs.Prelude.{◌≡◌, ℕ, ◌≤◌, ◌∷◌, [], ◌++◌, length, map, IfErr, IfOk, OnOk};
ghost use Rattle.kat_io.specs.Outside.{IsSame};
ghost use Rattle.kat_cli.specs.Ending.{FailsAt, FailsToRead, contents};
ghost use Rattle.kat_cli.specs.Outcome.{AreRead, IsRead};

use crate::status::{At, Refusal, Status};
use kat_io::{Files, ReadEnd, ReadError};
use std::alloc::Global;

/// How many bytes a file has at most.
pub const FILE_LIMIT: usize = 16_777_216;

const _: () = prove!(FILE_LIMIT == 16_777_216);

/// How many paths a command has at most.
pub(crate) const PATH_LIMIT: usize = 33;

/// The bytes of all files, or how the call ends without them.
pub(crate) fn read_all<F: Files>(
    alloc: Global,
    paths: &[&str],
    files: &mut F,
) -> Result<Vec<Vec<u8>>, Status>
    requires { length paths.now ≤ PATH_LIMIT }
    ensures ok { IfOk result (λ read. AreRead (map (F.holds files.old) (map (λ path. path.now) paths.now)) (contents read.items)) }
    ensures err { IfErr result (FailsToRead (record {
      told = map (F.holds files.old) (map (λ path. path.now) paths.now);
      sure = map (F.sure files.old) (map (λ path. path.now) paths.now);
      faults = F.faults files.old;
      faults_after = F.faults files.new;
    })) }
    ensures same { IsSame (F.holds files.old) (F.holds files.new) (F.sure files.old) (F.sure files.new) }
    ensures later { F.faults files.old ≤ F.faults files.new }
{
    let mut read = Vec::new(alloc);
    'files: for file in 0..paths.len() {
        let bytes = read_file(alloc, paths[file], file as u32, files)?;
        keep(&mut read, bytes)?;
    }
    Ok(read)
}

/// Puts the bytes of a file after the others.
fn keep(read: &mut Vec<Vec<u8>>, bytes: Vec<u8>) -> Result<(), Status>
    ensures ok { OnOk result (contents read.new.items ≡ contents read.old.items ++ bytes.items ∷ []) }
    ensures err { IfErr result (λ status. status ≡ Status.Memory) }
{
    match read.push(bytes) {
        Ok(()) => Ok(()),
        Err(_) => Err(Status::Memory),
    }
}

/// The bytes of a file, or how the call ends without them.
fn read_file<F: Files>(
    alloc: Global,
    path: &str,
    file: u32,
    files: &mut F,
) -> Result<Vec<u8>, Status>
    ensures ok { IfOk result (λ bytes. IsRead (F.holds files.old path.now) bytes.items) }
    ensures err { IfErr result (FailsAt (record {
      told = F.holds files.old path.now;
      sure = F.sure files.old path.now;
      faults = F.faults files.old;
      faults_after = F.faults files.new;
    }) file) }
    ensures same { IsSame (F.holds files.old) (F.holds files.new) (F.sure files.old) (F.sure files.new) }
    ensures later { F.faults files.old ≤ F.faults files.new }
{
    let mut bytes = Vec::new(alloc);
    match files.read(alloc, path, FILE_LIMIT, &mut bytes) {
        Ok(ReadEnd::Whole) => Ok(bytes),
        Ok(ReadEnd::Longer) => Err(Status::Refused {
            file,
            refusal: Refusal {
                number: 20,
                at: At::Length,
            },
        }),
        Err(ReadError::Failed) => Err(Status::ReadFault { file }),
        Err(ReadError::Memory) => Err(Status::Memory),
    }
}
