//! The files and the output of the host.
ghost use Rattle.std.specs.Prelude.{◌≡◌, ◌≤◌, ◌↔◌, None, false, IfErr, IsErrOf, OnOk};
ghost use Rattle.std.specs.Io.KnownBytes.{Appends};
ghost use Rattle.std.specs.IoError.{error_kind};
ghost use Rattle.kat_io.specs.Outside.{Reads, Rose, IsSame, Writes};

use crate::outside::{Files, ReadEnd, ReadError, Sink, WriteError};
use std::alloc::Global;
use std::io::{ErrorKind, Read, Write};
use std::{fs, io, rt};

/// The host's files. They tell no bytes and no path is sure: this is the trusted edge.
#[derive(Drop)]
pub struct HostFiles<'a, R: rt::Files> {
    pub rt: &'a R,
    pub faults: u64,
}

/// A writer of the host's. It tells nothing of what was written: this is the trusted edge.
#[derive(Drop)]
pub struct HostSink<W: Write> {
    pub writer: W,
    pub faults: u64,
}

impl<R: rt::Files> Files for HostFiles<'_, R> {
    ghost holds = { λ _ _. None };

    ghost sure = { λ _ _. false };

    ghost faults = { λ files. files.faults };

    fn read(
        &mut self,
        _alloc: Global,
        path: &str,
        limit: usize,
        into: &mut Vec<u8>,
    ) -> Result<ReadEnd, ReadError> {
        let read = match fs::open(self.rt, path) {
            Ok(file) => read_up_to(file, limit, into),
            Err(_) => Err(ReadError::Failed),
        };
        if read == Err(ReadError::Failed) {
            self.faults = self.faults.saturating_add(1);
        }
        read
    }
}

/// Appends all that the reader has left, if there are at most `limit` bytes. A read that is interrupted is
/// tried again.
fn read_up_to<R: Read + Drop>(
    reader: R,
    limit: usize,
    into: &mut Vec<u8>,
) -> Result<ReadEnd, ReadError>
    ensures { Reads (R.remaining reader) limit into.old.items into.new.items result }
{
    let start = into.len();
    let most = (limit as u64).saturating_add(1);
    match reader.take(most).read_to_end(into) {
        Ok(taken) if taken <= limit => Ok(ReadEnd::Whole),
        Ok(_) => {
            into.truncate(start);
            Ok(ReadEnd::Longer)
        }
        Err(error) => {
            into.truncate(start);
            Err(read_error(&error))
        }
    }
}

/// Why a read of the host's gave nothing.
fn read_error(error: &io::Error) -> ReadError
    ensures { (result ≡ ReadError.Memory) ↔ (error_kind error.now ≡ ErrorKind.OutOfMemory) }
{
    if error.kind() == ErrorKind::OutOfMemory {
        ReadError::Memory
    } else {
        ReadError::Failed
    }
}

impl<W: Write> Sink for HostSink<W> {
    ghost written = { λ _. None };

    ghost faults = { λ sink. sink.faults };

    fn write(&mut self, _alloc: Global, bytes: &[u8]) -> Result<(), WriteError>
        ensures content { Writes None None bytes.now result }
        ensures later { self.old.faults ≤ self.new.faults }
        ensures failed { IsErrOf result WriteError.Failed → Rose self.old.faults self.new.faults }
        ensures whole { OnOk result (Appends (W.contents self.old.writer) (W.contents self.new.writer) bytes.now) }
    {
        let written = write_whole(&mut self.writer, bytes);
        if written.is_err() {
            self.faults = self.faults.saturating_add(1);
        }
        written
    }
}

/// Writes all bytes. After an error a prefix of them was written.
fn write_whole<W: Write>(writer: &mut W, bytes: &[u8]) -> Result<(), WriteError>
    ensures ok { OnOk result (Appends (W.contents writer.old) (W.contents writer.new) bytes.now) }
    ensures err { IfErr result (λ error. error ≡ WriteError.Failed) }
{
    match writer.write_all(bytes) {
        Ok(()) => Ok(()),
        Err(_) => Err(WriteError::Failed),
    }
}
