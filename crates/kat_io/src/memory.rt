//! Files and a sink in memory, all of whose bytes are told.
ghost use Rattle.std.specs.Prelude.{◌≡◌, ◌≤◌, Some, true, IsErrOf};
ghost use Rattle.std.specs.Option.{option_copied};
ghost use Rattle.kat_io.specs.Outside.{Reads, Rose, IsSame, Writes};
ghost use Rattle.kat_io.specs.InMemory.{held, is_sure, CountsRead, CountsWrite};

use crate::outside::{Files, ReadEnd, ReadError, Sink, WriteError};
use std::alloc::Global;

/// Files in memory, which tell everything. Calls are numbered from 1: a read whose number is in
/// `failing`, or of a path that isn't in `files`, fails and is counted in `faults`. Of two entries
/// with one path the first counts. A read that runs out of memory isn't counted. Both counts stay at
/// 2^64 - 1 once they are there.
#[derive(Drop)]
pub struct MemFiles {
    pub files: Vec<(String, Vec<u8>)>,
    pub calls: u64,
    pub failing: Vec<u64>,
    pub faults: u64,
}

/// A sink in memory, which tells everything. Calls are numbered from 1: a write whose number is in
/// `failing` fails, appends nothing and is counted in `faults`. A write that runs out of memory isn't
/// counted. Both counts stay at 2^64 - 1 once they are there.
#[derive(Drop)]
pub struct MemSink {
    pub written: Vec<u8>,
    pub calls: u64,
    pub failing: Vec<u64>,
    pub faults: u64,
}

/// The bytes at a path: those of the first entry that has it.
fn bytes_at<'a>(files: &'a [(String, Vec<u8>)], path: &str) -> Option<&'a [u8]>
    ensures { option_copied result ≡ held files.now path.now }
{
    let (_, bytes) = files.iter().find(|(name, _)| name.as_str() == path)?;
    Some(bytes.as_slice())
}

impl Files for MemFiles {
    ghost holds = { λ files path. held files.files.items path };

    ghost sure = { is_sure };

    ghost faults = { λ files. files.faults };

    fn read(
        &mut self,
        _alloc: Global,
        path: &str,
        limit: usize,
        into: &mut Vec<u8>,
    ) -> Result<ReadEnd, ReadError>
        ensures content { Reads (held self.old.files.items path.now) limit into.old.items into.new.items result }
        ensures same { IsSame (held self.old.files.items) (held self.new.files.items) (is_sure self.old) (is_sure self.new) }
        ensures later { self.old.faults ≤ self.new.faults }
        ensures failed { IsErrOf result ReadError.Failed → Rose self.old.faults self.new.faults }
        ensures unsure { IsErrOf result ReadError.Failed → is_sure self.old path.now ≡ true → ⊥ }
        ensures rule { CountsRead self.old self.new path.now result }
    {
        let number = self.calls.saturating_add(1);
        let is_failing = self.failing.contains(&number);
        match bytes_at(&self.files, path) {
            Some(bytes) if !is_failing => {
                if bytes.len() > limit {
                    self.calls = number;
                    return Ok(ReadEnd::Longer);
                }
                if into.extend_from_slice(bytes).is_err() {
                    return Err(ReadError::Memory);
                }
                self.calls = number;
                Ok(ReadEnd::Whole)
            }
            _ => {
                self.calls = number;
                self.faults = self.faults.saturating_add(1);
                Err(ReadError::Failed)
            }
        }
    }
}

impl Sink for MemSink {
    ghost written = { λ sink. Some sink.written.items };

    ghost faults = { λ sink. sink.faults };

    fn write(&mut self, _alloc: Global, bytes: &[u8]) -> Result<(), WriteError>
        ensures content { Writes (Some self.old.written.items) (Some self.new.written.items) bytes.now result }
        ensures later { self.old.faults ≤ self.new.faults }
        ensures failed { IsErrOf result WriteError.Failed → Rose self.old.faults self.new.faults }
        ensures rule { CountsWrite self.old self.new result }
    {
        let number = self.calls.saturating_add(1);
        if self.failing.contains(&number) {
            self.calls = number;
            self.faults = self.faults.saturating_add(1);
            return Err(WriteError::Failed);
        }
        if self.written.extend_from_slice(bytes).is_err() {
            return Err(WriteError::Memory);
        }
        self.calls = number;
        Ok(())
    }
}
