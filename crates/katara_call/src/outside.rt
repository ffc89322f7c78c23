//! The place for output of a call.
ghost use Rattle.std.specs.Prelude.{◌≡◌};
ghost use Rattle.katara_call.specs.Taking.{IsEmpty};

use kat_io::MemSink;
use std::alloc::Global;

/// A place for output in memory, to which nothing was written.
pub(crate) fn empty_sink(alloc: Global) -> MemSink
    ensures { IsEmpty result }
{
    MemSink {
        written: Vec::new(alloc),
        calls: 0,
        failing: Vec::new(alloc),
        faults: 0,
    }
}

/// What was written.
pub(crate) fn written(sink: MemSink) -> Vec<u8>
    ensures { result ≡ sink.written }
{
    let MemSink {
        written,
        calls: _,
        failing: _,
        faults: _,
    } = sink;
    written
}
