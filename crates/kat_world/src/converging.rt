//! How a design runs on a script.
ghost use Rattle.std.specs.Prelude.{◌≡◌, ◌≤◌, IsErrOf, OnErr, OnOk};
ghost use Rattle.kat_design.specs.Designs.{design_form};
ghost use Rattle.kat_design.specs.Small.{IsSmallDesign};
ghost use Rattle.kat_design.specs.Sorted.{IsWellSorted};
ghost use Rattle.kat_io.specs.Outside.{Rose, grown};
ghost use Rattle.kat_script.specs.Judged.{IsJudged};
ghost use Rattle.kat_world.specs.Kept.{IsReady, kept_after, kept_text};
ghost use Rattle.kat_world.specs.Lines.{lines_of};
ghost use Rattle.kat_world.specs.Run.{kept};
ghost use Rattle.kat_world.specs.Written.{IsCutShort};

use crate::running::Running;
use crate::writing::{WorldError, emit};
use kat_design::Design;
use kat_io::Sink;
use kat_script::{Line, Script};
use std::alloc::Global;

/// Writes, for each ask and show of a script, a line with what a design keeps and answers: each replica and packet has
/// one state, an operation is joined into it, and a delivered packet is joined with it. The answer and the state are those
/// that the operations absorbed there give. Each line is written by a call of its own.
///
/// The design is accepted (`sort_check`), and the script judged good for its signature. After an error a prefix of the lines
/// was written.
pub fn converge<K: Sink>(
    alloc: Global,
    design: &Design,
    script: &Script,
    out: &mut K,
) -> Result<(), WorldError>
    requires sorted { IsWellSorted (design_form design.now) }
    requires judged { IsJudged design.now.sig script.now }
    ensures ok { OnOk result (K.written out.new ≡ grown (K.written out.old) (lines_of (design_form design.now) script.now)) }
    ensures err { OnErr result (IsCutShort (K.written out.old) (K.written out.new) (lines_of (design_form design.now) script.now)) }
    ensures fault { IsErrOf result WorldError.WriteFault → Rose (K.faults out.old) (K.faults out.new) }
    ensures later { K.faults out.old ≤ K.faults out.new }
{
    let mut running = Running::new(alloc, design, script.replicas)?;
    let mut text = Vec::new(alloc);
    let lines = script.lines.as_slice();
    for line in lines {
        run_line(alloc, design, line, &mut running, &mut text, out)?;
    }
    Ok(())
}

/// Prints what a line prints, and does what it says. The text is a buffer.
fn run_line<K: Sink>(
    alloc: Global,
    design: &Design,
    line: &Line,
    running: &mut Running,
    text: &mut Vec<u8>,
    out: &mut K,
) -> Result<(), WorldError>
    requires sorted { IsWellSorted (design_form design.now) }
    requires small { IsSmallDesign (design_form design.now) }
    requires ready { IsReady (design_form design.now) (kept running.old) line.now }
    ensures followed { OnOk result (kept running.new ≡ kept_after (design_form design.now) (kept running.old) line.now) }
    ensures ok { OnOk result (K.written out.new
        ≡ grown (K.written out.old) (kept_text (design_form design.now) (kept running.old) line.now)) }
    ensures err { OnErr result
        (IsCutShort (K.written out.old) (K.written out.new) (kept_text (design_form design.now) (kept running.old) line.now)) }
    ensures later { K.faults out.old ≤ K.faults out.new }
    ensures fault { IsErrOf result WorldError.WriteFault → Rose (K.faults out.old) (K.faults out.new) }
{
    text.clear();
    running.print(alloc, design, line, text)?;
    emit(alloc, text, out)?;
    running.follow(alloc, design, line)?;
    Ok(())
}
