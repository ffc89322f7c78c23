//! Scripts that are run with an accepted design.
ghost use Rattle.std.specs.Prelude.{◌≡◌, IfErr, IfOk};
ghost use Rattle.kat_design.specs.Designs.{design_form};
ghost use Rattle.kat_design.specs.Sorted.{IsWellSorted};
ghost use Rattle.kat_script.specs.Judged.{IsJudged};
ghost use Rattle.kat_world.specs.Lines.{lines_of};
ghost use Rattle.kat_embed.specs.Running.{IsNotRun, IsRunOf};

use crate::accepting::{accept, read_typed};
use crate::errors::{AcceptError, RunError};
use kat_design::Design;
use kat_io::{Sink, WriteError};
use kat_script::{Script, ScriptError, read_script};
use kat_world::{WorldError, converge};
use std::alloc::{AllocError, Global};

/// What a design writes on a script, if its proof is accepted for a type: a line for each ask and for each show.
///
/// The type is judged first, then the design, which must have the type's signature, the script, and last the proof.
pub fn run(alloc: Global, ty: &[u8], design: &[u8], script: &[u8]) -> Result<Vec<u8>, RunError>
    ensures ran { IfOk result (λ text. IsRunOf ty.now design.now script.now text.items) }
    ensures refused { IfErr result (IsNotRun ty.now design.now script.now) }
{
    let read = match read_typed(alloc, ty, design) {
        Ok(read) => read,
        Err(error) => return Err(RunError::Unaccepted(error)),
    };
    let script = match read_script(alloc, script, &read.file.design.sig) {
        Ok(script) => script,
        Err(ScriptError::Memory) => return Err(RunError::Memory),
        Err(error) => return Err(RunError::BadScript(error)),
    };
    match accept(alloc, &read) {
        Ok(()) => {}
        Err(error) => return Err(RunError::Unaccepted(error)),
    }
    let text = lines(alloc, &read.file.design, &script)?;
    Ok(text)
}

/// The lines of a design on a script.
fn lines(alloc: Global, design: &Design, script: &Script) -> Result<Vec<u8>, AllocError>
    requires sorted { IsWellSorted (design_form design.now) }
    requires judged { IsJudged design.now.sig script.now }
    ensures { IfOk result (λ text. text.items ≡ lines_of (design_form design.now) script.now) }
{
    let mut page = Page {
        text: Vec::new(alloc),
    };
    match converge(alloc, design, script, &mut page) {
        Ok(()) => Ok(page.text),
        Err(WorldError::Memory) => Err(AllocError),
        Err(WorldError::WriteFault) => unreachable!(),
    }
}

/// A place for output that fails only if memory runs out.
#[derive(Drop)]
struct Page {
    text: Vec<u8>,
}

impl Sink for Page {
    ghost use Rattle.std.specs.Prelude.{Some};

    ghost written = { λ page. Some page.text.items };

    ghost faults = { λ page. 0 };

    fn write(&mut self, _alloc: Global, bytes: &[u8]) -> Result<(), WriteError> {
        match self.text.extend_from_slice(bytes) {
            Ok(()) => Ok(()),
            Err(_) => Err(WriteError::Memory),
        }
    }
}
