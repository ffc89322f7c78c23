//! What a design answers and shows on a script.
ghost use Rattle.std.specs.Prelude.{◌≡◌};
ghost use Rattle.kat_design.specs.Designs.{design_form};
ghost use Rattle.kat_design.specs.Sorted.{IsWellSorted};
ghost use Rattle.kat_script.specs.Judged.{IsJudged};
ghost use Rattle.kat_script.specs.Rules.{HasFewCalls};

use crate::dice::Dice;
use crate::scripts::drawn_script;
use kat_design::Design;
use kat_io::MemSink;
use kat_num::Value;
use kat_script::{Script, read_script};
use kat_world::{answers, converge};
use std::alloc::{AllocError, Global};

/// A script with the answers to its asks and the text that `run` writes.
pub(crate) struct Golden {
    pub(crate) script: Script,
    pub(crate) answers: Vec<Value>,
    pub(crate) text: String,
}

impl Drop for Golden {
    fn drop(self) {
        let Self {
            script: _,
            answers: _,
            text: _,
        } = self;
    }
}

/// A script that is drawn, with what the design answers; none if what is drawn is no script.
pub(crate) fn drawn_golden(
    alloc: Global,
    design: &Design,
    dice: &mut Dice,
) -> Result<Option<Golden>, AllocError>
    requires sorted { IsWellSorted (design_form design.now) }
    requires few { HasFewCalls design.now.sig }
{
    let text = drawn_script(alloc, &design.sig, dice)?;
    match read_script(alloc, text.as_bytes(), &design.sig) {
        Ok(script) => golden_of(alloc, design, script),
        Err(_) => Ok(None),
    }
}

/// The same for a script that is read from a text.
fn golden_of(alloc: Global, design: &Design, script: Script) -> Result<Option<Golden>, AllocError>
    requires sorted { IsWellSorted (design_form design.now) }
    requires judged { IsJudged design.now.sig script }
{
    let answers = answers(alloc, design, &script)?;
    let mut out = MemSink {
        written: Vec::new(alloc),
        calls: 0,
        failing: Vec::new(alloc),
        faults: 0,
    };
    if converge(alloc, design, &script, &mut out).is_err() {
        return Ok(None);
    }
    let mut text = String::new(alloc);
    for letter in out.written.iter() {
        text.push(char::from(*letter))?;
    }
    Ok(Some(Golden {
        script,
        answers,
        text,
    }))
}
