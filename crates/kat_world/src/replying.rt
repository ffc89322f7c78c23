//! What a design answers on a script.
ghost use Rattle.std.specs.Prelude.{◌≡◌, ◌++◌, IfOk, OnOk};
ghost use Rattle.kat_design.specs.Designs.{design_form};
ghost use Rattle.kat_design.specs.Small.{IsSmallDesign};
ghost use Rattle.kat_design.specs.Sorted.{IsWellSorted};
ghost use Rattle.kat_script.specs.Judged.{IsJudged};
ghost use Rattle.kat_world.specs.Kept.{IsReady, kept_after, kept_answers};
ghost use Rattle.kat_world.specs.Replies.{answers_of};
ghost use Rattle.kat_world.specs.Run.{kept};

use crate::running::Running;
use kat_design::Design;
use kat_num::Value;
use kat_script::{Line, Script};
use std::alloc::{AllocError, Global};

/// The answers of a design to the asks of a script, in their order, each in the state that the operations absorbed there give. They
/// are those that [`converge`](crate::converge) prints.
///
/// The design is accepted (`sort_check`), and the script judged good for its signature.
pub fn answers(alloc: Global, design: &Design, script: &Script) -> Result<Vec<Value>, AllocError>
    requires sorted { IsWellSorted (design_form design.now) }
    requires judged { IsJudged design.now.sig script.now }
    ensures { IfOk result (λ answers. answers.items ≡ answers_of (design_form design.now) script.now) }
{
    let mut running = Running::new(alloc, design, script.replicas)?;
    let mut answers = Vec::new(alloc);
    let lines = script.lines.as_slice();
    for line in lines {
        reply_line(alloc, design, line, &mut running, &mut answers)?;
    }
    Ok(answers)
}

/// Appends what a line is answered, and does what it says.
fn reply_line(
    alloc: Global,
    design: &Design,
    line: &Line,
    running: &mut Running,
    answers: &mut Vec<Value>,
) -> Result<(), AllocError>
    requires sorted { IsWellSorted (design_form design.now) }
    requires small { IsSmallDesign (design_form design.now) }
    requires ready { IsReady (design_form design.now) (kept running.old) line.now }
    ensures followed { OnOk result (kept running.new ≡ kept_after (design_form design.now) (kept running.old) line.now) }
    ensures answered { OnOk result (answers.new.items
        ≡ answers.old.items ++ kept_answers (design_form design.now) (kept running.old) line.now) }
{
    running.reply(design, line, answers)?;
    running.follow(alloc, design, line)
}
