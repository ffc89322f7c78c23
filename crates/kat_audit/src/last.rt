//! The last line of a report.
ghost use Rattle.std.specs.Prelude.{◌≡◌, ◌+◌, ◌<◌, ◌-◌, ◌^◌, IfOk, length};
ghost use Rattle.kat_design.specs.Designs.{DesignForm};
ghost use Rattle.kat_type.specs.declared.signatures.Signature.{Signature as Names};
ghost use Rattle.kat_due.specs.Dues.{Ask, IsNext, last_line, verdict_of};
ghost use Rattle.kat_due.specs.Dues.Phase.{at_design};
ghost use Rattle.kat_due.specs.Readings.{JudgesFrom, state_at};

use kat_due::Reading;
use kat_hist::push_number;
use kat_said::Audit;
use std::alloc::{AllocError, Global};

/// Judges the end of a report when the listing has more designs than are tried.
pub(crate) fn judge_stopped(
    alloc: Global,
    size: u32,
    reading: &mut Reading<'_>,
) -> Result<Audit, AllocError>
    requires room { reading.old.lines + length reading.old.left.now < 2 ^ 64 - 1 }
    ensures { IfOk result (λ verdict. (ask : Ask) (sig : Names) → ask.size ≡ size → reading.old.count < length ask.designs
        → ((d : DesignForm) → IsNext ask (state_at sig reading.old at_design) d → ⊥)
        → JudgesFrom ask (state_at sig reading.old at_design) reading.old.left.now verdict) }
{
    let mut text = Vec::new(alloc);
    push_number(b"stopped after ", reading.count, b" up to ", &mut text)?;
    push_number(b"", u64::from(size), b"\n", &mut text)?;
    Ok(read_last(&text, reading))
}

/// Judges the end of a report when all designs of the listing were tried.
pub(crate) fn judge_end(
    alloc: Global,
    size: u32,
    reading: &mut Reading<'_>,
) -> Result<Audit, AllocError>
    requires room { reading.old.lines + length reading.old.left.now < 2 ^ 64 - 1 }
    ensures { IfOk result (λ verdict. (ask : Ask) (sig : Names) → ask.size ≡ size → reading.old.count ≡ length ask.designs
        → ((d : DesignForm) → IsNext ask (state_at sig reading.old at_design) d → ⊥)
        → JudgesFrom ask (state_at sig reading.old at_design) reading.old.left.now verdict) }
{
    let mut text = Vec::new(alloc);
    if reading.passed == 0 {
        push_number(b"none up to ", u64::from(size), b"\n", &mut text)?;
        return Ok(read_last(&text, reading));
    }
    push_number(b"undecided up to ", u64::from(size), b"\n", &mut text)?;
    Ok(read_last(&text, reading))
}

/// Reads the last line, which must be this one, and nothing after it.
fn read_last(text: &[u8], reading: &mut Reading<'_>) -> Audit
    requires room { reading.old.lines + length reading.old.left.now < 2 ^ 64 - 1 }
    ensures { (ask : Ask) (sig : Names) → last_line ask (state_at sig reading.old at_design) ≡ text.now
        → ((d : DesignForm) → IsNext ask (state_at sig reading.old at_design) d → ⊥)
        → JudgesFrom ask (state_at sig reading.old at_design) reading.old.left.now result }
{
    if let Some(fault) = reading.expect(text) {
        return fault;
    }
    if !reading.left.is_empty() {
        return Audit::Bad(reading.lines + 1);
    }
    verdict_of(reading.hidden)
}

/// The verdict of a report after its last line.
fn verdict_of(hidden: Option<u64>) -> Audit
    ensures { result ≡ verdict_of hidden }
{
    match hidden {
        None => Audit::Confirmed,
        Some(line) => Audit::NotShown(line),
    }
}
