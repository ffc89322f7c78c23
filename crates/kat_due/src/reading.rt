//! What was read of a report.
ghost use Rattle.std.specs.Prelude.{◌≡◌, ◌+◌, ◌<◌, ◌≤◌, ◌⊎◌, ◌↔◌, ◌-◌, ◌^◌, [], IsTrue, MatchOption, None, Some, drop, false, length, take, true};
ghost use Rattle.kat_said.specs.Sayings.{said_form};
ghost use Rattle.kat_said.specs.declared.judging.Audit.TheVariants.{Bad};
ghost use Rattle.kat_due.specs.Readings.{IsClosed, IsCut, IsFirst, IsMet, hidden_behind};
ghost use Rattle.kat_due.specs.declared.limits.TheConstants.{UNDECIDED_LIMIT};

use crate::limits::UNDECIDED_LIMIT;
use kat_said::{Audit, Said, line_end};
use std::alloc::Global;

/// What was read of a report: the text that is left, how many lines were read, of how many designs they tell, the histories that
/// are cited, by their numbers among all, how many designs are undecided, and the number of the first line that ends a block
/// with `long`.
#[derive(Drop)]
pub struct Reading<'a> {
    pub left: &'a [u8],
    pub lines: u64,
    pub count: u64,
    pub cited: Vec<u64>,
    pub passed: u64,
    pub hidden: Option<u64>,
}

impl<'a> Reading<'a> {
    /// Nothing of the text was read yet.
    pub fn new(alloc: Global, text: &'a [u8]) -> Reading<'a>
        ensures { IsFirst result text.now }
    {
        Reading {
            left: text,
            lines: 0,
            count: 0,
            cited: Vec::new(alloc),
            passed: 0,
            hidden: None,
        }
    }

    /// Whether no further design is tried: as many were tried as were asked, or as many are undecided as may be.
    pub fn is_over(&self, designs: u64) -> bool
        ensures over { result ≡ true → (designs ≤ self.now.count) ⊎ (UNDECIDED_LIMIT ≤ self.now.passed) }
        ensures going { result ≡ false → (self.now.count < designs) × (self.now.passed < UNDECIDED_LIMIT) }
    {
        self.count >= designs || self.passed >= UNDECIDED_LIMIT
    }

    /// Cuts off the next line, with its newline.
    pub fn cut_line(&mut self) -> Option<&'a [u8]>
        requires { self.old.lines + length self.old.left.now < 2 ^ 64 }
        ensures { MatchOption result (self.old.left.now ≡ []) (λ line. IsCut self.old self.new line.now) }
    {
        if self.left.is_empty() {
            return None;
        }
        let end = line_end(self.left);
        let line = front(self.left, end);
        self.left = behind(self.left, end);
        self.lines += 1;
        Some(line)
    }

    /// Reads a line that must be this one; otherwise there is a fault.
    pub fn expect(&mut self, text: &[u8]) -> Option<Audit>
        requires { self.old.lines + length self.old.left.now < 2 ^ 64 - 1 }
        ensures { IsMet self.old self.new text.now result }
    {
        let due = self.lines + 1;
        match self.cut_line() {
            Some(line) => fault_unless(is_same(line, text), due),
            None => Some(Audit::Bad(due)),
        }
    }

    /// A block ends with the line that was read last. One that ends with `long` doesn't show its file.
    pub fn close(&mut self, said: &Said)
        requires few { self.old.count < 2 ^ 63 }
        requires few_passed { self.old.passed < 2 ^ 63 }
        ensures { IsClosed self.old self.new (said_form said.now) }
    {
        self.count += 1;
        self.passed += 1;
        self.hidden = hidden_behind(self.hidden, self.lines, said);
    }
}

/// After a line that ends a block: the number of the first line that ends one with `long`.
fn hidden_behind(hidden: Option<u64>, line: u64, said: &Said) -> Option<u64>
    ensures { result ≡ hidden_behind hidden line (said_form said.now) }
{
    match said {
        Said::Long(_) => Some(hidden.unwrap_or(line)),
        Said::Drop { .. } => hidden,
        Said::Fail { .. } => hidden,
        Said::Spent(_) => hidden,
        Said::Rows { .. } => hidden,
        Said::Wide { .. } => hidden,
    }
}

fn front(bytes: &[u8], count: usize) -> &[u8]
    requires { count ≤ length bytes.now }
    ensures { result.now ≡ take count bytes.now }
{
    &bytes[..count]
}

fn behind(bytes: &[u8], count: usize) -> &[u8]
    requires { count ≤ length bytes.now }
    ensures { result.now ≡ drop count bytes.now }
{
    &bytes[count..]
}

/// A fault at a line, unless the line is due.
fn fault_unless(is_due: bool, line: u64) -> Option<Audit>
    ensures due { is_due ≡ true → result ≡ None }
    ensures fault { is_due ≡ false → result ≡ Some (Bad line) }
{
    if is_due { None } else { Some(Audit::Bad(line)) }
}

fn is_same(a: &[u8], b: &[u8]) -> bool
    ensures { IsTrue result ↔ (a.now ≡ b.now) }
{
    a == b
}
