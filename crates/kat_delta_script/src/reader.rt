//! How a text of a script with deltas is read, line by line.
ghost use Rattle.std.specs.Prelude.{◌≡◌, ◌^◌, ◌<◌, ◌≤◌, ◌++◌, length, option_to_list, IfErr, IfOk, OnOk};
ghost use Rattle.kat_script.specs.Calls.{call_in};
ghost use Rattle.kat_script.specs.Ledger.{known_of, packet_in};
ghost use Rattle.kat_script.specs.Rules.{HasFewCalls, Keeps};
ghost use Rattle.kat_script.specs.declared.error.ScriptError.TheVariants as refused;
ghost use Rattle.kat_delta_script.specs.Reading.{FaultsFirst, Refuses, Stands, Takes};
ghost use Rattle.kat_delta_script.specs.Refusals.{DeltaPlace};
ghost use Rattle.kat_delta_script.specs.Scripts.{IsDeltaScriptText, TellsDeltaRefusal, counted_line, delta_behind, delta_line_of, with_count};

use crate::counts::Tally;
use crate::error::DeltaScriptError;
use crate::statement::{Statement, statement_of};
use kat_delta::{DeltaLine, DeltaScript};
use kat_lex::{Token, line_tokens};
use kat_num::Items;
use kat_script::{
    Constant, LINE_LIMIT, Ledger, Line, Mark, ScriptError, advance, call_in, refusal,
};
use kat_type::Signature;
use std::alloc::{AllocError, Global};

/// What was read so far.
#[derive(Drop)]
pub(crate) struct Reader {
    pub(crate) ledger: Ledger,
    pub(crate) tally: Tally,
    pub(crate) lines: Vec<DeltaLine>,
    pub(crate) marks: Vec<Mark>,
    pub(crate) spare: Vec<Constant>,
}

/// Judges a text whole: the script with all times filled in, or the first refusal. A fault of tokens comes first, for the
/// whole text; then the first line that breaks a rule, by the first rule that it breaks.
pub fn read_deltas(
    alloc: Global,
    bytes: &[u8],
    sig: &Signature,
) -> Result<DeltaScript, DeltaScriptError>
    requires { HasFewCalls sig.now }
    ensures script { IfOk result (λ script. IsDeltaScriptText sig.now bytes.now script) }
    ensures refusal { IfErr result (λ error. TellsDeltaRefusal sig.now bytes.now error) }
{
    let mut reader = Reader {
        ledger: Ledger::new(alloc),
        tally: Tally::new(alloc),
        lines: Vec::with_capacity(alloc, (bytes.len() / 16).min(LINE_LIMIT as usize))?,
        marks: Vec::new(alloc),
        spare: Vec::new(alloc),
    };
    let mut line = Vec::new(alloc);
    let mut number = 1;
    let mut at = 0;
    'lines: while let Some(next) = line_tokens(alloc, bytes, at, &mut line)? {
        if let Err(error) = reader.take(alloc, sig, number, &line) {
            return Err(first_fault(alloc, bytes, next, &mut line, error));
        }
        number += 1;
        at = next;
        line.clear();
    }
    reader.take(alloc, sig, number, &line)?;
    reader.finish()
}

/// The refusal of a text in which a line is refused: a fault of tokens after that line comes first. The
/// line is a buffer.
fn first_fault(
    alloc: Global,
    bytes: &[u8],
    from: usize,
    line: &mut Vec<Token>,
    error: DeltaScriptError,
) -> DeltaScriptError
    requires { from ≤ length bytes.now }
    ensures { FaultsFirst bytes.now from error result }
{
    let mut at = from;
    'lines: loop {
        line.clear();
        match line_tokens(alloc, bytes, at, line) {
            Ok(Some(next)) => at = next,
            Ok(None) => return error,
            Err(fault) => return DeltaScriptError::from(fault),
        }
    }
}

impl Reader {
    /// The script, if it was opened.
    fn finish(self) -> Result<DeltaScript, DeltaScriptError>
        ensures lines { IfOk result (λ script. script.lines ≡ self.lines.items) }
        ensures replicas { IfOk result (λ script. script.replicas ≡ length self.ledger.clocks.items) }
        ensures packets { IfOk result (λ script. script.packets ≡ length self.ledger.packets.items) }
        ensures opened { OnOk result (0 < self.ledger.lines) }
        ensures refusal { IfErr result (λ error. (error ≡ DeltaScriptError.Script (refused.Line 10 1)) × (self.ledger.lines ≡ 0)) }
    {
        if self.ledger.lines == 0 {
            return Err(unreadable(1));
        }
        Ok(DeltaScript {
            replicas: self.ledger.clocks.len() as u32,
            packets: self.ledger.packets.len() as u32,
            lines: Items::from_vec(self.lines),
        })
    }

    /// Takes in the line of this number.
    fn take(
        &mut self,
        alloc: Global,
        sig: &Signature,
        number: u64,
        line: &[Token],
    ) -> Result<(), DeltaScriptError>
        requires { HasFewCalls sig.now }
        ensures takes { IfOk result (λ _. Takes sig.now number line.now self.old self.new) }
        ensures refuses { IfErr result (λ error. Refuses sig.now number line.now self.old error) }
    {
        if line.is_empty() {
            return Ok(());
        }
        match statement_of(alloc, line, &mut self.marks, &mut self.spare)? {
            None => Err(unreadable(number)),
            Some(statement) => {
                let packet = self.ledger.packet_in(&statement.said);
                let call = call_in(sig, &statement.said);
                match self.ledger.first_broken(sig, &statement.said, packet, call) {
                    Some(rule) => Err(DeltaScriptError::Script(refusal(
                        &self.ledger,
                        number,
                        &statement.said,
                        rule,
                    ))),
                    None => match self.tally.refused_by_counts(number, &statement, packet) {
                        Some(error) => Err(error),
                        None => self.keep(alloc, sig, statement, packet, call),
                    },
                }
            }
        }
    }

    /// Takes in a line that keeps the rules, and names the packet and calls the operation or query of these
    /// numbers.
    fn keep(
        &mut self,
        alloc: Global,
        sig: &Signature,
        statement: Statement,
        packet: usize,
        call: usize,
    ) -> Result<(), DeltaScriptError>
        requires packet { packet ≡ packet_in (known_of self.old.ledger) statement.said }
        requires small { packet < 2 ^ 32 }
        requires call { call ≡ call_in sig.now statement.said }
        requires small_call { call < 2 ^ 32 }
        requires kept { Keeps sig.now (known_of self.old.ledger) statement.said }
        ensures stands { OnOk result ((place : DeltaPlace) → Stands self.old.ledger self.old.tally place
            → Stands self.new.ledger self.new.tally (delta_behind sig.now place statement)) }
        ensures lines { OnOk result (self.new.lines.items ≡ self.old.lines.items
            ++ option_to_list (delta_line_of sig.now (known_of self.old.ledger) statement)) }
        ensures memory { IfErr result (λ error. error ≡ DeltaScriptError.Script refused.Memory) }
    {
        let line = self
            .ledger
            .line_of(alloc, sig, &statement.said, packet, call)?;
        advance(alloc, &mut self.ledger, &statement.said, packet)?;
        let line = counted_line(statement.from, line);
        self.tally.take(alloc, &line, self.ledger.clocks.len())?;
        push_line(&mut self.lines, line)?;
        statement.said.give_back(&mut self.spare);
        Ok(())
    }
}

/// Appends the line, if there is one.
fn push_line(lines: &mut Vec<DeltaLine>, line: Option<DeltaLine>) -> Result<(), AllocError>
    ensures { OnOk result (lines.new.items ≡ lines.old.items ++ option_to_list line) }
{
    match line {
        Some(line) => {
            lines.push(line)?;
            Ok(())
        }
        None => Ok(()),
    }
}

/// The line, if there is one, with the count that it begins after.
fn counted_line(from: Option<u64>, line: Option<Line>) -> Option<DeltaLine>
    ensures { result ≡ counted_line from line }
{
    match line {
        Some(line) => Some(with_count(from, line)),
        None => None,
    }
}

/// A line that ships makes a delta, if a count is given.
fn with_count(from: Option<u64>, line: Line) -> DeltaLine
    ensures { result ≡ with_count from line }
{
    match (from, line) {
        (Some(from), Line::Ship { replica, packet }) => DeltaLine::Delta {
            replica,
            packet,
            from,
        },
        (_, line) => DeltaLine::Plain(line),
    }
}

/// The refusal of a line that none of the grammar is, or of a text without a line.
fn unreadable(line: u64) -> DeltaScriptError
    ensures { result ≡ DeltaScriptError.Script (refused.Line 10 line) }
{
    DeltaScriptError::Script(ScriptError::Line { number: 10, line })
}
