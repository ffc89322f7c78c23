//! How a text is read, line by line.
ghost use Rattle.std.specs.Prelude.{◌≡◌, ◌^◌, ◌<◌, ◌≤◌, ◌++◌, length, option_to_list, IfErr, IfOk, OnOk};
ghost use Rattle.kat_num.specs.One.{IsTheOne};
ghost use Rattle.kat_script.specs.Grammar.{Says};
ghost use Rattle.kat_script.specs.Marks.{marks_of};
ghost use Rattle.kat_script.specs.Rules.{HasFewCalls, Keeps, line_of};
ghost use Rattle.kat_script.specs.Script.{IsScriptText, Place, TellsRefusal, behind, refusal_of};
ghost use Rattle.kat_script.specs.Reading.{FaultsFirst, Refuses, Takes};
ghost use Rattle.kat_script.specs.Calls.{call_in};
ghost use Rattle.kat_script.specs.Ledger.{Matches, known_of, packet_in};

use crate::advancing::advance;
use crate::calls::call_in;
use crate::error::ScriptError;
use crate::ledger::Ledger;
use crate::marks::{Mark, fill_marks, some_touch};
use crate::rules::{LINE_LIMIT, Rule};
use crate::said::{Constant, Said, said_by};
use crate::script::{Line, Script};
use kat_lex::{Token, line_tokens};
use kat_num::Items;
use kat_type::Signature;
use std::alloc::{AllocError, Global};

/// What was read so far.
#[derive(Drop)]
pub(crate) struct Reader {
    pub(crate) ledger: Ledger,
    pub(crate) lines: Vec<Line>,
    pub(crate) marks: Vec<Mark>,
    pub(crate) spare: Vec<Constant>,
}

/// Judges a text whole: the script with all times filled in, or the first refusal. A fault of tokens
/// comes first, for the whole text; then the first line that breaks a rule, by the first rule that it
/// breaks. The tokens of one line are kept beside the script.
pub fn read_script(alloc: Global, bytes: &[u8], sig: &Signature) -> Result<Script, ScriptError>
    requires { HasFewCalls sig.now }
    ensures script { IfOk result (λ script. IsScriptText sig.now bytes.now script) }
    ensures refusal { IfErr result (λ error. TellsRefusal sig.now bytes.now error) }
{
    let mut reader = Reader {
        ledger: Ledger::new(alloc),
        lines: Vec::with_capacity(alloc, (bytes.len() / 16).min(LINE_LIMIT as usize))?,
        marks: Vec::new(alloc),
        spare: Vec::new(alloc),
    };
    let mut line = Vec::new(alloc);
    let mut number = 1;
    let mut at = 0;
    'lines: while let Some(next) = line_tokens(alloc, bytes, at, &mut line)? {
        if let Err(error) = reader.take(alloc, sig, number, &line) {
            return Err(first_fault(alloc, bytes, next, &mut line, error));
        }
        number += 1;
        at = next;
        line.clear();
    }
    reader.take(alloc, sig, number, &line)?;
    reader.finish()
}

/// The refusal of a text in which a line is refused: a fault of tokens after that line comes first. The
/// line is a buffer.
fn first_fault(
    alloc: Global,
    bytes: &[u8],
    from: usize,
    line: &mut Vec<Token>,
    error: ScriptError,
) -> ScriptError
    requires { from ≤ length bytes.now }
    ensures { FaultsFirst bytes.now from error result }
{
    if let ScriptError::Memory = error {
        return ScriptError::Memory;
    }
    let mut at = from;
    'lines: loop {
        line.clear();
        match line_tokens(alloc, bytes, at, line) {
            Ok(Some(next)) => at = next,
            Ok(None) => return error,
            Err(fault) => return ScriptError::from(fault),
        }
    }
}

impl Reader {
    /// The script, if it was opened.
    fn finish(self) -> Result<Script, ScriptError>
        ensures lines { IfOk result (λ script. script.lines ≡ self.lines.items) }
        ensures replicas { IfOk result (λ script. script.replicas ≡ length self.ledger.clocks.items) }
        ensures packets { IfOk result (λ script. script.packets ≡ length self.ledger.packets.items) }
        ensures opened { OnOk result (0 < self.ledger.lines) }
        ensures refusal { IfErr result (λ error. (error ≡ ScriptError.Line 10 1) × (self.ledger.lines ≡ 0)) }
    {
        if self.ledger.lines == 0 {
            return Err(ScriptError::Line {
                number: 10,
                line: 1,
            });
        }
        Ok(Script {
            replicas: self.ledger.clocks.len() as u32,
            packets: self.ledger.packets.len() as u32,
            lines: Items::from_vec(self.lines),
        })
    }

    /// Takes in the line of this number.
    fn take(
        &mut self,
        alloc: Global,
        sig: &Signature,
        number: u64,
        line: &[Token],
    ) -> Result<(), ScriptError>
        requires { HasFewCalls sig.now }
        ensures takes { IfOk result (λ _. Takes sig.now number line.now self.old self.new) }
        ensures refuses { IfErr result (λ error. Refuses sig.now number line.now self.old error) }
    {
        if line.is_empty() {
            return Ok(());
        }
        match said_of(alloc, line, &mut self.marks, &mut self.spare)? {
            None => Err(ScriptError::Line {
                number: 10,
                line: number,
            }),
            Some(said) => {
                let packet = self.ledger.packet_in(&said);
                let call = call_in(sig, &said);
                match self.ledger.first_broken(sig, &said, packet, call) {
                    Some(rule) => Err(refusal(&self.ledger, number, &said, rule)),
                    None => self.keep(alloc, sig, said, packet, call),
                }
            }
        }
    }

    /// Takes in a line that keeps the rules, and names the packet and calls the operation or query of these
    /// numbers.
    fn keep(
        &mut self,
        alloc: Global,
        sig: &Signature,
        said: Said,
        packet: usize,
        call: usize,
    ) -> Result<(), ScriptError>
        requires packet { packet ≡ packet_in (known_of self.old.ledger) said }
        requires small { packet < 2 ^ 32 }
        requires call { call ≡ call_in sig.now said }
        requires small_call { call < 2 ^ 32 }
        requires kept { Keeps sig.now (known_of self.old.ledger) said }
        ensures matches { OnOk result ((sig : Signature) (place : Place) → Matches self.old.ledger place
            → Matches self.new.ledger (behind sig place said)) }
        ensures lines { OnOk result (self.new.lines.items ≡ self.old.lines.items
            ++ option_to_list (line_of sig.now (known_of self.old.ledger) said)) }
        ensures memory { IfErr result (λ error. error ≡ ScriptError.Memory) }
    {
        let line = self.ledger.line_of(alloc, sig, &said, packet, call)?;
        push_line(&mut self.lines, line)?;
        advance(alloc, &mut self.ledger, &said, packet)?;
        said.give_back(&mut self.spare);
        Ok(())
    }
}

/// Appends the line, if there is one.
fn push_line(lines: &mut Vec<Line>, line: Option<Line>) -> Result<(), AllocError>
    ensures { OnOk result (lines.new.items ≡ lines.old.items ++ option_to_list line) }
{
    match line {
        Some(line) => {
            lines.push(line)?;
            Ok(())
        }
        None => Ok(()),
    }
}

/// The refusal of a line by a rule that it breaks.
pub fn refusal(ledger: &Ledger, number: u64, said: &Said, rule: Rule) -> ScriptError
    ensures { result ≡ refusal_of number (known_of ledger.now) said.now rule }
{
    match rule {
        Rule::Syntax => ScriptError::Line {
            number: 10,
            line: number,
        },
        Rule::NoReplica => ScriptError::Line {
            number: 11,
            line: number,
        },
        Rule::NoPacket => ScriptError::Line {
            number: 12,
            line: number,
        },
        Rule::Late => ScriptError::Late {
            line: number,
            clock: clock_at(ledger, said),
        },
        Rule::BadCall => ScriptError::Line {
            number: 14,
            line: number,
        },
        Rule::TooLarge => ScriptError::Line {
            number: 15,
            line: number,
        },
    }
}

/// The clock of the replica that does an operation, and 0 for another line.
fn clock_at(ledger: &Ledger, said: &Said) -> u64
    ensures { refusal_of 0 (known_of ledger.now) said.now Rule.Late ≡ ScriptError.Late 0 result }
{
    match said {
        Said::Does { replica, .. } => ledger.clock_of(*replica),
        _ => 0,
    }
}

/// What the tokens of a line say, or nothing if they are none of the grammar. The marks and the arguments are in the memory of the buffers,
/// and the marks are those of the line.
pub fn said_of(
    alloc: Global,
    line: &[Token],
    marks: &mut Vec<Mark>,
    spare: &mut Vec<Constant>,
) -> Result<Option<Said>, AllocError>
    ensures said { IfOk result (IsTheOne (Says line.now)) }
    ensures marks { OnOk result (marks.new.items ≡ marks_of line.now) }
{
    fill_marks(line, marks)?;
    let said = said_by(alloc, spare, marks)?;
    if some_touch(line) { Ok(None) } else { Ok(said) }
}
