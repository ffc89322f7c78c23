//! What a script's own lines call, for a script without a type.
ghost use Rattle.std.specs.Prelude.{◌≡◌, ◌≤◌, IfOk, OnOk, length};
ghost use Rattle.kat_picture.specs.Naming.{AreWordsOf, Notes, is_wanted, noted, with_word};
ghost use Rattle.kat_script.specs.Rules.{HasFewCalls};
ghost use Rattle.kat_script.specs.declared.rules.TheConstants.{CALL_LIMIT};

use kat_lex::{LexError, Token, line_tokens};
use kat_num::{Items, Sort};
use kat_script::{CALL_LIMIT, Constant, Mark, PACKET_LIMIT, Said, fit, said_of};
use kat_type::{OpSig, QuerySig, Signature};
use std::alloc::{AllocError, Global};

/// What the lines of a text call: each operation and query, in the order of their first calls, at most twelve of each, and
/// the words of the packets in the order in which they were first shipped, at most as many as a script may have.
pub struct Names {
    pub sig: Signature,
    pub words: Items<u128>,
}

impl Drop for Names {
    fn drop(self) {
        let Self { sig: _, words: _ } = self;
    }
}

/// What was found so far.
#[derive(Drop)]
struct Found {
    ops: Vec<OpSig>,
    queries: Vec<QuerySig>,
    words: Vec<u128>,
}

/// The names that a text uses. Lines that say nothing are passed over, and a byte that begins nothing ends the text: whether the
/// text is a script is for its reader to say.
pub fn names_in(alloc: Global, bytes: &[u8]) -> Result<Names, AllocError>
    ensures few { IfOk result (λ names. HasFewCalls names.sig) }
    ensures words { IfOk result (λ names. AreWordsOf bytes.now names.words) }
{
    let mut found = Found {
        ops: Vec::new(alloc),
        queries: Vec::new(alloc),
        words: Vec::new(alloc),
    };
    let mut line = Vec::new(alloc);
    let mut marks = Vec::new(alloc);
    let mut spare = Vec::new(alloc);
    let mut at = 0;
    'lines: loop {
        line.clear();
        match line_tokens(alloc, bytes, at, &mut line) {
            Ok(Some(next)) => {
                found.note_line(alloc, &line, &mut marks, &mut spare)?;
                at = next;
            }
            Ok(None) => {
                found.note_line(alloc, &line, &mut marks, &mut spare)?;
                return Ok(found.names());
            }
            Err(fault) => return found.names_before(fault),
        }
    }
}

impl Found {
    fn names(self) -> Names
        requires ops { length self.ops.items ≤ CALL_LIMIT }
        requires queries { length self.queries.items ≤ CALL_LIMIT }
        ensures few { HasFewCalls result.sig }
        ensures words { result.words ≡ self.words.items }
    {
        Names {
            sig: Signature {
                ops: Items::from_vec(self.ops),
                queries: Items::from_vec(self.queries),
            },
            words: Items::from_vec(self.words),
        }
    }

    /// The names before a fault of tokens: a text that has one is no script, and its reader says so.
    fn names_before(self, fault: LexError) -> Result<Names, AllocError>
        requires ops { length self.ops.items ≤ CALL_LIMIT }
        requires queries { length self.queries.items ≤ CALL_LIMIT }
        ensures few { IfOk result (λ names. HasFewCalls names.sig) }
        ensures fault { OnOk result (fault ≡ LexError.Memory → ⊥) }
    {
        match fault {
            LexError::Memory => Err(AllocError),
            LexError::BadByte(_) | LexError::LongName(_) | LexError::LongNumber(_) => {
                Ok(self.names())
            }
        }
    }

    /// Notes what a line of these tokens calls, if that is new. The marks and the arguments are in the memory of the buffers.
    fn note_line(
        &mut self,
        alloc: Global,
        line: &[Token],
        marks: &mut Vec<Mark>,
        spare: &mut Vec<Constant>,
    ) -> Result<(), AllocError>
        requires ops { length self.old.ops.items ≤ CALL_LIMIT }
        requires queries { length self.old.queries.items ≤ CALL_LIMIT }
        ensures ops { length self.new.ops.items ≤ CALL_LIMIT }
        ensures queries { length self.new.queries.items ≤ CALL_LIMIT }
        ensures words { OnOk result (Notes line.now self.old.words.items self.new.words.items) }
    {
        match said_of(alloc, line, marks, spare)? {
            Some(said) => self.note(alloc, &said),
            None => Ok(()),
        }
    }

    /// Notes what a line calls, if that is new.
    fn note(&mut self, alloc: Global, said: &Said) -> Result<(), AllocError>
        requires ops { length self.old.ops.items ≤ CALL_LIMIT }
        requires queries { length self.old.queries.items ≤ CALL_LIMIT }
        ensures ops { length self.new.ops.items ≤ CALL_LIMIT }
        ensures queries { length self.new.queries.items ≤ CALL_LIMIT }
        ensures words { OnOk result (self.new.words.items ≡ noted self.old.words.items said.now) }
    {
        match said {
            Said::Does { op, args, .. } => note_op(alloc, &mut self.ops, *op, args.as_slice()),
            Said::Asks { query, args, .. } => {
                note_query(alloc, &mut self.queries, *query, args.as_slice())
            }
            Said::Ships { packet, .. } => note_word(&mut self.words, *packet),
            Said::Replicas(_) | Said::Delivers { .. } | Said::Shows { .. } => Ok(()),
        }
    }
}

fn note_op(
    alloc: Global,
    ops: &mut Vec<OpSig>,
    name: u128,
    args: &[Constant],
) -> Result<(), AllocError>
    requires { length ops.old.items ≤ CALL_LIMIT }
    ensures { length ops.new.items ≤ CALL_LIMIT }
{
    if ops.len() >= CALL_LIMIT || has_op(ops, name, args) {
        return Ok(());
    }
    let sorts = sorts_of(alloc, args)?;
    ops.push(OpSig { name, sorts })?;
    Ok(())
}

fn note_query(
    alloc: Global,
    queries: &mut Vec<QuerySig>,
    name: u128,
    args: &[Constant],
) -> Result<(), AllocError>
    requires { length queries.old.items ≤ CALL_LIMIT }
    ensures { length queries.new.items ≤ CALL_LIMIT }
{
    if queries.len() >= CALL_LIMIT || has_query(queries, name, args) {
        return Ok(());
    }
    let sorts = sorts_of(alloc, args)?;
    queries.push(QuerySig {
        name,
        sorts,
        sort: Sort::Int,
    })?;
    Ok(())
}

// A text may name any number of words before its reader refuses one, and each is looked for among those that are kept: so no more
// are kept than a script may have.
fn note_word(words: &mut Vec<u128>, word: u128) -> Result<(), AllocError>
    ensures { OnOk result (words.new.items ≡ with_word words.old.items word) }
{
    if is_wanted(words, word) {
        words.push(word)?;
        return Ok(());
    }
    Ok(())
}

/// Whether a word is new, and there is room for it.
fn is_wanted(words: &[u128], word: u128) -> bool
    ensures { result ≡ is_wanted words.now word }
{
    words.len() < PACKET_LIMIT && !words.contains(&word)
}

fn has_op(ops: &[OpSig], name: u128, args: &[Constant]) -> bool {
    for op in ops {
        if op.name == name && fit(args, op.sorts.as_slice()) {
            return true;
        }
    }
    false
}

fn has_query(queries: &[QuerySig], name: u128, args: &[Constant]) -> bool {
    for query in queries {
        if query.name == name && fit(args, query.sorts.as_slice()) {
            return true;
        }
    }
    false
}

/// The sorts of arguments, of which a number is taken as an `int`.
fn sorts_of(alloc: Global, args: &[Constant]) -> Result<Items<Sort>, AllocError> {
    let mut sorts = Vec::new(alloc);
    for arg in args {
        sorts.push(match arg {
            Constant::Natural(_) | Constant::Negated(_) => Sort::Int,
            Constant::Named(_) => Sort::Name,
            Constant::Truth(_) => Sort::Bool,
        })?;
    }
    Ok(Items::from_vec(sorts))
}
