//! How an expression is read, one token at a time.
ghost use Rattle.std.specs.Prelude.{◌≡◌, ◌∷◌, List, IfOk, Some, None};
ghost use Rattle.kat_grammar.specs.Phrases.{form_of, left_level, level_of, level_of_operator, right_level};
ghost use Rattle.kat_grammar.specs.Phrases.Form.{negation, joined, chosen, branches, parens};
ghost use Rattle.kat_grammar.specs.Stacks.{Part as OpenPart, after_extreme, after_key, after_minus, after_operand, after_table, around, attach, begin_operand, close, depth, ended, go_else, go_second, go_then, is_leaf, is_node_read, load_read, open_entry, opens_node, place, read_on, wanted};
ghost use Rattle.kat_grammar.specs.Views.{Goes, IsBegun, IsEnded, MayGo, load_form, opens_level, part_of, reading_of, stack_of};

use crate::marks::{Extreme, Mark, Operator};
use crate::phrases::{Constant, Phrase, Word};
use std::alloc::{AllocError, Global};

/// What is open around an operand, up to it.
#[derive(Drop)]
pub(crate) enum Part {
    Left {
        operator: Operator,
        at: usize,
        left: Phrase,
    },
    Not {
        at: usize,
    },
    Parens {
        open_at: usize,
    },
    First {
        extreme: Extreme,
        at: usize,
        open_at: usize,
    },
    Second {
        extreme: Extreme,
        at: usize,
        open_at: usize,
        left: Phrase,
        comma: usize,
    },
    If {
        at: usize,
    },
    Then {
        at: usize,
        condition: Phrase,
        then_at: usize,
    },
    Else {
        at: usize,
        condition: Phrase,
        then_at: usize,
        left: Phrase,
        else_at: usize,
    },
}

/// What was read of an expression, beside what is open.
#[derive(Drop)]
pub(crate) enum Reading {
    Want,
    Minus {
        at: usize,
    },
    Extreme {
        extreme: Extreme,
        at: usize,
    },
    Table {
        table: Word,
        open_at: usize,
    },
    Key {
        table: Word,
        open_at: usize,
        key: Word,
    },
    Have(Phrase),
}

fn level_of_operator(operator: Operator) -> u8
    ensures { result ≡ level_of_operator operator }
{
    match operator {
        Operator::Or => 1,
        Operator::And => 2,
        Operator::Less | Operator::AtMost | Operator::Same => 4,
        Operator::Plus | Operator::Minus => 5,
    }
}

fn left_level(operator: Operator) -> u8
    ensures { result ≡ left_level operator }
{
    match operator {
        Operator::Or => 1,
        Operator::And => 2,
        _ => 5,
    }
}

fn right_level(operator: Operator) -> u8
    ensures { result ≡ right_level operator }
{
    match operator {
        Operator::Or => 2,
        Operator::And => 3,
        Operator::Less | Operator::AtMost | Operator::Same => 5,
        Operator::Plus | Operator::Minus => 6,
    }
}

fn level_of(phrase: &Phrase) -> u8
    ensures { result ≡ level_of (form_of phrase.now) }
{
    match phrase {
        Phrase::If { .. } => 0,
        Phrase::Binary { operator, .. } => level_of_operator(*operator),
        Phrase::Not { .. } => 3,
        _ => 6,
    }
}

/// How tightly the next operand has to bind.
#[tactic(auto, using(crate::proofs::Stacked::stacked))]
fn wanted(parts: &Vec<Part>) -> u8
    ensures { result ≡ wanted (stack_of parts.now.items) }
{
    match parts.last() {
        Some(Part::Left { operator, .. }) => right_level(*operator),
        Some(Part::Not { .. }) => 3,
        _ => 0,
    }
}

fn not(alloc: Global, at: usize, operand: Phrase) -> Result<Phrase, AllocError>
    ensures { IfOk result (λ whole. form_of whole ≡ negation at (form_of operand)) }
{
    Ok(Phrase::Not {
        at,
        operand: Box::new(alloc, operand)?,
    })
}

fn binary(
    alloc: Global,
    operator: Operator,
    at: usize,
    left: Phrase,
    right: Phrase,
) -> Result<Phrase, AllocError>
    ensures { IfOk result (λ whole. form_of whole ≡ joined operator at (form_of left) (form_of right)) }
{
    Ok(Phrase::Binary {
        operator,
        at,
        left: Box::new(alloc, left)?,
        right: Box::new(alloc, right)?,
    })
}

fn branches(
    alloc: Global,
    at: usize,
    condition: Phrase,
    then_at: usize,
    left: Phrase,
    else_at: usize,
    right: Phrase,
) -> Result<Phrase, AllocError>
    ensures { IfOk result (λ whole. form_of whole ≡ branches at (form_of condition) then_at (form_of left) else_at (form_of right)) }
{
    Ok(Phrase::If {
        at,
        condition: Box::new(alloc, condition)?,
        then_at,
        left: Box::new(alloc, left)?,
        else_at,
        right: Box::new(alloc, right)?,
    })
}

fn chosen(
    alloc: Global,
    extreme: Extreme,
    at: usize,
    open_at: usize,
    left: Phrase,
    comma: usize,
    right: Phrase,
    close_at: usize,
) -> Result<Phrase, AllocError>
    ensures { IfOk result (λ whole. form_of whole ≡ chosen extreme at open_at (form_of left) comma (form_of right) close_at) }
{
    Ok(Phrase::Extreme {
        extreme,
        at,
        open_at,
        left: Box::new(alloc, left)?,
        comma,
        right: Box::new(alloc, right)?,
        close_at,
    })
}

fn parens(
    alloc: Global,
    open_at: usize,
    inner: Phrase,
    close_at: usize,
) -> Result<Phrase, AllocError>
    ensures { IfOk result (λ whole. form_of whole ≡ parens open_at (form_of inner) close_at) }
{
    Ok(Phrase::Parens {
        open_at,
        inner: Box::new(alloc, inner)?,
        close_at,
    })
}

/// The operand ends, and so do all that end with it.
#[tactic(auto, using(crate::proofs::Stacked::stacked))]
pub(crate) fn ended(
    alloc: Global,
    phrase: Phrase,
    parts: &mut Vec<Part>,
) -> Result<Phrase, AllocError>
    ensures { IfOk result (λ whole. IsEnded (form_of phrase) (stack_of parts.old.items) (form_of whole) (stack_of parts.new.items)) }
{
    match parts.pop() {
        Some(Part::Left { operator, at, left }) => {
            let whole = binary(alloc, operator, at, left, phrase)?;
            ended(alloc, whole, parts)
        }
        Some(Part::Not { at }) => {
            let whole = not(alloc, at, phrase)?;
            ended(alloc, whole, parts)
        }
        Some(
            Part::Else {
                at,
                condition,
                then_at,
                left,
                else_at,
            },
        ) => {
            let whole = branches(alloc, at, condition, then_at, left, else_at, phrase)?;
            ended(alloc, whole, parts)
        }
        Some(part) => {
            parts.push(part)?;
            Ok(phrase)
        }
        None => Ok(phrase),
    }
}

/// No expression goes on so.
pub(crate) fn refused(_phrase: Phrase, _part: Option<Part>) -> Option<Reading>
    ensures { result ≡ None }
{
    None
}

/// An operator after an operand.
#[tactic(auto, using(crate::proofs::Stacked::stacked))]
fn place(
    operator: Operator,
    at: usize,
    phrase: Phrase,
    parts: &mut Vec<Part>,
) -> Result<Option<Reading>, AllocError>
    ensures { Goes (place operator at (form_of phrase) (stack_of parts.old.items)) result (stack_of parts.new.items) }
{
    if left_level(operator) > level_of(&phrase) {
        return Ok(refused(phrase, None));
    }
    parts.push(Part::Left {
        operator,
        at,
        left: phrase,
    })?;
    Ok(Some(Reading::Want))
}

/// An operator after an operand: it takes as much to its left as binds more tightly.
#[tactic(auto, using(crate::proofs::Stacked::stacked))]
fn attach(
    alloc: Global,
    operator: Operator,
    at: usize,
    phrase: Phrase,
    parts: &mut Vec<Part>,
) -> Result<Option<Reading>, AllocError>
    ensures { Goes (attach operator at (form_of phrase) (stack_of parts.old.items)) result (stack_of parts.new.items) }
{
    match parts.pop() {
        Some(
            Part::Left {
                operator: other,
                at: other_at,
                left,
            },
        ) => {
            if right_level(other) > level_of_operator(operator) {
                let whole = binary(alloc, other, other_at, left, phrase)?;
                return attach(alloc, operator, at, whole, parts);
            }
            parts.push(Part::Left {
                operator: other,
                at: other_at,
                left,
            })?;
            place(operator, at, phrase, parts)
        }
        Some(Part::Not { at: not_at }) => {
            if level_of_operator(operator) < 3 {
                let whole = not(alloc, not_at, phrase)?;
                return attach(alloc, operator, at, whole, parts);
            }
            parts.push(Part::Not { at: not_at })?;
            place(operator, at, phrase, parts)
        }
        Some(part) => {
            parts.push(part)?;
            place(operator, at, phrase, parts)
        }
        None => place(operator, at, phrase, parts),
    }
}

/// `)` after an operand that has ended.
#[tactic(auto, using(crate::proofs::Stacked::stacked))]
fn close(
    alloc: Global,
    phrase: Phrase,
    parts: &mut Vec<Part>,
    at: usize,
) -> Result<Option<Reading>, AllocError>
    ensures { Goes (close (form_of phrase) (stack_of parts.old.items) at) result (stack_of parts.new.items) }
{
    match parts.pop() {
        Some(Part::Parens { open_at }) => {
            Ok(Some(Reading::Have(parens(alloc, open_at, phrase, at)?)))
        }
        Some(
            Part::Second {
                extreme,
                at: extreme_at,
                open_at,
                left,
                comma,
            },
        ) => {
            let whole = chosen(alloc, extreme, extreme_at, open_at, left, comma, phrase, at)?;
            Ok(Some(Reading::Have(whole)))
        }
        other => Ok(refused(phrase, other)),
    }
}

/// A comma after an operand that has ended.
#[tactic(auto, using(crate::proofs::Stacked::stacked))]
fn go_second(
    phrase: Phrase,
    parts: &mut Vec<Part>,
    comma: usize,
) -> Result<Option<Reading>, AllocError>
    ensures { Goes (go_second (form_of phrase) (stack_of parts.old.items) comma) result (stack_of parts.new.items) }
{
    match parts.pop() {
        Some(
            Part::First {
                extreme,
                at,
                open_at,
            },
        ) => {
            parts.push(Part::Second {
                extreme,
                at,
                open_at,
                left: phrase,
                comma,
            })?;
            Ok(Some(Reading::Want))
        }
        other => Ok(refused(phrase, other)),
    }
}

/// `then` after an operand that has ended.
#[tactic(auto, using(crate::proofs::Stacked::stacked))]
fn go_then(
    phrase: Phrase,
    parts: &mut Vec<Part>,
    then_at: usize,
) -> Result<Option<Reading>, AllocError>
    ensures { Goes (go_then (form_of phrase) (stack_of parts.old.items) then_at) result (stack_of parts.new.items) }
{
    match parts.pop() {
        Some(Part::If { at }) => {
            parts.push(Part::Then {
                at,
                condition: phrase,
                then_at,
            })?;
            Ok(Some(Reading::Want))
        }
        other => Ok(refused(phrase, other)),
    }
}

/// `else` after an operand that has ended.
#[tactic(auto, using(crate::proofs::Stacked::stacked))]
fn go_else(
    phrase: Phrase,
    parts: &mut Vec<Part>,
    else_at: usize,
) -> Result<Option<Reading>, AllocError>
    ensures { Goes (go_else (form_of phrase) (stack_of parts.old.items) else_at) result (stack_of parts.new.items) }
{
    match parts.pop() {
        Some(
            Part::Then {
                at,
                condition,
                then_at,
            },
        ) => {
            parts.push(Part::Else {
                at,
                condition,
                then_at,
                left: phrase,
                else_at,
            })?;
            Ok(Some(Reading::Want))
        }
        other => Ok(refused(phrase, other)),
    }
}

/// `[` after an operand, which must be a word.
fn open_entry(phrase: Phrase, parts: &Vec<Part>, open_at: usize) -> Option<Reading>
    ensures { MayGo (open_entry (form_of phrase) (stack_of parts.now.items) open_at) result (stack_of parts.now.items) }
{
    let _parts = parts.len();
    match phrase {
        Phrase::Word(table) => Some(Reading::Table { table, open_at }),
        other => refused(other, None),
    }
}

/// A part is opened.
#[tactic(auto, using(crate::proofs::Stacked::stacked))]
fn opened(part: Part, parts: &mut Vec<Part>) -> Result<Option<Reading>, AllocError>
    ensures { IfOk result (λ found. (found ≡ Some Reading.Want) × (stack_of parts.new.items ≡ part_of part ∷ stack_of parts.old.items)) }
{
    parts.push(part)?;
    Ok(Some(Reading::Want))
}

fn constant(constant: Constant) -> Option<Reading>
    ensures { result ≡ Some (Reading.Have (Phrase.Constant constant)) }
{
    Some(Reading::Have(Phrase::Constant(constant)))
}

/// A token where an operand is expected.
fn begin_operand(
    parts: &mut Vec<Part>,
    mark: Mark,
    at: usize,
) -> Result<Option<Reading>, AllocError>
    ensures { Goes (begin_operand (stack_of parts.old.items) mark at) result (stack_of parts.new.items) }
{
    match mark {
        Mark::Number(number) => Ok(constant(Constant::Natural { at, number })),
        Mark::Literal(name) => Ok(constant(Constant::Literal { at, name })),
        Mark::Truth(truth) => Ok(constant(Constant::Truth { at, truth })),
        Mark::Word(code) => Ok(Some(Reading::Have(Phrase::Word(Word { at, code })))),
        Mark::Operator(Operator::Minus) => Ok(Some(Reading::Minus { at })),
        Mark::Extreme(extreme) => Ok(Some(Reading::Extreme { extreme, at })),
        Mark::If if wanted(parts) == 0 => opened(Part::If { at }, parts),
        Mark::Not if wanted(parts) <= 3 => opened(Part::Not { at }, parts),
        Mark::Open => opened(Part::Parens { open_at: at }, parts),
        _ => Ok(None),
    }
}

/// A token after an operand.
fn after_operand(
    alloc: Global,
    phrase: Phrase,
    parts: &mut Vec<Part>,
    mark: Mark,
    at: usize,
) -> Result<Option<Reading>, AllocError>
    ensures { Goes (after_operand (form_of phrase) (stack_of parts.old.items) mark at) result (stack_of parts.new.items) }
{
    match mark {
        Mark::Operator(operator) => attach(alloc, operator, at, phrase, parts),
        Mark::OpenBracket => Ok(open_entry(phrase, parts, at)),
        Mark::Close => {
            let whole = ended(alloc, phrase, parts)?;
            close(alloc, whole, parts, at)
        }
        Mark::Comma => {
            let whole = ended(alloc, phrase, parts)?;
            go_second(whole, parts, at)
        }
        Mark::Then => {
            let whole = ended(alloc, phrase, parts)?;
            go_then(whole, parts, at)
        }
        Mark::Else => {
            let whole = ended(alloc, phrase, parts)?;
            go_else(whole, parts, at)
        }
        _ => Ok(refused(phrase, None)),
    }
}

/// A token after a `-`, a `max` or `min`, a `[` or the word after that.
fn after_begun(reading: Reading, mark: Mark, at: usize) -> Option<Reading>
    ensures { (s : List OpenPart) → IsBegun (reading_of reading s) → MayGo (read_on (reading_of reading s) mark at) result s }
{
    match (reading, mark) {
        (Reading::Minus { at: minus }, Mark::Number(number)) => constant(Constant::Negative {
            at: minus,
            number_at: at,
            number,
        }),
        (Reading::Table { table, open_at }, Mark::Word(code)) => Some(Reading::Key {
            table,
            open_at,
            key: Word { at, code },
        }),
        (
            Reading::Key {
                table,
                open_at,
                key,
            },
            Mark::CloseBracket,
        ) => Some(Reading::Have(Phrase::Entry {
            table,
            open_at,
            key,
            close_at: at,
        })),
        _ => None,
    }
}

/// An expression reads on by a token, if one goes on so.
#[tactic(auto, using(crate::proofs::Stacked::stacked))]
pub(crate) fn read_on(
    alloc: Global,
    reading: Reading,
    parts: &mut Vec<Part>,
    mark: Mark,
    at: usize,
) -> Result<Option<Reading>, AllocError>
    ensures { Goes (read_on (reading_of reading (stack_of parts.old.items)) mark at) result (stack_of parts.new.items) }
{
    match reading {
        Reading::Want => begin_operand(parts, mark, at),
        Reading::Have(phrase) => after_operand(alloc, phrase, parts, mark, at),
        Reading::Extreme {
            extreme,
            at: extreme_at,
        } => match mark {
            Mark::Open => opened(
                Part::First {
                    extreme,
                    at: extreme_at,
                    open_at: at,
                },
                parts,
            ),
            _ => Ok(None),
        },
        begun => Ok(after_begun(begun, mark, at)),
    }
}

/// What a token adds: how many levels are open after it, and whether it is the own token of a node.
#[derive(Clone, Copy)]
pub(crate) struct Load {
    pub(crate) depth: usize,
    pub(crate) node: bool,
}

fn opens_level(part: &Part) -> bool
    ensures { result ≡ opens_level (part_of part.now) }
{
    !matches!(part, Part::Left { .. })
}

/// How many levels are open.
fn depth(parts: &Vec<Part>) -> usize
    ensures { result ≡ depth (stack_of parts.now.items) }
{
    let mut count = 0;
    'parts: for part in parts {
        if opens_level(part) {
            count += 1;
        }
    }
    count
}

/// Whether the token read last, after which an operand is expected, is the own token of a node.
#[tactic(auto, using(crate::proofs::Stacked::stacked))]
fn opens_node(parts: &Vec<Part>) -> bool
    ensures { result ≡ opens_node (stack_of parts.now.items) }
{
    match parts.last() {
        Some(Part::Left { .. }) => true,
        Some(Part::Not { .. }) => true,
        Some(Part::If { .. }) => true,
        _ => false,
    }
}

fn is_leaf(phrase: &Phrase) -> bool
    ensures { result ≡ is_leaf (form_of phrase.now) }
{
    match phrase {
        Phrase::Constant(Constant::Negative { .. }) => false,
        Phrase::Constant(_) => true,
        Phrase::Word(_) => true,
        _ => false,
    }
}

fn is_node_read(reading: &Reading, parts: &Vec<Part>) -> bool
    ensures { result ≡ is_node_read (reading_of reading.now (stack_of parts.now.items)) }
{
    match reading {
        Reading::Want => opens_node(parts),
        Reading::Minus { .. } => true,
        Reading::Extreme { .. } => true,
        Reading::Table { .. } => false,
        Reading::Key { .. } => false,
        Reading::Have(phrase) => is_leaf(phrase),
    }
}

/// What the token read last adds.
pub(crate) fn load_read(reading: &Reading, parts: &Vec<Part>) -> Load
    ensures { load_form result ≡ load_read (reading_of reading.now (stack_of parts.now.items)) }
{
    Load {
        depth: depth(parts),
        node: is_node_read(reading, parts),
    }
}
