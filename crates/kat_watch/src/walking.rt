//! Walks over the lists of literals that have become false.
ghost use Rattle.std.specs.Prelude.{◌≡◌, ◌≢◌, ℕ, ◌+◌, ◌-◌, ◌*◌, ◌/◌, ◌%◌, ◌<◌, ◌≤◌, ◌^◌, ℤ, pos, neg_ℤ, List, length, Option, MatchOption, slice_index_or, unsigned_abs};
ghost use Rattle.std.specs.List.{Contains};
ghost use Rattle.kat_clause.specs.Clauses.{lists};
ghost use Rattle.kat_clause.specs.Literals.{code_of};
ghost use Rattle.kat_clause.specs.Tables.{IsMarked, IsBelow, clause_at};
ghost use Rattle.kat_links.specs.Lists.{IsListed};
ghost use Rattle.kat_watch.specs.States.{Looks, LooksAt, IsCore, Holds, Walks, WalksAll, PassesOne, PassesAll, IsState};

use crate::assignment::Assignment;
use crate::literals::{opposite, opposite_code};
use kat_clause::code;
use kat_links::Links;

/// What is found of an item in the list of a literal that is false: the clause's other watched literal is true; a literal that
/// is not false must be watched in this one's place; the other watched literal is the last open one; or the clause is falsified.
pub(crate) enum Look {
    Done,
    Moves(i32),
    Forced(i32),
    Falsified,
}

/// The literal of this code.
fn literal_at(code: u32) -> i32
    requires above { 2 ≤ code }
    requires below { code < 2 ^ 30 }
    ensures { code_of result ≡ code }
{
    let variable = (code / 2) as i32;
    if code % 2 == 0 { variable } else { -variable }
}

/// A literal of the clause that is not false, and is not the one of this code.
fn free_literal(clause: &[i32], marks: &[bool], other: u32) -> Option<i32>
    requires { (k : ℤ) → Contains clause.now k → IsBelow (length marks.now) k }
    ensures { MatchOption result
        ((k : ℤ) → Contains clause.now k → code_of k ≢ other → IsMarked marks.now (code_of (neg_ℤ k)))
        (λ k. Contains clause.now k × (code_of k ≢ other) × (IsMarked marks.now (code_of (neg_ℤ k)) → ⊥)) }
{
    for literal in clause {
        if code(*literal) != other as usize && !marks[opposite_code(*literal)] {
            return Some(*literal);
        }
    }
    None
}

/// What is found of a clause whose other watched literal has this code, and is not true.
fn look_at(clause: &[i32], marks: &[bool], other: u32) -> Look
    requires clause { (k : ℤ) → Contains clause.now k → IsBelow (length marks.now) k }
    requires above { 2 ≤ other }
    requires below { other < 2 ^ 30 }
    requires marks { (k : ℤ) → code_of k ≡ other → IsBelow (length marks.now) k }
    ensures { LooksAt clause.now marks.now other result }
{
    if let Some(literal) = free_literal(clause, marks, other) {
        return Look::Moves(literal);
    }
    let literal = literal_at(other);
    if marks[opposite_code(literal)] {
        return Look::Falsified;
    }
    Look::Forced(literal)
}

/// What is found of an item in the list of a literal that is false.
fn look_up(clauses: &[Vec<i32>], links: &Links, set: &Assignment, item: u32) -> Look
    requires core { IsCore (lists clauses.now) links.now set.now }
    requires listed { IsListed links.now item }
    ensures { Looks (clause_at (lists clauses.now) (item / 2)) links.now.lists set.now.trail.items item result }
{
    links.tells_arranged();
    let Some(other) = links.list_of(item + 1 - 2 * (item % 2)) else {
        return Look::Done;
    };
    if set.marks[other as usize] {
        return Look::Done;
    }
    look_at(&clauses[(item / 2) as usize], &set.marks, other)
}

/// Walks over the list of a literal that is false; the number of a clause that is falsified.
fn walk(
    clauses: &[Vec<i32>],
    links: &mut Links,
    set: &mut Assignment,
    falsified: i32,
) -> Option<u32>
    requires core { IsCore (lists clauses.now) links.old set.old }
    requires falsified { Contains set.old.trail.items (neg_ℤ falsified) }
    ensures { Walks (lists clauses.now) links.new set.old set.new falsified result }
{
    let mut next = links.first(code(falsified) as u32);
    'items: while let Some(item) = next {
        links.tells_arranged();
        next = links.next(item);
        match look_up(clauses, links, set, item) {
            Look::Done => {}
            Look::Moves(literal) => links.move_to_front(code(literal) as u32, item),
            Look::Forced(literal) => set.enter(literal, Some(item / 2)),
            Look::Falsified => return Some(item / 2),
        }
    }
    None
}

/// Walks over the lists of all literals that have become false; the number of a clause that is falsified.
pub(crate) fn walk_all(clauses: &[Vec<i32>], links: &mut Links, set: &mut Assignment) -> Option<u32>
    requires { IsCore (lists clauses.now) links.old set.old }
    ensures { WalksAll (lists clauses.now) links.new set.old set.new result }
{
    'trail: while set.looked < set.trail.len() {
        let falsified = opposite(set.trail[set.looked]);
        let conflict = walk(clauses, links, set, falsified);
        if conflict.is_some() {
            return conflict;
        }
        set.reach[set.looked] = set.trail.len();
        set.looked += 1;
    }
    None
}

/// The clause's first literal.
fn first_of(clause: &[i32]) -> Option<i32>
    ensures { MatchOption result (length clause.now ≡ 0) (λ k. Contains clause.now k) }
{
    match clause {
        [] => None,
        [literal, ..] => Some(*literal),
    }
}

/// Looks at a clause of fewer than two literals, and answers whether it is falsified.
fn pass_short(clauses: &[Vec<i32>], links: &Links, set: &mut Assignment, number: u32) -> bool
    requires core { IsCore (lists clauses.now) links.now set.old }
    requires number { number < length (lists clauses.now) }
    requires short { length (clause_at (lists clauses.now) number) < 2 }
    ensures { PassesOne (lists clauses.now) links.now set.old set.new number result }
{
    let _links = links;
    let Some(literal) = first_of(&clauses[number as usize]) else {
        return true;
    };
    if set.marks[code(literal)] {
        return false;
    }
    if set.marks[opposite_code(literal)] {
        return true;
    }
    set.enter(literal, Some(number));
    false
}

/// Looks at the clauses of fewer than two literals that have not been looked at; the number of one that is falsified.
pub(crate) fn pass_shorts(
    clauses: &[Vec<i32>],
    shorts: &[u32],
    links: &Links,
    set: &mut Assignment,
) -> Option<u32>
    requires { IsState (lists clauses.now) shorts.now links.now set.old }
    ensures { PassesAll (lists clauses.now) shorts.now links.now set.old set.new result }
{
    'shorts: while set.seen < shorts.len() {
        let number = shorts[set.seen];
        if pass_short(clauses, links, set, number) {
            return Some(number);
        }
        set.seen += 1;
        set.base = set.trail.len();
    }
    None
}
