//! A search that learns a clause from each conflict. Nothing of it has to be right: what it finds is tried before it is answered.
ghost use Rattle.std.specs.Prelude.{◌≤◌, ◌^◌, IfOk, vec_len};
ghost use Rattle.kat_form.specs.Encodings.{encoding};
ghost use Rattle.kat_cases.specs.Settings.{setting_of, IsWalkable};
ghost use Rattle.kat_cases.specs.Stacks.{Recalls};

use crate::analysis::{Places, first_point};
use crate::decision::Ending;
use crate::engine::Engine;
use crate::judging::{Judged, Kept, judge_open, split};
use kat_form::{Encoded, Meaning};
use kat_linear::Row;
use kat_potential::Values;
use kat_refute::ProofLine;
use kat_resolution::{has, is_known, variable_at};
use kat_watch::Propagation;
use std::alloc::{AllocError, Global};
use std::mem;

/// What a search finds: lines that end with the empty clause, or literals that make all clauses true, of each variable one, and
/// whose rows have a solution.
#[derive(Drop)]
pub enum Found {
    Lines(Vec<ProofLine>),
    Literals(Vec<i32>),
}

// Where decisions lead: a clause is falsified, the rows contradict each other, each variable is assigned, or elimination gives up.
#[derive(Drop)]
enum Node {
    Falsified(u32),
    Contradicted(ProofLine),
    Whole,
    GivesUp,
}

// What comes after a conflict.
#[derive(Clone, Copy)]
enum Next {
    GoesOn,
    Refuted,
    GivesUp,
}

// How a search ends: each variable is assigned and the rows have a solution, its lines end with the empty clause, or neither.
#[derive(Clone, Copy)]
enum End {
    Whole,
    Refuted,
    GivesUp,
}

// What is decided next: the literal on which a walk would split the node, or the first open variable of the queue, as false.
#[derive(Clone, Copy)]
enum Order {
    Splits,
    Queue,
}

#[derive(Drop)]
struct Search {
    engine: Engine,
    values: Values,
    lines: Vec<ProofLine>,
    // how many lines there may be
    most: u32,
    order: Order,
}

/// Searches for at most so many lines that refute the condition, or for literals that make its clauses and rows true: first
/// deciding as a walk splits, and if that finds nothing once more, with as many lines, by the queue. None if the lines are used
/// up, if elimination gives up, or if a clause of the condition has a literal of no variable, both times. Nothing is promised of
/// what is found: whoever takes it tries it first.
pub fn learn(alloc: Global, encoded: &Encoded, most: u32) -> Result<Option<Found>, AllocError>
    requires walkable { IsWalkable encoded.now.numbers (encoding encoded.now) }
    requires variables { vec_len encoded.now.meanings ≤ 2 ^ 28 }
{
    let mut first = Search::new(alloc, encoded, most, Order::Splits)?;
    if let Some(found) = first.find(alloc, encoded)? {
        return Ok(Some(found));
    }
    let mut second = Search::new(alloc, encoded, most, Order::Queue)?;
    second.find(alloc, encoded)
}

impl Search {
    // A search over the condition's variables, with no clauses yet.
    fn new(alloc: Global, encoded: &Encoded, most: u32, order: Order) -> Result<Search, AllocError>
        requires variables { vec_len encoded.now.meanings ≤ 2 ^ 28 }
    {
        Ok(Search {
            engine: Engine::new(alloc, encoded.meanings.len() as u32)?,
            values: Values::new(alloc, &encoded.meanings, encoded.numbers)?,
            lines: Vec::new(alloc),
            most,
            order,
        })
    }

    // Takes the condition's clauses, and searches. The lines are taken out of the search.
    fn find(&mut self, alloc: Global, encoded: &Encoded) -> Result<Option<Found>, AllocError>
        requires walkable { IsWalkable encoded.now.numbers (encoding encoded.now) }
        requires variables { vec_len encoded.now.meanings ≤ 2 ^ 28 }
    {
        if !self.take_clauses(alloc, &encoded.clauses)? {
            return Ok(None);
        }
        match self.run(alloc, encoded)? {
            End::Whole => {
                let literals = Vec::from_slice(alloc, self.engine.trail())?;
                Ok(Some(Found::Literals(literals)))
            }
            End::Refuted => {
                let lines = mem::replace(&mut self.lines, Vec::new(alloc));
                Ok(Some(Found::Lines(lines)))
            }
            End::GivesUp => Ok(None),
        }
    }

    // Takes clauses. False if one has a literal of no variable.
    fn take_clauses(&mut self, alloc: Global, clauses: &[Vec<i32>]) -> Result<bool, AllocError> {
        for clause in clauses {
            if !self.engine.add(alloc, clause)? {
                return Ok(false);
            }
        }
        Ok(true)
    }

    // Goes from one conflict to the next.
    fn run(&mut self, alloc: Global, encoded: &Encoded) -> Result<End, AllocError>
        requires walkable { IsWalkable encoded.now.numbers (encoding encoded.now) }
        requires variables { vec_len encoded.now.meanings ≤ 2 ^ 28 }
    {
        let mut last = None;
        // each turn but the last records a line
        for _turn in 0..u64::from(self.most) + 1 {
            let node = self.descend(alloc, encoded, &mut last)?;
            if let Node::Whole = node {
                return Ok(End::Whole);
            }
            match self.learn_at(alloc, node)? {
                Next::GoesOn => {}
                Next::Refuted => return Ok(End::Refuted),
                Next::GivesUp => return Ok(End::GivesUp),
            }
        }
        Ok(End::GivesUp)
    }

    // Decides one variable after the other.
    fn descend(
        &mut self,
        alloc: Global,
        encoded: &Encoded,
        last: &mut Option<Kept>,
    ) -> Result<Node, AllocError>
        requires walkable { IsWalkable encoded.now.numbers (encoding encoded.now) }
        requires variables { vec_len encoded.now.meanings ≤ 2 ^ 28 }
        requires recalls { Recalls (setting_of encoded.now) last.old }
        ensures recalls { IfOk result (λ n. Recalls (setting_of encoded.now) last.new) }
    {
        // each turn but the last assigns a variable
        for _turn in 0..encoded.meanings.len() + 1 {
            if let Propagation::Conflict(number) = self.engine.propagate() {
                return Ok(Node::Falsified(number));
            }
            let next = match self.order {
                Order::Splits => split(self.engine.marks(), encoded),
                Order::Queue => self.engine.next(),
            };
            match self.judge(alloc, encoded, next, last)? {
                Judged::Leaf(Some(line)) => return Ok(Node::Contradicted(line)),
                Judged::Ends(Ending::Point(_)) => return Ok(Node::Whole),
                Judged::Splits(_) => {}
                _ => return Ok(Node::GivesUp),
            }
            let Some(literal) = next else {
                return Ok(Node::GivesUp);
            };
            if !self.engine.decide(literal)? {
                return Ok(Node::GivesUp);
            }
        }
        Ok(Node::GivesUp)
    }

    // Judges a node at which this literal is decided next: by elimination, unless values are found that meet the known rows, or the last
    // point that elimination gave still meets them.
    fn judge(
        &mut self,
        alloc: Global,
        encoded: &Encoded,
        next: Option<i32>,
        last: &mut Option<Kept>,
    ) -> Result<Judged, AllocError>
        requires walkable { IsWalkable encoded.now.numbers (encoding encoded.now) }
        requires variables { vec_len encoded.now.meanings ≤ 2 ^ 28 }
        requires recalls { Recalls (setting_of encoded.now) last.old }
        ensures recalls { IfOk result (λ j. Recalls (setting_of encoded.now) last.new) }
    {
        if let Some(literal) = next {
            if self.values.meet(self.engine.marks())? {
                return Ok(Judged::Splits(literal));
            }
            if is_met_by(encoded, self.engine.marks(), last) {
                return Ok(Judged::Splits(literal));
            }
        }
        judge_open(alloc, encoded, self.engine.marks(), last)
    }

    // Learns from a conflict.
    fn learn_at(&mut self, alloc: Global, node: Node) -> Result<Next, AllocError> {
        match node {
            Node::Falsified(number) => {
                let Some(clause) = self.engine.clause(number) else {
                    return Ok(Next::GivesUp);
                };
                let falsified = Vec::from_slice(alloc, clause)?;
                self.learn_from(alloc, &falsified)
            }
            Node::Contradicted(line) => self.learn_line(alloc, line),
            _ => Ok(Next::GivesUp),
        }
    }

    // Learns from a falsified clause.
    fn learn_from(&mut self, alloc: Global, falsified: &[i32]) -> Result<Next, AllocError> {
        let places = Places::new(alloc, &self.engine)?;
        let level = self.engine.level(places.last_before(falsified, usize::MAX));
        if level == 0 {
            let ended = self.record(alloc, ProofLine::Rup(Vec::new(alloc)))?;
            return Ok(if ended { Next::Refuted } else { Next::GivesUp });
        }
        let start = self.engine.start(level);
        let learned = first_point(alloc, &self.engine, &places, falsified, start)?;
        let line = ProofLine::Rup(Vec::from_slice(alloc, &learned)?);
        if !self.record(alloc, line)? {
            return Ok(Next::GivesUp);
        }
        self.turn(&places, &learned, start);
        Ok(Next::GoesOn)
    }

    // Learns from a contradiction of rows, whose line is learned if it has one literal of its last level.
    fn learn_line(&mut self, alloc: Global, line: ProofLine) -> Result<Next, AllocError> {
        let clause = Vec::from_slice(alloc, line.literals())?;
        if !self.record(alloc, line)? {
            return Ok(Next::GivesUp);
        }
        let places = Places::new(alloc, &self.engine)?;
        let level = self.engine.level(places.last_before(&clause, usize::MAX));
        let start = self.engine.start(level);
        if level == 0 || places.count_from(&clause, start) != 1 {
            return self.learn_from(alloc, &clause);
        }
        self.turn(&places, &clause, start);
        Ok(Next::GoesOn)
    }

    // Goes back to the second greatest level of a learned clause, whose greatest begins at a place of the trail. There propagation
    // assigns the opposite of the clause's one literal of the greatest.
    fn turn(&mut self, places: &Places, learned: &[i32], start: usize) {
        let level = self.engine.level(places.last_before(learned, start));
        self.engine.back(level);
        self.engine.prefer(learned);
    }

    // Records a line, whose clause is a clause from then on. False if the lines are used up.
    fn record(&mut self, alloc: Global, line: ProofLine) -> Result<bool, AllocError> {
        if self.lines.len() >= self.most as usize {
            return Ok(false);
        }
        if !self.engine.add(alloc, line.literals())? {
            return Ok(false);
        }
        self.lines.push(line)?;
        Ok(true)
    }
}

// Whether the point, if there is one, meets the rows of the known literals. Not if a number on the way is too great.
fn is_met_by(encoded: &Encoded, marks: &[bool], point: &Option<Kept>) -> bool
    requires { vec_len encoded.now.meanings ≤ 2 ^ 28 }
{
    let Some(point) = point else {
        return false;
    };
    for (place, meaning) in encoded.meanings.iter().enumerate() {
        let Meaning::Atom(row) = meaning else {
            continue;
        };
        if !is_known(marks, place) {
            continue;
        }
        let Some(sum) = sum_at(row, point) else {
            return false;
        };
        // (of a row and its negation one is met at whole numbers, at fractions perhaps neither)
        let is_met = if has(marks, variable_at(place)) {
            sum <= 0
        } else {
            point.den <= sum
        };
        if !is_met {
            return false;
        }
    }
    true
}

// The row's sum at the point, times the point's denominator. None if a number on the way is too great.
fn sum_at(row: &Row, point: &Kept) -> Option<i128> {
    let mut sum = row.constant.checked_mul(point.den)?;
    for (variable, coefficient) in &row.terms {
        let number = point.nums.get(*variable as usize)?;
        sum = sum.checked_add(coefficient.checked_mul(*number)?)?;
    }
    Some(sum)
}
