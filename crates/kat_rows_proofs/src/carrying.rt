//! Rows of points that are carried over from one condition to others.
use crate::readings::of_type;
use kat_candidate::candidates;
use kat_design::Design;
use kat_form::Encoded;
use kat_point::carried;
use kat_relation::Relation;
use kat_sat::{Decision, Point, decide, is_walkable};
use kat_table::{Answers, Row, RowError, Table, number_of, push_number, str_of};
use kat_type::SeqType;
use kat_vc::condition;
use std::alloc::{AllocError, Global};

/// The leaves of a walk.
const EFFORT: u32 = 2000;

/// All candidates of a design, as its relation, and an operation.
#[derive(Clone, Copy)]
struct Step<'a> {
    ty: &'a SeqType,
    design: &'a Design,
    relation: &'a Relation,
    op: u32,
}

impl<'a> Step<'a> {
    /// How many candidates there are.
    fn count(&self) -> u32 {
        (self.relation.conjuncts.as_slice().len() % (1 << 28)) as u32
    }

    /// The condition that the operation keeps a candidate.
    fn condition(&self, alloc: Global, candidate: u32) -> Result<Encoded, AllocError> {
        let number = self
            .count()
            .saturating_mul(self.op.saturating_add(1))
            .saturating_add(candidate)
            .saturating_add(1);
        condition(alloc, self.ty, self.design, self.relation, number)
    }
}

/// The numbers of the candidates that an operation doesn't keep at a point either: that at which it doesn't keep one of them,
/// carried over.
pub(crate) fn carried_answers(
    alloc: Global,
    ty: &SeqType,
    design: &Design,
    table: &Table,
    row: &Row,
) -> Result<Answers, RowError> {
    let op = number_of(str_of(table, row, "op")?)?;
    let candidate = number_of(str_of(table, row, "candidate")?)?;
    of_type(ty, design)?;
    let text = carried_all(alloc, ty, design, op, candidate)?;
    let inputs = "type design op candidate";
    Ok(Answers::one(alloc, inputs, text)?)
}

/// The same, with all candidates as the relation.
fn carried_all(
    alloc: Global,
    ty: &SeqType,
    design: &Design,
    op: u32,
    candidate: u32,
) -> Result<Vec<u8>, RowError> {
    let relation = candidates(alloc, ty, design)?;
    let step = Step {
        ty,
        design,
        relation: &relation,
        op,
    };
    carried_text(alloc, &step, candidate)
}

/// The numbers of the other candidates to whose conditions the point of one is carried over, each with a blank after it.
fn carried_text(alloc: Global, step: &Step<'_>, candidate: u32) -> Result<Vec<u8>, RowError> {
    let from = step.condition(alloc, candidate)?;
    let point = point_of(alloc, &from)?;
    Ok(others_text(alloc, step, candidate, &from, &point)?)
}

/// The numbers of the other candidates to whose conditions a point is carried over.
fn others_text(
    alloc: Global,
    step: &Step<'_>,
    candidate: u32,
    from: &Encoded,
    point: &Point,
) -> Result<Vec<u8>, AllocError> {
    let mut text = Vec::new(alloc);
    for other in 0..step.count() {
        if other != candidate && is_carried(alloc, step, from, point, other)? {
            push_number(&mut text, "", other)?;
            text.push(b' ')?;
        }
    }
    Ok(text)
}

/// The point at which a condition fails.
fn point_of(alloc: Global, encoded: &Encoded) -> Result<Point, RowError> {
    if !is_walkable(encoded) {
        return Err(RowError::Damaged("a condition can't be decided"));
    }
    match decide(alloc, encoded, EFFORT)? {
        Decision::Point(point) => Ok(point),
        _ => Err(RowError::Damaged("the condition fails at no point")),
    }
}

/// Whether a point of one condition is carried over to that of another candidate.
fn is_carried(
    alloc: Global,
    step: &Step<'_>,
    from: &Encoded,
    point: &Point,
    other: u32,
) -> Result<bool, AllocError> {
    let to = step.condition(alloc, other)?;
    Ok(carried(alloc, from, point, &to)?.is_some())
}
