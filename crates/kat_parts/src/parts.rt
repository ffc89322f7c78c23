//! Splitting a type into parts that don't touch.

use kat_expr::Expr;
use kat_reading::{number_of, reads};
use kat_type::{Assign, Operation, SeqType};
use std::alloc::{AllocError, Global};

/// A part of a type: the numbers of its fields, of the operations that assign them, and of the queries that read them, each in
/// ascending order.
pub struct Part {
    pub fields: Vec<u32>,
    pub ops: Vec<u32>,
    pub queries: Vec<u32>,
}

impl Drop for Part {
    fn drop(self) {
        let Self {
            fields: _,
            ops: _,
            queries: _,
        } = self;
    }
}

/// The parts of a type: fields that a right side or a query reads together go together, and so does a field with those that its
/// right sides read. A field that no operation changes goes with the first one that some operation does, and so does a query that
/// reads no field. Parts of which nothing is asked are left out.
pub fn parts_of(alloc: Global, ty: &SeqType) -> Result<Vec<Part>, AllocError> {
    let labels = labels_of(alloc, ty)?;
    let mut parts = Vec::new(alloc);
    for label in 0..count_of(ty) {
        let part = part_with(alloc, ty, &labels, label)?;
        if !part.queries.is_empty() {
            parts.push(part)?;
        }
    }
    Ok(parts)
}

/// How many fields there are.
fn count_of(ty: &SeqType) -> u32 {
    u32::try_from(ty.fields.as_slice().len()).unwrap_or(u32::MAX)
}

/// The label of each field: the number of the first field of its part.
fn labels_of(alloc: Global, ty: &SeqType) -> Result<Vec<u32>, AllocError> {
    let mut labels = Vec::new(alloc);
    for number in 0..count_of(ty) {
        labels.push(number)?;
    }
    join_assigned(&mut labels, ty.ops.as_slice());
    join_asked(&mut labels, ty);
    join_unchanged(&mut labels, ty);
    Ok(labels)
}

/// Joins the fields that operations assign with those that their right sides read.
fn join_assigned(labels: &mut Vec<u32>, ops: &[Operation]) {
    for op in ops {
        for assign in op.assigns.as_slice() {
            join_sides(labels, assign);
        }
    }
}

/// Joins the fields that a query reads.
fn join_asked(labels: &mut Vec<u32>, ty: &SeqType) {
    for query in ty.queries.as_slice() {
        if let Some(first) = first_read(ty, &query.right) {
            join_read(labels, first, &query.right);
        }
    }
}

/// Joins the fields that no operation changes with the first one that some operation does.
fn join_unchanged(labels: &mut Vec<u32>, ty: &SeqType) {
    if let Some(home) = first_changed(ty) {
        for number in 0..count_of(ty) {
            if !ty.ops.as_slice().iter().any(|op| assigns(op, number)) {
                join(labels, home, number);
            }
        }
    }
}

/// Joins a field with those that its right side reads.
fn join_sides(labels: &mut Vec<u32>, assign: &Assign) {
    match assign {
        Assign::Plain { field, right } => join_read(labels, *field, right),
        Assign::Keyed { field, right, .. } => join_read(labels, *field, right),
        Assign::Clear { .. } => {}
    }
}

/// Joins a field with those that an expression reads.
fn join_read(labels: &mut Vec<u32>, field: u32, expr: &Expr) {
    for number in 0..labels.len() {
        let number = u32::try_from(number).unwrap_or(u32::MAX);
        if reads(expr, number) {
            join(labels, field, number);
        }
    }
}

/// Gives the fields of two parts the lesser of their labels.
fn join(labels: &mut Vec<u32>, one: u32, other: u32) {
    if let (Some(one), Some(other)) = (label_at(labels, one), label_at(labels, other)) {
        let least = one.min(other);
        for label in labels.iter_mut() {
            if *label == one || *label == other {
                *label = least;
            }
        }
    }
}

/// The label of a field.
fn label_at(labels: &[u32], field: u32) -> Option<u32> {
    match labels.get(field as usize) {
        Some(label) => Some(*label),
        None => None,
    }
}

/// The first field that an expression reads.
fn first_read(ty: &SeqType, expr: &Expr) -> Option<u32> {
    (0..count_of(ty)).find(|number| reads(expr, *number))
}

/// The first field that some operation changes.
fn first_changed(ty: &SeqType) -> Option<u32> {
    (0..count_of(ty)).find(|number| ty.ops.as_slice().iter().any(|op| assigns(op, *number)))
}

/// Whether an operation assigns or clears a field.
fn assigns(op: &Operation, number: u32) -> bool {
    op.assigns
        .as_slice()
        .iter()
        .any(|assign| assigned_field(assign) == number)
}

/// The field that is assigned or cleared.
pub(crate) fn assigned_field(assign: &Assign) -> u32 {
    match assign {
        Assign::Plain { field, .. } | Assign::Keyed { field, .. } | Assign::Clear { field } => {
            *field
        }
    }
}

/// The part of a label. Queries that read no field belong to that of the first field that changes.
fn part_with(alloc: Global, ty: &SeqType, labels: &[u32], label: u32) -> Result<Part, AllocError> {
    let fields = fields_with(alloc, labels, label)?;
    let ops = ops_on(alloc, ty, &fields)?;
    let queries = queries_with(alloc, ty, labels, label)?;
    Ok(Part {
        fields,
        ops,
        queries,
    })
}

/// The numbers of the fields of a label.
fn fields_with(alloc: Global, labels: &[u32], label: u32) -> Result<Vec<u32>, AllocError> {
    let mut fields = Vec::new(alloc);
    for (number, own) in labels.iter().enumerate() {
        if *own == label {
            fields.push(number_of(number))?;
        }
    }
    Ok(fields)
}

/// The numbers of the operations that assign one of these fields.
fn ops_on(alloc: Global, ty: &SeqType, fields: &[u32]) -> Result<Vec<u32>, AllocError> {
    let mut ops = Vec::new(alloc);
    for (number, op) in ty.ops.as_slice().iter().enumerate() {
        if fields.iter().any(|field| assigns(op, *field)) {
            ops.push(number_of(number))?;
        }
    }
    Ok(ops)
}

/// The numbers of the queries of a label.
fn queries_with(
    alloc: Global,
    ty: &SeqType,
    labels: &[u32],
    label: u32,
) -> Result<Vec<u32>, AllocError> {
    let home = match first_changed(ty) {
        Some(first) => label_at(labels, first),
        None => None,
    };
    let mut queries = Vec::new(alloc);
    for (number, query) in ty.queries.as_slice().iter().enumerate() {
        let own = match first_read(ty, &query.right) {
            Some(field) => label_at(labels, field),
            None => home,
        };
        if own == Some(label) {
            queries.push(number_of(number))?;
        }
    }
    Ok(queries)
}
