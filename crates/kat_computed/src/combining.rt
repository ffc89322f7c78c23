//! Last writes of formulas: slots for the arguments, and truth values that say which formula is meant.

use kat_design::Leaf;
use kat_expr::Expr;
use kat_formulas::{choice_of, copied, equal, reads_argument, replaced};
use kat_keeping::{
    CODES, Change, Holds, Register, Slot, Solved, Store, Subject, add_leaf, add_register,
    first_code, held_by, holds_sort, leaf_of, next_piece, register_of, solve,
};
use kat_num::{Sort, Value};
use kat_reading::{Miss, number_of, push};
use kat_type::{Operation, Param, SeqType};
use std::alloc::{AllocError, Global};

/// How many different formulas operations may have.
const FORMULAS: usize = 4;

/// What an operation sets: a formula over the codes of slots, with the argument of each.
#[derive(Drop)]
struct Form {
    /// The number of the formula among all different ones.
    number: usize,
    /// The argument for each code.
    places: Vec<Option<u32>>,
}

/// The formulas of all operations, each once, and what each operation does.
#[derive(Drop)]
struct Forms {
    formulas: Vec<Expr>,
    by_op: Vec<Option<Form>>,
}

/// A field that operations set to formulas over their arguments.
pub(crate) fn formed(
    alloc: Global,
    ty: &SeqType,
    subject: &Subject,
    store: &mut Store,
) -> Result<Expr, Miss> {
    let forms = forms_of(alloc, ty.ops.as_slice(), subject)?;
    if forms.formulas.is_empty() || forms.formulas.len() > FORMULAS {
        return Err(Miss::NoRule);
    }
    for (begin, formula) in forms.formulas.iter().enumerate() {
        if let Some(starts) = solve(alloc, formula, subject.start)? {
            return kept(alloc, ty, subject, &forms, begin, &starts, store);
        }
    }
    Err(Miss::NoRule)
}

/// The number of the formula that is meant if no truth value says otherwise: the first that reads an argument.
fn rest_of(formulas: &[Expr]) -> usize {
    for (number, formula) in formulas.iter().enumerate() {
        if reads_argument(formula) {
            return number;
        }
    }
    0
}

/// The formulas of all operations that set the field.
fn forms_of(alloc: Global, ops: &[Operation], subject: &Subject) -> Result<Forms, Miss> {
    let mut formulas = Vec::new(alloc);
    let mut by_op = Vec::new(alloc);
    for (op, change) in ops.iter().zip(subject.changes.iter()) {
        match change {
            Change::Nothing => push(&mut by_op, None)?,
            Change::Clears => return Err(Miss::NoRule),
            Change::Gives { right, .. } => {
                let params = op.params.as_slice();
                let places = places_of(alloc, params, right)?;
                let formula = over_codes(alloc, right, params, &places)?;
                let number = number_among(formula, &mut formulas)?;
                push(&mut by_op, Some(Form { number, places }))?;
            }
        }
    }
    Ok(Forms { formulas, by_op })
}

/// The number of a formula among different ones, to which it is appended if it isn't one of them.
fn number_among(formula: Expr, into: &mut Vec<Expr>) -> Result<usize, AllocError> {
    let number = place_among(into, &formula);
    if number < into.len() {
        return Ok(number);
    }
    push(into, formula)?;
    Ok(number)
}

/// The place of a formula among others, or their number.
fn place_among(formulas: &[Expr], formula: &Expr) -> usize {
    for (number, own) in formulas.iter().enumerate() {
        if equal(own, formula) {
            return number;
        }
    }
    formulas.len()
}

/// The argument for each code: the first argument of a kind that is read has the first code of that kind.
fn places_of(
    alloc: Global,
    params: &[Param],
    right: &Expr,
) -> Result<Vec<Option<u32>>, AllocError> {
    let mut read = Vec::new(alloc);
    push_arguments(right, &mut read)?;
    let mut places = Vec::new(alloc);
    for code in 0..CODES {
        push(&mut places, place_for(params, &read, code))?;
    }
    Ok(places)
}

/// The argument for a code.
fn place_for(params: &[Param], read: &[u32], code: u32) -> Option<u32> {
    let mut next = first_code(held_by(code));
    for place in read {
        if let Some(param) = params.get(*place as usize) {
            if holds_sort(param.sort) == held_by(code) {
                if next == code {
                    return Some(*place);
                }
                next = next.saturating_add(1);
            }
        }
    }
    None
}

/// Appends the arguments that an expression reads, each once.
fn push_arguments(expr: &Expr, into: &mut Vec<u32>) -> Result<(), AllocError> {
    match expr {
        Expr::Arg(place) => {
            if into.iter().any(|own| *own == *place) {
                return Ok(());
            }
            push(into, *place)
        }
        Expr::Const(_) | Expr::Plain(_) | Expr::Keyed { .. } => Ok(()),
        Expr::Not(inner) => push_arguments(inner, into),
        Expr::And(left, right)
        | Expr::Or(left, right)
        | Expr::Less(left, right)
        | Expr::AtMost(left, right)
        | Expr::Same(left, right)
        | Expr::Plus(left, right)
        | Expr::Minus(left, right)
        | Expr::Max(left, right)
        | Expr::Min(left, right) => {
            push_arguments(left, into)?;
            push_arguments(right, into)
        }
        Expr::If(condition, then, other) => {
            push_arguments(condition, into)?;
            push_arguments(then, into)?;
            push_arguments(other, into)
        }
    }
}

/// A right side with codes in the place of arguments.
fn over_codes(
    alloc: Global,
    right: &Expr,
    params: &[Param],
    places: &[Option<u32>],
) -> Result<Expr, AllocError> {
    let mut args = Vec::new(alloc);
    for (place, _) in params.iter().enumerate() {
        let own = Some(number_of(place));
        let mut code = None;
        for (number, found) in places.iter().enumerate() {
            if *found == own {
                code = Some(Expr::Arg(number_of(number)));
            }
        }
        push(&mut args, code)?;
    }
    replaced(alloc, right, &[], &args)
}

/// Keeps the slots, and gives the formula that is meant.
fn kept(
    alloc: Global,
    ty: &SeqType,
    subject: &Subject,
    forms: &Forms,
    begin: usize,
    starts: &[Solved],
    store: &mut Store,
) -> Result<Expr, Miss> {
    let rest = rest_of(&forms.formulas);
    let keyed = subject.key.is_some();
    let piece = next_piece(store);
    let mut register = register_of(alloc, ty, subject)?;
    let mut tags = Vec::new(alloc);
    for (number, _) in forms.formulas.iter().enumerate() {
        if number != rest {
            let leaf = number_of(register.slots.len());
            push(
                &mut register.slots,
                tag(alloc, forms, number, number == begin)?,
            )?;
            let read = add_leaf(store, leaf_of(piece, leaf, keyed, Holds::Truth))?;
            push(&mut tags, Some(read))?;
        } else {
            push(&mut tags, None)?;
        }
    }
    let ops = ty.ops.as_slice();
    let args = kept_arguments(alloc, ops, subject, forms, starts, &mut register, store)?;
    add_register(store, register)?;
    meant(alloc, forms, rest, &tags, &args)
}

/// Keeps a slot for each code that has arguments, and gives what reads them.
fn kept_arguments(
    alloc: Global,
    ops: &[Operation],
    subject: &Subject,
    forms: &Forms,
    starts: &[Solved],
    register: &mut Register,
    store: &mut Store,
) -> Result<Vec<Option<Expr>>, Miss> {
    let keyed = subject.key.is_some();
    let piece = next_piece(store);
    let mut args = Vec::new(alloc);
    for code in 0..CODES {
        if is_used(forms, code) {
            let leaf = number_of(register.slots.len());
            let slot = slot_of(alloc, ops, forms, subject, code, starts)?;
            push(&mut register.slots, slot)?;
            let stored = leaf_of(piece, leaf, keyed, held_by(code));
            push(&mut args, Some(add_leaf(store, stored)?))?;
        } else {
            push(&mut args, None)?;
        }
    }
    Ok(args)
}

/// The formula that the tags tell, or else the one that is meant without; there is a tag for each other formula.
fn meant(
    alloc: Global,
    forms: &Forms,
    rest: usize,
    tags: &[Option<Expr>],
    args: &[Option<Expr>],
) -> Result<Expr, Miss> {
    let mut expr = Expr::Const(Value::Bool(false));
    if let Some(formula) = forms.formulas.get(rest) {
        expr = replaced(alloc, formula, &[], args)?;
    }
    for (tag, formula) in tags.iter().zip(forms.formulas.iter()) {
        if let Some(when) = tag {
            let own = replaced(alloc, formula, &[], args)?;
            expr = choice_of(alloc, copied(alloc, when)?, own, expr)?;
        }
    }
    Ok(expr)
}

/// The slot that says whether the formula with a number is meant.
fn tag(alloc: Global, forms: &Forms, number: usize, start: bool) -> Result<Slot, AllocError> {
    let mut leaves = Vec::new(alloc);
    for form in &forms.by_op {
        push(
            &mut leaves,
            if has_number(form, number) {
                Leaf::True
            } else {
                Leaf::False
            },
        )?;
    }
    Ok(Slot {
        holds: Holds::Truth,
        start: Value::Bool(start),
        leaves,
    })
}

/// Whether an operation sets the formula with a number.
fn has_number(form: &Option<Form>, number: usize) -> bool {
    match form {
        Some(form) => form.number == number,
        None => false,
    }
}

/// Whether some operation has an argument for a code.
fn is_used(forms: &Forms, code: u32) -> bool {
    forms
        .by_op
        .iter()
        .any(|form| place_in(form, code).is_some())
}

/// The argument of an operation for a code.
fn place_in(form: &Option<Form>, code: u32) -> Option<u32> {
    match form {
        None => None,
        Some(form) => match form.places.get(code as usize) {
            Some(place) => *place,
            None => None,
        },
    }
}

/// The slot of a code.
fn slot_of(
    alloc: Global,
    ops: &[Operation],
    forms: &Forms,
    subject: &Subject,
    code: u32,
    starts: &[Solved],
) -> Result<Slot, Miss> {
    let holds = held_by(code);
    let mut leaves = Vec::new(alloc);
    for (op, form) in ops.iter().zip(forms.by_op.iter()) {
        let leaf = match place_in(form, code) {
            Some(place) => Leaf::Arg(place),
            None if form.is_none() => Leaf::False,
            None => any_leaf(op.params.as_slice(), holds)?,
        };
        push(&mut leaves, leaf)?;
    }
    Ok(Slot {
        holds,
        start: start_for(subject, code, starts),
        leaves,
    })
}

/// Some leaf: of a name an argument.
fn any_leaf(params: &[Param], holds: Holds) -> Result<Leaf, Miss> {
    match holds {
        Holds::Number => Ok(Leaf::Zero),
        Holds::Truth => Ok(Leaf::False),
        Holds::Name => {
            for (place, param) in params.iter().enumerate() {
                if param.sort == Sort::Name {
                    return Ok(Leaf::Arg(number_of(place)));
                }
            }
            Err(Miss::NoRule)
        }
    }
}

/// The start of the slot of a code.
fn start_for(subject: &Subject, code: u32, starts: &[Solved]) -> Value {
    for solved in starts {
        if solved.code == code {
            return solved.value;
        }
    }
    match (held_by(code), subject.start) {
        (Holds::Number, _) => Value::Num(0),
        (Holds::Truth, _) => Value::Bool(false),
        (Holds::Name, Value::Name(name)) => Value::Name(name),
        (Holds::Name, _) => Value::Name(0),
    }
}
