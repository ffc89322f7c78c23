//! Calls that are refused, as lines of a test.
use crate::forms::Forms;
use crate::steps::call_text;
use kat_design::Leaf;
use kat_emit::{Form, Part, Statement, operation_statements, push_name};
use kat_emit_words::{Family, Page, Printer, name_at, push_constant};
use kat_num::{Sort, Value};
use kat_type::Param;
use std::alloc::AllocError;

/// One past the greatest argument.
const TOO_LARGE: i128 = 1_000_000_000_001;

/// The name `a`.
const A: u128 = 97 << 112;

/// Why a call is refused.
#[derive(Clone, Copy)]
enum Problem {
    /// The parameter with this number.
    Argument(usize),
    Clock,
    Sum,
}

/// Appends the test of calls that are refused.
pub(crate) fn push_refusals(
    printer: &Printer<'_, '_>,
    forms: &Forms,
    page: &mut Page,
) -> Result<(), AllocError> {
    page.put(forms.refusals)?;
    page.indent(forms.depth);
    let class = printer.names.class.as_str();
    let error = printer.names.error.as_str();
    put_filled(printer, forms.number, &[class, "0", error], page)?;
    put_filled(printer, forms.number, &[class, "33", error], page)?;
    push_bad_states(printer, forms, page)?;
    for (op, operation) in printer.module.ops.iter().enumerate() {
        let params = operation.params.as_slice();
        push_bad_arguments(printer, forms.refused, op, params, page)?;
        push_limits(printer, forms, op, params, page)?;
    }
    for (place, query) in printer.module.queries.iter().enumerate() {
        let method = printer.module.ops.len().saturating_add(place);
        let params = query.params.as_slice();
        push_bad_arguments(printer, forms.unanswered, method, params, page)?;
    }
    page.outdent(forms.depth);
    page.put(forms.close)
}

/// Appends a text with its words, of which each line is indented.
fn put_filled(
    printer: &Printer<'_, '_>,
    form: &str,
    words: &[&str],
    page: &mut Page,
) -> Result<(), AllocError> {
    let text = printer.filled_text(form, words)?;
    page.put(text.as_str())
}

/// The text of a state of replica 1 with a clock, of which a part is `full` and all others are as at first.
fn state_text(
    printer: &Printer<'_, '_>,
    clock: &str,
    full: Option<usize>,
) -> Result<String, AllocError> {
    let mut parts = String::new(printer.alloc);
    for (place, part) in printer.module.parts.iter().enumerate() {
        parts.push_str(if place > 0 { "," } else { "" })?;
        if full == Some(place) {
            parts.push_str(full_text(part))?;
        } else {
            push_first(printer, part, &mut parts)?;
        }
    }
    printer.filled_text("[\"state\",1,1,$0,[$1]]", &[clock, parts.as_str()])
}

/// Appends the text of a part as it is at first.
fn push_first(
    printer: &Printer<'_, '_>,
    part: &Part<'_>,
    into: &mut String,
) -> Result<(), AllocError> {
    into.push('[')?;
    if let Form::Cell = part.form {
        for (place, start) in part.starts().iter().enumerate() {
            into.push_str(if place > 0 { "," } else { "" })?;
            let mut text = Vec::new(printer.alloc);
            kat_num::print(printer.alloc, start, &mut text)?;
            for letter in text.iter() {
                into.push(char::from(*letter))?;
            }
        }
    }
    into.push(']')
}

/// The text of sums of which that of replica 1 is as great as may be, at the key that is called with.
fn full_text(part: &Part<'_>) -> &'static str {
    match part.key {
        None => "[[1,1000000000000000000]]",
        Some(Sort::Name) => "[[\"a\",[[1,1000000000000000000]]]]",
        Some(Sort::Bool) => "[[true,[[1,1000000000000000000]]]]",
        Some(Sort::Int | Sort::Nat) => "[[1,[[1,1000000000000000000]]]]",
    }
}

/// Appends texts that are no states.
fn push_bad_states(
    printer: &Printer<'_, '_>,
    forms: &Forms,
    page: &mut Page,
) -> Result<(), AllocError> {
    let good = state_text(printer, "0", None)?;
    let late = state_text(printer, "1000000001", None)?;
    let cut = good.as_str().strip_suffix("]").unwrap_or("");
    let more = printer.filled_text("$0,0]", &[cut])?;
    put_bad_state(printer, forms, "", page)?;
    put_bad_state(printer, forms, cut, page)?;
    put_bad_state(printer, forms, late.as_str(), page)?;
    put_bad_state(printer, forms, more.as_str(), page)
}

/// Appends a text that is no state.
fn put_bad_state(
    printer: &Printer<'_, '_>,
    forms: &Forms,
    text: &str,
    page: &mut Page,
) -> Result<(), AllocError> {
    let class = printer.names.class.as_str();
    let error = printer.names.error.as_str();
    put_filled(printer, forms.text, &[class, text, error], page)
}

/// A good argument.
fn plain(sort: Sort) -> Value {
    match sort {
        Sort::Bool => Value::Bool(true),
        Sort::Int | Sort::Nat => Value::Num(1),
        Sort::Name => Value::Name(A),
    }
}

/// Good arguments.
fn plain_arguments(printer: &Printer<'_, '_>, params: &[Param]) -> Result<Vec<Value>, AllocError> {
    let mut args = Vec::new(printer.alloc);
    for param in params {
        args.push(plain(param.sort))?;
    }
    Ok(args)
}

/// Appends, for each parameter that may be refused, a call with a bad argument.
fn push_bad_arguments(
    printer: &Printer<'_, '_>,
    form: &str,
    method: usize,
    params: &[Param],
    page: &mut Page,
) -> Result<(), AllocError> {
    for (place, param) in params.iter().enumerate() {
        if param.sort == Sort::Bool {
            continue;
        }
        let call = bad_call(printer, method, params, place)?;
        let problem = Problem::Argument(place);
        push_refused(
            printer,
            form,
            params,
            problem,
            ("0", None),
            call.as_str(),
            page,
        )?;
    }
    Ok(())
}

/// A call of which one argument is bad.
fn bad_call(
    printer: &Printer<'_, '_>,
    method: usize,
    params: &[Param],
    bad: usize,
) -> Result<String, AllocError> {
    let mut text = String::from_str(printer.alloc, name_at(&printer.names.methods, method))?;
    text.push('(')?;
    for (place, param) in params.iter().enumerate() {
        text.push_str(if place > 0 { ", " } else { "" })?;
        match (place == bad, param.sort) {
            (true, Sort::Name) => text.push_str("\"abcdefghijklmnop\"")?,
            (true, _) => push_constant(
                printer.alloc,
                printer.language,
                Value::Num(TOO_LARGE),
                &mut text,
            )?,
            (false, sort) => push_constant(
                printer.alloc,
                printer.language,
                plain(sort),
                &mut text,
            )?,
        }
    }
    text.push(')')?;
    Ok(text)
}

/// Appends a call at the end of the clock, and one at the end of each sum that the operation lets grow.
fn push_limits(
    printer: &Printer<'_, '_>,
    forms: &Forms,
    op: usize,
    params: &[Param],
    page: &mut Page,
) -> Result<(), AllocError> {
    let args = plain_arguments(printer, params)?;
    let call = call_text(printer, name_at(&printer.names.methods, op), &args)?;
    let call = call.as_str();
    let late = ("1000000000", None);
    push_refused(
        printer,
        forms.refused,
        params,
        Problem::Clock,
        late,
        call,
        page,
    )?;
    let parts = printer.module.parts.as_slice();
    let statements = operation_statements(printer.alloc, parts, op, params.len())?;
    for statement in statements.iter() {
        if let Statement::Grow { part, weight, .. } = *statement {
            if !matches!(weight, Leaf::Neg(_)) {
                let full = ("0", Some(part));
                push_refused(
                    printer,
                    forms.refused,
                    params,
                    Problem::Sum,
                    full,
                    call,
                    page,
                )?;
            }
        }
    }
    Ok(())
}

/// Appends a call that is refused for a problem, at a state of a clock and a part that is full.
fn push_refused(
    printer: &Printer<'_, '_>,
    form: &str,
    params: &[Param],
    problem: Problem,
    at: (&str, Option<usize>),
    call: &str,
    page: &mut Page,
) -> Result<(), AllocError> {
    let problem = problem_text(printer, params, problem)?;
    let state = state_text(printer, at.0, at.1)?;
    let class = printer.names.class.as_str();
    let words = [problem.as_str(), state.as_str(), call, class];
    put_filled(printer, form, &words, page)
}

/// How a language tells a problem.
fn problem_text(
    printer: &Printer<'_, '_>,
    params: &[Param],
    problem: Problem,
) -> Result<String, AllocError> {
    let mut word = String::new(printer.alloc);
    if let Problem::Argument(place) = problem {
        if let Some(param) = params.get(place) {
            push_name(printer.alloc, param.name, &mut word)?;
        }
    }
    let form = match (printer.language.family(), problem) {
        (Family::Rust, Problem::Argument(_)) => "$0::Argument(\"$1\")",
        (Family::Rust, Problem::Clock) => "$0::Clock",
        (Family::Rust, Problem::Sum) => "$0::Sum",
        (Family::Go, Problem::Argument(_)) => "ErrArgument",
        (Family::Go, Problem::Clock) => "ErrClock",
        (Family::Go, Problem::Sum) => "ErrSum",
        (_, Problem::Argument(_)) => "argument",
        (_, Problem::Clock) => "clock",
        (_, Problem::Sum) => "sum",
    };
    printer.filled_text(form, &[printer.names.error.as_str(), word.as_str()])
}
