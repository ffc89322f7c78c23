//! The lines of a script as lines of a test.
use crate::forms::Forms;
use crate::goldens::Golden;
use crate::marks::Marks;
use kat_emit::is_wide;
use kat_emit_members::is_checked;
use kat_emit_words::{Page, Printer, name_at, push_constant};
use kat_num::Value;
use kat_script::Line;
use std::alloc::AllocError;

/// What of a script's answers and lines is written already, and the marks that come of it.
struct Told {
    answers: usize,
    lines: usize,
    marks: Marks,
}

impl Drop for Told {
    fn drop(self) {
        let Self {
            answers: _,
            lines: _,
            marks: _,
        } = self;
    }
}

/// Appends the test of a script with this number.
pub(crate) fn push_script(
    printer: &Printer<'_, '_>,
    forms: &Forms,
    number: usize,
    golden: &Golden,
    page: &mut Page,
) -> Result<(), AllocError> {
    let mut count = itoa::Buffer::new();
    let class = printer.names.class.as_str();
    page.fill(forms.open, &[count.format(number as u128), class])?;
    page.indent(forms.depth);
    let mut told = Told {
        answers: 0,
        lines: 0,
        marks: Marks::new(printer.alloc),
    };
    for line in golden.script.lines.as_slice() {
        push_line(printer, forms, golden, line, &mut told, page)?;
        told.marks.note(line)?;
    }
    page.outdent(forms.depth);
    page.put(forms.close)
}

fn push_line(
    printer: &Printer<'_, '_>,
    forms: &Forms,
    golden: &Golden,
    line: &Line,
    told: &mut Told,
    page: &mut Page,
) -> Result<(), AllocError> {
    match line {
        Line::Do(done) => {
            let owner = replica_text(printer, done.replica)?;
            let name = name_at(&printer.names.methods, done.op as usize);
            let call = call_text(printer, name, done.args.as_slice())?;
            let call = printer.filled_text("$0.$1", &[owner.as_str(), call.as_str()])?;
            page.fill(forms.act, &[call.as_str()])
        }
        Line::Ship { replica, packet } => {
            push_moved(printer, forms.ship, *replica, *packet, page)
        }
        Line::Deliver { packet, replica } => {
            push_moved(printer, forms.take, *replica, *packet, page)
        }
        Line::Ask {
            replica,
            query,
            args,
        } => {
            let answer = golden.answers.get(told.answers).copied();
            told.answers = told.answers.saturating_add(1);
            told.lines = told.lines.saturating_add(1);
            let ask = Asked {
                replica: *replica,
                query: *query as usize,
                args: args.as_slice(),
            };
            push_ask(printer, forms, &ask, answer.unwrap_or(Value::Num(0)), page)
        }
        Line::Show { replica } => {
            let shown = golden.text.as_str().split('\n').nth(told.lines);
            told.lines = told.lines.saturating_add(1);
            let marks = told.marks.listed(printer.alloc, *replica)?;
            push_show(
                printer,
                forms,
                *replica,
                shown.unwrap_or(""),
                marks.as_str(),
                page,
            )
        }
    }
}

/// An ask: the replica, the query's number and its arguments.
#[derive(Clone, Copy)]
struct Asked<'a> {
    replica: u32,
    query: usize,
    args: &'a [Value],
}

/// A replica of a test.
fn replica_text(printer: &Printer<'_, '_>, replica: u32) -> Result<String, AllocError> {
    let mut count = itoa::Buffer::new();
    printer.filled_text("replicas[$0]", &[count.format(replica.saturating_sub(1))])
}

/// A call of a method with constants.
pub(crate) fn call_text(
    printer: &Printer<'_, '_>,
    name: &str,
    args: &[Value],
) -> Result<String, AllocError> {
    let mut text = String::from_str(printer.alloc, name)?;
    text.push('(')?;
    for (place, arg) in args.iter().enumerate() {
        text.push_str(if place > 0 { ", " } else { "" })?;
        push_constant(printer.alloc, printer.language, *arg, &mut text)?;
    }
    text.push(')')?;
    Ok(text)
}

/// Appends the line that ships or delivers a packet.
fn push_moved(
    printer: &Printer<'_, '_>,
    form: &str,
    replica: u32,
    packet: u32,
    page: &mut Page,
) -> Result<(), AllocError> {
    let mut place = itoa::Buffer::new();
    let mut number = itoa::Buffer::new();
    let words = [
        place.format(replica.saturating_sub(1)),
        number.format(packet),
    ];
    let text = printer.filled_text(form, &words)?;
    page.put(text.as_str())
}

/// Appends the line of an ask.
fn push_ask(
    printer: &Printer<'_, '_>,
    forms: &Forms,
    ask: &Asked<'_>,
    answer: Value,
    page: &mut Page,
) -> Result<(), AllocError> {
    let owner = replica_text(printer, ask.replica)?;
    let method = printer.module.ops.len().saturating_add(ask.query);
    let call = call_text(printer, name_at(&printer.names.methods, method), ask.args)?;
    let call = printer.filled_text("$0.$1", &[owner.as_str(), call.as_str()])?;
    let mut said = String::new(printer.alloc);
    push_constant(printer.alloc, printer.language, answer, &mut said)?;
    let form = if may_fail(printer, ask.query) {
        forms.sure
    } else {
        forms.ask
    };
    page.fill(form, &[call.as_str(), said.as_str()])
}

/// Whether a query answers an error too: it has parameters that are checked, or, in Go, may be a number of more than 64 bits.
pub(crate) fn may_fail(printer: &Printer<'_, '_>, query: usize) -> bool {
    let module = printer.module;
    let is_checked = match module.queries.get(query) {
        Some(query) => is_checked(query.params.as_slice()),
        None => false,
    };
    let is_wide = match module.asks.get(query) {
        Some(ask) => is_wide(&module.parts, ask),
        None => false,
    };
    is_checked || (printer.language.is_go() && is_wide)
}

/// Appends the lines of a show, for which `run` writes the replica, the word `clock`, its clock and its state; besides, the replica has these
/// marks.
fn push_show(
    printer: &Printer<'_, '_>,
    forms: &Forms,
    replica: u32,
    shown: &str,
    marks: &str,
    page: &mut Page,
) -> Result<(), AllocError> {
    let mut place = itoa::Buffer::new();
    let mut words = shown.splitn(4, ' ');
    let number = words.next().unwrap_or("");
    let _ = words.next();
    let clock = words.next().unwrap_or("");
    let state = words.next().unwrap_or("");
    let text = printer.filled_text("[\"state\",1,$0,$1,$2]", &[number, clock, state])?;
    let line = printer.filled_text("[\"state\",1,$0,$1,[[$2]]]", &[number, clock, marks])?;
    let words = [
        place.format(replica.saturating_sub(1)),
        text.as_str(),
        line.as_str(),
    ];
    page.fill(forms.show, &words)?;
    if marks.is_empty() {
        return Ok(());
    }
    page.fill(forms.gap, &words)
}
