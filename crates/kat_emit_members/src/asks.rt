//! What queries answer.
use crate::effects::{Check, push_check};
use crate::leaves::{Scene, leaf_text, look_text};
use crate::values::{answer_type, borrowed_key, put_constant};
use kat_design::{Ask, Kind, sort_kind};
use kat_emit::{Lookup, Part, ask_reads, is_wide, lookups, push_name};
use kat_emit_words::{
    Family, Form, Page, Printer, and_sign, call_head, close_member, name_at, not_sign, open_member,
    or_sign, param_names, same_sign,
};
use kat_num::Sort;
use kat_type::{Param, Query};
use std::alloc::AllocError;

/// How an ask is said: as it is, its denial, or, of the denial of a comparison, that its sides are equal.
#[derive(Clone, Copy, PartialEq, Eq)]
enum Tone {
    Plain,
    Denied,
    Equated,
}

/// How an ask is said in another one: its tone, how much what is around it binds, and whether it is to be a number of more than 64 bits.
#[derive(Clone, Copy)]
struct Mood {
    tone: Tone,
    level: u8,
    is_wide: bool,
}

/// As it is, in what binds so much.
fn plain(level: u8, is_wide: bool) -> Mood {
    Mood {
        tone: Tone::Plain,
        level,
        is_wide,
    }
}

/// Appends the methods of all queries.
pub fn push_queries(printer: &Printer<'_, '_>, page: &mut Page) -> Result<(), AllocError> {
    let pairs = printer.module.queries.iter().zip(printer.module.asks);
    for (place, (query, ask)) in pairs.enumerate() {
        push_query(printer, place, query, ask, page)?;
    }
    Ok(())
}

/// Appends the method of a query.
fn push_query(
    printer: &Printer<'_, '_>,
    place: usize,
    query: &Query,
    ask: &Ask,
    page: &mut Page,
) -> Result<(), AllocError> {
    let params = query.params.as_slice();
    let mut locals = param_names(printer.alloc, printer.language, params, &printer.names.top)?;
    open_query(printer, place, query, ask, &locals, page)?;
    for param in 0..params.len() {
        let check = Check {
            is_read: ask_reads(ask, param),
            zero: zero_answer(sort_kind(query.sort)),
        };
        push_check(printer, params, param, &locals, check, page)?;
    }
    let looks = lookups(printer.alloc, printer.module.parts.as_slice(), ask)?;
    let is_lone = matches!(ask, Ask::Leaf { .. });
    if !is_lone {
        push_looks(printer, params, &looks, &mut locals, page)?;
    }
    let scene = Scene {
        locals: &locals,
        params: params.len(),
        looks: &looks,
        is_lone,
    };
    push_answer(printer, &scene, query, ask, page)?;
    close_member(printer, page)
}

/// What Go answers with an error.
fn zero_answer(kind: Kind) -> &'static str {
    match kind {
        Kind::Number => "0, ",
        Kind::Name => "\"\", ",
        Kind::Truth => "false, ",
    }
}

/// Whether a call with such parameters may be refused.
pub fn is_checked(params: &[Param]) -> bool {
    params.iter().any(|param| param.sort != Sort::Bool)
}

/// Appends the head of a query's method.
fn open_query(
    printer: &Printer<'_, '_>,
    place: usize,
    query: &Query,
    ask: &Ask,
    locals: &[String],
    page: &mut Page,
) -> Result<(), AllocError> {
    let params = query.params.as_slice();
    let answer = whole_answer_type(printer, query, ask)?;
    let method = printer.module.ops.len().saturating_add(place);
    let name = name_at(&printer.names.methods, method);
    let head = call_head(printer, name, params, locals, answer.as_str(), false)?;
    let what = name_at(&printer.module.lines.queries, place);
    open_member(printer, name, what, head.as_str(), page)
}

/// The type of what a query answers, with an error where there may be one.
fn whole_answer_type(
    printer: &Printer<'_, '_>,
    query: &Query,
    ask: &Ask,
) -> Result<String, AllocError> {
    let plain = answer_type(printer, ask, sort_kind(query.sort));
    let is_checked = is_checked(query.params.as_slice());
    let form = match printer.language.family() {
        Family::Rust if is_checked => "Result<$0, $1>",
        Family::Go if is_checked || is_wide(&printer.module.parts, ask) => "($0, error)",
        _ => "$0",
    };
    printer.filled_text(form, &[plain, printer.names.error.as_str()])
}

/// Appends the statement that answers.
fn push_answer(
    printer: &Printer<'_, '_>,
    scene: &Scene<'_>,
    query: &Query,
    ask: &Ask,
    page: &mut Page,
) -> Result<(), AllocError> {
    let answer = ask_text(printer, scene, ask, plain(0, false))?;
    let is_checked = is_checked(query.params.as_slice());
    let is_owned = matches!((sort_kind(query.sort), ask), (Kind::Name, Ask::Arg(_)));
    let form = match printer.language.family() {
        Family::Rust if is_owned => "Ok($0.to_string())",
        Family::Rust if is_checked => "Ok($0)",
        Family::Go if is_wide(&printer.module.parts, ask) => "$0.narrow()",
        Family::Go if is_checked => "$0, nil",
        _ => "$0",
    };
    let answer = printer.filled_text(form, &[answer.as_str()])?;
    printer.line(Form::Return, &[answer.as_str()], page)
}

/// Appends the statements that look places up, and the names of what is there.
fn push_looks(
    printer: &Printer<'_, '_>,
    params: &[Param],
    looks: &[Lookup],
    locals: &mut Vec<String>,
    page: &mut Page,
) -> Result<(), AllocError> {
    for look in looks {
        let is_alone = looks.iter().filter(|other| other.part == look.part).count() == 1;
        let Some((part, names)) = printer.part(look.part as usize) else {
            return Ok(());
        };
        let local = look_name(printer, part, params, *look, is_alone, locals)?;
        let key = borrowed_key(printer, part, name_at(locals, look.key as usize))?;
        let text = look_text(printer, part, names, key.as_str())?;
        printer.line(Form::Let, &[local.as_str(), text.as_str()], page)?;
        locals.push(local)?;
    }
    Ok(())
}

/// The name of what is at a place: the part's, with the key's if the query looks at several places of the part.
fn look_name(
    printer: &Printer<'_, '_>,
    part: &Part<'_>,
    params: &[Param],
    look: Lookup,
    is_alone: bool,
    locals: &[String],
) -> Result<String, AllocError> {
    let mut more = String::new(printer.alloc);
    if let (false, Some(param)) = (is_alone, params.get(look.key as usize)) {
        more.push('_')?;
        push_name(printer.alloc, param.name, &mut more)?;
    }
    printer.local(locals, part.word.as_str(), more.as_str())
}

/// An ask as it is said.
fn ask_text(
    printer: &Printer<'_, '_>,
    scene: &Scene<'_>,
    ask: &Ask,
    mood: Mood,
) -> Result<String, AllocError> {
    match ask {
        Ask::Not(inner) => {
            let mood = Mood {
                tone: denied(mood.tone),
                level: mood.level,
                is_wide: false,
            };
            ask_text(printer, scene, inner, mood)
        }
        Ask::And(left, right) | Ask::Or(left, right) => {
            let (first, second) = link_moods(printer, ask, mood);
            let first = ask_text(printer, scene, left, first)?;
            let second = ask_text(printer, scene, right, second)?;
            linked_text(printer, ask, mood, first.as_str(), second.as_str())
        }
        Ask::Less(left, right) => {
            let is_wide = has_wide_side(printer, left, right);
            let first = ask_text(printer, scene, left, plain(4, is_wide))?;
            let second = ask_text(printer, scene, right, plain(4, is_wide))?;
            compared_text(
                printer,
                (left, right),
                first.as_str(),
                second.as_str(),
                mood,
            )
        }
        Ask::Plus(left, right) | Ask::Minus(left, right) => {
            let first = ask_text(printer, scene, left, plain(4, true))?;
            let second = ask_text(printer, scene, right, plain(5, true))?;
            let words = [first.as_str(), second.as_str()];
            summed_text(printer, ask, mood, &words)
        }
        Ask::Leaf { .. } | Ask::Arg(_) | Ask::Const(_) => atom_text(printer, scene, ask, mood),
    }
}

/// Whether either side of a comparison may have more than 64 bits.
fn has_wide_side(printer: &Printer<'_, '_>, left: &Ask, right: &Ask) -> bool {
    let parts = &printer.module.parts;
    is_wide(parts, left) || is_wide(parts, right)
}

/// The tone of an ask whose denial is said in a tone.
fn denied(tone: Tone) -> Tone {
    match tone {
        Tone::Plain => Tone::Denied,
        Tone::Denied => Tone::Plain,
        Tone::Equated => Tone::Equated,
    }
}

/// How the sides of an `and` or an `or` are said. Of an equation the first side says all.
fn link_moods(printer: &Printer<'_, '_>, ask: &Ask, mood: Mood) -> (Mood, Mood) {
    match ask {
        Ask::And(left, right) if is_equation(left, right) => {
            let equated = Mood {
                tone: Tone::Equated,
                level: inner_level(printer, mood),
                is_wide: false,
            };
            (equated, equated)
        }
        Ask::And(_, _) => (plain(1, false), plain(2, false)),
        _ => (plain(0, false), plain(1, false)),
    }
}

/// An `and` or an `or` of what its sides say.
fn linked_text(
    printer: &Printer<'_, '_>,
    ask: &Ask,
    mood: Mood,
    first: &str,
    second: &str,
) -> Result<String, AllocError> {
    if let Ask::And(left, right) = ask {
        if is_equation(left, right) {
            return denied_text(printer, mood, first);
        }
    }
    let is_and = matches!(ask, Ask::And(_, _));
    let mut page = printer.page();
    page.put(first)?;
    page.put(if is_and {
        and_sign(printer.language)
    } else {
        or_sign(printer.language)
    })?;
    page.put(second)?;
    let binds = if is_and { 1 } else { 0 };
    let is_opened = is_opened(binds, inner_level(printer, mood));
    let text = closed(printer, is_opened, page.into_text())?;
    denied_text(printer, mood, text.as_str())
}

/// How much what is around an ask binds, once its denial is written.
fn inner_level(printer: &Printer<'_, '_>, mood: Mood) -> u8 {
    if mood.tone != Tone::Denied {
        mood.level
    } else if printer.language.is_python() {
        3
    } else {
        5
    }
}

/// An ask that is said plainly, or its denial if the mood denies it.
fn denied_text(printer: &Printer<'_, '_>, mood: Mood, text: &str) -> Result<String, AllocError> {
    if mood.tone != Tone::Denied {
        return String::from_str(printer.alloc, text);
    }
    let mut page = printer.page();
    page.put(not_sign(printer.language))?;
    page.put(text)?;
    let is_opened = printer.language.is_python() && mood.level > 2;
    closed(printer, is_opened, page.into_text())
}

/// A comparison of two sides, of what these say.
fn compared_text(
    printer: &Printer<'_, '_>,
    sides: (&Ask, &Ask),
    first: &str,
    second: &str,
    mood: Mood,
) -> Result<String, AllocError> {
    let words = [first, second];
    if mood.tone == Tone::Equated {
        let text = equated_text(printer, first, second)?;
        return closed(printer, is_opened(3, mood.level), text);
    }
    let is_denied = mood.tone == Tone::Denied;
    if printer.language.is_go() && has_wide_side(printer, sides.0, sides.1) {
        return printer.filled_text(
            if is_denied {
                "!$0.below($1)"
            } else {
                "$0.below($1)"
            },
            &words,
        );
    }
    let is_turned = is_constant(sides.0) && !is_constant(sides.1);
    let form = match (is_denied, is_turned) {
        (false, false) => "$0 < $1",
        (false, true) => "$1 > $0",
        (true, false) => "$0 >= $1",
        (true, true) => "$1 <= $0",
    };
    let text = printer.filled_text(form, &words)?;
    closed(printer, is_opened(3, mood.level), text)
}

/// That two sides are equal.
fn equated_text(
    printer: &Printer<'_, '_>,
    first: &str,
    second: &str,
) -> Result<String, AllocError> {
    let mut page = printer.page();
    page.put(first)?;
    page.put(same_sign(printer.language))?;
    page.put(second)?;
    Ok(page.into_text())
}

/// A sum or a difference of what its sides say.
fn summed_text(
    printer: &Printer<'_, '_>,
    ask: &Ask,
    mood: Mood,
    words: &[&str],
) -> Result<String, AllocError> {
    let is_plus = matches!(ask, Ask::Plus(_, _));
    if printer.language.is_go() {
        return printer.filled_text(
            if is_plus {
                "$0.plus($1)"
            } else {
                "$0.minus($1)"
            },
            words,
        );
    }
    let text = printer.filled_text(if is_plus { "$0 + $1" } else { "$0 - $1" }, words)?;
    closed(printer, is_opened(4, mood.level), text)
}

fn is_constant(ask: &Ask) -> bool {
    matches!(ask, Ask::Const(_))
}

/// Whether what binds like this is in parentheses at a level: if it binds less, and an `and` also in an `or`.
fn is_opened(binds: u8, level: u8) -> bool {
    binds < level || (binds == 1 && level == 1)
}

/// A text, in parentheses if it is to be.
fn closed(printer: &Printer<'_, '_>, is_opened: bool, text: String) -> Result<String, AllocError> {
    if is_opened {
        return printer.filled_text("($0)", &[text.as_str()]);
    }
    Ok(text)
}

/// A leaf, an argument or a constant.
fn atom_text(
    printer: &Printer<'_, '_>,
    scene: &Scene<'_>,
    ask: &Ask,
    mood: Mood,
) -> Result<String, AllocError> {
    let mut page = printer.page();
    match ask {
        Ask::Leaf {
            component,
            leaf,
            key,
        } => {
            let text = leaf_text(printer, scene, *component, *leaf, *key)?;
            page.put(text.as_str())?;
        }
        Ask::Arg(place) => page.put(name_at(scene.locals, *place as usize))?,
        Ask::Const(value) => put_constant(printer, *value, &mut page)?,
        _ => {}
    }
    let text = page.into_text();
    if mood.is_wide && !is_wide(&printer.module.parts, ask) {
        return widened_text(printer, ask, text.as_str());
    }
    denied_text(printer, mood, text.as_str())
}

/// A number of 64 bits as one of more.
fn widened_text(printer: &Printer<'_, '_>, ask: &Ask, text: &str) -> Result<String, AllocError> {
    let form = match printer.language.family() {
        Family::Rust if is_constant(ask) => "$0_i128",
        Family::Rust => "i128::from($0)",
        Family::Go => "widen($0)",
        Family::TypeScript | Family::Python => "$0",
    };
    printer.filled_text(form, &[text])
}

/// Whether the `and` of two asks is an equation: both are denied comparisons, and the second is the first with its sides exchanged.
fn is_equation(left: &Ask, right: &Ask) -> bool {
    match (denied_sides(left), denied_sides(right)) {
        (Some(first), Some(second)) => {
            are_same(first.0, second.1) && are_same(first.1, second.0)
        }
        _ => false,
    }
}

/// The sides of a denied comparison.
fn denied_sides(ask: &Ask) -> Option<(&Ask, &Ask)> {
    let Ask::Not(inner) = ask else {
        return None;
    };
    match &**inner {
        Ask::Less(left, right) => Some((left, right)),
        _ => None,
    }
}

/// Whether two asks are the same.
fn are_same(first: &Ask, second: &Ask) -> bool {
    match (first, second) {
        (
            Ask::Leaf {
                component,
                leaf,
                key,
            },
            Ask::Leaf {
                component: other_component,
                leaf: other_leaf,
                key: other_key,
            },
        ) => component == other_component && leaf == other_leaf && key == other_key,
        (Ask::Arg(place), Ask::Arg(other)) => place == other,
        (Ask::Const(value), Ask::Const(other)) => value == other,
        (Ask::Not(inner), Ask::Not(other)) => are_same(inner, other),
        (Ask::And(left, right), Ask::And(other_left, other_right))
        | (Ask::Or(left, right), Ask::Or(other_left, other_right))
        | (Ask::Less(left, right), Ask::Less(other_left, other_right))
        | (Ask::Plus(left, right), Ask::Plus(other_left, other_right))
        | (Ask::Minus(left, right), Ask::Minus(other_left, other_right)) => {
            are_same(left, other_left) && are_same(right, other_right)
        }
        _ => false,
    }
}
