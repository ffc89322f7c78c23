//! Values of several leaves, compared and joined leaf by leaf.
use crate::languages::{Family, Language};
use crate::pages::Page;
use crate::printers::{Printer, name_at};
use kat_design::Kind;
use kat_emit::{Part, is_chain};
use kat_shape::Shape;
use std::alloc::AllocError;

/// The leaves of the values of a part, and their names.
#[derive(Clone, Copy)]
pub struct Leaves<'a> {
    pub names: &'a [String],
    pub part: &'a Part<'a>,
}

/// How many leaves a shape has.
fn leaf_count(shape: &Shape) -> usize {
    match shape {
        Shape::Max | Shape::Name | Shape::Or => 1,
        Shape::Lex(first, second) | Shape::Pair(first, second) => {
            leaf_count(first).saturating_add(leaf_count(second))
        }
    }
}

/// The sign of `and`, with blanks around it.
pub fn and_sign(language: Language) -> &'static str {
    if language.is_python() {
        " and "
    } else {
        " && "
    }
}

/// The sign of `or`.
pub fn or_sign(language: Language) -> &'static str {
    if language.is_python() { " or " } else { " || " }
}

/// The sign of denial.
pub fn not_sign(language: Language) -> &'static str {
    if language.is_python() { "not " } else { "!" }
}

/// The sign of equality, with blanks around it.
pub fn same_sign(language: Language) -> &'static str {
    match language.family() {
        Family::TypeScript => " === ",
        Family::Python | Family::Rust | Family::Go => " == ",
    }
}

/// Appends a leaf of a value.
fn put_leaf(
    leaves: &Leaves<'_>,
    value: &str,
    at: usize,
    page: &mut Page,
) -> Result<(), AllocError> {
    page.put(value)?;
    page.put(".")?;
    page.put(name_at(leaves.names, at))
}

/// Whether the leaf is a truth value.
fn is_truth(leaves: &Leaves<'_>, at: usize) -> bool {
    matches!(leaves.part.kinds.get(at), Some(Kind::Truth))
}

/// Appends that a leaf of the first value is less than that of the second.
pub fn push_leaf_less(
    printer: &Printer<'_, '_>,
    leaves: &Leaves<'_>,
    at: usize,
    first: &str,
    second: &str,
    page: &mut Page,
) -> Result<(), AllocError> {
    if printer.language.is_go() && leaves.part.is_wide_leaf(at) {
        put_leaf(leaves, first, at, page)?;
        page.put(".below(")?;
        put_leaf(leaves, second, at, page)?;
        return page.put(")");
    }
    if !is_truth(leaves, at) {
        put_leaf(leaves, first, at, page)?;
        page.put(" < ")?;
        return put_leaf(leaves, second, at, page);
    }
    page.put(not_sign(printer.language))?;
    put_leaf(leaves, first, at, page)?;
    page.put(and_sign(printer.language))?;
    put_leaf(leaves, second, at, page)
}

/// Appends that a leaf of both values is the same.
fn push_leaf_same(
    printer: &Printer<'_, '_>,
    leaves: &Leaves<'_>,
    at: usize,
    page: &mut Page,
) -> Result<(), AllocError> {
    put_leaf(leaves, "a", at, page)?;
    page.put(same_sign(printer.language))?;
    put_leaf(leaves, "b", at, page)
}

/// Appends that so many leaves of the first value from a place on, compared from the left, are less than those of the second.
fn push_chain_less(
    printer: &Printer<'_, '_>,
    leaves: &Leaves<'_>,
    from: usize,
    count: usize,
    first: &str,
    second: &str,
    page: &mut Page,
) -> Result<(), AllocError> {
    let end = from.saturating_add(count);
    let mut is_open = 0usize;
    for at in from..end {
        let left = end - at;
        if left == 1 {
            push_leaf_less(printer, leaves, at, first, second, page)?;
        } else {
            is_open = is_open.saturating_add(1);
            push_chain_step(printer, leaves, at, first, second, page)?;
            if left > 2 {
                page.put("(")?;
                is_open = is_open.saturating_add(1);
            }
        }
    }
    for _ in 0..is_open {
        page.put(")")?;
    }
    Ok(())
}

/// Appends that a leaf is less, or that it is the same and what comes after it is less.
fn push_chain_step(
    printer: &Printer<'_, '_>,
    leaves: &Leaves<'_>,
    at: usize,
    first: &str,
    second: &str,
    page: &mut Page,
) -> Result<(), AllocError> {
    let is_closed = is_truth(leaves, at);
    page.put(if is_closed { "(" } else { "" })?;
    push_leaf_less(printer, leaves, at, first, second, page)?;
    page.put(if is_closed { ")" } else { "" })?;
    page.put(or_sign(printer.language))?;
    page.put("(")?;
    push_leaf_same(printer, leaves, at, page)?;
    page.put(and_sign(printer.language))
}

/// Appends that a value `a` lacks something of a value `b`, of this shape from a leaf on.
pub fn push_lacks_leaves(
    printer: &Printer<'_, '_>,
    leaves: &Leaves<'_>,
    shape: &Shape,
    from: usize,
    page: &mut Page,
) -> Result<(), AllocError> {
    match shape {
        Shape::Max | Shape::Name | Shape::Or => {
            push_chain_less(printer, leaves, from, 1, "a", "b", page)
        }
        Shape::Pair(first, second) => {
            page.put("(")?;
            push_lacks_leaves(printer, leaves, first, from, page)?;
            page.put(")")?;
            page.put(or_sign(printer.language))?;
            page.put("(")?;
            let after = from.saturating_add(leaf_count(first));
            push_lacks_leaves(printer, leaves, second, after, page)?;
            page.put(")")
        }
        Shape::Lex(first, second) => {
            let count = leaf_count(first);
            if is_chain(second) {
                let all = count.saturating_add(leaf_count(second));
                return push_chain_less(printer, leaves, from, all, "a", "b", page);
            }
            push_under(printer, leaves, from, count, page)?;
            let after = from.saturating_add(count);
            push_lacks_leaves(printer, leaves, second, after, page)?;
            page.put("))")
        }
    }
}

/// Appends that so many leaves from a place on are less, or are the same and what comes after them is so.
fn push_under(
    printer: &Printer<'_, '_>,
    leaves: &Leaves<'_>,
    from: usize,
    count: usize,
    page: &mut Page,
) -> Result<(), AllocError> {
    page.put("(")?;
    push_chain_less(printer, leaves, from, count, "a", "b", page)?;
    page.put(")")?;
    page.put(or_sign(printer.language))?;
    page.put("(")?;
    for at in from..from.saturating_add(count) {
        push_leaf_same(printer, leaves, at, page)?;
        page.put(and_sign(printer.language))?;
    }
    page.put("(")
}

/// Appends a leaf of the join of a value `a` and a value `b`, of this shape from a leaf on.
pub fn push_joined_leaf(
    printer: &Printer<'_, '_>,
    leaves: &Leaves<'_>,
    shape: &Shape,
    from: usize,
    at: usize,
    page: &mut Page,
) -> Result<(), AllocError> {
    match shape {
        Shape::Max | Shape::Name | Shape::Or => push_greater(printer, leaves, from, 1, at, page),
        Shape::Pair(first, second) => {
            let after = from.saturating_add(leaf_count(first));
            if at < after {
                push_joined_leaf(printer, leaves, first, from, at, page)
            } else {
                push_joined_leaf(printer, leaves, second, after, at, page)
            }
        }
        Shape::Lex(first, second) => {
            let count = leaf_count(first);
            let after = from.saturating_add(count);
            if is_chain(second) {
                let all = count.saturating_add(leaf_count(second));
                return push_greater(printer, leaves, from, all, at, page);
            }
            if at < after {
                return push_greater(printer, leaves, from, count, at, page);
            }
            push_choice(printer, leaves, from, count, ("a", "b"), at, page)?;
            push_choice(printer, leaves, from, count, ("b", "a"), at, page)?;
            push_joined_leaf(printer, leaves, second, after, at, page)?;
            page.put("))")
        }
    }
}

/// Appends a leaf of the greater value by so many leaves from a place on: of `b` if those of `a` are less.
fn push_greater(
    printer: &Printer<'_, '_>,
    leaves: &Leaves<'_>,
    from: usize,
    count: usize,
    at: usize,
    page: &mut Page,
) -> Result<(), AllocError> {
    push_choice(printer, leaves, from, count, ("a", "b"), at, page)?;
    put_chosen(printer, leaves, "a", at, page)?;
    page.put(")")
}

/// Appends a leaf that is chosen: in Rust a reference to it.
fn put_chosen(
    printer: &Printer<'_, '_>,
    leaves: &Leaves<'_>,
    value: &str,
    at: usize,
    page: &mut Page,
) -> Result<(), AllocError> {
    page.put(if printer.language.is_rust() { "&" } else { "" })?;
    put_leaf(leaves, value, at, page)
}

/// Appends the beginning of a choice: a leaf of the second value if the first one is less by so many leaves from a place on, else what
/// comes after it.
fn push_choice(
    printer: &Printer<'_, '_>,
    leaves: &Leaves<'_>,
    from: usize,
    count: usize,
    sides: (&str, &str),
    at: usize,
    page: &mut Page,
) -> Result<(), AllocError> {
    if printer.language.is_python() {
        page.put("(")?;
        put_leaf(leaves, sides.1, at, page)?;
        page.put(" if ")?;
        push_chain_less(printer, leaves, from, count, sides.0, sides.1, page)?;
        return page.put(" else ");
    }
    let has_function = printer.language.family() != Family::TypeScript;
    page.put(if has_function { "pick(" } else { "(" })?;
    push_chain_less(printer, leaves, from, count, sides.0, sides.1, page)?;
    page.put(if has_function { ", " } else { " ? " })?;
    put_chosen(printer, leaves, sides.1, at, page)?;
    page.put(if has_function { ", " } else { " : " })
}
