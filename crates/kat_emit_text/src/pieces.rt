//! The fixed text around the class: each piece is written if something uses it.
use crate::{go_pieces, python_pieces, rust_pieces, typescript_pieces};
use kat_design::{Ask, Kind, Leaf};
use kat_emit::{Form, Part, Statement, has_wide, operation_statements};
use kat_emit_words::{Family, Page, Printer, is_zero};
use kat_num::Sort;
use kat_type::Param;
use std::alloc::AllocError;

/// What a module has, by which pieces are used.
#[derive(Clone, Copy)]
pub(crate) struct Uses {
    /// Parameters that are names, truth values, natural or whole numbers.
    pub(crate) names: bool,
    pub(crate) flags: bool,
    pub(crate) naturals: bool,
    pub(crate) integers: bool,
    /// Operations, those that let a sum grow, and those that give a number only above or below 0.
    pub(crate) operations: bool,
    pub(crate) growth: bool,
    pub(crate) signs: bool,
    /// Queries that ask for a sum, numbers that may have more than 64 bits, and leaves that may.
    pub(crate) totals: bool,
    pub(crate) wides: bool,
    pub(crate) wide_leaves: bool,
    /// Sums with keys; tables, those with a start that isn't 0, and sets; values that are joined leaf by leaf.
    pub(crate) keyed_sums: bool,
    pub(crate) tables: bool,
    pub(crate) starts: bool,
    pub(crate) sets: bool,
    pub(crate) pairs: bool,
    /// What is read from a state: whole numbers, natural ones, names, truth values.
    pub(crate) read_numbers: bool,
    pub(crate) read_naturals: bool,
    pub(crate) read_names: bool,
    pub(crate) read_flags: bool,
}

impl Uses {
    /// Whether there are tables or sums with keys.
    pub(crate) fn has_maps(&self) -> bool {
        self.tables || self.keyed_sums
    }

    /// Whether there are keys.
    pub(crate) fn has_keys(&self) -> bool {
        self.has_maps() || self.sets
    }
}

/// What a module without anything has.
fn no_uses() -> Uses {
    Uses {
        names: false,
        flags: false,
        naturals: false,
        integers: false,
        operations: false,
        growth: false,
        signs: false,
        totals: false,
        wides: false,
        wide_leaves: false,
        keyed_sums: false,
        tables: false,
        starts: false,
        sets: false,
        pairs: false,
        read_numbers: false,
        read_naturals: false,
        read_names: false,
        read_flags: false,
    }
}

/// What a module has.
pub(crate) fn uses_of(printer: &Printer<'_, '_>) -> Result<Uses, AllocError> {
    let mut uses = no_uses();
    uses.operations = !printer.module.ops.is_empty();
    let parts = printer.module.parts.as_slice();
    for part in parts {
        note_part(part, &mut uses);
    }
    for query in printer.module.queries {
        note_params(query.params.as_slice(), &mut uses);
    }
    for ask in printer.module.asks {
        uses.totals = uses.totals || asks_sum(parts, ask);
        uses.wides = uses.wides || has_wide(parts, ask);
    }
    note_operations(printer, &mut uses)?;
    uses.wides = uses.wides || uses.wide_leaves;
    Ok(uses)
}

/// Notes what operations use.
fn note_operations(printer: &Printer<'_, '_>, uses: &mut Uses) -> Result<(), AllocError> {
    let parts = printer.module.parts.as_slice();
    for (place, op) in printer.module.ops.iter().enumerate() {
        note_params(op.params.as_slice(), uses);
        let statements = operation_statements(printer.alloc, parts, place, 0)?;
        for statement in statements.iter() {
            note_statement(*statement, uses);
        }
    }
    Ok(())
}

/// Notes what a statement uses.
fn note_statement(statement: Statement<'_>, uses: &mut Uses) {
    match statement {
        Statement::Grow { weight, .. } => {
            uses.growth = true;
            uses.signs = uses.signs || is_sign(weight);
        }
        Statement::Put { leaves, .. } => {
            uses.signs = uses.signs || leaves.iter().any(|leaf| is_sign(*leaf));
        }
        _ => {}
    }
}

/// Whether a leaf is an argument only above or below 0.
fn is_sign(leaf: Leaf) -> bool {
    matches!(leaf, Leaf::Pos(_) | Leaf::Neg(_))
}

/// Notes parameters.
fn note_params(params: &[Param], uses: &mut Uses) {
    for param in params {
        match param.sort {
            Sort::Bool => uses.flags = true,
            Sort::Int => uses.integers = true,
            Sort::Nat => uses.naturals = true,
            Sort::Name => uses.names = true,
        }
    }
}

/// Notes a part.
fn note_part(part: &Part<'_>, uses: &mut Uses) {
    match part.form {
        Form::Cell | Form::Tally => {}
        Form::Table => {
            uses.tables = true;
            uses.starts = uses.starts || part.starts().iter().any(|start| !is_zero(*start));
        }
        Form::Set => uses.sets = true,
        Form::Tallies => uses.keyed_sums = true,
    }
    uses.pairs = uses.pairs || !part.is_chain();
    for place in 0..part.kinds.len() {
        uses.wide_leaves = uses.wide_leaves || part.is_wide_leaf(place);
    }
    match part.key {
        Some(Sort::Int) => uses.read_numbers = true,
        Some(Sort::Nat) => uses.read_naturals = true,
        Some(Sort::Name) => uses.read_names = true,
        Some(Sort::Bool) => uses.read_flags = true,
        None => {}
    }
    for kind in part.kinds.iter() {
        match kind {
            Kind::Number => uses.read_numbers = true,
            Kind::Name => uses.read_names = true,
            Kind::Truth => uses.read_flags = true,
        }
    }
}

/// Whether an ask reads a sum.
fn asks_sum(parts: &[Part<'_>], ask: &Ask) -> bool {
    match ask {
        Ask::Leaf { component, .. } => match parts.get(*component as usize) {
            Some(part) => matches!(part.form, Form::Tally | Form::Tallies),
            None => false,
        },
        Ask::Arg(_) | Ask::Const(_) => false,
        Ask::Not(inner) => asks_sum(parts, inner),
        Ask::And(left, right)
        | Ask::Or(left, right)
        | Ask::Less(left, right)
        | Ask::Plus(left, right)
        | Ask::Minus(left, right) => asks_sum(parts, left) || asks_sum(parts, right),
    }
}

/// Appends the pieces that are used.
pub(crate) fn push_pieces(
    printer: &Printer<'_, '_>,
    uses: &Uses,
    page: &mut Page,
) -> Result<(), AllocError> {
    match printer.language.family() {
        Family::TypeScript => push_typescript_pieces(printer, uses, page),
        Family::Python => push_python_pieces(printer, uses, page),
        Family::Rust => push_rust_pieces(printer, uses, page),
        Family::Go => push_go_pieces(printer, uses, page),
    }
}

/// Appends a piece, if it is used.
fn put_piece(
    printer: &Printer<'_, '_>,
    is_used: bool,
    piece: &str,
    page: &mut Page,
) -> Result<(), AllocError> {
    if !is_used {
        return Ok(());
    }
    let words = [printer.names.error.as_str(), printer.module.word.as_str()];
    page.fill(piece, &words)
}

fn push_typescript_pieces(
    printer: &Printer<'_, '_>,
    uses: &Uses,
    page: &mut Page,
) -> Result<(), AllocError> {
    put_piece(printer, true, typescript_pieces::ERROR, page)?;
    put_piece(printer, true, typescript_pieces::PROBLEM, page)?;
    put_piece(printer, true, typescript_pieces::REFUSAL, page)?;
    put_piece(printer, true, typescript_pieces::READER, page)?;
    put_piece(printer, uses.names, typescript_pieces::CHECK_NAME, page)?;
    put_piece(printer, uses.flags, typescript_pieces::CHECK_FLAG, page)?;
    put_piece(
        printer,
        uses.naturals || uses.integers,
        typescript_pieces::CHECK_NUMBER,
        page,
    )?;
    put_piece(printer, uses.operations, typescript_pieces::NEXT_TIME, page)?;
    put_piece(printer, uses.operations, typescript_pieces::NOTE_TIME, page)?;
    push_typescript_sums(printer, uses, page)?;
    push_typescript_texts(printer, uses, page)?;
    put_piece(printer, true, typescript_pieces::KEY, page)?;
    put_piece(
        printer,
        uses.naturals || uses.integers,
        typescript_pieces::LARGEST,
        page,
    )?;
    put_piece(printer, true, typescript_pieces::LATEST, page)?;
    put_piece(printer, true, typescript_pieces::LIMIT, page)
}

/// Those for sums.
fn push_typescript_sums(
    printer: &Printer<'_, '_>,
    uses: &Uses,
    page: &mut Page,
) -> Result<(), AllocError> {
    put_piece(printer, uses.growth, typescript_pieces::GROWN, page)?;
    put_piece(printer, uses.totals, typescript_pieces::TOTAL, page)?;
    put_piece(printer, true, typescript_pieces::RAISE_SUMS, page)?;
    put_piece(printer, true, typescript_pieces::SUMS_BEYOND, page)?;
    put_piece(printer, uses.keyed_sums, typescript_pieces::SUMS_AT, page)
}

/// Those that write and read states with keys.
fn push_typescript_texts(
    printer: &Printer<'_, '_>,
    uses: &Uses,
    page: &mut Page,
) -> Result<(), AllocError> {
    put_piece(printer, uses.sets, typescript_pieces::KEYS_TEXT, page)?;
    put_piece(printer, true, typescript_pieces::ENTRIES_TEXT, page)?;
    put_piece(printer, true, typescript_pieces::SUMS_TEXT, page)?;
    put_piece(printer, true, typescript_pieces::ASCENDING, page)?;
    put_piece(printer, true, typescript_pieces::KEY_TEXT, page)?;
    put_piece(printer, true, typescript_pieces::READ_SUMS, page)?;
    put_piece(printer, true, typescript_pieces::SUMS, page)?;
    put_piece(printer, true, typescript_pieces::MARKS, page)
}

fn push_python_pieces(
    printer: &Printer<'_, '_>,
    uses: &Uses,
    page: &mut Page,
) -> Result<(), AllocError> {
    put_piece(printer, true, python_pieces::ERROR, page)?;
    put_piece(printer, uses.names, python_pieces::CHECK_NAME, page)?;
    put_piece(printer, uses.flags, python_pieces::CHECK_FLAG, page)?;
    put_piece(
        printer,
        uses.naturals || uses.integers,
        python_pieces::CHECK_NUMBER,
        page,
    )?;
    put_piece(printer, uses.operations, python_pieces::NEXT_TIME, page)?;
    put_piece(printer, uses.operations, python_pieces::NOTE_TIME, page)?;
    put_piece(printer, uses.growth, python_pieces::GROWN, page)?;
    put_piece(printer, true, python_pieces::RAISE_SUMS, page)?;
    put_piece(printer, true, python_pieces::SUMS_BEYOND, page)?;
    push_python_readers(printer, uses, page)
}

/// Those that read states.
fn push_python_readers(
    printer: &Printer<'_, '_>,
    uses: &Uses,
    page: &mut Page,
) -> Result<(), AllocError> {
    put_piece(printer, true, python_pieces::BAD_STATE, page)?;
    put_piece(printer, true, python_pieces::WHOLE, page)?;
    put_piece(printer, true, python_pieces::FILE, page)?;
    put_piece(printer, true, python_pieces::ITEMS, page)?;
    put_piece(printer, true, python_pieces::BETWEEN, page)?;
    put_piece(printer, uses.read_numbers, python_pieces::NUMBER, page)?;
    put_piece(printer, uses.read_naturals, python_pieces::NATURAL, page)?;
    put_piece(printer, uses.read_names, python_pieces::NAME, page)?;
    put_piece(printer, uses.read_flags, python_pieces::FLAG, page)?;
    put_piece(printer, true, python_pieces::KEY, page)?;
    put_piece(printer, true, python_pieces::ASCENDING, page)?;
    put_piece(printer, true, python_pieces::ENTRIES, page)?;
    put_piece(printer, true, python_pieces::SUMS, page)?;
    put_piece(printer, true, python_pieces::MARKS, page)
}

fn push_rust_pieces(
    printer: &Printer<'_, '_>,
    uses: &Uses,
    page: &mut Page,
) -> Result<(), AllocError> {
    let has_names = uses.names || uses.read_names;
    let has_numbers = uses.naturals || uses.integers;
    put_piece(printer, true, rust_pieces::ERROR, page)?;
    put_piece(printer, uses.names, rust_pieces::CHECK_NAME, page)?;
    put_piece(printer, has_names, rust_pieces::IS_NAME, page)?;
    put_piece(printer, uses.naturals, rust_pieces::CHECK_NATURAL, page)?;
    put_piece(printer, uses.integers, rust_pieces::CHECK_INTEGER, page)?;
    put_piece(printer, uses.operations, rust_pieces::NEXT_TIME, page)?;
    put_piece(printer, uses.operations, rust_pieces::NOTE_TIME, page)?;
    put_piece(printer, uses.pairs, rust_pieces::PICK, page)?;
    put_piece(printer, true, rust_pieces::SUMS, page)?;
    put_piece(printer, true, rust_pieces::MARKS, page)?;
    put_piece(printer, uses.growth, rust_pieces::GROWN, page)?;
    put_piece(printer, uses.totals, rust_pieces::TOTAL, page)?;
    put_piece(printer, uses.sets, rust_pieces::KEYS_TEXT, page)?;
    put_piece(printer, uses.has_maps(), rust_pieces::ENTRIES_TEXT, page)?;
    push_rust_readers(printer, uses, page)?;
    put_piece(printer, has_numbers, rust_pieces::LARGEST, page)?;
    put_piece(printer, true, rust_pieces::LATEST, page)?;
    put_piece(printer, true, rust_pieces::LIMIT, page)
}

/// Those that read states.
fn push_rust_readers(
    printer: &Printer<'_, '_>,
    uses: &Uses,
    page: &mut Page,
) -> Result<(), AllocError> {
    put_piece(printer, true, rust_pieces::READER, page)?;
    put_piece(printer, uses.wide_leaves, rust_pieces::READ_WIDE, page)?;
    put_piece(printer, uses.read_naturals, rust_pieces::READ_NATURAL, page)?;
    put_piece(printer, uses.read_names, rust_pieces::READ_NAME, page)?;
    put_piece(printer, uses.read_flags, rust_pieces::READ_FLAG, page)?;
    put_piece(printer, true, rust_pieces::READ_KEYS, page)?;
    put_piece(printer, true, rust_pieces::READ_ENTRIES, page)?;
    put_piece(printer, true, rust_pieces::READ_SUMS, page)?;
    page.put("}\n")
}

fn push_go_pieces(
    printer: &Printer<'_, '_>,
    uses: &Uses,
    page: &mut Page,
) -> Result<(), AllocError> {
    let has_names = uses.names || uses.read_names;
    let has_numbers = uses.naturals || uses.integers;
    put_piece(printer, true, go_pieces::ERRORS, page)?;
    put_piece(printer, has_numbers, go_pieces::LARGEST, page)?;
    put_piece(printer, true, go_pieces::LATEST, page)?;
    put_piece(printer, true, go_pieces::LIMIT, page)?;
    put_piece(printer, uses.names, go_pieces::CHECK_NAME, page)?;
    put_piece(printer, has_names, go_pieces::IS_NAME, page)?;
    put_piece(printer, has_numbers, go_pieces::CHECK_NUMBER, page)?;
    put_piece(printer, uses.operations, go_pieces::NEXT_TIME, page)?;
    put_piece(printer, uses.signs, go_pieces::AT_LEAST, page)?;
    put_piece(printer, uses.pairs, go_pieces::PICK, page)?;
    put_piece(printer, uses.starts, go_pieces::VALUE_AT, page)?;
    put_piece(printer, true, go_pieces::SUMS, page)?;
    put_piece(printer, true, go_pieces::MARKS, page)?;
    put_piece(printer, uses.growth, go_pieces::GROWN, page)?;
    put_piece(printer, uses.totals, go_pieces::TOTAL, page)?;
    put_piece(printer, uses.wides, go_pieces::WIDE, page)?;
    put_piece(printer, uses.sets, go_pieces::KEYS_TEXT, page)?;
    put_piece(printer, uses.has_maps(), go_pieces::ENTRIES_TEXT, page)?;
    put_piece(printer, uses.has_keys(), go_pieces::ASCENDING, page)?;
    push_go_readers(printer, uses, page)
}

/// Those that read states.
fn push_go_readers(
    printer: &Printer<'_, '_>,
    uses: &Uses,
    page: &mut Page,
) -> Result<(), AllocError> {
    put_piece(printer, true, go_pieces::READER, page)?;
    put_piece(printer, uses.wide_leaves, go_pieces::READ_WIDE, page)?;
    put_piece(printer, uses.read_naturals, go_pieces::NATURAL, page)?;
    put_piece(printer, uses.read_names, go_pieces::NAME, page)?;
    put_piece(printer, uses.read_flags, go_pieces::FLAG, page)?;
    put_piece(printer, true, go_pieces::AMOUNTS, page)?;
    put_piece(printer, true, go_pieces::READ_KEYS, page)?;
    put_piece(printer, true, go_pieces::READ_ENTRIES, page)
}
