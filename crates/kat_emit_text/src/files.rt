//! The file of code.
use crate::classes::push_class;
use crate::pieces::{Uses, push_pieces, uses_of};
use kat_design::Design;
use kat_emit::{Case, module_of, push_cased};
use kat_emit_members::{push_changes, push_records};
use kat_emit_words::{Family, Language, Page, Printer, names_of, put_marked};
use kat_relation::Relation;
use kat_type::SeqType;
use std::alloc::{AllocError, Global};

/// What is proved of the design.
const PROVED: &str =
    "Proved of the design: it answers each query as the type does, after the operations that reached the replica, in every order that respects their ranks, whatever states come late, twice, in another order or never.";

/// What isn't.
const NOT_PROVED: &str = "Not proved: that this code does what the design says.";

/// What its user has to see to.
const CONDITIONS: &str =
    "It holds if no two replicas ever have the same number, each replica goes on from its newest state, and `merge` is only given replicas of this type.";

/// What is before the classes of a file of Python.
const PYTHON_HEAD: &str = "
from __future__ import annotations

import json
import re
from dataclasses import dataclass$0
from typing import Any, Callable, Iterator, NamedTuple, TypeVar

_LARGEST = 10**12  # of an argument
_LATEST = 10**9  # of a clock
_LIMIT = 10**18  # of a replica's sum
";

/// Words that name no package: those of Go and Rust, and what Python and its tests import.
const PACKAGES: &str =
    "break case chan const continue default defer else fallthrough for func go goto if import interface map package range return select struct switch type var main internal testing builtin init errors fmt math bits sort strconv strings as async await crate dyn enum extern false fn impl in let loop match mod move mut pub ref self static super trait true unsafe use where while abstract become box do final macro override priv typeof unsized virtual yield try gen union test std core alloc proc abc argparse ast asyncio atexit base64 bisect builtins calendar code codecs collections contextlib copy csv dataclasses datetime decimal difflib dis email enum errno faulthandler fnmatch functools gc gettext glob hashlib heapq html http importlib inspect io itertools json keyword linecache locale logging marshal numbers opcode operator os pathlib pickle platform posix pprint pwd queue random re reprlib shutil signal site socket statistics string subprocess sys sysconfig tempfile textwrap threading time token tokenize traceback types typing unittest urllib uuid warnings weakref zipfile zlib and assert class def del elif except finally from global is lambda nonlocal not or pass raise with none false";

/// A file of source code: a class that is a replica of the design, whose words are those of the type and of its relation to the design,
/// with what the comments of the type's text say. The design is one that is accepted for the type.
pub fn emitted<'a>(
    alloc: Global,
    language: Language,
    text: &str,
    ty: &'a SeqType,
    design: &'a Design,
    relation: &Relation,
) -> Result<String, AllocError> {
    let module = module_of(alloc, text, ty, design, relation)?;
    let names = names_of(alloc, language, &module)?;
    file_text(&Printer {
        alloc,
        language,
        module: &module,
        names: &names,
    })
}

/// The file of a module with its names.
pub fn file_text(printer: &Printer<'_, '_>) -> Result<String, AllocError> {
    let mut page = printer.page();
    push_file(printer, &mut page)?;
    Ok(page.into_text())
}

/// Appends the file.
fn push_file(printer: &Printer<'_, '_>, page: &mut Page) -> Result<(), AllocError> {
    push_head(printer, page)?;
    let uses = uses_of(printer)?;
    match printer.language.family() {
        Family::TypeScript => {}
        Family::Python => push_python_imports(printer, page)?,
        Family::Rust => push_rust_imports(&uses, page)?,
        Family::Go => push_go_imports(printer, &uses, page)?,
    }
    if printer.language.is_python() {
        push_records(printer, page)?;
        push_changes(printer, page)?;
        push_class(printer, page)?;
    } else {
        push_class(printer, page)?;
        push_changes(printer, page)?;
        push_records(printer, page)?;
    }
    push_pieces(printer, &uses, page)
}

/// Appends where the file is from, and what is proved of it.
pub fn push_head(printer: &Printer<'_, '_>, page: &mut Page) -> Result<(), AllocError> {
    let words = [printer.module.word.as_str()];
    let origin = printer.filled_text(
        "Written by `katara emit` from the type $0 and a design of it; write it anew rather than change it.",
        &words,
    )?;
    let mark = match printer.language.family() {
        Family::TypeScript | Family::Go => "// ",
        Family::Python => "# ",
        Family::Rust => "//! ",
    };
    put_marked(mark, origin.as_str(), page)?;
    page.put(mark.trim_end())?;
    page.put("\n")?;
    put_marked(mark, PROVED, page)?;
    put_marked(mark, NOT_PROVED, page)?;
    put_marked(mark, CONDITIONS, page)
}

/// Appends what a file of Python begins with.
fn push_python_imports(printer: &Printer<'_, '_>, page: &mut Page) -> Result<(), AllocError> {
    let has_keys = printer.module.parts.iter().any(|part| part.key.is_some());
    let fields = if has_keys { ", field" } else { "" };
    page.fill(PYTHON_HEAD, &[fields])
}

/// Appends what a file of Rust begins with.
fn push_rust_imports(uses: &Uses, page: &mut Page) -> Result<(), AllocError> {
    page.put("\n#![forbid(unsafe_code)]\n\n")?;
    page.put(if uses.has_maps() {
        "use std::collections::BTreeMap;\n"
    } else {
        ""
    })?;
    page.put(if uses.sets {
        "use std::collections::BTreeSet;\n"
    } else {
        ""
    })?;
    page.put("use std::fmt;\n")
}

/// Appends what a file of Go begins with.
fn push_go_imports(
    printer: &Printer<'_, '_>,
    uses: &Uses,
    page: &mut Page,
) -> Result<(), AllocError> {
    let package = package_name(printer)?;
    page.fill(
        "\npackage $0\n\nimport (\n\t\"errors\"\n\t\"fmt\"\n",
        &[package.as_str()],
    )?;
    page.put(if uses.read_naturals {
        "\t\"math\"\n"
    } else {
        ""
    })?;
    page.put(if uses.wides { "\t\"math/bits\"\n" } else { "" })?;
    page.put(if uses.has_keys() { "\t\"sort\"\n" } else { "" })?;
    page.put("\t\"strconv\"\n\t\"strings\"\n)\n")
}

/// The name of a file of code without its extension, and of a crate of Rust: the type's word in small letters, followed by `_type` if it
/// is kept.
pub fn file_name(printer: &Printer<'_, '_>) -> Result<String, AllocError> {
    let mut name = String::new(printer.alloc);
    let word = printer.module.word.as_str();
    push_cased(printer.alloc, Case::Snake, word, &mut name)?;
    if is_kept_package(name.as_str()) {
        name.push_str("_type")?;
    }
    Ok(name)
}

/// The name of a package of Go: the same without `_`.
pub fn package_name(printer: &Printer<'_, '_>) -> Result<String, AllocError> {
    let file = file_name(printer)?;
    let mut name = String::new(printer.alloc);
    for letter in file.chars() {
        if letter != '_' {
            name.push(letter)?;
        }
    }
    Ok(name)
}

/// Whether no package can be called so.
fn is_kept_package(name: &str) -> bool {
    for kept in PACKAGES.split(' ') {
        if kept == name {
            return true;
        }
    }
    false
}
