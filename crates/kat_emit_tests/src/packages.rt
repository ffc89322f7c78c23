//! A package: all its files in a text.
ghost use Rattle.kat_design.specs.Designs.{design_form};
ghost use Rattle.kat_design.specs.Sorted.{IsWellSorted};
ghost use Rattle.kat_script.specs.Rules.{HasFewCalls};

use crate::declarations::declarations_text;
use crate::dice::Dice;
use crate::forms::forms_of;
use crate::goldens::{Golden, drawn_golden};
use crate::refusals::push_refusals;
use crate::steps::push_script;
use kat_design::Design;
use kat_emit::module_of;
use kat_emit_text::{file_name, file_text, package_name, push_head};
use kat_emit_words::{Language, Page, Printer, names_of};
use kat_relation::Relation;
use kat_type::SeqType;
use std::alloc::{AllocError, Global};

/// How many scripts are drawn.
const SCRIPTS: usize = 3;

/// A package of files: the code of a class that is a replica of the design, its tests, and what the language's own tool wants. Each file
/// comes after a line `==> NAME <==`; no file has such a line.
pub fn package(
    alloc: Global,
    language: Language,
    text: &str,
    ty: &SeqType,
    design: &Design,
    relation: &Relation,
) -> Result<String, AllocError>
    requires sorted { IsWellSorted (design_form design.now) }
    requires few { HasFewCalls design.now.sig }
{
    let module = module_of(alloc, text, ty, design, relation)?;
    let names = names_of(alloc, language, &module)?;
    let goldens = goldens_of(alloc, design, module.word.as_str())?;
    let printer = Printer {
        alloc,
        language,
        module: &module,
        names: &names,
    };
    let code = file_text(&printer)?;
    package_text(&printer, code.as_str(), &goldens)
}

/// Scripts that are drawn with a word.
fn goldens_of(alloc: Global, design: &Design, word: &str) -> Result<Vec<Golden>, AllocError>
    requires sorted { IsWellSorted (design_form design.now) }
    requires few { HasFewCalls design.now.sig }
{
    let mut dice = Dice::new(word);
    let mut goldens = Vec::new(alloc);
    for _ in 0..SCRIPTS {
        if let Some(golden) = drawn_golden(alloc, design, &mut dice)? {
            goldens.push(golden)?;
        }
    }
    Ok(goldens)
}

/// The text of the package.
fn package_text(
    printer: &Printer<'_, '_>,
    code: &str,
    goldens: &[Golden],
) -> Result<String, AllocError> {
    let file = file_name(printer)?;
    let package = package_name(printer)?;
    let words = [file.as_str(), package.as_str()];
    let tests = tests_text(printer, file.as_str(), package.as_str(), goldens)?;
    let mut page = printer.page();
    for place in 0..3usize {
        let (name, content) = file_of(printer.language, place);
        push_file_head(name, &words, &mut page)?;
        match content {
            Content::Code => page.put(code)?,
            Content::Tests => page.put(tests.as_str())?,
            Content::Tool => page.fill(tool_text(printer.language), &words)?,
        }
    }
    push_declarations(printer, &words, &mut page)?;
    Ok(page.into_text())
}

/// Appends the line before a file.
fn push_file_head(name: &str, words: &[&str], page: &mut Page) -> Result<(), AllocError> {
    page.put("==> ")?;
    page.fill(name, words)?;
    page.put(" <==\n")
}

/// Appends the file of declarations, which JavaScript has.
fn push_declarations(
    printer: &Printer<'_, '_>,
    words: &[&str],
    page: &mut Page,
) -> Result<(), AllocError> {
    if printer.language != Language::JavaScript {
        return Ok(());
    }
    push_file_head("$0.d.mts", words, page)?;
    page.put(declarations_text(printer)?.as_str())
}

/// What is in a file.
#[derive(Clone, Copy)]
enum Content {
    Code,
    Tests,
    /// What the language's own tool wants.
    Tool,
}

/// A file of a package: its name, with places for the names of the code and of the package, and what is in it.
fn file_of(language: Language, place: usize) -> (&'static str, Content) {
    match place {
        0 => (code_name(language), Content::Code),
        1 => (tests_name(language), Content::Tests),
        _ => (tool_name(language), Content::Tool),
    }
}

fn code_name(language: Language) -> &'static str {
    match language {
        Language::TypeScript => "$0.ts",
        Language::JavaScript => "$0.mjs",
        Language::Python => "$0.py",
        Language::Rust => "src/lib.rs",
        Language::Go => "$1.go",
    }
}

fn tests_name(language: Language) -> &'static str {
    match language {
        Language::TypeScript | Language::JavaScript => "$0.test.mjs",
        Language::Python => "test_$0.py",
        Language::Rust => "tests/golden.rs",
        Language::Go => "$1_test.go",
    }
}

fn tool_name(language: Language) -> &'static str {
    match language {
        Language::TypeScript | Language::JavaScript => "package.json",
        Language::Python => "pyproject.toml",
        Language::Rust => "Cargo.toml",
        Language::Go => "go.mod",
    }
}

fn tool_text(language: Language) -> &'static str {
    match language {
        Language::TypeScript => TYPESCRIPT_PACKAGE,
        Language::JavaScript => JAVASCRIPT_PACKAGE,
        Language::Python => PYTHON_PACKAGE,
        Language::Rust => RUST_PACKAGE,
        Language::Go => GO_PACKAGE,
    }
}

const TYPESCRIPT_PACKAGE: &str = "{
  \"name\": \"$1\",
  \"version\": \"0.1.0\",
  \"type\": \"module\",
  \"exports\": \"./dist/$0.js\",
  \"scripts\": {
    \"build\": \"tsc --strict --declaration --target es2022 --module es2022 --outDir dist $0.ts\",
    \"test\": \"npm run build && node --test\"
  }
}
";

const JAVASCRIPT_PACKAGE: &str = "{
  \"name\": \"$1\",
  \"version\": \"0.1.0\",
  \"type\": \"module\",
  \"types\": \"./$0.d.mts\",
  \"exports\": \"./$0.mjs\",
  \"scripts\": {
    \"test\": \"node --test\"
  }
}
";

const PYTHON_PACKAGE: &str = "[build-system]
requires = [\"setuptools\"]
build-backend = \"setuptools.build_meta\"

[project]
name = \"$1\"
version = \"0.1.0\"
requires-python = \">=3.9\"

[tool.setuptools]
py-modules = [\"$0\"]
";

const RUST_PACKAGE: &str = "[package]
name = \"$0\"
version = \"0.1.0\"
edition = \"2021\"
";

const GO_PACKAGE: &str = "module example.com/$1

go 1.18
";

/// The file of tests.
fn tests_text(
    printer: &Printer<'_, '_>,
    file: &str,
    package: &str,
    goldens: &[Golden],
) -> Result<String, AllocError> {
    let imported = if printer.language.has_types() {
        "dist/$0.js"
    } else {
        "$0.mjs"
    };
    let imported = printer.filled_text(imported, &[file])?;
    let mut page = printer.page();
    push_head(printer, &mut page)?;
    push_tests_head(printer, file, package, imported.as_str(), &mut page)?;
    push_scripts(printer, goldens, &mut page)?;
    Ok(page.into_text())
}

/// Appends what is before all tests.
fn push_tests_head(
    printer: &Printer<'_, '_>,
    file: &str,
    package: &str,
    imported: &str,
    page: &mut Page,
) -> Result<(), AllocError> {
    let words = [
        printer.names.class.as_str(),
        printer.names.error.as_str(),
        file,
        package,
        imported,
    ];
    page.fill(forms_of(printer.language.family()).head, &words)
}

/// Appends the tests of scripts and of refusals.
fn push_scripts(
    printer: &Printer<'_, '_>,
    goldens: &[Golden],
    page: &mut Page,
) -> Result<(), AllocError> {
    let forms = forms_of(printer.language.family());
    for (place, golden) in goldens.iter().enumerate() {
        push_script(printer, &forms, place.saturating_add(1), golden, page)?;
    }
    push_refusals(printer, &forms, page)?;
    page.put(forms.end)
}
