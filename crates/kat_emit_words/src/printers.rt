//! What the writing of each member begins with.
ghost use Rattle.std.specs.Prelude.{◌++◌, IfOk};
ghost use Rattle.std.specs.String.{string_bytes};
ghost use Rattle.kat_emit_words.specs.Kept.{kept};
ghost use Rattle.kat_emit_words.specs.Naming.{IsNew, names_in};

use crate::forms::{Form, form_of};
use crate::kept::Named;
use crate::languages::Language;
use crate::names::{Names, PartNames};
use crate::pages::Page;
use crate::scopes::{Scope, new_name};
use kat_emit::{Module, Part};
use std::alloc::{AllocError, Global};

/// A module, the language in which it is written, and its names there.
#[derive(Clone, Copy)]
pub struct Printer<'a, 'b> {
    pub alloc: Global,
    pub language: Language,
    pub module: &'a Module<'b>,
    pub names: &'a Names,
}

impl<'a, 'b> Printer<'a, 'b> {
    /// The language's form.
    pub fn form(&self, form: Form) -> &'static str {
        form_of(self.language, form)
    }

    /// A form with its words.
    pub fn filled(&self, form: Form, words: &[&str]) -> Result<String, AllocError> {
        let mut page = self.page();
        page.fill(self.form(form), words)?;
        Ok(page.into_text())
    }

    /// A text with its words.
    pub fn filled_text(&self, text: &str, words: &[&str]) -> Result<String, AllocError> {
        let mut page = self.page();
        page.fill(text, words)?;
        Ok(page.into_text())
    }

    /// An empty page.
    pub fn page(&self) -> Page {
        Page::new(self.alloc, self.language)
    }

    /// Appends a form with its words.
    pub fn fill(&self, form: Form, words: &[&str], page: &mut Page) -> Result<(), AllocError> {
        page.fill(self.form(form), words)
    }

    /// Appends a line: a form with its words, unless the form is empty.
    pub fn line(&self, form: Form, words: &[&str], page: &mut Page) -> Result<(), AllocError> {
        if self.form(form).is_empty() {
            return Ok(());
        }
        page.fill(self.form(form), words)?;
        page.put("\n")
    }

    /// The part with a number, and its names.
    pub fn part(&self, place: usize) -> Option<(&'a Part<'b>, &'a PartNames)> {
        match (self.module.parts.get(place), self.names.parts.get(place)) {
            (Some(part), Some(names)) => Some((part, names)),
            _ => None,
        }
    }

    /// A new local name beside these, for a word followed by `more`.
    pub fn local(&self, taken: &[String], word: &str, more: &str) -> Result<String, AllocError>
        ensures { IfOk result (λ name. IsNew (names_in self.now.names.now.top.items ++ kept self.now.language Named.Local) (names_in taken.now) (string_bytes name)) }
    {
        let scope = Scope {
            language: self.language,
            named: Named::Local,
            taken,
            outer: &self.names.top,
        };
        new_name(self.alloc, &scope, word, more)
    }
}

/// The text at a place, or the empty one.
pub fn name_at(texts: &[String], place: usize) -> &str {
    match texts.get(place) {
        Some(text) => text.as_str(),
        None => "",
    }
}
