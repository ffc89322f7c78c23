//! A page: text in lines that are indented, made of forms and words.
use crate::languages::Language;
use std::alloc::{AllocError, Global};

/// A text that is being written.
pub struct Page {
    text: String,
    depth: usize,
    /// With what a line is indented.
    pad: char,
    /// Whether a line begins.
    is_fresh: bool,
    /// Whether what TypeScript alone has is written.
    has_types: bool,
    /// Whether what comes isn't written.
    is_hidden: bool,
}

impl Drop for Page {
    fn drop(self) {
        let Self {
            text: _,
            depth: _,
            pad: _,
            is_fresh: _,
            has_types: _,
            is_hidden: _,
        } = self;
    }
}

impl Page {
    /// An empty page.
    pub fn new(alloc: Global, language: Language) -> Page {
        Page {
            text: String::new(alloc),
            depth: 0,
            pad: language.pad(),
            is_fresh: false,
            has_types: language.has_types(),
            is_hidden: false,
        }
    }

    /// Its text.
    pub fn into_text(self) -> String {
        let Self {
            text,
            depth: _,
            pad: _,
            is_fresh: _,
            has_types: _,
            is_hidden: _,
        } = self;
        text
    }

    /// Lines that begin from now on have so many more blanks, in Go tabs, before them.
    pub fn indent(&mut self, by: usize) {
        self.depth = self.depth.saturating_add(by);
    }

    /// So many fewer.
    pub fn outdent(&mut self, by: usize) {
        self.depth = self.depth.saturating_sub(by);
    }

    /// Appends a text as it is.
    pub fn put(&mut self, text: &str) -> Result<(), AllocError> {
        for letter in text.chars() {
            self.put_letter(letter)?;
        }
        Ok(())
    }

    /// Appends a form with its words: `$0` to `$9` are words, and what is between two `~` is for TypeScript alone.
    pub fn fill(&mut self, form: &str, words: &[&str]) -> Result<(), AllocError> {
        let mut is_word = false;
        for letter in form.chars() {
            if is_word {
                is_word = false;
                self.put_word(letter, words)?;
            } else if letter == '$' {
                is_word = true;
            } else if letter == '~' {
                self.is_hidden = !self.is_hidden && !self.has_types;
            } else {
                self.put_letter(letter)?;
            }
        }
        Ok(())
    }

    /// Appends the word with the number, or the sign `$` and what is no number.
    fn put_word(&mut self, number: char, words: &[&str]) -> Result<(), AllocError> {
        match number.to_digit(10) {
            Some(number) => match words.get(number as usize) {
                Some(word) => self.put(word),
                None => Ok(()),
            },
            None => {
                self.put_letter('$')?;
                self.put_letter(number)
            }
        }
    }

    fn put_letter(&mut self, letter: char) -> Result<(), AllocError> {
        if self.is_hidden {
            return Ok(());
        }
        if letter == '\n' {
            self.is_fresh = true;
        } else if self.is_fresh {
            self.is_fresh = false;
            for _ in 0..self.depth {
                self.text.push(self.pad)?;
            }
        }
        self.text.push(letter)
    }
}
