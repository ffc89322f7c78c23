//! The languages.
ghost use Rattle.std.specs.Prelude.{◌≡◌};
ghost use Rattle.kat_emit_words.specs.Kept.{family_of};

/// A language of source code. `JavaScript` is the text of `TypeScript` without its types.
#[derive(Clone, Copy, PartialEq, Eq)]
pub enum Language {
    TypeScript,
    JavaScript,
    Python,
    Rust,
    Go,
}

/// Languages with the same forms.
#[derive(Clone, Copy, PartialEq, Eq)]
pub enum Family {
    TypeScript,
    Python,
    Rust,
    Go,
}

/// The language of a word.
pub fn language_of(word: &str) -> Option<Language> {
    match word {
        "ts" => Some(Language::TypeScript),
        "js" => Some(Language::JavaScript),
        "python" => Some(Language::Python),
        "rust" => Some(Language::Rust),
        "go" => Some(Language::Go),
        _ => None,
    }
}

impl Language {
    /// The languages with the same forms.
    pub fn family(self) -> Family
        ensures { result ≡ family_of self }
    {
        match self {
            Language::TypeScript | Language::JavaScript => Family::TypeScript,
            Language::Python => Family::Python,
            Language::Rust => Family::Rust,
            Language::Go => Family::Go,
        }
    }

    /// Whether it is Python.
    pub fn is_python(self) -> bool {
        matches!(self, Language::Python)
    }

    /// Whether it is Rust.
    pub fn is_rust(self) -> bool {
        matches!(self, Language::Rust)
    }

    /// Whether it is Go.
    pub fn is_go(self) -> bool {
        matches!(self, Language::Go)
    }

    /// Whether what TypeScript alone has is written.
    pub fn has_types(self) -> bool {
        matches!(self, Language::TypeScript)
    }

    /// By how many blanks, or in Go tabs, a block is indented.
    pub fn step(self) -> usize {
        match self.family() {
            Family::TypeScript => 2,
            Family::Python | Family::Rust => 4,
            Family::Go => 1,
        }
    }

    /// With what a line is indented.
    pub(crate) fn pad(self) -> char {
        if self.is_go() { '\t' } else { ' ' }
    }

    /// What begins a line of a comment.
    pub fn mark(self) -> &'static str {
        if self.is_python() { "#" } else { "//" }
    }
}
