//! Rust.
use crate::forms::Form;

/// The forms.
pub(crate) fn rust_form(form: Form) -> &'static str {
    match form {
        Form::Own | Form::Member => "$0.$1",
        Form::Held | Form::HeldZero => "$0.get($1).unwrap_or(&$2)",
        Form::Replica => "i64::from(self.replica)",
        Form::Above => "$0.max(0)",
        Form::Below => "(-$0).max(0)",
        Form::Lacks | Form::Joined => "$2($0, $1)",
        Form::IsLess | Form::Less => "$0 < $1",
        Form::IsFalse => "!$0",
        Form::IsOnlySecond => "!$0 && $1",
        Form::Has => "$0.contains($1)",
        Form::Total => "total(&$0)",
        Form::TotalAt => "$0.get($1).map_or(0, total)",
        Form::CheckName => "check_name(\"$0\", $1)?;",
        Form::CheckNatural => "check_natural(\"$0\", $1)?;",
        Form::CheckInteger => "check_integer(\"$0\", $1)?;",
        Form::Checked => "let $0 = ",
        Form::Unread => "let _ = $0;",
        Form::CheckFlag | Form::ChangedNothing => "",
        Form::Tick => "let time = next_time(self.clock)?;",
        Form::Tock => {
            "self.clock = time;
note_time(&mut self.marks, self.replica, time);
Ok(())"
        }
        Form::Place => "let own = usize::from(self.replica) - 1;",
        Form::Grow => "let $1 = grown($0[own], $2)?;",
        Form::GrowAt => "let $1 = grown($0.get($3).map_or(0, |sums| sums[own]), $2)?;",
        Form::Keep => "$0[own] = $1;",
        Form::KeepAt => "if $1 > 0 {\n    $0.entry($2).or_insert([0; 32])[own] = $1;\n}",
        Form::RecordOpen => "let $0 = $1 { ",
        Form::RecordClose => " };",
        Form::Let => "let $0 = $1;",
        Form::PutCell => "if $1 {\n    $0 = $2;\n}",
        Form::PutTable => "if $1 {\n    $0.insert($3, $2);\n}",
        Form::Insert => "if !$0.contains($1) {\n    $0.insert($2);\n}",
        Form::Return => "$0",
        Form::MergeClock => {
            "self.clock = self.clock.max(other.clock);
self.marks = joined_marks(self.marks, other.marks);"
        }
        Form::MergeOpen => "let mut changed = $0::default();",
        Form::MergeCell => "if $2 {\n    $0 = $3;\n    changed.$4 = true;\n}",
        Form::MergeTable => {
            "for ($5, $6) in &$1 {
    if $2 {
        $0.insert($5.to_owned(), $3);
        changed.$4.push($5.to_owned());
    }
}"
        }
        Form::MergeSet => {
            "for $5 in &$1 {
    if !$0.contains($5) {
        $0.insert($5.to_owned());
        changed.$4.push($5.to_owned());
    }
}"
        }
        Form::MergeTally => "changed.$4 = raise_sums(&mut $0, &$1);",
        Form::MergeTallies => {
            "for ($5, $6) in &$1 {
    if raise_sums($0.entry($5.to_owned()).or_insert([0; 32]), $6) {
        changed.$4.push($5.to_owned());
    }
}"
        }
        Form::ChangedValue => "changed.$0",
        Form::ChangedKeys => "!changed.$0.is_empty()",
        Form::MergeClose => "changed.any = $0;",
        Form::LackCell => "if $3 {\n    $2 = $4;\n}",
        Form::LackTable => {
            "for ($5, $6) in &$0 {
    if $3 {
        $2.insert($5.to_owned(), $4);
    }
}"
        }
        Form::LackSet => "$2 = $0.difference(&$1).cloned().collect();",
        Form::LackTally => "$2 = sums_beyond(&$0, &$1);",
        Form::LackTallies => {
            "for ($5, $6) in &$0 {
    let more = sums_beyond($6, $1.get($5).unwrap_or(&[0; 32]));
    if more != [0; 32] {
        $2.insert($5.to_owned(), more);
    }
}"
        }
        Form::CopyCell | Form::CopyTable | Form::CopySet | Form::CopyTally | Form::CopyTallies =>
            "",
        Form::Keys => "$0.$1",
        Form::HeadOpen => "pub fn $0(&$2self",
        Form::Param => ", $0: $1",
        Form::HeadEnd => ") -> $0",
        Form::WriteSet => "keys_text(&$0)",
        Form::WriteTally => "sums_text(&$0)",
        Form::WriteTallies => "entries_text(&$0, sums_text)",
    }
}

/// Words that name nothing in any scope.
pub(crate) const KEYWORDS: &[&str] = &[
    "as", "async", "await", "break", "const", "continue", "crate", "dyn", "else", "enum", "extern",
    "false", "fn", "for", "if", "impl", "in", "let", "loop", "match", "mod", "move", "mut", "pub",
    "ref", "return", "self", "Self", "static", "struct", "super", "trait", "true", "type",
    "unsafe", "use", "where", "while", "abstract", "become", "box", "do", "final", "macro",
    "override", "priv", "typeof", "unsized", "virtual", "yield", "try", "gen", "union", "_",
];

/// Words that members use for what is theirs.
pub(crate) const LOCALS: &[&str] = &[
    "time", "key", "value", "other", "known", "it", "text", "parts", "sums", "clock", "replica",
    "more", "own", "reader", "changed", "mark", "first", "next", "before",
];

/// Words that no part can have as its field.
pub(crate) const FIELDS: &[&str] = &["clock", "replica", "marks"];

/// Words that no operation or query can have as its method's name.
pub(crate) const MEMBERS: &[&str] = &[
    "merge",
    "difference",
    "state",
    "from_state",
    "marks",
    "share",
    "from_share",
    "packet",
    "merge_packet",
    "clock",
    "replica",
    "new",
    "fresh",
    "clone",
    "clone_from",
    "eq",
    "ne",
    "fmt",
    "borrow",
    "borrow_mut",
    "to_owned",
    "to_string",
    "into",
    "try_into",
    "from",
    "try_from",
    "type_id",
    "as_ref",
    "cmp",
    "deref",
    "index",
    "next",
];

/// Words of the file around the class.
pub(crate) const GLOBALS: &[&str] = &[
    "BTreeMap",
    "BTreeSet",
    "Reader",
    "Sums",
    "String",
    "Vec",
    "Option",
    "Result",
    "Some",
    "None",
    "Ok",
    "Err",
    "Fn",
    "FnMut",
    "FnOnce",
    "Ord",
    "Clone",
    "PartialOrd",
    "PartialEq",
    "Eq",
    "Debug",
    "ToOwned",
    "ToString",
    "Copy",
    "Default",
    "Drop",
    "Sized",
    "Send",
    "Sync",
    "Iterator",
    "IntoIterator",
    "DoubleEndedIterator",
    "ExactSizeIterator",
    "From",
    "Into",
    "TryFrom",
    "TryInto",
    "FromIterator",
    "AsRef",
    "AsMut",
    "Extend",
    "Box",
    "Unpin",
    "check_name",
    "is_name",
    "check_natural",
    "check_integer",
    "next_time",
    "grown",
    "total",
    "raise_sums",
    "sums_beyond",
    "keys_text",
    "entries_text",
    "sums_text",
    "note_time",
    "joined_marks",
    "marks_text",
    "read_marks",
    "first_line",
    "pick",
    "drop",
    "fmt",
    "std",
    "core",
    "alloc",
    "str",
    "bool",
    "char",
    "i8",
    "i16",
    "i32",
    "i64",
    "i128",
    "isize",
    "u8",
    "u16",
    "u32",
    "u64",
    "u128",
    "usize",
    "f32",
    "f64",
    "LARGEST",
    "LATEST",
    "LIMIT",
];

/// Words that no leaf can have.
pub(crate) const LEAVES: &[&str] = &["_"];

/// Words that no part can have as its field of what has changed.
pub(crate) const CHANGES: &[&str] = &["any"];

/// Words that members with loops use for what else is theirs.
pub(crate) const LOOPS: &[&str] = &["other", "known", "it", "reader", "more", "changed", "sums"];
