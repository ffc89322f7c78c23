//! Go.
use crate::forms::Form;

/// The forms.
pub(crate) fn go_form(form: Form) -> &'static str {
    match form {
        Form::Own | Form::Member => "$0.$1",
        Form::Held => "valueAt($0, $1, $2)",
        Form::HeldZero | Form::Has => "$0[$1]",
        Form::Replica => "int64(r.replica)",
        Form::Above => "atLeast(0, $0)",
        Form::Below => "atLeast(0, -$0)",
        Form::Lacks | Form::IsLess | Form::Joined => "$2($0, $1)",
        Form::Less => "$0 < $1",
        Form::IsFalse => "!$0",
        Form::IsOnlySecond => "!$0 && $1",
        Form::Total => "total($0)",
        Form::TotalAt => "total($0[$1])",
        Form::CheckName => "if err := checkName(\"$0\", $1); err != nil {\n\treturn $2err\n}",
        Form::CheckNatural => {
            "if err := checkNumber(\"$0\", $1, 0); err != nil {\n\treturn $2err\n}"
        }
        Form::CheckInteger => {
            "if err := checkNumber(\"$0\", $1, -largest); err != nil {\n\treturn $2err\n}"
        }
        Form::CheckFlag | Form::Checked | Form::Unread | Form::Place | Form::ChangedNothing => "",
        Form::Tick => "time, err := nextTime(r.clock)\nif err != nil {\n\treturn err\n}",
        Form::Tock => "r.clock = time\nr.marks.note(r.replica, time)\nreturn nil",
        Form::Grow => { "$1, err := grown($0[r.replica-1], $2)\nif err != nil {\n\treturn err\n}" }
        Form::GrowAt => {
            "$1, err := grown($0[$3][r.replica-1], $2)\nif err != nil {\n\treturn err\n}"
        }
        Form::Keep => "$0[r.replica-1] = $1",
        Form::KeepAt => {
            "if $1 > 0 {
\tmine := $0[$2]
\tmine[r.replica-1] = $1
\t$0[$2] = mine
}"
        }
        Form::RecordOpen => "$0 := $1{",
        Form::RecordClose => "}",
        Form::Let => "$0 := $1",
        Form::PutCell => "if $1 {\n\t$0 = $2\n}",
        Form::PutTable => "if $1 {\n\t$0[$3] = $2\n}",
        Form::Insert => "$0[$1] = true",
        Form::Return => "return $0",
        Form::MergeClock => {
            "if other.clock > r.clock {
\tr.clock = other.clock
}
r.marked = r.marked && other.marked
r.marks.raise(&other.marks)"
        }
        Form::MergeOpen => "var changed $0",
        Form::MergeCell => "if $2 {\n\t$0 = $3\n\tchanged.$4 = true\n}",
        Form::MergeTable => {
            "for $5, $6 := range $1 {
\tif $2 {
\t\t$0[$5] = $3
\t\tchanged.$4 = append(changed.$4, $5)
\t}
}"
        }
        Form::MergeSet => {
            "for $5 := range $1 {
\tif !$0[$5] {
\t\t$0[$5] = true
\t\tchanged.$4 = append(changed.$4, $5)
\t}
}"
        }
        Form::MergeTally => "changed.$4 = $0.raise(&$1)",
        Form::MergeTallies => {
            "for $5, $6 := range $1 {
\tmine := $0[$5]
\tif mine.raise(&$6) {
\t\t$0[$5] = mine
\t\tchanged.$4 = append(changed.$4, $5)
\t}
}"
        }
        Form::ChangedValue => "changed.$0",
        Form::ChangedKeys => "len(changed.$0) > 0",
        Form::MergeClose => "changed.Any = $0",
        Form::LackCell => "if $3 {\n\t$2 = $4\n}",
        Form::LackTable => "for $5, $6 := range $0 {\n\tif $3 {\n\t\t$2[$5] = $4\n\t}\n}",
        Form::LackSet => "for $5 := range $0 {\n\tif !$1[$5] {\n\t\t$2[$5] = true\n\t}\n}",
        Form::LackTally => "$2 = $0.beyond(&$1)",
        Form::LackTallies => {
            "for $5, $6 := range $0 {
\ttheirs := $1[$5]
\tif more := $6.beyond(&theirs); more != (sums{}) {
\t\t$2[$5] = more
\t}
}"
        }
        Form::CopyCell | Form::CopyTally => "$1 = $0",
        Form::CopyTable | Form::CopySet | Form::CopyTallies => {
            "for key, value := range $0 {\n\t$1[key] = value\n}"
        }
        Form::Keys => "return ascending($0)",
        Form::HeadOpen => "func (r *$1) $0(",
        Form::Param => "$0 $1",
        Form::HeadEnd => ") $0",
        Form::WriteSet => "keysText($0)",
        Form::WriteTally => "sumsText($0)",
        Form::WriteTallies => "entriesText($0, sumsText)",
    }
}

/// Words that name nothing in any scope.
pub(crate) const KEYWORDS: &[&str] = &[
    "break",
    "case",
    "chan",
    "const",
    "continue",
    "default",
    "defer",
    "else",
    "fallthrough",
    "for",
    "func",
    "go",
    "goto",
    "if",
    "import",
    "interface",
    "map",
    "package",
    "range",
    "return",
    "select",
    "struct",
    "switch",
    "type",
    "var",
    "_",
];

/// Words that members use for what is theirs, and those that each file has.
pub(crate) const LOCALS: &[&str] = &[
    "time",
    "key",
    "value",
    "other",
    "known",
    "it",
    "text",
    "parts",
    "clock",
    "replica",
    "more",
    "r",
    "err",
    "in",
    "v",
    "mine",
    "theirs",
    "changed",
    "all",
    "first",
    "next",
    "before",
    "bool",
    "byte",
    "complex64",
    "complex128",
    "error",
    "float32",
    "float64",
    "int",
    "int8",
    "int16",
    "int32",
    "int64",
    "rune",
    "string",
    "uint",
    "uint8",
    "uint16",
    "uint32",
    "uint64",
    "uintptr",
    "any",
    "comparable",
    "true",
    "false",
    "iota",
    "nil",
    "append",
    "cap",
    "clear",
    "close",
    "complex",
    "copy",
    "delete",
    "imag",
    "len",
    "make",
    "max",
    "min",
    "new",
    "panic",
    "print",
    "println",
    "real",
    "recover",
    "errors",
    "fmt",
    "sort",
    "strings",
    "strconv",
    "math",
    "bits",
    "init",
    "main",
];

/// Words that no part can have as its field.
pub(crate) const FIELDS: &[&str] = &["clock", "replica", "marks", "marked"];

/// Words that no operation or query can have as its method's name.
pub(crate) const MEMBERS: &[&str] = &[
    "Merge",
    "Difference",
    "State",
    "Marks",
    "Share",
    "Packet",
    "MergePacket",
    "Clock",
    "Replica",
    "Clone",
    "Equal",
    "String",
];

/// Words of the file around the class.
pub(crate) const GLOBALS: &[&str] = &[
    "New",
    "FromState",
    "FromShare",
    "ErrReplica",
    "ErrArgument",
    "ErrClock",
    "ErrSum",
    "ErrRange",
    "ErrState",
    "ErrGap",
    "ErrMarks",
    "largest",
    "latest",
    "limit",
    "checkName",
    "isName",
    "checkNumber",
    "nextTime",
    "atLeast",
    "pick",
    "valueAt",
    "sums",
    "grown",
    "total",
    "sumsText",
    "wide",
    "widen",
    "keysText",
    "entriesText",
    "ascending",
    "keyText",
    "reader",
    "readKeys",
    "readEntries",
    "marksText",
    "readMarks",
    "firstLine",
];

/// Words that no leaf can have.
pub(crate) const LEAVES: &[&str] = &["_"];

/// Words that no part can have as its field of what has changed.
pub(crate) const CHANGES: &[&str] = &["Any"];

/// Words that members with loops use for what else is theirs.
pub(crate) const LOOPS: &[&str] = &[
    "other", "known", "it", "in", "more", "mine", "theirs", "changed", "r",
];
