//! TypeScript, and JavaScript, which is what isn't between two `~`.
use crate::forms::Form;

/// The forms.
pub(crate) fn typescript_form(form: Form) -> &'static str {
    match form {
        Form::Own => "$0.#$1",
        Form::Held | Form::HeldZero => "$0.get($1) ?? $2",
        Form::Replica => "BigInt(this.#replica)",
        Form::Above => "$0 > 0n ? $0 : 0n",
        Form::Below => "$0 < 0n ? -$0 : 0n",
        Form::Lacks | Form::IsLess | Form::Joined => "$2($0, $1)",
        Form::Less => "$0 < $1",
        Form::IsFalse => "!$0",
        Form::IsOnlySecond => "!$0 && $1",
        Form::Member => "$0.$1",
        Form::Has => "$0.has($1)",
        Form::Total => "total($0)",
        Form::TotalAt => "total($0.get($1))",
        Form::CheckName => "checkName(\"$0\", $1);",
        Form::CheckFlag => "checkFlag(\"$0\", $1);",
        Form::CheckNatural => "checkNumber(\"$0\", $1, 0n);",
        Form::CheckInteger => "checkNumber(\"$0\", $1, -LARGEST);",
        Form::Checked | Form::Unread | Form::Place | Form::ChangedNothing => "",
        Form::Tick => "const time = nextTime(this.#clock);",
        Form::Tock => "this.#clock = time;\nnoteTime(this.#marks, this.#replica, time);",
        Form::Grow => "const $1 = grown($0.get(this.#replica), $2);",
        Form::GrowAt => "const $1 = grown($0.get($3)?.get(this.#replica), $2);",
        Form::Keep => "if ($1 > 0n) $0.set(this.#replica, $1);",
        Form::KeepAt => "if ($1 > 0n) sumsAt($0, $2).set(this.#replica, $1);",
        Form::RecordOpen => "const $0~: $1~ = { ",
        Form::RecordClose => " };",
        Form::Let => "const $0 = $1;",
        Form::PutCell => "if ($1) $0 = $2;",
        Form::PutTable => "if ($1) $0.set($3, $2);",
        Form::Insert => "$0.add($1);",
        Form::Return => "return $0;",
        Form::MergeClock => {
            "if (other.#clock > this.#clock) this.#clock = other.#clock;
this.#marks = joinedMarks(this.#marks, other.#marks);"
        }
        Form::MergeOpen => "const changed = new $0();",
        Form::MergeCell => "if ($2) {\n  $0 = $3;\n  changed.$4 = true;\n}",
        Form::MergeTable => {
            "for (const [$5, $6] of $1) {
  if ($2) {
    $0.set($5, $3);
    changed.$4.push($5);
  }
}"
        }
        Form::MergeSet => {
            "for (const $5 of $1) {
  if (!$0.has($5)) {
    $0.add($5);
    changed.$4.push($5);
  }
}"
        }
        Form::MergeTally => "changed.$4 = raiseSums($0, $1);",
        Form::MergeTallies => {
            "for (const [$5, $6] of $1) {
  if (raiseSums(sumsAt($0, $5), $6)) changed.$4.push($5);
}"
        }
        Form::ChangedValue => "changed.$0",
        Form::ChangedKeys => "changed.$0.length > 0",
        Form::MergeClose => "changed.any = $0;",
        Form::LackCell => "if ($3) $2 = $4;",
        Form::LackTable => "for (const [$5, $6] of $0) {\n  if ($3) $2.set($5, $4);\n}",
        Form::LackSet => "for (const $5 of $0) if (!$1.has($5)) $2.add($5);",
        Form::LackTally => "$2 = sumsBeyond($0, $1);",
        Form::LackTallies => {
            "for (const [$5, $6] of $0) {
  const more = sumsBeyond($6, $1.get($5));
  if (more.size > 0) $2.set($5, more);
}"
        }
        Form::CopyCell => "$1 = $0;",
        Form::CopyTable | Form::CopyTally => "$1 = new Map($0);",
        Form::CopySet => "$1 = new Set($0);",
        Form::CopyTallies => "for (const [key, value] of $0) $1.set(key, new Map(value));",
        Form::Keys => "return ascending($0.keys());",
        Form::HeadOpen => "$0(",
        Form::Param => "$0~: $1~",
        Form::HeadEnd => ")~: $0~",
        Form::WriteSet => "keysText($0)",
        Form::WriteTally => "sumsText($0)",
        Form::WriteTallies => "entriesText($0, sumsText)",
    }
}

/// Words that name nothing in any scope.
pub(crate) const KEYWORDS: &[&str] = &[
    "arguments",
    "await",
    "break",
    "case",
    "catch",
    "class",
    "const",
    "continue",
    "debugger",
    "default",
    "delete",
    "do",
    "else",
    "enum",
    "eval",
    "export",
    "extends",
    "false",
    "finally",
    "for",
    "function",
    "if",
    "implements",
    "import",
    "in",
    "instanceof",
    "interface",
    "let",
    "new",
    "null",
    "package",
    "private",
    "protected",
    "public",
    "return",
    "static",
    "super",
    "switch",
    "this",
    "throw",
    "true",
    "try",
    "typeof",
    "undefined",
    "var",
    "void",
    "while",
    "with",
    "yield",
    "async",
    "of",
    "get",
    "set",
];

/// Words that members use for what is theirs.
pub(crate) const LOCALS: &[&str] = &[
    "time", "key", "value", "other", "known", "it", "reader", "part", "parts", "text", "more",
    "changed",
];

/// Words that no part can have as its field.
pub(crate) const FIELDS: &[&str] = &["clock", "replica", "marks"];

/// Words that no operation or query can have as its method's name.
pub(crate) const MEMBERS: &[&str] = &[
    "constructor",
    "merge",
    "difference",
    "state",
    "clock",
    "replica",
    "clone",
    "equals",
    "then",
    "toJSON",
    "toString",
    "valueOf",
    "prototype",
    "fromState",
    "marks",
    "share",
    "fromShare",
    "packet",
    "mergePacket",
    "hasOwnProperty",
];

/// Words of the file around the class.
pub(crate) const GLOBALS: &[&str] = &[
    "Map",
    "Set",
    "BigInt",
    "Error",
    "Number",
    "Reader",
    "RegExp",
    "String",
    "Array",
    "Iterable",
    "Sums",
    "Object",
    "Symbol",
    "checkName",
    "checkNumber",
    "checkFlag",
    "nextTime",
    "grown",
    "total",
    "raiseSums",
    "sumsAt",
    "sumsBeyond",
    "keysText",
    "entriesText",
    "sumsText",
    "keyText",
    "ascending",
    "readSums",
    "refusal",
    "noteTime",
    "joinedMarks",
    "knownMarks",
    "marksText",
    "readMarks",
    "firstLine",
    "Infinity",
    "NaN",
    "undefined",
    "globalThis",
    "Key",
    "Problem",
    "Promise",
    "Function",
    "JSON",
    "Math",
    "Date",
    "Record",
    "Boolean",
    "Proxy",
    "LARGEST",
    "LATEST",
    "LIMIT",
];

/// Words that no leaf can have.
pub(crate) const LEAVES: &[&str] = &["__proto__"];

/// Words that no part can have as its field of what has changed.
pub(crate) const CHANGES: &[&str] = &["any", "constructor", "__proto__"];

/// Words that members with loops use for what else is theirs.
pub(crate) const LOOPS: &[&str] = &["other", "known", "it", "reader", "more", "changed", "marks"];
