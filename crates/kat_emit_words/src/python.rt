//! Python.
use crate::forms::Form;

/// The forms.
pub(crate) fn python_form(form: Form) -> &'static str {
    match form {
        Form::Own | Form::Member => "$0.$1",
        Form::Held | Form::HeldZero => "$0.get($1, $2)",
        Form::Replica => "self._replica",
        Form::Above => "max($0, 0)",
        Form::Below => "max(-$0, 0)",
        Form::Lacks | Form::Joined => "$2($0, $1)",
        Form::IsLess | Form::Less => "$0 < $1",
        Form::IsFalse => "not $0",
        Form::IsOnlySecond => "not $0 and $1",
        Form::Has => "$1 in $0",
        Form::Total => "sum($0.values())",
        Form::TotalAt => "sum($0.get($1, {}).values())",
        Form::CheckName => "_check_name(\"$0\", $1)",
        Form::CheckFlag => "_check_flag(\"$0\", $1)",
        Form::CheckNatural => "_check_number(\"$0\", $1, 0)",
        Form::CheckInteger => "_check_number(\"$0\", $1, -_LARGEST)",
        Form::Checked | Form::Unread | Form::Place | Form::ChangedNothing => "",
        Form::Tick => "time = _next_time(self._clock)",
        Form::Tock => "self._clock = time\n_note_time(self._marks, self._replica, time)",
        Form::Grow => "$1 = _grown($0, self._replica, $2)",
        Form::GrowAt => "$1 = _grown($0.get($3, {}), self._replica, $2)",
        Form::Keep => "if $1 > 0:\n    $0[self._replica] = $1",
        Form::KeepAt => "if $1 > 0:\n    $0.setdefault($2, {})[self._replica] = $1",
        Form::RecordOpen => "$0 = $1(",
        Form::RecordClose => ")",
        Form::Let => "$0 = $1",
        Form::PutCell => "if $1:\n    $0 = $2",
        Form::PutTable => "if $1:\n    $0[$3] = $2",
        Form::Insert => "$0.add($1)",
        Form::Return => "return $0",
        Form::MergeClock => {
            "self._clock = max(self._clock, other._clock)
self._marks = _joined_marks(self._marks, other._marks)"
        }
        Form::MergeOpen => "changed = $0()",
        Form::MergeCell => "if $2:\n    $0 = $3\n    changed.$4 = True",
        Form::MergeTable => {
            "for $5, $6 in $1.items():
    if $2:
        $0[$5] = $3
        changed.$4.append($5)"
        }
        Form::MergeSet =>
            "changed.$4 = [key for key in $1 if key not in $0]\n$0.update(changed.$4)",
        Form::MergeTally => "changed.$4 = _raise_sums($0, $1)",
        Form::MergeTallies => {
            "for $5, sums in $1.items():
    if _raise_sums($0.setdefault($5, {}), sums):
        changed.$4.append($5)"
        }
        Form::ChangedValue => "changed.$0",
        Form::ChangedKeys => "bool(changed.$0)",
        Form::MergeClose => "changed.any = $0",
        Form::LackCell => "if $3:\n    $2 = $4",
        Form::LackTable => "for $5, $6 in $0.items():\n    if $3:\n        $2[$5] = $4",
        Form::LackSet => "$2 = $0 - $1",
        Form::LackTally => "$2 = _sums_beyond($0, $1)",
        Form::LackTallies => {
            "for $5, sums in $0.items():
    more = _sums_beyond(sums, $1.get($5, {}))
    if more:
        $2[$5] = more"
        }
        Form::CopyCell => "$1 = $0",
        Form::CopyTable | Form::CopyTally => "$1 = dict($0)",
        Form::CopySet => "$1 = set($0)",
        Form::CopyTallies => "$1 = {key: dict(sums) for key, sums in $0.items()}",
        Form::Keys => "return sorted($0)",
        Form::HeadOpen => "$0(self",
        Form::Param => ", $0: $1",
        Form::HeadEnd => ") -> $0",
        Form::WriteSet => "sorted($0)",
        Form::WriteTally => "sorted($0.items())",
        Form::WriteTallies => "[(key, sorted(sums.items())) for key, sums in sorted($0.items())]",
    }
}

/// Words that name nothing in any scope.
pub(crate) const KEYWORDS: &[&str] = &[
    "False", "None", "True", "and", "as", "assert", "async", "await", "break", "class", "continue",
    "def", "del", "elif", "else", "except", "finally", "for", "from", "global", "if", "import",
    "in", "is", "lambda", "nonlocal", "not", "or", "pass", "raise", "return", "try", "while",
    "with", "yield", "match", "case", "type", "self", "cls",
];

/// Words that members use for what is theirs.
pub(crate) const LOCALS: &[&str] = &[
    "time",
    "key",
    "value",
    "other",
    "known",
    "it",
    "text",
    "parts",
    "sums",
    "int",
    "str",
    "bool",
    "max",
    "sum",
    "dict",
    "set",
    "list",
    "sorted",
    "isinstance",
    "len",
    "json",
    "clock",
    "replica",
    "more",
    "super",
    "range",
    "object",
    "tuple",
    "changed",
];

/// Words that no part can have as its field.
pub(crate) const FIELDS: &[&str] = &["_clock", "_replica", "_marks"];

/// Words that no operation or query can have as its method's name.
pub(crate) const MEMBERS: &[&str] = &[
    "merge",
    "difference",
    "state",
    "from_state",
    "marks",
    "share",
    "from_share",
    "packet",
    "merge_packet",
    "clock",
    "replica",
    "clone",
    "str",
    "int",
    "bool",
    "property",
    "staticmethod",
    "classmethod",
    "super",
    "dict",
    "set",
    "list",
    "object",
];

/// Words of the file around the class.
pub(crate) const GLOBALS: &[&str] = &[
    "dataclass",
    "field",
    "NamedTuple",
    "Callable",
    "Iterator",
    "TypeVar",
    "Any",
    "Exception",
    "ValueError",
    "RecursionError",
    "Key",
    "List",
    "Dict",
    "re",
];

/// Words that no leaf can have.
pub(crate) const LEAVES: &[&str] = &["count", "index"];

/// Words that no part can have as its field of what has changed.
pub(crate) const CHANGES: &[&str] = &["any", "list", "field"];

/// Words that members with loops use for what else is theirs.
pub(crate) const LOOPS: &[&str] = &[
    "other", "known", "it", "text", "parts", "leaves", "sums", "more", "changed", "clock",
    "replica", "int", "str", "bool", "max", "dict", "set", "list", "sorted",
];
