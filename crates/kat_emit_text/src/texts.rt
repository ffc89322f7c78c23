//! What is fixed of each member of the class: `$0` is the class, `$1` the class of what has changed, `$2` the error.
use kat_emit_words::Family;

/// The texts of a member: its name in Go, its head, and what comes before, first and further, and after the lines of the parts.
#[derive(Clone, Copy)]
pub(crate) struct Member {
    pub(crate) name: &'static str,
    pub(crate) head: &'static str,
    pub(crate) before: &'static str,
    pub(crate) more: &'static str,
    pub(crate) after: &'static str,
}

/// `merge`.
pub(crate) fn merge_text(family: Family) -> Member {
    let (head, after) = match family {
        Family::TypeScript => ("merge(other~: $0~)~: $1~", "return changed;\n"),
        Family::Python => ("merge(self, other: $0) -> $1", "return changed\n"),
        Family::Rust => ("pub fn merge(&mut self, other: &Self) -> $1", "changed\n"),
        Family::Go => ("func (r *$0) Merge(other *$0) $1", "return changed\n"),
    };
    Member {
        name: "Merge",
        head,
        before: "",
        more: "",
        after,
    }
}

/// `difference`.
pub(crate) fn difference_text(family: Family) -> Member {
    let head = match family {
        Family::TypeScript => "difference(known~: $0~)~: $0~",
        Family::Python => "difference(self, known: $0) -> $0",
        Family::Rust => "pub fn difference(&self, known: &Self) -> Self",
        Family::Go => "func (r *$0) Difference(known *$0) *$0",
    };
    let unknown = match family {
        Family::TypeScript => "it.#marks = undefined;\n",
        Family::Python => "it._marks = None\n",
        Family::Rust | Family::Go => "",
    };
    new_text(family, "Difference", head, unknown)
}

/// `clone`.
pub(crate) fn clone_text(family: Family) -> Member {
    let head = match family {
        Family::TypeScript => "clone()~: $0~",
        Family::Python => "clone(self) -> $0",
        Family::Rust => "",
        Family::Go => "func (r *$0) Clone() *$0",
    };
    let copied = match family {
        Family::TypeScript => "it.#marks = this.#marks && new Map(this.#marks);\n",
        Family::Python => "it._marks = None if self._marks is None else dict(self._marks)\n",
        Family::Rust => "",
        Family::Go => "it.marks, it.marked = r.marks, r.marked\n",
    };
    new_text(family, "Clone", head, copied)
}

/// A member that makes a replica of the same number and time; `marks` is what becomes of the marks, or empty if they aren't known then.
fn new_text(family: Family, name: &'static str, head: &'static str, marks: &'static str) -> Member {
    let (before, after) = match family {
        Family::TypeScript => (
            "const it = new $0(this.#replica);\nit.#clock = this.#clock;\n",
            "return it;\n",
        ),
        Family::Python => (
            "it = $0(self._replica)\nit._clock = self._clock\n",
            "return it\n",
        ),
        Family::Rust => (
            "let mut it = Self::fresh(self.replica, self.clock);\n",
            "it\n",
        ),
        Family::Go => (
            "it := fresh(r.replica)\nit.clock = r.clock\n",
            "return it\n",
        ),
    };
    Member {
        name,
        head,
        before,
        more: marks,
        after,
    }
}

/// Whether two replicas are the same. Rust derives it.
pub(crate) fn equality_text(family: Family) -> Member {
    let (head, before) = match family {
        Family::TypeScript => (
            "equals(other~: $0~)~: boolean~",
            "return this.state() === other.state();\n",
        ),
        Family::Python => (
            "__eq__(self, other: object) -> bool",
            "return isinstance(other, $0) and self.state() == other.state()\n",
        ),
        Family::Rust => ("", ""),
        Family::Go => (
            "func (r *$0) Equal(other *$0) bool",
            "return r.State() == other.State()\n",
        ),
    };
    Member {
        name: "Equal",
        head,
        before,
        more: "",
        after: "",
    }
}

/// The text for people who look for faults.
pub(crate) fn debug_text(family: Family) -> Member {
    let (head, before) = match family {
        Family::TypeScript => (
            "toString()~: string~",
            "return `$0 ${this.state().trimEnd()}`;\n",
        ),
        Family::Python => (
            "__repr__(self) -> str",
            "return f\"$0.from_state({self.state()!r})\"\n",
        ),
        Family::Rust => ("", ""),
        Family::Go => (
            "func (r *$0) String() string",
            "return \"$0 \" + strings.TrimSpace(r.State())\n",
        ),
    };
    Member {
        name: "String",
        head,
        before,
        more: "",
        after: "",
    }
}

/// `state`.
pub(crate) fn state_text(family: Family) -> Member {
    let (head, before, after) = match family {
        Family::TypeScript => (
            "state()~: string~",
            "const parts = [\n",
            "];
return `[\"state\",1,${this.#replica},${this.#clock},[${parts.join(\",\")}]]\\n`;
",
        ),
        Family::Python => (
            "state(self) -> str",
            "parts = [\n",
            "]
text = json.dumps([\"state\", 1, self._replica, self._clock, parts], separators=(\",\", \":\"))
return text + \"\\n\"
",
        ),
        Family::Rust => (
            "pub fn state(&self) -> String",
            "let parts: [String; $3] = [\n",
            "];
format!(\"[\\\"state\\\",1,{},{},[{}]]\\n\", self.replica, self.clock, parts.join(\",\"))
",
        ),
        Family::Go => (
            "func (r *$0) State() string",
            "parts := []string{\n",
            "}
return fmt.Sprintf(\"[\\\"state\\\",1,%d,%d,[%s]]\\n\", r.replica, r.clock, strings.Join(parts, \",\"))
",
        ),
    };
    Member {
        name: "State",
        head,
        before,
        more: "",
        after,
    }
}

/// What reads a state. In Python `$3` is the number of parts.
pub(crate) fn from_state_text(family: Family) -> Member {
    let (head, before, after) = match family {
        Family::TypeScript => (
            "static fromState(text~: string~)~: $0~",
            "const reader = new Reader(text);
const it = new $0(reader.head());
it.#clock = reader.clock();
it.#marks = undefined;
reader.take(\"[\");
",
            "reader.end();\nreturn it;\n",
        ),
        Family::Python => (
            "from_state(text: str) -> $0",
            "replica, clock, parts = _file(text, $3)
it = $0(replica)
it._clock = clock
it._marks = None
",
            "return it\n",
        ),
        Family::Rust => (
            "pub fn from_state(text: &str) -> Result<Self, $2>",
            "let mut reader = Reader { rest: text.as_bytes() };
let (replica, clock) = reader.head()?;
let mut it = Self::fresh(replica, clock);
",
            "reader.end()?;\nOk(it)\n",
        ),
        Family::Go => (
            "func FromState(text string) (*$0, error)",
            "in := reader{rest: text}
replica, clock := in.head()
it := fresh(replica)
it.clock = clock
",
            "if !in.ended() {\n\treturn nil, ErrState\n}\nreturn it, nil\n",
        ),
    };
    Member {
        name: "FromState",
        head,
        before,
        more: "",
        after,
    }
}

/// What is before the fields of the class, its members and after them.
pub(crate) const TYPESCRIPT_START: &str = "constructor(replica~: number~) {
  if (!Number.isInteger(replica) || replica < 1 || replica > 32) throw refusal(\"replica\", \"a number from 1 to 32 is needed\");
  this.#replica = replica;
}

get replica()~: number~ {
  return this.#replica;
}

";

/// The number of the replica in Python.
pub(crate) const PYTHON_START: &str = "
@property
def replica(self) -> int:
    return self._replica

@property
def clock(self) -> int:
    ";

/// The beginning of a new replica in Python.
pub(crate) const PYTHON_NEW: &str = "if type(replica) is not int or not 1 <= replica <= 32:
    raise $2(\"replica\", \"a number from 1 to 32 is needed\")
self._replica = replica
self._clock = 0
self._marks: dict[int, int] | None = {}
";

/// What shows a replica in Node.
pub(crate) const TYPESCRIPT_INSPECT: &str = "
[Symbol.for(\"nodejs.util.inspect.custom\")]()~: string~ {
  return this.toString();
}
";

/// What shows a replica in Rust.
pub(crate) const RUST_DEBUG: &str = "
impl fmt::Debug for $0 {
    fn fmt(&self, to: &mut fmt::Formatter<'_>) -> fmt::Result {
        write!(to, \"$0({})\", self.state().trim_end())
    }
}
";

/// What compares two replicas in Rust, before and after the parts; the marks don't count.
pub(crate) const RUST_EQUALITY: (&str, &str) = (
    "
impl Eq for $0 {}

impl PartialEq for $0 {\n    fn eq(&self, other: &Self) -> bool {
        self.replica == other.replica && self.clock == other.clock",
    "\n    }\n}\n",
);

/// The number and the time in Rust.
pub(crate) const RUST_START: &str = "
/// The replica's number.
pub fn replica(&self) -> u8 {
    self.replica
}
";

/// A new replica in Rust.
pub(crate) const RUST_NEW: &str = "pub fn new(replica: u8) -> Result<Self, $2> {
    if !(1..=32).contains(&replica) {
        return Err($2::Replica);
    }
    let marks = Some([0; 32]);
    Ok(Self { marks, ..Self::fresh(replica, 0) })
}
";

/// A new replica in Go.
pub(crate) const GO_NEW: &str = "func New(replica int) (*$0, error) {
\tif replica < 1 || replica > 32 {
\t\treturn nil, ErrReplica
\t}
\tit := fresh(replica)
\tit.marked = true
\treturn it, nil
}

";

/// Its number in Go.
pub(crate) const GO_START: &str = "
// Replica: the replica's number.
func (r *$0) Replica() int {
\treturn r.replica
}
";
