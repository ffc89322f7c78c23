//! The members by which replicas ship what others lack: marks, shares and packets.
use crate::classes::push_plain;
use crate::texts::Member;
use kat_emit_words::{Family, Page, Printer};
use std::alloc::AllocError;

/// What each of these members does.
const MARKS: &str =
    "A line that says of each replica the time of its latest operation here. It is refused as `marks` once a state came that had none.";

const SHARE: &str =
    "The text of a share file, the marks and then the state: what is kept, and what a peer has once it took it.";

const PACKET: &str =
    "The text of a packet: what this replica has beyond a known one, with the marks of both. Beyond a new replica it is all there is.";

const MERGE_PACKET: &str =
    "Takes in a packet, late, twice, or of any replica. One that leaves out what is missing here is refused as `gap`, and nothing changes.";

const FROM_SHARE: &str = "The replica that a share file has, with its number, clock and marks.";

/// The texts of these members.
#[derive(Clone, Copy)]
struct Sharing {
    marks: Member,
    share: Member,
    packet: Member,
    merge_packet: Member,
    from_share: Member,
}

/// Appends these members.
pub(crate) fn push_sharing(printer: &Printer<'_, '_>, page: &mut Page) -> Result<(), AllocError> {
    let sharing = sharing_of(printer.language.family());
    push_plain(printer, &sharing.marks, MARKS, page)?;
    push_plain(printer, &sharing.share, SHARE, page)?;
    push_plain(printer, &sharing.packet, PACKET, page)?;
    push_plain(printer, &sharing.merge_packet, MERGE_PACKET, page)?;
    page.put(if printer.language.is_python() {
        "\n@staticmethod"
    } else {
        ""
    })?;
    push_plain(printer, &sharing.from_share, FROM_SHARE, page)
}

/// The texts of a language.
fn sharing_of(family: Family) -> Sharing {
    match family {
        Family::TypeScript => TYPESCRIPT,
        Family::Python => PYTHON,
        Family::Rust => RUST,
        Family::Go => GO,
    }
}

const TYPESCRIPT: Sharing = Sharing {
    marks: Member {
        name: "",
        head: "marks()~: string~",
        before: "return marksText(this.#replica, this.#clock, knownMarks(this.#marks));\n",
        more: "",
        after: "",
    },
    share: Member {
        name: "",
        head: "share()~: string~",
        before: "return this.marks() + this.state();\n",
        more: "",
        after: "",
    },
    packet: Member {
        name: "",
        head: "packet(known~: $0~)~: string~",
        before: "const base = marksText(this.#replica, this.#clock, knownMarks(known.#marks));\n",
        more: "",
        after: "return base + this.marks() + this.difference(known).state();\n",
    },
    merge_packet: Member {
        name: "",
        head: "mergePacket(text~: string~)~: $1~",
        before: "const marks = knownMarks(this.#marks);
const [line, rest] = firstLine(text);
const base = readMarks(line);
const told = $0.fromShare(rest);
",
        more: "",
        after: "if (sumsBeyond(base, marks).size > 0) throw refusal(\"gap\", \"what is missing here isn't in the packet\");
return this.merge(told);
",
    },
    from_share: Member {
        name: "",
        head: "static fromShare(text~: string~)~: $0~",
        before: "const [line, rest] = firstLine(text);
const marks = readMarks(line);
const it = $0.fromState(rest);
",
        more: "",
        after: "it.#marks = marks;\nreturn it;\n",
    },
};

const PYTHON: Sharing = Sharing {
    marks: Member {
        name: "",
        head: "marks(self) -> str",
        before: "return _marks_text(self._replica, self._clock, _known_marks(self._marks))\n",
        more: "",
        after: "",
    },
    share: Member {
        name: "",
        head: "share(self) -> str",
        before: "return self.marks() + self.state()\n",
        more: "",
        after: "",
    },
    packet: Member {
        name: "",
        head: "packet(self, known: $0) -> str",
        before: "base = _marks_text(self._replica, self._clock, _known_marks(known._marks))\n",
        more: "",
        after: "return base + self.marks() + self.difference(known).state()\n",
    },
    merge_packet: Member {
        name: "",
        head: "merge_packet(self, text: str) -> $1",
        before: "marks = _known_marks(self._marks)
line, _, rest = text.partition(\"\\n\")
base = _read_marks(line)
told = $0.from_share(rest)
",
        more: "",
        after: "if _sums_beyond(base, marks):
    raise $2(\"gap\", \"what is missing here isn't in the packet\")
return self.merge(told)
",
    },
    from_share: Member {
        name: "",
        head: "from_share(text: str) -> $0",
        before: "line, _, rest = text.partition(\"\\n\")
marks = _read_marks(line)
it = $0.from_state(rest)
",
        more: "",
        after: "it._marks = marks\nreturn it\n",
    },
};

const RUST: Sharing = Sharing {
    marks: Member {
        name: "",
        head: "pub fn marks(&self) -> Result<String, $2>",
        before: "let marks = self.marks.as_ref().ok_or($2::Marks)?;\n",
        more: "",
        after: "Ok(marks_text(self.replica, self.clock, marks))\n",
    },
    share: Member {
        name: "",
        head: "pub fn share(&self) -> Result<String, $2>",
        before: "Ok(self.marks()? + &self.state())\n",
        more: "",
        after: "",
    },
    packet: Member {
        name: "",
        head: "pub fn packet(&self, known: &Self) -> Result<String, $2>",
        before: "let base = known.marks.as_ref().ok_or($2::Marks)?;\n",
        more: "",
        after: "Ok(marks_text(self.replica, self.clock, base) + &self.marks()? + &self.difference(known).state())\n",
    },
    merge_packet: Member {
        name: "",
        head: "pub fn merge_packet(&mut self, text: &str) -> Result<$1, $2>",
        before: "let marks = self.marks.ok_or($2::Marks)?;
let (line, rest) = first_line(text);
let base = read_marks(line)?;
let told = Self::from_share(rest)?;
",
        more: "",
        after: "if sums_beyond(&base, &marks) == [0; 32] { Ok(self.merge(&told)) } else { Err($2::Gap) }\n",
    },
    from_share: Member {
        name: "",
        head: "pub fn from_share(text: &str) -> Result<Self, $2>",
        before: "let (line, rest) = first_line(text);
let marks = read_marks(line)?;
let mut it = Self::from_state(rest)?;
",
        more: "",
        after: "it.marks = Some(marks);\nOk(it)\n",
    },
};

const GO: Sharing = Sharing {
    marks: Member {
        name: "Marks",
        head: "func (r *$0) Marks() (string, error)",
        before: "if !r.marked {\n\treturn \"\", ErrMarks\n}\n",
        more: "",
        after: "return marksText(r.replica, r.clock, r.marks), nil\n",
    },
    share: Member {
        name: "Share",
        head: "func (r *$0) Share() (string, error)",
        before: "marks, err := r.Marks()
if err != nil {\n\treturn \"\", err\n}
",
        more: "",
        after: "return marks + r.State(), nil\n",
    },
    packet: Member {
        name: "Packet",
        head: "func (r *$0) Packet(known *$0) (string, error)",
        before: "if !r.marked || !known.marked {\n\treturn \"\", ErrMarks\n}
base, marks := marksText(r.replica, r.clock, known.marks), marksText(r.replica, r.clock, r.marks)
",
        more: "",
        after: "return base + marks + r.Difference(known).State(), nil\n",
    },
    merge_packet: Member {
        name: "MergePacket",
        head: "func (r *$0) MergePacket(text string) ($1, error)",
        before: "if !r.marked {\n\treturn $1{}, ErrMarks\n}
line, rest := firstLine(text)
base, err := readMarks(line)
if err != nil {\n\treturn $1{}, err\n}
told, err := FromShare(rest)
if err != nil {\n\treturn $1{}, err\n}
",
        more: "",
        after: "if base.beyond(&r.marks) != (sums{}) {\n\treturn $1{}, ErrGap\n}\nreturn r.Merge(told), nil\n",
    },
    from_share: Member {
        name: "FromShare",
        head: "func FromShare(text string) (*$0, error)",
        before: "line, rest := firstLine(text)
marks, err := readMarks(line)
if err != nil {\n\treturn nil, err\n}
it, err := FromState(rest)
if err != nil {\n\treturn nil, err\n}
",
        more: "",
        after: "it.marks, it.marked = marks, true\nreturn it, nil\n",
    },
};
