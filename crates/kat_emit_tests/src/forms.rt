//! The texts of tests in each language.
use kat_emit_words::Family;

/// The texts of a file of tests.
#[derive(Clone, Copy)]
pub(crate) struct Forms {
    /// What is before all tests: the class, the error, the file of code, the package, and what JavaScript imports.
    pub(crate) head: &'static str,
    /// What begins a script: its number, the class.
    pub(crate) open: &'static str,
    /// An operation: its call.
    pub(crate) act: &'static str,
    /// A replica, a packet.
    pub(crate) ship: &'static str,
    pub(crate) take: &'static str,
    /// A query: its call and what it answers.
    pub(crate) ask: &'static str,
    /// The same if the call may be refused.
    pub(crate) sure: &'static str,
    /// A replica, the text of its state and the line of its marks.
    pub(crate) show: &'static str,
    /// The same for a replica that has marks.
    pub(crate) gap: &'static str,
    pub(crate) close: &'static str,
    /// What begins the test of calls that are refused.
    pub(crate) refusals: &'static str,
    /// A number that no replica has: the class, the number, the error.
    pub(crate) number: &'static str,
    /// A text that is no state: the same with the text.
    pub(crate) text: &'static str,
    /// An operation that is refused: the problem, the text of a state, the call, the class.
    pub(crate) refused: &'static str,
    /// A query that is refused.
    pub(crate) unanswered: &'static str,
    pub(crate) end: &'static str,
    /// By how much the lines of a test are indented.
    pub(crate) depth: usize,
}

/// The texts of a language.
pub(crate) fn forms_of(family: Family) -> Forms {
    match family {
        Family::TypeScript => JAVASCRIPT,
        Family::Python => PYTHON,
        Family::Rust => RUST,
        Family::Go => GO,
    }
}

const JAVASCRIPT: Forms = Forms {
    head: "
import assert from \"node:assert/strict\";
import test from \"node:test\";
import { $0, $1 } from \"./$4\";

/** Merges a share by its difference, by a packet and as a whole, which must give the same. */
function take(to, text) {
  const whole = $0.fromShare(text);
  assert.equal(whole.share(), text);
  const [part, packed] = [to.clone(), to.clone()];
  part.merge($0.fromState(whole.difference(to).state()));
  packed.mergePacket(whole.packet(to));
  to.merge(whole);
  assert.ok(part.equals(to));
  assert.equal(packed.share(), to.share());
}

/** A packet is refused where something is missing that it leaves out, and a state without marks makes no share. */
function gap(it) {
  const other = new $0(32);
  const before = other.share();
  assert.throws(() => other.mergePacket(it.packet(it)), (error) => error instanceof $1 && error.problem === \"gap\");
  assert.equal(other.share(), before);
  const plain = $0.fromState(it.state());
  assert.throws(() => plain.share(), (error) => error instanceof $1 && error.problem === \"marks\");
}

/** A call that is refused changes nothing. */
function refused(problem, text, call) {
  const it = $0.fromState(text);
  assert.throws(() => call(it), (error) => error instanceof $1 && error.problem === problem);
  assert.equal(it.state(), text);
}
",
    open: "
test(\"script $0 answers as the proved program does\", () => {
  const replicas = [new $1(1), new $1(2), new $1(3)];
  const packets = [];
",
    act: "$0;\n",
    ship: "packets[$1] = replicas[$0].share();\n",
    take: "take(replicas[$0], packets[$1]);\n",
    ask: "assert.equal($0, $1);\n",
    sure: "assert.equal($0, $1);\n",
    show: "assert.equal(replicas[$0].share(), '$2\\n$1\\n');\n",
    gap: "gap(replicas[$0]);\n",
    close: "});\n",
    refusals: "\ntest(\"a call that is refused changes nothing\", () => {\n",
    number: "assert.throws(() => new $0($1), $2);\n",
    text: "assert.throws(() => $0.fromState('$1'), $2);\n",
    refused: "refused(\"$0\", '$1\\n', (it) => it.$2);\n",
    unanswered: "refused(\"$0\", '$1\\n', (it) => it.$2);\n",
    end: "",
    depth: 2,
};

const PYTHON: Forms = Forms {
    head: "
from __future__ import annotations

import unittest
from typing import Callable

from $2 import $0, $1


class Golden(unittest.TestCase):
    def take(self, to: $0, text: str) -> None:
        \"\"\"Merges a share by its difference, by a packet and as a whole, which must give the same.\"\"\"
        whole = $0.from_share(text)
        self.assertEqual(whole.share(), text)
        part, packed = to.clone(), to.clone()
        part.merge($0.from_state(whole.difference(to).state()))
        packed.merge_packet(whole.packet(to))
        to.merge(whole)
        self.assertEqual(part, to)
        self.assertEqual(packed.share(), to.share())

    def gap(self, it: $0) -> None:
        \"\"\"A packet is refused where something is missing that it leaves out, and a state without marks makes no share.\"\"\"
        other = $0(32)
        before = other.share()
        with self.assertRaises($1) as caught:
            other.merge_packet(it.packet(it))
        self.assertEqual(caught.exception.problem, \"gap\")
        self.assertEqual(other.share(), before)
        plain = $0.from_state(it.state())
        with self.assertRaises($1) as caught:
            plain.share()
        self.assertEqual(caught.exception.problem, \"marks\")

    def refused(self, problem: str, text: str, call: Callable[[$0], object]) -> None:
        \"\"\"A call that is refused changes nothing.\"\"\"
        it = $0.from_state(text)
        with self.assertRaises($1) as caught:
            call(it)
        self.assertEqual(caught.exception.problem, problem)
        self.assertEqual(it.state(), text)
",
    open: "
    def test_script_$0(self) -> None:
        \"\"\"It answers as the proved program does.\"\"\"
        replicas = [$1(1), $1(2), $1(3)]
        packets: dict[int, str] = {}
",
    act: "$0\n",
    ship: "packets[$1] = replicas[$0].share()\n",
    take: "self.take(replicas[$0], packets[$1])\n",
    ask: "self.assertEqual($0, $1)\n",
    sure: "self.assertEqual($0, $1)\n",
    show: "self.assertEqual(replicas[$0].share(), '$2\\n$1\\n')\n",
    gap: "self.gap(replicas[$0])\n",
    close: "",
    refusals: "\n    def test_refusals(self) -> None:\n",
    number: "self.assertRaises($2, lambda: $0($1))\n",
    text: "self.assertRaises($2, lambda: $0.from_state('$1'))\n",
    refused: "self.refused(\"$0\", '$1\\n', lambda it: it.$2)\n",
    unanswered: "self.refused(\"$0\", '$1\\n', lambda it: it.$2)\n",
    end: "\n\nif __name__ == \"__main__\":\n    unittest.main()\n",
    depth: 8,
};

const RUST: Forms = Forms {
    head: "
use std::collections::BTreeMap;

use $2::{$0, $1};

/// Merges a share by its difference, by a packet and as a whole, which must give the same.
fn take(to: &mut $0, text: &str) {
    let whole = $0::from_share(text).unwrap();
    assert_eq!(whole.share().unwrap(), text);
    let (mut part, mut packed) = (to.clone(), to.clone());
    part.merge(&$0::from_state(&whole.difference(to).state()).unwrap());
    packed.merge_packet(&whole.packet(to).unwrap()).unwrap();
    to.merge(&whole);
    assert_eq!(part, *to);
    assert_eq!(packed.share(), to.share());
}

/// A packet is refused where something is missing that it leaves out, and a state without marks makes no share.
#[allow(dead_code)]
fn gap(it: &$0) {
    let mut other = $0::new(32).unwrap();
    let before = other.share();
    assert_eq!(other.merge_packet(&it.packet(it).unwrap()).err(), Some($1::Gap));
    assert_eq!(other.share(), before);
    assert_eq!($0::from_state(&it.state()).unwrap().share(), Err($1::Marks));
}

/// A call that is refused changes nothing.
fn refused(problem: $1, text: &str, call: impl FnOnce(&mut $0) -> Option<$1>) {
    let mut it = $0::from_state(text).unwrap();
    assert_eq!(call(&mut it), Some(problem));
    assert_eq!(it.state().trim_end(), text);
}
",
    // (written with an escape, since a tool that looks for tests of this crate would take it for one)
    open: "
#\x5btest]
fn script_$0_answers_as_the_proved_program_does() {
    let mut replicas = [1, 2, 3].map(|n| $1::new(n).unwrap());
    let mut packets: BTreeMap<usize, String> = BTreeMap::new();
",
    act: "$0.unwrap();\n",
    ship: "packets.insert($1, replicas[$0].share().unwrap());\n",
    take: "take(&mut replicas[$0], &packets[&$1]);\n",
    ask: "assert_eq!($0, $1);\n",
    sure: "assert_eq!($0.unwrap(), $1);\n",
    show: "assert_eq!(replicas[$0].share().unwrap(), concat!(r#\"$2\"#, \"\\n\", r#\"$1\"#, \"\\n\"));\n",
    gap: "gap(&replicas[$0]);\n",
    close: "}\n",
    refusals: "\n#\x5btest]\nfn refusals() {\n",
    number: "assert_eq!($0::new($1).err(), Some($2::Replica));\n",
    text: "assert_eq!($0::from_state(r#\"$1\"#).err(), Some($2::State));\n",
    refused: "refused($0, r#\"$1\"#, |it| it.$2.err());\n",
    unanswered: "refused($0, r#\"$1\"#, |it| it.$2.err());\n",
    end: "",
    depth: 4,
};

const GO: Forms = Forms {
    head: "
package $3

import (
\t\"errors\"
\t\"testing\"
)

func must(t *testing.T, err error) {
\tt.Helper()
\tif err != nil {
\t\tt.Fatal(err)
\t}
}

func same[V comparable](t *testing.T, got, want V) {
\tt.Helper()
\tif got != want {
\t\tt.Errorf(\"%v, and not %v\", got, want)
\t}
}

// sure gives the answer of a call that isn't refused.
func sure[V any](it V, err error) V {
\tif err != nil {
\t\tpanic(err)
\t}
\treturn it
}

// take merges a share by its difference, by a packet and as a whole, which must give the same.
func take(t *testing.T, to *$0, text string) {
\tt.Helper()
\twhole, part, packed := sure(FromShare(text)), to.Clone(), to.Clone()
\tsame(t, sure(whole.Share()), text)
\tpart.Merge(sure(FromState(whole.Difference(to).State())))
\tsure(packed.MergePacket(sure(whole.Packet(to))))
\tto.Merge(whole)
\tsame(t, part.Equal(to), true)
\tsame(t, sure(packed.Share()), sure(to.Share()))
}

// gap: a packet is refused where something is missing that it leaves out, and a state without marks makes no share.
func gap(t *testing.T, it *$0) {
\tt.Helper()
\tother := sure(New(32))
\tbefore := sure(other.Share())
\tif _, err := other.MergePacket(sure(it.Packet(it))); !errors.Is(err, ErrGap) {
\t\tt.Error(err)
\t}
\tsame(t, sure(other.Share()), before)
\tif _, err := sure(FromState(it.State())).Share(); !errors.Is(err, ErrMarks) {
\t\tt.Error(err)
\t}
}

// refused tells whether a call is refused, and changes nothing.
func refused(t *testing.T, problem error, text string, call func(it *$0) error) {
\tt.Helper()
\tit := sure(FromState(text))
\tif err := call(it); !errors.Is(err, problem) {
\t\tt.Error(err)
\t}
\tsame(t, it.State(), text+\"\\n\")
}
",
    open: "
func TestScript$0(t *testing.T) {
\treplicas := [3]*$1{sure(New(1)), sure(New(2)), sure(New(3))}
\tpackets := map[int]string{}
",
    act: "must(t, $0)\n",
    ship: "packets[$1] = sure(replicas[$0].Share())\n",
    take: "take(t, replicas[$0], packets[$1])\n",
    ask: "same(t, $0, $1)\n",
    sure: "same(t, sure($0), $1)\n",
    show: "same(t, sure(replicas[$0].Share()), `$2`+\"\\n\"+`$1`+\"\\n\")\n",
    gap: "gap(t, replicas[$0])\n",
    close: "}\n",
    refusals: "\nfunc TestRefusals(t *testing.T) {\n",
    number: "if _, err := New($1); !errors.Is(err, ErrReplica) {\n\tt.Error(err)\n}\n",
    text: "if _, err := FromState(`$1`); !errors.Is(err, ErrState) {\n\tt.Error(err)\n}\n",
    refused: "refused(t, $0, `$1`, func(it *$3) error { return it.$2 })\n",
    unanswered: "refused(t, $0, `$1`, func(it *$3) error {\n\t_, err := it.$2\n\treturn err\n})\n",
    end: "",
    depth: 1,
};
