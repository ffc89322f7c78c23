//! The line that sums a script up.
ghost use Rattle.std.specs.Prelude.{◌≡◌, ◌+◌, ◌^◌, ◌<◌, ◌≤◌, ◌+ℤ◌, ◌++◌, ◌∷◌, [], All, IfOk, OnOk, length, unsigned_abs};
ghost use Rattle.std.specs.Fmt.{decimal};
ghost use Rattle.kat_expr.specs.Evaluation.{number_of};
ghost use Rattle.kat_expr.specs.Limits.{IsAtMost};
ghost use Rattle.kat_script.specs.Facts.{done_in};
ghost use Rattle.kat_world.specs.Summaries.{summary_text, total_of};

use itoa::Buffer;
use kat_num::{Value, print};
use kat_script::{Line, Script};
use std::alloc::{AllocError, Global};

/// `operations O asks A total C`: how many operations the script does, how many answers there are, one for each ask, and the
/// sum of all answers, in a line.
pub fn summary(alloc: Global, script: &Script, answers: &[Value]) -> Result<Vec<u8>, AllocError>
    requires lines { length script.now.lines ≤ 100_000 }
    requires few { length answers.now ≤ 100_000 }
    requires small { All (IsAtMost (2 ^ 100)) answers.now }
    ensures { IfOk result (λ text. text.items ≡ summary_text script.now answers.now) }
{
    let operations = operations_in(script.lines.as_slice());
    let total = total_of(answers);
    let mut text = Vec::new(alloc);
    push_count(b"operations ", operations, &mut text)?;
    push_count(b" asks ", answers.len(), &mut text)?;
    text.extend_from_slice(b" total ")?;
    print(alloc, &total, &mut text)?;
    text.extend_from_slice(b"\n")?;
    Ok(text)
}

/// Appends a text and then a number.
fn push_count(text: &[u8], count: usize, into: &mut Vec<u8>) -> Result<(), AllocError>
    ensures { OnOk result (into.new.items ≡ into.old.items ++ text.now ++ decimal count) }
{
    into.extend_from_slice(text)?;
    into.extend_from_slice(Buffer::new().format(count).as_bytes())
}

/// How many operations the lines do.
fn operations_in(lines: &[Line]) -> usize
    requires { length lines.now ≤ 100_000 }
    ensures { result ≡ length (done_in lines.now) }
{
    let mut count = 0;
    'lines: for line in lines {
        count = counted(count, line);
    }
    count
}

/// One more, if the line does an operation.
fn counted(count: usize, line: &Line) -> usize
    requires { count ≤ 100_000 }
    ensures { result ≡ count + length (done_in (line.now ∷ [])) }
{
    match line {
        Line::Do(_) => count + 1,
        Line::Ship { .. } | Line::Deliver { .. } | Line::Ask { .. } | Line::Show { .. } => count,
    }
}

/// The sum of the numbers among answers.
fn total_of(answers: &[Value]) -> Value
    requires few { length answers.now ≤ 100_000 }
    requires small { All (IsAtMost (2 ^ 100)) answers.now }
    ensures { result ≡ Value.Num (total_of answers.now) }
{
    let mut total = Value::Num(0);
    'answers: for answer in answers {
        total = plus(total, *answer);
    }
    total
}

/// The sum of two numbers.
fn plus(total: Value, answer: Value) -> Value
    requires { unsigned_abs (number_of total) + unsigned_abs (number_of answer) < 2 ^ 127 }
    ensures { result ≡ Value.Num (number_of total +ℤ number_of answer) }
{
    Value::Num(number_of(total) + number_of(answer))
}

/// The number of a value, 0 if it is none.
fn number_of(value: Value) -> i128
    ensures { result ≡ number_of value }
{
    match value {
        Value::Num(number) => number,
        Value::Bool(_) | Value::Name(_) => 0,
    }
}
