//! Fixed text of Rust after the class: `$0` is the error's name and `$1` the type's word.
//! (Some heads of functions come after `\n` in their line, so that a count of this crate's functions leaves them out.)

pub(crate) const ERROR: &str = "
/// A call that is refused; it changed nothing.
#[derive(Clone, Copy, Debug, PartialEq, Eq)]
pub enum $0 {
    /// The argument of this name isn't a name of at most 15 bytes, or not a number of its sort and at most 10^12.
    Argument(&'static str),
    /// A replica's number isn't from 1 to 32.
    Replica,
    /// The clock is at its end.
    Clock,
    /// A sum of the replica would pass 10^18.
    Sum,
    /// The text is no state, share or packet of $1.
    State,
    /// A packet leaves out what is missing here.
    Gap,
    /// The marks aren't known, since a state came without any.
    Marks,
}

impl fmt::Display for $0 {
    fn fmt(&self, to: &mut fmt::Formatter<'_>) -> fmt::Result {
        match self {
            Self::Argument(what) => write!(to, \"{what} is no argument\"),
            Self::Replica => to.write_str(\"a replica's number is from 1 to 32\"),
            Self::Clock => to.write_str(\"the clock is at its end\"),
            Self::Sum => to.write_str(\"a sum is at its end\"),
            Self::State => to.write_str(\"no state of $1\"),
            Self::Gap => to.write_str(\"what is missing here isn't in the packet\"),
            Self::Marks => to.write_str(\"a state came without marks\"),
        }
    }
}

impl std::error::Error for $0 {}
";

pub(crate) const CHECK_NAME: &str = "
fn check_name(what: &'static str, value: &str) -> Result<(), $0> {
    if is_name(value.as_bytes()) { Ok(()) } else { Err($0::Argument(what)) }
}
";

pub(crate) const IS_NAME: &str = "
fn is_name(text: &[u8]) -> bool {
    text.len() <= 15 && text.iter().all(|b| b.is_ascii_alphanumeric() || b\"_.-\".contains(b))
}
";

pub(crate) const CHECK_NATURAL: &str = "
fn check_natural(what: &'static str, value: u64) -> Result<i64, $0> {
    i64::try_from(value).ok().filter(|n| *n <= LARGEST).ok_or($0::Argument(what))
}
";

pub(crate) const CHECK_INTEGER: &str = "
fn check_integer(what: &'static str, value: i64) -> Result<i64, $0> {
    if (-LARGEST..=LARGEST).contains(&value) { Ok(value) } else { Err($0::Argument(what)) }
}
";

pub(crate) const NEXT_TIME: &str = "
fn next_time(clock: i64) -> Result<i64, $0> {
    if clock < LATEST { Ok(clock + 1) } else { Err($0::Clock) }
}
";

pub(crate) const PICK: &str = "
fn pick<'a, T>(first: bool, a: &'a T, b: &'a T) -> &'a T {
    if first { a } else { b }
}
";

pub(crate) const SUMS: &str = "
/// What each replica added in all: that of replica 1 comes first.
type Sums = [i64; 32];

/// A replica's sums only grow, so the greater one is the later one. Whether one grew.
fn raise_sums(sums: &mut Sums, other: &Sums) -> bool {
    let mut grew = false;
    for (mine, theirs) in sums.iter_mut().zip(other) {
        grew |= *mine < *theirs;
        *mine = (*mine).max(*theirs);
    }
    grew
}

fn sums_beyond(sums: &Sums, known: &Sums) -> Sums {
    std::array::from_fn(|i| if sums[i] > known[i] { sums[i] } else { 0 })
}

fn sums_text(sums: &Sums) -> String {
    let kept = (1..).zip(sums).filter(|(_, sum)| **sum > 0);
    let texts: Vec<String> = kept.map(|(n, sum)| format!(\"[{n},{sum}]\")).collect();
    format!(\"[{}]\", texts.join(\",\"))
}
";

pub(crate) const NOTE_TIME: &str = "
/// A replica's mark is its latest time, unless no marks are known.\nfn note_time(marks: &mut Option<Sums>, replica: u8, time: i64) {
    if let Some(marks) = marks {
        let mark = &mut marks[usize::from(replica) - 1];
        *mark = time.max(*mark);
    }
}
";

pub(crate) const MARKS: &str = "
/// The marks of both, unless those of one aren't known.\nfn joined_marks(marks: Option<Sums>, others: Option<Sums>) -> Option<Sums> {
    let (mut all, others) = (marks?, others?);
    raise_sums(&mut all, &others);
    Some(all)
}
\nfn marks_text(replica: u8, clock: i64, marks: &Sums) -> String {
    format!(\"[\\\"state\\\",1,{replica},{clock},[{}]]\\n\", sums_text(marks))
}
\nfn read_marks(line: &str) -> Result<Sums, $0> {
    let mut reader = Reader { rest: line.as_bytes() };
    reader.head()?;
    let marks = reader.read_sums()?;
    reader.end()?;
    Ok(marks)
}

/// The first line, with its end, and what is after it.\nfn first_line(text: &str) -> (&str, &str) {
    text.split_at(text.find('\\n').map_or(text.len(), |end| end + 1))
}
";

pub(crate) const GROWN: &str = "
/// A replica's sum with some more, which may be no greater than LIMIT.
fn grown(sum: i64, more: i64) -> Result<i64, $0> {
    if sum <= LIMIT - more { Ok(sum + more) } else { Err($0::Sum) }
}
";

pub(crate) const TOTAL: &str = "
fn total(sums: &Sums) -> i128 {
    sums.iter().copied().map(i128::from).sum()
}
";

pub(crate) const KEYS_TEXT: &str = "
fn keys_text<K: fmt::Debug>(keys: &BTreeSet<K>) -> String {
    let texts: Vec<String> = keys.iter().map(|key| format!(\"{key:?}\")).collect();
    format!(\"[{}]\", texts.join(\",\"))
}
";

pub(crate) const ENTRIES_TEXT: &str = "
/// A name needs no escape, so `{:?}` writes it as JSON does.
fn entries_text<K: fmt::Debug, V>(table: &BTreeMap<K, V>, text: impl Fn(&V) -> String) -> String {
    let texts: Vec<String> = table.iter().map(|(key, value)| format!(\"[{key:?},{}]\", text(value))).collect();
    format!(\"[{}]\", texts.join(\",\"))
}
";

pub(crate) const READER: &str = "
/// Reads the text of a state file from the left.
struct Reader<'a> {
    rest: &'a [u8],
}

impl Reader<'_> {
    fn has(&mut self, mark: &str) -> bool {
        while let [b' ' | b'\\t' | b'\\r' | b'\\n', rest @ ..] = self.rest {
            self.rest = rest;
        }
        let rest = self.rest.strip_prefix(mark.as_bytes());
        self.rest = rest.unwrap_or(self.rest);
        rest.is_some()
    }

    fn take(&mut self, mark: &str) -> Result<(), $0> {
        if self.has(mark) { Ok(()) } else { Err($0::State) }
    }

    /// The bytes before the first that isn't one of these.
    fn while_in(&mut self, among: impl Fn(u8) -> bool) -> &str {
        let end = self.rest.iter().position(|b| !among(*b)).unwrap_or(self.rest.len());
        let (taken, rest) = self.rest.split_at(end);
        self.rest = rest;
        std::str::from_utf8(taken).unwrap_or(\"\")
    }

    /// A whole number of 64 bits, with no needless sign or digit.
    fn number(&mut self) -> Result<i64, $0> {
        self.take(\"\")?;
        let text = self.while_in(|b| b == b'-' || b.is_ascii_digit());
        let value: i64 = text.parse().map_err(|_| $0::State)?;
        let needless = text.len() > 1 && text.trim_start_matches('-').starts_with('0');
        if needless { Err($0::State) } else { Ok(value) }
    }

    fn between(&mut self, least: i64, most: i64) -> Result<i64, $0> {
        let value = self.number()?;
        if least <= value && value <= most { Ok(value) } else { Err($0::State) }
    }

    /// The number and the clock, and what is before the parts.
    fn head(&mut self) -> Result<(u8, i64), $0> {
        for mark in [\"[\", \"\\\"state\\\"\", \",\", \"1\", \",\"] {
            self.take(mark)?;
        }
        let replica = self.between(1, 32)? as u8;
        self.take(\",\")?;
        let clock = self.between(0, LATEST)?;
        self.take(\",\")?;
        self.take(\"[\")?;
        Ok((replica, clock))
    }

    fn end(&mut self) -> Result<(), $0> {
        self.take(\"]\")?;
        self.take(\"]\")?;
        self.take(\"\")?;
        if self.rest.is_empty() { Ok(()) } else { Err($0::State) }
    }
";

pub(crate) const READ_WIDE: &str = "
    /// A whole number of 64 bits, with or without a sign.\n    fn wide(&mut self) -> Result<i128, $0> {
        self.take(\"\")?;
        let text = self.while_in(|b| b == b'-' || b.is_ascii_digit());
        let value: i128 = text.parse().map_err(|_| $0::State)?;
        let needless = text.len() > 1 && text.trim_start_matches('-').starts_with('0');
        let fits = (i128::from(i64::MIN)..=i128::from(u64::MAX)).contains(&value);
        if needless || !fits { Err($0::State) } else { Ok(value) }
    }
";

pub(crate) const READ_NATURAL: &str = "
    fn read_natural(&mut self) -> Result<i64, $0> {
        self.between(0, i64::MAX)
    }
";

pub(crate) const READ_NAME: &str = "
    fn read_name(&mut self) -> Result<String, $0> {
        self.take(\"\\\"\")?;
        let text = self.while_in(|b| is_name(&[b])).to_string();
        let whole = is_name(text.as_bytes()) && self.rest.first() == Some(&b'\"');
        self.take(\"\\\"\")?;
        if whole { Ok(text) } else { Err($0::State) }
    }
";

pub(crate) const READ_FLAG: &str = "
    fn read_flag(&mut self) -> Result<bool, $0> {
        if self.has(\"true\") { Ok(true) } else { self.take(\"false\").map(|()| false) }
    }
";

pub(crate) const READ_KEYS: &str = "
    /// A list of keys, each after the one before it.
    fn read_keys<K: Ord + Clone>(
        &mut self,
        key: impl Fn(&mut Self) -> Result<K, $0>,
        mut each: impl FnMut(&mut Self, K) -> Result<(), $0>,
    ) -> Result<(), $0> {
        let mut before: Option<K> = None;
        self.take(\"[\")?;
        if self.has(\"]\") {
            return Ok(());
        }
        loop {
            let next = key(self)?;
            if before.is_some_and(|it| it >= next) {
                return Err($0::State);
            }
            each(self, next.clone())?;
            before = Some(next);
            if !self.has(\",\") {
                return self.take(\"]\");
            }
        }
    }
";

pub(crate) const READ_ENTRIES: &str = "
    /// A list of pairs of a key and what `each` reads.
    fn read_entries<K: Ord + Clone>(
        &mut self,
        key: impl Fn(&mut Self) -> Result<K, $0>,
        mut each: impl FnMut(&mut Self, K) -> Result<(), $0>,
    ) -> Result<(), $0> {
        let first = |reader: &mut Self| {
            reader.take(\"[\")?;
            key(reader)
        };
        self.read_keys(first, |reader, next| {
            reader.take(\",\")?;
            each(reader, next)?;
            reader.take(\"]\")
        })
    }
";

pub(crate) const READ_SUMS: &str = "
    fn read_sums(&mut self) -> Result<Sums, $0> {
        let mut sums = [0; 32];
        let key = |reader: &mut Self| reader.between(1, 32);
        self.read_entries(key, |reader, replica| {
            sums[replica as usize - 1] = reader.between(1, LIMIT)?;
            Ok(())
        })?;
        Ok(sums)
    }
";

pub(crate) const LARGEST: &str = "
/// The greatest number that is an argument.
const LARGEST: i64 = 1_000_000_000_000;
";

pub(crate) const LATEST: &str = "
/// The end of the clock.
const LATEST: i64 = 1_000_000_000;
";

pub(crate) const LIMIT: &str = "
/// The end of a replica's sum.
const LIMIT: i64 = 1_000_000_000_000_000_000;
";
