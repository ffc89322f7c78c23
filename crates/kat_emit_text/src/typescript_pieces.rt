//! Fixed text of TypeScript after the class: `$0` is the error's name and `$1` the type's word.

pub(crate) const ERROR: &str = "
export class $0 extends Error {
  /** What is wrong: an argument, a replica's number, a limit of the clock or of a sum, a text, or a gap in a packet; or no marks are known. */
  ~readonly ~problem~: Problem~;

  constructor(problem~: Problem~, text~: string~) {
    super(text);
    this.name = \"$0\";
    this.problem = problem;
  }
}
";

pub(crate) const PROBLEM: &str = "~
export type Problem = \"argument\" | \"replica\" | \"clock\" | \"sum\" | \"state\" | \"gap\" | \"marks\";
~";

pub(crate) const REFUSAL: &str = "
function refusal(problem~: Problem~, text~: string~)~: $0~ {
  return new $0(problem, text);
}
";

pub(crate) const READER: &str = "
/** Reads the text of a state file from the left. */
class Reader {
  ~readonly ~#text~: string~;
  #at = 0;

  constructor(text~: string~) {
    this.#text = text;
  }

  refuse()~: never~ {
    throw refusal(\"state\", `no state of $1: at ${this.#at}`);
  }

  #token(pattern~: RegExp~)~: string | undefined~ {
    pattern.lastIndex = this.#at;
    const found = pattern.exec(this.#text)?.[0];
    this.#at += found?.length ?? 0;
    return found;
  }

  has(mark~: string~)~: boolean~ {
    this.#token(/[ \\t\\r\\n]*/y);
    const it = this.#text.startsWith(mark, this.#at);
    if (it) this.#at += mark.length;
    return it;
  }

  take(mark~: string~)~: void~ {
    if (!this.has(mark)) this.refuse();
  }

  /** A whole number of 64 bits, with or without a sign. */
  number()~: bigint~ {
    this.has(\"\");
    const value = BigInt(this.#token(/0|-?[1-9][0-9]{0,19}/y) ?? this.refuse());
    return value >= -(1n << 63n) && value < 1n << 64n ? value : this.refuse();
  }

  between(least~: bigint~, most~: bigint~)~: bigint~ {
    const value = this.number();
    return least <= value && value <= most ? value : this.refuse();
  }

  natural()~: bigint~ {
    return this.between(0n, 1n << 64n);
  }

  replica()~: number~ {
    return Number(this.between(1n, 32n));
  }

  name()~: string~ {
    this.has(\"\");
    return (this.#token(/\"[0-9A-Za-z_.-]{0,15}\"/y) ?? this.refuse()).slice(1, -1);
  }

  flag()~: boolean~ {
    if (this.has(\"true\")) return true;
    this.take(\"false\");
    return false;
  }

  /** A list of keys, each after the one before it. */
  keys~<K extends Key>~(key~: () => K~, each~: (key: K) => void~)~: void~ {
    let before~: K | undefined~;
    this.take(\"[\");
    if (this.has(\"]\")) return;
    do {
      const next = key();
      if (before !== undefined && !(before < next)) this.refuse();
      each(next);
      before = next;
    } while (this.has(\",\"));
    this.take(\"]\");
  }

  /** A list of pairs of a key and what `each` reads. */
  entries~<K extends Key>~(key~: () => K~, each~: (key: K) => void~)~: void~ {
    const first = () => {
      this.take(\"[\");
      return key();
    };
    this.keys(first, (next) => {
      this.take(\",\");
      each(next);
      this.take(\"]\");
    });
  }

  head()~: number~ {
    for (const mark of [\"[\", '\"state\"', \",\", \"1\", \",\"]) this.take(mark);
    return this.replica();
  }

  clock()~: bigint~ {
    this.take(\",\");
    const clock = this.between(0n, LATEST);
    this.take(\",\");
    return clock;
  }

  end()~: void~ {
    this.take(\"]\");
    this.take(\"]\");
    this.has(\"\");
    if (this.#at < this.#text.length) this.refuse();
  }
}
";

pub(crate) const CHECK_NAME: &str = "
function checkName(what~: string~, value~: string~)~: void~ {
  if (typeof value !== \"string\" || !/^[0-9A-Za-z_.-]{0,15}$/.test(value)) throw refusal(\"argument\", `${what} is no name`);
}
";

pub(crate) const CHECK_FLAG: &str = "
function checkFlag(what~: string~, value~: boolean~)~: void~ {
  if (typeof value !== \"boolean\") throw refusal(\"argument\", `${what} is no truth value`);
}
";

pub(crate) const CHECK_NUMBER: &str = "
function checkNumber(what~: string~, value~: bigint~, least~: bigint~)~: void~ {
  if (typeof value !== \"bigint\" || value < least || value > LARGEST) throw refusal(\"argument\", `${what} is no number from ${least} to ${LARGEST}`);
}
";

pub(crate) const NEXT_TIME: &str = "
function nextTime(clock~: bigint~)~: bigint~ {
  if (clock >= LATEST) throw refusal(\"clock\", \"the clock is at its end\");
  return clock + 1n;
}
";

pub(crate) const NOTE_TIME: &str = "
/** A replica's mark is its latest time, unless no marks are known. */
function noteTime(marks~: Sums | undefined~, replica~: number~, time~: bigint~)~: void~ {
  if (marks !== undefined && time > (marks.get(replica) ?? 0n)) marks.set(replica, time);
}
";

pub(crate) const MARKS: &str = "
/** The marks of both, unless those of one aren't known. */
function joinedMarks(marks~: Sums | undefined~, others~: Sums | undefined~)~: Sums | undefined~ {
  if (marks === undefined || others === undefined) return undefined;
  raiseSums(marks, others);
  return marks;
}

function knownMarks(marks~: Sums | undefined~)~: Sums~ {
  if (marks === undefined) throw refusal(\"marks\", \"a state came without marks\");
  return marks;
}

function marksText(replica~: number~, clock~: bigint~, marks~: Sums~)~: string~ {
  return `[\"state\",1,${replica},${clock},[${sumsText(marks)}]]\\n`;
}

function readMarks(line~: string~)~: Sums~ {
  const reader = new Reader(line);
  reader.head();
  reader.clock();
  reader.take(\"[\");
  const marks = readSums(reader);
  reader.end();
  return marks;
}

/** The first line, with its end, and what is after it. */
function firstLine(text~: string~)~: [string, string]~ {
  const end = text.indexOf(\"\\n\") + 1 || text.length;
  return [text.slice(0, end), text.slice(end)];
}
";

pub(crate) const GROWN: &str = "
/** A replica's sum with some more, which may be no greater than LIMIT. */
function grown(sum~: bigint | undefined~, more~: bigint~)~: bigint~ {
  const value = (sum ?? 0n) + more;
  if (value > LIMIT) throw refusal(\"sum\", \"a sum is at its end\");
  return value;
}
";

pub(crate) const TOTAL: &str = "
function total(sums~?: Sums~)~: bigint~ {
  let all = 0n;
  for (const sum of sums?.values() ?? []) all += sum;
  return all;
}
";

pub(crate) const RAISE_SUMS: &str = "
/** A replica's sums only grow, so the greater one is the later one. Whether one grew. */
function raiseSums(sums~: Sums~, other~: Sums~)~: boolean~ {
  let grew = false;
  for (const [replica, sum] of other) {
    if (sum > (sums.get(replica) ?? 0n)) {
      sums.set(replica, sum);
      grew = true;
    }
  }
  return grew;
}
";

pub(crate) const SUMS_BEYOND: &str = "
function sumsBeyond(sums~: Sums~, known~?: Sums~)~: Sums~ {
  const more = new Map~<number, bigint>~();
  for (const [replica, sum] of sums) if (sum > (known?.get(replica) ?? 0n)) more.set(replica, sum);
  return more;
}
";

pub(crate) const SUMS_AT: &str = "
function sumsAt~<K>~(table~: Map<K, Sums>~, key~: K~)~: Sums~ {
  let sums = table.get(key);
  if (sums === undefined) table.set(key, (sums = new Map()));
  return sums;
}
";

pub(crate) const KEYS_TEXT: &str = "
function keysText~<K extends Key>~(keys~: Set<K>~)~: string~ {
  return `[${ascending(keys).map(keyText).join(\",\")}]`;
}
";

pub(crate) const ENTRIES_TEXT: &str = "
function entriesText~<K extends Key, V>~(table~: Map<K, V>~, text~: (value: V) => string~)~: string~ {
  return `[${ascending(table.keys()).map((key) => `[${keyText(key)},${text(table.get(key)~!~)}]`).join(\",\")}]`;
}
";

pub(crate) const SUMS_TEXT: &str = "
function sumsText(sums~: Sums~)~: string~ {
  return entriesText(sums, String);
}
";

pub(crate) const ASCENDING: &str = "
function ascending~<K extends Key>~(keys~: Iterable<K>~)~: K[]~ {
  return [...keys].sort((a, b) => (a < b ? -1 : a > b ? 1 : 0));
}
";

pub(crate) const KEY_TEXT: &str = "
function keyText(key~: Key~)~: string~ {
  return typeof key === \"string\" ? `\"${key}\"` : String(key);
}
";

pub(crate) const READ_SUMS: &str = "
function readSums(reader~: Reader~)~: Sums~ {
  const sums = new Map~<number, bigint>~();
  reader.entries(() => reader.replica(), (replica) => sums.set(replica, reader.between(1n, LIMIT)));
  return sums;
}
";

pub(crate) const SUMS: &str = "~
/** What each replica added in all, where that is above 0. */
type Sums = Map<number, bigint>;
~";

pub(crate) const KEY: &str = "~
type Key = string | bigint | number;
~";

pub(crate) const LARGEST: &str = "
const LARGEST = 1_000_000_000_000n; // of an argument
";

pub(crate) const LATEST: &str = "
const LATEST = 1_000_000_000n; // of a clock
";

pub(crate) const LIMIT: &str = "
const LIMIT = 1_000_000_000_000_000_000n; // of a replica's sum
";
