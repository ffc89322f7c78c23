//! Fixed text of Python after the class: `$0` is the error's name and `$1` the type's word.

pub(crate) const ERROR: &str = "

class $0(ValueError):
    \"\"\"A call that is refused. `problem` is `argument`, `replica` (its number), `clock` or `sum` (their limits), `state` (a text),
    `gap` (a packet leaves out what is missing here) or `marks` (which aren't known).\"\"\"

    def __init__(self, problem: str, text: str) -> None:
        super().__init__(text)
        self.problem = problem
";

pub(crate) const CHECK_NAME: &str = "

def _check_name(what: str, value: str) -> None:
    if not isinstance(value, str) or not re.fullmatch(\"[0-9A-Za-z_.-]{0,15}\", value):
        raise $0(\"argument\", f\"{what} is no name\")
";

pub(crate) const CHECK_FLAG: &str = "

def _check_flag(what: str, value: bool) -> None:
    if not isinstance(value, bool):
        raise $0(\"argument\", f\"{what} is no truth value\")
";

pub(crate) const CHECK_NUMBER: &str = "

def _check_number(what: str, value: int, least: int) -> None:
    if type(value) is not int or not least <= value <= _LARGEST:
        raise $0(\"argument\", f\"{what} is no number from {least} to {_LARGEST}\")
";

pub(crate) const NEXT_TIME: &str = "

def _next_time(clock: int) -> int:
    if clock >= _LATEST:
        raise $0(\"clock\", \"the clock is at its end\")
    return clock + 1
";

pub(crate) const NOTE_TIME: &str = "

def _note_time(marks: dict[int, int] | None, replica: int, time: int) -> None:
    \"\"\"A replica's mark is its latest time, unless no marks are known.\"\"\"
    if marks is not None and time > marks.get(replica, 0):
        marks[replica] = time
";

pub(crate) const MARKS: &str = "

def _joined_marks(marks: dict[int, int] | None, others: dict[int, int] | None) -> dict[int, int] | None:
    \"\"\"The marks of both, unless those of one aren't known.\"\"\"
    if marks is None or others is None:
        return None
    _raise_sums(marks, others)
    return marks


def _known_marks(marks: dict[int, int] | None) -> dict[int, int]:
    if marks is None:
        raise $0(\"marks\", \"a state came without marks\")
    return marks


def _marks_text(replica: int, clock: int, marks: dict[int, int]) -> str:
    return json.dumps([\"state\", 1, replica, clock, [sorted(marks.items())]], separators=(\",\", \":\")) + \"\\n\"


def _read_marks(line: str) -> dict[int, int]:
    _, _, parts = _file(line, 1)
    return _sums(parts[0])
";

pub(crate) const GROWN: &str = "

def _grown(sums: dict[int, int], replica: int, more: int) -> int:
    \"\"\"A replica's sum with some more, which may be no greater than _LIMIT.\"\"\"
    value = sums.get(replica, 0) + more
    if value > _LIMIT:
        raise $0(\"sum\", \"a sum is at its end\")
    return value
";

pub(crate) const RAISE_SUMS: &str = "

def _raise_sums(sums: dict[int, int], other: dict[int, int]) -> bool:
    \"\"\"A replica's sums only grow, so the greater one is the later one. Whether one grew.\"\"\"
    later = _sums_beyond(other, sums)
    sums.update(later)
    return bool(later)
";

pub(crate) const SUMS_BEYOND: &str = "

def _sums_beyond(sums: dict[int, int], known: dict[int, int]) -> dict[int, int]:
    return {replica: value for replica, value in sums.items() if value > known.get(replica, 0)}
";

pub(crate) const BAD_STATE: &str = "

def _bad_state() -> $0:
    return $0(\"state\", \"no state of $1\")
";

pub(crate) const WHOLE: &str = "

def _whole(digits: str) -> int:
    \"\"\"A number of a text; `-0` is none, as for katara.\"\"\"
    if digits == \"-0\":
        raise ValueError(digits)
    return int(digits)
";

pub(crate) const FILE: &str = "

def _file(text: str, count: int) -> tuple[int, int, list[Any]]:
    \"\"\"The number, the clock and the parts of a state file.\"\"\"
    try:
        file = json.loads(text, parse_int=_whole)
    except (ValueError, RecursionError):
        raise _bad_state() from None
    head, version, replica, clock, state = _items(file, 5)
    if head != \"state\" or type(version) is not int or version != 1:
        raise _bad_state()
    return _between(replica, 1, 32), _between(clock, 0, _LATEST), _items(state, count)
";

pub(crate) const ITEMS: &str = "

def _items(value: Any, count: int | None = None) -> list[Any]:
    if not isinstance(value, list) or count is not None and len(value) != count:
        raise _bad_state()
    return value
";

pub(crate) const BETWEEN: &str = "

def _between(value: Any, least: int, most: int) -> int:
    if type(value) is not int or not least <= value <= most:
        raise _bad_state()
    return value
";

pub(crate) const NUMBER: &str = "

def _number(value: Any) -> int:
    return _between(value, -(2**63), 2**64 - 1)
";

pub(crate) const NATURAL: &str = "

def _natural(value: Any) -> int:
    return _between(value, 0, 2**64 - 1)
";

pub(crate) const NAME: &str = "

def _name(value: Any) -> str:
    if not isinstance(value, str) or not re.fullmatch(\"[0-9A-Za-z_.-]{0,15}\", value):
        raise _bad_state()
    return value
";

pub(crate) const FLAG: &str = "

def _flag(value: Any) -> bool:
    if not isinstance(value, bool):
        raise _bad_state()
    return value
";

pub(crate) const KEY: &str = "

_Key = TypeVar(\"_Key\", int, str)
";

pub(crate) const ASCENDING: &str = "

def _ascending(values: list[Any], key: Callable[[Any], _Key]) -> Iterator[_Key]:
    \"\"\"The keys, each after the one before it.\"\"\"
    keys = [key(value) for value in values]
    if any(not before < after for before, after in zip(keys, keys[1:])):
        raise _bad_state()
    return iter(keys)
";

pub(crate) const ENTRIES: &str = "

def _entries(value: Any, key: Callable[[Any], _Key]) -> Iterator[tuple[_Key, Any]]:
    \"\"\"The pairs of a key and a value, in the order of the keys.\"\"\"
    pairs = [_items(pair, 2) for pair in _items(value)]
    return zip(_ascending([pair[0] for pair in pairs], key), [pair[1] for pair in pairs])
";

pub(crate) const SUMS: &str = "

def _sums(value: Any) -> dict[int, int]:
    pairs = _entries(value, lambda replica: _between(replica, 1, 32))
    return {replica: _between(amount, 1, _LIMIT) for replica, amount in pairs}
";
