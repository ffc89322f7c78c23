//! Fixed text of Go after the type: `$1` is the type's word.

pub(crate) const ERRORS: &str = "
// What is wrong with a call that is refused; it changed nothing.
var (
\tErrReplica  = errors.New(\"$1: a replica's number is from 1 to 32\")
\tErrArgument = errors.New(\"$1: no argument\")
\tErrClock    = errors.New(\"$1: the clock is at its end\")
\tErrSum      = errors.New(\"$1: a sum is at its end\")
\tErrRange    = errors.New(\"$1: the answer has more than 64 bits\")
\tErrState    = errors.New(\"$1: no state\")
\tErrGap      = errors.New(\"$1: what is missing here isn't in the packet\")
\tErrMarks    = errors.New(\"$1: a state came without marks\")
)
";

pub(crate) const LARGEST: &str = "
const largest = 1_000_000_000_000 // of an argument
";

pub(crate) const LATEST: &str = "
const latest = 1_000_000_000 // of a clock
";

pub(crate) const LIMIT: &str = "
const limit = 1_000_000_000_000_000_000 // of a replica's sum
";

pub(crate) const CHECK_NAME: &str = "
func checkName(what, value string) error {
\tif !isName(value) {
\t\treturn fmt.Errorf(\"%w: %s\", ErrArgument, what)
\t}
\treturn nil
}
";

pub(crate) const IS_NAME: &str = "
func isName(text string) bool {
\tfor _, c := range []byte(text) {
\t\tif !(c >= '0' && c <= '9' || c >= 'A' && c <= 'Z' || c >= 'a' && c <= 'z' || c == '_' || c == '.' || c == '-') {
\t\t\treturn false
\t\t}
\t}
\treturn len(text) <= 15
}
";

pub(crate) const CHECK_NUMBER: &str = "
func checkNumber(what string, value, least int64) error {
\tif value < least || value > largest {
\t\treturn fmt.Errorf(\"%w: %s\", ErrArgument, what)
\t}
\treturn nil
}
";

pub(crate) const NEXT_TIME: &str = "
func nextTime(clock int64) (int64, error) {
\tif clock >= latest {
\t\treturn 0, ErrClock
\t}
\treturn clock + 1, nil
}
";

pub(crate) const AT_LEAST: &str = "
// atLeast gives the greater of two numbers.
func atLeast(least, value int64) int64 {
\tif value < least {
\t\treturn least
\t}
\treturn value
}
";

pub(crate) const PICK: &str = "
func pick[T any](first bool, a, b T) T {
\tif first {
\t\treturn a
\t}
\treturn b
}
";

pub(crate) const VALUE_AT: &str = "
// valueAt gives what is at a key, or the start.
func valueAt[K comparable, V any](table map[K]V, key K, start V) V {
\tif value, ok := table[key]; ok {
\t\treturn value
\t}
\treturn start
}
";

pub(crate) const SUMS: &str = "
// sums has what each replica added in all: that of replica 1 comes first.
type sums [32]int64

// raise: a replica's sums only grow, so the greater one is the later one. Whether one grew.
func (s *sums) raise(other *sums) bool {
\tgrew := false
\tfor i, sum := range other {
\t\tif sum > s[i] {
\t\t\ts[i], grew = sum, true
\t\t}
\t}
\treturn grew
}

func (s *sums) beyond(known *sums) sums {
\tvar more sums
\tfor i, sum := range s {
\t\tif sum > known[i] {
\t\t\tmore[i] = sum
\t\t}
\t}
\treturn more
}

func sumsText(s sums) string {
\tvar texts []string
\tfor i, sum := range s {
\t\tif sum > 0 {
\t\t\ttexts = append(texts, fmt.Sprintf(\"[%d,%d]\", i+1, sum))
\t\t}
\t}
\treturn \"[\" + strings.Join(texts, \",\") + \"]\"
}
";

pub(crate) const MARKS: &str = "
// note: a replica's mark is its latest time.
func (s *sums) note(replica int, time int64) {
\tif time > s[replica-1] {
\t\ts[replica-1] = time
\t}
}

func marksText(replica int, clock int64, marks sums) string {
\treturn fmt.Sprintf(\"[\\\"state\\\",1,%d,%d,[%s]]\\n\", replica, clock, sumsText(marks))
}

func readMarks(line string) (sums, error) {
\tin := reader{rest: line}
\tin.head()
\tmarks := in.amounts()
\tif !in.ended() {
\t\treturn marks, ErrState
\t}
\treturn marks, nil
}

// firstLine gives the first line, with its end, and what is after it.
func firstLine(text string) (string, string) {
\tend := strings.IndexByte(text, '\\n') + 1
\tif end == 0 {
\t\tend = len(text)
\t}
\treturn text[:end], text[end:]
}
";

pub(crate) const GROWN: &str = "
// grown is a replica's sum with some more.
func grown(sum, more int64) (int64, error) {
\tif sum > limit-more {
\t\treturn 0, ErrSum
\t}
\treturn sum + more, nil
}
";

pub(crate) const TOTAL: &str = "
func total(s sums) wide {
\tvar all wide
\tfor _, sum := range s {
\t\tall = all.plus(widen(sum))
\t}
\treturn all
}
";

pub(crate) const WIDE: &str = "
// wide is a whole number of 128 bits: 32 sums of 10^18 have more than 64.
type wide struct {
\thigh int64
\tlow  uint64
}

func widen(n int64) wide {
\treturn wide{n >> 63, uint64(n)}
}

func (a wide) plus(b wide) wide {
\tlow, carry := bits.Add64(a.low, b.low, 0)
\treturn wide{a.high + b.high + int64(carry), low}
}

func (a wide) minus(b wide) wide {
\tlow, borrow := bits.Sub64(a.low, b.low, 0)
\treturn wide{a.high - b.high - int64(borrow), low}
}

func (a wide) below(b wide) bool {
\treturn a.high < b.high || a.high == b.high && a.low < b.low
}

func (a wide) narrow() (int64, error) {
\tif a.high != int64(a.low)>>63 {
\t\treturn 0, ErrRange
\t}
\treturn int64(a.low), nil
}
";

pub(crate) const KEYS_TEXT: &str = "
func keysText[K int64 | string](keys map[K]bool) string {
\tvar texts []string
\tfor _, key := range ascending(keys) {
\t\ttexts = append(texts, keyText(key))
\t}
\treturn \"[\" + strings.Join(texts, \",\") + \"]\"
}
";

pub(crate) const ENTRIES_TEXT: &str = "
func entriesText[K int64 | string, V any](table map[K]V, text func(V) string) string {
\tvar texts []string
\tfor _, key := range ascending(table) {
\t\ttexts = append(texts, \"[\"+keyText(key)+\",\"+text(table[key])+\"]\")
\t}
\treturn \"[\" + strings.Join(texts, \",\") + \"]\"
}
";

pub(crate) const ASCENDING: &str = "
func ascending[K int64 | string, V any](table map[K]V) []K {
\tkeys := make([]K, 0, len(table))
\tfor key := range table {
\t\tkeys = append(keys, key)
\t}
\tsort.Slice(keys, func(i, j int) bool { return keys[i] < keys[j] })
\treturn keys
}

// keyText writes a key: a name needs no escape.
func keyText[K int64 | string](key K) string {
\tif name, ok := any(key).(string); ok {
\t\treturn `\"` + name + `\"`
\t}
\treturn fmt.Sprint(key)
}
";

pub(crate) const READER: &str = "
// reader reads the text of a state file from the left; after a fault it reads nothing more.
type reader struct {
\trest   string
\tfailed bool
}

func (in *reader) fail() {
\tin.rest, in.failed = \"\", true
}

func (in *reader) has(mark string) bool {
\tin.rest = strings.TrimLeft(in.rest, \" \\t\\r\\n\")
\tfound := strings.HasPrefix(in.rest, mark)
\tif found {
\t\tin.rest = in.rest[len(mark):]
\t}
\treturn found
}

func (in *reader) take(mark string) {
\tif !in.has(mark) {
\t\tin.fail()
\t}
}

// number reads a whole number of 64 bits, with no needless sign or digit.
func (in *reader) number() int64 {
\tin.take(\"\")
\tend := 0
\tfor end < len(in.rest) && (in.rest[end] == '-' || in.rest[end] >= '0' && in.rest[end] <= '9') {
\t\tend++
\t}
\ttext := in.rest[:end]
\tvalue, err := strconv.ParseInt(text, 10, 64)
\tif err != nil || len(text) > 1 && strings.TrimLeft(text, \"-\")[0] == '0' {
\t\tin.fail()
\t\treturn 0
\t}
\tin.rest = in.rest[end:]
\treturn value
}

func (in *reader) between(least, most int64) int64 {
\tvalue := in.number()
\tif value < least || value > most {
\t\tin.fail()
\t\treturn least
\t}
\treturn value
}

// head reads the number and the clock, and what is before the parts.
func (in *reader) head() (int, int64) {
\tfor _, mark := range []string{\"[\", `\"state\"`, \",\", \"1\", \",\"} {
\t\tin.take(mark)
\t}
\treplica := in.between(1, 32)
\tin.take(\",\")
\tclock := in.between(0, latest)
\tin.take(\",\")
\tin.take(\"[\")
\treturn int(replica), clock
}

func (in *reader) ended() bool {
\tin.take(\"]\")
\tin.take(\"]\")
\tin.take(\"\")
\treturn !in.failed && in.rest == \"\"
}
";

pub(crate) const READ_WIDE: &str = "
// wide reads a whole number of 64 bits, with or without a sign.
func (in *reader) wide() wide {
\tin.take(\"\")
\tif strings.HasPrefix(in.rest, \"-\") {
\t\treturn widen(in.number())
\t}
\tend := 0
\tfor end < len(in.rest) && in.rest[end] >= '0' && in.rest[end] <= '9' {
\t\tend++
\t}
\ttext := in.rest[:end]
\tvalue, err := strconv.ParseUint(text, 10, 64)
\tif err != nil || len(text) > 1 && text[0] == '0' {
\t\tin.fail()
\t\treturn wide{}
\t}
\tin.rest = in.rest[end:]
\treturn wide{0, value}
}

// String writes a number of 64 bits, with or without a sign.
func (a wide) String() string {
\tif a.high < 0 {
\t\treturn strconv.FormatInt(int64(a.low), 10)
\t}
\treturn strconv.FormatUint(a.low, 10)
}
";

pub(crate) const NATURAL: &str = "
func (in *reader) natural() int64 {
\treturn in.between(0, math.MaxInt64)
}
";

pub(crate) const NAME: &str = "
func (in *reader) name() string {
\tin.take(`\"`)
\tend := strings.IndexByte(in.rest, '\"')
\tif end < 0 || !isName(in.rest[:end]) {
\t\tin.fail()
\t\treturn \"\"
\t}
\tname := in.rest[:end]
\tin.rest = in.rest[end+1:]
\treturn name
}
";

pub(crate) const FLAG: &str = "
func (in *reader) flag() bool {
\tif in.has(\"true\") {
\t\treturn true
\t}
\tin.take(\"false\")
\treturn false
}
";

pub(crate) const AMOUNTS: &str = "
// amounts reads a list of pairs of a replica and its sum.
func (in *reader) amounts() sums {
\tvar all sums
\tkey := func() int64 { return in.between(1, 32) }
\treadEntries(in, key, func(replica int64) { all[replica-1] = in.between(1, limit) })
\treturn all
}
";

pub(crate) const READ_KEYS: &str = "
// readKeys reads a list of keys, each after the one before it.
func readKeys[K int64 | string](in *reader, key func() K, each func(K)) {
\tin.take(\"[\")
\tif in.has(\"]\") {
\t\treturn
\t}
\tbefore := key()
\tfor next := before; !in.failed; before = next {
\t\teach(next)
\t\tif !in.has(\",\") {
\t\t\tin.take(\"]\")
\t\t\treturn
\t\t}
\t\tif next = key(); next <= before {
\t\t\tin.fail()
\t\t}
\t}
}
";

pub(crate) const READ_ENTRIES: &str = "
// readEntries reads a list of pairs of a key and what each reads.
func readEntries[K int64 | string](in *reader, key func() K, each func(K)) {
\tfirst := func() K {
\t\tin.take(\"[\")
\t\treturn key()
\t}
\treadKeys(in, first, func(next K) {
\t\tin.take(\",\")
\t\teach(next)
\t\tin.take(\"]\")
\t})
}
";
