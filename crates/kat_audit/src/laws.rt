//! Laws of how a report is judged.
ghost use Rattle.kat_audit.specs.Laws.{AreLines, ConfirmedAreRead, HaveOneVerdict, LinesDetermine};

/// A law: at most one state comes after a line, and a state has at most one verdict.
pub fn lines_determine_states()
    ensures { LinesDetermine }
{}

/// A law: a report has one verdict.
pub fn reports_have_one_verdict()
    ensures { HaveOneVerdict }
{}

/// A law: a report is confirmed if and only if all its lines are due, the last one last, none of them has a point that is too wide,
/// and no block ends with `long`.
pub fn confirmed_reports_are_read()
    ensures { ConfirmedAreRead }
{}

/// A law: each line that may be due is one line of a text, whatever comes after it; that of a history, if operations are named
/// by words, and the history has operations of the type.
pub fn due_lines_are_lines()
    ensures { AreLines }
{}
