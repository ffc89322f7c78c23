//! Laws of both statements of reports.
ghost use Rattle.kat_search_laws.specs.Evidences.{DropsAreDue, DueDropsMayDrop, DueEndingsEnd, EndingsAreDue};
ghost use Rattle.kat_search_laws.specs.Laws.{HaveOneVerdict};
ghost use Rattle.kat_search_laws.specs.Reports.{AnswersAreReports, AnswersHaveNoFault, ConfirmedAreReports, ReportsAreConfirmed, ReportsHaveNoFault};

use kat_hist::histories_fit;

/// A law: a candidate may be dropped, and a block may end, in the same ways by both statements.
pub fn evidence_is_one()
    ensures drops_forth { DropsAreDue }
    ensures drops_back { DueDropsMayDrop }
    ensures ends_forth { EndingsAreDue }
    ensures ends_back { DueEndingsEnd }
{}

/// A law: the audit of a report has one verdict.
pub fn reports_have_one_verdict()
    ensures { HaveOneVerdict }
{}

/// A law: a report is confirmed if and only if it is one of the search that hides nothing.
pub fn reports_are_confirmed()
    ensures only { ConfirmedAreReports }
    ensures where_shown { ReportsAreConfirmed }
{
    histories_fit();
}

/// A law: of a report of the search whose numbers don't pass 2^126, no line is told to be one that isn't due, or to be missing.
pub fn reports_have_no_fault()
    ensures { ReportsHaveNoFault }
{
    histories_fit();
}

/// A law: each report that `synth` answers is such a report. So no line of it is told to be one that isn't due, or to be missing:
/// it is confirmed, or its evidence isn't shown, or a point is too wide.
pub fn answers_have_no_fault()
    ensures reports { AnswersAreReports }
    ensures told { AnswersHaveNoFault }
{
    histories_fit();
}
