//! Laws of the traces of a gsmSSF, each the contract of a function that does nothing.

ghost use Rattle.ssf_core.specs.Laws.{EachReportFits, InitialDpIsFirst, ReportsAreInRange, TheAnswerStays, TheSwitchStays};

/// Each charging report is the exact split, at the tariff switch, of what was talked since the
/// answer, while a period was pending and within the sum of the periods; where the call goes on it
/// is just that sum. The k-th report comes after the k-th accepted period and before the next.
pub fn each_report_fits()
    ensures { EachReportFits }
{}

/// The times of each charging report that is sent lie within their ranges: 0 to `DAY`, and an
/// interval before the switch is at least 1.
pub fn reports_are_in_range()
    ensures { ReportsAreInRange }
{}

/// The moment of the answer never changes once it is there.
pub fn the_answer_stays()
    ensures { TheAnswerStays }
{}

/// The moment of the tariff switch never changes once it has come.
pub fn the_switch_stays()
    ensures { TheSwitchStays }
{}

/// Of all that a gsmSSF sends only the first is an InitialDP, if any is: no call has two.
pub fn initial_dp_is_first()
    ensures { InitialDpIsFirst }
{}
