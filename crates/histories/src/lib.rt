// Two histories of calls: what their lists and records tell.
#![tactic(auto)]

ghost use Rattle.histories.specs.Statements.{HistoriesTell};

// For every two openings within their limits and every two sequences of calls: lists that are given are equal, and so
// are records, exactly when both sheets have one size and the same drawing accepted last at every pixel.
pub fn histories_tell()
    ensures { HistoriesTell }
{}
