// What is told of two sheets.
use symbols::Refusal;

// What became of a sheet's list and record: how long they are, or why they are refused.
#[derive(Clone, Copy)]
pub struct Made {
    pub listed: Result<usize, Refusal>,
    pub recorded: Result<usize, Refusal>,
}

// What became of both sheets' lists and records, and whether the lists and the records are the same, where both are given.
#[derive(Clone, Copy)]
pub struct Verdict {
    pub left: Made,
    pub right: Made,
    pub lists: Option<bool>,
    pub records: Option<bool>,
}
