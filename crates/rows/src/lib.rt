// Lists in an array: they never allocate, and are copied as numbers are.
#![tactic(auto)]

mod lists;
mod row;

pub use row::Row;
