// Symbols of words, roads, records of crossing tables, and refusals.
#![tactic(auto)]

mod refusals;
mod roads;
mod symbols;
mod unknown;

pub use refusals::{Refusal, fill};
pub use roads::Road;
pub use symbols::{Crossing, Mark, Symbol};
pub use unknown::Unknown;
