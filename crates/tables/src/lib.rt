// Crossing tables: whether one means a drawing, and the word of that drawing.
#![tactic(auto)]

mod building;
mod groups;
mod judging;

pub use building::build;
