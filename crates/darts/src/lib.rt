// The darts of a source: all of them, in order, and going on among them where no road fails.
#![tactic(auto)]

mod going;
mod leaving;
mod order;
mod passable;
mod pixels;

pub use order::Darts;
pub use passable::Passable;
pub use pixels::{pixels_of, places};
