// Walks over any source, and the roots of darts.
#![tactic(auto)]

mod orders;
mod roots;
mod steps;
mod walk;

pub use orders::darts_compare;
pub use roots::{root, roots_are_least, walks_come_home};
pub use steps::walk_on;
pub use walk::Walk;
