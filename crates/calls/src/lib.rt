// Calls that change a sheet, whatever keeps its words. Each answers and leaves what the plain sheet does.
#![tactic(auto)]

mod pixels;
mod scripts;
mod whole;

pub use pixels::{build, clear, put};
pub use scripts::Call;
pub use whole::load;
