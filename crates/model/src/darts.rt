// Darts.
ghost use Rattle.std.specs.Prelude.{Some};
ghost use Rattle.model.specs.Streets.{item};

use std::fmt;
use symbols::Road;

// A dart leaves a pixel through a crossing: the pixel's number, the road, and the place on it, counted clockwise from 0.
// Darts are ordered by pixel, then road, then place.
#[derive(Clone, Copy, PartialEq, Eq, PartialOrd, Ord, Debug)]
pub struct Dart {
    pub pixel: u32,
    pub road: Road,
    pub place: u8,
}

// A dart is printed as its pixel, the letter of its road, and its place.
impl fmt::Display for Dart {
    ghost output = { λ d. Some (item d) };

    fn fmt<W: fmt::Write>(&self, f: &mut fmt::Formatter<W>) -> fmt::Result {
        let Dart { pixel, road, place } = self;
        write!(f, "{pixel}{road}{place}")
    }
}
