// The roads of a pixel.
ghost use Rattle.std.specs.Prelude.{◌≡◌, [], ◌∷◌, Some};
ghost use Rattle.symbols.specs.Symbols.{road_code, road_letter, road_coded, or_unknown};

use crate::unknown::Unknown;
use std::fmt;

// A road of a pixel, one of its four sides.
#[derive(Clone, Copy, PartialEq, Eq, PartialOrd, Ord, Debug)]
pub enum Road {
    West,
    North,
    East,
    South,
}

impl Road {
    // The four roads, in the order of their codes.
    pub const ALL: [Road; 4] = [Road::West, Road::North, Road::East, Road::South];
}

// The road with a code, if the code is one of 0 to 3.
impl TryFrom<u8> for Road {
    type Error = Unknown<u8>;

    ghost try_from_gives = { λ n r. r ≡ or_unknown n (road_coded n) };

    fn try_from(code: u8) -> Result<Road, Unknown<u8>> {
        match code {
            0 => Ok(Road::West),
            1 => Ok(Road::North),
            2 => Ok(Road::East),
            3 => Ok(Road::South),
            _ => Err(Unknown(code)),
        }
    }
}

// The code of a road, 0 to 3.
impl From<Road> for u8 {
    ghost from_gives = { λ q n. n ≡ road_code q };

    fn from(road: Road) -> u8 {
        road as u8
    }
}

// The letter of a road.
impl From<Road> for char {
    ghost from_gives = { λ q c. c ≡ road_letter q };

    fn from(road: Road) -> char {
        match road {
            Road::West => 'W',
            Road::North => 'N',
            Road::East => 'E',
            Road::South => 'S',
        }
    }
}

// A road is printed as its letter.
impl fmt::Display for Road {
    ghost output = { λ q. Some (road_letter q ∷ []) };

    fn fmt<W: fmt::Write>(&self, f: &mut fmt::Formatter<W>) -> fmt::Result {
        f.write_str(match self {
            Road::West => "W",
            Road::North => "N",
            Road::East => "E",
            Road::South => "S",
        })
    }
}
