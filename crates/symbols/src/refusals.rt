// Why a call is refused, and how one that is not fills the memory lent to it.
ghost use Rattle.std.specs.Prelude.{◌≡◌, Some};
ghost use Rattle.symbols.specs.Refusals.{number, refusal_text, fill_answer, filled};

use crate::roads::Road;
use std::error::Error;
use std::fmt;

// Why a call was refused.
#[derive(Clone, Copy, PartialEq, Eq, Debug)]
pub enum Refusal {
    // 1: a side, a slot or the memory does not suit a store, or a record has another size than the sheet
    Opening,
    // 2: the sheet has no such pixel
    NoPixel,
    // 3: not 4 to 64 known symbols, or not four corners with one of them last
    NoWord,
    // 4: the symbols do not read through as a word
    Unlawful,
    // 5: the word is longer than the store takes
    OverLongest,
    // 6: all words together would be longer than the store takes
    OverTotal,
    // 7: over 60 records, a road above 3, or a falling road
    Roads,
    // 8: the flags of a group differ
    Flags,
    // 9: a group without a vertex is not of two records
    Pairs,
    // 10: groups cross
    Crossed,
    // 11: the sheet has no such dart
    NoDart,
    // 12: a road has a crossing on the rim, or its two pixels count it differently
    RoadFails { pixel: u32, road: Road },
    // 13: a dart lies on a ring
    OnRing { pixel: u32, road: Road, place: u8 },
    // 14: the memory lent is shorter than the answer
    Short,
    // 15: a record breaks a rule of its format
    BadRecord,
    // 16: the walk is already home
    Home,
}

impl Refusal {
    // The number of a refusal.
    pub fn number(self) -> u8
        ensures { result ≡ number self }
    {
        match self {
            Refusal::Opening => 1,
            Refusal::NoPixel => 2,
            Refusal::NoWord => 3,
            Refusal::Unlawful => 4,
            Refusal::OverLongest => 5,
            Refusal::OverTotal => 6,
            Refusal::Roads => 7,
            Refusal::Flags => 8,
            Refusal::Pairs => 9,
            Refusal::Crossed => 10,
            Refusal::NoDart => 11,
            Refusal::RoadFails { .. } => 12,
            Refusal::OnRing { .. } => 13,
            Refusal::Short => 14,
            Refusal::BadRecord => 15,
            Refusal::Home => 16,
        }
    }
}

// A refusal is printed with its number and the place that it carries: the pixel and the letter of the road, and of a dart its
// place too.
impl fmt::Display for Refusal {
    ghost output = { λ f. Some (refusal_text f) };

    fn fmt<W: fmt::Write>(&self, f: &mut fmt::Formatter<W>) -> fmt::Result {
        let n = self.number();
        match self {
            Refusal::RoadFails { pixel, road } => write!(f, "refused {n} {pixel}{road}"),
            Refusal::OnRing { pixel, road, place } => {
                write!(f, "refused {n} {pixel}{road}{place}")
            }
            _ => write!(f, "refused {n}"),
        }
    }
}

impl Error for Refusal {}

// Copies an answer to the front of the memory lent for it and tells its length. Where the memory is shorter, nothing is written.
pub fn fill<T: Copy>(answer: &[T], memory: &mut [T]) -> Result<usize, Refusal>
    ensures answer { result ≡ fill_answer answer.now memory.old }
    ensures memory { memory.new ≡ filled answer.now memory.old }
{
    let n = answer.len();
    if n > memory.len() {
        return Err(Refusal::Short);
    }
    memory[..n].copy_from_slice(answer);
    Ok(n)
}
