// Reading the symbols of a word, a symbol at a time.
ghost use Rattle.std.specs.Prelude.{◌≡◌, ℕ, ◌+◌, ◌<◌, ◌≤◌, false, [], length, Some, None, MatchOption};
ghost use Rattle.rows.specs.Rows.{items};
ghost use Rattle.rules.specs.Words.{is_corner, corners, ends, shaped, drawing_of, judged};
ghost use Rattle.drawings.specs.Reading.{Meeting, meets, open_marks};
ghost use Rattle.drawings.specs.Drawings.{draws, in_crossings};

use crate::Drawing;
use rows::Row;
use symbols::{Crossing, Mark, Refusal, Symbol};

// What a crossing symbol does: the first crossing of its group, and whether that has a vertex.
#[derive(Clone, Copy)]
struct Met {
    group: u16,
    vertex: bool,
}

fn is_corner(s: &Symbol) -> bool
    ensures { result ≡ is_corner s.now }
{
    matches!(s, Symbol::Corner)
}

// How many corners there are.
fn corners_in(symbols: &[Symbol]) -> usize
    ensures { result ≡ corners symbols.now }
{
    symbols.iter().filter(|s| is_corner(s)).count()
}

// Whether the last symbol is a corner.
fn ends_in_corner(symbols: &[Symbol]) -> bool
    ensures { result ≡ ends false symbols.now }
{
    match symbols {
        [.., last] => is_corner(last),
        [] => false,
    }
}

// Whether symbols are 4 to 64 with four corners, one of them last.
fn has_shape(symbols: &[Symbol]) -> bool
    ensures { result ≡ shaped symbols.now }
{
    4 <= symbols.len() && symbols.len() <= 64 && corners_in(symbols) == 4 && ends_in_corner(symbols)
}

// One crossing symbol at crossing k, on the open marks.
fn meet(s: Symbol, marks: &mut Row<Mark, 64>, k: u16) -> Option<Met>
    requires { length (items marks.old) < 64 }
    ensures { MatchOption result (meets s k (open_marks marks.old) ≡ None)
        (λ m. (meets s k (open_marks marks.old) ≡ Some (record { group = m.group; vertex = m.vertex; marks = open_marks marks.new })) × (length (items marks.new) ≤ length (items marks.old) + 1)) }
{
    match s {
        Symbol::Corner => None,
        Symbol::DeadEnd => Some(Met {
            group: k,
            vertex: true,
        }),
        Symbol::SplitOpen => {
            marks.push(Mark::Split(k))?;
            Some(Met {
                group: k,
                vertex: false,
            })
        }
        Symbol::JunctionOpen => {
            marks.push(Mark::Junction(k))?;
            Some(Met {
                group: k,
                vertex: true,
            })
        }
        Symbol::SplitClose => match marks.pop()? {
            Mark::Split(group) => Some(Met {
                group,
                vertex: false,
            }),
            Mark::Junction(_) => None,
        },
        Symbol::Branch => match marks.as_slice().last()? {
            Mark::Split(_) => None,
            Mark::Junction(group) => Some(Met {
                group: *group,
                vertex: true,
            }),
        },
        Symbol::JunctionClose => match marks.pop()? {
            Mark::Split(_) => None,
            Mark::Junction(group) => Some(Met {
                group,
                vertex: true,
            }),
        },
    }
}

// Reads symbols from left to right into a row of crossings; nothing where they do not read through. The row is lent, since
// it would be moved twice on its way out.
fn read_crossings(symbols: &[Symbol], crossings: &mut Row<Crossing, 64>) -> Option<()>
    requires { (length symbols.now ≤ 64) × (items crossings.old ≡ []) }
    ensures { MatchOption result (drawing_of symbols.now ≡ None) (λ _. drawing_of symbols.now ≡ Some (items crossings.new)) }
{
    let mut marks = Row::over([Mark::Split(0); 64]);
    let mut road: u8 = 0;
    for s in symbols {
        if let Symbol::Corner = s {
            road += 1;
            continue;
        }
        let Met { group, vertex } = meet(*s, &mut marks, crossings.len() as u16)?;
        crossings.push(Crossing {
            road,
            group,
            vertex,
        })?;
    }
    if !marks.is_empty() {
        return None;
    }
    Some(())
}

impl Drawing {
    // What symbols draw: refused where they are not 4 to 64 with four corners and one last, then where they do not read through.
    pub fn read(symbols: &[Symbol]) -> Result<Drawing, Refusal>
        ensures { in_crossings result ≡ draws (judged symbols.now) }
    {
        if !has_shape(symbols) {
            return Err(Refusal::NoWord);
        }
        let mut crossings = Row::over([Crossing {
            road: 0,
            group: 0,
            vertex: false,
        }; 64]);
        read_crossings(symbols, &mut crossings).ok_or(Refusal::Unlawful)?;
        Ok(Drawing { crossings })
    }
}
