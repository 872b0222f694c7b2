// Questions about the crossings of a drawing.
ghost use Rattle.std.specs.Prelude.{◌≡◌, ℕ, ◌+◌, ◌-◌, ◌<◌, ◌≤◌, length, Some, None, MatchOption, ◌≢◌};
ghost use Rattle.symbols.specs.Symbols.{road_code};
ghost use Rattle.rules.specs.Crossings.{group_at, latest, soonest, leaves_at, enters_at, vertex_at, count_on, place_of, crossing_at};
ghost use Rattle.drawings.specs.Drawings.{crossings, place_code};

use crate::Drawing;
use symbols::{Crossing, Road};

// The last record of the group g.
fn last_of(table: &[Crossing], g: u16) -> Option<usize>
    ensures { MatchOption result ((k : ℕ) → k < length table.now → group_at table.now k ≢ g)
        (λ i. (i < length table.now) × (group_at table.now i ≡ g) × ((k : ℕ) → i < k → k < length table.now → group_at table.now k ≢ g)) }
{
    table.iter().rposition(|c| c.group == g)
}

// The first record of the group g.
fn first_of(table: &[Crossing], g: u16) -> Option<usize>
    ensures { MatchOption result ((k : ℕ) → k < length table.now → group_at table.now k ≢ g)
        (λ i. (i < length table.now) × (group_at table.now i ≡ g) × ((k : ℕ) → k < i → group_at table.now k ≢ g)) }
{
    table.iter().position(|c| c.group == g)
}

// The last record below n of the group g; z where there is none.
fn last_below(table: &[Crossing], g: u16, z: usize, n: usize) -> usize
    requires { n ≤ length table.now }
    ensures { result ≡ latest (group_at table.now) g z n }
{
    last_of(&table[..n], g).unwrap_or(z)
}

// The first record from `from` on of the group g; z where there is none.
fn first_from(table: &[Crossing], g: u16, z: usize, from: usize) -> usize
    requires { from ≤ length table.now }
    ensures { result ≡ soonest (group_at table.now) g z (length table.now - from) from }
{
    let Some(n) = first_of(&table[from..], g) else {
        return z;
    };
    from + n
}

// The road with a code that is known to be one of 0 to 3.
fn known_road(code: u8) -> Road
    requires { code ≤ 3 }
    ensures { road_code result ≡ code }
{
    Road::try_from(code).unwrap()
}

// How many records are on the road with a code.
fn count_in(table: &[Crossing], road: u8) -> usize
    ensures { result ≡ count_on road table.now }
{
    table.iter().filter(|c| c.road == road).count()
}

// The record with as many before it on the road with a code. A loop: that `nth` of the filtered records is this one was
// not found by the check.
fn find_place(table: &[Crossing], road: u8, place: usize) -> Option<usize>
    ensures { result ≡ crossing_at table.now road place }
{
    let mut left = place;
    for (i, c) in table.iter().enumerate() {
        if c.road != road {
            continue;
        }
        if left == 0 {
            return Some(i);
        }
        left -= 1;
    }
    None
}

// Counterclockwise before record i in its group, from its first to its last.
fn turn_back(table: &[Crossing], i: usize) -> Option<usize>
    ensures { result ≡ leaves_at table.now i }
{
    let g = table.get(i)?.group;
    let top = last_below(table, g, i, table.len());
    Some(last_below(table, g, top, i))
}

// Clockwise after record i in its group, from its last to its first.
fn turn_on(table: &[Crossing], i: usize) -> Option<usize>
    ensures { result ≡ enters_at table.now i }
{
    let g = table.get(i)?.group;
    let low = first_from(table, g, i, 0);
    Some(first_from(table, g, low, i + 1))
}

impl Drawing {
    // The crossings in clockwise order; a group's number is its first crossing.
    pub fn crossings(&self) -> &[Crossing]
        ensures { result.now ≡ crossings self.now }
    {
        self.crossings.as_slice()
    }

    // How many crossings there are.
    pub fn len(&self) -> usize
        ensures { result ≡ length (crossings self.now) }
    {
        self.crossings.len()
    }

    // How many crossings a road has.
    pub fn count_on(&self, road: Road) -> usize
        ensures { result ≡ count_on (road_code road) (crossings self.now) }
    {
        count_in(self.crossings(), u8::from(road))
    }

    // The road of a crossing and its place there, counted clockwise from 0.
    pub fn place_of(&self, crossing: usize) -> Option<(Road, usize)>
        ensures { place_code result ≡ place_of (crossings self.now) crossing }
    {
        let code = self.crossings().get(crossing)?.road;
        Some((
            known_road(code),
            count_in(&self.crossings()[..crossing], code),
        ))
    }

    // The crossing at a place of a road.
    pub fn crossing_at(&self, road: Road, place: usize) -> Option<usize>
        ensures { result ≡ crossing_at (crossings self.now) (road_code road) place }
    {
        find_place(self.crossings(), u8::from(road), place)
    }

    // The step inside the pixel: where a line that enters at a crossing leaves. It is the crossing counterclockwise before
    // it in its group, and from the group's first its last.
    pub fn leaves_at(&self, entered: usize) -> Option<usize>
        ensures { result ≡ leaves_at (crossings self.now) entered }
    {
        turn_back(self.crossings(), entered)
    }

    // The step that undoes it: where a line that leaves at a crossing has entered.
    pub fn enters_at(&self, left: usize) -> Option<usize>
        ensures { result ≡ enters_at (crossings self.now) left }
    {
        turn_on(self.crossings(), left)
    }

    // Whether a crossing's group has a vertex.
    pub fn has_vertex(&self, crossing: usize) -> Option<bool>
        ensures { result ≡ vertex_at (crossings self.now) crossing }
    {
        let c = self.crossings().get(crossing)?;
        Some(c.vertex)
    }
}
