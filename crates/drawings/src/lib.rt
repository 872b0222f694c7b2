// The drawing of one pixel: read from the symbols of a word, and asked about its crossings.
#![tactic(auto)]

ghost use Rattle.std.specs.Prelude.{◌≡◌, ◌≤◌, false, length, is_some};
ghost use Rattle.rows.specs.Rows.{items};
ghost use Rattle.rules.specs.Tables.{fault};

use rows::Row;
use symbols::Crossing;

mod questions;
mod reading;

// What a lawful word draws: its crossings in clockwise order, in which a group's number is its first crossing.
#[derive(Clone, Copy)]
pub struct Drawing {
    crossings: Row<Crossing, 64>,
    ghost within: { length (items crossings) ≤ 60 },
    ghost sound: { is_some (fault (items crossings)) ≡ false },
}
