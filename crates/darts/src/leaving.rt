// The darts that leave one pixel, in order.
ghost use Rattle.std.specs.Prelude.{◌≡◌, ◌<◌, [], length};
ghost use Rattle.std.specs.Iterator.{at_most};
ghost use Rattle.model.specs.Sheets.{pixels};
ghost use Rattle.model.specs.Darts.{darts_in};
ghost use Rattle.stores.specs.Sources.{sheet_told};
ghost use Rattle.darts.specs.Rest.{still, NextOf};

use crate::pixels::places;
use maps::drawing_at;
use model::Dart;
use stores::Source;
use symbols::Road;

// The darts of a pixel that are to come.
#[derive(Drop)]
pub(crate) struct Leaving {
    pixel: u32,
    // how many places each road has
    counts: [u8; 4],
    // the road at hand, by its number
    road: usize,
    // the next place on it
    place: u8,
}

impl Leaving {
    // No darts.
    pub(crate) fn none() -> Leaving
        ensures { still result ≡ [] }
    {
        Leaving {
            pixel: 0,
            counts: [0; 4],
            road: 0,
            place: 0,
        }
    }

    // The darts that leave a pixel.
    pub(crate) fn of<S: Source>(source: &S, pixel: u32) -> Leaving
        requires { pixel < pixels (sheet_told (S.told source.now)) }
        ensures { still result ≡ darts_in (sheet_told (S.told source.now)) pixel }
    {
        let drawing = drawing_at(source, pixel).unwrap();
        let west = places(&drawing, Road::West);
        let north = places(&drawing, Road::North);
        let east = places(&drawing, Road::East);
        let south = places(&drawing, Road::South);
        Leaving {
            pixel,
            counts: [west, north, east, south],
            road: 0,
            place: 0,
        }
    }
}

impl Iterator for Leaving {
    type Item = Dart;

    ghost next_gives = { λ l r m. NextOf (still l) r (still m) };

    ghost remaining = { λ l. at_most (length (still l)) };

    fn next(&mut self) -> Option<Dart> {
        while self.road < 4 {
            if self.place < self.counts[self.road] {
                let dart = Dart {
                    pixel: self.pixel,
                    road: Road::ALL[self.road],
                    place: self.place,
                };
                self.place += 1;
                return Some(dart);
            }
            self.road += 1;
            self.place = 0;
        }
        None
    }
}
