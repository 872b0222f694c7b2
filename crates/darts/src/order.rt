// The darts of a source, in order.
ghost use Rattle.std.specs.Prelude.{◌≡◌, length};
ghost use Rattle.std.specs.Iterator.{at_most};
ghost use Rattle.model.specs.Darts.{darts};
ghost use Rattle.stores.specs.Sources.{sheet_told};
ghost use Rattle.darts.specs.Rest.{to_come, NextOf};

use crate::leaving::Leaving;
use crate::pixels::pixels_of;
use model::Dart;
use stores::Source;

// The darts of a source that are to come.
#[derive(Drop)]
pub struct Darts<'a, S: Source> {
    source: &'a S,
    // those of the pixel before the next one
    here: Leaving,
    // the next pixel
    pixel: u32,
}

impl<'a, S: Source> Darts<'a, S> {
    // All darts of a source.
    pub fn of(source: &'a S) -> Darts<'a, S>
        ensures { to_come S.told result ≡ darts (sheet_told (S.told source.now)) }
    {
        Darts {
            source,
            here: Leaving::none(),
            pixel: 0,
        }
    }
}

impl<'a, S: Source> Iterator for Darts<'a, S> {
    type Item = Dart;

    ghost next_gives = { λ d r e. NextOf (to_come S.told d) r (to_come S.told e) };

    ghost remaining = { λ d. at_most (length (to_come S.told d)) };

    fn next(&mut self) -> Option<Dart> {
        loop {
            if let Some(dart) = self.here.next() {
                return Some(dart);
            }
            if self.pixel >= pixels_of(self.source) {
                return None;
            }
            self.here = Leaving::of(self.source, self.pixel);
            self.pixel += 1;
        }
    }
}
