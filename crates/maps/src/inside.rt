// The drawing of a pixel, and the darts that leave it.
ghost use Rattle.std.specs.Prelude.{◌≡◌, ◌<◌, ◌≤◌, length, MatchOption};
ghost use Rattle.symbols.specs.Symbols.{road_code};
ghost use Rattle.rules.specs.Crossings.{count_on};
ghost use Rattle.rules.specs.Tables.{at};
ghost use Rattle.drawings.specs.Drawings.{crossings};
ghost use Rattle.model.specs.Sheets.{pixels, drawing_at};
ghost use Rattle.model.specs.Darts.{leaving};
ghost use Rattle.stores.specs.Sources.{sheet_told};
ghost use Rattle.maps.specs.Passing.{crossing_in, turn_in, unturn_in};

use drawings::Drawing;
use model::Dart;
use stores::{Source, word_of};

// The drawing of a pixel, if there is such a pixel.
pub fn drawing_at<S: Source>(source: &S, pixel: u32) -> Option<Drawing>
    ensures { MatchOption result (pixels (sheet_told (S.told source.now)) ≤ pixel) (λ d. (pixel < pixels (sheet_told (S.told source.now))) × (crossings d ≡ drawing_at (sheet_told (S.told source.now)) pixel)) }
{
    let word = word_of(source, pixel)?;
    Some(Drawing::read(word.as_slice()).unwrap())
}

// A dart, and the drawing of the pixel that it leaves.
#[derive(Clone, Copy)]
pub(crate) struct Leaving {
    pub(crate) dart: Dart,
    pub(crate) drawing: Drawing,
    ghost there: { dart.place < count_on (road_code dart.road) (crossings drawing) },
}

impl Leaving {
    // The dart's crossing.
    fn crossing(&self) -> usize
        ensures is { result ≡ crossing_in (crossings self.now.drawing) self.now.dart }
        ensures within { result < length (crossings self.now.drawing) }
    {
        let Dart { road, place, .. } = self.dart;
        self.drawing.crossing_at(road, usize::from(place)).unwrap()
    }

    // The dart that leaves the same pixel through another crossing.
    fn through(&self, crossing: usize) -> Dart
        requires { crossing < length (crossings self.now.drawing) }
        ensures is { result ≡ leaving self.now.dart.pixel (crossings self.now.drawing) crossing }
        ensures there { result.place < count_on (road_code result.road) (crossings self.now.drawing) }
    {
        let (road, place) = self.drawing.place_of(crossing).unwrap();
        Dart {
            pixel: self.dart.pixel,
            road,
            place: place as u8,
        }
    }

    // From the dart's crossing to the one before it in its group.
    pub(crate) fn turn_back(&self) -> Dart
        ensures is { result ≡ turn_in (crossings self.now.drawing) self.now.dart }
        ensures there { result.place < count_on (road_code result.road) (crossings self.now.drawing) }
    {
        self.through(self.drawing.leaves_at(self.crossing()).unwrap())
    }

    // From the dart's crossing to the one after it in its group.
    pub(crate) fn turn_on(&self) -> Dart
        ensures is { result ≡ unturn_in (crossings self.now.drawing) self.now.dart }
        ensures there { result.place < count_on (road_code result.road) (crossings self.now.drawing) }
    {
        self.through(self.drawing.enters_at(self.crossing()).unwrap())
    }

    // Whether the group of the dart's crossing has a vertex.
    pub(crate) fn has_vertex(&self) -> bool
        ensures { result ≡ (at (crossings self.now.drawing) (crossing_in (crossings self.now.drawing) self.now.dart)).vertex }
    {
        self.drawing.has_vertex(self.crossing()).unwrap()
    }
}
