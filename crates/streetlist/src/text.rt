// Text that is put into memory, one piece behind another. What lies past the memory's end is counted and not put.
ghost use Rattle.std.specs.Prelude.{◌+◌, ◌^◌, ◌<◌, ◌≤◌, [], ◌∷◌, ◌++◌, decimal};
ghost use Rattle.symbols.specs.Symbols.{road_letter};
ghost use Rattle.model.specs.Streets.{item};
ghost use Rattle.streetlist.specs.Puts.{PutsTo};

use model::Dart;
use symbols::Road;

// The memory, and the place behind what was put. It is no `fmt::Write`, since the promise of `write!` leaves open that it
// fails, and putting text never does.
#[derive(Drop)]
pub(crate) struct Text<'m> {
    pub(crate) out: &'m mut [u8],
    pub(crate) at: usize,
}

impl<'m> Text<'m> {
    // Puts a byte.
    pub(crate) fn put_byte(&mut self, byte: u8)
        requires { self.old.at < 2 ^ 63 }
        ensures { PutsTo (byte ∷ []) self.old self.new }
    {
        if self.at < self.out.len() {
            self.out[self.at] = byte;
        }
        self.at += 1;
    }

    // Puts a space.
    pub(crate) fn put_space(&mut self)
        requires { self.old.at < 2 ^ 62 }
        ensures { PutsTo (32 ∷ []) self.old self.new }
    {
        self.put_byte(b' ');
    }

    // Puts a number in decimal digits.
    pub(crate) fn put_number(&mut self, n: u32)
        requires { self.old.at < 2 ^ 62 }
        ensures puts { PutsTo (decimal n) self.old self.new }
        ensures few { self.new.at ≤ self.old.at + 10 }
    {
        if n < 10 {
            return self.put_byte(b'0' + n as u8);
        }
        self.put_number(n / 10);
        self.put_byte(b'0' + (n % 10) as u8);
    }

    // Puts the letter of a road.
    fn put_road(&mut self, road: Road)
        requires { self.old.at < 2 ^ 62 }
        ensures { PutsTo (road_letter road ∷ []) self.old self.new }
    {
        self.put_byte(char::from(road) as u8);
    }

    // Puts a place, counted from 0.
    fn put_place(&mut self, place: u8)
        requires { self.old.at < 2 ^ 62 }
        ensures puts { PutsTo (decimal place) self.old self.new }
        ensures few { self.new.at ≤ self.old.at + 10 }
    {
        self.put_number(u32::from(place));
    }

    // Puts a dart: pixel, road letter, place.
    fn put_dart(&mut self, dart: Dart)
        requires { self.old.at < 2 ^ 61 }
        ensures puts { PutsTo (item dart) self.old self.new }
        ensures few { self.new.at ≤ self.old.at + 21 }
    {
        self.put_number(dart.pixel);
        self.put_road(dart.road);
        self.put_place(dart.place);
    }

    // Puts a dart and a space.
    pub(crate) fn put_item(&mut self, dart: Dart)
        requires { self.old.at < 2 ^ 61 }
        ensures puts { PutsTo (item dart ++ 32 ∷ []) self.old self.new }
        ensures few { self.new.at ≤ self.old.at + 22 }
    {
        self.put_dart(dart);
        self.put_space();
    }

    // Puts an arrow, the dart that it leads to, and the end of the line.
    pub(crate) fn put_arrow(&mut self, dart: Dart)
        requires { self.old.at < 2 ^ 60 }
        ensures puts { PutsTo (62 ∷ 32 ∷ (item dart ++ 10 ∷ [])) self.old self.new }
        ensures few { self.new.at ≤ self.old.at + 24 }
    {
        self.put_byte(b'>');
        self.put_space();
        self.put_dart(dart);
        self.put_byte(b'\n');
    }
}
