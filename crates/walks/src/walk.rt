// A walk: from a dart on by next, until it is home.
ghost use Rattle.std.specs.Prelude.{◌≡◌};

use model::Dart;

// Where a walk began, the dart it is at, and how many steps it has made, up to the largest number of 32 bits. It belongs
// to no sheet.
#[derive(Clone, Copy)]
pub struct Walk {
    pub(crate) start: Dart,
    pub(crate) at: Dart,
    pub(crate) steps: u32,
}

impl Walk {
    // The dart that the walk is at.
    pub fn at(&self) -> Dart
        ensures { result ≡ self.now.at }
    {
        self.at
    }

    // How many steps it has made; the count stays at its largest.
    pub fn steps(&self) -> u32
        ensures { result ≡ self.now.steps }
    {
        self.steps
    }
}
