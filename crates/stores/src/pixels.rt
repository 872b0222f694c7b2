// Sizes of sheets, and their pixels.
ghost use Rattle.std.specs.Prelude.{◌≡◌, ◌*◌, ◌<◌, ◌&&◌, Decides};
ghost use Rattle.codec.specs.Records.{side};
ghost use Rattle.stores.specs.Sources.{Sides};

// The most pixels that a sheet has on a side.
const MOST_SIDE: u16 = 64;

// The sides of a sheet.
#[derive(Clone, Copy, PartialEq, Eq, Debug)]
pub struct Size {
    pub width: u16,
    pub height: u16,
}

// Whether a side is 1 to 64.
pub fn is_side(n: u16) -> bool
    ensures { result ≡ side n }
{
    (1..=MOST_SIDE).contains(&n)
}

impl Size {
    // How many pixels there are.
    pub fn pixels(self) -> usize
        ensures { result ≡ self.width * self.height }
    {
        usize::from(self.width) * usize::from(self.height)
    }

    // Whether there is such a pixel.
    pub fn has(self, pixel: u32) -> bool
        ensures { Decides result (pixel < self.width * self.height) }
    {
        (pixel as usize) < self.pixels()
    }

    // Whether a sheet may have these sides: 1 to 64.
    pub fn is_sheet(self) -> bool
        ensures is { result ≡ (side self.width && side self.height) }
        ensures sides { Decides result (Sides self.width self.height) }
    {
        is_side(self.width) && is_side(self.height)
    }
}
