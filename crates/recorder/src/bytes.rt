// Numbers as bytes.
ghost use Rattle.std.specs.Prelude.{◌≡◌, ◌+◌, ◌≤◌, length};
ghost use Rattle.codec.specs.Records.{two};
ghost use Rattle.recorder.specs.Bytes.{put_bytes};

// Puts a number into two bytes, the high byte first.
pub(crate) fn put_number(out: &mut [u8], at: usize, n: u16)
    requires { at + 2 ≤ length out.old }
    ensures { out.new ≡ put_bytes out.old at (two n) }
{
    out[at..at + 2].copy_from_slice(&n.to_be_bytes());
}
