// Symbols packed three bits each, high bit first. Nothing else knows how they are packed.
ghost use Rattle.std.specs.Prelude.{◌≡◌, ℕ, ◌+◌, ◌*◌, ◌^◌, ◌<◌, ◌≤◌, false, length, drop, slice_index_or};
ghost use Rattle.codec.specs.Bits.{bit, bits_of, unset, padding};
ghost use Rattle.records.specs.Packed.{symbol_at};

use symbols::Symbol;

// The bit at a place, the high bit of a byte first.
fn bit_at(bytes: &[u8], place: usize) -> u8
    requires { place < 8 * length bytes.now }
    ensures { result ≡ bit (slice_index_or (bits_of bytes.now) place false) }
{
    (bytes[place / 8] >> (7 - place % 8)) % 2
}

// The code in the three bits from a place on.
fn code_at(bytes: &[u8], place: usize) -> u8
    requires within { place + 2 < 8 * length bytes.now }
    requires few { place < 24 }
    ensures { result ≡ bit (slice_index_or (bits_of bytes.now) place false) * 4 + bit (slice_index_or (bits_of bytes.now) (place + 1) false) * 2 + bit (slice_index_or (bits_of bytes.now) (place + 2) false) }
{
    bit_at(bytes, place) * 4 + bit_at(bytes, place + 1) * 2 + bit_at(bytes, place + 2)
}

// The symbol at an index; none past the end, or where the code is that of no symbol.
pub fn symbol_at(bytes: &[u8], index: usize) -> Option<Symbol>
    ensures { result ≡ symbol_at bytes.now index }
{
    // eight symbols are three bytes
    let (rows, within) = (index / 8, 3 * (index % 8));
    if rows > bytes.len() / 3 {
        return None;
    }
    let part = &bytes[3 * rows..];
    if (within + 2) / 8 >= part.len() {
        return None;
    }
    Symbol::try_from(code_at(part, within)).ok()
}

// Whether only zero bits stand from a place on.
fn is_unset(bytes: &[u8], from: usize) -> bool
    requires { 8 * length bytes.now < 2 ^ 64 }
    ensures { result ≡ unset (drop from (bits_of bytes.now)) }
{
    (from..8 * bytes.len()).all(|place| bit_at(bytes, place) == 0)
}

// Whether only zero bits, fewer than eight, stand behind the symbols before an index.
#[tactic(auto, using(crate::proofs::Triples::padded))]
pub fn is_padded(bytes: &[u8], index: u32) -> bool
    ensures { result ≡ padding (drop (3 * index) (bits_of bytes.now)) }
{
    let from = 3 * index as usize;
    bytes.len() <= (from + 7) / 8 && is_unset(bytes, from)
}
