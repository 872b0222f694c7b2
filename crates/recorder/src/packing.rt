// Symbols as bits, three to a symbol and eight to a byte, the high bit first. Nothing else knows how symbols are packed.
ghost use Rattle.std.specs.Prelude.{◌≡◌, ◌+◌, ◌*◌, ◌/◌, ◌^◌, ◌<◌, ◌≤◌, length};
ghost use Rattle.std.specs.List.{flat_map};
ghost use Rattle.codec.specs.Words.{symbol_bits};
ghost use Rattle.recorder.specs.Packing.{with_bit, put_bit, put_bits};

use symbols::Symbol;

// How many bytes so many symbols take.
pub(crate) fn packed_len(symbols: usize) -> usize
    requires { symbols ≤ 2 ^ 32 }
    ensures { result ≡ (3 * symbols + 7) / 8 }
{
    let bits = 3 * symbols;
    (bits + 7) / 8
}

// The byte x with its first j bits kept, one bit put behind them and zero bits to its end.
fn with_bit(x: u8, j: u8, bit: bool) -> u8
    requires { j < 8 }
    ensures { result ≡ with_bit x j bit }
{
    let weight = 128u8 >> j;
    (x / weight / 2 * 2 + u8::from(bit)) * weight
}

// Puts a bit behind the first k bits.
fn push_bit(part: &mut [u8], k: usize, bit: bool)
    requires { k / 8 < length part.old }
    ensures { part.new ≡ put_bit part.old k bit }
{
    let i = k / 8;
    part[i] = with_bit(part[i], (k % 8) as u8, bit);
}

// Puts a symbol behind the first n symbols.
fn push_symbol(part: &mut [u8], n: usize, symbol: Symbol)
    requires room { 3 * n + 3 ≤ 8 * length part.old }
    requires few { n < 2 ^ 32 }
    ensures { part.new ≡ put_bits part.old (3 * n) (symbol_bits symbol) }
{
    let code = u8::from(symbol);
    push_bit(part, 3 * n, code / 4 % 2 == 1);
    push_bit(part, 3 * n + 1, code / 2 % 2 == 1);
    push_bit(part, 3 * n + 2, code % 2 == 1);
}

// Puts a word behind the first n symbols.
pub(crate) fn push_word(part: &mut [u8], n: usize, word: &[Symbol])
    requires room { 3 * (n + length word.now) ≤ 8 * length part.old }
    requires few { n + length word.now ≤ 2 ^ 32 }
    ensures { part.new ≡ put_bits part.old (3 * n) (flat_map symbol_bits word.now) }
{
    for (i, symbol) in word.iter().enumerate() {
        push_symbol(part, n + i, *symbol);
    }
}
