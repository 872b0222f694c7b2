// Words as bytes, one after another.
ghost use Rattle.std.specs.Prelude.{◌≡◌, ℕ, ◌<◌, ◌≤◌, length, replicate, MatchBool};
ghost use Rattle.symbols.specs.Refusals.{fill_answer, filled};
ghost use Rattle.stores.specs.Bytes.{decode, front_word, encoded};

use symbols::{Refusal, Symbol};

// How many corners a word has.
const CORNERS: u8 = 4;

// The symbol of a byte; a byte that is no code counts as a dead end.
fn symbol_of(b: u8) -> Symbol
    ensures { result ≡ decode b }
{
    Symbol::try_from(b).unwrap_or(Symbol::DeadEnd)
}

// How many bytes the word at the front of bytes has: those up to the fourth corner. A loop: of a chain by `filter` and `nth`
// the proof did not close.
pub fn front_len(bytes: &[u8]) -> usize
    ensures is { result ≡ length (front_word bytes.now) }
    ensures within { result ≤ length bytes.now }
{
    let mut corners: u8 = 0;
    for (i, b) in bytes.iter().enumerate() {
        corners += u8::from(*b == 0);
        if corners == CORNERS {
            return i + 1;
        }
    }
    bytes.len()
}

// Copies the word at the front of bytes to the front of memory and tells its length. Where the memory is shorter, nothing
// is written.
pub fn copy_word(bytes: &[u8], out: &mut [Symbol]) -> Result<usize, Refusal>
    ensures answer { result ≡ fill_answer (front_word bytes.now) out.old }
    ensures memory { out.new ≡ filled (front_word bytes.now) out.old }
{
    let n = front_len(bytes);
    if n > out.len() {
        return Err(Refusal::Short);
    }
    for (i, b) in bytes[..n].iter().enumerate() {
        out[i] = symbol_of(*b);
    }
    Ok(n)
}

// Writes the codes of a word to the front of bytes and tells their number. Where there are fewer bytes, nothing is written.
pub fn put_word(word: &[Symbol], bytes: &mut [u8]) -> Result<usize, Refusal>
    ensures answer { result ≡ fill_answer (encoded word.now) bytes.old }
    ensures memory { bytes.new ≡ filled (encoded word.now) bytes.old }
{
    if word.len() > bytes.len() {
        return Err(Refusal::Short);
    }
    for (i, symbol) in word.iter().enumerate() {
        bytes[i] = u8::from(*symbol);
    }
    Ok(word.len())
}

// Makes the first n bytes corners. Where there are fewer bytes, nothing is written.
pub fn blank_out(bytes: &mut [u8], n: usize)
    ensures { bytes.new ≡ filled (replicate n 0) bytes.old }
{
    if n <= bytes.len() {
        bytes[..n].fill(0);
    }
}
