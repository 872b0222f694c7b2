// The street list of any source as text, written into memory that is lent.
#![tactic(auto)]

ghost use Rattle.std.specs.Prelude.{◌≡◌, ◌≤◌, decimal};
ghost use Rattle.model.specs.Streets.{street_lines, list_text};
ghost use Rattle.stores.specs.Sources.{sheet_told};
ghost use Rattle.streetlist.specs.Puts.{Puts, PutsTo};
ghost use Rattle.streetlist.specs.Lists.{list_length, list_answer, list_memory};

use checks::checked;
use darts::Passable;
use lists::put_lines;
use stores::Source;
use symbols::Refusal;
use text::Text;

mod lists;
mod text;

// Puts the width, first of all.
fn put_width<S: Source>(source: &S, text: &mut Text)
    requires { text.old.at ≡ 0 }
    ensures puts { PutsTo (decimal (S.told source.now).width) text.old text.new }
    ensures few { text.new.at ≤ 10 }
{
    text.put_number(u32::from(source.width()));
}

// Puts the height.
fn put_height<S: Source>(source: &S, text: &mut Text)
    requires { text.old.at ≤ 100 }
    ensures puts { PutsTo (decimal (S.told source.now).height) text.old text.new }
    ensures few { text.new.at ≤ 110 }
{
    text.put_number(u32::from(source.height()));
}

// Puts the street list.
fn put_text<S: Source>(free: &Passable<S>, text: &mut Text)
    requires { text.old.at ≡ 0 }
    ensures { PutsTo (list_text (S.told free.now.source.now).width (S.told free.now.source.now).height (street_lines (sheet_told (S.told free.now.source.now)))) text.old text.new }
{
    put_width(free.source(), text);
    text.put_space();
    put_height(free.source(), text);
    text.put_byte(b'\n');
    put_lines(free, text);
}

// Puts the street list to the front of memory, as much of it as there is room for, and tells how long it is.
fn put_list<S: Source>(free: &Passable<S>, out: &mut [u8]) -> usize
    ensures { Puts (list_text (S.told free.now.source.now).width (S.told free.now.source.now).height (street_lines (sheet_told (S.told free.now.source.now)))) out.old 0 result out.new }
{
    let mut text = Text { out, at: 0 };
    put_text(free, &mut text);
    text.at
}

// How long the street list is; refused as the check.
pub fn street_list_len<S: Source>(source: &S) -> Result<usize, Refusal>
    ensures { result ≡ list_length (sheet_told (S.told source.now)) }
{
    Ok(put_list(&checked(source)?, &mut []))
}

// Writes the street list to the front of memory and tells its length. Refused as the check, then where the memory is
// shorter; then nothing is written.
pub fn street_list<S: Source>(source: &S, out: &mut [u8]) -> Result<usize, Refusal>
    ensures answer { result ≡ list_answer (sheet_told (S.told source.now)) out.old }
    ensures memory { out.new ≡ list_memory (sheet_told (S.told source.now)) out.old }
{
    let free = checked(source)?;
    let n = put_list(&free, &mut []);
    if n > out.len() {
        return Err(Refusal::Short);
    }
    Ok(put_list(&free, out))
}
