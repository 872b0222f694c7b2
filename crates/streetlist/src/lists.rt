// The lines of a street list: for each sidewalk, by first dart, its darts and next of the last one.
ghost use Rattle.std.specs.Prelude.{◌≡◌, ◌+◌, ◌^◌, ◌<◌, ◌≤◌, true};
ghost use Rattle.std.specs.List.{flat_map};
ghost use Rattle.orbits.specs.Orbits.{line};
ghost use Rattle.model.specs.Darts.{is_dart};
ghost use Rattle.model.specs.Streets.{leaves_vertex, circles, street_lines, line_text};
ghost use Rattle.stores.specs.Sources.{sheet_told};
ghost use Rattle.streetlist.specs.Puts.{PutsTo};
ghost use Rattle.streetlist.specs.Lists.{begun_line};

use crate::text::Text;
use darts::{Darts, Passable};
use model::Dart;
use stores::Source;

// Puts the line of the sidewalk that a dart begins.
fn put_line<S: Source>(free: &Passable<S>, text: &mut Text, dart: Dart)
    requires dart { is_dart (sheet_told (S.told free.now.source.now)) dart ≡ true }
    requires begins { leaves_vertex (sheet_told (S.told free.now.source.now)) dart ≡ true }
    requires early { text.old.at < 2 ^ 58 }
    ensures puts { PutsTo (line_text (line (circles (sheet_told (S.told free.now.source.now))) dart)) text.old text.new }
    ensures few { text.new.at ≤ text.old.at + 2 ^ 23 }
{
    let mut last = dart;
    loop {
        text.put_item(last);
        let ahead = free.next(last).unwrap();
        if free.begins(ahead).unwrap() {
            return text.put_arrow(ahead);
        }
        last = ahead;
    }
}

// Puts the line of the sidewalk that a dart begins, if it begins one.
fn put_begun<S: Source>(free: &Passable<S>, text: &mut Text, dart: Dart)
    requires dart { is_dart (sheet_told (S.told free.now.source.now)) dart ≡ true }
    requires early { text.old.at < 2 ^ 58 }
    ensures puts { PutsTo (begun_line (sheet_told (S.told free.now.source.now)) dart) text.old text.new }
    ensures few { text.new.at ≤ text.old.at + 2 ^ 23 }
{
    if free.begins(dart).unwrap() {
        put_line(free, text, dart);
    }
}

// Puts the lines of all sidewalks.
pub(crate) fn put_lines<S: Source>(free: &Passable<S>, text: &mut Text)
    requires { text.old.at < 2 ^ 55 }
    ensures { PutsTo (flat_map line_text (street_lines (sheet_told (S.told free.now.source.now)))) text.old text.new }
{
    for dart in Darts::of(free.source()) {
        put_begun(free, text, dart);
    }
}
