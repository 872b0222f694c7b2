// Going on where no road fails. Nothing is answered for what is no dart.
ghost use Rattle.std.specs.Prelude.{◌≡◌, true, length, IfSome};
ghost use Rattle.orbits.specs.Orbits.{sidewalk};
ghost use Rattle.orbits.specs.Statements.{root};
ghost use Rattle.model.specs.Darts.{same_dart, dart_le, is_dart, next_of, previous_of};
ghost use Rattle.model.specs.Streets.{leaves_vertex, circles, on_ring};
ghost use Rattle.stores.specs.Sources.{sheet_told};
ghost use Rattle.darts.specs.Rest.{where_dart, where_begun};

use crate::Passable;
use model::Dart;
use stores::Source;

impl<'a, S: Source> Passable<'a, S> {
    // The source.
    pub fn source(&self) -> &'a S
        ensures { result.now ≡ self.now.source.now }
    {
        self.source
    }

    // Next of a dart.
    pub fn next(&self, dart: Dart) -> Option<Dart>
        ensures is { result ≡ where_dart (sheet_told (S.told self.now.source.now)) dart (next_of (sheet_told (S.told self.now.source.now)) dart) }
        ensures dart { IfSome result (λ d. is_dart (sheet_told (S.told self.now.source.now)) d ≡ true) }
    {
        maps::next(self.source, dart).ok()
    }

    // Previous of a dart.
    pub fn previous(&self, dart: Dart) -> Option<Dart>
        ensures { result ≡ where_dart (sheet_told (S.told self.now.source.now)) dart (previous_of (sheet_told (S.told self.now.source.now)) dart) }
    {
        maps::previous(self.source, dart).ok()
    }

    // Whether a dart leaves a group that has a vertex, and so begins a sidewalk.
    pub fn begins(&self, dart: Dart) -> Option<bool>
        ensures { result ≡ where_dart (sheet_told (S.told self.now.source.now)) dart (leaves_vertex (sheet_told (S.told self.now.source.now)) dart) }
    {
        maps::leaves_vertex(self.source, dart).ok()
    }

    // How many darts the sidewalk has that a dart begins.
    pub fn sidewalk_len(&self, dart: Dart) -> Option<u32>
        ensures { result ≡ where_begun (sheet_told (S.told self.now.source.now)) dart (length (sidewalk (circles (sheet_told (S.told self.now.source.now))) dart)) }
    {
        if !self.begins(dart)? {
            return None;
        }
        Some(self.steps_to_vertex(dart))
    }

    // Whether a dart is on a ring.
    pub fn on_ring(&self, dart: Dart) -> Option<bool>
        ensures { result ≡ where_dart (sheet_told (S.told self.now.source.now)) dart (on_ring (sheet_told (S.told self.now.source.now)) dart) }
    {
        if self.begins(dart)? {
            return Some(false);
        }
        Some(self.comes_round(dart))
    }

    // Whether a dart is the smallest of its loop.
    pub fn is_root(&self, dart: Dart) -> Option<bool>
        ensures { result ≡ where_dart (sheet_told (S.told self.now.source.now)) dart (same_dart (root (circles (sheet_told (S.told self.now.source.now))) dart_le dart) dart) }
    {
        let next = self.next(dart)?;
        Some(self.is_least(dart, next))
    }

    // Next of a dart that there is.
    fn ahead(&self, dart: Dart) -> Dart
        requires { is_dart (sheet_told (S.told self.now.source.now)) dart ≡ true }
        ensures is { result ≡ next_of (sheet_told (S.told self.now.source.now)) dart }
        ensures dart { is_dart (sheet_told (S.told self.now.source.now)) result ≡ true }
    {
        maps::next(self.source, dart).unwrap()
    }

    // Previous of a dart that there is.
    fn behind(&self, dart: Dart) -> Dart
        requires { is_dart (sheet_told (S.told self.now.source.now)) dart ≡ true }
        ensures ahead { next_of (sheet_told (S.told self.now.source.now)) result ≡ dart }
        ensures dart { is_dart (sheet_told (S.told self.now.source.now)) result ≡ true }
    {
        maps::previous(self.source, dart).unwrap()
    }

    // Whether a dart that there is leaves a group that has a vertex.
    fn leaves_vertex(&self, dart: Dart) -> bool
        requires { is_dart (sheet_told (S.told self.now.source.now)) dart ≡ true }
        ensures { result ≡ leaves_vertex (sheet_told (S.told self.now.source.now)) dart }
    {
        maps::leaves_vertex(self.source, dart).unwrap()
    }

    // How many darts are passed from one that begins a sidewalk up to the next one that does.
    fn steps_to_vertex(&self, dart: Dart) -> u32
        requires dart { is_dart (sheet_told (S.told self.now.source.now)) dart ≡ true }
        requires begins { leaves_vertex (sheet_told (S.told self.now.source.now)) dart ≡ true }
        ensures { result ≡ length (sidewalk (circles (sheet_told (S.told self.now.source.now))) dart) }
    {
        let mut n: u32 = 0;
        let mut at = dart;
        loop {
            at = self.ahead(at);
            n += 1;
            if self.leaves_vertex(at) {
                return n;
            }
        }
    }

    // Whether going on from a dart comes back to it with no vertex on the way.
    fn comes_round(&self, dart: Dart) -> bool
        requires { is_dart (sheet_told (S.told self.now.source.now)) dart ≡ true }
        ensures { result ≡ on_ring (sheet_told (S.told self.now.source.now)) dart }
    {
        let mut ahead = dart;
        while !self.leaves_vertex(ahead) {
            ahead = self.ahead(ahead);
            if ahead == dart {
                return true;
            }
        }
        false
    }

    // Whether no dart of a dart's loop is smaller, where its next is known. It goes both ways, so that a smaller one is found
    // soon.
    fn is_least(&self, dart: Dart, next: Dart) -> bool
        requires dart { is_dart (sheet_told (S.told self.now.source.now)) dart ≡ true }
        requires next { next ≡ next_of (sheet_told (S.told self.now.source.now)) dart }
        ensures { result ≡ same_dart (root (circles (sheet_told (S.told self.now.source.now))) dart_le dart) dart }
    {
        let mut ahead = next;
        let mut back = self.behind(dart);
        while ahead != dart {
            if ahead < dart || back < dart {
                return false;
            }
            ahead = self.ahead(ahead);
            back = self.behind(back);
        }
        true
    }
}
