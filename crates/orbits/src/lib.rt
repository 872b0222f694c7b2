// The orbits of a one-to-one function on a finite list, and the sidewalks that cut them: theorems at any type.
#![tactic(auto)]

ghost use Rattle.orbits.specs.Statements.{Pigeonhole, Return, Undone, Loops, Roots, Rings, Walks, Stops, Covers, Tells, Listed, Twins};

// Members of a list, more of them than it has, repeat.
pub fn lists_repeat<T>()
    ensures { Pigeonhole T }
{}

// Going on from a dart comes back to it within the number of darts.
pub fn darts_return<T>()
    ensures { Return T }
{}

// What undoes next on the darts leads to darts, and next undoes it.
pub fn next_is_undone<T>()
    ensures { Undone T }
{}

// A loop goes round once, and to be on one loop is an equivalence.
pub fn loops_part<T>()
    ensures { Loops T }
{}

// Darts are on one loop exactly when they have the same root.
pub fn roots_tell<T>()
    ensures { Roots T }
{}

// A ring is found by going on as many steps as there are darts.
pub fn rings_are_decided<T>()
    ensures { Rings T }
{}

// A sidewalk ends where the next one begins.
pub fn sidewalks_end<T>()
    ensures { Walks T }
{}

// Looking further than the number of darts finds nothing else.
pub fn sidewalks_stop<T>()
    ensures { Stops T }
{}

// The sidewalks have each dart that is on no ring once, and no other.
pub fn sidewalks_cover<T>()
    ensures { Covers T }
{}

// Without rings, equal lines have the same darts, next and starts.
pub fn lines_tell<T>()
    ensures { Tells T }
{}

// The same darts, next and starts have equal lines.
pub fn lines_follow<T>()
    ensures { Listed T }
{}

// Where darts are listed in one order and there is no ring, lines are equal exactly when darts, next and starts are.
pub fn lines_are_told<T>()
    ensures { Twins T }
{}
