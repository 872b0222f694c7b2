// Sheets of pixels and their darts: definitions, and the laws over them.
#![tactic(auto)]

ghost use Rattle.model.specs.Statements.{NextUndone, OppositeUndone, NextOneToOne, NextReturns, DartsListed};

mod darts;

pub use darts::Dart;

// Next and previous undo each other wherever one of them is given.
pub fn next_is_undone()
    ensures { NextUndone }
{}

// Opposite undoes itself wherever it is given, and moves the dart.
pub fn opposite_is_undone()
    ensures { OppositeUndone }
{}

// Where no road fails, next leads darts to darts, one-to-one.
pub fn next_is_one_to_one()
    ensures { NextOneToOne }
{}

// Where no road fails, going on by next comes back within as many steps as there are darts.
pub fn next_returns()
    ensures { NextReturns }
{}

// The list of darts has each dart of the sheet once and no other, in order.
pub fn darts_are_listed()
    ensures { DartsListed }
{}
