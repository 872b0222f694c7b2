// The theorems about words, tables and drawings. Each function's contract is one; the function itself does nothing.
#![tactic(auto)]

ghost use Rattle.rules.specs.Statements.{TextsComeBack, WordsComeBack, TablesComeBack, RulesAreTold, DrawingsAreTold, StepsUndo, PlacesComeBack, Examples};

// Texts of known symbols and lists of symbols answer each other.
pub fn texts_come_back()
    ensures { TextsComeBack }
{}

// Built from what is read back from it, a lawful word is the same.
pub fn words_come_back()
    ensures { WordsComeBack }
{}

// The word built from a table is lawful and draws what the table means.
pub fn tables_come_back()
    ensures { TablesComeBack }
{}

// A table has no fault exactly when it means a drawing.
pub fn rules_are_told()
    ensures { RulesAreTold }
{}

// Drawings, and so lawful words, are equal exactly when they have as many crossings on each road, the same crossings together and the same groups with a vertex.
pub fn drawings_are_told()
    ensures { DrawingsAreTold }
{}

// The step inside a pixel and the step that undoes it stay in the crossing's group.
pub fn steps_undo()
    ensures { StepsUndo }
{}

// Crossing numbers and places of roads answer each other.
pub fn places_come_back()
    ensures { PlacesComeBack }
{}

// The worked examples.
pub fn examples()
    ensures { Examples }
{}
