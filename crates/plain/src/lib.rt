// The laws over calls on a plain sheet and runs of calls. Each function's contract is one; the function itself does nothing.
#![tactic(auto)]

ghost use Rattle.plain.specs.Statements.{WordsCounted, RunsKeep, RefusedAltersNothing, AcceptedChanges, LastAccepted, Examples};

// The word of a drawing has as many symbols as a plain sheet counts for it.
pub fn words_counted()
    ensures { WordsCounted }
{}

// After an opening and any calls every word keeps to the longest and all words to the total; no run changes the size, the longest or the total.
pub fn runs_keep()
    ensures { RunsKeep }
{}

// A refused call alters nothing, nor does a question.
pub fn refused_alters_nothing()
    ensures { RefusedAltersNothing }
{}

// An accepted call on a pixel changes that pixel alone, to the drawing that the call has for it; an accepted record replaces every drawing.
pub fn accepted_changes()
    ensures { AcceptedChanges }
{}

// After an opening and any calls each pixel has the drawing that was accepted last there.
pub fn last_accepted()
    ensures { LastAccepted }
{}

// The worked examples.
pub fn examples()
    ensures { Examples }
{}
