// Records of sheets, and the theorems about them. Each function's contract is one; the function itself does nothing.
#![tactic(auto)]

ghost use Rattle.codec.specs.Statements.{SheetsComeBack, RecordsComeBack, RecordsSound, RecordsTell, RefusalsRight, RunsWhole, Examples};

// The record of a sheet is read as that sheet.
pub fn sheets_come_back()
    ensures { SheetsComeBack }
{}

// Bytes that are read as a sheet are its record.
pub fn records_come_back()
    ensures { RecordsComeBack }
{}

// A record has bytes, and what is read is a sheet.
pub fn records_sound()
    ensures { RecordsSound }
{}

// Sheets are equal exactly when their records are.
pub fn records_tell()
    ensures { RecordsTell }
{}

// Bytes are refused exactly when they are no sheet's record.
pub fn refusals_right()
    ensures { RefusalsRight }
{}

// The runs of a sheet are sorted, do not touch and are whole stretches, and the pixels in them are those whose word is not `++++`.
pub fn runs_whole()
    ensures { RunsWhole }
{}

// The worked examples.
pub fn examples()
    ensures { Examples }
{}
