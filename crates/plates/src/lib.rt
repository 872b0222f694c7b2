// The worked examples.
#![tactic(auto)]

ghost use Rattle.plates.specs.Plates.{PlatesShown};
ghost use Rattle.plates.specs.Worked.{WordsWorked, TablesWorked, SheetsWorked, RecordsWorked, ReadingsWorked};

// The worked examples of words, tables and small sheets.
pub fn plates_are_shown()
    ensures { PlatesShown }
{}

// Words that were worked out elsewhere.
pub fn words_are_worked()
    ensures { WordsWorked }
{}

// Tables that were worked out elsewhere.
pub fn tables_are_worked()
    ensures { TablesWorked }
{}

// Sheets that were worked out elsewhere.
pub fn sheets_are_worked()
    ensures { SheetsWorked }
{}

// Records that were worked out elsewhere, as written.
pub fn records_are_worked()
    ensures { RecordsWorked }
{}

// The same as read, with damaged ones.
pub fn readings_are_worked()
    ensures { ReadingsWorked }
{}
