//! Plays in words (docs/WORDS.md): a text to records of 20 bytes, and records to the one text that they have.
#![tactic(auto)]

mod event_line;
pub mod fault;
mod lexis;
pub mod names;
mod numbers;
pub mod reading;
mod settings_line;
mod tokens;
mod values;
pub mod writing;

ghost use Rattle.words.specs.Laws.{Laws};
ghost use Rattle.words.specs.PlaceLaws.{PlaceLaws};
ghost use Rattle.words.specs.SheetLaws.{SheetLaws};
ghost use Rattle.words.specs.TextLaws.{TextLaws};
ghost use Rattle.words.specs.TimeLaws.{TimeLaws};
ghost use Rattle.words.specs.WordLaws.{WordLaws};

/// Lines as laws: a theorem, and nothing to run.
#[tactic(auto, using(crate::proofs::LawsHold::laws))]
pub fn line_laws_hold()
    ensures { Laws }
{}

/// What the words of a line are: a theorem, and nothing to run.
#[tactic(auto, using(crate::proofs::WordsOfLines::word_laws))]
pub fn word_laws_hold()
    ensures { WordLaws }
{}

/// Whole texts as laws: a theorem, and nothing to run.
#[tactic(auto, using(crate::proofs::TextsHold::text_laws))]
pub fn text_laws_hold()
    ensures { TextLaws }
{}

/// What a text is read as has a sheet: a theorem, and nothing to run.
#[tactic(auto, using(crate::proofs::SheetsHold::sheet_laws))]
pub fn sheet_laws_hold()
    ensures { SheetLaws }
{}

/// Which words are times, and of what value: a theorem, and nothing to run.
#[tactic(auto, using(crate::proofs::TimesHold::time_laws))]
pub fn time_laws_hold()
    ensures { TimeLaws }
{}

/// Where a fault's word stands: a theorem, and nothing to run.
#[tactic(auto, using(crate::proofs::PlacesHold::place_laws))]
pub fn place_laws_hold()
    ensures { PlaceLaws }
{}
