//! The sheet of a play: records in, text out (docs/RULES.md, Sheet).
#![tactic(auto)]

pub mod key;
pub mod lines;
pub mod play;
pub mod refusal;

ghost use Rattle.sheet.specs.Laws.{Laws};

/// The sheet in the words of docs/RULES.md: a theorem, and nothing to run.
#[tactic(auto, using(crate::proofs::LawsHold::sheet_laws))]
pub fn sheet_laws_hold()
    ensures { Laws }
{}
