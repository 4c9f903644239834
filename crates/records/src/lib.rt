//! Records of 20 bytes, to settings and events, and back (docs/RULES.md, Records).
#![tactic(auto)]

pub mod bytes;
pub mod event_record;
pub mod refusal;
pub mod settings_record;
pub mod written;

ghost use Rattle.records.specs.Laws.{Laws};

/// The bytes of a record.
pub const RECORD: usize = 20;

/// The records in the rules' own words: a theorem, and nothing to run.
#[tactic(auto, using(crate::proofs::RecordLaws::record_laws))]
pub fn record_laws_hold()
    ensures { Laws }
{}
