//! Every event and Every fade over records of bytes, each theorem held by a function's contract: there is nothing to run.
#![tactic(auto)]

ghost use Rattle.record_theorems.specs.RecordInstance.{Instance, StartInstances};
ghost use Rattle.record_theorems.specs.RecordTheorems.{AnswerRecordsAccepted, EveryEventRecorded, EveryFadeRecorded, RecordedWaitsEnd, RecordsComeToRest, WakeRecordsAccepted};

/// Every event: the text is made from the answers to the records; a damaged or refused one changes nothing; no refused call
/// changes the lent output.
#[tactic(auto, using(crate::proofs::RecordsHold::every_event_recorded))]
pub fn every_record_holds()
    ensures { EveryEventRecorded }
{}

/// Every fade: what one of at least 1 tenth shows, after every list of records after its start, damaged ones included.
#[tactic(auto, using(crate::proofs::RecordsHold::every_fade_recorded))]
pub fn every_recorded_fade_holds()
    ensures { EveryFadeRecorded }
{}

/// Progress: with a request open, the record of an answer in time is accepted.
pub fn answer_records_are_accepted()
    ensures { AnswerRecordsAccepted }
{}

/// Progress: while a fade or a move waits, the record of a wake that is due is accepted.
pub fn wake_records_are_accepted()
    ensures { WakeRecordsAccepted }
{}

/// Progress: every fade of at least 1 tenth that records start comes to rest after the records of n answers, by 2^62 − 1.
#[tactic(auto, using(crate::proofs::RecordsHold::records_come_to_rest))]
pub fn recorded_fades_come_to_rest()
    ensures { RecordsComeToRest }
{}

/// Progress: its waits end by then if the start, the device's delays and the fade's time add up to at most 2^62 − 1.
#[tactic(auto, using(crate::proofs::RecordsHold::recorded_waits_end))]
pub fn recorded_waits_end()
    ensures { RecordedWaitsEnd }
{}

/// The claims are not empty: the small play of docs/RULES.md as bytes, with a damaged record added.
#[tactic(auto, using(crate::proofs::PlayedRecords::instance))]
pub fn recorded_instance_holds()
    ensures { Instance }
{}

/// Nor is one of the five starts left out: a play of records for each, with a damaged record, refused events, a late answer
/// and a device that answers other levels.
#[tactic(auto, using(crate::proofs::PlayedRecords::start_instances))]
pub fn recorded_starts_hold()
    ensures { StartInstances }
{}
