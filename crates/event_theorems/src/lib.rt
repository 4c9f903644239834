//! Every event, said a second time: not event by event, as the machine has it, but cause by cause, field by field and letter
//! by letter. There is nothing to run.
#![tactic(auto)]

ghost use Rattle.event_theorems.specs.ByField.{ByField};

/// A refused event has the number of the first cause that meets it and changes nothing; one that the options stop changes
/// nothing but the last accepted time, and that an event was accepted; of any other, each field of the state and each letter
/// among the actions is what docs/RULES.md says of that field and that letter.
#[tactic(auto, using(crate::proofs::ByFieldHolds::by_field))]
pub fn every_field_holds()
    ensures { ByField }
{}
