//! What the Matter document says of whole commands, and the machine: theorems, and nothing to run.
#![tactic(auto)]

ghost use Rattle.matter.specs.Agreement.{Agreement};
ghost use Rattle.matter.specs.Ends.{CommandsEnd};
ghost use Rattle.matter.specs.Parts.{Parts};

/// Where the machine does what the document says, for every state on the inputs that each line names.
#[tactic(auto, using(crate::proofs::CommandsAgree::agreement))]
pub fn commands_agree()
    ensures { Agreement }
{}

/// Where it parts from the document: for each disagreement a play that shows it.
#[tactic(auto, using(crate::proofs::PartsHold::parts))]
pub fn commands_part()
    ensures { Parts }
{}

/// Where its commands lead, to their end, if the device gives back each level that it is asked for.
#[tactic(auto, using(crate::proofs::CommandsEnd::commands_end))]
pub fn commands_end()
    ensures { CommandsEnd }
{}
