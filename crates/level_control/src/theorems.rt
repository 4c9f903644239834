//! What is true of the machine's states, held by a function's contract: there is nothing to run. The page of theorems is in
//! level_theorems.
ghost use Rattle.level_control.specs.Reached.{ReachedStates};

/// The states that settings and events lead to, and the induction over them.
#[tactic(auto, using(crate::proofs::ReachedLaws::reached_states))]
pub fn reached_states_hold()
    ensures { ReachedStates }
{}
