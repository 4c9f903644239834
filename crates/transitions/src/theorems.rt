//! The page of theorems about the rules, each held by a function's contract: there is nothing to run.
ghost use Rattle.transitions.specs.Laws.{Laws};
ghost use Rattle.transitions.specs.Matter.{Agreement};

/// The rules in the words of docs/RULES.md.
#[tactic(auto, using(crate::proofs::RuleLaws::rule_laws))]
pub fn rule_laws_hold()
    ensures { Laws }
{}

/// Where the rules are what the Matter document says.
#[tactic(auto, using(crate::proofs::MatterLaws::matter_agrees))]
pub fn matter_agrees()
    ensures { Agreement }
{}
