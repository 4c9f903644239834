//! What an event gives: why it is refused, the next state, and its actions, at most seven.
//! Derived from level_control.rs of project-chip/rs-matter 43f61585a4 (see NOTICE), and changed: what the source does by
//! calls (to the device, the store, the other cluster, the reports) is a list of actions here.
ghost use Rattle.std.specs.Prelude.{◌≡◌};
ghost use Rattle.level_control.specs.Answer.{answer_of};

use crate::state::LevelControlState;
use transitions::actions::{Action, Actions};
use transitions::causes::Refusal;

/// A plain value, so the actions stand in an array, beside the number filled: the slots from `count` on hold X with
/// value 0.
#[derive(Clone, Copy, Debug, PartialEq, Eq)]
pub struct Answer {
    pub refusal: Option<Refusal>,
    pub state: LevelControlState,
    pub actions: [Action; 7],
    pub count: usize,
}

impl Answer {
    #[tactic(auto, using(crate::proofs::ActionLaws::array_filled), unfolding(crate::specs::Answer::answer_of))]
    pub(crate) fn new(refusal: Option<Refusal>, state: LevelControlState, list: &Actions) -> Answer
        ensures { result ≡ answer_of refusal state list.now }
    {
        let list = list.as_slice();
        let count = list.len();
        let mut actions = [Action::default(); 7];
        actions[..count].copy_from_slice(list);
        Answer {
            refusal,
            state,
            actions,
            count,
        }
    }
}
