//! A level that the device tells without being asked.
//! Derived from level_control.rs of project-chip/rs-matter 43f61585a4 (see NOTICE), and changed.
ghost use Rattle.std.specs.Prelude.{◌≡◌, []};
ghost use Rattle.level_control.specs.Answer.{done};
ghost use Rattle.level_control.specs.Updates.{updated};

use crate::state::LevelControlState;
use transitions::actions::Actions;
use units::Micros;

impl LevelControlState {
    /// The device's level changed under us. It counts as an end.
    #[tactic(auto, using(crate::proofs::ActionLaws::time_told), unfolding(crate::specs::Updates::updated, crate::specs::Targets::stopped, crate::specs::Reports::told_level, transitions::specs::Types::same_level))]
    pub(crate) fn updated(&mut self, level: u8, now: Micros, actions: &mut Actions)
        requires { actions.old ≡ [] }
        ensures { done self.new actions.new ≡ updated self.old level now }
    {
        self.told_level(Some(level), now, true, actions);
        self.stopped(actions);
    }
}
