//! A fade to a target, by a command, a step, a scene or a reaction; and stop.
//! Derived from level_control.rs of project-chip/rs-matter 43f61585a4 (see NOTICE), and changed.
ghost use Rattle.std.specs.Prelude.{◌≡◌, ◌≤◌, length};
ghost use Rattle.level_control.specs.Answer.{after, done};
ghost use Rattle.level_control.specs.Targets.{go_to, quiet, request_to, stopped};

use crate::errors::ErrorCode;
use crate::state::LevelControlState;
use transitions::actions::{ActionKind, Actions};
use transitions::commands::target_level;
use transitions::tasks::{Begin, FadeRequest, Task, begin_fade};
use transitions::types::Moment;
use units::{Millis, Tenths};

impl LevelControlState {
    /// A fade to a level under the rules for targets: with or without on/off, a scene's or not, and whether the level before is put
    /// back at its end.
    pub fn request_to(
        &self,
        level: u8,
        transition_time: Tenths,
        with_on_off: bool,
        scene_apply: bool,
        puts_back: bool,
    ) -> FadeRequest
        ensures { result ≡ request_to self.now level transition_time with_on_off scene_apply puts_back }
    {
        FadeRequest {
            target: target_level(level, self.settings.range),
            transition_time,
            with_on_off,
            scene_apply,
            puts_back,
        }
    }

    /// Ends the running task; then the target is reached, or there is no level to fade from, or a fade starts.
    // Inline: lent to a call, the whole state stays in memory, and an event takes a sixth longer.
    #[inline(always)]
    #[tactic(auto, using(crate::proofs::ActionLaws::pushed), unfolding(crate::specs::Targets::go_to, transitions::specs::Actions::reports_of))]
    pub(crate) fn go_to(&mut self, request: FadeRequest, moment: Moment, actions: &mut Actions)
        requires { length actions.old ≤ 5 }
        ensures { done self.new actions.new ≡ after actions.old (go_to (quiet self.old) request moment.at moment.on_off) }
    {
        match begin_fade(self.current_level, request, moment.at) {
            Begin::Reached => {
                self.task = Task::Rest;
                let coupling = self.update_coupled_on_off(
                    request.target,
                    request.with_on_off,
                    moment.on_off,
                );
                actions.push_coupling(coupling);
                let reported = request.puts_back & self.attributes.on_level.is_none();
                actions.push_if(reported, ActionKind::L);
            }
            Begin::Lost => self.fails(ErrorCode::InvalidInState, actions),
            Begin::Starts(fade) => self.fade_asks(fade, actions),
        }
    }

    /// The task ends, and the remaining time 0 is written, not as a start.
    #[tactic(auto, using(crate::proofs::ActionLaws::pushed_if), unfolding(crate::specs::Targets::stopped, crate::specs::Reports::write_remaining_time))]
    pub(crate) fn stopped(&mut self, actions: &mut Actions)
        requires { length actions.old ≤ 5 }
        ensures { done self.new actions.new ≡ after actions.old (stopped self.old) }
    {
        self.task = Task::Rest;
        let due = self.write_remaining_time_quietly(Millis(0), false);
        actions.push_if(due, ActionKind::R);
    }
}
