//! A move at a rate, from its first request to its end (the source's move_transition).
//! Derived from level_control.rs of project-chip/rs-matter 43f61585a4 (see NOTICE), and changed.
ghost use Rattle.std.specs.Prelude.{◌≡◌, [], ◌≤◌, length};
ghost use Rattle.level_control.specs.Answer.{after, done};
ghost use Rattle.level_control.specs.Moves.{leaves_min, move_answered, move_ends, move_goes_on, move_missing, move_then, move_transition};
ghost use Rattle.level_control.specs.Targets.{quiet};

use crate::errors::ErrorCode;
use crate::state::LevelControlState;
use transitions::actions::Actions;
use transitions::events::DeviceAnswer;
use transitions::fade::wait_or_ask;
use transitions::tasks::{Motion, Move, MoveStep, Task, is_move_end, next_move};
use transitions::types::Moment;
use units::Micros;

impl LevelControlState {
    /// A request that leaves MIN upwards couples before it is made, in case the move is halted.
    #[tactic(auto, unfolding(crate::specs::Moves::leaves_min))]
    fn leaves_min(&self, asked: u8, with_on_off: bool, on_off: bool) -> Option<bool>
        ensures { result ≡ leaves_min self.now asked with_on_off on_off }
    {
        let min = self.settings.range.min;
        if self.current_level == Some(min) && min < asked {
            self.update_coupled_on_off(asked, with_on_off, on_off)
        } else {
            None
        }
    }

    #[tactic(auto, unfolding(crate::specs::Moves::move_ends))]
    fn move_ends(&self, asked: u8) -> bool
        ensures { result ≡ move_ends self.now asked }
    {
        is_move_end(asked, self.settings.range)
    }

    /// The device answered a level. C at the end follows L.
    #[tactic(auto, using(crate::proofs::ActionLaws::pushed_coupling, crate::proofs::ActionLaws::move_then_after), unfolding(crate::specs::Moves::move_transition))]
    fn move_transition(
        &mut self,
        moving: Move,
        since: Micros,
        moment: Moment,
        level: u8,
        actions: &mut Actions,
    )
        requires { actions.old ≡ [] }
        ensures { done self.new actions.new ≡ move_transition self.old moving since moment.at moment.on_off level }
    {
        let is_end = self.move_ends(moving.asked);
        let with_on_off = moving.motion.with_on_off;
        let coupling = self.update_coupled_on_off(level, with_on_off, moment.on_off);
        self.told_level(Some(level), moment.at, is_end, actions);
        if is_end {
            self.task = Task::Rest;
            actions.push_coupling(coupling);
        } else {
            self.move_then(moving, since, moment, actions);
        }
    }

    /// A missing answer in a move, or to the on reaction's request for MIN: P, S, L, E.
    #[tactic(auto, using(crate::proofs::ActionLaws::pushed), unfolding(crate::specs::Moves::move_missing))]
    pub(crate) fn move_missing(&mut self, is_end: bool, now: Micros, actions: &mut Actions)
        requires { actions.old ≡ [] }
        ensures { done self.new actions.new ≡ move_missing self.old is_end now }
    {
        self.told_level(None, now, is_end, actions);
        self.fails(ErrorCode::Failure, actions);
    }

    #[tactic(auto, unfolding(crate::specs::Moves::move_answered))]
    pub(crate) fn move_answered(
        &mut self,
        moving: Move,
        since: Micros,
        answer: DeviceAnswer,
        moment: Moment,
        actions: &mut Actions,
    )
        requires { actions.old ≡ [] }
        ensures { done self.new actions.new ≡ move_answered self.old moving since moment.at moment.on_off answer }
    {
        match answer {
            DeviceAnswer::Level(level) => self.move_transition(
                moving, since, moment, level, actions,
            ),
            DeviceAnswer::Missing => self.move_missing(
                self.move_ends(moving.asked),
                moment.at,
                actions,
            ),
            DeviceAnswer::Failed => self.device_failed(actions),
        }
    }

    /// The next request of a move, from the stored level.
    // Inline, as go_to is.
    #[inline(always)]
    #[tactic(auto, using(crate::proofs::ActionLaws::pushed, crate::proofs::ActionLaws::coupled_then), unfolding(crate::specs::Moves::move_goes_on, transitions::specs::Actions::reports_of))]
    pub(crate) fn move_goes_on(&mut self, motion: Motion, moment: Moment, actions: &mut Actions)
        requires { length actions.old ≤ 5 }
        ensures { done self.new actions.new ≡ after actions.old (move_goes_on (quiet self.old) motion moment.at moment.on_off) }
    {
        match next_move(self.current_level, motion.mode) {
            MoveStep::Lost => self.fails(ErrorCode::InvalidInState, actions),
            MoveStep::Ends => self.task = Task::Rest,
            MoveStep::Asks(asked) => {
                let coupling = self.leaves_min(asked, motion.with_on_off, moment.on_off);
                actions.push_coupling(coupling);
                self.asks(Task::Move(motion.asking(asked, moment.at)), asked, actions);
            }
        }
    }

    /// After an answer before the end: wait, or ask at once.
    #[tactic(auto, using(crate::proofs::ActionLaws::pushed), unfolding(crate::specs::Moves::move_then, transitions::specs::Actions::reports_of))]
    fn move_then(&mut self, moving: Move, since: Micros, moment: Moment, actions: &mut Actions)
        requires { length actions.old ≤ 5 }
        ensures { done self.new actions.new ≡ after actions.old (move_then (quiet self.old) moving since moment.at moment.on_off) }
    {
        match wait_or_ask(since, moment.at, moving.motion.period) {
            Some(until) => self.waits(Task::Move(moving.waiting(until)), until, actions),
            None => self.move_goes_on(moving.motion, moment, actions),
        }
    }
}
