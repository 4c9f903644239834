//! A fade after its start: the device's answers, and the wake at the end of a wait (the source's move_to_level_transition).
//! Derived from level_control.rs of project-chip/rs-matter 43f61585a4 (see NOTICE), and changed.
ghost use Rattle.std.specs.Prelude.{◌≡◌, [], ◌≤◌, length};
ghost use Rattle.level_control.specs.Answer.{after, done};
ghost use Rattle.level_control.specs.Fades.{asked, device_failed, ended_put_back, fade_answered, fade_coupling, fade_ended, fade_goes_on, fade_missing, fade_told, fade_woken, move_to_level_transition};
ghost use Rattle.level_control.specs.Reports.{outcome_told};
ghost use Rattle.level_control.specs.Targets.{quiet};

use crate::errors::ErrorCode;
use crate::state::LevelControlState;
use transitions::actions::{ActionKind, Actions};
use transitions::events::DeviceAnswer;
use transitions::tasks::{Fade, Task, level_to_put_back};
use transitions::types::Moment;
use units::Micros;

impl LevelControlState {
    /// Coupling at the start and the end of a fade.
    #[tactic(auto, unfolding(crate::specs::Fades::fade_coupling))]
    fn fade_coupling(&self, fade: Fade, on_off: bool, level: u8) -> Option<bool>
        ensures { result ≡ fade_coupling self.now fade on_off level }
    {
        if fade.is_start() || fade.is_last() {
            self.update_coupled_on_off(level, fade.with_on_off, on_off)
        } else {
            None
        }
    }

    /// The answered level stored and the remaining time written: P, S, C, L and R.
    #[tactic(auto, using(crate::proofs::ActionLaws::five_pushed, crate::proofs::ActionLaws::reports_few), unfolding(crate::specs::Fades::fade_told, crate::specs::Fades::fade_stored, transitions::specs::Types::same_level))]
    fn fade_told(&mut self, fade: Fade, moment: Moment, level: u8, actions: &mut Actions)
        requires { actions.old ≡ [] }
        ensures told { done self.new actions.new ≡ outcome_told (fade_told self.old fade moment.at moment.on_off level) }
        ensures few { length actions.new ≤ 5 }
    {
        let coupling = self.fade_coupling(fade, moment.on_off, level);
        let stored = self.set_level(Some(level), moment.at, fade.is_last());
        let time_due = self.write_remaining_time_quietly(fade.left(), fade.is_start());
        actions.push_if(stored.changed, ActionKind::P);
        actions.push_if(!fade.scene_apply, ActionKind::S);
        actions.push_coupling(coupling);
        actions.push_if(stored.due, ActionKind::L);
        actions.push_if(time_due, ActionKind::R);
    }

    /// The device answered a level.
    #[tactic(auto, using(crate::proofs::ActionLaws::fade_ended_after, crate::proofs::ActionLaws::fade_goes_on_after), unfolding(crate::specs::Fades::move_to_level_transition))]
    fn move_to_level_transition(
        &mut self,
        fade: Fade,
        since: Micros,
        moment: Moment,
        level: u8,
        actions: &mut Actions,
    )
        requires { actions.old ≡ [] }
        ensures { done self.new actions.new ≡ move_to_level_transition self.old fade since moment.at moment.on_off level }
    {
        self.fade_told(fade, moment, level, actions);
        if fade.is_last() {
            self.fade_ended(fade.put_back, actions)
        } else {
            self.fade_goes_on(fade, since, moment.at, actions)
        }
    }

    /// The device answered that it has no level: the fade fails, and nothing is put back.
    #[tactic(auto, using(crate::proofs::ActionLaws::missing_told), unfolding(crate::specs::Fades::fade_missing, transitions::specs::Types::same_level))]
    fn fade_missing(&mut self, fade: Fade, now: Micros, actions: &mut Actions)
        requires { actions.old ≡ [] }
        ensures { done self.new actions.new ≡ fade_missing self.old fade now }
    {
        let stored = self.set_level(None, now, fade.is_last());
        actions.push_if(stored.changed, ActionKind::P);
        actions.push_if(!fade.scene_apply, ActionKind::S);
        self.fails(ErrorCode::Failure, actions);
    }

    /// A failed device ends the task, and changes nothing else but the noted previous level.
    #[tactic(auto, unfolding(crate::specs::Fades::device_failed))]
    pub(crate) fn device_failed(&mut self, actions: &mut Actions)
        requires { actions.old ≡ [] }
        ensures { done self.new actions.new ≡ device_failed self.old }
    {
        self.previous_current_level = self.current_level;
        self.fails(ErrorCode::Failure, actions);
    }

    #[tactic(auto, unfolding(crate::specs::Fades::fade_answered))]
    pub(crate) fn fade_answered(
        &mut self,
        fade: Fade,
        since: Micros,
        answer: DeviceAnswer,
        moment: Moment,
        actions: &mut Actions,
    )
        requires { actions.old ≡ [] }
        ensures { done self.new actions.new ≡ fade_answered self.old fade since moment.at moment.on_off answer }
    {
        match answer {
            DeviceAnswer::Level(level) => self.move_to_level_transition(
                fade, since, moment, level, actions,
            ),
            DeviceAnswer::Missing => self.fade_missing(fade, moment.at, actions),
            DeviceAnswer::Failed => self.device_failed(actions),
        }
    }

    /// The wait is over: the next request.
    #[tactic(auto, unfolding(crate::specs::Fades::fade_woken))]
    pub(crate) fn fade_woken(&mut self, fade: Fade, now: Micros, actions: &mut Actions)
        requires { actions.old ≡ [] }
        ensures { done self.new actions.new ≡ fade_woken self.old fade now }
    {
        self.fade_asks(fade.asking(fade.remaining, now), actions)
    }

    /// A fade whose request is made now.
    #[tactic(auto, using(crate::proofs::ActionLaws::pushed))]
    pub(crate) fn fade_asks(&mut self, fade: Fade, actions: &mut Actions)
        requires { length actions.old ≤ 5 }
        ensures { done self.new actions.new ≡ after actions.old (asked self.old fade) }
    {
        self.asks(Task::Fade(fade), fade.counter, actions);
    }

    /// The end of a fade.
    #[tactic(auto, unfolding(crate::specs::Fades::fade_ended, transitions::specs::Actions::reports_of))]
    fn fade_ended(&mut self, put_back: Option<u8>, actions: &mut Actions)
        requires { length actions.old ≤ 5 }
        ensures { done self.new actions.new ≡ after actions.old (fade_ended (quiet self.old) put_back) }
    {
        match level_to_put_back(put_back, self.attributes.on_level) {
            Some(level) => self.ended_put_back(level, actions),
            None => self.task = Task::Rest,
        }
    }

    /// The off reaction's puts the level before back, without the device: P if it changes, and L.
    #[tactic(auto, using(crate::proofs::ActionLaws::if_then), unfolding(crate::specs::Fades::ended_put_back, transitions::specs::Actions::reports_of))]
    fn ended_put_back(&mut self, level: u8, actions: &mut Actions)
        requires { length actions.old ≤ 5 }
        ensures { done self.new actions.new ≡ after actions.old (ended_put_back (quiet self.old) level) }
    {
        self.task = Task::Rest;
        actions.push_if(self.current_level != Some(level), ActionKind::P);
        actions.push(ActionKind::L, 0);
        self.current_level = Some(level);
    }

    /// Before the end: the rest of the period is waited for, or the next request is made at once.
    #[tactic(auto, using(crate::proofs::ActionLaws::pushed), unfolding(crate::specs::Fades::fade_goes_on, transitions::specs::Actions::reports_of))]
    fn fade_goes_on(&mut self, fade: Fade, since: Micros, now: Micros, actions: &mut Actions)
        requires { length actions.old ≤ 5 }
        ensures { done self.new actions.new ≡ after actions.old (fade_goes_on (quiet self.old) fade since now) }
    {
        let Some(until) = fade.next(since, now) else {
            return self.fade_asks(fade.asking(fade.left(), now), actions);
        };
        self.waits(Task::Fade(fade.waiting(fade.left(), until)), until, actions);
    }
}
