//! The reactions to on and off (the source's handle_on_off_state_change). Both are with on/off: options never stop them.
//! Derived from level_control.rs of project-chip/rs-matter 43f61585a4 (see NOTICE), and changed.
ghost use Rattle.std.specs.Prelude.{◌≡◌, [], ◌≤◌, false, true, length};
ghost use Rattle.transitions.specs.Types.{time_or};
ghost use Rattle.level_control.specs.Answer.{after, done};
ghost use Rattle.level_control.specs.Reactions.{off_time, on_answered, on_goes_on, on_time, turned_on};
ghost use Rattle.level_control.specs.Targets.{quiet, request_to};

use crate::errors::ErrorCode;
use crate::state::LevelControlState;
use transitions::actions::Actions;
use transitions::events::DeviceAnswer;
use transitions::tasks::{FadeRequest, OnReaction, Task};
use transitions::types::{Moment, Time};
use units::Tenths;

impl LevelControlState {
    /// On: the device goes to MIN first, also from MIN.
    #[tactic(auto, unfolding(crate::specs::Reactions::turned_on))]
    pub(crate) fn turned_on(&mut self, actions: &mut Actions)
        requires { actions.old ≡ [] }
        ensures { done self.new actions.new ≡ turned_on self.old }
    {
        let before = self.current_level;
        let reaction = Task::OnReaction(OnReaction { before });
        self.asks(reaction, self.settings.range.min, actions);
    }

    /// A reaction's own time, else the one that both have.
    #[tactic(auto, unfolding(transitions::specs::Types::time_or))]
    fn reaction_time(&self, time: Time) -> Tenths
        ensures { result ≡ time_or time self.now.attributes.on_off_transition_time }
    {
        time.unwrap_or(self.attributes.on_off_transition_time)
    }

    /// Off: a fade to MIN that puts the level before back.
    #[tactic(auto, unfolding(crate::specs::Reactions::off_time))]
    pub(crate) fn off_request(&self) -> FadeRequest
        ensures { result ≡ request_to self.now self.now.settings.range.min (off_time self.now) true false true }
    {
        let time = self.reaction_time(self.attributes.off_transition_time);
        self.request_to(self.settings.range.min, time, true, false, true)
    }

    /// The device's answer to the request for MIN. It is no end.
    #[tactic(auto, using(crate::proofs::ActionLaws::on_goes_on_after), unfolding(crate::specs::Reactions::on_answered))]
    pub(crate) fn on_answered(
        &mut self,
        reaction: OnReaction,
        answer: DeviceAnswer,
        moment: Moment,
        actions: &mut Actions,
    )
        requires { actions.old ≡ [] }
        ensures { done self.new actions.new ≡ on_answered self.old reaction moment.at moment.on_off answer }
    {
        match answer {
            DeviceAnswer::Level(level) => {
                self.told_level(Some(level), moment.at, false, actions);
                self.on_goes_on(reaction, moment, actions);
            }
            DeviceAnswer::Missing => self.move_missing(false, moment.at, actions),
            DeviceAnswer::Failed => self.device_failed(actions),
        }
    }

    /// To the on level, else to the level before.
    #[tactic(auto, using(crate::proofs::ActionLaws::pushed), unfolding(crate::specs::Reactions::on_goes_on, crate::specs::Reactions::on_time, transitions::specs::Types::level_or, transitions::specs::Actions::reports_of))]
    fn on_goes_on(&mut self, reaction: OnReaction, moment: Moment, actions: &mut Actions)
        requires { length actions.old ≤ 5 }
        ensures { done self.new actions.new ≡ after actions.old (on_goes_on (quiet self.old) reaction moment.at moment.on_off) }
    {
        let time = self.reaction_time(self.attributes.on_transition_time);
        match self.attributes.on_level.or(reaction.before) {
            Some(level) => {
                let request = self.request_to(level, time, true, false, false);
                self.go_to(request, moment, actions);
            }
            None => self.fails(ErrorCode::Failure, actions),
        }
    }
}
