//! One event of any kind: judged, and what it is to do followed.
//! Derived from level_control.rs of project-chip/rs-matter 43f61585a4 (see NOTICE), and changed.
ghost use Rattle.std.specs.Prelude.{◌≡◌, []};
ghost use Rattle.level_control.specs.Answer.{done, handled, handled_number, number_shown, packed};
ghost use Rattle.level_control.specs.Course.{follow};
ghost use Rattle.level_control.specs.Handle.{answered_to, event_of, number_of};

use crate::answer::Answer;
use crate::judge::Course;
use crate::state::LevelControlState;
use transitions::actions::{ActionKind, Actions};
use transitions::causes::Refusal;
use transitions::events::{DeviceAnswer, Event};
use transitions::tasks::{Request, Wait};
use transitions::types::Moment;

impl LevelControlState {
    /// The state is handed back within the answer: as it was, where the event is refused.
    #[tactic(auto, using(crate::proofs::ActionLaws::refusal_found), unfolding(crate::specs::Answer::packed, crate::specs::Answer::answer_of))]
    pub fn event(mut self, event: Event) -> Answer
        ensures value { result ≡ packed (event_of self event) }
        ensures number { number_shown result.refusal ≡ number_of self event }
    {
        let mut actions = Actions::new();
        let refusal = self.handle(event, &mut actions).err();
        Answer::new(refusal, self, &actions)
    }

    /// The same where the state stands: it changes only if the event is accepted. The actions are put in place of those in
    /// the lent list; a refused event has none. A task that waits although nothing was accepted, which no play makes, is replaced
    /// where start-up asks for a level.
    #[tactic(auto, using(crate::proofs::ActionLaws::refusal_not_0), unfolding(crate::specs::Handle::event_of))]
    pub fn handle(&mut self, event: Event, actions: &mut Actions) -> Result<(), Refusal>
        ensures value { handled result self.new actions.new ≡ event_of self.old event }
        ensures number { handled_number result ≡ number_of self.old event }
    {
        actions.clear();
        let course = self.judge(event)?;
        self.accept(event.moment.at);
        self.follow(course, event.moment, actions);
        Ok(())
    }

    // The list is lent to all that follows, and is empty: given back by value an event takes two fifths longer. What an event
    // brings and what it fills stay two parameters: one struct would hold a lent list beside a value.
    #[tactic(auto, unfolding(crate::specs::Setters::reset_all))]
    fn follow(&mut self, course: Course, moment: Moment, actions: &mut Actions)
        requires { actions.old ≡ [] }
        ensures { done self.new actions.new ≡ follow self.old course moment.at moment.on_off }
    {
        match course {
            Course::Nothing => {}
            Course::StartUp => self.started_up(actions),
            Course::Answered(request, answer) => self.answered(request, answer, moment, actions),
            Course::Woken(Wait::Fade(fade)) => self.fade_woken(fade, moment.at, actions),
            Course::Woken(Wait::Move(motion)) => self.move_goes_on(motion, moment, actions),
            Course::GoTo(request) => self.go_to(request, moment, actions),
            Course::Move(motion) => self.move_goes_on(motion, moment, actions),
            Course::Stop => self.stopped(actions),
            Course::TurnOn => self.turned_on(actions),
            Course::Update(level) => self.updated(level, moment.at, actions),
            Course::Set(attributes) => {
                self.attributes = attributes;
                actions.push(ActionKind::K, 0);
            }
            Course::Reset => {
                self.reset();
                actions.push(ActionKind::X, 0);
            }
        }
    }

    pub(crate) fn answered(
        &mut self,
        request: Request,
        answer: DeviceAnswer,
        moment: Moment,
        actions: &mut Actions,
    )
        requires { actions.old ≡ [] }
        ensures { done self.new actions.new ≡ answered_to request self.old answer moment.at moment.on_off }
    {
        match request {
            Request::StartUp => self.start_up_answered(answer, actions),
            Request::Fade(fade, since) => self.fade_answered(fade, since, answer, moment, actions),
            Request::Move(moving, since) => self.move_answered(
                moving, since, answer, moment, actions,
            ),
            Request::OnReaction(reaction) => self.on_answered(reaction, answer, moment, actions),
        }
    }
}
