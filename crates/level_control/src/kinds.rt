//! What each kind of event does in whatever state, apart from whether it would be refused. An event comes by `handle`.
//! Derived from level_control.rs of project-chip/rs-matter 43f61585a4 (see NOTICE), and changed.
ghost use Rattle.std.specs.Prelude.{◌≡◌, []};
ghost use Rattle.level_control.specs.Answer.{done};
ghost use Rattle.level_control.specs.Handle.{answered, run, run_command, woken};
ghost use Rattle.level_control.specs.Moves.{begin_move};
ghost use Rattle.level_control.specs.Targets.{moved_to_level, recalled, stepped};

use crate::state::LevelControlState;
use transitions::actions::{ActionKind, Actions};
use transitions::commands::{rate_in_force, step_level, step_time};
use transitions::events::{
    Command, DeviceAnswer, EventKind, MoveRequest, MoveToLevelRequest, SceneRequest, StepRequest,
};
use transitions::move_period::move_period;
use transitions::tasks::{Motion, Task, at_limit};
use transitions::types::Moment;
use units::Tenths;

impl LevelControlState {
    /// What an event of a kind does once it is accepted, in any state: no cause is looked at, nor the options, and the time is not
    /// noted as accepted. The actions are put in place of those in the lent list. Where a cause would refuse it: an answer with no
    /// request open, a wake with nothing that waits, a step from a missing level or of too large a product, and a move at rate 0
    /// do nothing; a wake of a fade or a move whose request is open makes the next; a setter takes each level and rate.
    #[tactic(auto, unfolding(crate::specs::Handle::run))]
    pub fn run(&mut self, kind: EventKind, moment: Moment, actions: &mut Actions)
        ensures { done self.new actions.new ≡ run self.old kind moment.at moment.on_off }
    {
        actions.clear();
        match kind {
            EventKind::StartUp => self.started_up(actions),
            EventKind::Answer(answer) => self.run_answer(answer, moment, actions),
            EventKind::Wake => self.run_wake(moment, actions),
            EventKind::Command(command) => self.run_command(command, moment, actions),
        }
    }

    #[tactic(auto, unfolding(crate::specs::Handle::answered))]
    fn run_answer(&mut self, answer: DeviceAnswer, moment: Moment, actions: &mut Actions)
        requires { actions.old ≡ [] }
        ensures { done self.new actions.new ≡ answered self.old answer moment.at moment.on_off }
    {
        if let Some(request) = self.task.open_request() {
            self.answered(request, answer, moment, actions);
        }
    }

    #[tactic(auto, unfolding(crate::specs::Handle::woken))]
    fn run_wake(&mut self, moment: Moment, actions: &mut Actions)
        requires { actions.old ≡ [] }
        ensures { done self.new actions.new ≡ woken self.old moment.at moment.on_off }
    {
        match self.task {
            Task::Fade(fade) => self.fade_woken(fade, moment.at, actions),
            Task::Move(moving) => self.move_goes_on(moving.motion, moment, actions),
            _ => {}
        }
    }

    #[tactic(auto, unfolding(crate::specs::Reactions::switched, crate::specs::Reactions::turned_off, crate::specs::Setters::on_level_set, crate::specs::Setters::default_move_rate_set, crate::specs::Setters::start_up_current_level_set, crate::specs::Setters::reset_all))]
    fn run_command(&mut self, command: Command, moment: Moment, actions: &mut Actions)
        requires { actions.old ≡ [] }
        ensures { done self.new actions.new ≡ run_command self.old command moment.at moment.on_off }
    {
        match command {
            Command::MoveToLevel(request) => self.moved_to_level(request, moment, actions),
            Command::Move(request) => self.begin_move(request, moment, actions),
            Command::Step(request) => self.stepped(request, moment, actions),
            Command::Stop(_) => self.stopped(actions),
            Command::OnOffChanged(true) => self.turned_on(actions),
            Command::OnOffChanged(false) => self.go_to(self.off_request(), moment, actions),
            Command::Scene(request) => self.recalled(request, moment, actions),
            Command::DeviceUpdate(level) => self.updated(level, moment.at, actions),
            Command::DeviceStop => self.stopped(actions),
            Command::SetOnLevel(level) => {
                self.attributes.on_level = level;
                actions.push(ActionKind::K, 0);
            }
            Command::SetDefaultMoveRate(rate) => {
                self.attributes.default_move_rate = rate;
                actions.push(ActionKind::K, 0);
            }
            Command::SetStartUpCurrentLevel(level) => {
                self.attributes.start_up_current_level = level;
                actions.push(ActionKind::K, 0);
            }
            Command::FactoryReset => {
                self.reset();
                actions.push(ActionKind::X, 0);
            }
        }
    }

    /// A missing time is 0.
    #[tactic(auto, unfolding(crate::specs::Targets::moved_to_level, transitions::specs::Types::time_or))]
    fn moved_to_level(&mut self, request: MoveToLevelRequest, moment: Moment, actions: &mut Actions)
        requires { actions.old ≡ [] }
        ensures { done self.new actions.new ≡ moved_to_level self.old request moment.at moment.on_off }
    {
        let time = request.transition_time.unwrap_or(Tenths(0));
        let fade = self.request_to(
            request.level,
            time,
            request.options.with_on_off,
            false,
            false,
        );
        self.go_to(fade, moment, actions);
    }

    /// At its limit nothing happens, and a running task goes on.
    #[tactic(auto, unfolding(crate::specs::Moves::begin_move, crate::specs::Moves::rate_by))]
    fn begin_move(&mut self, request: MoveRequest, moment: Moment, actions: &mut Actions)
        requires { actions.old ≡ [] }
        ensures { done self.new actions.new ≡ begin_move self.old request moment.at moment.on_off }
    {
        if at_limit(self.current_level, request.mode, self.settings.range) {
            return;
        }
        let rate = rate_in_force(
            request.rate,
            self.attributes.default_move_rate,
            self.settings.fastest_rate,
        );
        if let Ok(rate) = rate {
            let motion = Motion {
                mode: request.mode,
                period: move_period(rate),
                with_on_off: request.options.with_on_off,
            };
            self.move_goes_on(motion, moment, actions);
        }
    }

    /// Its level is a target like any other; its time goes by the size that came out.
    #[tactic(auto, unfolding(crate::specs::Targets::stepped, crate::specs::Targets::stepped_level, crate::specs::Targets::stepped_time))]
    fn stepped(&mut self, request: StepRequest, moment: Moment, actions: &mut Actions)
        requires { actions.old ≡ [] }
        ensures { done self.new actions.new ≡ stepped self.old request moment.at moment.on_off }
    {
        let Some(level) = self.current_level else {
            return;
        };
        let size = request.step_size;
        let target = step_level(request.mode, level, size, self.settings.range);
        if let Ok(time) = step_time(request.transition_time, target.abs_diff(level), size) {
            let fade = self.request_to(target, time, request.options.with_on_off, false, false);
            self.go_to(fade, moment, actions);
        }
    }

    /// A scene without a value does nothing.
    #[tactic(auto, unfolding(crate::specs::Targets::recalled))]
    fn recalled(&mut self, request: SceneRequest, moment: Moment, actions: &mut Actions)
        requires { actions.old ≡ [] }
        ensures { done self.new actions.new ≡ recalled self.old request moment.at moment.on_off }
    {
        if let Some(level) = request.level {
            let time = request.transition_time.to_tenths_floor_saturating();
            let fade = self.request_to(level, time, false, true, false);
            self.go_to(fade, moment, actions);
        }
    }
}
