//! Every cause's test of an event, whichever comes first. `judge` finds that one, and looks at no more than it needs.
//! Derived from level_control.rs of project-chip/rs-matter 43f61585a4 (see NOTICE), and changed.
ghost use Rattle.std.specs.Prelude.{◌≡◌, not};
ghost use Rattle.transitions.specs.Tasks.{task_due};
ghost use Rattle.level_control.specs.Judge.{command_tests_by, command_tests_of, level_tests, move_tests, move_to_level_tests, rate_tests, scene_tests, step_overflows, step_tests, turn_tests};

use crate::judge::{LATEST, SCENE};
use crate::state::LevelControlState;
use transitions::causes::{CommandTests, TurnTests};
use transitions::commands::{rate_in_force, step_level, step_time};
use transitions::events::{
    Command, EventKind, MoveRequest, MoveToLevelRequest, SceneRequest, StepRequest,
};
use transitions::types::{Level, Rate};
use units::Micros;

impl LevelControlState {
    /// 5 to 9: whether an event's turn has come. The tests of a kind that they are not for do not hold.
    #[tactic(auto, unfolding(crate::specs::Judge::turn_tests, crate::specs::Judge::time_refused))]
    pub fn turn_tests(&self, at: Micros, kind: EventKind) -> TurnTests
        ensures { result ≡ turn_tests self.now at kind }
    {
        let is_open = self.task.open_request().is_some();
        let tests = TurnTests {
            time_refused: at < self.last_accepted || LATEST < at,
            ..TurnTests::none()
        };
        match kind {
            EventKind::StartUp => TurnTests {
                answer_open: is_open,
                start_up_late: self.started,
                ..tests
            },
            EventKind::Answer(_) => TurnTests {
                no_answer_open: !is_open,
                ..tests
            },
            EventKind::Wake => TurnTests {
                answer_open: is_open,
                wake_refused: self.wake_refused(at),
                ..tests
            },
            EventKind::Command(_) => TurnTests {
                answer_open: is_open,
                ..tests
            },
        }
    }

    /// Nothing waits, or it waits still.
    fn wake_refused(&self, at: Micros) -> bool
        ensures { result ≡ not (task_due self.now.task at) }
    {
        self.task.due_wait(at).is_none()
    }

    /// 10 to 14 and the options: what a command's own values say. The other kinds have none.
    #[tactic(auto, unfolding(crate::specs::Judge::command_tests_of))]
    pub fn command_tests(&self, on_off: bool, kind: EventKind) -> CommandTests
        ensures { result ≡ command_tests_of self.now on_off kind }
    {
        match kind {
            EventKind::Command(command) => self.command_tests_by(on_off, command),
            _ => CommandTests::none(),
        }
    }

    #[tactic(auto, unfolding(crate::specs::Judge::stop_tests))]
    fn command_tests_by(&self, on_off: bool, command: Command) -> CommandTests
        ensures { result ≡ command_tests_by self.now on_off command }
    {
        match command {
            Command::MoveToLevel(request) => self.move_to_level_tests(on_off, request),
            Command::Move(request) => self.move_tests(on_off, request),
            Command::Step(request) => self.step_tests(on_off, request),
            Command::Stop(options) => CommandTests {
                stopped_by_options: !self.should_continue(options, on_off),
                ..CommandTests::none()
            },
            Command::Scene(request) => self.scene_tests(on_off, request),
            Command::SetOnLevel(level) => self.level_tests(level),
            Command::SetDefaultMoveRate(rate) => rate_tests(rate),
            Command::SetStartUpCurrentLevel(level) => self.level_tests(level),
            _ => CommandTests::none(),
        }
    }

    #[tactic(auto, unfolding(crate::specs::Judge::move_to_level_tests))]
    fn move_to_level_tests(&self, on_off: bool, request: MoveToLevelRequest) -> CommandTests
        ensures { result ≡ move_to_level_tests self.now on_off request }
    {
        CommandTests {
            stopped_by_options: self.options_stop(request.level, request.options, on_off),
            ..CommandTests::none()
        }
    }

    #[tactic(auto, unfolding(crate::specs::Judge::move_tests, crate::specs::Moves::rate_by))]
    fn move_tests(&self, on_off: bool, request: MoveRequest) -> CommandTests
        ensures { result ≡ move_tests self.now on_off request }
    {
        let rate = rate_in_force(
            request.rate,
            self.attributes.default_move_rate,
            self.settings.fastest_rate,
        );
        CommandTests {
            invalid_command: rate.is_err(),
            stopped_by_options: !self.should_continue(request.options, on_off),
            ..CommandTests::none()
        }
    }

    #[tactic(auto, unfolding(crate::specs::Judge::step_tests))]
    fn step_tests(&self, on_off: bool, request: StepRequest) -> CommandTests
        ensures { result ≡ step_tests self.now on_off request }
    {
        CommandTests {
            invalid_command: request.step_size == 0,
            stopped_by_options: !self.should_continue(request.options, on_off),
            invalid_in_state: self.current_level.is_none(),
            product_too_large: self.step_overflows(request),
            ..CommandTests::none()
        }
    }

    /// From a missing level there is no product.
    #[tactic(auto, unfolding(crate::specs::Judge::step_overflows, crate::specs::Targets::stepped_level, crate::specs::Targets::stepped_time))]
    fn step_overflows(&self, request: StepRequest) -> bool
        ensures { result ≡ step_overflows self.now request }
    {
        let Some(level) = self.current_level else {
            return false;
        };
        let size = request.step_size;
        let target = step_level(request.mode, level, size, self.settings.range);
        step_time(request.transition_time, target.abs_diff(level), size).is_err()
    }

    #[tactic(auto, unfolding(crate::specs::Judge::scene_tests))]
    fn scene_tests(&self, on_off: bool, request: SceneRequest) -> CommandTests
        ensures { result ≡ scene_tests self.now on_off request }
    {
        match request.level {
            Some(level) => CommandTests {
                stopped_by_options: self.options_stop(level, SCENE, on_off),
                ..CommandTests::none()
            },
            None => CommandTests::none(),
        }
    }

    #[tactic(auto, unfolding(crate::specs::Judge::level_tests))]
    fn level_tests(&self, level: Level) -> CommandTests
        ensures { result ≡ level_tests self.now level }
    {
        CommandTests {
            level_outside: self.judge_level(level).is_err(),
            ..CommandTests::none()
        }
    }
}

#[tactic(auto, unfolding(crate::specs::Judge::rate_tests))]
fn rate_tests(rate: Rate) -> CommandTests
    ensures { result ≡ rate_tests rate }
{
    CommandTests {
        rate_0: rate == Some(0),
        ..CommandTests::none()
    }
}
