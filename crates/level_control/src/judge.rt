//! Judging an event: the first cause that refuses it, or what it is to do.
//! Derived from level_control.rs of project-chip/rs-matter 43f61585a4 (see NOTICE), and changed.
ghost use Rattle.std.specs.Prelude.{◌≡◌, IfErr, IfOk, OnOk, not, ◌&&◌};
ghost use Rattle.transitions.specs.Causes.{refusal_number};
ghost use Rattle.transitions.specs.Commands.{consults_options};
ghost use Rattle.level_control.specs.Judge.{command_tests_by, continues, level_judged, move_tests, move_to_level_tests, scene_tests, step_tests, tests_number};
ghost use Rattle.level_control.specs.Course.{follow, unless_options_stop};
ghost use Rattle.level_control.specs.Handle.{event_of, number_of, run_command};
ghost use Rattle.level_control.specs.Moves.{begin_move};
ghost use Rattle.level_control.specs.State.{accept};
ghost use Rattle.level_control.specs.Targets.{moved_to_level, recalled, stepped};

use crate::state::LevelControlState;
use transitions::causes::Refusal;
use transitions::commands::{consults_options, rate_in_force, step_level, step_time};
use transitions::events::{
    Command, DeviceAnswer, Event, EventKind, MoveRequest, MoveToLevelRequest, SceneRequest,
    StepRequest,
};
use transitions::move_period::move_period;
use transitions::options::CommandOptions;
use transitions::settings::Attributes;
use transitions::tasks::{FadeRequest, Motion, Request, Wait, at_limit};
use transitions::types::{Level, Moment, OptionsBitmap};
use units::{Micros, Tenths};

/// The last clock time that is accepted.
pub(crate) const LATEST: Micros = Micros((1 << 62) - 1);

/// The options of a scene: a command without on/off that puts nothing over the stored ones.
pub(crate) const SCENE: CommandOptions = CommandOptions {
    with_on_off: false,
    options_mask: OptionsBitmap(0),
    options_override: OptionsBitmap(0),
};

/// What an accepted event is to do, with what was found to judge it.
#[derive(Clone, Copy, Debug, PartialEq, Eq)]
pub(crate) enum Course {
    /// The options stop it, a move stands at its limit, or a scene has no value.
    Nothing,
    StartUp,
    Answered(Request, DeviceAnswer),
    Woken(Wait),
    GoTo(FadeRequest),
    Move(Motion),
    Stop,
    TurnOn,
    Update(u8),
    Set(Attributes),
    Reset,
}

// Three clauses, here and of what is under it: a definition of all three would be unfolded by each caller.
impl LevelControlState {
    #[tactic(auto, unfolding(crate::specs::Handle::event_of, crate::specs::Handle::number_of, crate::specs::Handle::run, crate::specs::Handle::answered, crate::specs::Handle::woken, crate::specs::Judge::turn_tests, crate::specs::Judge::time_refused, crate::specs::Judge::command_tests_of, transitions::specs::Causes::first_cause))]
    pub(crate) fn judge(&self, event: Event) -> Result<Course, Refusal>
        ensures refused { IfErr result (λ cause. refusal_number cause ≡ number_of self.now event) }
        ensures accepted { OnOk result (number_of self.now event ≡ 0) }
        ensures course { IfOk result (λ course. follow (accept self.now event.moment.at) course event.moment.at event.moment.on_off ≡ event_of self.now event) }
    {
        let at = event.moment.at;
        if at < self.last_accepted || LATEST < at {
            return Err(Refusal::TimeRefused);
        }
        let request = self.task.open_request();
        match event.kind {
            EventKind::Answer(answer) => {
                let request = request.ok_or(Refusal::NoAnswerOpen)?;
                Ok(Course::Answered(request, answer))
            }
            _ if request.is_some() => Err(Refusal::AnswerOpen),
            EventKind::StartUp if self.started => Err(Refusal::StartUpLate),
            EventKind::StartUp => Ok(Course::StartUp),
            EventKind::Wake => {
                let wait = self.task.due_wait(at).ok_or(Refusal::WakeRefused)?;
                Ok(Course::Woken(wait))
            }
            EventKind::Command(command) => self.judge_command(command, event.moment),
        }
    }

    #[tactic(auto, unfolding(crate::specs::Judge::move_to_level_tests, crate::specs::Judge::scene_tests, crate::specs::Judge::stop_tests, crate::specs::Judge::level_tests, crate::specs::Judge::rate_tests, crate::specs::Reactions::switched, crate::specs::Reactions::turned_off, crate::specs::Reactions::off_time, crate::specs::Setters::on_level_set, crate::specs::Setters::default_move_rate_set, crate::specs::Setters::start_up_current_level_set, transitions::specs::Causes::first_cause))]
    fn judge_command(&self, command: Command, moment: Moment) -> Result<Course, Refusal>
        ensures refused { IfErr result (λ cause. refusal_number cause ≡ tests_number (command_tests_by self.now moment.on_off command)) }
        ensures accepted { OnOk result (tests_number (command_tests_by self.now moment.on_off command) ≡ 0) }
        ensures course { IfOk result (λ course. follow (accept self.now moment.at) course moment.at moment.on_off ≡ unless_options_stop (command_tests_by self.now moment.on_off command) (accept self.now moment.at) (run_command (accept self.now moment.at) command moment.at moment.on_off)) }
    {
        match command {
            Command::MoveToLevel(request) => Ok(self.judge_move_to_level(request, moment)),
            Command::Move(request) => self.judge_move(request, moment),
            Command::Step(request) => self.judge_step(request, moment),
            Command::Stop(options) => Ok(if self.should_continue(options, moment.on_off) {
                Course::Stop
            } else {
                Course::Nothing
            }),
            Command::OnOffChanged(true) => Ok(Course::TurnOn),
            Command::OnOffChanged(false) => Ok(Course::GoTo(self.off_request())),
            Command::Scene(request) => Ok(self.judge_scene(request, moment)),
            Command::DeviceUpdate(level) => Ok(Course::Update(level)),
            Command::DeviceStop => Ok(Course::Stop),
            Command::SetOnLevel(level) => {
                let on_level = self.judge_level(level)?;
                Ok(Course::Set(Attributes {
                    on_level,
                    ..self.attributes
                }))
            }
            Command::SetDefaultMoveRate(Some(0)) => Err(Refusal::RateZero),
            Command::SetDefaultMoveRate(default_move_rate) => Ok(Course::Set(Attributes {
                default_move_rate,
                ..self.attributes
            })),
            Command::SetStartUpCurrentLevel(level) => {
                let start_up_current_level = self.judge_level(level)?;
                Ok(Course::Set(Attributes {
                    start_up_current_level,
                    ..self.attributes
                }))
            }
            Command::FactoryReset => Ok(Course::Reset),
        }
    }

    /// With the settings and the stored options of the state.
    #[tactic(auto, unfolding(crate::specs::Judge::continues))]
    pub(crate) fn should_continue(&self, options: CommandOptions, on_off: bool) -> bool
        ensures { result ≡ continues self.now options.with_on_off on_off options.options_mask options.options_override }
    {
        options.should_continue(self.settings.coupled, on_off, self.attributes.options)
    }

    /// Whether the options stop a command to a level: of 255 they are not looked at.
    pub(crate) fn options_stop(&self, level: u8, options: CommandOptions, on_off: bool) -> bool
        ensures { result ≡ (consults_options level && not (continues self.now options.with_on_off on_off options.options_mask options.options_override)) }
    {
        consults_options(level) && !self.should_continue(options, on_off)
    }

    #[tactic(auto, unfolding(crate::specs::Judge::move_to_level_tests, crate::specs::Targets::moved_to_level, transitions::specs::Types::time_or))]
    fn judge_move_to_level(&self, request: MoveToLevelRequest, moment: Moment) -> Course
        ensures { follow (accept self.now moment.at) result moment.at moment.on_off ≡ unless_options_stop (move_to_level_tests self.now moment.on_off request) (accept self.now moment.at) (moved_to_level (accept self.now moment.at) request moment.at moment.on_off) }
    {
        if self.options_stop(request.level, request.options, moment.on_off) {
            return Course::Nothing;
        }
        let time = request.transition_time.unwrap_or(Tenths(0));
        Course::GoTo(self.request_to(
            request.level,
            time,
            request.options.with_on_off,
            false,
            false,
        ))
    }

    /// A scene without a value is not stopped, and does nothing.
    #[tactic(auto, unfolding(crate::specs::Judge::scene_tests, crate::specs::Targets::recalled))]
    fn judge_scene(&self, request: SceneRequest, moment: Moment) -> Course
        ensures { follow (accept self.now moment.at) result moment.at moment.on_off ≡ unless_options_stop (scene_tests self.now moment.on_off request) (accept self.now moment.at) (recalled (accept self.now moment.at) request moment.at moment.on_off) }
    {
        let Some(level) = request.level else {
            return Course::Nothing;
        };
        if self.options_stop(level, SCENE, moment.on_off) {
            return Course::Nothing;
        }
        let time = request.transition_time.to_tenths_floor_saturating();
        Course::GoTo(self.request_to(level, time, false, true, false))
    }

    /// At its limit nothing happens, and a running task goes on.
    #[tactic(auto, unfolding(crate::specs::Judge::move_tests, crate::specs::Moves::rate_by, crate::specs::Moves::begin_move, transitions::specs::Causes::first_cause))]
    fn judge_move(&self, request: MoveRequest, moment: Moment) -> Result<Course, Refusal>
        ensures refused { IfErr result (λ cause. refusal_number cause ≡ tests_number (move_tests self.now moment.on_off request)) }
        ensures accepted { OnOk result (tests_number (move_tests self.now moment.on_off request) ≡ 0) }
        ensures course { IfOk result (λ course. follow (accept self.now moment.at) course moment.at moment.on_off ≡ unless_options_stop (move_tests self.now moment.on_off request) (accept self.now moment.at) (begin_move (accept self.now moment.at) request moment.at moment.on_off)) }
    {
        let rate = rate_in_force(
            request.rate,
            self.attributes.default_move_rate,
            self.settings.fastest_rate,
        )?;
        let goes_on = self.should_continue(request.options, moment.on_off);
        if !goes_on || at_limit(self.current_level, request.mode, self.settings.range) {
            return Ok(Course::Nothing);
        }
        Ok(Course::Move(Motion {
            mode: request.mode,
            period: move_period(rate),
            with_on_off: request.options.with_on_off,
        }))
    }

    /// Its level is a target like any other; its time goes by the size that came out.
    #[tactic(auto, unfolding(crate::specs::Judge::step_tests, crate::specs::Judge::step_overflows, crate::specs::Targets::stepped, crate::specs::Targets::stepped_level, crate::specs::Targets::stepped_time, transitions::specs::Causes::first_cause))]
    fn judge_step(&self, request: StepRequest, moment: Moment) -> Result<Course, Refusal>
        ensures refused { IfErr result (λ cause. refusal_number cause ≡ tests_number (step_tests self.now moment.on_off request)) }
        ensures accepted { OnOk result (tests_number (step_tests self.now moment.on_off request) ≡ 0) }
        ensures course { IfOk result (λ course. follow (accept self.now moment.at) course moment.at moment.on_off ≡ unless_options_stop (step_tests self.now moment.on_off request) (accept self.now moment.at) (stepped (accept self.now moment.at) request moment.at moment.on_off)) }
    {
        let size = request.step_size;
        if size == 0 {
            return Err(Refusal::InvalidCommand);
        }
        if !self.should_continue(request.options, moment.on_off) {
            return Ok(Course::Nothing);
        }
        let level = self.current_level.ok_or(Refusal::InvalidInState)?;
        let target = step_level(request.mode, level, size, self.settings.range);
        let time = step_time(request.transition_time, target.abs_diff(level), size)?;
        Ok(Course::GoTo(self.request_to(target, time, request.options.with_on_off, false, false)))
    }

    /// A known level that is to be set lies within MIN..MAX.
    pub(crate) fn judge_level(&self, level: Level) -> Result<Level, Refusal>
        ensures { result ≡ level_judged self.now level }
    {
        match level {
            Some(known) if !self.settings.range.contains(known) => Err(Refusal::LevelOutside),
            _ => Ok(level),
        }
    }
}
