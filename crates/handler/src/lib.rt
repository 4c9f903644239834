//! The source's handler: a state, and a method for each event, under the source's name where it has one. Each gives the
//! next state within its answer, and refuses as `event` does: nothing has to be vetted first.
//! Derived from level_control.rs of project-chip/rs-matter 43f61585a4 (see NOTICE), and changed.
#![tactic(auto)]

ghost use Rattle.std.specs.Prelude.{◌≡◌};
ghost use Rattle.transitions.specs.Scene.{scene_of};
ghost use Rattle.transitions.specs.declared.events.Command.TheVariants as command;
ghost use Rattle.transitions.specs.declared.events.EventKind.TheVariants as kinds;
ghost use Rattle.handler.specs.Answers.{DefaultMoveRateSet, OnLevelSet, StartUpCurrentLevelSet, command_answer, event_answer};

use level_control::answer::Answer;
use level_control::state::LevelControlState;
use transitions::events::{
    Command, DeviceAnswer, Event, EventKind, MoveRequest, MoveToLevelRequest, SceneRequest,
    StepRequest,
};
use transitions::options::CommandOptions;
use transitions::scene::scene_level;
use transitions::types::{Level, Moment, Rate};
use units::Millis;

#[derive(Clone, Copy, Debug, PartialEq, Eq)]
pub struct LevelControlHandler {
    pub state: LevelControlState,
}

impl LevelControlHandler {
    fn event(mut self, moment: Moment, kind: EventKind) -> Answer
        ensures { result ≡ event_answer self.state moment kind }
    {
        self.state.event(Event { moment, kind })
    }

    fn command(mut self, moment: Moment, command: Command) -> Answer
        ensures { result ≡ command_answer self.state moment command }
    {
        self.event(moment, EventKind::Command(command))
    }

    /// The device is asked for the start-up level.
    pub fn startup(mut self, moment: Moment) -> Answer
        ensures { result ≡ event_answer self.state moment kinds.StartUp }
    {
        self.event(moment, EventKind::StartUp)
    }

    pub fn move_to_level(mut self, moment: Moment, request: MoveToLevelRequest) -> Answer
        ensures { result ≡ command_answer self.state moment (command.MoveToLevel request) }
    {
        self.command(moment, Command::MoveToLevel(request))
    }

    pub fn move_command(mut self, moment: Moment, request: MoveRequest) -> Answer
        ensures { result ≡ command_answer self.state moment (command.Move request) }
    {
        self.command(moment, Command::Move(request))
    }

    pub fn step(mut self, moment: Moment, request: StepRequest) -> Answer
        ensures { result ≡ command_answer self.state moment (command.Step request) }
    {
        self.command(moment, Command::Step(request))
    }

    pub fn stop(mut self, moment: Moment, options: CommandOptions) -> Answer
        ensures { result ≡ command_answer self.state moment (command.Stop options) }
    {
        self.command(moment, Command::Stop(options))
    }

    /// The device's answer to the open request.
    pub fn answer(mut self, moment: Moment, answer: DeviceAnswer) -> Answer
        ensures { result ≡ event_answer self.state moment (kinds.Answer answer) }
    {
        self.event(moment, EventKind::Answer(answer))
    }

    /// The end of a wait: the source's timer.
    pub fn wake(mut self, moment: Moment) -> Answer
        ensures { result ≡ event_answer self.state moment kinds.Wake }
    {
        self.event(moment, EventKind::Wake)
    }

    pub fn handle_on_off_state_change(mut self, moment: Moment, on: bool) -> Answer
        ensures { result ≡ command_answer self.state moment (command.OnOffChanged on) }
    {
        self.command(moment, Command::OnOffChanged(on))
    }

    /// A scene whose pairs were searched.
    pub fn recall(mut self, moment: Moment, request: SceneRequest) -> Answer
        ensures { result ≡ command_answer self.state moment (command.Scene request) }
    {
        self.command(moment, Command::Scene(request))
    }

    /// The source's OutOfBandMessage::Update.
    pub fn update(mut self, moment: Moment, level: u8) -> Answer
        ensures { result ≡ command_answer self.state moment (command.DeviceUpdate level) }
    {
        self.command(moment, Command::DeviceUpdate(level))
    }

    /// The source's OutOfBandMessage::Stop.
    pub fn device_stop(mut self, moment: Moment) -> Answer
        ensures { result ≡ command_answer self.state moment command.DeviceStop }
    {
        self.command(moment, Command::DeviceStop)
    }

    #[tactic(auto, using(crate::proofs::SetterLaws::set_on_level_sets))]
    pub fn set_on_level(mut self, moment: Moment, level: Level) -> Answer
        ensures gives { result ≡ command_answer self.state moment (command.SetOnLevel level) }
        ensures sets { OnLevelSet self.state level result }
    {
        self.command(moment, Command::SetOnLevel(level))
    }

    #[tactic(auto, using(crate::proofs::SetterLaws::set_default_move_rate_sets))]
    pub fn set_default_move_rate(mut self, moment: Moment, rate: Rate) -> Answer
        ensures gives { result ≡ command_answer self.state moment (command.SetDefaultMoveRate rate) }
        ensures sets { DefaultMoveRateSet self.state rate result }
    {
        self.command(moment, Command::SetDefaultMoveRate(rate))
    }

    #[tactic(auto, using(crate::proofs::SetterLaws::set_start_up_current_level_sets))]
    pub fn set_start_up_current_level(mut self, moment: Moment, level: Level) -> Answer
        ensures gives { result ≡ command_answer self.state moment (command.SetStartUpCurrentLevel level) }
        ensures sets { StartUpCurrentLevelSet self.state level result }
    {
        self.command(moment, Command::SetStartUpCurrentLevel(level))
    }

    pub fn factory_reset(mut self, moment: Moment) -> Answer
        ensures { result ≡ command_answer self.state moment command.FactoryReset }
    {
        self.command(moment, Command::FactoryReset)
    }

    /// A scene's pairs are searched, and what they decide is recalled.
    pub fn apply(
        mut self,
        moment: Moment,
        ids: &[u32],
        values: &[u16],
        transition_time: Millis,
    ) -> Answer
        ensures { result ≡ command_answer self.state moment (command.Scene (scene_of ids.now values.now transition_time)) }
    {
        let level = scene_level(ids, values);
        self.recall(
            moment,
            SceneRequest {
                level,
                transition_time,
            },
        )
    }
}
