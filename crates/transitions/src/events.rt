//! The kinds of event.
//! Derived from level_control.rs of project-chip/rs-matter 43f61585a4 (see NOTICE), and changed.
use crate::options::CommandOptions;
use crate::types::{Level, Mode, Moment, Rate, Time};
use units::Millis;

#[derive(Clone, Copy, Debug, PartialEq, Eq)]
pub struct MoveToLevelRequest {
    pub level: u8,
    pub transition_time: Time,
    pub options: CommandOptions,
}

#[derive(Clone, Copy, Debug, PartialEq, Eq)]
pub struct MoveRequest {
    pub mode: Mode,
    pub rate: Rate,
    pub options: CommandOptions,
}

#[derive(Clone, Copy, Debug, PartialEq, Eq)]
pub struct StepRequest {
    pub mode: Mode,
    pub step_size: u8,
    pub transition_time: Time,
    pub options: CommandOptions,
}

/// What a scene recalls: the level that its pairs decide, or none.
#[derive(Clone, Copy, Debug, PartialEq, Eq)]
pub struct SceneRequest {
    pub level: Level,
    pub transition_time: Millis,
}

/// What the device answers to a request: the three codes of a record, by name.
#[derive(Clone, Copy, Debug, PartialEq, Eq)]
pub enum DeviceAnswer {
    Level(u8),
    Missing,
    Failed,
}

/// The kinds that share a turn: they are refused while a request to the device is open.
#[derive(Clone, Copy, Debug, PartialEq, Eq)]
pub enum Command {
    MoveToLevel(MoveToLevelRequest),
    Move(MoveRequest),
    Step(StepRequest),
    Stop(CommandOptions),
    OnOffChanged(bool),
    Scene(SceneRequest),
    DeviceUpdate(u8),
    DeviceStop,
    SetOnLevel(Level),
    SetDefaultMoveRate(Rate),
    SetStartUpCurrentLevel(Level),
    FactoryReset,
}

#[derive(Clone, Copy, Debug, PartialEq, Eq)]
pub enum EventKind {
    StartUp,
    Answer(DeviceAnswer),
    Wake,
    Command(Command),
}

#[derive(Clone, Copy, Debug, PartialEq, Eq)]
pub struct Event {
    pub moment: Moment,
    pub kind: EventKind,
}
