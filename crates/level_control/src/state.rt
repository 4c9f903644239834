//! The state: the source's LevelControlState with CurrentLevel, the running task and the clock's last accepted reading.
//! Derived from level_control.rs of project-chip/rs-matter 43f61585a4 (see NOTICE), and changed.
ghost use Rattle.std.specs.Prelude.{◌≡◌};
ghost use Rattle.level_control.specs.State.{accept, new_state, reset_state};

use transitions::settings::{Attributes, Settings};
use transitions::tasks::Task;
use transitions::types::Level;
use units::{Micros, Tenths};

#[derive(Clone, Copy, Debug, PartialEq, Eq)]
pub struct LevelControlState {
    pub settings: Settings,
    pub attributes: Attributes,
    pub current_level: Level,
    /// The level before the last answer or update, as the source notes it; no rule reads it.
    pub previous_current_level: Level,
    pub remaining_time: Tenths,
    pub last_current_level_notification: Micros,
    pub task: Task,
    pub last_accepted: Micros,
    /// An event was accepted: start-up comes too late.
    pub started: bool,
}

impl LevelControlState {
    /// At rest, with nothing accepted, whatever the settings are.
    #[tactic(auto, unfolding(crate::specs::State::new_state))]
    pub fn new(settings: Settings) -> LevelControlState
        ensures { result ≡ new_state settings }
    {
        LevelControlState {
            settings,
            attributes: settings.attributes,
            current_level: settings.current_level,
            previous_current_level: None,
            remaining_time: Tenths(0),
            last_current_level_notification: Micros(0),
            task: Task::Rest,
            last_accepted: Micros(0),
            started: false,
        }
    }

    /// As the settings make it, but for the level and what was accepted.
    #[tactic(auto, unfolding(crate::specs::State::reset_state, crate::specs::State::new_state))]
    pub(crate) fn reset(&mut self)
        ensures { self.new ≡ reset_state self.old }
    {
        *self = LevelControlState {
            current_level: self.current_level,
            last_accepted: self.last_accepted,
            started: self.started,
            ..LevelControlState::new(self.settings)
        };
    }

    /// An event at a time is accepted.
    #[tactic(auto)]
    pub(crate) fn accept(&mut self, at: Micros)
        ensures { self.new ≡ accept self.old at }
    {
        self.last_accepted = at;
        self.started = true;
    }
}
