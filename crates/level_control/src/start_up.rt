//! Start-up: its request, and the answer to it.
//! Derived from level_control.rs of project-chip/rs-matter 43f61585a4 (see NOTICE), and changed.
ghost use Rattle.std.specs.Prelude.{◌≡◌, []};
ghost use Rattle.level_control.specs.Answer.{done};
ghost use Rattle.level_control.specs.StartUp.{start_up_answered, start_up_level, started_up, stored_start_up};

use crate::state::LevelControlState;
use transitions::actions::{ActionKind, Actions};
use transitions::events::DeviceAnswer;
use transitions::tasks::Task;
use transitions::types::Level;

impl LevelControlState {
    /// The start-up level within MIN..MAX, else the stored one as it is.
    #[tactic(auto, unfolding(crate::specs::StartUp::start_up_level))]
    fn start_up_level(&self) -> Level
        ensures { result ≡ start_up_level self.now }
    {
        match self.attributes.start_up_current_level {
            Some(level) => Some(self.settings.range.clamp(level)),
            None => self.current_level,
        }
    }

    #[tactic(auto, unfolding(crate::specs::StartUp::started_up))]
    pub(crate) fn started_up(&mut self, actions: &mut Actions)
        requires { actions.old ≡ [] }
        ensures { done self.new actions.new ≡ started_up self.old }
    {
        if let Some(level) = self.start_up_level() {
            self.asks(Task::StartUp, level, actions);
        }
    }

    /// An answer to start-up is stored, and told by P at most.
    #[tactic(auto, unfolding(transitions::specs::Types::same_level, crate::specs::StartUp::stored_start_up))]
    fn stored_start_up(&mut self, level: Level, actions: &mut Actions)
        requires { actions.old ≡ [] }
        ensures { done self.new actions.new ≡ stored_start_up self.old level }
    {
        actions.push_if(self.current_level != level, ActionKind::P);
        self.current_level = level;
        self.task = Task::Rest;
    }

    #[tactic(auto, unfolding(crate::specs::StartUp::start_up_answered))]
    pub(crate) fn start_up_answered(&mut self, answer: DeviceAnswer, actions: &mut Actions)
        requires { actions.old ≡ [] }
        ensures { done self.new actions.new ≡ start_up_answered self.old answer }
    {
        match answer {
            DeviceAnswer::Level(level) => self.stored_start_up(Some(level), actions),
            DeviceAnswer::Missing => self.stored_start_up(None, actions),
            DeviceAnswer::Failed => self.task = Task::Rest,
        }
    }
}
