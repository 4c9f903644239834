//! How a task goes on: it asks the device, or waits.
//! Derived from level_control.rs of project-chip/rs-matter 43f61585a4 (see NOTICE), and changed.
ghost use Rattle.std.specs.Prelude.{◌≡◌, ◌++◌};
ghost use Rattle.transitions.specs.Actions.{held};
ghost use Rattle.transitions.specs.Actions.{act};
ghost use Rattle.transitions.specs.declared.actions.ActionKind.TheVariants.{D, W};
ghost use Rattle.level_control.specs.State.{with_task};

use crate::state::LevelControlState;
use transitions::actions::{ActionKind, Actions};
use transitions::tasks::Task;
use units::Micros;

impl LevelControlState {
    /// The task asks the device for a level.
    pub(crate) fn asks(&mut self, task: Task, level: u8, actions: &mut Actions)
        ensures state { self.new ≡ with_task self.old task }
        ensures told { actions.new ≡ held (actions.old ++ act D level) }
    {
        self.task = task;
        actions.push(ActionKind::D, u64::from(level));
    }

    /// The task waits until a time.
    pub(crate) fn waits(&mut self, task: Task, until: Micros, actions: &mut Actions)
        ensures state { self.new ≡ with_task self.old task }
        ensures told { actions.new ≡ held (actions.old ++ act W until.0) }
    {
        self.task = task;
        actions.push(ActionKind::W, until.0);
    }
}
