//! The error that ends a task.
//! Derived from level_control.rs of project-chip/rs-matter 43f61585a4 (see NOTICE), and changed.
ghost use Rattle.std.specs.Prelude.{◌≡◌, ◌++◌};
ghost use Rattle.transitions.specs.Actions.{held};
ghost use Rattle.transitions.specs.Actions.{act};
ghost use Rattle.transitions.specs.declared.actions.ActionKind.TheVariants.{E};
ghost use Rattle.transitions.specs.declared.tasks.Task.TheVariants.{Rest};
ghost use Rattle.level_control.specs.Errors.{error_number};
ghost use Rattle.level_control.specs.State.{with_task};

use crate::state::LevelControlState;
use transitions::actions::{ActionKind, Actions};
use transitions::tasks::Task;

/// What E says (docs/RULES.md, Events and answers).
#[derive(Clone, Copy, Debug, PartialEq, Eq)]
pub(crate) enum ErrorCode {
    /// There is no level to fade or move from.
    InvalidInState = 11,
    /// The device failed or has no level, or on has no level to return to.
    Failure = 15,
}

impl From<ErrorCode> for u64 {
    ghost from_gives = { λ code number. number ≡ error_number code };

    fn from(code: ErrorCode) -> u64 {
        // Its discriminant.
        code as u64
    }
}

impl LevelControlState {
    /// Ends the task, and says why.
    pub(crate) fn fails(&mut self, code: ErrorCode, actions: &mut Actions)
        ensures state { self.new ≡ with_task self.old Rest }
        ensures told { actions.new ≡ held (actions.old ++ act E (error_number code)) }
    {
        self.task = Task::Rest;
        actions.push(ActionKind::E, u64::from(code));
    }
}
