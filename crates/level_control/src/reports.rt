//! The remaining time written and the answered level stored in the state, and whether each is reported.
//! Derived from level_control.rs of project-chip/rs-matter 43f61585a4 (see NOTICE), and changed.
ghost use Rattle.std.specs.Prelude.{◌≡◌, [], ◌≤◌, not, length};
ghost use Rattle.transitions.specs.Types.{same_level};
ghost use Rattle.level_control.specs.Reports.{outcome_told, reported, set_level, told_level, write_remaining_time};
ghost use Rattle.level_control.specs.Answer.{done};

use crate::state::LevelControlState;
use transitions::actions::{ActionKind, Actions};
use transitions::current_level::current_level_due;
use transitions::remaining_time::remaining_time_due;
use transitions::types::Level;
use units::{Micros, Millis};

/// The least time between two reports of the level.
const SECOND: Micros = Micros(1_000_000);

/// What is to be told of a level that was stored: P where it changed, L where its report is due.
#[derive(Clone, Copy, Debug, PartialEq, Eq)]
pub(crate) struct Stored {
    pub(crate) changed: bool,
    pub(crate) due: bool,
}

impl LevelControlState {
    /// Says whether the time is to be reported.
    #[tactic(auto, unfolding(crate::specs::Reports::write_remaining_time))]
    pub(crate) fn write_remaining_time_quietly(
        &mut self,
        remaining_time: Millis,
        is_start_of_transition: bool,
    ) -> bool
        ensures { reported self.new result ≡ write_remaining_time self.old remaining_time is_start_of_transition }
    {
        let previous = self.remaining_time;
        self.remaining_time = remaining_time.to_tenths_ceil();
        remaining_time_due(previous, self.remaining_time, is_start_of_transition)
    }

    /// Stores what the device answered.
    #[tactic(auto, unfolding(transitions::specs::Types::same_level, crate::specs::Reports::set_level, crate::specs::Reports::level_due))]
    pub(crate) fn set_level(
        &mut self,
        level: Level,
        now: Micros,
        is_end_of_transition: bool,
    ) -> Stored
        ensures state { reported self.new result.due ≡ set_level self.old level now is_end_of_transition }
        ensures changed { result.changed ≡ not (same_level self.old.current_level level) }
    {
        let old = self.current_level;
        let due = current_level_due(
            SECOND,
            self.last_current_level_notification,
            now,
            is_end_of_transition,
            old,
            level,
        );
        self.previous_current_level = old;
        self.current_level = level;
        if due {
            self.last_current_level_notification = now;
        }
        Stored {
            changed: old != level,
            due,
        }
    }

    /// The same, told by P, S and L.
    #[tactic(auto, using(crate::proofs::ActionLaws::three_told, crate::proofs::ActionLaws::reports_few), unfolding(crate::specs::Reports::told_level))]
    pub(crate) fn told_level(
        &mut self,
        level: Level,
        now: Micros,
        is_end_of_transition: bool,
        actions: &mut Actions,
    )
        requires { actions.old ≡ [] }
        ensures told { done self.new actions.new ≡ outcome_told (told_level self.old level now is_end_of_transition) }
        ensures few { length actions.new ≤ 5 }
    {
        let stored = self.set_level(level, now, is_end_of_transition);
        actions.push_if(stored.changed, ActionKind::P);
        actions.push(ActionKind::S, 0);
        actions.push_if(stored.due, ActionKind::L);
    }
}
