//! When a level that the device answered is reported (the quiet report of the source's set_level).
//! Derived from level_control.rs of project-chip/rs-matter 43f61585a4 (see NOTICE), and changed.
ghost use Rattle.std.specs.Prelude.{◌≡◌};
ghost use Rattle.transitions.specs.CurrentLevel.{current_level_due};

use crate::types::Level;
use units::Micros;

/// The least gap is a parameter: the state machine gives a second, as the source has it. With a gap of 0 every report is due; of
/// a last report later than now no time has passed.
#[tactic(auto, unfolding(crate::specs::CurrentLevel::current_level_due))]
pub fn current_level_due(
    least_gap: Micros,
    last_report: Micros,
    now: Micros,
    is_end_of_transition: bool,
    old: Level,
    new: Level,
) -> bool
    ensures { result ≡ current_level_due least_gap last_report now is_end_of_transition old new }
{
    least_gap <= now.saturating_sub(last_report)
        || is_end_of_transition
        || old.is_none()
        || new.is_none()
}
