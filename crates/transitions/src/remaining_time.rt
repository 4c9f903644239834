//! When a write of RemainingTime is reported (the source's write_remaining_time_quietly).
//! Derived from level_control.rs of project-chip/rs-matter 43f61585a4 (see NOTICE), and changed.
ghost use Rattle.std.specs.Prelude.{◌≡◌};
ghost use Rattle.transitions.specs.RemainingTime.{remaining_time_due};

use units::Tenths;

#[tactic(auto, unfolding(crate::specs::RemainingTime::remaining_time_due))]
pub fn remaining_time_due(previous: Tenths, next: Tenths, is_start_of_transition: bool) -> bool
    ensures { result ≡ remaining_time_due previous next is_start_of_transition }
{
    let none = Tenths(0);
    let ten = Tenths(10);
    (next == none && previous != none)
        || (previous == none && ten < next)
        || (ten < next.abs_diff(previous) && is_start_of_transition)
}
