//! The period of a move (the source's move_transition).
//! Derived from level_control.rs of project-chip/rs-matter 43f61585a4 (see NOTICE), and changed.
ghost use Rattle.std.specs.Prelude.{◌≡◌};
ghost use Rattle.transitions.specs.MovePeriod.{move_period};

use units::Micros;

/// The time between two requests of a move (the source's Duration::from_hz). A rate of 0, which is refused before, gives 0.
#[tactic(auto, unfolding(crate::specs::MovePeriod::move_period))]
pub fn move_period(rate: u8) -> Micros
    ensures { result ≡ move_period rate }
{
    let hz = u64::from(rate);
    Micros((1_000_000 + hz / 2).checked_div(hz).unwrap_or(0))
}
