//! The rules of a fade (the source's move_to_level_transition).
//! Derived from level_control.rs of project-chip/rs-matter 43f61585a4 (see NOTICE), and changed.
ghost use Rattle.std.specs.Prelude.{◌≡◌, ◌+◌, ◌-◌, min, [], ◌∷◌, if◌then◌else◌, nat_le};
ghost use Rattle.transitions.specs.Fade.{fade_period, is_transition_start, next_level, remaining_after, wait_or_ask, waits};

use std::cmp::Ordering;
use units::{Micros, Millis, Tenths};

/// The time between two requests of a fade over some levels; over none it is 0.
#[tactic(auto, unfolding(crate::specs::Fade::fade_period))]
pub fn fade_period(transition_time: Tenths, steps: u8) -> Millis
    ensures { result ≡ fade_period transition_time steps }
{
    transition_time.to_millis().div_floor(steps)
}

/// Whether nothing of the time has passed yet. A period of 0 leaves it so.
#[tactic(auto, unfolding(crate::specs::Fade::is_transition_start))]
pub fn is_transition_start(remaining: Millis, transition_time: Tenths) -> bool
    ensures { result ≡ is_transition_start remaining transition_time }
{
    remaining == transition_time.to_millis()
}

/// The unrounded remaining time after an answer; 0 where the period is longer than what remains.
#[tactic(auto, unfolding(crate::specs::Fade::remaining_after))]
pub fn remaining_after(remaining: Millis, period: Millis, is_transition_end: bool) -> Millis
    ensures { result ≡ remaining_after remaining period is_transition_end }
{
    if is_transition_end {
        Millis(0)
    } else {
        remaining.saturating_sub(period)
    }
}

/// The level that a fade asks for next: its own counter moves by one, whatever level the device gave back. At its target it
/// stays.
#[tactic(auto, unfolding(crate::specs::Fade::next_level))]
pub fn next_level(counter: u8, target: u8, transition_time: Tenths) -> u8
    ensures { result ≡ next_level counter target transition_time }
{
    if transition_time == Tenths(0) {
        return target;
    }
    match counter.cmp(&target) {
        Ordering::Less => counter + 1,
        Ordering::Equal => target,
        Ordering::Greater => counter - 1,
    }
}

/// Until when the rest of the period is waited for; None where the device left none of it. An answer before its request waits
/// until the request's time and the period, as one at that time does.
#[tactic(auto, unfolding(crate::specs::Fade::wait_or_ask))]
pub fn wait_or_ask(asked: Micros, answered: Micros, period: Micros) -> Option<Micros>
    ensures value { result ≡ wait_or_ask asked answered period }
    ensures values { waits result
        ≡ (if nat_le (answered.0 - asked.0) period.0 then min u64.MAX (asked.0 + period.0) ∷ [] else []) }
{
    let latency = answered.saturating_sub(asked);
    (latency <= period).then_some(asked.saturating_add(period))
}
