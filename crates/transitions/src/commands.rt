//! Targets, steps and rates of the commands.
//! Derived from level_control.rs of project-chip/rs-matter 43f61585a4 (see NOTICE), and changed.
ghost use Rattle.std.specs.Prelude.{◌≡◌, ◌*◌, ◌/◌, ◌&&◌, not, [], ◌∷◌, IfErr, if◌then◌else◌, nat_eq, nat_lt, unwrap_or};
ghost use Rattle.units.specs.Units.{tenths};
ghost use Rattle.transitions.specs.declared.causes.Refusal.TheVariants.{InvalidCommand, ProductTooLarge};
ghost use Rattle.transitions.specs.Commands.{consults_options, move_rate_number, move_rate_values, rate_in_force, step_level, step_time, step_time_number, step_time_values, target_level};

use crate::causes::Refusal;
use crate::types::{LevelRange, Mode, Rate, Time};
use units::Tenths;

/// The target of a command, of a scene and of a reaction: within MIN..MAX, but 255 as it is. (The source's
/// move_to_level_validation refuses a level above 254, and both of its callers drop that refusal.) Where MIN is above MAX a
/// target of at most 254 is MAX.
#[tactic(auto, unfolding(crate::specs::Commands::target_level))]
pub fn target_level(level: u8, range: LevelRange) -> u8
    ensures { result ≡ target_level level range.min range.max }
{
    if level <= 254 {
        range.clamp(level)
    } else {
        level
    }
}

/// The options are looked at for a target of at most 254 only.
pub fn consults_options(level: u8) -> bool
    ensures { result ≡ consults_options level }
{
    level <= 254
}

/// The target of a step, before the rules for targets: up held to MAX alone, and down to MIN alone, also where MIN is above MAX.
#[tactic(auto, unfolding(crate::specs::Commands::step_level))]
pub fn step_level(mode: Mode, level: u8, step_size: u8, range: LevelRange) -> u8
    ensures { result ≡ step_level mode level step_size range.min range.max }
{
    match mode {
        Mode::Up => level.saturating_add(step_size).min(range.max),
        Mode::Down => level.saturating_sub(step_size).max(range.min),
    }
}

/// A step whose size came out different takes its time in proportion. A missing time is 0; a size of 0, which is refused
/// before, takes no time where another came out.
#[tactic(auto, unfolding(crate::specs::Commands::step_time))]
pub fn step_time(given: Time, actual_size: u8, step_size: u8) -> Result<Tenths, Refusal>
    ensures value { result ≡ step_time given actual_size step_size }
    ensures refused { IfErr result (λ cause. cause ≡ ProductTooLarge) }
    ensures number { let time = unwrap_or given (tenths 0) in step_time_number result
        ≡ (if not (nat_eq actual_size step_size) && nat_lt 65535 (time.0 * actual_size) then 12 else 0) }
    ensures values { let time = unwrap_or given (tenths 0) in step_time_values result
        ≡ (if nat_eq actual_size step_size then time.0 ∷ []
        else if nat_lt 65535 (time.0 * actual_size) then [] else time.0 * actual_size / step_size ∷ []) }
{
    match given {
        Some(time) if actual_size != step_size => time
            .mul_div_floor(actual_size, step_size)
            .ok_or(Refusal::ProductTooLarge),
        _ => Ok(given.unwrap_or(Tenths(0))),
    }
}

/// A move's rate: the given one, else DefaultMoveRate, else the fastest; none of them may be 0.
#[tactic(auto, unfolding(crate::specs::Commands::rate_in_force))]
pub fn rate_in_force(given: Rate, default_move_rate: Rate, fastest_rate: u8) -> Result<u8, Refusal>
    ensures value { result ≡ rate_in_force given default_move_rate fastest_rate }
    ensures refused { IfErr result (λ cause. cause ≡ InvalidCommand) }
    ensures number { let rate = unwrap_or given (unwrap_or default_move_rate fastest_rate) in
        move_rate_number result ≡ (if nat_eq rate 0 then 10 else 0) }
    ensures values { let rate = unwrap_or given (unwrap_or default_move_rate fastest_rate) in
        move_rate_values result ≡ (if nat_eq rate 0 then [] else rate ∷ []) }
{
    match given.or(default_move_rate).unwrap_or(fastest_rate) {
        0 => Err(Refusal::InvalidCommand),
        rate => Ok(rate),
    }
}
