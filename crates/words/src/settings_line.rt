//! The line of the settings (docs/WORDS.md, The grammar).
ghost use Rattle.std.specs.Prelude.{◌≡◌};
ghost use Rattle.words.specs.SettingsLine.{flags, further, further_flags, further_levels, further_times, levels, lighting, max_at, min_at, range, settings, settings_line, times};

use crate::fault::{Expected, WordFault};
use crate::names::Name;
use crate::tokens::Token;
use crate::values::{
    Read, byte, fault, flag, keyword, named_byte, named_time, optional_byte, optional_time, stands,
};
use transitions::settings::{Attributes, Settings};
use transitions::types::{Level, LevelRange, OptionsBitmap, Rate, Time};
use units::Tenths;

/// The settings of all of a line.
#[tactic(auto, unfolding(crate::specs::SettingsLine::settings_line))]
pub(crate) fn settings_line(tokens: &[Token]) -> Result<Settings, WordFault>
    ensures { result ≡ settings_line tokens.now }
{
    let (settings, at) = settings(tokens, 0)?;
    if at < tokens.len() {
        return fault(at, further(&settings));
    }
    Ok(settings)
}

#[tactic(auto, unfolding(crate::specs::SettingsLine::settings))]
fn settings(tokens: &[Token], at: usize) -> Read<Settings>
    ensures { result ≡ settings tokens.now at }
{
    let (_, at) = keyword(tokens, at, Name::Settings, Expected::Settings)?;
    let (range, at) = range(tokens, at)?;
    let (_, at) = keyword(tokens, at, Name::FastestRate, Expected::FastestRate)?;
    let (fastest_rate, at) = byte(tokens, at)?;
    let ((current_level, (on_level, (start_up_current_level, default_move_rate))), at) = levels(
        tokens, at,
    )?;
    let ((on_off_transition_time, (on_transition_time, off_transition_time)), at) = times(
        tokens, at,
    )?;
    let ((options, (coupled, lighting)), at) = flags(tokens, at, range.min)?;
    let settings = Settings {
        range,
        coupled,
        fastest_rate,
        lighting,
        current_level,
        attributes: Attributes {
            on_level,
            options: OptionsBitmap(options),
            on_off_transition_time,
            on_transition_time,
            off_transition_time,
            default_move_rate,
            start_up_current_level,
        },
    };
    Ok((settings, at))
}

/// Min, and a max that goes with it.
#[tactic(auto, unfolding(crate::specs::SettingsLine::range))]
fn range(tokens: &[Token], at: usize) -> Read<LevelRange>
    ensures { result ≡ range tokens.now at }
{
    let (_, at) = keyword(tokens, at, Name::Min, Expected::Min)?;
    let (min, at) = min_at(tokens, at)?;
    let (_, at) = keyword(tokens, at, Name::Max, Expected::Max)?;
    let (max, at) = max_at(tokens, at, min)?;
    Ok((LevelRange { min, max }, at))
}

/// At most 254, as every max.
#[tactic(auto, unfolding(crate::specs::SettingsLine::min_at))]
fn min_at(tokens: &[Token], at: usize) -> Read<u8>
    ensures { result ≡ min_at tokens.now at }
{
    let (min, past) = byte(tokens, at)?;
    if 254 < min {
        fault(at, Expected::MinAtMost254)
    } else {
        Ok((min, past))
    }
}

/// At most 254, and no lower than min.
#[tactic(auto, unfolding(crate::specs::SettingsLine::max_at))]
fn max_at(tokens: &[Token], at: usize, min: u8) -> Read<u8>
    ensures { result ≡ max_at min tokens.now at }
{
    let (max, past) = byte(tokens, at)?;
    if 254 < max {
        fault(at, Expected::MaxAtMost254)
    } else if max < min {
        fault(at, Expected::MaxNotBelowMin)
    } else {
        Ok((max, past))
    }
}

#[tactic(auto, unfolding(crate::specs::SettingsLine::levels))]
fn levels(tokens: &[Token], at: usize) -> Read<(Level, (Level, (Level, Rate)))>
    ensures { result ≡ levels tokens.now at }
{
    let (current_level, at) = optional_byte(tokens, at, Name::Level)?;
    let (on_level, at) = optional_byte(tokens, at, Name::OnLevel)?;
    let (start_up_current_level, at) = optional_byte(tokens, at, Name::StartUpCurrentLevel)?;
    let (default_move_rate, at) = optional_byte(tokens, at, Name::DefaultMoveRate)?;
    Ok((
        (
            current_level,
            (on_level, (start_up_current_level, default_move_rate)),
        ),
        at,
    ))
}

#[tactic(auto, unfolding(crate::specs::SettingsLine::times))]
fn times(tokens: &[Token], at: usize) -> Read<(Tenths, (Time, Time))>
    ensures { result ≡ times tokens.now at }
{
    let (on_off_transition_time, at) = named_time(tokens, at, Name::OnOffTransitionTime)?;
    let (on_transition_time, at) = optional_time(tokens, at, Name::OnTransitionTime)?;
    let (off_transition_time, at) = optional_time(tokens, at, Name::OffTransitionTime)?;
    Ok((
        (
            on_off_transition_time,
            (on_transition_time, off_transition_time),
        ),
        at,
    ))
}

#[tactic(auto, unfolding(crate::specs::SettingsLine::flags))]
fn flags(tokens: &[Token], at: usize, min: u8) -> Read<(u8, (bool, bool))>
    ensures { result ≡ flags min tokens.now at }
{
    let (options, at) = named_byte(tokens, at, Name::Options)?;
    let (coupled, at) = flag(tokens, at, Name::Coupled)?;
    let (lighting, at) = lighting(tokens, at, min)?;
    Ok(((options, (coupled, lighting)), at))
}

/// A lamp for lighting has a min of at least 1.
#[tactic(auto, unfolding(crate::specs::SettingsLine::lighting))]
fn lighting(tokens: &[Token], at: usize, min: u8) -> Read<bool>
    ensures { result ≡ lighting min tokens.now at }
{
    if min == 0 && stands(tokens, at, Name::Lighting) {
        return fault(at, Expected::NoLighting);
    }
    flag(tokens, at, Name::Lighting)
}

/// What may still come behind whole settings: the names behind the last that is there.
fn further(settings: &Settings) -> Expected
    ensures { result ≡ further settings.now }
{
    further_flags(settings, further_times(settings, further_levels(settings)))
}

fn further_flags(settings: &Settings, others: Expected) -> Expected
    ensures { result ≡ further_flags settings.now others }
{
    if settings.lighting {
        Expected::End
    } else if settings.coupled {
        Expected::NameOrEnd(Name::Lighting)
    } else if settings.attributes.options.0 != 0 {
        Expected::NameOrEnd(Name::Coupled)
    } else {
        others
    }
}

fn further_times(settings: &Settings, others: Expected) -> Expected
    ensures { result ≡ further_times settings.now others }
{
    if settings.attributes.off_transition_time.is_some() {
        Expected::NameOrEnd(Name::Options)
    } else if settings.attributes.on_transition_time.is_some() {
        Expected::NameOrEnd(Name::OffTransitionTime)
    } else if settings.attributes.on_off_transition_time != Tenths(0) {
        Expected::NameOrEnd(Name::OnTransitionTime)
    } else {
        others
    }
}

fn further_levels(settings: &Settings) -> Expected
    ensures { result ≡ further_levels settings.now }
{
    let attributes = &settings.attributes;
    let name = if attributes.default_move_rate.is_some() {
        Name::OnOffTransitionTime
    } else if attributes.start_up_current_level.is_some() {
        Name::DefaultMoveRate
    } else if attributes.on_level.is_some() {
        Name::StartUpCurrentLevel
    } else if settings.current_level.is_some() {
        Name::OnLevel
    } else {
        Name::Level
    };
    Expected::NameOrEnd(name)
}
