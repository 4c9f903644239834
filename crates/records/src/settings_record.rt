//! A record to settings.
ghost use Rattle.std.specs.Prelude.{◌≡◌, Ok, Err, IfErr, OnOk, ◌<◌, not, is_some, IfSome, [], if◌then◌else◌, nat_eq};
ghost use Rattle.transitions.specs.Causes.{first_cause};
ghost use Rattle.records.specs.Laws.{settings_tests};
ghost use Rattle.records.specs.SettingsRecord.{checked, known_bit, settings_at, settings_read, settings_read_number, settings_read_values, settings_values_at, settings_wrong};

use crate::RECORD;
use crate::bytes::{flag, marked, tenths_at, zeros_from};
use crate::refusal::RecordRefusal;
use transitions::settings::{Attributes, Settings};
use transitions::types::{LevelRange, OptionsBitmap};

/// The settings that a record says, or the first cause that refuses them.
#[tactic(auto, using(crate::proofs::ReadLaws::settings_values), unfolding(crate::specs::SettingsRecord::settings_read))]
pub fn read_settings(bytes: &[u8]) -> Result<Settings, RecordRefusal>
    ensures value { result ≡ settings_read bytes.now }
    ensures number { settings_read_number result ≡ first_cause (settings_tests bytes.now) }
    ensures values { settings_read_values result
        ≡ (if nat_eq (first_cause (settings_tests bytes.now)) 0 then settings_values_at bytes.now else []) }
{
    let settings = read_record(bytes).ok_or(RecordRefusal::RecordWrong)?;
    check(&settings)?;
    Ok(settings)
}

fn check(settings: &Settings) -> Result<(), RecordRefusal>
    ensures ok { OnOk result (checked settings.now ≡ Ok settings.now) }
    ensures err { IfErr result (λ why. checked settings.now ≡ Err why) }
{
    let LevelRange { min, max } = settings.range;
    if 254 < max {
        return Err(RecordRefusal::MaxAbove254);
    }
    if max < min {
        return Err(RecordRefusal::MinAboveMax);
    }
    if settings.lighting && min == 0 {
        return Err(RecordRefusal::LightingMin0);
    }
    Ok(())
}

/// None if a byte is wrong.
fn read_record(bytes: &[u8]) -> Option<Settings>
    ensures right { is_some result ≡ not (settings_wrong bytes.now) }
    ensures value { IfSome result (λ settings. settings ≡ settings_at bytes.now) }
{
    let bytes = marked(bytes, 0x47)?;
    let coupled = flag(bytes[4])?;
    let lighting = flag(bytes[18])?;
    if 63 < bytes[11] || !zeros_from(bytes, 19) {
        return None;
    }
    Some(Settings {
        range: LevelRange {
            min: bytes[2],
            max: bytes[3],
        },
        coupled,
        fastest_rate: bytes[6],
        lighting,
        current_level: is_known(bytes, 0).then_some(bytes[7]),
        attributes: Attributes {
            on_level: is_known(bytes, 1).then_some(bytes[8]),
            options: OptionsBitmap(bytes[5]),
            on_off_transition_time: tenths_at(bytes, 12),
            on_transition_time: is_known(bytes, 4).then_some(tenths_at(bytes, 14)),
            off_transition_time: is_known(bytes, 5).then_some(tenths_at(bytes, 16)),
            default_move_rate: is_known(bytes, 3).then_some(bytes[10]),
            start_up_current_level: is_known(bytes, 2).then_some(bytes[9]),
        },
    })
}

/// A bit of byte 11.
fn is_known(bytes: &[u8; RECORD], bit: u32) -> bool
    requires { bit < 8 }
    ensures { result ≡ known_bit bytes.now bit }
{
    bytes[11] >> bit & 1 == 1
}
