//! A record to an event.
ghost use Rattle.std.specs.Prelude.{◌≡◌, ◌≢◌, ◌↔◌, ◌≤◌, ◌<◌, [], get_or, if◌then◌else◌, nat_eq};
ghost use Rattle.records.specs.Bytes.{byte_at};
ghost use Rattle.records.specs.EventRecord.{answer, bare, command_options, device_update, event_read, event_read_number, event_read_values, event_values_at, kind_read, known_value, mode_at, move, move_to_level, of_command, on_off_changed, scene, step, stop};
ghost use Rattle.records.specs.Layout.{event_layouts, layout, Keeps, Marked};

use crate::RECORD;
use crate::bytes::{clock_time, flag, marked, tenths_at, u32_at, zeros_from};
use transitions::events::{
    Command, DeviceAnswer, Event, EventKind, MoveRequest, MoveToLevelRequest, SceneRequest,
    StepRequest,
};
use transitions::options::CommandOptions;
use transitions::types::{Mode, Moment, OptionsBitmap};
use units::Millis;

/// The event that a record says. None, number 1, where it has not 20 bytes, or a mark, a flag, the mode, the kind, an
/// answer's code or an unnamed byte is wrong.
#[tactic(auto, unfolding(crate::specs::EventRecord::event_read))]
pub fn read_event(bytes: &[u8]) -> Option<Event>
    ensures value { result ≡ event_read bytes.now }
    ensures number { (event_read_number result ≡ 0)
        ↔ (Marked bytes.now 0x45 × (byte_at bytes.now 3 ≤ 1) × (byte_at bytes.now 2 < 15)
        × Keeps bytes.now (get_or event_layouts (byte_at bytes.now 2) (layout [] 0))) }
    ensures values { event_read_values result
        ≡ (if nat_eq (event_read_number result) 0 then event_values_at bytes.now else []) }
{
    let bytes = marked(bytes, 0x45)?;
    let on_off = flag(bytes[3])?;
    let kind = read_kind(bytes)?;
    Some(Event {
        moment: Moment {
            at: clock_time(bytes),
            on_off,
        },
        kind,
    })
}

/// Byte 2, and what its kind says of the bytes from 12 on.
#[tactic(auto, unfolding(crate::specs::EventRecord::kind_read))]
fn read_kind(bytes: &[u8; RECORD]) -> Option<EventKind>
    ensures { result ≡ kind_read bytes.now }
{
    match bytes[2] {
        0 => bare(bytes, EventKind::StartUp),
        5 => read_answer(bytes).map(EventKind::Answer),
        6 => bare(bytes, EventKind::Wake),
        _ => read_command(bytes).map(EventKind::Command),
    }
}

/// The other twelve kinds.
#[tactic(auto, using(crate::proofs::KindLaws::no_kind), unfolding(crate::specs::EventRecord::kind_read))]
fn read_command(bytes: &[u8; RECORD]) -> Option<Command>
    requires no_start_up { byte_at bytes.now 2 ≢ 0 }
    requires no_answer { byte_at bytes.now 2 ≢ 5 }
    requires no_wake { byte_at bytes.now 2 ≢ 6 }
    ensures { of_command result ≡ kind_read bytes.now }
{
    match bytes[2] {
        1 => read_move_to_level(bytes),
        2 => read_move(bytes),
        3 => read_step(bytes),
        4 => read_stop(bytes),
        7 => read_on_off_changed(bytes),
        8 => read_scene(bytes),
        9 => read_device_update(bytes),
        10 => bare(bytes, Command::DeviceStop),
        11 => read_known(bytes).map(Command::SetOnLevel),
        12 => read_known(bytes).map(Command::SetDefaultMoveRate),
        13 => read_known(bytes).map(Command::SetStartUpCurrentLevel),
        14 => bare(bytes, Command::FactoryReset),
        _ => None,
    }
}

/// A kind that has no bytes of its own.
fn bare<T: Drop>(bytes: &[u8; RECORD], kind: T) -> Option<T>
    ensures { result ≡ bare bytes.now kind }
{
    zeros_from(bytes, 12).then_some(kind)
}

fn read_move_to_level(bytes: &[u8; RECORD]) -> Option<Command>
    ensures { result ≡ move_to_level bytes.now }
{
    let options = command_options(bytes[12], bytes[17], bytes[18])?;
    let known = flag(bytes[14])?;
    zeros_from(bytes, 19).then_some(Command::MoveToLevel(MoveToLevelRequest {
        level: bytes[13],
        transition_time: known.then_some(tenths_at(bytes, 15)),
        options,
    }))
}

fn read_move(bytes: &[u8; RECORD]) -> Option<Command>
    ensures { result ≡ move bytes.now }
{
    let options = command_options(bytes[12], bytes[16], bytes[17])?;
    let mode = mode(bytes[13])?;
    let known = flag(bytes[14])?;
    zeros_from(bytes, 18).then_some(Command::Move(MoveRequest {
        mode,
        rate: known.then_some(bytes[15]),
        options,
    }))
}

/// It has no unnamed byte.
fn read_step(bytes: &[u8; RECORD]) -> Option<Command>
    ensures { result ≡ step bytes.now }
{
    let options = command_options(bytes[12], bytes[18], bytes[19])?;
    let mode = mode(bytes[13])?;
    let known = flag(bytes[15])?;
    Some(Command::Step(StepRequest {
        mode,
        step_size: bytes[14],
        transition_time: known.then_some(tenths_at(bytes, 16)),
        options,
    }))
}

fn read_stop(bytes: &[u8; RECORD]) -> Option<Command>
    ensures { result ≡ stop bytes.now }
{
    let options = command_options(bytes[12], bytes[13], bytes[14])?;
    zeros_from(bytes, 15).then_some(Command::Stop(options))
}

/// The level counts with code 0 alone. The codes are a record's.
fn read_answer(bytes: &[u8; RECORD]) -> Option<DeviceAnswer>
    ensures { result ≡ answer bytes.now }
{
    let answer = match bytes[12] {
        0 => DeviceAnswer::Level(bytes[13]),
        1 => DeviceAnswer::Missing,
        2 => DeviceAnswer::Failed,
        _ => return None,
    };
    zeros_from(bytes, 14).then_some(answer)
}

fn read_on_off_changed(bytes: &[u8; RECORD]) -> Option<Command>
    ensures { result ≡ on_off_changed bytes.now }
{
    let on = flag(bytes[12])?;
    zeros_from(bytes, 13).then_some(Command::OnOffChanged(on))
}

fn read_scene(bytes: &[u8; RECORD]) -> Option<Command>
    ensures { result ≡ scene bytes.now }
{
    let present = flag(bytes[12])?;
    let millis = u32_at(bytes, 14);
    zeros_from(bytes, 18).then_some(Command::Scene(SceneRequest {
        level: present.then_some(bytes[13]),
        transition_time: Millis(millis),
    }))
}

fn read_device_update(bytes: &[u8; RECORD]) -> Option<Command>
    ensures { result ≡ device_update bytes.now }
{
    zeros_from(bytes, 13).then_some(Command::DeviceUpdate(bytes[12]))
}

/// The level or the rate of a setter.
fn read_known(bytes: &[u8; RECORD]) -> Option<Option<u8>>
    ensures { result ≡ known_value bytes.now }
{
    let known = flag(bytes[12])?;
    zeros_from(bytes, 14).then_some(known.then_some(bytes[13]))
}

fn command_options(with_on_off: u8, mask: u8, over: u8) -> Option<CommandOptions>
    ensures { result ≡ command_options with_on_off mask over }
{
    Some(CommandOptions {
        with_on_off: flag(with_on_off)?,
        options_mask: OptionsBitmap(mask),
        options_override: OptionsBitmap(over),
    })
}

/// 0 is up and 1 down; the codes are a record's.
fn mode(byte: u8) -> Option<Mode>
    ensures { result ≡ mode_at byte }
{
    match byte {
        0 => Some(Mode::Up),
        1 => Some(Mode::Down),
        _ => None,
    }
}
