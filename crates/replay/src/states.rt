//! What the handler gives for a play, as text: the lines of a sheet, and the whole state after each of them (oracle/README.md,
//! "A port"). The lines are made from the answers of its methods, as a caller of them gets them, and do not lean on the crates
//! that write the sheet.
use crate::list::Play;
use crate::pairs::{ScenePairs, next_scene};
use handler::LevelControlHandler;
use level_control::answer::Answer;
use level_control::state::LevelControlState;
use records::RECORD;
use records::event_record::read_event;
use records::refusal::RecordRefusal;
use records::settings_record::read_settings;
use sheet::play::length_ok;
use std::fmt::Display;
use std::io;
use std::io::Write;
use transitions::actions::{Action, ActionKind};
use transitions::events::{Command, Event, EventKind, SceneRequest};
use transitions::settings::Settings;
use transitions::types::Moment;
use units::Tenths;

fn print_known(out: &mut impl Write, value: Option<impl Display + Drop>) -> io::Result<()> {
    match value {
        Some(value) => write!(out, " {value}"),
        None => write!(out, " -"),
    }
}

fn print_time(out: &mut impl Write, time: Option<Tenths>) -> io::Result<()> {
    print_known(out, time.map(|time| time.0))
}

fn print_state(out: &mut impl Write, state: LevelControlState) -> io::Result<()> {
    let attributes = state.attributes;
    write!(out, "  =")?;
    print_known(out, attributes.on_level)?;
    write!(out, " {}", attributes.options.0)?;
    write!(out, " {}", attributes.on_off_transition_time.0)?;
    print_time(out, attributes.on_transition_time)?;
    print_time(out, attributes.off_transition_time)?;
    print_known(out, attributes.default_move_rate)?;
    print_known(out, attributes.start_up_current_level)?;
    write!(out, " {}", state.last_current_level_notification.0)?;
    print_known(out, state.previous_current_level)?;
    writeln!(out)
}

/// A letter, and a value where the sheet shows one, or where one stands that is to be 0.
fn print_action(out: &mut impl Write, action: Action) -> io::Result<()> {
    match action.kind {
        ActionKind::D | ActionKind::C | ActionKind::W | ActionKind::E => {
            write!(out, " {:?}{}", action.kind, action.value)
        }
        kind if action.value == 0 => write!(out, " {kind:?}"),
        kind => write!(out, " {kind:?}{}", action.value),
    }
}

/// An answer's actions. Behind them stands what no sheet shows: a slot that is not filled and holds anything but X with 0, or a count
/// beyond the array.
fn print_actions(out: &mut impl Write, actions: &[Action; 7], count: usize) -> io::Result<()> {
    let Some((filled, free)) = actions.split_at_checked(count) else {
        return write!(out, " count {count}");
    };
    for action in filled {
        print_action(out, *action)?;
    }
    for action in free {
        if action.kind != ActionKind::X || action.value != 0 {
            write!(out, " free {:?}{}", action.kind, action.value)?;
        }
    }
    Ok(())
}

/// The front of a line.
fn print_outcome(
    out: &mut impl Write,
    index: u64,
    number: u8,
    state: LevelControlState,
) -> io::Result<()> {
    write!(out, "{index} {number}")?;
    print_known(out, state.current_level)?;
    write!(out, " {}", state.remaining_time.0)
}

/// By the pairs of the list or, where those are used up, by the level of the record.
fn recalled(
    handler: LevelControlHandler,
    moment: Moment,
    scene: SceneRequest,
    pairs: Option<ScenePairs>,
) -> Answer {
    match pairs {
        Some(pairs) => {
            let mut ids = [0; 255];
            let mut values = [0; 255];
            handler.apply(
                moment,
                pairs.ids(&mut ids),
                pairs.values(&mut values),
                scene.transition_time,
            )
        }
        None => handler.recall(moment, scene),
    }
}

/// A scene takes its pairs from those that are left.
fn handled(state: LevelControlState, event: Event, pairs: &mut &[u8]) -> Answer {
    let handler = LevelControlHandler { state };
    let moment = event.moment;
    match event.kind {
        EventKind::StartUp => handler.startup(moment),
        EventKind::Answer(answer) => handler.answer(moment, answer),
        EventKind::Wake => handler.wake(moment),
        EventKind::Command(command) => match command {
            Command::MoveToLevel(request) => handler.move_to_level(moment, request),
            Command::Move(request) => handler.move_command(moment, request),
            Command::Step(request) => handler.step(moment, request),
            Command::Stop(options) => handler.stop(moment, options),
            Command::OnOffChanged(on) => handler.handle_on_off_state_change(moment, on),
            Command::Scene(scene) => recalled(handler, moment, scene, take_scene(pairs)),
            Command::DeviceUpdate(level) => handler.update(moment, level),
            Command::DeviceStop => handler.device_stop(moment),
            Command::SetOnLevel(level) => handler.set_on_level(moment, level),
            Command::SetDefaultMoveRate(rate) => handler.set_default_move_rate(moment, rate),
            Command::SetStartUpCurrentLevel(level) => {
                handler.set_start_up_current_level(moment, level)
            }
            Command::FactoryReset => handler.factory_reset(moment),
        },
    }
}

fn take_scene<'a>(pairs: &mut &'a [u8]) -> Option<ScenePairs<'a>> {
    let (scene, rest) = next_scene(pairs)?;
    *pairs = rest;
    Some(scene)
}

fn print_events(
    lines: &mut impl Write,
    states: &mut impl Write,
    events: &[u8],
    pairs: &[u8],
    settings: Settings,
) -> io::Result<()> {
    let mut state = LevelControlState::new(settings);
    let mut pairs = pairs;
    for (index, record) in (1..).zip(events.chunks_exact(RECORD)) {
        if let Some(event) = read_event(record) {
            let answer = handled(state, event, &mut pairs);
            state = answer.state;
            let number = answer.refusal.map_or(0, u8::from);
            print_outcome(lines, index, number, state)?;
            print_actions(lines, &answer.actions, answer.count)?;
        } else {
            print_outcome(lines, index, u8::from(RecordRefusal::RecordWrong), state)?;
        }
        writeln!(lines)?;
        print_state(states, state)?;
    }
    Ok(())
}

/// The settings of a play and its events.
fn split_play(records: &[u8]) -> Result<(Settings, &[u8]), RecordRefusal> {
    match records.split_at_checked(RECORD) {
        Some((first, events)) if length_ok(records.len()) => Ok((read_settings(first)?, events)),
        _ => Err(RecordRefusal::RecordWrong),
    }
}

/// A play that is refused has no state.
pub(crate) fn print_play(
    lines: &mut impl Write,
    states: &mut impl Write,
    play: Play,
) -> io::Result<()> {
    match split_play(play.records) {
        Ok((settings, events)) => print_events(lines, states, events, play.pairs, settings),
        Err(why) => writeln!(lines, "0 {}", u8::from(why)),
    }
}

#[cfg(test)]
mod tests {
    use super::*;
    use arrayvec::ArrayVec;

    /// No list can hold what a right program never gives.
    #[test]
    fn shows_slots_and_counts_that_are_wrong(rt: HostRuntime) -> io::Result<()> {
        let x = Action {
            kind: ActionKind::X,
            value: 0,
        };
        let d = Action {
            kind: ActionKind::D,
            value: 99,
        };
        let x1 = Action {
            kind: ActionKind::X,
            value: 1,
        };
        let d0 = Action {
            kind: ActionKind::D,
            value: 0,
        };
        for (actions, count, wanted) in [
            ([x, x, x, x, x, x, x], 0, ""),
            ([d, x1, x, x, x, x, x], 3, " D99 X1 X"),
            ([d, d, d, d, d, d, d], 7, " D99 D99 D99 D99 D99 D99 D99"),
            ([d, d, x, x, x, x, x], 1, " D99 free D99"),
            ([x, x, x, x, x, x, x1], 0, " free X1"),
            ([x, x, x, x, x, x, d0], 0, " free D0"),
            ([x, x, x, x, x, x, x], 8, " count 8"),
        ] {
            let mut text = ArrayVec::<u8, 100>::new();
            print_actions(&mut text, &actions, count)?;
            assert_eq!(rt; text.as_slice(), wanted.as_bytes(), "of {count}");
        }
        Ok(())
    }
}
