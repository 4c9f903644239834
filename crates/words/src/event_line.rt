//! An event's line (docs/WORDS.md, The grammar).
ghost use Rattle.std.specs.Prelude.{◌≡◌};
ghost use Rattle.words.specs.EventLine.{after_rate, after_time, attribute, command_after, device_update, event, event_line, further, further_command, further_options, kind_after, kind_of, move_on, move_to_level, on_off_changed, options, scene, scene_in, set_attribute, step, stop, written};

use crate::fault::{Expected, WordFault};
use crate::names::{Attribute, CommandVerb, Name, Verb};
use crate::tokens::Token;
use crate::values::{
    Read, answer, byte, byte_or_null, clock_time, direction, fault, keyword, named_byte, on_off,
    optional_byte, optional_time, scene_time, token_at, verb,
};
use transitions::events::{
    Command, Event, EventKind, MoveRequest, MoveToLevelRequest, SceneRequest, StepRequest,
};
use transitions::options::CommandOptions;
use transitions::types::{Level, Moment, OptionsBitmap, Rate, Time};

/// The event of all of a line.
#[tactic(auto, unfolding(crate::specs::EventLine::event_line))]
pub(crate) fn event_line(tokens: &[Token]) -> Result<Event, WordFault>
    ensures { result ≡ event_line tokens.now }
{
    let (event, at) = event(tokens, 0)?;
    if at < tokens.len() {
        return fault(at, further(event.kind));
    }
    Ok(event)
}

#[tactic(auto, unfolding(crate::specs::EventLine::event))]
fn event(tokens: &[Token], at: usize) -> Read<Event>
    ensures { result ≡ event tokens.now at }
{
    let (time, at) = clock_time(tokens, at)?;
    let (on_off, at) = on_off(tokens, at, Expected::Lamp)?;
    let (kind, at) = kind(tokens, at)?;
    let moment = Moment { at: time, on_off };
    Ok((Event { moment, kind }, at))
}

#[tactic(auto, unfolding(crate::specs::EventLine::kind_of))]
fn kind(tokens: &[Token], at: usize) -> Read<EventKind>
    ensures { result ≡ kind_of tokens.now at }
{
    let (verb, at) = verb(tokens, at)?;
    kind_after(tokens, at, verb)
}

/// What follows a verb.
fn kind_after(tokens: &[Token], at: usize, verb: Verb) -> Read<EventKind>
    ensures { result ≡ kind_after verb tokens.now at }
{
    match verb {
        Verb::StartUp => Ok((EventKind::StartUp, at)),
        Verb::Answer => {
            let (answer, at) = answer(tokens, at)?;
            Ok((EventKind::Answer(answer), at))
        }
        Verb::Wake => Ok((EventKind::Wake, at)),
        Verb::Command(verb) => {
            let (command, at) = command_after(tokens, at, verb)?;
            Ok((EventKind::Command(command), at))
        }
    }
}

#[tactic(auto, unfolding(crate::specs::EventLine::command_after))]
fn command_after(tokens: &[Token], at: usize, verb: CommandVerb) -> Read<Command>
    ensures { result ≡ command_after verb tokens.now at }
{
    match verb {
        CommandVerb::MoveToLevel => move_to_level(tokens, at, false),
        CommandVerb::MoveToLevelWithOnOff => move_to_level(tokens, at, true),
        CommandVerb::Move => move_on(tokens, at, false),
        CommandVerb::MoveWithOnOff => move_on(tokens, at, true),
        CommandVerb::Step => step(tokens, at, false),
        CommandVerb::StepWithOnOff => step(tokens, at, true),
        CommandVerb::Stop => stop(tokens, at, false),
        CommandVerb::StopWithOnOff => stop(tokens, at, true),
        CommandVerb::OnOff => on_off_changed(tokens, at),
        CommandVerb::RecallScene => scene(tokens, at),
        CommandVerb::DeviceUpdate => device_update(tokens, at),
        CommandVerb::DeviceStop => Ok((Command::DeviceStop, at)),
        CommandVerb::Write => write(tokens, at),
        CommandVerb::FactoryReset => Ok((Command::FactoryReset, at)),
    }
}

#[tactic(auto, unfolding(crate::specs::EventLine::move_to_level))]
fn move_to_level(tokens: &[Token], at: usize, with_on_off: bool) -> Read<Command>
    ensures { result ≡ move_to_level with_on_off tokens.now at }
{
    let (level, at) = byte(tokens, at)?;
    let (transition_time, at) = optional_time(tokens, at, Name::In)?;
    let (options, at) = options(tokens, at, with_on_off)?;
    let request = MoveToLevelRequest {
        level,
        transition_time,
        options,
    };
    Ok((Command::MoveToLevel(request), at))
}

#[tactic(auto, unfolding(crate::specs::EventLine::move_on))]
fn move_on(tokens: &[Token], at: usize, with_on_off: bool) -> Read<Command>
    ensures { result ≡ move_on with_on_off tokens.now at }
{
    let (mode, at) = direction(tokens, at)?;
    let (rate, at) = optional_byte(tokens, at, Name::Rate)?;
    let (options, at) = options(tokens, at, with_on_off)?;
    let request = MoveRequest {
        mode,
        rate,
        options,
    };
    Ok((Command::Move(request), at))
}

#[tactic(auto, unfolding(crate::specs::EventLine::step))]
fn step(tokens: &[Token], at: usize, with_on_off: bool) -> Read<Command>
    ensures { result ≡ step with_on_off tokens.now at }
{
    let (mode, at) = direction(tokens, at)?;
    let (step_size, at) = byte(tokens, at)?;
    let (transition_time, at) = optional_time(tokens, at, Name::In)?;
    let (options, at) = options(tokens, at, with_on_off)?;
    let request = StepRequest {
        mode,
        step_size,
        transition_time,
        options,
    };
    Ok((Command::Step(request), at))
}

#[tactic(auto, unfolding(crate::specs::EventLine::stop))]
fn stop(tokens: &[Token], at: usize, with_on_off: bool) -> Read<Command>
    ensures { result ≡ stop with_on_off tokens.now at }
{
    let (options, at) = options(tokens, at, with_on_off)?;
    Ok((Command::Stop(options), at))
}

#[tactic(auto, unfolding(crate::specs::EventLine::options))]
fn options(tokens: &[Token], at: usize, with_on_off: bool) -> Read<CommandOptions>
    ensures { result ≡ options with_on_off tokens.now at }
{
    let (mask, at) = named_byte(tokens, at, Name::Mask)?;
    let (over, at) = named_byte(tokens, at, Name::Override)?;
    let options = CommandOptions {
        with_on_off,
        options_mask: OptionsBitmap(mask),
        options_override: OptionsBitmap(over),
    };
    Ok((options, at))
}

#[tactic(auto, unfolding(crate::specs::EventLine::on_off_changed))]
fn on_off_changed(tokens: &[Token], at: usize) -> Read<Command>
    ensures { result ≡ on_off_changed tokens.now at }
{
    let (on, at) = on_off(tokens, at, Expected::OnOff)?;
    Ok((Command::OnOffChanged(on), at))
}

#[tactic(auto, unfolding(crate::specs::EventLine::scene))]
fn scene(tokens: &[Token], at: usize) -> Read<Command>
    ensures { result ≡ scene tokens.now at }
{
    let (level, at) = optional_byte(tokens, at, Name::Level)?;
    let (_, at) = keyword(tokens, at, Name::In, scene_in(level))?;
    let (transition_time, at) = scene_time(tokens, at)?;
    let request = SceneRequest {
        level,
        transition_time,
    };
    Ok((Command::Scene(request), at))
}

/// Where a level may be named, that may come too.
fn scene_in(level: Level) -> Expected
    ensures { result ≡ scene_in level }
{
    match level {
        Some(_) => Expected::In,
        None => Expected::LevelOrIn,
    }
}

#[tactic(auto, unfolding(crate::specs::EventLine::device_update))]
fn device_update(tokens: &[Token], at: usize) -> Read<Command>
    ensures { result ≡ device_update tokens.now at }
{
    let (level, at) = byte(tokens, at)?;
    Ok((Command::DeviceUpdate(level), at))
}

#[tactic(auto, unfolding(crate::specs::EventLine::written))]
fn write(tokens: &[Token], at: usize) -> Read<Command>
    ensures { result ≡ written tokens.now at }
{
    let (attribute, at) = attribute(tokens, at)?;
    let (value, at) = byte_or_null(tokens, at)?;
    Ok((set_attribute(attribute, value), at))
}

#[tactic(auto, unfolding(crate::specs::EventLine::attribute))]
fn attribute(tokens: &[Token], at: usize) -> Read<Attribute>
    ensures { result ≡ attribute tokens.now at }
{
    match token_at(tokens, at) {
        Some(Token::Name(Name::OnLevel)) => Ok((Attribute::OnLevel, at + 1)),
        Some(Token::Name(Name::DefaultMoveRate)) => Ok((Attribute::DefaultMoveRate, at + 1)),
        Some(Token::Name(Name::StartUpCurrentLevel)) => {
            Ok((Attribute::StartUpCurrentLevel, at + 1))
        }
        _ => fault(at, Expected::Attribute),
    }
}

fn set_attribute(attribute: Attribute, value: Option<u8>) -> Command
    ensures { result ≡ set_attribute attribute value }
{
    match attribute {
        Attribute::OnLevel => Command::SetOnLevel(value),
        Attribute::DefaultMoveRate => Command::SetDefaultMoveRate(value),
        Attribute::StartUpCurrentLevel => Command::SetStartUpCurrentLevel(value),
    }
}

/// What may still come behind a whole event.
fn further(kind: EventKind) -> Expected
    ensures { result ≡ further kind }
{
    match kind {
        EventKind::Command(command) => further_command(command),
        _ => Expected::End,
    }
}

fn further_command(command: Command) -> Expected
    ensures { result ≡ further_command command }
{
    match command {
        Command::MoveToLevel(request) => {
            further_options(request.options, after_time(request.transition_time))
        }
        Command::Move(request) => further_options(request.options, after_rate(request.rate)),
        Command::Step(request) => {
            further_options(request.options, after_time(request.transition_time))
        }
        Command::Stop(options) => further_options(options, Name::Mask),
        _ => Expected::End,
    }
}

fn further_options(options: CommandOptions, first: Name) -> Expected
    ensures { result ≡ further_options options first }
{
    if options.options_override.0 != 0 {
        Expected::End
    } else if options.options_mask.0 != 0 {
        Expected::NameOrEnd(Name::Override)
    } else {
        Expected::NameOrEnd(first)
    }
}

fn after_time(time: Time) -> Name
    ensures { result ≡ after_time time }
{
    match time {
        Some(_) => Name::Mask,
        None => Name::In,
    }
}

fn after_rate(rate: Rate) -> Name
    ensures { result ≡ after_rate rate }
{
    match rate {
        Some(_) => Name::Mask,
        None => Name::Rate,
    }
}
