//! The values of a line. Each function reads from a token on: it gives what it has read and the place past it, or the first fault.
ghost use Rattle.std.specs.Prelude.{◌≡◌, ◌<◌, IfSome, IsTrue, length};
ghost use Rattle.std.specs.List.{slice_get};
ghost use Rattle.words.specs.Values.{answer, byte, byte_or_null, clock_time, direction, fault, flag, is_name, keyword, named_byte, named_time, on_off, optional_byte, optional_time, positive_byte, positive_time, scene_time, scene_time_of, transition_time, transition_time_of, verb};

use crate::fault::{Expected, WordFault};
use crate::names::{Name, Verb};
use crate::tokens::Token;
use transitions::events::DeviceAnswer;
use transitions::types::{Mode, Time};
use units::{Micros, Millis, Tenths};

/// What a function of this sort gives.
pub(crate) type Read<T> = Result<(T, usize), WordFault>;

/// The token at a place, or None past the last.
pub(crate) fn token_at(tokens: &[Token], at: usize) -> Option<Token>
    ensures value { result ≡ slice_get tokens.now at }
    ensures within { IfSome result (λ token. at < length tokens.now) }
{
    tokens.get(at).copied()
}

fn is_name(token: Option<Token>, name: Name) -> bool
    ensures { result ≡ is_name name token }
{
    match token {
        Some(Token::Name(found)) => found.text() == name.text(),
        _ => false,
    }
}

/// Whether the name stands there.
pub(crate) fn stands(tokens: &[Token], at: usize, name: Name) -> bool
    ensures value { result ≡ is_name name (slice_get tokens.now at) }
    ensures within { IsTrue result → at < length tokens.now }
{
    is_name(token_at(tokens, at), name)
}

/// A level or a rate.
#[tactic(auto, unfolding(crate::specs::Values::byte))]
pub(crate) fn byte(tokens: &[Token], at: usize) -> Read<u8>
    ensures { result ≡ byte tokens.now at }
{
    match token_at(tokens, at) {
        Some(Token::Number(number)) if number <= 255 => Ok((number as u8, at + 1)),
        _ => fault(at, Expected::Byte),
    }
}

/// A byte that is left out for 0.
#[tactic(auto, unfolding(crate::specs::Values::positive_byte))]
fn positive_byte(tokens: &[Token], at: usize) -> Read<u8>
    ensures { result ≡ positive_byte tokens.now at }
{
    match token_at(tokens, at) {
        Some(Token::Number(number)) if 1 <= number && number <= 255 => Ok((number as u8, at + 1)),
        _ => fault(at, Expected::PositiveByte),
    }
}

#[tactic(auto, unfolding(crate::specs::Values::clock_time))]
pub(crate) fn clock_time(tokens: &[Token], at: usize) -> Read<Micros>
    ensures { result ≡ clock_time tokens.now at }
{
    match token_at(tokens, at) {
        Some(Token::Time(time)) => Ok((time, at + 1)),
        _ => fault(at, Expected::ClockTime),
    }
}

fn tenths(token: Option<Token>) -> Option<Tenths>
    ensures { result ≡ transition_time_of token }
{
    match token {
        Some(Token::Time(time)) => time.to_tenths(),
        _ => None,
    }
}

/// Whole tenths of a second (docs/RULES.md, Units).
#[tactic(auto, unfolding(crate::specs::Values::transition_time))]
pub(crate) fn transition_time(tokens: &[Token], at: usize) -> Read<Tenths>
    ensures { result ≡ transition_time tokens.now at }
{
    match tenths(token_at(tokens, at)) {
        Some(time) => Ok((time, at + 1)),
        None => fault(at, Expected::TransitionTime),
    }
}

/// A time that is left out for 0.
#[tactic(auto, unfolding(crate::specs::Values::positive_time))]
fn positive_time(tokens: &[Token], at: usize) -> Read<Tenths>
    ensures { result ≡ positive_time tokens.now at }
{
    match tenths(token_at(tokens, at)) {
        Some(time) if Tenths(0) < time => Ok((time, at + 1)),
        _ => fault(at, Expected::PositiveTime),
    }
}

fn millis(token: Option<Token>) -> Option<Millis>
    ensures { result ≡ scene_time_of token }
{
    match token {
        Some(Token::Time(time)) => time.to_millis(),
        _ => None,
    }
}

/// Whole milliseconds.
#[tactic(auto, unfolding(crate::specs::Values::scene_time))]
pub(crate) fn scene_time(tokens: &[Token], at: usize) -> Read<Millis>
    ensures { result ≡ scene_time tokens.now at }
{
    match millis(token_at(tokens, at)) {
        Some(time) => Ok((time, at + 1)),
        None => fault(at, Expected::SceneTime),
    }
}

#[tactic(auto, unfolding(crate::specs::Values::on_off))]
pub(crate) fn on_off(tokens: &[Token], at: usize, expected: Expected) -> Read<bool>
    ensures { result ≡ on_off expected tokens.now at }
{
    match token_at(tokens, at) {
        Some(Token::Name(Name::On)) => Ok((true, at + 1)),
        Some(Token::Name(Name::Off)) => Ok((false, at + 1)),
        _ => fault(at, expected),
    }
}

#[tactic(auto, unfolding(crate::specs::Values::direction))]
pub(crate) fn direction(tokens: &[Token], at: usize) -> Read<Mode>
    ensures { result ≡ direction tokens.now at }
{
    match token_at(tokens, at) {
        Some(Token::Name(Name::Up)) => Ok((Mode::Up, at + 1)),
        Some(Token::Name(Name::Down)) => Ok((Mode::Down, at + 1)),
        _ => fault(at, Expected::Direction),
    }
}

#[tactic(auto, unfolding(crate::specs::Values::verb))]
pub(crate) fn verb(tokens: &[Token], at: usize) -> Read<Verb>
    ensures { result ≡ verb tokens.now at }
{
    match token_at(tokens, at) {
        Some(Token::Verb(verb)) => Ok((verb, at + 1)),
        _ => fault(at, Expected::Verb),
    }
}

/// What the device answers.
#[tactic(auto, unfolding(crate::specs::Values::answer))]
pub(crate) fn answer(tokens: &[Token], at: usize) -> Read<DeviceAnswer>
    ensures { result ≡ answer tokens.now at }
{
    match token_at(tokens, at) {
        Some(Token::Number(number)) if number <= 255 => {
            Ok((DeviceAnswer::Level(number as u8), at + 1))
        }
        Some(Token::Name(Name::Null)) => Ok((DeviceAnswer::Missing, at + 1)),
        Some(Token::Name(Name::Failed)) => Ok((DeviceAnswer::Failed, at + 1)),
        _ => fault(at, Expected::Answer),
    }
}

/// What an attribute is set to.
#[tactic(auto, unfolding(crate::specs::Values::byte_or_null))]
pub(crate) fn byte_or_null(tokens: &[Token], at: usize) -> Read<Option<u8>>
    ensures { result ≡ byte_or_null tokens.now at }
{
    match token_at(tokens, at) {
        Some(Token::Number(number)) if number <= 255 => Ok((Some(number as u8), at + 1)),
        Some(Token::Name(Name::Null)) => Ok((None, at + 1)),
        _ => fault(at, Expected::ByteOrNull),
    }
}

/// A name that must stand there.
#[tactic(auto, unfolding(crate::specs::Values::keyword))]
pub(crate) fn keyword(tokens: &[Token], at: usize, name: Name, expected: Expected) -> Read<()>
    ensures { result ≡ keyword name expected tokens.now at }
{
    if stands(tokens, at, name) {
        Ok(((), at + 1))
    } else {
        fault(at, expected)
    }
}

/// A name that may stand there alone.
#[tactic(auto, unfolding(crate::specs::Values::flag))]
pub(crate) fn flag(tokens: &[Token], at: usize, name: Name) -> Read<bool>
    ensures { result ≡ flag name tokens.now at }
{
    if stands(tokens, at, name) {
        Ok((true, at + 1))
    } else {
        Ok((false, at))
    }
}

/// A byte behind a name, if the name is there.
#[tactic(auto, unfolding(crate::specs::Values::optional_byte))]
pub(crate) fn optional_byte(tokens: &[Token], at: usize, name: Name) -> Read<Option<u8>>
    ensures { result ≡ optional_byte name tokens.now at }
{
    if !stands(tokens, at, name) {
        return Ok((None, at));
    }
    let (value, at) = byte(tokens, at + 1)?;
    Ok((Some(value), at))
}

/// A time behind a name, if the name is there.
#[tactic(auto, unfolding(crate::specs::Values::optional_time))]
pub(crate) fn optional_time(tokens: &[Token], at: usize, name: Name) -> Read<Time>
    ensures { result ≡ optional_time name tokens.now at }
{
    if !stands(tokens, at, name) {
        return Ok((None, at));
    }
    let (time, at) = transition_time(tokens, at + 1)?;
    Ok((Some(time), at))
}

/// A byte behind a name, 0 where both are left out.
#[tactic(auto, unfolding(crate::specs::Values::named_byte))]
pub(crate) fn named_byte(tokens: &[Token], at: usize, name: Name) -> Read<u8>
    ensures { result ≡ named_byte name tokens.now at }
{
    if stands(tokens, at, name) {
        positive_byte(tokens, at + 1)
    } else {
        Ok((0, at))
    }
}

/// A time behind a name, 0 where both are left out.
#[tactic(auto, unfolding(crate::specs::Values::named_time))]
pub(crate) fn named_time(tokens: &[Token], at: usize, name: Name) -> Read<Tenths>
    ensures { result ≡ named_time name tokens.now at }
{
    if stands(tokens, at, name) {
        positive_time(tokens, at + 1)
    } else {
        Ok((Tenths(0), at))
    }
}

/// The first fault of a line.
pub(crate) fn fault<T>(word: usize, expected: Expected) -> Result<T, WordFault>
    ensures { result ≡ fault word expected }
{
    Err(WordFault { word, expected })
}
