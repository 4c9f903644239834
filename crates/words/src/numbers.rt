//! Numbers and times in words.
ghost use Rattle.std.specs.Prelude.{◌≡◌, ◌≤◌};
ghost use Rattle.words.specs.Numbers.{micros_of, number_after, number_of, scaled, seconds_of};

use crate::lexis::length_before;
use units::Micros;

/// A decimal number of 64 bits with no leading zero.
pub(crate) fn number(word: &[u8]) -> Option<u64>
    ensures { result ≡ number_of word.now }
{
    if word.is_empty() || (word.len() > 1 && word[0] == b'0') {
        return None;
    }
    digits(0, word)
}

/// The number that these digits make behind a number.
#[tactic(auto, unfolding(crate::specs::Numbers::number_after))]
fn digits(before: u64, word: &[u8]) -> Option<u64>
    ensures { result ≡ number_after before word.now }
{
    let mut number = before;
    for byte in word {
        if !byte.is_ascii_digit() {
            return None;
        }
        number = number
            .checked_mul(10)?
            .checked_add(u64::from(*byte - b'0'))?;
    }
    Some(number)
}

/// A time, as 2s or 0.3s: with at most six digits behind its point.
#[tactic(auto, unfolding(crate::specs::Numbers::micros_of))]
pub(crate) fn micros(word: &[u8]) -> Option<Micros>
    ensures { result ≡ micros_of word.now }
{
    let (last, seconds) = word.split_last()?;
    if *last == b's' {
        seconds_in(seconds)
    } else {
        None
    }
}

#[tactic(auto, unfolding(crate::specs::Numbers::seconds_of))]
fn seconds_in(word: &[u8]) -> Option<Micros>
    ensures { result ≡ seconds_of word.now }
{
    let (whole, point) = word.split_at(length_before(word, b'.'));
    let whole = number(whole)?;
    match point.split_first() {
        None => scaled(whole, 6),
        Some((_, fraction)) => {
            let places = fraction.len();
            if places == 0 || 6 < places {
                return None;
            }
            scaled(digits(whole, fraction)?, 6 - places as u32)
        }
    }
}

/// Times 10 so often.
fn scaled(number: u64, places: u32) -> Option<Micros>
    requires { places ≤ 6 }
    ensures { result ≡ scaled number places }
{
    number.checked_mul(10u64.pow(places)).map(Micros)
}
