//! The bytes of a record. Past the end of a slice they read as 0, so that every read is total.
ghost use Rattle.std.specs.Prelude.{◌≡◌, ◌<◌, ◌+◌, ℕ, drop, is_some, IfSome};
ghost use Rattle.records.specs.Bytes.{byte_at, clock_time, flag_of, has_marks, is_flag, is_set, le16, le32, le64, tenths_at, zeros_from};

use crate::RECORD;
use units::{Micros, Tenths};

/// The bytes, if there are 20 of them and the first two are the marks of this sort.
pub(crate) fn marked(bytes: &[u8], mark: u8) -> Option<&[u8; RECORD]>
    ensures marks { is_some result ≡ has_marks bytes.now mark }
    ensures same { IfSome result (λ whole. whole.now ≡ bytes.now) }
{
    let whole: &[u8; RECORD] = bytes.as_array()?;
    (whole[0] == 0x4C && whole[1] == mark).then_some(whole)
}

/// The byte at a place. Past the end it is 0, which no record of 20 bytes shows.
pub fn byte(bytes: &[u8], at: usize) -> u8
    ensures { result ≡ byte_at bytes.now at }
{
    bytes.get(at).copied().unwrap_or(0)
}

/// What stands from a place on; past the end nothing.
fn rest(bytes: &[u8], at: usize) -> &[u8]
    ensures { result.now ≡ drop at bytes.now }
{
    &bytes[at.min(bytes.len())..]
}

/// The N bytes from a place on, of which those past the end are 0.
fn array_at<const N: usize>(bytes: &[u8], at: usize) -> [u8; N]
    ensures { (i : ℕ) → i < N → byte_at result i ≡ byte_at bytes.now (at + i) }
{
    let rest = rest(bytes, at);
    match rest.first_chunk() {
        Some(whole) => *whole,
        None => {
            let mut cut = [0; N];
            cut[..rest.len()].copy_from_slice(rest);
            cut
        }
    }
}

/// The number of two bytes from a place on, the low one first. Bytes past the end are 0.
pub fn u16_at(bytes: &[u8], at: usize) -> u16
    ensures { result ≡ le16 bytes.now at }
{
    u16::from_le_bytes(array_at(bytes, at))
}

/// Of four bytes.
pub fn u32_at(bytes: &[u8], at: usize) -> u32
    ensures { result ≡ le32 bytes.now at }
{
    u32::from_le_bytes(array_at(bytes, at))
}

/// Of eight bytes.
pub fn u64_at(bytes: &[u8], at: usize) -> u64
    ensures { result ≡ le64 bytes.now at }
{
    u64::from_le_bytes(array_at(bytes, at))
}

/// Whether the byte at a place is a flag's: 0 or 1.
pub fn is_flag(bytes: &[u8], at: usize) -> bool
    ensures { result ≡ is_flag bytes.now at }
{
    byte(bytes, at) <= 1
}

/// Whether the byte at a place is 1.
pub fn is_set(bytes: &[u8], at: usize) -> bool
    ensures { result ≡ is_set bytes.now at }
{
    byte(bytes, at) == 1
}

/// Whether the bytes from a place on are 0, as unnamed ones are.
pub fn zeros_from(bytes: &[u8], from: usize) -> bool
    ensures { result ≡ zeros_from bytes.now from }
{
    rest(bytes, from).iter().all(|b| *b == 0)
}

/// A flag is 0 or 1: a record's code, of which `bool` knows nothing.
pub(crate) fn flag(byte: u8) -> Option<bool>
    ensures { result ≡ flag_of byte }
{
    match byte {
        0 => Some(false),
        1 => Some(true),
        _ => None,
    }
}

/// A time in tenths of a second.
pub(crate) fn tenths_at(bytes: &[u8; RECORD], at: usize) -> Tenths
    ensures { result ≡ tenths_at bytes.now at }
{
    Tenths(u16_at(bytes, at))
}

/// Bytes 4 to 11 of an event.
pub(crate) fn clock_time(bytes: &[u8; RECORD]) -> Micros
    ensures { result ≡ clock_time bytes.now }
{
    Micros(u64_at(bytes, 4))
}
