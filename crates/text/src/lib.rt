//! The text of the sheet: a line for each event, made in a buffer of its own and put into a lent slice whole or not at all.
//!
//! Besides, `put`, `put_all` and `put_decimal` write a byte, a text or a number into a lent slice from a place on, which counts bytes. What does not fit is not
//! written, what does is; all else in the slice stays. In every case they give the position past the text, held at `usize::MAX`: so the same call measures a
//! text and writes it, and a position past the slice's end says that the text did not fit.
#![tactic(auto)]

mod copying;
pub mod line;

ghost use Rattle.std.specs.Prelude.{[], ◌∷◌};
ghost use Rattle.text.specs.Laws.{Laws};
ghost use Rattle.text.specs.Text.{Wrote, digits};

use itoa::Buffer;

/// One byte, where there is a place for it, and the position past it: one byte on, held at `usize::MAX`.
pub fn put(out: &mut [u8], at: usize, b: u8) -> usize
    ensures { Wrote out.old at (b ∷ []) out.new result }
{
    if at < out.len() {
        out[at] = b;
    }
    at.saturating_add(1)
}

/// A number in decimal, with no leading zeros, as far as the slice reaches, and the position past it: its number of digits on, held at `usize::MAX`.
#[tactic(auto, using(crate::proofs::DigitLaws::digits_decimal))]
pub fn put_decimal(out: &mut [u8], at: usize, x: u64) -> usize
    ensures { Wrote out.old at (digits x) out.new result }
{
    let mut buffer = Buffer::new();
    put_all(out, at, buffer.format(x).as_bytes())
}

/// The bytes of a slice, as far as the other reaches, and the position past them: their number on, held at `usize::MAX`.
#[tactic(auto, using(crate::proofs::WriteLaws::parts))]
pub fn put_all(out: &mut [u8], at: usize, text: &[u8]) -> usize
    ensures { Wrote out.old at text.now out.new result }
{
    if at < out.len() {
        let fitting = text.len().min(out.len() - at);
        out[at..at + fitting].copy_from_slice(&text[..fitting]);
    }
    at.saturating_add(text.len())
}

/// What the text is to be, for every value: a theorem, and nothing to run.
#[tactic(auto, using(crate::proofs::TextLaws::text_laws))]
pub fn text_laws_hold()
    ensures { Laws }
{}
