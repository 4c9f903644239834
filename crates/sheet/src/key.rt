//! What the program keysheet prints.
ghost use Rattle.std.specs.Prelude.{◌≡◌, ◌≤◌};
ghost use Rattle.sheet.specs.Play.{key_of};

use crate::play::{ROOM, play};
use text::line::Line;

/// The text, or `0 `, the number of the refusal and a line feed, at the front of out, and how long it is. Where out is shorter
/// than that line, as much of it as fits stands there; the length is that of the whole.
#[tactic(auto, using(crate::proofs::SheetLaws::front_set), unfolding(crate::specs::Play::key_of, crate::specs::Play::shown, crate::specs::Play::refusal_text))]
pub fn key_sheet(records: &[u8], out: &mut [u8]) -> usize
    ensures out_after { (result, out.new) ≡ key_of records.now out.old }
    ensures result_bound { result ≤ 48195 }
{
    match play(records, out) {
        Ok(length) => length,
        Err(why) => {
            let mut line = Line::new();
            line.write_refusal(u8::from(why));
            let text = line.as_slice();
            let shown = text.len().min(out.len());
            out[..shown].copy_from_slice(&text[..shown]);
            text.len()
        }
    }
}
