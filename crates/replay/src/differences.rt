//! Our texts of a play held to the Rust's.
ghost use Rattle.std.specs.Prelude.{◌≡◌, ◌↔◌, IsNone};

use std::io;
use std::io::Write;

/// A longer line is not shown.
const MOST_SHOWN: usize = 300;

/// A line that differs, as each of two texts has it, with its line feed: empty where the text has ended.
#[derive(Clone, Copy, Debug)]
pub(crate) struct Difference<'a> {
    /// From 1.
    line: usize,
    ours: &'a [u8],
    rust: &'a [u8],
}

/// The line that begins there.
fn line_at(text: &[u8], start: usize) -> &[u8] {
    let text = text.get(start..).unwrap_or(&[]);
    let end = text.iter().position(|byte| *byte == b'\n');
    end.and_then(|end| text.get(..=end)).unwrap_or(text)
}

/// The first line that differs: none if the texts are the same, and only then.
pub(crate) fn first_difference<'a>(ours: &'a [u8], rust: &'a [u8]) -> Option<Difference<'a>>
    ensures { IsNone result ↔ (ours.now ≡ rust.now) }
{
    if ours == rust {
        return None;
    }
    let same = ours.iter().zip(rust).take_while(|(a, b)| a == b).count();
    let before = ours.get(..same).unwrap_or(ours);
    let lines = before.iter().filter(|byte| **byte == b'\n').count();
    let start = before
        .iter()
        .rposition(|byte| *byte == b'\n')
        .map_or(0, |end| end + 1);
    Some(Difference {
        line: 1 + lines,
        ours: line_at(ours, start),
        rust: line_at(rust, start),
    })
}

fn print_text(out: &mut impl Write, whose: &str, text: &[u8]) -> io::Result<()> {
    write!(out, "  {whose}  ")?;
    if text.is_empty() {
        writeln!(out, "(nothing)")
    } else if MOST_SHOWN < text.len() {
        writeln!(out, "({} bytes)", text.len())
    } else if text.ends_with(b"\n") {
        out.write_all(text)
    } else {
        out.write_all(text)?;
        writeln!(out, " (without a line feed)")
    }
}

impl Difference<'_> {
    /// Of which play, and in what.
    pub(crate) fn print(&self, out: &mut impl Write, play: u32, what: &str) -> io::Result<()> {
        writeln!(out, "play {play}, line {}: the {what} differs", self.line)?;
        print_text(out, "ours", self.ours)?;
        print_text(out, "Rust", self.rust)
    }
}
