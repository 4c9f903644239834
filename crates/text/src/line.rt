//! A line of the sheet (docs/RULES.md, Sheet): index, number, level or `-`, remaining tenths, actions; single spaces between, a
//! line feed after.
ghost use Rattle.std.specs.Prelude.{◌≡◌, ◌+◌, ◌*◌, ◌<◌, ◌≤◌, [], ◌∷◌, ◌++◌, length};
ghost use Rattle.text.specs.Line.{action_text, actions_text, letter_of, level_text, line_of, refusal_line, shows_value};
ghost use Rattle.text.specs.Text.{ascii, digits, put_whole};
ghost use Rattle.text.specs.declared.line.TheConstants.{LONGEST};

use crate::copying::copy_in_blocks;
use itoa::write_digits;
use std::marker::Model;
use transitions::actions::{Action, ActionKind, Actions};
use units::Tenths;

/// The most bytes of a line: 20 digits of the index, 3 of the number, 3 of the level, 5 of the remaining tenths, 3 spaces,
/// 22 bytes of each of seven actions, and a line feed.
pub const LONGEST: usize = 20 + 3 + 3 + 5 + 3 + 7 * 22 + 1;

/// The bytes of one line. A caller makes it once and fills it again for each event, since a line given back by value is copied.
// The lists of `arrayvec` lend no room past their end: digits would be made elsewhere and copied, slower than plain Rust.
#[derive(Debug, Drop)]
pub struct Line {
    length: usize,
    bytes: [u8; LONGEST],
}

impl Model for Line {
    ghost use Rattle.std.specs.Prelude.{◌≤◌, List, ℕ, take};
    ghost use Rattle.text.specs.declared.line.TheConstants.{LONGEST};

    ghost Value = { List ℕ };

    ghost view = { λ line. take line.length line.bytes };

    ghost invariant = { λ line. line.length ≤ LONGEST };
}

impl Line {
    /// An empty line.
    pub fn new() -> Self
        ensures { result ≡ [] }
    {
        Line {
            length: 0,
            bytes: [0; LONGEST],
        }
    }

    /// The line of an event, in place of what stood here: its index from 1, 0 or the number of its refusal, the level, if there
    /// is one, and the remaining time, of the state after it, and its actions.
    // A number: what an event and a play are refused by are types of `sheet`, which stands above.
    #[tactic(auto, using(crate::proofs::LineLaws::lines), unfolding(crate::specs::Line::line_of))]
    pub fn write(
        &mut self,
        index: u64,
        number: u8,
        level: Option<u8>,
        remaining: Tenths,
        actions: &Actions,
    )
        ensures { self.new ≡ line_of index number level remaining actions.now }
    {
        self.begin(index, number);
        self.append_byte(b' ');
        self.append_level(level);
        self.append_byte(b' ');
        self.append_number(u64::from(remaining.0));
        self.append_actions(actions.as_slice());
        self.end();
    }

    /// The line of a refused play, in place of what stood here: 0 and the number of its refusal, also one that no play has.
    #[tactic(auto, using(crate::proofs::LineLaws::numbers))]
    pub fn write_refusal(&mut self, number: u8)
        ensures { self.new ≡ refusal_line number }
    {
        self.begin(0, number);
        self.end();
    }

    /// Its bytes.
    pub fn as_slice(&self) -> &[u8]
        ensures all { result.now ≡ self.now }
        ensures within { length result.now ≤ 189 }
    {
        &self.bytes[..self.length]
    }

    /// Writes the line into `out` from `at` on if all of it has room there, else nothing; in both cases gives the position past
    /// it, held at usize::MAX. So one loop measures a text and writes it.
    #[tactic(auto, using(crate::proofs::WriteLaws::wholes))]
    pub fn put(&self, out: &mut [u8], at: usize) -> usize
        ensures out_after { (result, out.new) ≡ put_whole out.old at self.now }
        ensures upper_bound { result ≤ at + 189 }
    {
        let end = at.saturating_add(self.length);
        if end <= out.len() {
            copy_in_blocks(&mut out[at..end], self.as_slice());
        }
        end
    }

    #[tactic(auto, using(crate::proofs::LineLaws::numbers))]
    fn begin(&mut self, index: u64, number: u8)
        ensures { self.new ≡ digits index ++ ascii " " ++ digits number }
    {
        self.length = 0;
        self.append_number(index);
        self.append_byte(b' ');
        self.append_number(u64::from(number));
    }

    fn end(&mut self)
        requires { length self.old < LONGEST }
        ensures { self.new ≡ self.old ++ ascii "\n" }
    {
        self.append_byte(b'\n');
    }

    #[tactic(auto, using(crate::proofs::LineLaws::numbers), unfolding(crate::specs::Line::level_text))]
    fn append_level(&mut self, level: Option<u8>)
        requires { length self.old + 3 ≤ LONGEST }
        ensures text { self.new ≡ self.old ++ level_text level }
        ensures room { length self.new ≤ length self.old + 3 }
    {
        match level {
            Some(level) => self.append_number(u64::from(level)),
            None => self.append_byte(b'-'),
        }
    }

    #[tactic(auto, using(crate::proofs::LineLaws::actions))]
    fn append_actions(&mut self, actions: &[Action])
        requires { length self.old + 22 * length actions.now ≤ LONGEST }
        ensures { self.new ≡ self.old ++ actions_text actions.now }
    {
        for action in actions {
            self.append_action(*action);
        }
    }

    /// A space, the letter, and the value if one is shown.
    #[tactic(auto, using(crate::proofs::LineLaws::numbers), unfolding(crate::specs::Line::action_text))]
    fn append_action(&mut self, action: Action)
        requires { length self.old + 22 ≤ LONGEST }
        ensures { self.new ≡ self.old ++ action_text action }
    {
        self.append_byte(b' ');
        self.append_byte(letter(action.kind));
        if shows_value(action.kind) {
            self.append_number(action.value);
        }
    }

    /// A number in decimal, with no leading zeros. The library writes to the left of an end, so the length comes first.
    // Inline: a call takes a tenth longer for each event.
    #[inline]
    #[tactic(auto, using(crate::proofs::DigitLaws::writes))]
    fn append_number(&mut self, number: u64)
        requires { length self.old + length (digits number) ≤ LONGEST }
        ensures { self.new ≡ self.old ++ digits number }
    {
        let end = self.length + digits_length(number);
        write_digits(number, &mut self.bytes, end);
        self.length = end;
    }

    fn append_byte(&mut self, byte: u8)
        requires { length self.old < LONGEST }
        ensures { self.new ≡ self.old ++ byte ∷ [] }
    {
        self.bytes[self.length] = byte;
        self.length += 1;
    }
}

/// How many digits it has; 0 has one.
#[tactic(auto, using(crate::proofs::DigitLaws::counted))]
fn digits_length(number: u64) -> usize
    ensures { result ≡ length (digits number) }
{
    // A logarithm is 19 at most.
    number.checked_ilog10().map_or(1, |log| log as usize + 1)
}

// A byte of a line, which `transitions` knows nothing of.
fn letter(kind: ActionKind) -> u8
    ensures { result ≡ letter_of kind }
{
    match kind {
        ActionKind::D => b'D',
        ActionKind::P => b'P',
        ActionKind::S => b'S',
        ActionKind::C => b'C',
        ActionKind::L => b'L',
        ActionKind::R => b'R',
        ActionKind::W => b'W',
        ActionKind::E => b'E',
        ActionKind::K => b'K',
        ActionKind::X => b'X',
    }
}

/// Only D, C, W and E have a value: a level, 0 or 1, a time in µs, a number.
fn shows_value(kind: ActionKind) -> bool
    ensures { result ≡ shows_value kind }
{
    matches!(
        kind,
        ActionKind::D | ActionKind::C | ActionKind::W | ActionKind::E
    )
}
