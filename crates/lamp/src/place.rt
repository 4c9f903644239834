//! Places of a text, and what a message shows of them.

use std::fmt;

/// More of a word is not shown.
const MOST_SHOWN: usize = 40;

/// Both from 1; the column in bytes, without a byte order mark.
#[derive(Clone, Copy, Debug, PartialEq, Eq)]
pub(crate) struct Place {
    pub(crate) line: usize,
    pub(crate) column: usize,
}

/// What stands at a place, where something else was expected.
#[derive(Clone, Copy, Debug, PartialEq, Eq)]
pub(crate) enum Found<'a> {
    Word(&'a [u8]),
    EndOfLine,
}

pub(crate) fn without_mark(text: &[u8]) -> &[u8] {
    text.strip_prefix(b"\xEF\xBB\xBF").unwrap_or(text)
}

impl Place {
    /// The rest of the line from there on, without white space at its front.
    fn rest(self, text: &[u8]) -> &[u8] {
        without_mark(text)
            .split(|byte| *byte == b'\n')
            .nth(self.line.saturating_sub(1))
            .and_then(|line| line.get(self.column.saturating_sub(1)..))
            .unwrap_or(&[])
            .trim_ascii_start()
    }

    /// In a play in words, where a comment ends the line too.
    pub(crate) fn found(self, text: &[u8]) -> Found<'_> {
        let word = self
            .rest(text)
            .split(|byte| byte.is_ascii_whitespace() || *byte == b'#')
            .next();
        match word {
            None | Some([]) => Found::EndOfLine,
            Some(word) => Found::Word(word),
        }
    }

    /// In hexadecimal text, which has no comments.
    pub(crate) fn found_in_hex(self, text: &[u8]) -> Found<'_> {
        let rest = self.rest(text);
        Found::Word(rest.split(u8::is_ascii_whitespace).next().unwrap_or(rest))
    }
}

impl fmt::Display for Found<'_> {
    fn fmt<W: fmt::Write>(&self, f: &mut fmt::Formatter<W>) -> fmt::Result {
        match *self {
            Found::EndOfLine => f.write_str("the end of the line"),
            Found::Word(word) => {
                f.write_str("'")?;
                for byte in word.iter().take(MOST_SHOWN) {
                    if byte.is_ascii_graphic() {
                        write!(f, "{}", char::from(*byte))?;
                    } else {
                        write!(f, "\\x{byte:02X}")?;
                    }
                }
                f.write_str("'")
            }
        }
    }
}
