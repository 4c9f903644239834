//! What is wrong with a text, and where.
use crate::names::Name;

/// What was expected at a place: the table of docs/WORDS.md, Faults, row by row. Where a case has no comment, it is the word or the
/// value of that name.
#[derive(Clone, Copy, Debug, PartialEq, Eq)]
pub enum Expected {
    Settings,
    Min,
    Max,
    FastestRate,
    Byte,
    PositiveByte,
    MinAtMost254,
    MaxAtMost254,
    MaxNotBelowMin,
    /// The end of the line, since `lighting` does not go with a min of 0.
    NoLighting,
    ClockTime,
    Lamp,
    Verb,
    Direction,
    Answer,
    OnOff,
    Attribute,
    ByteOrNull,
    LevelOrIn,
    In,
    SceneTime,
    TransitionTime,
    PositiveTime,
    End,
    /// This name, or one of those that follow it, or the end of the line.
    NameOrEnd(Name),
    NoMoreEvents,
}

/// The first fault of a line: which word, from 0, one past the last where the line ends too early.
#[derive(Clone, Copy, Debug, PartialEq, Eq)]
pub(crate) struct WordFault {
    pub(crate) word: usize,
    pub(crate) expected: Expected,
}

/// The first fault of a text (docs/WORDS.md, Faults).
#[derive(Clone, Copy, Debug, PartialEq, Eq)]
pub struct Fault {
    /// From 1.
    pub line: usize,
    /// From 1, in bytes.
    pub column: usize,
    pub expected: Expected,
}
