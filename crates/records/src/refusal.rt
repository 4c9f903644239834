//! The causes 1 to 4.
ghost use Rattle.std.specs.Prelude.{◌≡◌};
ghost use Rattle.records.specs.SettingsRecord.{refusal_number};

/// Why a record is refused (docs/RULES.md, Causes), and the numbers.
#[derive(Clone, Copy, Debug, PartialEq, Eq)]
pub enum RecordRefusal {
    /// A length, mark, flag, mode, kind, answer's code, known bit 6 or 7, or unnamed byte is wrong.
    RecordWrong = 1,
    MaxAbove254 = 2,
    MinAboveMax = 3,
    LightingMin0 = 4,
}

impl From<RecordRefusal> for u8 {
    ghost from_gives = { λ refusal number. number ≡ refusal_number refusal };

    fn from(refusal: RecordRefusal) -> u8 {
        // Its discriminant.
        refusal as u8
    }
}
