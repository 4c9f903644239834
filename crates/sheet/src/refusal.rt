//! Why a play, or one of its events, is refused.
ghost use Rattle.std.specs.Prelude.{◌≡◌};
ghost use Rattle.sheet.specs.Lines.{event_number};
ghost use Rattle.sheet.specs.Play.{number_of};
ghost use Rattle.sheet.specs.declared.refusal.EventRefusal.TheVariants as event;
ghost use Rattle.sheet.specs.declared.refusal.PlayRefusal.TheVariants.{Record};

use records::refusal::RecordRefusal;
use transitions::causes::Refusal;

/// Its records are wrong, or its text is longer than the room for it (docs/RULES.md, Causes).
#[derive(Clone, Copy, Debug, PartialEq, Eq)]
pub enum PlayRefusal {
    Record(RecordRefusal),
    TextTooLong,
}

impl From<RecordRefusal> for PlayRefusal {
    ghost from_gives = { λ why refusal. refusal ≡ Record why };

    fn from(why: RecordRefusal) -> PlayRefusal {
        PlayRefusal::Record(why)
    }
}

impl From<PlayRefusal> for u8 {
    ghost from_gives = { λ refusal number. number ≡ number_of refusal };

    fn from(refusal: PlayRefusal) -> u8 {
        match refusal {
            PlayRefusal::Record(why) => u8::from(why),
            PlayRefusal::TextTooLong => 16,
        }
    }
}

/// Its record is wrong, or the state refuses it.
#[derive(Clone, Copy, Debug, PartialEq, Eq)]
pub(crate) enum EventRefusal {
    RecordWrong,
    Event(Refusal),
}

impl From<Refusal> for EventRefusal {
    ghost from_gives = { λ why refusal. refusal ≡ event.Event why };

    fn from(why: Refusal) -> EventRefusal {
        EventRefusal::Event(why)
    }
}

impl From<EventRefusal> for u8 {
    ghost from_gives = { λ refusal number. number ≡ event_number refusal };

    fn from(refusal: EventRefusal) -> u8 {
        match refusal {
            EventRefusal::RecordWrong => u8::from(RecordRefusal::RecordWrong),
            EventRefusal::Event(why) => u8::from(why),
        }
    }
}
