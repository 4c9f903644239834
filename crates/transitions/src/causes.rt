//! Why an event is refused, and which cause comes first.
//! Derived from level_control.rs of project-chip/rs-matter 43f61585a4 (see NOTICE), and changed.
ghost use Rattle.std.specs.Prelude.{◌≡◌};
ghost use Rattle.transitions.specs.Causes.{event_tests, first_cause, no_command_tests, no_turn_tests, refusal_number};

/// The causes that an event can be refused for (docs/RULES.md, Causes), and their numbers.
#[derive(Clone, Copy, Debug, PartialEq, Eq)]
pub enum Refusal {
    /// Before the last accepted time, or past the last that is accepted.
    TimeRefused = 5,
    /// Another event while the device's answer is open.
    AnswerOpen = 6,
    NoAnswerOpen = 7,
    /// No wait, or it is not over.
    WakeRefused = 8,
    /// An event was accepted before.
    StartUpLate = 9,
    /// A step of size 0, or a move at rate 0.
    InvalidCommand = 10,
    /// A step from a missing level.
    InvalidInState = 11,
    /// The product of a step's time and its actual size does not fit 16 bits.
    ProductTooLarge = 12,
    /// A level to be set lies outside MIN..MAX.
    LevelOutside = 13,
    /// A rate to be set is 0.
    RateZero = 14,
}

impl From<Refusal> for u8 {
    ghost from_gives = { λ refusal number. number ≡ refusal_number refusal };

    fn from(refusal: Refusal) -> u8 {
        // Its discriminant.
        refusal as u8
    }
}

/// What the tests of a call say: of its settings, of a record, of the output.
#[derive(Clone, Copy, Debug, PartialEq, Eq)]
pub struct CallTests {
    pub record_wrong: bool,
    pub max_above_254: bool,
    pub min_above_max: bool,
    pub lighting_min_0: bool,
    pub output_short: bool,
}

/// What the tests say that ask whether an event's turn has come.
#[derive(Clone, Copy, Debug, PartialEq, Eq)]
pub struct TurnTests {
    pub time_refused: bool,
    pub answer_open: bool,
    pub no_answer_open: bool,
    pub wake_refused: bool,
    pub start_up_late: bool,
}

/// What the tests of a command's own values say. The options stop a command without refusing it.
#[derive(Clone, Copy, Debug, PartialEq, Eq)]
pub struct CommandTests {
    pub invalid_command: bool,
    pub stopped_by_options: bool,
    pub invalid_in_state: bool,
    pub product_too_large: bool,
    pub level_outside: bool,
    pub rate_0: bool,
}

/// What every test says, of a call and of an event in it.
#[derive(Clone, Copy, Debug, PartialEq, Eq)]
pub struct Tests {
    pub call: CallTests,
    pub turn: TurnTests,
    pub command: CommandTests,
}

/// The number of the first cause whose test holds (docs/RULES.md, Causes): 0 where none does, and where the options stop an
/// event before a later cause is looked at.
#[tactic(auto, unfolding(crate::specs::Causes::first_cause))]
pub fn first_cause(tests: Tests) -> u8
    ensures { result ≡ first_cause tests }
{
    let Tests {
        call,
        turn,
        command,
    } = tests;
    if call.record_wrong {
        return 1;
    }
    if call.max_above_254 {
        return 2;
    }
    if call.min_above_max {
        return 3;
    }
    if call.lighting_min_0 {
        return 4;
    }
    if turn.time_refused {
        return 5;
    }
    if turn.answer_open {
        return 6;
    }
    if turn.no_answer_open {
        return 7;
    }
    if turn.wake_refused {
        return 8;
    }
    if turn.start_up_late {
        return 9;
    }
    if command.invalid_command {
        return 10;
    }
    if command.stopped_by_options {
        return 0;
    }
    if command.invalid_in_state {
        return 11;
    }
    if command.product_too_large {
        return 12;
    }
    if command.level_outside {
        return 13;
    }
    if command.rate_0 {
        return 14;
    }
    if call.output_short {
        return 16;
    }
    0
}

impl Tests {
    /// Of an event whose record is right, within settings that were accepted.
    pub fn of_event(turn: TurnTests, command: CommandTests) -> Self
        ensures { result ≡ event_tests turn command }
    {
        let call = CallTests {
            record_wrong: false,
            max_above_254: false,
            min_above_max: false,
            lighting_min_0: false,
            output_short: false,
        };
        Tests {
            call,
            turn,
            command,
        }
    }
}

impl TurnTests {
    /// Of an event whose turn has come.
    pub fn none() -> Self
        ensures { result ≡ no_turn_tests }
    {
        TurnTests {
            time_refused: false,
            answer_open: false,
            no_answer_open: false,
            wake_refused: false,
            start_up_late: false,
        }
    }
}

impl CommandTests {
    /// Of a kind of event that has no such test.
    pub fn none() -> Self
        ensures { result ≡ no_command_tests }
    {
        CommandTests {
            invalid_command: false,
            stopped_by_options: false,
            invalid_in_state: false,
            product_too_large: false,
            level_outside: false,
            rate_0: false,
        }
    }
}
