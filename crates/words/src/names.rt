//! The words that have a meaning.
ghost use Rattle.std.specs.Prelude.{◌≡◌};
ghost use Rattle.words.specs.Names.{command_text, first_name, first_verb, name_of, name_text, verb_of, verb_text};

/// What follows the lamp's value in an event's line (docs/WORDS.md, The grammar).
#[derive(Clone, Copy, Debug, PartialEq, Eq)]
pub enum Verb {
    StartUp,
    Answer,
    Wake,
    Command(CommandVerb),
}

/// The verbs of the commands (docs/WORDS.md, The grammar).
#[derive(Clone, Copy, Debug, PartialEq, Eq)]
pub enum CommandVerb {
    MoveToLevel,
    MoveToLevelWithOnOff,
    Move,
    MoveWithOnOff,
    Step,
    StepWithOnOff,
    Stop,
    StopWithOnOff,
    OnOff,
    RecallScene,
    DeviceUpdate,
    DeviceStop,
    Write,
    FactoryReset,
}

/// What a `write` sets.
#[derive(Clone, Copy, Debug, PartialEq, Eq)]
pub(crate) enum Attribute {
    OnLevel,
    DefaultMoveRate,
    StartUpCurrentLevel,
}

/// Every other word with a meaning (docs/WORDS.md, The grammar). The names of settings that may be left out stand in their order.
#[derive(Clone, Copy, Debug, PartialEq, Eq)]
pub enum Name {
    On,
    Off,
    Up,
    Down,
    Null,
    Failed,
    Rate,
    In,
    Mask,
    Override,
    Settings,
    Min,
    Max,
    FastestRate,
    Level,
    OnLevel,
    StartUpCurrentLevel,
    DefaultMoveRate,
    OnOffTransitionTime,
    OnTransitionTime,
    OffTransitionTime,
    Options,
    Coupled,
    Lighting,
}

const VERBS: [Verb; 17] = [
    Verb::StartUp,
    Verb::Answer,
    Verb::Wake,
    Verb::Command(CommandVerb::MoveToLevel),
    Verb::Command(CommandVerb::MoveToLevelWithOnOff),
    Verb::Command(CommandVerb::Move),
    Verb::Command(CommandVerb::MoveWithOnOff),
    Verb::Command(CommandVerb::Step),
    Verb::Command(CommandVerb::StepWithOnOff),
    Verb::Command(CommandVerb::Stop),
    Verb::Command(CommandVerb::StopWithOnOff),
    Verb::Command(CommandVerb::OnOff),
    Verb::Command(CommandVerb::RecallScene),
    Verb::Command(CommandVerb::DeviceUpdate),
    Verb::Command(CommandVerb::DeviceStop),
    Verb::Command(CommandVerb::Write),
    Verb::Command(CommandVerb::FactoryReset),
];

const NAMES: [Name; 24] = [
    Name::On,
    Name::Off,
    Name::Up,
    Name::Down,
    Name::Null,
    Name::Failed,
    Name::Rate,
    Name::In,
    Name::Mask,
    Name::Override,
    Name::Settings,
    Name::Min,
    Name::Max,
    Name::FastestRate,
    Name::Level,
    Name::OnLevel,
    Name::StartUpCurrentLevel,
    Name::DefaultMoveRate,
    Name::OnOffTransitionTime,
    Name::OnTransitionTime,
    Name::OffTransitionTime,
    Name::Options,
    Name::Coupled,
    Name::Lighting,
];

impl Verb {
    /// How it is written.
    pub fn text(self) -> &'static [u8]
        ensures { result.now ≡ verb_text self }
    {
        match self {
            Verb::StartUp => b"start-up",
            Verb::Answer => b"answer",
            Verb::Wake => b"wake",
            Verb::Command(verb) => verb.text(),
        }
    }
}

impl CommandVerb {
    /// How it is written.
    pub fn text(self) -> &'static [u8]
        ensures { result.now ≡ command_text self }
    {
        match self {
            CommandVerb::MoveToLevel => b"move-to-level",
            CommandVerb::MoveToLevelWithOnOff => b"move-to-level-with-on-off",
            CommandVerb::Move => b"move",
            CommandVerb::MoveWithOnOff => b"move-with-on-off",
            CommandVerb::Step => b"step",
            CommandVerb::StepWithOnOff => b"step-with-on-off",
            CommandVerb::Stop => b"stop",
            CommandVerb::StopWithOnOff => b"stop-with-on-off",
            CommandVerb::OnOff => b"onoff",
            CommandVerb::RecallScene => b"recall-scene",
            CommandVerb::DeviceUpdate => b"device-update",
            CommandVerb::DeviceStop => b"device-stop",
            CommandVerb::Write => b"write",
            CommandVerb::FactoryReset => b"factory-reset",
        }
    }
}

impl Name {
    /// How it is written.
    pub fn text(self) -> &'static [u8]
        ensures { result.now ≡ name_text self }
    {
        match self {
            Name::On => b"on",
            Name::Off => b"off",
            Name::Up => b"up",
            Name::Down => b"down",
            Name::Null => b"null",
            Name::Failed => b"failed",
            Name::Rate => b"rate",
            Name::In => b"in",
            Name::Mask => b"mask",
            Name::Override => b"override",
            Name::Settings => b"settings",
            Name::Min => b"min",
            Name::Max => b"max",
            Name::FastestRate => b"fastest-rate",
            Name::Level => b"level",
            Name::OnLevel => b"on-level",
            Name::StartUpCurrentLevel => b"start-up-current-level",
            Name::DefaultMoveRate => b"default-move-rate",
            Name::OnOffTransitionTime => b"on-off-transition-time",
            Name::OnTransitionTime => b"on-transition-time",
            Name::OffTransitionTime => b"off-transition-time",
            Name::Options => b"options",
            Name::Coupled => b"coupled",
            Name::Lighting => b"lighting",
        }
    }
}

/// The verb that is written so.
#[tactic(auto, unfolding(crate::specs::Names::verb_of))]
pub(crate) fn verb_of(word: &[u8]) -> Option<Verb>
    ensures { result ≡ verb_of word.now }
{
    first_verb(&VERBS, word)
}

/// The name that is written so.
#[tactic(auto, unfolding(crate::specs::Names::name_of))]
pub(crate) fn name_of(word: &[u8]) -> Option<Name>
    ensures { result ≡ name_of word.now }
{
    first_name(&NAMES, word)
}

fn first_verb(verbs: &[Verb], word: &[u8]) -> Option<Verb>
    ensures { result ≡ first_verb word.now verbs.now }
{
    for verb in verbs {
        if verb.text() == word {
            return Some(*verb);
        }
    }
    None
}

fn first_name(names: &[Name], word: &[u8]) -> Option<Name>
    ensures { result ≡ first_name word.now names.now }
{
    for name in names {
        if name.text() == word {
            return Some(*name);
        }
    }
    None
}
