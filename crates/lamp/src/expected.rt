//! What is said of a fault (docs/WORDS.md, Faults).
use words::fault::Expected;
use words::names::Name;

/// What was expected, without the word "expected".
pub(crate) fn message(expected: Expected) -> &'static str {
    match expected {
        Expected::Settings => "'settings', which begins a play",
        Expected::Min => "'min'",
        Expected::Max => "'max'",
        Expected::FastestRate => "'fastest-rate'",
        Expected::Byte => "a number from 0 to 255 without leading zeros",
        Expected::PositiveByte => {
            "a number from 1 to 255 without leading zeros (0 is said by leaving it out, with its name)"
        }
        Expected::MinAtMost254 => "a min of at most 254",
        Expected::MaxAtMost254 => "a max of at most 254",
        Expected::MaxNotBelowMin => "a max no lower than the min",
        Expected::NoLighting => {
            "the end of the line, since a lamp for lighting has a min of at least 1"
        }
        Expected::ClockTime => {
            "a clock time with its unit and at most six digits after the point, as 2.000000s, at most 18446744073709.551615s"
        }
        Expected::Lamp => "the lamp's value, 'on' or 'off'",
        Expected::Verb => {
            "a verb: answer, device-stop, device-update, factory-reset, move, move-to-level, onoff, recall-scene, start-up, step, stop, wake or write; move, move-to-level, step and stop also with -with-on-off"
        }
        Expected::Direction => "'up' or 'down'",
        Expected::Answer => "a level from 0 to 255 without leading zeros, 'null' or 'failed'",
        Expected::OnOff => "'on' or 'off'",
        Expected::Attribute => "'on-level', 'default-move-rate' or 'start-up-current-level'",
        Expected::ByteOrNull => "a number from 0 to 255 without leading zeros, or 'null'",
        Expected::LevelOrIn => "'level' or 'in'",
        Expected::In => "'in'",
        Expected::SceneTime => {
            "a time with its unit, in thousandths of a second, as 0.300s, at most 4294967.295s, without leading zeros"
        }
        Expected::TransitionTime => {
            "a time with its unit, in tenths of a second, as 0.3s, at most 6553.5s, without leading zeros"
        }
        Expected::PositiveTime => {
            "a time with its unit, in tenths of a second, from 0.1s to 6553.5s, without leading zeros (0 is said by leaving it out, with its name)"
        }
        Expected::End => "the end of the line",
        Expected::NameOrEnd(name) => names_from(name),
        Expected::NoMoreEvents => "no more than 255 events",
    }
}

/// The names that may stand at a place: the first of them, those that may follow it, or the end of the line.
fn names_from(first: Name) -> &'static str {
    match first {
        Name::Rate => "'rate', 'mask', 'override' or the end of the line",
        Name::In => "'in', 'mask', 'override' or the end of the line",
        Name::Mask => "'mask', 'override' or the end of the line",
        Name::Override => "'override' or the end of the line",
        Name::Level => {
            "'level', 'on-level', 'start-up-current-level', 'default-move-rate', 'on-off-transition-time', 'on-transition-time', 'off-transition-time', 'options', 'coupled', 'lighting' or the end of the line"
        }
        Name::OnLevel => {
            "'on-level', 'start-up-current-level', 'default-move-rate', 'on-off-transition-time', 'on-transition-time', 'off-transition-time', 'options', 'coupled', 'lighting' or the end of the line"
        }
        Name::StartUpCurrentLevel => {
            "'start-up-current-level', 'default-move-rate', 'on-off-transition-time', 'on-transition-time', 'off-transition-time', 'options', 'coupled', 'lighting' or the end of the line"
        }
        Name::DefaultMoveRate => {
            "'default-move-rate', 'on-off-transition-time', 'on-transition-time', 'off-transition-time', 'options', 'coupled', 'lighting' or the end of the line"
        }
        Name::OnOffTransitionTime => {
            "'on-off-transition-time', 'on-transition-time', 'off-transition-time', 'options', 'coupled', 'lighting' or the end of the line"
        }
        Name::OnTransitionTime => {
            "'on-transition-time', 'off-transition-time', 'options', 'coupled', 'lighting' or the end of the line"
        }
        Name::OffTransitionTime => {
            "'off-transition-time', 'options', 'coupled', 'lighting' or the end of the line"
        }
        Name::Options => "'options', 'coupled', 'lighting' or the end of the line",
        Name::Coupled => "'coupled', 'lighting' or the end of the line",
        Name::Lighting => "'lighting' or the end of the line",
        _ => "the end of the line",
    }
}
