//! What is configured, and the attributes.
//! Derived from level_control.rs of project-chip/rs-matter 43f61585a4 (see NOTICE), and changed.
use crate::types::{Level, LevelRange, OptionsBitmap, Rate, Time};
use units::Tenths;

/// The attributes: events set three of them, and a reset puts all back to what is configured.
#[derive(Clone, Copy, Debug, PartialEq, Eq)]
pub struct Attributes {
    pub on_level: Level,
    pub options: OptionsBitmap,
    pub on_off_transition_time: Tenths,
    pub on_transition_time: Time,
    pub off_transition_time: Time,
    pub default_move_rate: Rate,
    pub start_up_current_level: Level,
}

/// What was configured: the source's associated constants of the hooks.
#[derive(Clone, Copy, Debug, PartialEq, Eq)]
pub struct Settings {
    pub range: LevelRange,
    pub coupled: bool,
    pub fastest_rate: u8,
    pub lighting: bool,
    pub current_level: Level,
    pub attributes: Attributes,
}
