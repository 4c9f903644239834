//! The values that the rules speak of. A missing one, null in the cluster, is `None`.
//! Derived from level_control.rs of project-chip/rs-matter 43f61585a4 (see NOTICE), and changed.
ghost use Rattle.std.specs.Prelude.{◌≡◌};
ghost use Rattle.units.specs.Numbers.{held_to};
ghost use Rattle.transitions.specs.Types.{executes_if_off, is_within};

use units::{Micros, Tenths};

/// A level (CurrentLevel, OnLevel, StartUpCurrentLevel).
pub type Level = Option<u8>;

/// A transition time.
pub type Time = Option<Tenths>;

/// A rate in levels a second.
pub type Rate = Option<u8>;

/// The direction of a step or a move: the source's StepModeEnum and MoveModeEnum.
#[derive(Clone, Copy, Debug, PartialEq, Eq)]
pub enum Mode {
    Up,
    Down,
}

/// When an event comes, and the on/off value of the coupled cluster then.
#[derive(Clone, Copy, Debug, PartialEq, Eq)]
pub struct Moment {
    pub at: Micros,
    pub on_off: bool,
}

/// MIN_LEVEL and MAX_LEVEL. A record with MIN above MAX is refused; the functions take any two.
#[derive(Clone, Copy, Debug, PartialEq, Eq)]
pub struct LevelRange {
    pub min: u8,
    pub max: u8,
}

impl LevelRange {
    /// The nearest level within. Where MIN is above MAX it is MAX; std's `clamp` asks that it is not.
    pub fn clamp(self, level: u8) -> u8
        ensures { result ≡ held_to self.min self.max level }
    {
        level.max(self.min).min(self.max)
    }

    /// Whether a level lies within. Where MIN is above MAX none does.
    pub fn contains(self, level: u8) -> bool
        ensures { result ≡ is_within self level }
    {
        (self.min..=self.max).contains(&level)
    }
}

/// Options, a command's OptionsMask or its OptionsOverride. Of the eight bits only bit 0 means something here.
#[derive(Clone, Copy, Debug, PartialEq, Eq)]
pub struct OptionsBitmap(pub u8);

impl OptionsBitmap {
    /// Bit 0, EXECUTE_IF_OFF.
    pub fn executes_if_off(self) -> bool
        ensures { result ≡ executes_if_off self }
    {
        self.0 % 2 == 1
    }
}
