//! Whether a command goes on past the options.
//! Derived from level_control.rs of project-chip/rs-matter 43f61585a4 (see NOTICE), and changed.
ghost use Rattle.std.specs.Prelude.{◌≡◌};
ghost use Rattle.transitions.specs.Options.{should_continue};

use crate::types::OptionsBitmap;

/// What a command says of the options: whether it is one with on/off, which never asks them, and what it puts over the stored ones.
#[derive(Clone, Copy, Debug, PartialEq, Eq)]
pub struct CommandOptions {
    pub with_on_off: bool,
    pub options_mask: OptionsBitmap,
    pub options_override: OptionsBitmap,
}

impl CommandOptions {
    /// `options` are the stored ones.
    #[tactic(auto, unfolding(crate::specs::Options::should_continue))]
    pub fn should_continue(self, coupled: bool, on_off: bool, options: OptionsBitmap) -> bool
        ensures { result ≡ should_continue self.with_on_off coupled on_off options self.options_mask self.options_override }
    {
        if self.with_on_off || !coupled || on_off {
            return true;
        }
        if self.options_mask.executes_if_off() {
            self.options_override.executes_if_off()
        } else {
            options.executes_if_off()
        }
    }
}
