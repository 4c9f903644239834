//! What is sent to the coupled On/Off cluster, with the settings of the state.
//! Derived from level_control.rs of project-chip/rs-matter 43f61585a4 (see NOTICE), and changed.
ghost use Rattle.std.specs.Prelude.{◌≡◌};
ghost use Rattle.level_control.specs.Coupling.{coupled_by};

use crate::state::LevelControlState;
use transitions::coupling::coupled_on_off;

impl LevelControlState {
    #[tactic(auto, unfolding(crate::specs::Coupling::coupled_by))]
    pub(crate) fn update_coupled_on_off(
        &self,
        level: u8,
        with_on_off: bool,
        on_off: bool,
    ) -> Option<bool>
        ensures { result ≡ coupled_by self.now level with_on_off on_off }
    {
        let settings = &self.settings;
        coupled_on_off(
            with_on_off,
            settings.coupled,
            on_off,
            settings.range.min,
            level,
        )
    }
}
