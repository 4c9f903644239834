//! What is sent to the coupled On/Off cluster (the source's update_coupled_on_off).
//! Derived from level_control.rs of project-chip/rs-matter 43f61585a4 (see NOTICE), and changed.
ghost use Rattle.std.specs.Prelude.{◌≡◌, ◌&&◌, not, [], ◌∷◌, if◌then◌else◌, nat_le, nat_lt};
ghost use Rattle.transitions.specs.Coupling.{coupled_on_off, coupled_values};

/// The on/off value that is sent, if one is.
#[tactic(auto, unfolding(crate::specs::Coupling::coupled_on_off))]
pub fn coupled_on_off(
    with_on_off: bool,
    coupled: bool,
    on_off: bool,
    min_level: u8,
    level: u8,
) -> Option<bool>
    ensures value { result ≡ coupled_on_off with_on_off coupled on_off min_level level }
    ensures values { coupled_values result
        ≡ (if with_on_off && coupled && nat_lt min_level level && not on_off then 1 ∷ []
        else if with_on_off && coupled && nat_le level min_level && on_off then 0 ∷ [] else []) }
{
    let wanted = min_level < level;
    (with_on_off && coupled && wanted != on_off).then_some(wanted)
}
