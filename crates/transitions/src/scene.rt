//! Which level a scene recalls (the search of the source's apply). Its time is `Millis::to_tenths_floor_saturating`.
//! Derived from level_control.rs of project-chip/rs-matter 43f61585a4 (see NOTICE), and changed.
ghost use Rattle.std.specs.Prelude.{◌≡◌, ◌&&◌, find, nat_eq, nat_le, option_map, zip};
ghost use Rattle.transitions.specs.Scene.{scene_level};
ghost use Rattle.transitions.specs.Types.{level_values};

use crate::types::Level;

/// The pairs of two lent slices, up to the shorter length; a value above 255 stands for none.
#[tactic(auto, unfolding(crate::specs::Scene::scene_level))]
pub fn scene_level(ids: &[u32], values: &[u16]) -> Level
    ensures value { result ≡ scene_level ids.now values.now }
    ensures values { level_values result ≡ level_values (option_map (λ pair. pair.1)
        (find (λ pair. nat_eq pair.0 0 && nat_le pair.1 255) (zip ids.now values.now))) }
{
    let (Some((id, ids)), Some((value, values))) = (ids.split_first(), values.split_first()) else {
        return None;
    };
    match u8::try_from(*value) {
        Ok(level) if *id == 0 => Some(level),
        _ => scene_level(ids, values),
    }
}
