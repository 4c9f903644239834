//! The rules of the level side that need no state.
//! Derived from `LevelControlHandler` of project-chip/rs-matter 43f61585a4 (Apache-2.0, see NOTICE), and changed:
//! each rule is a function of its own, proved to equal a definition of specs/.
#![tactic(auto)]

pub mod actions;
pub mod causes;
pub mod commands;
pub mod coupling;
pub mod current_level;
pub mod events;
pub mod fade;
pub mod move_period;
pub mod options;
pub mod remaining_time;
pub mod scene;
pub mod settings;
pub mod tasks;
pub mod theorems;
pub mod types;
