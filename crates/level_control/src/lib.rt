//! The level side of the Level Control cluster as a machine: a state and an event give an answer, which holds the next state.
//! Derived from `LevelControlHandler` of project-chip/rs-matter 43f61585a4 (Apache-2.0, see NOTICE), and changed: its async
//! tasks are values kept in the state, its hooks are settings and answer events, and every function is proved.
#![tactic(auto)]

pub mod answer;
mod asking;
pub mod causes;
mod coupling;
mod errors;
mod fades;
pub mod handle;
mod judge;
pub mod kinds;
mod moves;
mod reactions;
mod reports;
mod start_up;
pub mod state;
pub mod targets;
pub mod theorems;
mod updates;
