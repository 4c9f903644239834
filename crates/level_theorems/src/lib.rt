//! The page of theorems about the machine, each held by a function's contract: there is nothing to run. What every event
//! gives, field by field and letter by letter, is `every_field_holds` of event_theorems.
#![tactic(auto)]

ghost use Rattle.level_theorems.specs.EveryEvent.{EveryEvent};
ghost use Rattle.level_theorems.specs.FadeTheorems.{AnswersAccepted, ComesToRest, EveryFadeCovered, ExactKey, LeavesTask, NoFadeLeftOut, OnwardSince, PathIs, ReactionsCovered, TaskAgrees, Uninterrupted, UninterruptedLists, WaitsEnd, WakesAccepted};
ghost use Rattle.level_theorems.specs.Instances.{Instances};
ghost use Rattle.level_theorems.specs.Keys.{Keys};
ghost use Rattle.level_theorems.specs.Runs.{InReached};
ghost use Rattle.level_control.specs.EveryFade.{EveryFade};

/// Every event, in every state. Refused ones change nothing, the number is that of the first cause, the actions are at most
/// seven and stand in the order of the table (Events and answers); and where times, waits and levels come from.
#[tactic(auto, using(crate::proofs::EveryEventLaws::every_event))]
pub fn every_event_holds()
    ensures { EveryEvent }
{}

/// Every fade: what one of at least 1 tenth shows, after every list of events after its start.
#[tactic(auto, using(level_control::proofs::EveryFade::every_fade))]
pub fn every_fade_holds()
    ensures { EveryFade }
{}

/// From c to t lead n levels; the i-th is i above c, or below it, and the last is t.
pub fn path_leads()
    ensures { PathIs }
{}

/// No fade is left out: an accepted event starts the fade that the table of starts names (Every fade); where it names none, no
/// fade runs after the event but the one that ran before, gone on or left as it was.
pub fn every_fade_is_covered()
    ensures { EveryFadeCovered }
{}

/// An on reaction comes only from on, and keeps the level that it found.
#[tactic(auto, using(crate::proofs::ReactionsCovered::reactions_covered))]
pub fn reactions_are_covered()
    ensures { ReactionsCovered }
{}

/// In every reached state the settings are those that it is reached from; and until an event is accepted it is the state that
/// they give.
#[tactic(auto, using(crate::proofs::RunsHold::in_reached))]
pub fn reached_states_keep()
    ensures { InReached }
{}

/// No fade is left out of a run: in every reached state in which a fade runs, one of the five starts stands in the list of events
/// that led to it, and what was accepted since was of the fade, or left it as it was.
pub fn no_fade_is_left_out()
    ensures { NoFadeLeftOut }
{}

/// What is said there to leave a task as it was does, whatever the task.
pub fn tasks_are_left()
    ensures { LeavesTask }
{}

/// And where nothing of the last kind was accepted, the events since are of those that Every fade speaks of.
pub fn runs_are_onward()
    ensures { OnwardSince }
{}

/// The remaining time of such a fade to the tenth, for every k; before the first answer it is what was shown before the fade.
#[tactic(auto, using(crate::proofs::ExactKey::exact_key))]
pub fn exact_key_holds()
    ensures { ExactKey }
{}

/// What is seen of such a fade to be open, a request or a wait, is what the task keeps.
#[tactic(auto, using(crate::proofs::TaskAgrees::task_agrees))]
pub fn task_agrees()
    ensures { TaskAgrees }
{}

/// Progress: with a request open, an answer in time is accepted.
#[tactic(auto, using(crate::proofs::Acceptance::answers_accepted))]
pub fn answers_are_accepted()
    ensures { AnswersAccepted }
{}

/// Progress: while a fade or a move waits, a wake that is due is accepted.
#[tactic(auto, using(crate::proofs::Acceptance::wakes_accepted))]
pub fn wakes_are_accepted()
    ensures { WakesAccepted }
{}

/// Progress: every fade of at least 1 tenth comes to rest after n answers, whatever levels the device answers and however
/// late, by 2^62 − 1.
pub fn every_fade_comes_to_rest()
    ensures { ComesToRest }
{}

/// Progress: its waits end by then if the start, the device's delays and the fade's time add up to at most 2^62 − 1.
#[tactic(auto, using(crate::proofs::WaitsEnd::waits_end))]
pub fn waits_end()
    ensures { WaitsEnd }
{}

/// A list of which only answers with a level and wakes are accepted leaves a fade uninterrupted.
#[tactic(auto, using(crate::proofs::Uninterrupted::uninterrupted_holds))]
pub fn onward_is_uninterrupted()
    ensures { Uninterrupted }
{}

/// And the other way round: up to a fade's end the uninterrupted lists whose accepted answers have levels are lists of the claim.
#[tactic(auto, using(crate::proofs::Uninterrupted::uninterrupted_lists))]
pub fn uninterrupted_is_onward()
    ensures { UninterruptedLists }
{}

/// The claim is not empty: a play for each of the five starts, with a refused event, a late answer and a device that answers
/// other levels.
#[tactic(auto, using(crate::proofs::PlayedInstances::instances))]
pub fn instances_hold()
    ensures { Instances }
{}

/// Keys: every question of the table has the key that stands beside it; it has the rows of the twelve questions, and no other.
#[tactic(auto, using(crate::proofs::KeyLaws::keys_hold))]
pub fn keys_hold()
    ensures { Keys }
{}
