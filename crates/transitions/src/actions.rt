//! What an event does, in order (docs/RULES.md, Events and answers).
//! Derived from level_control.rs of project-chip/rs-matter 43f61585a4 (see NOTICE), and changed: its calls are actions here.
ghost use Rattle.std.specs.Prelude.{◌≡◌, ◌≤◌, [], ◌++◌, length};
ghost use Rattle.transitions.specs.Actions.{held, held_coupled, held_if};
ghost use Rattle.transitions.specs.Actions.{act};

use std::marker::Model;

/// D asks the device for a level, P stores a changed level, S is the scene's notice, C sends on/off to the coupled
/// cluster, L reports the level, R the remaining time, W waits until a time, E ends in an error, K stores a setting, and
/// X reports the whole cluster and removes its record.
// X, the default, stands first: a list that holds nothing is zeros alone.
#[derive(Clone, Copy, Debug, Default, PartialEq, Eq)]
pub enum ActionKind {
    #[default]
    X,
    D,
    P,
    S,
    C,
    L,
    R,
    W,
    E,
    K,
}

/// The value is the level of D, 0 or 1 of C, the time of W in µs, the number of E, and 0 of the others. The default, X with 0,
/// stands in a slot that is not filled.
// A letter and a value, as the rules have an action and a slot that is not filled.
#[derive(Clone, Copy, Debug, Default, PartialEq, Eq)]
pub struct Action {
    pub kind: ActionKind,
    pub value: u64,
}

/// The actions of an answer, at most seven: an array beside the number filled.
#[derive(Clone, Copy, Debug)]
pub struct Actions {
    slots: [Action; 7],
    count: usize,
}

// The slots that are not filled hold the default, so that the list gives the fields back: what is `Copy` asks for that.
impl Model for Actions {
    ghost use Rattle.std.specs.Prelude.{◌≡◌, ◌≤◌, ◌-◌, List, ◌++◌, length, take, drop};
    ghost use Rattle.std.proofs.Common.{sym, ap, ◌∙◌, length-take-le, take-append-drop};
    ghost use Rattle.transitions.specs.Actions.{free_slots};
    ghost use Rattle.transitions.specs.declared.actions.Action.{Action};

    ghost Value = { List Action };

    ghost view = { λ actions. take actions.count actions.slots };

    ghost invariant = { λ actions. (actions.count ≤ length actions.slots) × (length actions.slots ≡ 7) × (drop actions.count actions.slots ≡ free_slots (7 - actions.count)) };

    ghost inverse = { λ list. record { slots = list ++ free_slots (7 - length list); count = length list } };

    ghost inverse_ok = { λ actions h i. record {
      slots = (
          ap (λ n. take actions.count actions.slots ++ free_slots (7 - n)) (length-take-le actions.count actions.slots h.0)
          ∙ ap (λ l. take actions.count actions.slots ++ l) (sym h.2)
          ∙ take-append-drop actions.count actions.slots
          ) i;
      count = length-take-le actions.count actions.slots h.0 i;
    } };
}

impl Actions {
    /// An empty list.
    pub fn new() -> Self
        ensures { result ≡ [] }
    {
        Actions {
            slots: [Action::default(); 7],
            count: 0,
        }
    }

    /// Empties the list.
    pub fn clear(&mut self)
        ensures { self.new ≡ [] }
    {
        *self = Actions::new();
    }

    /// Adds an action. A full list leaves it out; no event gives more than seven (`every_event_holds`).
    #[tactic(auto, using(crate::proofs::ActionLaws::full))]
    pub fn push(&mut self, kind: ActionKind, value: u64)
        ensures { self.new ≡ held (self.old ++ act kind value) }
    {
        if self.count < self.slots.len() {
            self.slots[self.count] = Action { kind, value };
            self.count += 1;
        }
    }

    /// Adds an action with no value, where a test holds.
    pub fn push_if(&mut self, test: bool, kind: ActionKind)
        ensures { self.new ≡ held_if test kind self.old }
    {
        if test {
            self.push(kind, 0);
        }
    }

    /// Adds C, where an on/off value is sent.
    pub fn push_coupling(&mut self, on_off: Option<bool>)
        ensures { self.new ≡ held_coupled on_off self.old }
    {
        if let Some(on) = on_off {
            self.push(ActionKind::C, u64::from(on));
        }
    }

    /// Its actions, in order.
    pub fn as_slice(&self) -> &[Action]
        ensures all { result.now ≡ self.now }
        ensures within { length result.now ≤ 7 }
    {
        &self.slots[..self.count]
    }
}
