//! What a running task keeps, and how it begins and goes on (the source's Task, its timers and its loops).
//! Derived from level_control.rs of project-chip/rs-matter 43f61585a4 (see NOTICE), and changed.
ghost use Rattle.std.specs.Prelude.{◌≡◌, ◌+◌, ◌-◌, ◌*◌, min, [], ◌∷◌, if◌then◌else◌, is_some, nat_eq, nat_le, unwrap_or};
ghost use Rattle.transitions.specs.Fade.{waits};
ghost use Rattle.transitions.specs.Tasks.{asked_values, at_limit, begin_fade, begin_number, begin_values, begun_values, due_wait, fade_asking, fade_from, fade_last, fade_left, fade_next, fade_start, fade_waiting, is_move_end, level_to_put_back, move_asking, move_step_number, move_step_requests, move_waiting, next_move, one_on, open_request, request_number, request_values, task_due, task_open, wait_number, wait_values, waiting_values};
ghost use Rattle.transitions.specs.Types.{level_values};

use crate::fade::{fade_period, is_transition_start, next_level, remaining_after, wait_or_ask};
use crate::types::{Level, LevelRange, Mode};
use units::{Micros, Millis, Tenths};

/// A request is open since a time, or the next one waits until a time.
#[derive(Clone, Copy, Debug, PartialEq, Eq)]
pub enum Phase {
    Asked { since: Micros },
    Waiting { until: Micros },
}

/// A fade to a target: the source's move_to_level_transition.
#[derive(Clone, Copy, Debug, PartialEq, Eq)]
pub struct Fade {
    pub target: u8,
    /// The level asked for last. It moves by one, whatever level the device gives back.
    pub counter: u8,
    pub transition_time: Tenths,
    pub remaining: Millis,
    pub period: Millis,
    pub with_on_off: bool,
    pub scene_apply: bool,
    /// The level that is put back when the fade has ended: the one before off.
    pub put_back: Option<u8>,
    pub phase: Phase,
}

/// Which way a move goes, how fast, and whether with on/off.
#[derive(Clone, Copy, Debug, PartialEq, Eq)]
pub struct Motion {
    pub mode: Mode,
    pub period: Micros,
    pub with_on_off: bool,
}

/// A move at a rate: the source's move_transition.
#[derive(Clone, Copy, Debug, PartialEq, Eq)]
pub struct Move {
    pub motion: Motion,
    pub asked: u8,
    pub phase: Phase,
}

/// The reaction to on, while its request for MIN is open. It keeps the level before.
#[derive(Clone, Copy, Debug, PartialEq, Eq)]
pub struct OnReaction {
    pub before: Level,
}

#[derive(Clone, Copy, Debug, PartialEq, Eq)]
pub enum Task {
    Rest,
    StartUp,
    Fade(Fade),
    Move(Move),
    OnReaction(OnReaction),
}

/// Whose request to the device is open; of a fade and a move also since when, as their phases say in one of two cases.
#[derive(Clone, Copy, Debug, PartialEq, Eq)]
pub enum Request {
    StartUp,
    Fade(Fade, Micros),
    Move(Move, Micros),
    OnReaction(OnReaction),
}

/// Whose wait is over.
#[derive(Clone, Copy, Debug, PartialEq, Eq)]
pub enum Wait {
    Fade(Fade),
    Move(Motion),
}

/// What is asked of a fade that is to begin.
#[derive(Clone, Copy, Debug, PartialEq, Eq)]
pub struct FadeRequest {
    pub target: u8,
    pub transition_time: Tenths,
    pub with_on_off: bool,
    pub scene_apply: bool,
    /// Whether the level before is put back when the fade has ended.
    pub puts_back: bool,
}

/// How a fade begins: at its target already, from no level, or with a first request.
// Two cases have no value, here and below: an `Option` would name neither.
#[derive(Clone, Copy, Debug, PartialEq, Eq)]
pub enum Begin {
    Reached,
    Lost,
    Starts(Fade),
}

/// How a move goes on: from no level, past 0 or 255, or with a request.
#[derive(Clone, Copy, Debug, PartialEq, Eq)]
pub enum MoveStep {
    Lost,
    Ends,
    Asks(u8),
}

// A fade and a move keep different values: what is said of both, here and below, is shorter than a trait.
impl Task {
    /// The request to the device that is open.
    pub fn open_request(self) -> Option<Request>
        ensures value { result ≡ open_request self }
        ensures number { request_number result ≡ (if task_open self then 0 else 7) }
        ensures values { request_values result ≡ asked_values self }
    {
        match self {
            Task::StartUp => Some(Request::StartUp),
            Task::OnReaction(reaction) => Some(Request::OnReaction(reaction)),
            Task::Fade(fade) if let Phase::Asked { since } = fade.phase => {
                Some(Request::Fade(fade, since))
            }
            Task::Move(moving) if let Phase::Asked { since } = moving.phase => {
                Some(Request::Move(moving, since))
            }
            _ => None,
        }
    }

    /// The wait that is over by now.
    pub fn due_wait(self, now: Micros) -> Option<Wait>
        ensures value { result ≡ due_wait self now }
        ensures number { wait_number result ≡ (if task_due self now then 0 else 8) }
        ensures values { wait_values result ≡ (if task_due self now then waiting_values self else []) }
    {
        match self {
            Task::Fade(fade) if let Phase::Waiting { until } = fade.phase && until <= now => {
                Some(Wait::Fade(fade))
            }
            Task::Move(moving) if let Phase::Waiting { until } = moving.phase && until <= now => {
                Some(Wait::Move(moving.motion))
            }
            _ => None,
        }
    }
}

impl Fade {
    /// Whether the request that is open is the last.
    pub fn is_last(self) -> bool
        ensures { result ≡ fade_last self }
    {
        self.counter == self.target
    }

    /// Whether its answer counts as the start.
    pub fn is_start(self) -> bool
        ensures { result ≡ fade_start self }
    {
        is_transition_start(self.remaining, self.transition_time)
    }

    /// The unrounded remaining time after the answer to that request; 0 where the period is longer than what remains.
    pub fn left(self) -> Millis
        ensures { result ≡ fade_left self }
    {
        remaining_after(self.remaining, self.period, self.is_last())
    }

    /// Until when the next request is waited for after that answer, as `wait_or_ask`; None where it is made at once.
    pub fn next(self, asked: Micros, answered: Micros) -> Option<Micros>
        ensures value { result ≡ fade_next self asked answered }
        ensures values { waits result
            ≡ (if nat_le (answered.0 - asked.0) (1000 * self.period.0)
            then min u64.MAX (asked.0 + 1000 * self.period.0) ∷ [] else []) }
    {
        wait_or_ask(asked, answered, self.period.to_micros())
    }

    /// With its next request open.
    #[tactic(auto, unfolding(crate::specs::Tasks::fade_asking))]
    pub fn asking(self, remaining: Millis, now: Micros) -> Fade
        ensures { result ≡ fade_asking self remaining now }
    {
        Fade {
            counter: next_level(self.counter, self.target, self.transition_time),
            remaining,
            phase: Phase::Asked { since: now },
            ..self
        }
    }

    /// With its next request waited for.
    #[tactic(auto, unfolding(crate::specs::Tasks::fade_waiting))]
    pub fn waiting(self, remaining: Millis, until: Micros) -> Fade
        ensures { result ≡ fade_waiting self remaining until }
    {
        Fade {
            remaining,
            phase: Phase::Waiting { until },
            ..self
        }
    }
}

impl Motion {
    /// With a request open.
    pub fn asking(self, asked: u8, now: Micros) -> Move
        ensures { result ≡ move_asking self asked now }
    {
        Move {
            motion: self,
            asked,
            phase: Phase::Asked { since: now },
        }
    }
}

impl Move {
    /// With its next request waited for.
    pub fn waiting(self, until: Micros) -> Move
        ensures { result ≡ move_waiting self until }
    {
        Move {
            phase: Phase::Waiting { until },
            ..self
        }
    }
}

/// Which level is put back when a fade has ended: none where an on level is known by then.
#[tactic(auto, unfolding(crate::specs::Tasks::level_to_put_back))]
pub fn level_to_put_back(put_back: Option<u8>, on_level: Level) -> Level
    ensures value { result ≡ level_to_put_back put_back on_level }
    ensures values { level_values result ≡ (if is_some on_level then [] else level_values put_back) }
{
    match on_level {
        Some(_) => None,
        None => put_back,
    }
}

/// A fade from a level, with its first request open. From its target, where none begins, its period is 0.
#[tactic(auto, unfolding(crate::specs::Tasks::fade_from))]
pub fn fade_from(level: u8, request: FadeRequest, now: Micros) -> Fade
    ensures { result ≡ fade_from level request now }
{
    let time = request.transition_time;
    Fade {
        target: request.target,
        counter: next_level(level, request.target, time),
        transition_time: time,
        remaining: time.to_millis(),
        period: fade_period(time, request.target.abs_diff(level)),
        with_on_off: request.with_on_off,
        scene_apply: request.scene_apply,
        put_back: request.puts_back.then_some(level),
        phase: Phase::Asked { since: now },
    }
}

/// How a fade that is asked for begins.
#[tactic(auto, unfolding(crate::specs::Tasks::begin_fade, crate::specs::Tasks::fade_from, crate::specs::Fade::next_level, crate::specs::Fade::fade_period))]
pub fn begin_fade(level: Level, request: FadeRequest, now: Micros) -> Begin
    ensures value { result ≡ begin_fade level request now }
    ensures number { begin_number result ≡ (if is_some level then 0 else 11) }
    ensures values { let from = unwrap_or level request.target in begin_values result
        ≡ (if nat_eq from request.target then [] else begun_values from request now) }
{
    match level {
        None => Begin::Lost,
        Some(from) if from == request.target => Begin::Reached,
        Some(from) => Begin::Starts(fade_from(from, request, now)),
    }
}

/// The level that a move asks for from the stored one.
#[tactic(auto, unfolding(crate::specs::Tasks::next_move))]
pub fn next_move(level: Level, mode: Mode) -> MoveStep
    ensures value { result ≡ next_move level mode }
    ensures number { move_step_number result ≡ (if is_some level then 0 else 11) }
    ensures values { move_step_requests result
        ≡ (if is_some level then one_on mode (unwrap_or level 0) else []) }
{
    let Some(from) = level else {
        return MoveStep::Lost;
    };
    let next = match mode {
        Mode::Up => from.checked_add(1),
        Mode::Down => from.checked_sub(1),
    };
    match next {
        Some(asked) => MoveStep::Asks(asked),
        None => MoveStep::Ends,
    }
}

/// A move ends where the level that it asked for is MIN or MAX, in either direction.
pub fn is_move_end(asked: u8, range: LevelRange) -> bool
    ensures { result ≡ is_move_end asked range.min range.max }
{
    asked == range.min || asked == range.max
}

/// At its limit, and no further, a move does nothing.
#[tactic(auto, unfolding(crate::specs::Tasks::at_limit))]
pub fn at_limit(level: Level, mode: Mode, range: LevelRange) -> bool
    ensures { result ≡ at_limit level mode range.min range.max }
{
    match mode {
        Mode::Up => level == Some(range.max),
        Mode::Down => level == Some(range.min),
    }
}
