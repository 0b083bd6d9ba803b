// driver.rs: the six calls. A record goes in by value and comes back by value; the area and the inputs
// are slices; none of the six requires anything of its caller. `reply_in_stages` and `reply_elsewhere` are the two halves of
// `reply`, for a caller that has asked `stage_taken`.
#![tactic(auto)]

ghost use Rattle.std.specs.Prelude.{◌≡◌, true, false, ◌<◌, ◌-◌, ◌*◌, ◌^◌, length};
ghost use Rattle.family.specs.Family.{family_of};
ghost use Rattle.workspace.specs.Vectors.{unpack, vector_count};
ghost use Rattle.driver.specs.Answers.{case_number};
ghost use Rattle.driver.specs.Calls as calls;
ghost use Rattle.driver.specs.Promises.{Meets, Keeps, StandsFor, holding, stage_taken, outcome_of, new_record};

use coefficients::Recurrence;
use family::Family;
use workspace::{Arguments, Vector};

mod checks;
mod position;
mod refusals;
mod replies;

pub use checks::{may_accept, stage_taken};
pub use position::phase_number;
pub use refusals::Refusal;

// How many passes the power iteration makes at most.
pub const MOST_PASSES: u64 = 12;

// Where a record is between two calls.
#[derive(Clone, Copy, Default, PartialEq)]
pub enum Phase {
    #[default]
    Empty,
    First,
    Ready,
    Pass,
    Stage,
    Candidate,
    Finished,
    Callback,
}

// The position among the passes of the power iteration. The scaled radius is known once they end, and 0 until then; `pass`
// is then k. Both stand until the next attempt that is taken.
#[derive(Clone, Copy, Default)]
pub struct Iteration {
    pub pass: u64,
    pub perturbation: f64,
    pub previous_radius: f64,
    pub scaled_radius: f64,
}

// The position among the stages, and what they carry on. How many they are stands until the stages of the next attempt.
#[derive(Clone, Copy, Default)]
pub struct Staging {
    pub stages: u64,
    pub stage: u64,
    pub recurrence: Recurrence,
}

// The step accepted before, if there is one: the Rust's `previous_accepted_step`. The state from which it was taken stands
// last in the area. A flag and the step beside it, since an absent history keeps its step (`without_history`) and the C
// layout has a place for both.
#[derive(Clone, Copy, Default)]
pub struct History {
    pub present: bool,
    pub previous_accepted_step: f64,
}

// The family is the number that the caller gave, which may be none: the calls refuse that with 1, and leave it.
#[derive(Clone, Copy, Default)]
pub struct Record {
    pub family: u64,
    pub n: usize,
    pub phase: Phase,
    pub arguments: Arguments,
    pub iteration: Iteration,
    pub staging: Staging,
    pub history: History,
}

#[derive(Clone, Copy, Default, PartialEq)]
pub struct Counters {
    pub evaluations: u64,
    pub finished_attempts: u64,
}

// What a finished attempt tells: its error norm, how many stages and passes it ran (s and k), and the scaled radius r that
// gave s, as it was before NaN counted as 0.
#[derive(Clone, Copy)]
pub struct Figures {
    pub norm: f64,
    pub stages: u64,
    pub passes: u64,
    pub scaled_radius: f64,
}

// Evaluate the vector of this number at this time; finished with these figures; ready; refused with this number; empty. The
// number and no `Refusal`, since the C interface and the theorems of session, lent and accounts speak of the number.
#[derive(Clone, Copy)]
pub enum Answer {
    Evaluate { time: f64, vector: usize },
    Finished(Figures),
    Ready,
    Refused(u64),
    Empty,
}

// What a call answers, and the record it leaves.
#[derive(Clone, Copy)]
pub struct Next {
    pub answer: Answer,
    pub record: Record,
}

// The same of a reply, which also counts.
#[derive(Clone, Copy)]
pub struct Replied {
    pub answer: Answer,
    pub record: Record,
    pub counters: Counters,
}

// What a reply to a stage's evaluation comes to: the next stage's evaluation at this time and position, or the same where
// of the position only the stage and theta move; after stage s the candidate's at this time, or a candidate that is not finite.
#[derive(Clone, Copy)]
pub enum Staged {
    On { time: f64, staging: Staging },
    OnByTheta { time: f64, stage: u64, theta: f64 },
    Ended { time: f64 },
    NotFinite,
}

// How many stages an attempt runs, or the number that its stage need is refused with: what the definition `stage_need` gives,
// where the code has a Result.
#[derive(Clone, Copy)]
pub enum Need {
    Met(u64),
    Unmet(u64),
}

// A record that was never started: in the empty phase, of no family.
pub fn new_record() -> Record
    ensures { result ≡ new_record }
{
    Record::default()
}

// Keeps the state and calls for its derivative. Allowed in every phase.
pub fn start(
    record: Record,
    area: &mut [f64],
    family: u64,
    n: usize,
    state: &[f64],
    time: f64,
) -> Next
    ensures { Keeps (λ c. calls.start (holding «record» c area.old) family n state.now time) result area.new }
{
    if let Err(refusal) = refusals::of_start(family, n, area, state, time) {
        return record.refused(refusal);
    }
    workspace::put_vector(area, n, Vector::State, state);
    workspace::fill_vector(area, n, Vector::Eigenvector, 0.0);
    let waiting = record.first_at(Phase::First, family, n, time);
    waiting.asks(time, Vector::State)
}

// Steps from the kept state: the first pass of the power iteration. Allowed when ready, and after a finished attempt.
pub fn attempt(record: Record, area: &mut [f64], arguments: Arguments) -> Next
    ensures { Keeps (λ c. calls.attempt (holding «record» c area.old) arguments) result area.new }
{
    if let Err(refusal) = refusals::of_attempt(record, area, arguments) {
        return record.refused(refusal);
    }
    let n = record.n;
    let perturbation = workspace::perturbation(area, n);
    let norm = workspace::choose_direction(area, n);
    let begun = record.at_pass(arguments, 1, perturbation, 0.0);
    replies::ask_pass(begun, area, norm)
}

impl Counters {
    // One more evaluation, and one more finished attempt where the answer says so.
    #[tactic(auto, unfolding(crate::specs::Calls::counted, crate::specs::Answers::case_number))]
    fn after(self, answer: Answer) -> Counters
        requires evaluations_bound { self.evaluations < 2 ^ 64 - 1 }
        requires finished_attempts_bound { case_number answer ≡ 2 → self.finished_attempts < 2 ^ 64 - 1 }
        ensures { result ≡ calls.counted answer self }
    {
        let evaluations = self.evaluations + 1;
        match answer {
            Answer::Finished(_) => Counters {
                evaluations,
                finished_attempts: self.finished_attempts + 1,
            },
            _ => Counters {
                evaluations,
                ..self
            },
        }
    }
}

impl Next {
    // With these counters beside it.
    pub fn with(self, counters: Counters) -> Replied
        ensures { result ≡ record { answer = self.answer; «record» = self.«record»; counters = counters } }
    {
        Replied {
            answer: self.answer,
            record: self.record,
            counters,
        }
    }

    // What a reply that counts as an evaluation comes to.
    fn counted(self, counters: Counters) -> Replied
        requires evaluations_bound { counters.evaluations < 2 ^ 64 - 1 }
        requires finished_attempts_bound { case_number self.answer ≡ 2 → counters.finished_attempts < 2 ^ 64 - 1 }
        ensures { result ≡ record { answer = self.answer; «record» = self.«record»; counters = calls.counted self.answer counters } }
    {
        self.with(counters.after(self.answer))
    }
}

impl Replied {
    // The same without the counters.
    pub fn next(self) -> Next
        ensures { result ≡ record { answer = self.answer; «record» = self.«record» } }
    {
        let Replied { answer, record, .. } = self;
        Next { answer, record }
    }
}

// A reply to a stage's evaluation that passes tests 1 to 9, for a caller that keeps the record where it is: what is handed
// back is what changes.
pub fn reply_in_stages(
    record: Record,
    counters: Counters,
    area: &mut [f64],
    derivative: &[f64],
) -> Staged
    requires { stage_taken «record» counters area.old derivative.now ≡ true }
    ensures { StandsFor (calls.reply (holding «record» counters area.old) derivative.now) «record» counters result
        area.new }
{
    replies::take_stage(record, area, derivative)
}

// Every other reply.
pub fn reply_elsewhere(
    record: Record,
    counters: Counters,
    area: &mut [f64],
    derivative: &[f64],
) -> Replied
    requires { stage_taken «record» counters area.old derivative.now ≡ false }
    ensures { Meets (calls.reply (holding «record» counters area.old) derivative.now) result.answer result.«record» result.counters
        area.new }
{
    if let Err(refusal) = refusals::of_reply(record, counters, area, derivative) {
        return record.refused(refusal).with(counters);
    }
    if !norm::all_finite(derivative) {
        let empty = record.in_phase(Phase::Empty);
        return empty.refused(Refusal::Derivative).counted(counters);
    }
    replies::replied(record, area, derivative).counted(counters)
}

// What a reply to a stage's evaluation stands for.
#[tactic(auto, unfolding(crate::specs::Promises::outcome_of))]
fn outcome_of(record: Record, staged: Staged) -> Next
    ensures { result ≡ outcome_of staged «record» }
{
    match staged {
        Staged::On { time, staging } => record.at_stage(staging).asks(time, Vector::PreviousOne),
        Staged::OnByTheta { time, stage, theta } => {
            let before = record.staging;
            let recurrence = Recurrence {
                theta_previous: theta,
                theta_previous_two: before.recurrence.theta_previous,
                ..before.recurrence
            };
            let staging = Staging {
                stage,
                recurrence,
                ..before
            };
            record.at_stage(staging).asks(time, Vector::PreviousOne)
        }
        Staged::Ended { time } => record
            .in_phase(Phase::Candidate)
            .asks(time, Vector::Candidate),
        Staged::NotFinite => record.in_phase(Phase::Empty).refused(Refusal::Candidate),
    }
}

// Brings the derivative that was asked for.
pub fn reply(record: Record, counters: Counters, area: &mut [f64], derivative: &[f64]) -> Replied
    ensures { Meets (calls.reply (holding «record» counters area.old) derivative.now) result.answer result.«record» result.counters
        area.new }
{
    if !stage_taken(record, counters, area, derivative) {
        return reply_elsewhere(record, counters, area, derivative);
    }
    let staged = reply_in_stages(record, counters, area, derivative);
    outcome_of(record, staged).counted(counters)
}

// The kept state becomes the older one, in a family that keeps it.
#[tactic(auto, unfolding(crate::specs::Calls::with_older, workspace::specs::Vectors::vector_count))]
fn keep_older(record: Record, area: &mut [f64])
    requires { length area.old ≡ vector_count (family_of «record».family) * «record».n }
    ensures { unpack «record».n area.new ≡ calls.with_older (family_of «record».family) (unpack «record».n area.old) }
{
    let n = record.n;
    if Family::from(record.family).keeps_older() {
        workspace::copy_vector(area, n, Vector::State, Vector::OlderState);
    }
}

// After a finished attempt: its candidate and last derivative are where the next attempt begins.
pub fn accept(record: Record, area: &mut [f64]) -> Next
    ensures { Keeps (λ c. calls.accept (holding «record» c area.old)) result area.new }
{
    if let Err(refusal) = refusals::of_accept(record, area) {
        return record.refused(refusal);
    }
    let n = record.n;
    keep_older(record, area);
    workspace::copy_vector(area, n, Vector::LastDerivative, Vector::FirstDerivative);
    workspace::copy_vector(area, n, Vector::Candidate, Vector::State);
    Next {
        answer: Answer::Ready,
        record: record.accepted(),
    }
}

// After a finished attempt: the caller's own state and time are where the next attempt begins.
pub fn accept_with_callback(record: Record, area: &mut [f64], state: &[f64], time: f64) -> Next
    ensures { Keeps (λ c. calls.accept_with_callback (holding «record» c area.old) state.now time) result area.new }
{
    if let Err(refusal) = refusals::of_callback(record, area, state, time) {
        return record.refused(refusal);
    }
    let n = record.n;
    workspace::put_vector(area, n, Vector::State, state);
    let waiting = record.first_at(Phase::Callback, record.family, n, time);
    waiting.asks(time, Vector::State)
}

// Ends the pending evaluation, uncounted, and the history with it.
pub fn abandon(record: Record, area: &[f64]) -> Next
    ensures { Keeps (λ c. calls.abandon (holding «record» c area.now)) result area.now }
{
    if let Err(refusal) = refusals::of_abandon(record, area) {
        return record.refused(refusal);
    }
    Next {
        answer: Answer::Empty,
        record: record.abandoned(),
    }
}
