// The record and the answer as they are lent to C: whole numbers and doubles, read and written in place.
#![tactic(auto)]

ghost use Rattle.std.specs.Prelude.{◌≡◌};
ghost use Rattle.driver.specs.declared.Staged.TheVariants.{On, OnByTheta, Ended, NotFinite};
ghost use Rattle.driver.specs.Calls.{no_figures};
ghost use Rattle.lent.specs.Numbers as numbers;
ghost use Rattle.lent.specs.Lent.{arguments_in, iteration_in, polynomials_in, staging_in, history_in, lent, place_of, left_with};
ghost use Rattle.lent.specs.Lent.{staged_outcome};

use coefficients::{Polynomials, Recurrence};
use driver::{History, Iteration, Next, Phase, Record, Refusal, Staged, Staging};
use workspace::{Arguments, Vector};

// How many whole numbers and how many doubles the record is lent as.
pub const WHOLES: usize = 8;

pub const DOUBLES: usize = 21;

// The codes of an answer.
const EVALUATE: u64 = 1;

const FINISHED: u64 = 2;

const READY: u64 = 3;

const REFUSED: u64 = 4;

const EMPTY: u64 = 5;

// The phases that a reply to a stage's evaluation leaves: driver's numbers, at no cost there.
const STAGE_PHASE: u64 = Phase::Stage as u64;

const CANDIDATE_PHASE: u64 = Phase::Candidate as u64;

const EMPTY_PHASE: u64 = Phase::Empty as u64;

// Evaluate (code 1) vector `number` at `time`; finished (2) with `norm`, `stages`, `passes` and `scaled_radius`; ready (3);
// refused (4) with `number`; empty (5). What an answer does not carry is 0.
#[repr(C)]
#[derive(Clone, Copy)]
pub struct Answer {
    pub code: u64,
    pub number: u64,
    pub norm: f64,
    pub stages: u64,
    pub passes: u64,
    pub scaled_radius: f64,
    pub time: f64,
}

// By driver's numbers. A number above 7 is a phase in which only start is allowed: what a number of the caller's means is said
// here and not in driver, where a `From` would have to stand.
#[tactic(auto, unfolding(crate::specs::Numbers::phase_of))]
fn phase_of(number: u64) -> Phase
    ensures { result ≡ numbers.phase_of number }
{
    match number {
        1 => Phase::First,
        2 => Phase::Ready,
        3 => Phase::Pass,
        4 => Phase::Stage,
        5 => Phase::Candidate,
        6 => Phase::Finished,
        7 => Phase::Callback,
        _ => Phase::Empty,
    }
}

// The arguments that driver's attempt is given. `adaptive` is a no at 0, else a yes.
#[tactic(auto, unfolding(crate::specs::Numbers::brought))]
pub fn brought(
    time: f64,
    step: f64,
    absolute_tolerance: f64,
    relative_tolerance: f64,
    adaptive: u64,
) -> Arguments
    ensures { result ≡ numbers.brought time step absolute_tolerance relative_tolerance adaptive }
{
    Arguments {
        time,
        step,
        absolute_tolerance,
        relative_tolerance,
        adaptive: adaptive != 0,
    }
}

// ---- the answer

fn without_figures(code: u64, number: u64, time: f64) -> Answer
    ensures { result ≡ numbers.told code number time no_figures }
{
    Answer {
        code,
        number,
        time,
        norm: 0.0,
        stages: 0,
        passes: 0,
        scaled_radius: 0.0,
    }
}

impl From<driver::Answer> for Answer {
    #[tactic(auto, unfolding(driver::specs::Answers::case_number, driver::specs::Calls::figures_in, crate::specs::Numbers::number_in, crate::specs::Numbers::time_in))]
    fn from(answer: driver::Answer) -> Answer
        ensures { result ≡ numbers.in_numbers answer }
    {
        match answer {
            driver::Answer::Evaluate { time, vector } => without_figures(
                EVALUATE,
                vector as u64,
                time,
            ),
            driver::Answer::Finished(figures) => Answer {
                code: FINISHED,
                number: 0,
                time: 0.0,
                norm: figures.norm,
                stages: figures.stages,
                passes: figures.passes,
                scaled_radius: figures.scaled_radius,
            },
            driver::Answer::Ready => without_figures(READY, 0, 0.0),
            driver::Answer::Refused(number) => without_figures(REFUSED, number, 0.0),
            driver::Answer::Empty => without_figures(EMPTY, 0, 0.0),
        }
    }
}

// Refused with 1 to 8: the record stands.
#[tactic(auto, unfolding(crate::specs::Numbers::stands))]
fn stands(answer: Answer) -> bool
    ensures { result ≡ numbers.stands answer }
{
    matches!(
        answer,
        Answer {
            code: REFUSED,
            number: 1..=8,
            ..
        }
    )
}

// ---- reading, in the order of specs/Lent, a part at a time

fn read_arguments(wholes: &[u64; WHOLES], doubles: &[f64; DOUBLES]) -> Arguments
    ensures { result ≡ numbers.as_brought (arguments_in wholes.now doubles.now) }
{
    brought(doubles[0], doubles[1], doubles[3], doubles[5], wholes[3])
}

fn read_iteration(wholes: &[u64; WHOLES], doubles: &[f64; DOUBLES]) -> Iteration
    ensures { result ≡ iteration_in wholes.now doubles.now }
{
    Iteration {
        pass: wholes[4],
        perturbation: doubles[7],
        previous_radius: doubles[9],
        scaled_radius: doubles[11],
    }
}

fn read_polynomials(doubles: &[f64; DOUBLES]) -> Polynomials
    ensures { result ≡ polynomials_in doubles.now }
{
    Polynomials {
        omega_zero: doubles[18],
        omega_one: doubles[14],
        b_previous: doubles[13],
        b_previous_two: doubles[16],
        value_previous: doubles[2],
        value_previous_two: doubles[8],
        first_previous: doubles[4],
        first_previous_two: doubles[10],
        second_previous: doubles[6],
        second_previous_two: doubles[12],
        gain: doubles[19],
    }
}

fn read_staging(wholes: &[u64; WHOLES], doubles: &[f64; DOUBLES]) -> Staging
    ensures { result ≡ staging_in wholes.now doubles.now }
{
    Staging {
        stages: wholes[5],
        stage: wholes[6],
        recurrence: Recurrence {
            theta_previous: doubles[15],
            theta_previous_two: doubles[17],
            polynomials: read_polynomials(doubles),
        },
    }
}

// A history is a no at 0, else a yes.
fn read_history(wholes: &[u64; WHOLES], doubles: &[f64; DOUBLES]) -> History
    ensures { result ≡ numbers.as_remembered (history_in wholes.now doubles.now) }
{
    History {
        present: wholes[7] != 0,
        previous_accepted_step: doubles[20],
    }
}

// The record that driver's calls are handed.
#[tactic(auto, unfolding(crate::specs::Numbers::meaning))]
pub fn read(wholes: &[u64; WHOLES], doubles: &[f64; DOUBLES]) -> Record
    ensures { result ≡ numbers.meaning (lent wholes.now doubles.now) }
{
    Record {
        family: wholes[0],
        n: wholes[1] as usize,
        phase: phase_of(wholes[2]),
        arguments: read_arguments(wholes, doubles),
        iteration: read_iteration(wholes, doubles),
        staging: read_staging(wholes, doubles),
        history: read_history(wholes, doubles),
    }
}

// What `stage_taken` asks of the record. The rest is read after that test, by the stage's reply and by any other each for
// itself, so that neither waits for what only the other needs.
pub fn place(wholes: &[u64; WHOLES]) -> Record
    ensures { result ≡ place_of wholes.now }
{
    let none = driver::new_record();
    Record {
        family: wholes[0],
        n: wholes[1] as usize,
        phase: phase_of(wholes[2]),
        staging: Staging {
            stages: wholes[5],
            stage: wholes[6],
            ..none.staging
        },
        ..none
    }
}

// ---- leaving

// The number of a history, of which `found` was the number before: it stands where it means the same.
#[tactic(auto, unfolding(crate::specs::Numbers::history_number))]
fn history_number(found: u64, present: bool) -> u64
    ensures { result ≡ numbers.history_number found present }
{
    if present { found.max(1) } else { 0 }
}

// Writes the whole record.
#[tactic(auto, unfolding(crate::specs::Numbers::written))]
fn write(wholes: &mut [u64; WHOLES], doubles: &mut [f64; DOUBLES], adaptive: u64, r: Record)
    ensures { lent wholes.new doubles.new ≡ numbers.written adaptive (lent wholes.old doubles.old).history.present r }
{
    let c = r.staging.recurrence;
    let p = c.polynomials;
    *wholes = [
        r.family,
        r.n as u64,
        driver::phase_number(r.phase),
        adaptive,
        r.iteration.pass,
        r.staging.stages,
        r.staging.stage,
        history_number(wholes[7], r.history.present),
    ];
    *doubles = [
        r.arguments.time,
        r.arguments.step,
        p.value_previous,
        r.arguments.absolute_tolerance,
        p.first_previous,
        r.arguments.relative_tolerance,
        p.second_previous,
        r.iteration.perturbation,
        p.value_previous_two,
        r.iteration.previous_radius,
        p.first_previous_two,
        r.iteration.scaled_radius,
        p.second_previous_two,
        p.b_previous,
        p.omega_one,
        c.theta_previous,
        p.b_previous_two,
        c.theta_previous_two,
        p.omega_zero,
        p.gain,
        r.history.previous_accepted_step,
    ];
}

// Leaves what driver's call handed back, with this number for `adaptive`, and answers.
#[tactic(auto, unfolding(crate::specs::Numbers::handed_back))]
pub fn leave_with(
    wholes: &mut [u64; WHOLES],
    doubles: &mut [f64; DOUBLES],
    adaptive: u64,
    next: Next,
) -> Answer
    ensures { left_with result wholes.new doubles.new ≡ numbers.handed_back (lent wholes.old doubles.old) adaptive
        (numbers.in_numbers next.answer) next.«record» }
{
    let given = Answer::from(next.answer);
    if !stands(given) {
        write(wholes, doubles, adaptive, next.record);
    }
    given
}

// The same, with the number for `adaptive` that was found.
pub fn leave(wholes: &mut [u64; WHOLES], doubles: &mut [f64; DOUBLES], next: Next) -> Answer
    ensures { left_with result wholes.new doubles.new ≡ numbers.handed_back (lent wholes.old doubles.old)
        (lent wholes.old doubles.old).arguments.adaptive (numbers.in_numbers next.answer) next.«record» }
{
    let adaptive = wholes[3];
    leave_with(wholes, doubles, adaptive, next)
}

// The next stage's evaluation at this time and position. All else of the record stands, and is not written back.
fn ask_stage(
    wholes: &mut [u64; WHOLES],
    doubles: &mut [f64; DOUBLES],
    time: f64,
    staging: Staging,
) -> Answer
    ensures { left_with result wholes.new doubles.new ≡ staged_outcome (lent wholes.old doubles.old)
        (On time staging) }
{
    let answer = without_figures(EVALUATE, Vector::PreviousOne as u64, time);
    let c = staging.recurrence;
    let p = c.polynomials;
    wholes[2] = STAGE_PHASE;
    wholes[5] = staging.stages;
    wholes[6] = staging.stage;
    doubles[2] = p.value_previous;
    doubles[4] = p.first_previous;
    doubles[6] = p.second_previous;
    doubles[8] = p.value_previous_two;
    doubles[10] = p.first_previous_two;
    doubles[12] = p.second_previous_two;
    doubles[13] = p.b_previous;
    doubles[14] = p.omega_one;
    doubles[15] = c.theta_previous;
    doubles[16] = p.b_previous_two;
    doubles[17] = c.theta_previous_two;
    doubles[18] = p.omega_zero;
    doubles[19] = p.gain;
    answer
}

// The same where of the position only the stage and theta move.
fn ask_stage_by_theta(
    wholes: &mut [u64; WHOLES],
    doubles: &mut [f64; DOUBLES],
    time: f64,
    stage: u64,
    theta: f64,
) -> Answer
    ensures { left_with result wholes.new doubles.new ≡ staged_outcome (lent wholes.old doubles.old)
        (OnByTheta time stage theta) }
{
    let answer = without_figures(EVALUATE, Vector::PreviousOne as u64, time);
    wholes[2] = STAGE_PHASE;
    wholes[6] = stage;
    doubles[17] = doubles[15];
    doubles[15] = theta;
    answer
}

// The candidate's evaluation at this time. Only the phase is written.
fn ask_candidate(wholes: &mut [u64; WHOLES], doubles: &[f64; DOUBLES], time: f64) -> Answer
    ensures { left_with result wholes.new doubles.now
        ≡ staged_outcome (lent wholes.old doubles.now) (Ended time) }
{
    let answer = without_figures(EVALUATE, Vector::Candidate as u64, time);
    wholes[2] = CANDIDATE_PHASE;
    answer
}

// A candidate that is not finite: the phase is emptied.
fn refuse_candidate(wholes: &mut [u64; WHOLES], doubles: &[f64; DOUBLES]) -> Answer
    ensures { left_with result wholes.new doubles.now ≡ staged_outcome (lent wholes.old doubles.now) NotFinite }
{
    let answer = without_figures(REFUSED, u64::from(Refusal::Candidate), 0.0);
    wholes[2] = EMPTY_PHASE;
    answer
}

// Leaves what a reply to a stage's evaluation comes to, and answers.
pub fn leave_staged(
    wholes: &mut [u64; WHOLES],
    doubles: &mut [f64; DOUBLES],
    staged: Staged,
) -> Answer
    ensures { left_with result wholes.new doubles.new ≡ staged_outcome (lent wholes.old doubles.old) staged }
{
    match staged {
        Staged::On { time, staging } => ask_stage(wholes, doubles, time, staging),
        Staged::OnByTheta { time, stage, theta } => {
            ask_stage_by_theta(wholes, doubles, time, stage, theta)
        }
        Staged::Ended { time } => ask_candidate(wholes, doubles, time),
        Staged::NotFinite => refuse_candidate(wholes, doubles),
    }
}
