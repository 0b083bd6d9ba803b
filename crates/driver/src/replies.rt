// A derivative that no test up to 9 refuses: what it does in each phase, and what is asked next.
// Record, area and derivative go as three: in a struct each function would owe that they suit one another, as it asks here.
ghost use Rattle.std.specs.Prelude.{◌≡◌, true, false, ◌||◌, ◌+◌, ◌*◌, ◌≤◌, ◌<◌, ◌^◌, eqb, length};
ghost use Rattle.family.specs.Family.{family_of};
ghost use Rattle.workspace.specs.Vectors.{Vectors, vector_count, unpack, eigenvector, vector_norm};
ghost use Rattle.workspace.specs.Kernel.{ended};
ghost use Rattle.coefficients.specs.declared.Coefficients.{Coefficients};
ghost use Rattle.coefficients.specs.Rows.{next};
ghost use Rattle.driver.specs.declared.Record.{Record};
ghost use Rattle.driver.specs.declared.Need.TheVariants.{Met};
ghost use Rattle.driver.specs.declared.Staged.TheVariants.{On};
ghost use Rattle.driver.specs.Calls as calls;
ghost use Rattle.driver.specs.Promises.{Steps, need, in_stages, outcome_of};

use crate::{Answer, MOST_PASSES, Next, Phase, Record, Refusal, Staged, Staging};
use family::{RowForm, Setting};
use workspace::Vector;

// The derivative of the kept state.
#[tactic(auto, unfolding(crate::specs::Calls::take_first))]
fn take_first(record: Record, area: &mut [f64], derivative: &[f64]) -> Next
    requires record_in_bounds { 11 * «record».n ≤ length area.old }
    requires derivative_len { length derivative.now ≡ «record».n }
    ensures { Steps (calls.take_first «record» (unpack «record».n area.old) derivative.now) result
        (unpack «record».n area.new) }
{
    workspace::put_vector(area, record.n, Vector::FirstDerivative, derivative);
    Next {
        answer: Answer::Ready,
        record: record.in_phase(Phase::Ready),
    }
}

// The derivative of a state that a callback brought.
#[tactic(auto, unfolding(crate::specs::Calls::take_first, crate::specs::Calls::take_callback))]
fn take_callback(record: Record, area: &mut [f64], derivative: &[f64]) -> Next
    requires record_in_bounds { 11 * «record».n ≤ length area.old }
    requires derivative_len { length derivative.now ≡ «record».n }
    ensures { Steps (calls.take_callback «record» (unpack «record».n area.old) derivative.now) result
        (unpack «record».n area.new) }
{
    let ready = take_first(record, area, derivative);
    workspace::fill_vector(area, record.n, Vector::Eigenvector, 0.0);
    ready
}

// The norm is that of the direction.
#[tactic(auto, unfolding(crate::specs::Calls::ask_pass, workspace::specs::Kernel::perturbed))]
pub fn ask_pass(record: Record, area: &mut [f64], norm: f64) -> Next
    requires record_in_bounds { 11 * «record».n ≤ length area.old }
    requires norm_value { norm ≡ vector_norm (unpack «record».n area.old eigenvector) }
    ensures { Steps (calls.ask_pass «record» (unpack «record».n area.old)) result (unpack «record».n area.new) }
{
    let n = record.n;
    workspace::perturb(area, n, record.iteration.perturbation, norm);
    record.asks(record.arguments.time, Vector::PerturbedState)
}

// The vectors stand.
#[tactic(auto, unfolding(crate::specs::Calls::ask_stage))]
fn ask_stage(record: Record) -> Next
    ensures { (v : Vectors) → Steps (calls.ask_stage «record» v) result v }
{
    let time = record.arguments.time
        + record.arguments.step * record.staging.recurrence.theta_previous;
    record.asks(time, Vector::PreviousOne)
}

// How many stages this scaled radius takes. It is refused where TSRKC2 would need more than 1000.
#[tactic(auto, unfolding(crate::specs::Calls::stage_need))]
fn stage_need(setting: Setting, scaled_radius: f64) -> Result<u64, Refusal>
    ensures { need result ≡ calls.stage_need setting scaled_radius }
{
    if setting.family.exceeds(setting.quotient, scaled_radius) {
        Err(Refusal::Stages)
    } else {
        Ok(setting.family.stages(setting.quotient, scaled_radius))
    }
}

fn first_stage(record: Record, area: &mut [f64], scaled_radius: f64, stages: u64) -> Next
    requires { 11 * «record».n ≤ length area.old }
    ensures { Steps (calls.by_need (Met stages) «record» (unpack «record».n area.old) scaled_radius) result
        (unpack «record».n area.new) }
{
    let n = record.n;
    let c = coefficients::first_recurrence(record.setting(), stages);
    workspace::first_stage(area, n, record.arguments.step, c.theta_previous);
    let known = record.with_radius(scaled_radius);
    let staging = Staging {
        stages,
        stage: 2,
        recurrence: c,
    };
    ask_stage(known.at_stage(staging))
}

// The power iteration has ended. A need that is not met leaves the iteration's work and empties the phase.
#[tactic(auto, unfolding(crate::specs::Calls::begin_stages, crate::specs::Calls::by_need))]
fn begin_stages(record: Record, area: &mut [f64], scaled_radius: f64) -> Next
    requires { 11 * «record».n ≤ length area.old }
    ensures { Steps (calls.begin_stages «record» (unpack «record».n area.old) scaled_radius) result
        (unpack «record».n area.new) }
{
    match stage_need(record.setting(), scaled_radius) {
        Ok(stages) => first_stage(record, area, scaled_radius, stages),
        Err(refusal) => record.in_phase(Phase::Empty).refused(refusal),
    }
}

fn last_pass(pass: u64, previous_radius: f64, radius: f64) -> bool
    ensures { result ≡ (ended pass previous_radius radius || eqb pass 12) }
{
    workspace::iteration_ended(pass, previous_radius, radius) || pass == MOST_PASSES
}

#[tactic(auto, unfolding(crate::specs::Calls::at_pass))]
fn take_pass(record: Record, area: &mut [f64], derivative: &[f64]) -> Next
    requires record_in_bounds { 11 * «record».n ≤ length area.old }
    requires derivative_len { length derivative.now ≡ «record».n }
    requires record_bound { «record».iteration.pass ≤ 12 }
    ensures { Steps (calls.take_pass «record» (unpack «record».n area.old) derivative.now) result
        (unpack «record».n area.new) }
{
    let n = record.n;
    let pass = record.iteration.pass;
    let perturbation = record.iteration.perturbation;
    workspace::turn(area, n, derivative);
    let norm = workspace::direction_norm(area, n);
    let radius = norm / perturbation;
    if last_pass(pass, record.iteration.previous_radius, radius) {
        let scaled_radius = workspace::scaled_radius(record.arguments.step, radius);
        return begin_stages(record, area, scaled_radius);
    }
    let arguments = record.arguments;
    let on = record.at_pass(arguments, pass + 1, perturbation, radius);
    ask_pass(on, area, norm)
}

// The next stage's evaluation. RKL and RKG carry polynomials that they never read, and these are not handed back.
#[tactic(auto, using(crate::proofs::Steps::by_theta))]
fn onward(setting: Setting, time: f64, staging: Staging) -> Staged
    ensures { (r : Record) (row : Coefficients) → staging.stages ≡ r.staging.stages
        → staging.recurrence ≡ next setting r.staging.recurrence row → outcome_of result r ≡ outcome_of (On time staging) r }
{
    match setting.family.facts().row {
        RowForm::OrthogonalRow => Staged::OnByTheta {
            time,
            stage: staging.stage,
            theta: staging.recurrence.theta_previous,
        },
        _ => Staged::On { time, staging },
    }
}

// A stage's derivative: on to the next stage, or after stage s to the candidate. The only caller of the rows, so that they
// are compiled in place.
pub fn take_stage(record: Record, area: &mut [f64], derivative: &[f64]) -> Staged
    requires record_in_bounds { 11 * «record».n ≤ length area.old }
    requires record_in_bounds_2 { vector_count (family_of «record».family) * «record».n ≤ length area.old }
    requires derivative_len { length derivative.now ≡ «record».n }
    requires bound { (2 ≤ «record».staging.stage) × («record».staging.stage + 1 < 2 ^ 32) }
    ensures { Steps (calls.take_stage «record» (unpack «record».n area.old) derivative.now) (outcome_of result «record»)
        (unpack «record».n area.new) }
{
    let n = record.n;
    let setting = record.setting();
    let step = record.arguments.step;
    let s = record.staging.stages;
    let j = record.staging.stage;
    let c = record.staging.recurrence;
    let advance = coefficients::row_and_recurrence(setting, s, j, c);
    let row = advance.row;
    if j < s {
        workspace::row_and_exchange(area, n, setting, row, step, derivative);
        let recurrence = advance.after;
        let time = record.arguments.time + step * recurrence.theta_previous;
        let staging = Staging {
            stages: s,
            stage: j + 1,
            recurrence,
        };
        return onward(setting, time, staging);
    }
    workspace::row(area, n, setting, row, step, derivative);
    workspace::keep_candidate(area, n, setting, step, s, c, row);
    if workspace::finite_vector(area, n, Vector::Candidate) {
        let time = record.arguments.time + step;
        return Staged::Ended { time };
    }
    Staged::NotFinite
}

#[tactic(auto, unfolding(crate::specs::Calls::take_candidate))]
fn take_candidate(record: Record, area: &mut [f64], derivative: &[f64]) -> Next
    requires record_in_bounds { 11 * «record».n ≤ length area.old }
    requires derivative_len { length derivative.now ≡ «record».n }
    ensures { Steps (calls.take_candidate «record» (unpack «record».n area.old) derivative.now) result
        (unpack «record».n area.new) }
{
    let n = record.n;
    let setting = record.setting();
    let arguments = record.arguments;
    workspace::last(area, n, setting, arguments, derivative);
    let norm = workspace::error_norm(area, n, setting, record.staging.stages, arguments);
    Next {
        answer: Answer::Finished(record.figures(norm)),
        record: record.in_phase(Phase::Finished),
    }
}

// By the phase. The stages are `take_stage`'s, and a phase with no evaluation pending is refused before.
#[tactic(auto, using(crate::proofs::Ranges::pass_in, crate::proofs::Steps::alike), unfolding(crate::specs::Calls::replied))]
pub fn replied(record: Record, area: &mut [f64], derivative: &[f64]) -> Next
    requires record_in_bounds { 11 * «record».n ≤ length area.old }
    requires derivative_len { length derivative.now ≡ «record».n }
    requires record_value { calls.in_range «record».phase «record» ≡ true }
    requires record_value_2 { in_stages «record».phase ≡ false }
    ensures { Steps (calls.replied «record».phase «record» (unpack «record».n area.old) derivative.now) result
        (unpack «record».n area.new) }
{
    match record.phase {
        Phase::Pass => take_pass(record, area, derivative),
        Phase::Candidate => take_candidate(record, area, derivative),
        Phase::Callback => take_callback(record, area, derivative),
        _ => take_first(record, area, derivative),
    }
}
