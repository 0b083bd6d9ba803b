// The tests that refuse a call, each the test of that name in the definition.
ghost use Rattle.std.specs.Prelude.{◌≡◌, ◌&&◌, ◌≤◌};
ghost use Rattle.driver.specs.Calls as calls;
ghost use Rattle.driver.specs.Promises.{in_stages, stage_taken};

use crate::{Counters, MOST_PASSES, Phase, Record};
use family::Setting;
use workspace::Arguments;

#[tactic(auto, unfolding(crate::specs::Calls::sized))]
pub fn sized(n: usize) -> bool
    ensures { result ≡ calls.sized n }
{
    (1..=512).contains(&n)
}

#[tactic(auto, unfolding(crate::specs::Calls::whole_area))]
pub fn whole_area(family: u64, n: usize, area: &[f64]) -> bool
    requires { n ≤ 512 }
    ensures { result ≡ calls.whole_area family n area.now }
{
    area.len() == workspace::vector_count(family) * n
}

// The area and a vector that a call brings.
#[tactic(auto, unfolding(crate::specs::Calls::as_long))]
fn both_long(family: u64, n: usize, area: &[f64], vector: &[f64]) -> bool
    requires { n ≤ 512 }
    ensures { result ≡ (calls.whole_area family n area.now && calls.as_long n vector.now) }
{
    whole_area(family, n, area) && vector.len() == n
}

// Whether an evaluation is pending.
#[tactic(auto, unfolding(crate::specs::Calls::pending))]
fn pending(phase: Phase) -> bool
    ensures { result ≡ calls.pending phase }
{
    !matches!(phase, Phase::Empty | Phase::Ready | Phase::Finished)
}

fn good_pass(pass: u64) -> bool
    ensures { result ≡ calls.good_pass pass }
{
    (1..=MOST_PASSES).contains(&pass)
}

// Whether an attempt under this setting may run s stages.
fn permits(setting: Setting, s: u64) -> bool
    ensures { result ≡ calls.permits setting s }
{
    setting.family.permits(s)
}

fn good_stage(setting: Setting, stages: u64, stage: u64) -> bool
    ensures { result ≡ calls.good_stage setting stages stage }
{
    permits(setting, stages) && (2..=stages).contains(&stage)
}

// Whether what the phase uses of the record is in range. The tests are made before the phase is asked for, each once, so
// that the compiler puts them where they are used.
#[tactic(auto, unfolding(crate::specs::Calls::in_range))]
fn in_range(record: Record) -> bool
    ensures { result ≡ calls.in_range «record».phase «record» }
{
    let stages = record.staging.stages;
    let stage = record.staging.stage;
    let pass = good_pass(record.iteration.pass);
    let permitted = permits(record.setting(), stages);
    let place = (2 <= stage) & (stage <= stages);
    match record.phase {
        Phase::Pass => pass,
        Phase::Stage => permitted & place,
        Phase::Candidate => pass & permitted,
        _ => true,
    }
}

#[tactic(auto, unfolding(crate::specs::Calls::awaiting))]
pub fn awaiting(record: Record) -> bool
    ensures { result ≡ calls.awaiting «record» }
{
    pending(record.phase) && in_range(record)
}

#[tactic(auto, unfolding(crate::specs::Calls::may_attempt))]
pub fn may_attempt(phase: Phase) -> bool
    ensures { result ≡ calls.may_attempt phase }
{
    matches!(phase, Phase::Ready | Phase::Finished)
}

#[tactic(auto, unfolding(crate::specs::Calls::may_accept))]
pub fn may_accept(phase: Phase) -> bool
    ensures { result ≡ calls.may_accept phase }
{
    phase == Phase::Finished
}

#[tactic(auto, unfolding(crate::specs::Calls::good_times))]
pub fn good_times(arguments: Arguments) -> bool
    ensures { result ≡ calls.good_times arguments }
{
    ieee::is_finite(arguments.time) && ieee::is_finite(arguments.step) && arguments.step != 0.0
}

#[tactic(auto, unfolding(crate::specs::Calls::good_tolerance))]
fn good_tolerance(tolerance: f64) -> bool
    ensures { result ≡ calls.good_tolerance tolerance }
{
    ieee::is_finite(tolerance) && 0.0 < tolerance
}

#[tactic(auto, unfolding(crate::specs::Calls::good_tolerances))]
pub fn good_tolerances(arguments: Arguments) -> bool
    ensures { result ≡ calls.good_tolerances arguments }
{
    good_tolerance(arguments.absolute_tolerance) && good_tolerance(arguments.relative_tolerance)
}

// Whether a reply in this phase finishes an attempt.
#[tactic(auto, unfolding(crate::specs::Calls::finishes))]
fn finishes(phase: Phase) -> bool
    ensures { result ≡ calls.finishes phase }
{
    phase == Phase::Candidate
}

// Whether a counter can count one more.
#[tactic(auto, unfolding(crate::specs::Calls::room))]
fn room(count: u64) -> bool
    ensures { result ≡ calls.room count }
{
    count < u64::MAX
}

#[tactic(auto, unfolding(crate::specs::Calls::has_room))]
pub fn has_room(phase: Phase, counters: Counters) -> bool
    ensures { result ≡ calls.has_room phase counters }
{
    room(counters.evaluations) && (!finishes(phase) || room(counters.finished_attempts))
}

// Whether a stage's evaluation is pending.
#[tactic(auto, unfolding(crate::specs::Promises::in_stages))]
fn in_stages(phase: Phase) -> bool
    ensures { result ≡ in_stages phase }
{
    phase == Phase::Stage
}

// Whether a reply passes tests 1 to 9 and brings the derivative of a stage. Two rounds of tests without branches between
// them: after one branch a test the compiler takes what follows to be rare, and calls it instead of compiling it in place.
#[tactic(auto, using(crate::proofs::Sizes::most), unfolding(crate::specs::Promises::stage_taken))]
pub fn stage_taken(record: Record, counters: Counters, area: &[f64], derivative: &[f64]) -> bool
    ensures { result ≡ stage_taken «record» counters area.now derivative.now }
{
    let phase = record.phase;
    let n = record.n;
    let family = family::known(record.family);
    let size = sized(n);
    let stages = in_stages(phase);
    let more = room(counters.evaluations);
    let first = family & size & stages & more;
    if !first {
        return false;
    }
    let lengths = both_long(record.family, n, area, derivative);
    let place = good_stage(
        record.setting(),
        record.staging.stages,
        record.staging.stage,
    );
    let second = lengths & place;
    if !second {
        return false;
    }
    norm::all_finite(derivative)
}
