// The tests of each call, in order: the refusal of the first that fails. A call asks for it before it writes anything. (The `ending_numbers` of specs/Numbers
// are not here: a reply that comes to one is counted and ends its phase.)
ghost use Rattle.std.specs.Prelude.{◌≡◌, cond, Ok, Err};
ghost use Rattle.driver.specs.Numbers.{refusal_number};
ghost use Rattle.driver.specs.Calls.{first_failing, start_tests, attempt_tests, reply_tests, accept_tests, callback_tests, abandon_tests};
ghost use Rattle.driver.specs.Promises.{verdict, area_tests, vector_tests};

use crate::{Counters, Record, checks};
use workspace::Arguments;

// What a call is refused with, or a reply ends with: numbered as in specs/Numbers.
#[derive(Clone, Copy)]
pub enum Refusal {
    Family = 1,
    Size,
    Lengths,
    Phase,
    State,
    Times,
    Tolerances,
    Counters,
    Derivative,
    Candidate,
    Stages,
}

impl From<Refusal> for u64 {
    fn from(refusal: Refusal) -> u64
        ensures { result ≡ refusal_number refusal }
    {
        refusal as u64
    }
}

fn check(passes: bool, refusal: Refusal) -> Result<(), Refusal>
    ensures { result ≡ cond passes (Ok tt) (Err refusal) }
{
    if passes { Ok(()) } else { Err(refusal) }
}

// The tests that every call begins with.
#[tactic(auto, using(crate::proofs::Sizes::most), unfolding(crate::specs::Calls::first_failing))]
fn of_area(family: u64, n: usize, area: &[f64]) -> Result<(), Refusal>
    ensures { verdict result ≡ first_failing (area_tests family n area.now) }
{
    check(family::known(family), Refusal::Family)?;
    check(checks::sized(n), Refusal::Size)?;
    check(checks::whole_area(family, n, area), Refusal::Lengths)
}

// The same of a call that brings a vector.
#[tactic(auto, unfolding(crate::specs::Calls::first_failing, crate::specs::Calls::as_long))]
fn of_vector(family: u64, n: usize, area: &[f64], vector: &[f64]) -> Result<(), Refusal>
    ensures { verdict result ≡ first_failing (vector_tests family n area.now vector.now) }
{
    of_area(family, n, area)?;
    check(vector.len() == n, Refusal::Lengths)
}

#[tactic(auto, unfolding(crate::specs::Calls::first_failing, crate::specs::Calls::start_tests))]
pub fn of_start(
    family: u64,
    n: usize,
    area: &[f64],
    state: &[f64],
    time: f64,
) -> Result<(), Refusal>
    ensures { verdict result ≡ first_failing (start_tests family n area.now state.now time) }
{
    of_vector(family, n, area, state)?;
    check(norm::all_finite(state), Refusal::State)?;
    check(ieee::is_finite(time), Refusal::Times)
}

#[tactic(auto, unfolding(crate::specs::Calls::first_failing, crate::specs::Calls::attempt_tests))]
pub fn of_attempt(record: Record, area: &[f64], arguments: Arguments) -> Result<(), Refusal>
    ensures { verdict result ≡ first_failing (attempt_tests «record» area.now arguments) }
{
    of_area(record.family, record.n, area)?;
    check(checks::may_attempt(record.phase), Refusal::Phase)?;
    check(checks::good_times(arguments), Refusal::Times)?;
    check(checks::good_tolerances(arguments), Refusal::Tolerances)
}

#[tactic(auto, unfolding(crate::specs::Calls::first_failing, crate::specs::Calls::reply_tests))]
pub fn of_reply(
    record: Record,
    counters: Counters,
    area: &[f64],
    derivative: &[f64],
) -> Result<(), Refusal>
    ensures { verdict result ≡ first_failing (reply_tests «record» counters area.now derivative.now) }
{
    of_vector(record.family, record.n, area, derivative)?;
    check(checks::awaiting(record), Refusal::Phase)?;
    check(checks::has_room(record.phase, counters), Refusal::Counters)
}

#[tactic(auto, unfolding(crate::specs::Calls::first_failing, crate::specs::Calls::accept_tests))]
pub fn of_accept(record: Record, area: &[f64]) -> Result<(), Refusal>
    ensures { verdict result ≡ first_failing (accept_tests «record» area.now) }
{
    of_area(record.family, record.n, area)?;
    check(checks::may_accept(record.phase), Refusal::Phase)
}

#[tactic(auto, unfolding(crate::specs::Calls::first_failing, crate::specs::Calls::callback_tests))]
pub fn of_callback(record: Record, area: &[f64], state: &[f64], time: f64) -> Result<(), Refusal>
    ensures { verdict result ≡ first_failing (callback_tests «record» area.now state.now time) }
{
    of_vector(record.family, record.n, area, state)?;
    check(checks::may_accept(record.phase), Refusal::Phase)?;
    check(norm::all_finite(state), Refusal::State)?;
    check(ieee::is_finite(time), Refusal::Times)
}

#[tactic(auto, unfolding(crate::specs::Calls::first_failing, crate::specs::Calls::abandon_tests))]
pub fn of_abandon(record: Record, area: &[f64]) -> Result<(), Refusal>
    ensures { verdict result ≡ first_failing (abandon_tests «record» area.now) }
{
    of_area(record.family, record.n, area)?;
    check(checks::awaiting(record), Refusal::Phase)
}
