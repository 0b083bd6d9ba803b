// The six calls for C: the record is lent, as its whole numbers and its doubles, and read and written in place; the answer
// is a code and what that code carries, by name. Each says what driver's call of that name says.
#![tactic(auto)]

ghost use Rattle.std.specs.Prelude.{◌≡◌, true, false};
ghost use Rattle.driver.specs.Calls as calls;
ghost use Rattle.driver.specs.Promises.{stage_taken};
ghost use Rattle.lent.specs.Numbers as numbers;
ghost use Rattle.lent.specs.Lent.{lent, place_of, left_with};
ghost use Rattle.capi.specs.Promises.{KeepsLent, KeepsAsFound, Replies, counting};

use driver::Counters;
use lent::{Answer, DOUBLES, WHOLES};

#[unsafe(no_mangle)]
pub extern "C" fn stabilized_start(
    wholes: &mut [u64; WHOLES],
    doubles: &mut [f64; DOUBLES],
    area: &mut [f64],
    family: u64,
    n: u64,
    state: &[f64],
    time: f64,
) -> Answer
    ensures { KeepsAsFound (lent wholes.old doubles.old) (λ h. calls.start h family n state.now time)
        area.old (left_with result wholes.new doubles.new) area.new }
{
    let kept = lent::read(wholes, doubles);
    let next = driver::start(kept, area, family, n as usize, state, time);
    lent::leave(wholes, doubles, next)
}

#[unsafe(no_mangle)]
pub extern "C" fn stabilized_attempt(
    wholes: &mut [u64; WHOLES],
    doubles: &mut [f64; DOUBLES],
    area: &mut [f64],
    time: f64,
    step: f64,
    absolute_tolerance: f64,
    relative_tolerance: f64,
    adaptive: u64,
) -> Answer
    ensures { KeepsLent (lent wholes.old doubles.old) adaptive
        (λ h. calls.attempt h (numbers.brought time step absolute_tolerance relative_tolerance adaptive)) area.old
        (left_with result wholes.new doubles.new) area.new }
{
    let kept = lent::read(wholes, doubles);
    let arguments = lent::brought(time, step, absolute_tolerance, relative_tolerance, adaptive);
    let next = driver::attempt(kept, area, arguments);
    lent::leave_with(wholes, doubles, adaptive, next)
}

// A reply to a stage's evaluation, in place.
fn lent_reply_in_stages(
    wholes: &mut [u64; WHOLES],
    doubles: &mut [f64; DOUBLES],
    evaluations: &mut u64,
    finished_attempts: u64,
    area: &mut [f64],
    derivative: &[f64],
) -> Answer
    requires { stage_taken (place_of wholes.old) (counting evaluations.old finished_attempts) area.old derivative.now ≡ true }
    ensures { Replies (lent wholes.old doubles.old) (counting evaluations.old finished_attempts) area.old
        derivative.now (left_with result wholes.new doubles.new) (counting evaluations.new finished_attempts)
        area.new }
{
    let counters = Counters {
        evaluations: *evaluations,
        finished_attempts,
    };
    let kept = lent::read(wholes, doubles);
    let staged = driver::reply_in_stages(kept, counters, area, derivative);
    *evaluations = counters.evaluations + 1;
    lent::leave_staged(wholes, doubles, staged)
}

// Every other reply.
fn lent_reply_elsewhere(
    wholes: &mut [u64; WHOLES],
    doubles: &mut [f64; DOUBLES],
    evaluations: &mut u64,
    finished_attempts: &mut u64,
    area: &mut [f64],
    derivative: &[f64],
) -> Answer
    requires { stage_taken (place_of wholes.old) (counting evaluations.old finished_attempts.old) area.old derivative.now ≡ false }
    ensures { Replies (lent wholes.old doubles.old) (counting evaluations.old finished_attempts.old)
        area.old derivative.now (left_with result wholes.new doubles.new)
        (counting evaluations.new finished_attempts.new) area.new }
{
    let counters = Counters {
        evaluations: *evaluations,
        finished_attempts: *finished_attempts,
    };
    let kept = lent::read(wholes, doubles);
    let replied = driver::reply_elsewhere(kept, counters, area, derivative);
    *evaluations = replied.counters.evaluations;
    *finished_attempts = replied.counters.finished_attempts;
    lent::leave(wholes, doubles, replied.next())
}

#[unsafe(no_mangle)]
pub extern "C" fn stabilized_reply(
    wholes: &mut [u64; WHOLES],
    doubles: &mut [f64; DOUBLES],
    evaluations: &mut u64,
    finished_attempts: &mut u64,
    area: &mut [f64],
    derivative: &[f64],
) -> Answer
    ensures { Replies (lent wholes.old doubles.old) (counting evaluations.old finished_attempts.old)
        area.old derivative.now (left_with result wholes.new doubles.new)
        (counting evaluations.new finished_attempts.new) area.new }
{
    let counters = Counters {
        evaluations: *evaluations,
        finished_attempts: *finished_attempts,
    };
    let found = lent::place(wholes);
    if driver::stage_taken(found, counters, area, derivative) {
        return lent_reply_in_stages(
            wholes,
            doubles,
            evaluations,
            counters.finished_attempts,
            area,
            derivative,
        );
    }
    lent_reply_elsewhere(
        wholes,
        doubles,
        evaluations,
        finished_attempts,
        area,
        derivative,
    )
}

#[unsafe(no_mangle)]
pub extern "C" fn stabilized_accept(
    wholes: &mut [u64; WHOLES],
    doubles: &mut [f64; DOUBLES],
    area: &mut [f64],
) -> Answer
    ensures { KeepsAsFound (lent wholes.old doubles.old) calls.accept area.old
        (left_with result wholes.new doubles.new) area.new }
{
    let kept = lent::read(wholes, doubles);
    let next = driver::accept(kept, area);
    lent::leave(wholes, doubles, next)
}

#[unsafe(no_mangle)]
pub extern "C" fn stabilized_accept_with_callback(
    wholes: &mut [u64; WHOLES],
    doubles: &mut [f64; DOUBLES],
    area: &mut [f64],
    state: &[f64],
    time: f64,
) -> Answer
    ensures { KeepsAsFound (lent wholes.old doubles.old) (λ h. calls.accept_with_callback h state.now time)
        area.old (left_with result wholes.new doubles.new) area.new }
{
    let kept = lent::read(wholes, doubles);
    let next = driver::accept_with_callback(kept, area, state, time);
    lent::leave(wholes, doubles, next)
}

#[unsafe(no_mangle)]
pub extern "C" fn stabilized_abandon(
    wholes: &mut [u64; WHOLES],
    doubles: &mut [f64; DOUBLES],
    area: &[f64],
) -> Answer
    ensures { KeepsAsFound (lent wholes.old doubles.old) calls.abandon area.now
        (left_with result wholes.new doubles.new) area.now }
{
    let kept = lent::read(wholes, doubles);
    let next = driver::abandon(kept, area);
    lent::leave(wholes, doubles, next)
}
