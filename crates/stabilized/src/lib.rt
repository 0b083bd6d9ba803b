// The public calls. `reply` is lent the counters; the others neither read nor change them, and are the driver's own.
#![tactic(auto)]

ghost use Rattle.driver.specs.Calls as calls;
ghost use Rattle.driver.specs.Promises.{Meets, holding};

pub use driver::{
    Answer, Counters, Figures, History, Iteration, Next, Phase, Record, Staging, abandon, accept,
    accept_with_callback, attempt, new_record, start,
};
pub use workspace::Arguments;

// Brings the derivative that was asked for.
pub fn reply(record: Record, counters: &mut Counters, area: &mut [f64], derivative: &[f64]) -> Next
    ensures { Meets (calls.reply (holding «record» counters.old area.old) derivative.now) result.answer result.«record»
        counters.new area.new }
{
    let out = driver::reply(record, *counters, area, derivative);
    *counters = out.counters;
    out.next()
}
