// The minutes of a day, one after another.
ghost use Rattle.std.specs.Prelude.{◌≡◌, ◌+◌, ◌*◌, ◌≤◌, ◌<◌, length, get_or, drop};
ghost use Rattle.std.specs.Float.{nan};
ghost use Rattle.inverter.specs.Day as spec;

use crate::advance::{Engine, Inputs};
use crate::{Count, Minute, Total};
use driver::{Answer, Counters, Phase, Replied};
use heat_sink::Inverter;
use workspace::Vector;

// The first temperature of the candidate after a finished attempt that is not accepted yet, else of the kept state.
fn junction(engine: &Engine, phase: Phase) -> f64
    requires { 1 ≤ engine.now.inverter.n }
    ensures { result ≡ spec.junction engine.now.inverter phase engine.now.area.now }
{
    let v = if driver::may_accept(phase) {
        Vector::Candidate
    } else {
        Vector::State
    };
    workspace::area::vector(engine.area, engine.inverter.n, v)[0]
}

// The number that a minute was refused with, 0 for none.
#[tactic(auto, unfolding(crate::specs::Day::refusal))]
fn refusal(answer: Answer) -> u64
    ensures { result ≡ spec.refusal answer }
{
    match answer {
        Answer::Refused(number) => number,
        _ => 0,
    }
}

// What is told of a minute.
#[tactic(auto, unfolding(crate::specs::Day::told, driver::specs::Calls::figures_in))]
fn told(answer: Answer, junction: f64) -> Minute
    ensures { result ≡ spec.told answer junction }
{
    let minute = Minute {
        refusal: refusal(answer),
        junction,
        ..Minute::default()
    };
    match answer {
        Answer::Finished(figures) => Minute {
            stages: figures.stages,
            passes: figures.passes,
            scaled_radius: figures.scaled_radius,
            ..minute
        },
        _ => minute,
    }
}

// Whether the minute is finished with the junction above its rated temperature.
#[tactic(auto, unfolding(crate::specs::Day::is_above, crate::specs::Day::finished))]
fn is_above(inverter: Inverter, answer: Answer, junction: f64) -> bool
    ensures { result ≡ spec.is_above inverter answer junction }
{
    matches!(answer, Answer::Finished(_)) && inverter.rated < junction
}

impl Count {
    #[tactic(auto, unfolding(crate::specs::Day::no_count))]
    fn new() -> Count
        ensures { result ≡ spec.no_count }
    {
        Count {
            record: driver::new_record(),
            counters: Counters::default(),
            above: 0,
            refused: 0,
        }
    }

    // A minute's end counted.
    #[tactic(auto, unfolding(crate::specs::Day::minute_counted))]
    fn with(self, inverter: Inverter, end: Replied, junction: f64) -> Count
        requires { (self.above < 1440) × (self.refused < 1440) }
        ensures { result ≡ spec.minute_counted inverter end junction self }
    {
        Count {
            record: end.record,
            counters: end.counters,
            above: self.above + u64::from(is_above(inverter, end.answer, junction)),
            refused: self.refused + u64::from(refusal(end.answer) != 0),
        }
    }

    #[tactic(auto, unfolding(crate::specs::Day::total_of))]
    fn total(self) -> Total
        ensures { result ≡ spec.total_of self }
    {
        Total {
            hours: ieee::double_of(self.above) / ieee::double_of(60),
            above: self.above,
            evaluations: self.counters.evaluations,
            finished_attempts: self.counters.finished_attempts,
            refused: self.refused,
        }
    }
}

// The reading that holds from the end of minute i on: the next finite one.
fn upcoming(readings: &[f64], i: usize) -> f64
    requires { i < length readings.now }
    ensures { result ≡ spec.upcoming (get_or readings.now i nan) (drop (i + 1) readings.now) }
{
    readings[i + 1..]
        .iter()
        .copied()
        .find(|after| ieee::is_finite(*after))
        .unwrap_or(readings[i])
}

// A minute for each reading.
pub fn run(engine: &mut Engine, readings: &[f64; 1440], minutes: &mut [Minute; 1440]) -> Total
    requires { 1 ≤ engine.old.inverter.n }
    ensures { spec.GivesTotal (spec.run engine.old.inverter 0 readings.now (spec.outset engine.old.area.now)) result
        (spec.columns minutes.new) }
{
    let mut count = Count::new();
    for (i, minute) in minutes.iter_mut().enumerate() {
        let inputs = Inputs {
            minute: i as u64,
            reading: readings[i],
            upcoming: upcoming(readings, i),
        };
        let end = engine.take(count.record, count.counters, inputs);
        let temperature = junction(engine, end.record.phase);
        *minute = told(end.answer, temperature);
        count = count.with(engine.inverter, end, temperature);
    }
    count.total()
}
