// A minute of the day: the calls of the engine, and the model's rates as their replies.
ghost use Rattle.std.specs.Prelude.{◌≡◌, ◌*◌, ◌≤◌, ◌<◌, length, replicate};
ghost use Rattle.ieee.specs.Double.{nought};
ghost use Rattle.driver.specs.Promises.{holding};
ghost use Rattle.inverter.specs.Day as spec;

use driver::{Answer, Counters, Record, Refusal, Replied};
use heat_sink::Inverter;
use workspace::{Arguments, Vector};

// What the calls of a minute go by: its number, its reading, and the reading that holds from its end on.
#[derive(Clone, Copy)]
pub struct Inputs {
    pub minute: u64,
    pub reading: f64,
    pub upcoming: f64,
    ghost in_a_day: { minute < 1440 },
}

impl Inputs {
    #[tactic(auto, unfolding(crate::specs::Day::time_of))]
    fn time(self) -> f64
        ensures { result ≡ spec.time_of self.minute }
    {
        ieee::double_of(60 * self.minute)
    }

    #[tactic(auto, unfolding(crate::specs::Day::arguments))]
    fn arguments(self) -> Arguments
        ensures { result ≡ spec.arguments self.minute }
    {
        Arguments {
            time: self.time(),
            step: ieee::double_of(60),
            absolute_tolerance: 1.0,
            relative_tolerance: 1.0,
            adaptive: false,
        }
    }

    // The reading that holds where this vector is evaluated.
    #[tactic(auto, unfolding(crate::specs::Day::reading_at))]
    fn reading_at(self, vector: usize) -> f64
        ensures { result ≡ spec.reading_at self.reading self.upcoming vector }
    {
        if vector == Vector::Candidate as usize {
            self.upcoming
        } else {
            self.reading
        }
    }
}

// Whether an answer asks for no call.
#[tactic(auto, unfolding(crate::specs::Day::asks_no_call))]
fn asks_no_call(answer: Answer) -> bool
    ensures { result ≡ spec.asks_no_call answer }
{
    !matches!(answer, Answer::Evaluate { .. } | Answer::Ready)
}

// How many calls follow the first, at most: the state's evaluation, the attempt, its passes, and as many stages as any family
// runs, the candidate among them.
const MOST_CALLS: u64 = 2 + driver::MOST_PASSES + family::MOST_STAGES;

// What the calls of the engine work on: the inverter, its area, and room for a vector. Each method says that the inverter stands,
// which beside the engine would be one more parameter.
#[derive(Drop)]
pub struct Engine<'a> {
    pub inverter: Inverter,
    pub area: &'a mut [f64],
    pub scratch: &'a mut [f64],
    ghost holds_vectors: { 11 * inverter.n ≤ length area.now },
    ghost holds_a_vector: { length scratch.now ≡ inverter.n },
}

impl<'a> Engine<'a> {
    // From the outset, where the area is zero.
    pub fn at_rest(inverter: Inverter, area: &'a mut [f64], scratch: &'a mut [f64]) -> Engine<'a>
        requires area_value { area.old ≡ replicate (spec.area_size inverter) nought }
        requires scratch_len { length scratch.old ≡ inverter.n }
        ensures inverter { result.inverter ≡ inverter }
        ensures area { result.area.now ≡ spec.first_area inverter }
    {
        workspace::fill_vector(area, inverter.n, Vector::State, inverter.initial);
        Engine {
            inverter,
            area,
            scratch,
        }
    }

    // The first call of a minute.
    fn begin(&mut self, record: Record, counters: Counters, inputs: Inputs) -> Replied
        ensures inverter { self.new.inverter ≡ self.old.inverter }
        ensures answer { spec.given result self.new.area.now
            ≡ spec.begun self.old.inverter inputs.minute (holding «record» counters self.old.area.now) }
    {
        if driver::may_accept(record.phase) {
            return driver::accept(record, self.area).with(counters);
        }
        let Inverter { family, n, .. } = self.inverter;
        // Lent by way of a name: the check forgets what a field points to once a part of it was lent.
        let area = &mut *self.area;
        self.scratch
            .copy_from_slice(workspace::area::vector(area, n, Vector::State));
        driver::start(record, area, family, n, self.scratch, inputs.time()).with(counters)
    }

    // The call that an answer asks for.
    fn next(&mut self, reply: Replied, inputs: Inputs) -> Replied
        requires { spec.asked reply.answer < 11 }
        ensures inverter { self.new.inverter ≡ self.old.inverter }
        ensures answer { spec.given result self.new.area.now
            ≡ spec.next self.old.inverter inputs.minute inputs.reading inputs.upcoming (spec.given reply self.old.area.now) }
    {
        match reply.answer {
            Answer::Evaluate { vector: k, .. } => {
                // By way of a name, as in `begin`.
                let area = &mut *self.area;
                let point = workspace::area::vector(area, self.inverter.n, Vector::from(k));
                heat_sink::rates(self.inverter, inputs.reading_at(k), point, self.scratch);
                driver::reply(reply.record, reply.counters, area, self.scratch)
            }
            Answer::Ready => {
                driver::attempt(reply.record, self.area, inputs.arguments()).with(reply.counters)
            }
            _ => reply,
        }
    }

    // From the minute's start to its last answer.
    fn pass(&mut self, record: Record, counters: Counters, inputs: Inputs) -> Replied
        ensures inverter { self.new.inverter ≡ self.old.inverter }
        ensures answer { spec.given result self.new.area.now
            ≡ spec.passed self.old.inverter inputs.minute inputs.reading inputs.upcoming (holding «record» counters self.old.area.now) }
    {
        let mut reply = self.begin(record, counters, inputs);
        for _call in 0..MOST_CALLS {
            if asks_no_call(reply.answer) {
                return reply;
            }
            reply = self.next(reply, inputs);
        }
        reply
    }

    // A minute: the calls where its reading is finite, no call else.
    #[tactic(auto, unfolding(crate::specs::Day::whole_minute))]
    pub fn take(&mut self, record: Record, counters: Counters, inputs: Inputs) -> Replied
        ensures inverter { self.new.inverter ≡ self.old.inverter }
        ensures answer { spec.given result self.new.area.now
            ≡ spec.whole_minute self.old.inverter inputs.minute inputs.reading inputs.upcoming (holding «record» counters self.old.area.now) }
    {
        if !ieee::is_finite(inputs.reading) {
            let answer = Answer::Refused(u64::from(Refusal::Derivative));
            return Replied {
                answer,
                record,
                counters,
            };
        }
        self.pass(record, counters, inputs)
    }
}
