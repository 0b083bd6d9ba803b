// One inverter over a day: from the text of its readings to the hours above the rated junction temperature.
#![tactic(auto)]

ghost use Rattle.std.specs.Prelude.{◌≤◌};
ghost use Rattle.inverter.specs.Day as spec;

use advance::Engine;
use driver::{Counters, Record};
use heat_sink::Inverter;

mod advance;
mod minutes;

pub use sheet::Malformed;

// What the minutes so far come to.
#[derive(Clone, Copy)]
pub struct Count {
    pub record: Record,
    pub counters: Counters,
    pub above: u64,
    pub refused: u64,
}

// Hours and minutes above the rated temperature, what was counted on the way, and how many minutes were refused.
#[derive(Clone, Copy)]
pub struct Total {
    pub hours: f64,
    pub above: u64,
    pub evaluations: u64,
    pub finished_attempts: u64,
    pub refused: u64,
}

// The number that a minute was refused with, the junction temperature at its end, and s, k and r of its finished attempt. 0
// stands for none and not an Option: the theorem `accounts` speaks of lists with 0 (`listed`, `Untold`).
#[derive(Clone, Copy, Default)]
pub struct Minute {
    pub refusal: u64,
    pub junction: f64,
    pub stages: u64,
    pub passes: u64,
    pub scaled_radius: f64,
}

// Room for the area of every family and n: at most 12 vectors of at most 512.
const LARGEST_N: usize = 512;

const LARGEST_AREA: usize = 12 * LARGEST_N;

// The minutes of a day on an area of its own.
fn total_of(inverter: Inverter, readings: &[f64; 1440], minutes: &mut [Minute; 1440]) -> Total
    requires { (1 ≤ inverter.n) × (inverter.n ≤ 512) }
    ensures { spec.GivesTotal (spec.run inverter 0 readings.now (spec.outset (spec.first_area inverter))) result
        (spec.columns minutes.new) }
{
    let mut area = [0.0; LARGEST_AREA];
    let mut scratch = [0.0; LARGEST_N];
    let n = inverter.n;
    let whole = workspace::vector_count(inverter.family) * n;
    let mut engine = Engine::at_rest(inverter, &mut area[..whole], &mut scratch[..n]);
    minutes::run(&mut engine, readings, minutes)
}

// From the text of a day to its total: the hours above the rated junction temperature, with what it tells of each minute. A
// text that is no day leaves the minutes as they were.
pub fn day(text: &[u8], minutes: &mut [Minute; 1440]) -> Result<Total, Malformed>
    ensures { spec.Reports (spec.day text.now (spec.columns minutes.old)) result (spec.columns minutes.new) }
{
    let mut readings = [0.0; 1440];
    let inverter = sheet::read(text, &mut readings)?;
    Ok(total_of(inverter, &readings, minutes))
}
