// One inverter's heat sink: a chain of temperatures, 0 the junction, and how fast each changes.
#![tactic(auto)]

ghost use Rattle.std.specs.Prelude.{◌≡◌, ◌<◌, length};
ghost use Rattle.heat_sink.specs.Model as spec;

// The family that advances it, by the number that the engine's calls take, how many temperatures the chain has, and the
// model's constants.
#[derive(Clone, Copy)]
pub struct Inverter {
    pub family: u64,
    pub n: usize,
    pub initial: f64,
    pub ambient: f64,
    pub conduct: f64,
    pub cool: f64,
    pub heat: f64,
    pub rated: f64,
}

// What leaves link i: to the next link, or from the last one to the air.
#[tactic(auto, unfolding(crate::specs::Model::out_of, crate::specs::Model::along))]
fn out_of(m: Inverter, point: &[f64], i: usize) -> f64
    requires { i < length point.now }
    ensures { result ≡ spec.out_of m point.now i }
{
    match point.get(i + 1) {
        Some(next) => m.conduct * (point[i] - *next),
        None => m.cool * (point[i] - m.ambient),
    }
}

// What leaves a link enters the next.
pub fn rates(m: Inverter, reading: f64, point: &[f64], rates: &mut [f64])
    requires { length rates.old ≡ length point.now }
    ensures { rates.new ≡ spec.rates m point.now reading }
{
    let mut into = m.heat * reading;
    for (i, rate) in rates.iter_mut().enumerate() {
        let out = out_of(m, point, i);
        *rate = into - out;
        into = out;
    }
}
