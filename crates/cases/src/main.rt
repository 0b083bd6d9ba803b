// Figures that document 01 gives without a mark, and published ones, beside the coefficients of the proved code.
// Each source is named where its figures are compared.
#![tactic(auto)]

mod worked;

ghost use Rattle.std.specs.Prelude.{◌^◌, ◌<◌, ◌≤◌};

use family::{Family, Setting};
use std::io;
use stored::Tally;

// A figure's name, and how many doubles the code's value lies from the nearest one to the figure.
fn print_figure(rt: &impl Print, name: &str, x: f64, figure: f64) -> io::Result<()> {
    let off = ieee::bits_of(x).abs_diff(ieee::bits_of(figure));
    println!(rt; "{name}: off by {off} in the last place")
}

// Document 01, "orthogonal.rs": the example, RKL2 with s = 3.
fn legendre_two_figures(rt: &impl Print) -> io::Result<()> {
    let setting = Setting::without_history(Family::RKL2);
    let c = coefficients::first_recurrence(setting, 3);
    let two = coefficients::row_coefficients(setting, 3, 2, c);
    let three = coefficients::row_coefficients(setting, 3, 3, c);
    let omega_one = coefficients::omega_one(setting, 3);
    print_figure(rt, "RKL2 s = 3, omega_one, 2/5", omega_one, 2.0 / 5.0)?;
    print_figure(rt, "stage 2, mu, 3/2", two.mu, 3.0 / 2.0)?;
    print_figure(rt, "stage 2, nu, -1/2", two.nu, -1.0 / 2.0)?;
    print_figure(rt, "stage 2, mu_tilde, 3/5", two.mu_tilde, 3.0 / 5.0)?;
    print_figure(
        rt,
        "stage 2, gamma_tilde, -2/5",
        two.gamma_tilde,
        -2.0 / 5.0,
    )?;
    print_figure(rt, "stage 3, mu, 25/12", three.mu, 25.0 / 12.0)?;
    print_figure(rt, "stage 3, nu, -5/6", three.nu, -5.0 / 6.0)?;
    print_figure(rt, "stage 3, mu_tilde, 5/6", three.mu_tilde, 5.0 / 6.0)?;
    print_figure(
        rt,
        "stage 3, gamma_tilde, -5/9",
        three.gamma_tilde,
        -5.0 / 9.0,
    )
}

// How near the values are to come to figures that are exact or close: within one part in 400, in 2^40, in 2^52.
const INTERVAL_PARTS: f64 = 400.0;

const TIME_PARTS: f64 = 1099511627776.0;

const REACH_PARTS: f64 = 4503599627370496.0;

// x is within one part in `parts` of y
fn near(x: f64, y: f64, parts: f64) -> bool {
    ieee::abs(x - y) * parts <= ieee::abs(y)
}

// Sommeijer, Shampine and Verwer, "RKC: an explicit solver for parabolic PDEs", J. Comput. Appl. Math. 88 (1998): the real
// stability interval is (omega_zero + 1) / omega_one, close to 2/3 (s^2 - 1) (1 - 2/15 eps) with eps = 2/13.
fn interval_agrees(s: u64) -> bool {
    let setting = Setting::without_history(Family::RKC);
    let p = coefficients::first_recurrence(setting, s).polynomials;
    let x = ieee::double_of(s);
    let figure = 2.0 / 3.0 * (x * x - 1.0) * (1.0 - 2.0 / 15.0 * (2.0 / 13.0));
    near(
        (p.value_previous + 1.0) / coefficients::omega_one(setting, s),
        figure,
        INTERVAL_PARTS,
    )
}

// The same paper: the time of stage j is close to (j^2 - 1) / (s^2 - 1) of the step, and that of stage s is the whole step.
fn time_agrees(s: u64, j: u64, theta: f64) -> bool {
    let x = ieee::double_of(s);
    let y = ieee::double_of(j);
    let share = (y * y - 1.0) / (x * x - 1.0);
    if j == s {
        near(theta, 1.0, TIME_PARTS)
    } else {
        ieee::abs(theta - share) <= 0.01
    }
}

// Goes over the rows as rows' iterator does: three lines, and one for both would be a new public type of coefficients.
fn add_times(tally: &mut Tally, s: u64)
    requires { s < 2 ^ 16 }
{
    let setting = Setting::without_history(Family::RKC);
    let mut c = coefficients::first_recurrence(setting, s);
    for j in 2..=s {
        let advance = coefficients::row_and_recurrence(setting, s, j, c);
        tally.add(time_agrees(s, j, advance.row.theta));
        c = advance.after;
    }
}

// Meyer, Balsara and Aslam, "A stabilized Runge-Kutta-Legendre method for explicit super-time-stepping of parabolic and mixed
// equations", J. Comput. Phys. 257 (2014): RKL1 is stable for a step of (s^2 + s) / 2 explicit ones, RKL2 for
// (s^2 + s - 2) / 4, an explicit one being 2 over the spectral radius. So 2 / omega_one is s^2 + s and (s^2 + s - 2) / 2.
fn reach_agrees(s: u64) -> bool {
    let x = ieee::double_of(s);
    let one = near(
        2.0 / coefficients::omega_one(Setting::without_history(Family::RKL1), s),
        x * x + x,
        REACH_PARTS,
    );
    let two = near(
        2.0 / coefficients::omega_one(Setting::without_history(Family::RKL2), s),
        (x * x + x - 2.0) / 2.0,
        REACH_PARTS,
    );
    one && two
}

// What is compared at the counts from 2 to 200, and how much of it differs.
fn print_counts<F: FnMut(&mut Tally, u64)>(
    rt: &impl Print,
    name: &str,
    mut add: F,
) -> io::Result<()>
    requires callable { (state : F) (tally : _) (s : _) → s ≤ 200 → F.pre state tally s }
{
    let mut tally = Tally::default();
    for s in 2..=200 {
        add(&mut tally, s);
    }
    print!(rt; "{name}: ")?;
    tally.print(rt, "compared")
}

fn main(rt: HostRuntime) -> io::Result<()> {
    worked::print_case(&rt)?;
    legendre_two_figures(&rt)?;
    print_counts(&rt, "RKC's stability interval, s = 2 to 200", |tally, s| {
        tally.add(interval_agrees(s))
    })?;
    print_counts(&rt, "RKC's times, s = 2 to 200, stages 2 to s", add_times)?;
    print_counts(
        &rt,
        "the reach of RKL1 and RKL2, s = 3 to 199",
        |tally, s| {
            if s % 2 == 1 {
                tally.add(reach_agrees(s));
            }
        },
    )
}
