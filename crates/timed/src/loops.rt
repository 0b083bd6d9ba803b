// The loops of `workspace` and `norm`, each behind the tests that its lengths want.
ghost use Rattle.std.specs.Prelude.{◌≡◌, ◌↔◌, IsTrue, false};
ghost use Rattle.ieee.specs.Double.{nought};
ghost use Rattle.ieee.specs.Sqrt.{sqrt};
ghost use Rattle.family.specs.Family.{setting};
ghost use Rattle.workspace.specs.Vectors.{vector_norm, all_finite};
ghost use Rattle.workspace.specs.Kernel.{perturbed, perturbed_by, turned, with_row, exchanged};
ghost use Rattle.timed.specs.Left.{weights, Holds, Takes, Steps};

use coefficients::Coefficients;
use family::{Family, Setting};

// Whether the loops over n entries can run on this area.
fn holds(area: &[f64], n: usize) -> bool
    ensures { IsTrue result ↔ Holds n area.now }
{
    n <= 512 && 11 * n <= area.len()
}

// And take this derivative.
fn takes(area: &[f64], n: usize, derivative: &[f64]) -> bool
    ensures { IsTrue result ↔ Takes n area.now derivative.now }
{
    holds(area, n) && derivative.len() == n
}

// The row with the exchange after it.
#[unsafe(no_mangle)]
pub extern "C" fn timed_row(
    area: &mut [f64],
    n: usize,
    family: u64,
    mu: f64,
    nu: f64,
    mu_tilde: f64,
    gamma_tilde: f64,
    step: f64,
    derivative: &[f64],
)
    ensures { Steps (Takes n area.old derivative.now) n area.old area.new
        (λ v. exchanged (with_row (setting family false nought) n step (weights mu nu mu_tilde gamma_tilde) v derivative.now)) }
{
    let c = Coefficients {
        mu,
        nu,
        mu_tilde,
        gamma_tilde,
        theta: 0.0,
    };
    if takes(area, n, derivative) {
        workspace::row_and_exchange(
            area,
            n,
            Setting::without_history(Family::from(family)),
            c,
            step,
            derivative,
        );
    }
}

#[unsafe(no_mangle)]
pub extern "C" fn timed_finite(v: &[f64]) -> bool
    ensures { result ≡ all_finite v.now }
{
    norm::all_finite(v)
}

#[unsafe(no_mangle)]
pub extern "C" fn timed_norm(v: &[f64]) -> f64
    ensures { result ≡ vector_norm v.now }
{
    norm::vector_norm(v)
}

// The root alone, for the Rust loops that take the same one.
#[unsafe(no_mangle)]
pub extern "C" fn timed_root(x: f64) -> f64
    ensures { result ≡ sqrt x }
{
    ieee::sqrt(x)
}

// The perturbed point, the direction's norm worked out.
#[unsafe(no_mangle)]
pub extern "C" fn timed_point(area: &mut [f64], n: usize, perturbation: f64)
    ensures { Steps (Holds n area.old) n area.old area.new (perturbed n perturbation) }
{
    if holds(area, n) {
        let norm = workspace::direction_norm(area, n);
        workspace::perturb(area, n, perturbation, norm);
    }
}

// The same with the norm at hand, as after a pass.
#[unsafe(no_mangle)]
pub extern "C" fn timed_point_from(area: &mut [f64], n: usize, perturbation: f64, norm: f64)
    ensures { Steps (Holds n area.old) n area.old area.new (perturbed_by n perturbation norm) }
{
    if holds(area, n) {
        workspace::perturb(area, n, perturbation, norm);
    }
}

// A pass: the direction, its norm, and the next point from that norm.
#[unsafe(no_mangle)]
pub extern "C" fn timed_pass(area: &mut [f64], n: usize, perturbation: f64, derivative: &[f64])
    ensures { Steps (Takes n area.old derivative.now) n area.old area.new
        (λ v. perturbed n perturbation (turned n v derivative.now)) }
{
    if takes(area, n, derivative) {
        workspace::turn(area, n, derivative);
        let norm = workspace::direction_norm(area, n);
        workspace::perturb(area, n, perturbation, norm);
    }
}
