// workspace.rs: what `spectral_radius` does before, between and after its evaluations. The loops go by index, as those of stages.
ghost use Rattle.std.specs.Prelude.{◌≡◌, ◌*◌, ◌≤◌, ◌<◌, length};
ghost use Rattle.workspace.specs.Vectors.{number, unpack, Becomes, eigenvector, vector_norm};
ghost use Rattle.workspace.specs.Kernel.{with_direction, perturbation_of, perturbed_by, turned, ended, scaled};

use crate::Vector;
use crate::area::{copy_vector, fill_vector, put_vector, vector};

// The root of f64::EPSILON: 2^-26.
const ROOT_EPSILON: f64 = 1.4901161193847656e-8;

// The norm of vector v.
fn norm_of(area: &[f64], n: usize, v: Vector) -> f64
    requires n_in_bounds { 11 * n ≤ length area.now }
    requires v_bound { number v < 11 }
    ensures { result ≡ vector_norm (unpack n area.now v) }
{
    norm::vector_norm(vector(area, n, v))
}

// The norm of the direction.
pub fn direction_norm(area: &[f64], n: usize) -> f64
    requires { 11 * n ≤ length area.now }
    ensures { result ≡ vector_norm (unpack n area.now eigenvector) }
{
    norm_of(area, n, Vector::Eigenvector)
}

// The kept eigenvector, else the first derivative, else all ones; and its norm, for the first pass.
pub fn choose_direction(area: &mut [f64], n: usize) -> f64
    requires { 11 * n ≤ length area.old }
    ensures { Becomes n area.old area.new (with_direction n) × (result ≡ vector_norm (unpack n area.new eigenvector)) }
{
    let kept = direction_norm(area, n);
    if kept <= f64::MIN_POSITIVE {
        let first = norm_of(area, n, Vector::FirstDerivative);
        if first <= f64::MIN_POSITIVE {
            fill_vector(area, n, Vector::Eigenvector, 1.0);
            return direction_norm(area, n);
        }
        copy_vector(area, n, Vector::FirstDerivative, Vector::Eigenvector);
        return first;
    }
    kept
}

pub fn perturbation(area: &[f64], n: usize) -> f64
    requires { 11 * n ≤ length area.now }
    ensures { result ≡ perturbation_of (unpack n area.now) }
{
    ROOT_EPSILON * ieee::max(norm_of(area, n, Vector::State), 1.0)
}

// The point of a pass. Its caller has the direction's norm at hand, which the Rust works out a second time.
pub fn perturb(area: &mut [f64], n: usize, perturbation: f64, norm: f64)
    requires { 11 * n ≤ length area.old }
    ensures { Becomes n area.old area.new (perturbed_by n perturbation norm) }
{
    let scale = perturbation / ieee::max(norm, f64::MIN_POSITIVE);
    for i in 0..n {
        area[Vector::PerturbedState as usize * n + i] = area[Vector::State as usize * n + i]
            + scale * area[Vector::Eigenvector as usize * n + i];
    }
}

// The pass's derivative taken: the next direction.
pub fn turn(area: &mut [f64], n: usize, derivative: &[f64])
    requires n_in_bounds { 11 * n ≤ length area.old }
    requires derivative_len { length derivative.now ≡ n }
    ensures { Becomes n area.old area.new (λ w. turned n w derivative.now) }
{
    put_vector(area, n, Vector::PerturbedDerivative, derivative);
    for i in 0..n {
        let perturbed = area[Vector::PerturbedDerivative as usize * n + i];
        let first = area[Vector::FirstDerivative as usize * n + i];
        area[Vector::Eigenvector as usize * n + i] = perturbed - first;
    }
}

// Whether the iteration ends after this pass: at radius 0, and from the second pass on at a small change.
pub fn iteration_ended(pass: u64, previous: f64, radius: f64) -> bool
    ensures { result ≡ ended pass previous radius }
{
    let repeated = pass > 1;
    radius == 0.0 || repeated && ieee::abs(radius - previous) <= 0.01 * ieee::max(radius, 1.0)
}

// |step| times the radius with its safety factor.
pub fn scaled_radius(step: f64, radius: f64) -> f64
    ensures { result ≡ scaled step radius }
{
    ieee::abs(step) * (1.2 * radius)
}
