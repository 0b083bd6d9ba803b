// The end of `attempt_step`: the error vector of each family and its norm. The loop goes by index, as those of stages.
ghost use Rattle.std.specs.Prelude.{◌≡◌, ◌*◌, ◌≤◌, ◌<◌, length};
ghost use Rattle.workspace.specs.Vectors.{column, unpack, Becomes, ◌with◌≔◌, each, derivative};
ghost use Rattle.workspace.specs.Kernel as kernel;
ghost use Rattle.workspace.specs.Kernel.{with_last, scaled_error, scaled_error_norm, error_norm};

use crate::area::put_vector;
use crate::{Arguments, Vector};
use family::{ErrorForm, Setting};

// An element of the error, from its column. Each arm is its form's formula, matched in the loop: it runs once an attempt.
fn error_at(area: &[f64], n: usize, i: usize, form: ErrorForm, step: f64) -> f64
    requires n_in_bounds { 11 * n ≤ length area.now }
    requires i_lt_n { i < n }
    ensures { result ≡ kernel.error_in form step (column n area.now i) }
{
    let initial = area[Vector::State as usize * n + i];
    let final_state = area[Vector::Candidate as usize * n + i];
    let first = area[Vector::FirstDerivative as usize * n + i];
    let last = area[Vector::LastDerivative as usize * n + i];
    match form {
        ErrorForm::BothDerivatives => {
            (4.0 * (initial - final_state) + 2.0 * step * (first + last)) / 5.0
        }
        ErrorForm::FirstDerivative => final_state - (initial + step * first),
        ErrorForm::LastDerivative { over } => (initial - final_state + step * last) / over,
    }
}

// The error goes where the derivative stood.
fn put_error(area: &mut [f64], n: usize, form: ErrorForm, step: f64)
    requires { 11 * n ≤ length area.old }
    ensures { Becomes n area.old area.new (λ w. w with derivative ≔ each n w (kernel.error_in form step)) }
{
    for i in 0..n {
        area[Vector::Derivative as usize * n + i] = error_at(area, n, i, form, step);
    }
}

// The last derivative taken, and the error with `adaptive`.
pub fn last(area: &mut [f64], n: usize, setting: Setting, arguments: Arguments, derivative: &[f64])
    requires n_in_bounds { 11 * n ≤ length area.old }
    requires derivative_len { length derivative.now ≡ n }
    ensures { Becomes n area.old area.new (λ w. with_last setting n arguments w derivative.now) }
{
    put_vector(area, n, Vector::LastDerivative, derivative);
    if arguments.adaptive {
        let form = setting.family.facts().error;
        put_error(area, n, form, arguments.step);
    }
}

// An element of the error over its tolerance.
#[tactic(auto, unfolding(crate::specs::Kernel::scaled_error))]
fn scaled_error_at(area: &[f64], n: usize, i: usize, arguments: Arguments) -> f64
    requires n_in_bounds { 11 * n ≤ length area.now }
    requires i_lt_n { i < n }
    ensures { result ≡ scaled_error arguments (column n area.now i) }
{
    let size = ieee::max(
        ieee::abs(area[Vector::State as usize * n + i]),
        ieee::abs(area[Vector::Candidate as usize * n + i]),
    );
    area[Vector::Derivative as usize * n + i]
        / (arguments.absolute_tolerance + arguments.relative_tolerance * size)
}

fn scaled_error_norm(area: &[f64], n: usize, arguments: Arguments) -> f64
    requires { 11 * n ≤ length area.now }
    ensures { result ≡ scaled_error_norm n arguments (unpack n area.now) }
{
    let over = ieee::double_of(n as u64);
    norm::root_of_squares(n, over, |i| scaled_error_at(area, n, i, arguments))
}

// What the norm is divided by.
fn divisor(form: ErrorForm, stages: u64) -> f64
    ensures { result ≡ kernel.divisor_in form stages }
{
    match form {
        ErrorForm::FirstDerivative => ieee::double_of(stages),
        ErrorForm::BothDerivatives | ErrorForm::LastDerivative { .. } => 1.0,
    }
}

// The scaled error norm, divided last by 1 or s; 0 without `adaptive`.
pub fn error_norm(
    area: &[f64],
    n: usize,
    setting: Setting,
    stages: u64,
    arguments: Arguments,
) -> f64
    requires { 11 * n ≤ length area.now }
    ensures { result ≡ error_norm setting n stages arguments (unpack n area.now) }
{
    if arguments.adaptive {
        let scaled = scaled_error_norm(area, n, arguments);
        let form = setting.family.facts().error;
        scaled / divisor(form, stages)
    } else {
        0.0
    }
}
