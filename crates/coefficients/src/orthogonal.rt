// orthogonal.rs: the rows of RKL1, RKL2, RKG1 and RKG2, from s and the stage j. Each is its paper's formulas, in the order of
// the Rust's operations.
ghost use Rattle.std.specs.Prelude.{◌≡◌, ◌+◌, ◌≤◌, ◌<◌, ◌^◌};
ghost use Rattle.family.specs.Family.{Legendre1, Legendre2, Gegenbauer1, Gegenbauer2};
ghost use Rattle.coefficients.specs.Rows as rows;

use crate::{Coefficients, Recurrence};

// omega_one of each family. Apart from RKC's table, so that a row has it compiled in place.
#[tactic(auto, using(family::proofs::Constants::constants), unfolding(crate::specs::Rows::orthogonal_omega, ieee::specs::Double::square))]
pub fn legendre_one_omega(s: u64) -> f64
    ensures { result ≡ rows.orthogonal_omega Legendre1 s }
{
    let x = ieee::double_of(s);
    2.0 / (x * x + x)
}

#[tactic(auto, using(family::proofs::Constants::constants), unfolding(crate::specs::Rows::orthogonal_omega, ieee::specs::Double::square))]
pub fn legendre_two_omega(s: u64) -> f64
    ensures { result ≡ rows.orthogonal_omega Legendre2 s }
{
    let x = ieee::double_of(s);
    4.0 / (x * x + x - 2.0)
}

#[tactic(auto, using(family::proofs::Constants::constants), unfolding(crate::specs::Rows::orthogonal_omega))]
pub fn gegenbauer_one_omega(s: u64) -> f64
    ensures { result ≡ rows.orthogonal_omega Gegenbauer1 s }
{
    let x = ieee::double_of(s);
    4.0 / (x * (x + 3.0))
}

#[tactic(auto, using(family::proofs::Constants::constants), unfolding(crate::specs::Rows::orthogonal_omega))]
pub fn gegenbauer_two_omega(s: u64) -> f64
    ensures { result ≡ rows.orthogonal_omega Gegenbauer2 s }
{
    let x = ieee::double_of(s);
    6.0 / ((x + 4.0) * (x - 1.0))
}

#[tactic(auto, using(family::proofs::Constants::constants), unfolding(crate::specs::Rows::legendre_two_b))]
fn legendre_two_b(j: u64) -> f64
    ensures { result ≡ rows.legendre_two_b j }
{
    if j <= 2 {
        return 1.0 / 3.0;
    }
    let x = ieee::double_of(j);
    (x * x + x - 2.0) / (2.0 * x * (x + 1.0))
}

#[tactic(auto, using(family::proofs::Constants::constants), unfolding(crate::specs::Rows::gegenbauer_one_b))]
fn gegenbauer_one_b(j: u64) -> f64
    requires { j + 1 < 2 ^ 32 }
    ensures { result ≡ rows.gegenbauer_one_b j }
{
    2.0 / ieee::double_of((j + 1) * (j + 2))
}

#[tactic(auto, using(family::proofs::Constants::constants, crate::proofs::Late::late), unfolding(crate::specs::Rows::gegenbauer_two_b))]
fn gegenbauer_two_b(j: u64) -> f64
    ensures { result ≡ rows.gegenbauer_two_b j }
{
    match j {
        0 => 1.0,
        1 => 1.0 / 3.0,
        _ => {
            let x = ieee::double_of(j);
            4.0 * (x - 1.0) * (x + 4.0) / (3.0 * x * (x + 1.0) * (x + 2.0) * (x + 3.0))
        }
    }
}

#[tactic(auto, using(family::proofs::Constants::constants), unfolding(crate::specs::Rows::with_theta))]
fn with_theta(c: Recurrence, mu: f64, nu: f64, mu_tilde: f64, gamma_tilde: f64) -> Coefficients
    ensures { result ≡ rows.with_theta c mu nu mu_tilde gamma_tilde }
{
    Coefficients {
        mu,
        nu,
        mu_tilde,
        gamma_tilde,
        theta: c.theta(mu, nu, mu_tilde) + gamma_tilde,
    }
}

#[tactic(auto, using(family::proofs::Constants::constants), unfolding(crate::specs::Rows::legendre_one))]
pub fn legendre_one(s: u64, j: u64, c: Recurrence) -> Coefficients
    ensures { result ≡ rows.legendre_one (rows.orthogonal_omega Legendre1 s) j c }
{
    let x = ieee::double_of(j);
    let mu = (2.0 * x - 1.0) / x;
    with_theta(c, mu, -(x - 1.0) / x, mu * legendre_one_omega(s), 0.0)
}

#[tactic(auto, using(family::proofs::Constants::constants), unfolding(crate::specs::Rows::legendre_two))]
pub fn legendre_two(s: u64, j: u64, c: Recurrence) -> Coefficients
    requires { 2 ≤ j }
    ensures { result ≡ rows.legendre_two (rows.orthogonal_omega Legendre2 s) j c }
{
    let x = ieee::double_of(j);
    let b = legendre_two_b(j);
    let b_previous = legendre_two_b(j - 1);
    let b_previous_two = legendre_two_b(j - 2);
    let mu = (2.0 * x - 1.0) / x * b / b_previous;
    let nu = -(x - 1.0) / x * b / b_previous_two;
    let mu_tilde = mu * legendre_two_omega(s);
    with_theta(c, mu, nu, mu_tilde, -(1.0 - b_previous) * mu_tilde)
}

#[tactic(auto, using(family::proofs::Constants::constants), unfolding(crate::specs::Rows::gegenbauer_one))]
pub fn gegenbauer_one(s: u64, j: u64, c: Recurrence) -> Coefficients
    requires { (2 ≤ j) × (j + 1 < 2 ^ 32) }
    ensures { result ≡ rows.gegenbauer_one (rows.orthogonal_omega Gegenbauer1 s) j c }
{
    let x = ieee::double_of(j);
    let b = gegenbauer_one_b(j);
    let b_previous = gegenbauer_one_b(j - 1);
    let b_previous_two = gegenbauer_one_b(j - 2);
    let mu = (2.0 * x + 1.0) / x * b / b_previous;
    let nu = -(x + 1.0) / x * b / b_previous_two;
    with_theta(c, mu, nu, mu * gegenbauer_one_omega(s), 0.0)
}

#[tactic(auto, using(family::proofs::Constants::constants), unfolding(crate::specs::Rows::gegenbauer_two))]
pub fn gegenbauer_two(s: u64, j: u64, c: Recurrence) -> Coefficients
    requires { (2 ≤ j) × (j < 2 ^ 32) }
    ensures { result ≡ rows.gegenbauer_two (rows.orthogonal_omega Gegenbauer2 s) j c }
{
    let x = ieee::double_of(j);
    let b = gegenbauer_two_b(j);
    let b_previous = gegenbauer_two_b(j - 1);
    let b_previous_two = gegenbauer_two_b(j - 2);
    let mu = (2.0 * x + 1.0) / x * b / b_previous;
    let nu = -(x + 1.0) / x * b / b_previous_two;
    let mu_tilde = mu * gegenbauer_two_omega(s);
    let a_previous = 1.0 - ieee::double_of(j * (j + 1) / 2) * b_previous;
    with_theta(c, mu, nu, mu_tilde, -mu_tilde * a_previous)
}
