// `run_tsrkc2` of chebyshev.rs: what follows from s and the quotient of the steps, worked out when the stages begin, and the
// recurrence of the Chebyshev polynomials. omega_zero - 1 is a table by s.
ghost use Rattle.std.specs.Prelude.{◌≡◌};
ghost use Rattle.coefficients.specs.Rows as rows;

use crate::{Coefficients, Polynomials, Recurrence};

// The value of the polynomial of degree s at omega_zero.
const T_STAR: f64 = 1.1;

// The sinh of its acosh, 3FDD54178E8830D8.
const SINH_ACOSH_T_STAR: f64 = 0.45825756949558416;

#[tactic(auto, using(family::proofs::Constants::constants, crate::proofs::Stars::stars), unfolding(crate::specs::Rows::tsrkc2_omega_zero))]
pub fn omega_zero(s: u64) -> f64
    ensures { result ≡ rows.tsrkc2_omega_zero s }
{
    1.0 + tsrkc2_omega_zero_minus_one::omega_zero_minus_one(s)
}

#[tactic(auto, using(family::proofs::Constants::constants, crate::proofs::Stars::stars), unfolding(crate::specs::Rows::omega_zero_squared_minus_one))]
fn omega_zero_squared_minus_one(s: u64) -> f64
    ensures { result ≡ rows.omega_zero_squared_minus_one s }
{
    let w = tsrkc2_omega_zero_minus_one::omega_zero_minus_one(s);
    w * (w + 2.0)
}

// The polynomial's first derivative at omega_zero.
#[tactic(auto, using(family::proofs::Constants::constants, crate::proofs::Stars::stars), unfolding(crate::specs::Rows::derivative_t_star))]
fn derivative_t_star(s: u64) -> f64
    ensures { result ≡ rows.derivative_t_star s }
{
    let degree = ieee::double_of(s);
    let root = ieee::sqrt(omega_zero_squared_minus_one(s));
    degree * SINH_ACOSH_T_STAR / root
}

// Its second, from the first.
#[tactic(auto, using(family::proofs::Constants::constants, crate::proofs::Stars::stars), unfolding(crate::specs::Rows::second_derivative_t_star, ieee::specs::Double::square))]
fn second_derivative_t_star(s: u64, first: f64) -> f64
    requires { first ≡ rows.derivative_t_star s }
    ensures { result ≡ rows.second_derivative_t_star s }
{
    let degree = ieee::double_of(s);
    let w = omega_zero(s);
    (degree * degree * T_STAR - w * first) / omega_zero_squared_minus_one(s)
}

#[tactic(auto, using(family::proofs::Constants::constants, crate::proofs::Stars::stars), unfolding(crate::specs::Rows::tsrkc2_omega_one, ieee::specs::Double::square))]
pub fn omega_one(q: f64, s: u64) -> f64
    ensures { result ≡ rows.tsrkc2_omega_one q s }
{
    let first = derivative_t_star(s);
    let second = second_derivative_t_star(s, first);
    let x = (1.0 - q) * first;
    let root = ieee::sqrt(x * x + 4.0 * q * T_STAR * second);
    (x + root) / (2.0 * second)
}

// The weight of the last stage in the candidate, from omega_one, here `w`.
#[tactic(auto, using(family::proofs::Constants::constants, crate::proofs::Stars::stars), unfolding(crate::specs::Rows::tsrkc2_gain))]
fn gain(q: f64, w: f64, s: u64) -> f64
    ensures { result ≡ rows.tsrkc2_gain q w s }
{
    (1.0 + q) * T_STAR / (q * T_STAR + w * derivative_t_star(s))
}

#[tactic(auto, using(family::proofs::Constants::constants), unfolding(crate::specs::Rows::tsrkc2_first_polynomials))]
pub fn first_polynomials(q: f64, omega: f64, s: u64) -> Polynomials
    ensures { result ≡ rows.tsrkc2_first_polynomials q omega s }
{
    Polynomials {
        gain: gain(q, omega, s),
        ..Polynomials::begin(omega_zero(s), omega)
    }
}

// The row, from the polynomial of its stage and what is carried.
#[tactic(auto, using(family::proofs::Constants::constants), unfolding(crate::specs::Rows::tsrkc2_row))]
pub fn row(value: f64, c: Recurrence) -> Coefficients
    requires { value ≡ rows.value_of c.polynomials }
    ensures { result ≡ rows.tsrkc2_row c }
{
    let p = c.polynomials;
    let mu = 2.0 * p.omega_zero * p.value_previous / value;
    let nu = -p.value_previous_two / value;
    let mu_tilde = mu * p.omega_one / p.omega_zero;
    Coefficients {
        mu,
        nu,
        mu_tilde,
        gamma_tilde: 0.0,
        theta: c.theta(mu, nu, mu_tilde),
    }
}
