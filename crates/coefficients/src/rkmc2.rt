// `run_rkmc2` of chebyshev.rs: the recurrence of the Chebyshev polynomials, and the weights of the candidate. omega_zero and
// omega_one are tables by s, read only when the stages begin.
ghost use Rattle.std.specs.Prelude.{◌≡◌};
ghost use Rattle.family.specs.declared.Family.TheVariants.{RKMC2};
ghost use Rattle.coefficients.specs.Rows as rows;

use crate::{Advance, Coefficients, Polynomials, Recurrence, Weights};

#[tactic(auto, using(family::proofs::Constants::constants), unfolding(crate::specs::Rows::rkmc2_b_first))]
pub fn first_b(s: u64) -> f64
    ensures { result ≡ rows.rkmc2_b_first s }
{
    1.0 / (1.0 + rkmc2_omega_zero::omega_zero(s))
}

#[tactic(auto, using(family::proofs::Constants::constants), unfolding(crate::specs::Rows::rkmc2_first_polynomials))]
pub fn first_polynomials(omega: f64, s: u64) -> Polynomials
    ensures { result ≡ rows.rkmc2_first_polynomials omega s }
{
    Polynomials {
        b_previous: first_b(s),
        b_previous_two: 1.0 / (1.0 + 1.0),
        ..Polynomials::begin(rkmc2_omega_zero::omega_zero(s), omega)
    }
}

// The polynomial of this stage, from those of the two before, and b.
#[tactic(auto, using(family::proofs::Constants::constants), unfolding(crate::specs::Rows::rkmc2_polynomials_on, crate::specs::Rows::tsrkc2_polynomials_on, crate::specs::Rows::rkmc2_b_of))]
pub fn next_polynomials(p: Polynomials) -> Polynomials
    ensures { result ≡ rows.rkmc2_polynomials_on p }
{
    let on = p.with_next_value();
    Polynomials {
        b_previous: 1.0 / (1.0 + on.value_previous),
        b_previous_two: p.b_previous,
        ..on
    }
}

// The row, from b of its stage and what is carried.
#[tactic(auto, using(family::proofs::Constants::constants), unfolding(crate::specs::Rows::rkmc2_row))]
fn row_from(b: f64, c: Recurrence) -> Coefficients
    requires { b ≡ rows.rkmc2_b_of c.polynomials }
    ensures { result ≡ rows.rkmc2_row c }
{
    let p = c.polynomials;
    let mu = 2.0 * p.omega_zero * b / p.b_previous;
    let nu = -b / p.b_previous_two;
    let mu_tilde = 2.0 * p.omega_one * b / p.b_previous;
    Coefficients {
        mu,
        nu,
        mu_tilde,
        gamma_tilde: p.b_previous,
        theta: c.theta(mu, nu, mu_tilde * (1.0 - p.b_previous)),
    }
}

// The row, from what is carried.
#[tactic(auto, unfolding(crate::specs::Rows::rkmc2_polynomials_on, crate::specs::Rows::tsrkc2_polynomials_on, crate::specs::Rows::rkmc2_b_of))]
pub fn row(c: Recurrence) -> Coefficients
    ensures { result ≡ rows.rkmc2_row c }
{
    row_from(next_polynomials(c.polynomials).b_previous, c)
}

// The row and what is carried on from it, with the polynomials worked out once.
#[tactic(auto, unfolding(crate::specs::Rows::next_of, crate::specs::Rows::next_polynomials, crate::specs::Rows::polynomials_on, crate::specs::Rows::rkmc2_polynomials_on, crate::specs::Rows::tsrkc2_polynomials_on, crate::specs::Rows::rkmc2_b_of, family::specs::Family::facts_of))]
pub fn advance(c: Recurrence) -> Advance
    ensures row_value { result.row ≡ rows.rkmc2_row c }
    ensures after_value { result.after ≡ rows.next_of RKMC2 c result.row }
{
    let on = next_polynomials(c.polynomials);
    c.advance(row_from(on.b_previous, c), on)
}

// The candidate's weights after stage s, into which c was carried.
#[tactic(auto, using(family::proofs::Constants::constants), unfolding(crate::specs::Rows::candidate_weights, crate::specs::Rows::rkmc2_polynomials_on))]
pub fn candidate_weights(s: u64, c: Recurrence) -> Weights
    ensures { result ≡ rows.candidate_weights s c }
{
    let p = c.polynomials;
    let b_final = next_polynomials(p).b_previous;
    let degree = ieee::double_of(s);
    let gamma = p.b_previous / (2.0 * degree * p.omega_one);
    let delta = -p.b_previous / (2.0 * (degree - 2.0) * p.omega_one);
    Weights {
        initial: 1.0 - gamma / b_final - delta / p.b_previous_two,
        last: gamma / b_final,
        older: delta / p.b_previous_two,
        slope: p.b_previous,
    }
}
