// The coefficients of a stage's row: orthogonal.rs, and `run_rkc`, `run_rkmc2` and `run_tsrkc2` of chebyshev.rs.
#![tactic(auto)]

ghost use Rattle.std.specs.Prelude.{◌≡◌, ◌+◌, ◌≤◌, ◌<◌, ◌^◌};
ghost use Rattle.ieee.specs.Double.{◌⊕◌, ◌⊗◌};
ghost use Rattle.family.specs.Family.{kind};
ghost use Rattle.coefficients.specs.Rows as rows;

use family::{Family, RowForm, Setting};

mod chebyshev;
mod orthogonal;
pub mod rkmc2;
mod tsrkc2;

// A row's coefficients, and `theta` after its stage. In RKC `gamma_tilde` holds the Rust's `nu_tilde`, in
// RKMC2 its `b_previous`; in TSRKC2 it is 0 and not read.
#[derive(Clone, Copy)]
pub struct Coefficients {
    pub mu: f64,
    pub nu: f64,
    pub mu_tilde: f64,
    pub gamma_tilde: f64,
    pub theta: f64,
}

// What RKC carries from stage to stage: omega_zero and omega_one as the stages began with them, b, and the Chebyshev polynomial
// at omega_zero with its first and second derivative, each of the two stages before. RKMC2 carries the same without the
// derivatives, TSRKC2 without b too, and the gain of its candidate. The other families leave it as it is and never read it.
#[derive(Clone, Copy, Default)]
pub struct Polynomials {
    pub omega_zero: f64,
    pub omega_one: f64,
    pub b_previous: f64,
    pub b_previous_two: f64,
    pub value_previous: f64,
    pub value_previous_two: f64,
    pub first_previous: f64,
    pub first_previous_two: f64,
    pub second_previous: f64,
    pub second_previous_two: f64,
    pub gain: f64,
}

impl Polynomials {
    // Into stage 2: the polynomial of degree 1 at omega_zero, and that of degree 0.
    #[tactic(auto, using(family::proofs::Constants::constants))]
    fn begin(omega_zero: f64, omega_one: f64) -> Polynomials
        ensures { result ≡ rows.value_begun omega_zero omega_one }
    {
        Polynomials {
            omega_zero,
            omega_one,
            b_previous: 0.0,
            b_previous_two: 0.0,
            value_previous: omega_zero,
            value_previous_two: 1.0,
            first_previous: 0.0,
            first_previous_two: 0.0,
            second_previous: 0.0,
            second_previous_two: 0.0,
            gain: 0.0,
        }
    }

    // With the polynomial of this stage, from those of the two before; all else as it was.
    #[tactic(auto, using(family::proofs::Constants::constants), unfolding(crate::specs::Rows::tsrkc2_polynomials_on, crate::specs::Rows::value_of))]
    fn with_next_value(self) -> Polynomials
        ensures { result ≡ rows.tsrkc2_polynomials_on self }
    {
        Polynomials {
            value_previous: 2.0 * self.omega_zero * self.value_previous - self.value_previous_two,
            value_previous_two: self.value_previous,
            ..self
        }
    }
}

// What the loop over the stages carries on.
#[derive(Clone, Copy, Default)]
pub struct Recurrence {
    pub theta_previous: f64,
    pub theta_previous_two: f64,
    pub polynomials: Polynomials,
}

impl Recurrence {
    // The stages before, weighed by mu and nu, and what a row adds.
    fn theta(self, mu: f64, nu: f64, more: f64) -> f64
        ensures { result ≡ mu ⊗ self.theta_previous ⊕ nu ⊗ self.theta_previous_two ⊕ more }
    {
        mu * self.theta_previous + nu * self.theta_previous_two + more
    }

    // What is carried on from a stage with this theta and these polynomials.
    fn after(self, theta: f64, polynomials: Polynomials) -> Recurrence
        ensures { result ≡ record { theta_previous = theta; theta_previous_two = self.theta_previous; polynomials = polynomials } }
    {
        Recurrence {
            theta_previous: theta,
            theta_previous_two: self.theta_previous,
            polynomials,
        }
    }

    fn advance(self, row: Coefficients, polynomials: Polynomials) -> Advance
        ensures row_value { result.row ≡ row }
        ensures after_value { result.after ≡ record { theta_previous = row.theta; theta_previous_two = self.theta_previous; polynomials = polynomials } }
    {
        Advance {
            row,
            after: self.after(row.theta, polynomials),
        }
    }
}

// A stage's row, and what is carried on from it.
#[derive(Clone, Copy)]
pub struct Advance {
    pub row: Coefficients,
    pub after: Recurrence,
}

// RKMC2's candidate: the weights of the state, of the last stage, of the stage two before it, and of step times the first
// derivative.
#[derive(Clone, Copy)]
pub struct Weights {
    pub initial: f64,
    pub last: f64,
    pub older: f64,
    pub slope: f64,
}

#[tactic(auto, unfolding(crate::specs::Rows::omega_one_of))]
pub fn omega_one(setting: Setting, s: u64) -> f64
    ensures { result ≡ rows.omega_one_of (kind setting) setting.quotient s }
{
    match setting.family {
        Family::RKC => chebyshev::omega_one(s),
        Family::RKL1 => orthogonal::legendre_one_omega(s),
        Family::RKL2 => orthogonal::legendre_two_omega(s),
        Family::RKG1 => orthogonal::gegenbauer_one_omega(s),
        Family::RKG2 => orthogonal::gegenbauer_two_omega(s),
        Family::RKMC2 => rkmc2_omega_one::omega_one(s),
        Family::TSRKC2 => tsrkc2::omega_one(setting.quotient, s),
    }
}

// From omega_one, here `w`.
#[tactic(auto, using(family::proofs::Constants::constants), unfolding(crate::specs::Rows::first_mu_tilde))]
fn first_from(setting: Setting, s: u64, w: f64) -> f64
    requires { w ≡ rows.omega_one_of (kind setting) setting.quotient s }
    ensures { result ≡ rows.first_mu_tilde (kind setting) setting.quotient s }
{
    match setting.family {
        Family::RKC => w * chebyshev::first_b(s),
        Family::RKL2 => w / 3.0,
        Family::RKL1 | Family::RKG1 | Family::RKG2 => w,
        Family::RKMC2 => rkmc2::first_b(s) * w,
        Family::TSRKC2 => w / tsrkc2::omega_zero(s),
    }
}

pub fn first_mu_tilde(setting: Setting, s: u64) -> f64
    ensures { result ≡ rows.first_mu_tilde (kind setting) setting.quotient s }
{
    let w = omega_one(setting, s);
    first_from(setting, s, w)
}

#[tactic(auto, unfolding(crate::specs::Rows::first_polynomials_in))]
fn first_polynomials(form: RowForm, q: f64, w: f64, s: u64) -> Polynomials
    ensures { result ≡ rows.first_polynomials_in form q w s }
{
    match form {
        RowForm::ChebyshevRow | RowForm::OrthogonalRow => chebyshev::first_polynomials(w, s),
        RowForm::InitialFirstRow => rkmc2::first_polynomials(w, s),
        RowForm::PlainRow => tsrkc2::first_polynomials(q, w, s),
    }
}

// What is carried into stage 2.
#[tactic(auto, using(family::proofs::Constants::constants), unfolding(crate::specs::Rows::recurrence_of))]
pub fn first_recurrence(setting: Setting, s: u64) -> Recurrence
    ensures { result ≡ rows.recurrence setting s }
{
    let w = omega_one(setting, s);
    Recurrence {
        theta_previous: first_from(setting, s, w),
        theta_previous_two: 0.0,
        polynomials: first_polynomials(setting.family.facts().row, setting.quotient, w, s),
    }
}

#[tactic(auto, unfolding(crate::specs::Rows::next_polynomials))]
fn next_polynomials(form: RowForm, p: Polynomials) -> Polynomials
    ensures { result ≡ rows.next_polynomials form p }
{
    match form {
        RowForm::ChebyshevRow => chebyshev::next_polynomials(p),
        RowForm::OrthogonalRow => p,
        RowForm::InitialFirstRow => rkmc2::next_polynomials(p),
        RowForm::PlainRow => p.with_next_value(),
    }
}

// What is carried on from a stage with this row.
#[tactic(auto, unfolding(crate::specs::Rows::next_of))]
pub fn next_recurrence(setting: Setting, c: Recurrence, row: Coefficients) -> Recurrence
    ensures { result ≡ rows.next setting c row }
{
    c.after(
        row.theta,
        next_polynomials(setting.family.facts().row, c.polynomials),
    )
}

// The row of stage j and what is carried on from it, with the polynomials worked out once. j is below 2^32 - 1, so that the
// products in RKG's b are numbers of 64 bits.
#[tactic(auto, unfolding(crate::specs::Rows::coefficients_of, crate::specs::Rows::next_of, crate::specs::Rows::next_polynomials, crate::specs::Rows::polynomials_on, crate::specs::Rows::rkmc2_polynomials_on, crate::specs::Rows::tsrkc2_polynomials_on, family::specs::Family::facts_of))]
pub fn row_and_recurrence(setting: Setting, s: u64, j: u64, c: Recurrence) -> Advance
    requires { (2 ≤ j) × (j + 1 < 2 ^ 32) }
    ensures row_value { result.row ≡ rows.coefficients setting s j c }
    ensures after_value { result.after ≡ rows.next setting c result.row }
{
    match setting.family {
        Family::RKC => {
            let on = chebyshev::next_polynomials(c.polynomials);
            c.advance(chebyshev::row(on.b_previous, c), on)
        }
        Family::RKL1 => c.advance(orthogonal::legendre_one(s, j, c), c.polynomials),
        Family::RKL2 => c.advance(orthogonal::legendre_two(s, j, c), c.polynomials),
        Family::RKG1 => c.advance(orthogonal::gegenbauer_one(s, j, c), c.polynomials),
        Family::RKG2 => c.advance(orthogonal::gegenbauer_two(s, j, c), c.polynomials),
        Family::RKMC2 => rkmc2::advance(c),
        Family::TSRKC2 => {
            let on = c.polynomials.with_next_value();
            c.advance(tsrkc2::row(on.value_previous, c), on)
        }
    }
}

// The row alone.
pub fn row_coefficients(setting: Setting, s: u64, j: u64, c: Recurrence) -> Coefficients
    requires { (2 ≤ j) × (j + 1 < 2 ^ 32) }
    ensures { result ≡ rows.coefficients setting s j c }
{
    row_and_recurrence(setting, s, j, c).row
}
