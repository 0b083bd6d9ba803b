// workspace.rs: the vectors of the lent area, the power iteration's steps, the rows and the error. The area goes as a slice
// with n beside it. In a struct of both (tried) the length need not be asked for, but each method owes instead that it holds the
// same slice and the same n still, and each of driver's functions that this n is the record's.
#![tactic(auto)]

ghost use Rattle.std.specs.Prelude.{◌≡◌};
ghost use Rattle.family.specs.Family.{family_of};
ghost use Rattle.workspace.specs.Vectors.{named, vector_count};

use family::Family;

pub mod area;
pub mod error;
pub mod iteration;
pub mod stages;

// Not `area::vector`: beside `Vector`, its name would differ in the case of a letter alone.
pub use area::{copy_into, copy_vector, fill_vector, finite_vector, put_vector};
pub use error::{error_norm, last};
pub use iteration::{
    choose_direction, direction_norm, iteration_ended, perturb, perturbation, scaled_radius, turn,
};
pub use stages::{first_stage, keep_candidate, row, row_and_exchange};

// What an attempt brings.
#[derive(Clone, Copy, Default)]
pub struct Arguments {
    pub time: f64,
    pub step: f64,
    pub absolute_tolerance: f64,
    pub relative_tolerance: f64,
    pub adaptive: bool,
}

// The vectors of the area, in its order: a vector's number is its place. The last is the state accepted before the present one,
// where the family keeps it.
#[derive(Clone, Copy)]
pub enum Vector {
    FirstDerivative,
    LastDerivative,
    Derivative,
    PreviousTwo,
    PreviousOne,
    NextStage,
    Eigenvector,
    PerturbedState,
    PerturbedDerivative,
    State,
    Candidate,
    OlderState,
}

// The vector of a number below 12; any other number is taken as 11.
impl From<usize> for Vector {
    ghost from_gives = { λ number vector. vector ≡ named number };

    fn from(number: usize) -> Vector {
        match number {
            0 => Vector::FirstDerivative,
            1 => Vector::LastDerivative,
            2 => Vector::Derivative,
            3 => Vector::PreviousTwo,
            4 => Vector::PreviousOne,
            5 => Vector::NextStage,
            6 => Vector::Eigenvector,
            7 => Vector::PerturbedState,
            8 => Vector::PerturbedDerivative,
            9 => Vector::State,
            10 => Vector::Candidate,
            _ => Vector::OlderState,
        }
    }
}

// How many vectors a family's area has.
#[tactic(auto, unfolding(crate::specs::Vectors::vector_count))]
pub fn vector_count(family: u64) -> usize
    ensures { result ≡ vector_count (family_of family) }
{
    let keeps_older = Family::from(family).keeps_older();
    if keeps_older { 12 } else { 11 }
}
