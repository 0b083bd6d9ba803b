// The two functions at the end of workspace.rs that take a slice, `vector_norm` and `finite`; and the norm that `scaled_error_norm` shares.
#![tactic(auto)]

ghost use Rattle.std.specs.Prelude.{◌≡◌, ◌<◌, ℕ, List, Float, length, map, false};
ghost use Rattle.std.specs.Float.{inf};
ghost use Rattle.std.specs.Float.Ieee.{eq};
ghost use Rattle.norm.specs.Norm as spec;
ghost use Rattle.norm.specs.Norm.{root_over};
ghost use Rattle.norm.specs.Entries.{Gives};

// 2^-520 and 2^520.
const LOWERING: f64 = 2.913414348125081e-157;

const RAISING: f64 = 3.432398830065305e156;

pub fn all_finite(v: &[f64]) -> bool
    ensures { result ≡ spec.all_finite v.now }
{
    every_finite(v.len(), &|i| v[i])
}

pub fn vector_norm(v: &[f64]) -> f64
    ensures { result ≡ spec.vector_norm v.now }
{
    root_of_squares(v.len(), 1.0, |i| v[i])
}

// The root of the sum of the squares of n entries, over a divisor: of a norm, with 1, and of the error norm, with n. xs is any list of what `entry` gives.
// A second pass only where the sum is infinite. The entries come by their index, since those of the error norm are worked out in
// the area.
pub fn root_of_squares<F: Fn(usize) -> f64>(n: usize, divisor: f64, entry: F) -> f64
    requires { (i : ℕ) → i < n → F.pre entry i }
    ensures { (xs : List Float) → length xs ≡ n → Gives (F.post entry) xs → result ≡ spec.root_of_squares divisor xs }
{
    let sum = sum_of_squares(n, &entry);
    if is_infinite(sum) && every_finite(n, &entry) {
        raised_root_of(sum_of_lowered(n, &entry), divisor)
    } else {
        root_of(sum, divisor)
    }
}

fn sum_of_squares<F: Fn(usize) -> f64>(n: usize, entry: &F) -> f64
    requires { (i : ℕ) → i < n → F.pre entry.now i }
    ensures { (xs : List Float) → length xs ≡ n → Gives (F.post entry.now) xs → result ≡ spec.sum_of_squares xs }
{
    let mut t = 0.0;
    for i in 0..n {
        let x = entry(i);
        t += x * x;
    }
    t
}

// Counted, with no branch in the loop, for speed (docs/BENCHMARKS.md).
fn every_finite<F: Fn(usize) -> f64>(n: usize, entry: &F) -> bool
    requires { (i : ℕ) → i < n → F.pre entry.now i }
    ensures { (xs : List Float) → length xs ≡ n → Gives (F.post entry.now) xs → result ≡ spec.all_finite xs }
{
    let mut others: u64 = 0;
    for i in 0..n {
        others += u64::from(!entry(i).is_finite());
    }
    others == 0
}

// The second sum.
fn sum_of_lowered<F: Fn(usize) -> f64>(n: usize, entry: &F) -> f64
    requires { (i : ℕ) → i < n → F.pre entry.now i }
    ensures { (xs : List Float) → length xs ≡ n → Gives (F.post entry.now) xs → result ≡ spec.sum_of_squares (map spec.lowered xs) }
{
    sum_of_squares(
        n,
        &|i: usize| -> f64
            requires { F.pre entry.now i }
            ensures { (x : Float) × F.post entry.entry.now i x × (result ≡ spec.lowered x) }
        { lowered(entry(i)) },
    )
}

pub fn is_infinite(sum: f64) -> bool
    ensures { result ≡ eq sum (inf false) }
{
    sum == f64::INFINITY
}

// An entry before it is squared for the second sum.
pub fn lowered(x: f64) -> f64
    ensures { result ≡ spec.lowered x }
{
    x * LOWERING
}

// The root of a sum of squares, over a divisor.
#[tactic(auto, unfolding(crate::specs::Norm::root_over))]
pub fn root_of(sum: f64, divisor: f64) -> f64
    ensures { result ≡ root_over divisor sum }
{
    ieee::sqrt(sum / divisor)
}

// The same of the second sum.
pub fn raised_root_of(sum: f64, divisor: f64) -> f64
    ensures { result ≡ spec.raised (root_over divisor sum) }
{
    root_of(sum, divisor) * RAISING
}
