// Loops over the calls whose speed bench/ measures, and the stage rules by themselves, whose compiled code bindings/run
// searches for a division.
#![tactic(auto)]

ghost use Rattle.std.specs.Prelude.{◌≡◌, Float};
ghost use Rattle.ieee.specs.Sqrt.{sqrt};
ghost use Rattle.family.specs.Family.{family_of, stage_count};
ghost use Rattle.timed.specs.Left.{roots_over, root_chain};

use family::Family;

mod loops;

// Roots that do not wait for each other. By index, since either slice may be the longer.
fn each_root<F: Fn(f64) -> f64>(out: &mut [f64], x: &[f64], root: F)
    requires callable { F.IsAlwaysCallable root }
    requires is_root { (y r : Float) → F.post root y r → r ≡ sqrt y }
    ensures { out.new ≡ roots_over x.now out.old }
{
    for i in 0..out.len().min(x.len()) {
        out[i] = root(x[i]);
    }
}

#[unsafe(no_mangle)]
pub extern "C" fn timed_roots(out: &mut [f64], x: &[f64])
    ensures { out.new ≡ roots_over x.now out.old }
{
    each_root(out, x, ieee::sqrt);
}

#[unsafe(no_mangle)]
pub extern "C" fn timed_roots_by_digits(out: &mut [f64], x: &[f64])
    ensures { out.new ≡ roots_over x.now out.old }
{
    each_root(out, x, ieee::sqrt_by_digits);
}

// Roots of which each waits for the one before.
fn chain<F: Fn(f64) -> f64>(x: &[f64], root: F) -> f64
    requires callable { F.IsAlwaysCallable root }
    requires is_root { (y r : Float) → F.post root y r → r ≡ sqrt y }
    ensures { result ≡ root_chain x.now }
{
    let mut a = 2.0;
    for y in x {
        a = root(a + *y);
    }
    a
}

#[unsafe(no_mangle)]
pub extern "C" fn timed_root_chain(x: &[f64]) -> f64
    ensures { result ≡ root_chain x.now }
{
    chain(x, ieee::sqrt)
}

#[unsafe(no_mangle)]
pub extern "C" fn timed_root_chain_by_digits(x: &[f64]) -> f64
    ensures { result ≡ root_chain x.now }
{
    chain(x, ieee::sqrt_by_digits)
}

// The stage rules of all families, with the quotient q of the steps.
#[unsafe(no_mangle)]
pub extern "C" fn timed_stages(family: u64, q: f64, scaled_radius: f64) -> u64
    ensures { result ≡ stage_count (family_of family) q scaled_radius }
{
    Family::from(family).stages(q, scaled_radius)
}
