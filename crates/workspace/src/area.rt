// One vector of the area at a time, lent to functions that know nothing of the area: copied, filled, tested.
// (`number v < 11` keeps out the older state, which an area may not have.)
ghost use Rattle.std.specs.Prelude.{◌≡◌, ◌+◌, ◌*◌, ◌≤◌, ◌<◌, length, replicate};
ghost use Rattle.workspace.specs.Vectors.{number, unpack, Becomes, ◌with◌≔◌, all_finite};

use crate::Vector;

// A loop, since std's `copy_from_slice` was tried: it makes a pass of the power iteration an eighth slower at n = 64 and 512.
pub fn copy_into(to: &mut [f64], from: &[f64])
    requires { length to.old ≡ length from.now }
    ensures { to.new ≡ from.now }
{
    for i in 0..from.len() {
        to[i] = from[i];
    }
}

// Vector v.
pub fn vector(area: &[f64], n: usize, v: Vector) -> &[f64]
    requires n_in_bounds { 11 * n ≤ length area.now }
    requires v_bound { number v < 11 }
    ensures len { length result.now ≡ n }
    ensures value { result.now ≡ unpack n area.now v }
{
    let k = v as usize;
    &area[k * n..k * n + n]
}

// Vector v becomes x.
pub fn put_vector(area: &mut [f64], n: usize, v: Vector, x: &[f64])
    requires n_in_bounds { 11 * n ≤ length area.old }
    requires x_len { length x.now ≡ n }
    requires v_bound { number v < 11 }
    ensures { Becomes n area.old area.new (λ w. w with v ≔ x.now) }
{
    let k = v as usize;
    copy_into(&mut area[k * n..k * n + n], x);
}

// Every element of vector v becomes x.
pub fn fill_vector(area: &mut [f64], n: usize, v: Vector, x: f64)
    requires n_in_bounds { 11 * n ≤ length area.old }
    requires v_bound { number v < 11 }
    ensures { Becomes n area.old area.new (λ w. w with v ≔ replicate n x) }
{
    let k = v as usize;
    area[k * n..k * n + n].fill(x);
}

// Vector `to` becomes vector `from`.
pub fn copy_vector(area: &mut [f64], n: usize, from: Vector, to: Vector)
    requires n_in_bounds { 11 * n ≤ length area.old }
    requires n_in_bounds_2 { (number from * n + n ≤ length area.old) × (number to * n + n ≤ length area.old) }
    ensures { Becomes n area.old area.new (λ w. w with to ≔ w from) }
{
    let from = from as usize;
    area.copy_within(from * n..from * n + n, to as usize * n);
}

// Whether vector v is finite.
pub fn finite_vector(area: &[f64], n: usize, v: Vector) -> bool
    requires n_in_bounds { 11 * n ≤ length area.now }
    requires v_bound { number v < 11 }
    ensures { result ≡ all_finite (unpack n area.now v) }
{
    norm::all_finite(vector(area, n, v))
}
