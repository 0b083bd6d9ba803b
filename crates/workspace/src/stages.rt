// The stages of `run_orthogonal_polynomial`, `run_rkc`, `run_rkmc2` and `run_tsrkc2`: stages 0 and 1, the rows, the exchange
// after a row, the candidate. The loops go by index, since a column's elements stand in several vectors of one slice.
ghost use Rattle.std.specs.Prelude.{◌≡◌, ◌+◌, ◌-◌, ◌*◌, ◌≤◌, ◌<◌, length, get_or, Float};
ghost use Rattle.std.specs.Float.{nan};
ghost use Rattle.family.specs.Family.{kind};
ghost use Rattle.workspace.specs.declared.Vector.{Vector};
ghost use Rattle.workspace.specs.Vectors.{column, number, vector_count, unpack, Becomes, ◌with◌≔◌, each, candidate};
ghost use Rattle.workspace.specs.Kernel.{first_stage, orthogonal_entry, chebyshev_entry, initial_first_entry, plain_entry, with_row_in, with_row, exchanged, combined_entry, mixed_entry, older_of, with_candidate};
ghost use Rattle.workspace.specs.Reads.{taking, Reads, Makes, weighted, rowed, Moved, Put};

use crate::Vector;
use crate::area::copy_vector;
use coefficients::{Coefficients, Recurrence, Weights};
use family::{CandidateForm, RowForm, Setting};

// Stages 0 and 1.
pub fn first_stage(area: &mut [f64], n: usize, step: f64, mu_tilde: f64)
    requires { 11 * n ≤ length area.old }
    ensures { Becomes n area.old area.new (first_stage n step mu_tilde) }
{
    for i in 0..n {
        let initial = area[Vector::State as usize * n + i];
        let first = area[Vector::FirstDerivative as usize * n + i];
        area[Vector::PreviousTwo as usize * n + i] = initial;
        area[Vector::PreviousOne as usize * n + i] = initial + step * mu_tilde * first;
    }
}

// What a row reads at one index.
#[derive(Clone, Copy)]
struct Entries {
    one: f64,
    two: f64,
    initial: f64,
    slope: f64,
    first: f64,
}

// The slope is read in the derivative, which is not in the area yet. `ten` is the area up to the candidate: a row
// reads other vectors than the one it writes, so it is lent the shortest part that holds them all.
#[tactic(auto, unfolding(crate::specs::Reads::Reads))]
fn entries_at(ten: &[f64], n: usize, i: usize, derivative: &[f64]) -> Entries
    requires ten_len { length ten.now ≡ 10 * n }
    requires derivative_len { length derivative.now ≡ n }
    requires i_lt_n { i < n }
    ensures { Reads result (taking (get_or derivative.now i nan) (column n ten.now i)) }
{
    Entries {
        one: ten[Vector::PreviousOne as usize * n + i],
        two: ten[Vector::PreviousTwo as usize * n + i],
        initial: ten[Vector::State as usize * n + i],
        slope: derivative[i],
        first: ten[Vector::FirstDerivative as usize * n + i],
    }
}

// The terms of the two stages before and of the state, in this order.
#[tactic(auto, using(family::proofs::Constants::constants), unfolding(crate::specs::Reads::Reads))]
fn weighted(c: Coefficients, x: Entries) -> f64
    ensures { (v : Vector → Float) → Reads x v → result ≡ weighted c v }
{
    let weight = 1.0 - c.mu - c.nu;
    c.mu * x.one + c.nu * x.two + weight * x.initial
}

#[tactic(auto, using(family::proofs::Constants::constants), unfolding(crate::specs::Reads::Reads, crate::specs::Kernel::orthogonal_entry))]
fn orthogonal_entry(c: Coefficients, step: f64, x: Entries) -> f64
    ensures { (v : Vector → Float) → Reads x v → result ≡ orthogonal_entry step c v }
{
    weighted(c, x) + step * c.mu_tilde * x.slope + step * c.gamma_tilde * x.first
}

#[tactic(auto, using(family::proofs::Constants::constants), unfolding(crate::specs::Reads::Reads, crate::specs::Kernel::chebyshev_entry))]
fn chebyshev_entry(c: Coefficients, step: f64, x: Entries) -> f64
    ensures { (v : Vector → Float) → Reads x v → result ≡ chebyshev_entry step c v }
{
    weighted(c, x) + step * c.mu_tilde * (x.slope - c.gamma_tilde * x.first)
}

// The state's term comes first.
#[tactic(auto, using(family::proofs::Constants::constants), unfolding(crate::specs::Reads::Reads, crate::specs::Kernel::initial_first_entry))]
fn initial_first_entry(c: Coefficients, step: f64, x: Entries) -> f64
    ensures { (v : Vector → Float) → Reads x v → result ≡ initial_first_entry step c v }
{
    let weight = 1.0 - c.mu - c.nu;
    let sum = weight * x.initial + c.mu * x.one + c.nu * x.two;
    sum + step * c.mu_tilde * (x.slope - c.gamma_tilde * x.first)
}

// Neither the state nor the first derivative.
#[tactic(auto, using(family::proofs::Constants::constants), unfolding(crate::specs::Reads::Reads, crate::specs::Kernel::plain_entry))]
fn plain_entry(c: Coefficients, step: f64, x: Entries) -> f64
    ensures { (v : Vector → Float) → Reads x v → result ≡ plain_entry step c v }
{
    c.mu * x.one + c.nu * x.two + step * c.mu_tilde * x.slope
}

// The derivative taken and the row in one pass over the columns, whose elements `entry` works out.
fn row_in<F: Fn(Entries) -> f64>(ten: &mut [f64], n: usize, derivative: &[f64], entry: &F)
    requires ten_len { length ten.old ≡ 10 * n }
    requires derivative_len { length derivative.now ≡ n }
    requires callable { F.IsAlwaysCallable entry.now }
    ensures { (g : (Vector → Float) → Float) → Makes (F.post entry.now) g → unpack n ten.new ≡ rowed n g (unpack n ten.old) derivative.now }
{
    for i in 0..n {
        let x = entries_at(ten, n, i, derivative);
        ten[Vector::Derivative as usize * n + i] = x.slope;
        ten[Vector::NextStage as usize * n + i] = entry(x);
    }
}

fn put_four(v: &mut [f64], p: usize, x: [f64; 4])
    requires { p + 4 ≤ length v.old }
    ensures { Put p x v.old v.new }
{
    v[p] = x[0];
    v[p + 1] = x[1];
    v[p + 2] = x[2];
    v[p + 3] = x[3];
}

// A column with its element of the derivative taken: the row and the exchange. What moves is stored before the
// element is worked out, so that no copy of it is kept.
fn move_one<F: Fn(Entries) -> f64>(
    ten: &mut [f64],
    n: usize,
    i: usize,
    derivative: &[f64],
    entry: &F,
)
    requires ten_len { length ten.old ≡ 10 * n }
    requires derivative_len { length derivative.now ≡ n }
    requires i_lt_n { i < n }
    requires callable { F.IsAlwaysCallable entry.now }
    ensures { (g : (Vector → Float) → Float) → Makes (F.post entry.now) g → Moved n g derivative.now i 1 ten.old ten.new }
{
    let x = entries_at(ten, n, i, derivative);
    ten[Vector::Derivative as usize * n + i] = x.slope;
    ten[Vector::NextStage as usize * n + i] = x.two;
    ten[Vector::PreviousTwo as usize * n + i] = x.one;
    let next = entry(x);
    ten[Vector::PreviousOne as usize * n + i] = next;
}

// Four columns. All is read before anything is stored, so that it is compiled to vector instructions with no test
// of which vectors overlap.
fn move_four<F: Fn(Entries) -> f64>(
    ten: &mut [f64],
    n: usize,
    i: usize,
    derivative: &[f64],
    entry: &F,
)
    requires ten_len { length ten.old ≡ 10 * n }
    requires derivative_len { length derivative.now ≡ n }
    requires i_bound { i + 4 ≤ n }
    requires callable { F.IsAlwaysCallable entry.now }
    ensures { (g : (Vector → Float) → Float) → Makes (F.post entry.now) g → Moved n g derivative.now i 4 ten.old ten.new }
{
    let a = entries_at(ten, n, i, derivative);
    let b = entries_at(ten, n, i + 1, derivative);
    let c = entries_at(ten, n, i + 2, derivative);
    let d = entries_at(ten, n, i + 3, derivative);
    put_four(
        ten,
        Vector::Derivative as usize * n + i,
        [a.slope, b.slope, c.slope, d.slope],
    );
    put_four(
        ten,
        Vector::NextStage as usize * n + i,
        [a.two, b.two, c.two, d.two],
    );
    put_four(
        ten,
        Vector::PreviousTwo as usize * n + i,
        [a.one, b.one, c.one, d.one],
    );
    let next = [entry(a), entry(b), entry(c), entry(d)];
    put_four(ten, Vector::PreviousOne as usize * n + i, next);
}

// How many fours of columns are moved four at a time: those of a short vector. In a long one the compiler's own test
// of which vectors overlap costs less than it gains.
fn fours_within(n: usize) -> usize
    ensures { 4 * result ≤ n }
{
    if n < 128 { n / 4 } else { 0 }
}

// The derivative taken, the row and the exchange in one pass over the columns.
fn move_all<F: Fn(Entries) -> f64>(ten: &mut [f64], n: usize, derivative: &[f64], entry: &F)
    requires ten_len { length ten.old ≡ 10 * n }
    requires derivative_len { length derivative.now ≡ n }
    requires callable { F.IsAlwaysCallable entry.now }
    ensures { (g : (Vector → Float) → Float) → Makes (F.post entry.now) g → unpack n ten.new ≡ exchanged (rowed n g (unpack n ten.old) derivative.now) }
{
    let fours = fours_within(n);
    move_fours(ten, n, fours, derivative, entry);
    move_rest(ten, n, 4 * fours, derivative, entry);
}

// The first columns, this many times four.
fn move_fours<F: Fn(Entries) -> f64>(
    ten: &mut [f64],
    n: usize,
    fours: usize,
    derivative: &[f64],
    entry: &F,
)
    requires ten_len { length ten.old ≡ 10 * n }
    requires derivative_len { length derivative.now ≡ n }
    requires fours_bound { 4 * fours ≤ n }
    requires callable { F.IsAlwaysCallable entry.now }
    ensures { (g : (Vector → Float) → Float) → Makes (F.post entry.now) g → Moved n g derivative.now 0 (4 * fours - 0) ten.old ten.new }
{
    for k in 0..fours {
        move_four(ten, n, 4 * k, derivative, entry);
    }
}

// The columns from `from` on, one at a time.
fn move_rest<F: Fn(Entries) -> f64>(
    ten: &mut [f64],
    n: usize,
    from: usize,
    derivative: &[f64],
    entry: &F,
)
    requires ten_len { length ten.old ≡ 10 * n }
    requires derivative_len { length derivative.now ≡ n }
    requires from_le_n { from ≤ n }
    requires callable { F.IsAlwaysCallable entry.now }
    ensures { (g : (Vector → Float) → Float) → Makes (F.post entry.now) g → Moved n g derivative.now from (n - from) ten.old ten.new }
{
    for i in from..n {
        move_one(ten, n, i, derivative, entry);
    }
}

// A stage's derivative taken: the row. So it stands after the last stage.
pub fn row(
    area: &mut [f64],
    n: usize,
    setting: Setting,
    c: Coefficients,
    step: f64,
    derivative: &[f64],
)
    requires n_in_bounds { 11 * n ≤ length area.old }
    requires derivative_len { length derivative.now ≡ n }
    ensures { Becomes n area.old area.new (λ w. with_row setting n step c w derivative.now) }
{
    let form = setting.family.facts().row;
    row_by(&mut area[..10 * n], n, form, c, step, derivative);
}

// Each form has its loop compiled for itself. (The arms stand once more in `row_and_exchange_by`: a closure has another type in
// each arm, so that no value of one type could be handed to both.)
fn row_by(ten: &mut [f64], n: usize, form: RowForm, c: Coefficients, step: f64, derivative: &[f64])
    requires ten_len { length ten.old ≡ 10 * n }
    requires derivative_len { length derivative.now ≡ n }
    ensures { unpack n ten.new ≡ with_row_in form n step c (unpack n ten.old) derivative.now }
{
    match form {
        RowForm::ChebyshevRow => row_in(ten, n, derivative, &|x| chebyshev_entry(c, step, x)),
        RowForm::OrthogonalRow => row_in(ten, n, derivative, &|x| orthogonal_entry(c, step, x)),
        RowForm::InitialFirstRow => {
            row_in(ten, n, derivative, &|x| initial_first_entry(c, step, x))
        }
        RowForm::PlainRow => row_in(ten, n, derivative, &|x| plain_entry(c, step, x)),
    }
}

// The row, and the exchange of the two stages before it, after any other stage.
pub fn row_and_exchange(
    area: &mut [f64],
    n: usize,
    setting: Setting,
    c: Coefficients,
    step: f64,
    derivative: &[f64],
)
    requires n_in_bounds { 11 * n ≤ length area.old }
    requires derivative_len { length derivative.now ≡ n }
    ensures { Becomes n area.old area.new (λ w. exchanged (with_row setting n step c w derivative.now)) }
{
    let form = setting.family.facts().row;
    row_and_exchange_by(&mut area[..10 * n], n, form, c, step, derivative);
}

fn row_and_exchange_by(
    ten: &mut [f64],
    n: usize,
    form: RowForm,
    c: Coefficients,
    step: f64,
    derivative: &[f64],
)
    requires ten_len { length ten.old ≡ 10 * n }
    requires derivative_len { length derivative.now ≡ n }
    ensures { unpack n ten.new ≡ exchanged (with_row_in form n step c (unpack n ten.old) derivative.now) }
{
    match form {
        RowForm::ChebyshevRow => move_all(ten, n, derivative, &|x| chebyshev_entry(c, step, x)),
        RowForm::OrthogonalRow => move_all(ten, n, derivative, &|x| orthogonal_entry(c, step, x)),
        RowForm::InitialFirstRow => {
            move_all(ten, n, derivative, &|x| initial_first_entry(c, step, x))
        }
        RowForm::PlainRow => move_all(ten, n, derivative, &|x| plain_entry(c, step, x)),
    }
}

// RKMC2's candidate, by these weights.
fn combine(area: &mut [f64], n: usize, step: f64, w: Weights)
    requires { 11 * n ≤ length area.old }
    ensures { Becomes n area.old area.new (λ v. v with candidate ≔ each n v (combined_entry step w)) }
{
    for i in 0..n {
        let initial = area[Vector::State as usize * n + i];
        let final_stage = area[Vector::NextStage as usize * n + i];
        let older_stage = area[Vector::PreviousTwo as usize * n + i];
        let first = area[Vector::FirstDerivative as usize * n + i];
        let combined = w.initial * initial
            + w.last * final_stage
            + w.older * older_stage
            + step * w.slope * first;
        area[Vector::Candidate as usize * n + i] = combined;
    }
}

// Where the older state stands: without a history it is the state itself.
fn older_of(setting: Setting) -> Vector
    ensures { result ≡ older_of setting }
{
    if setting.history {
        Vector::OlderState
    } else {
        Vector::State
    }
}

// TSRKC2's candidate, by this gain, with the older state in this vector.
fn mix(area: &mut [f64], n: usize, older: Vector, gain: f64)
    requires n_in_bounds { 11 * n ≤ length area.old }
    requires n_in_bounds_2 { (number older + 1) * n ≤ length area.old }
    ensures { Becomes n area.old area.new (λ v. v with candidate ≔ each n v (mixed_entry older gain)) }
{
    let from = older as usize * n;
    let rest = 1.0 - gain;
    for i in 0..n {
        let before = area[from + i];
        let final_stage = area[Vector::NextStage as usize * n + i];
        area[Vector::Candidate as usize * n + i] = rest * before + gain * final_stage;
    }
}

// The candidate after stage s, into which c was carried.
pub fn keep_candidate(
    area: &mut [f64],
    n: usize,
    setting: Setting,
    step: f64,
    s: u64,
    c: Recurrence,
    row: Coefficients,
)
    requires { vector_count (kind setting) * n ≤ length area.old }
    ensures { Becomes n area.old area.new (with_candidate setting n step s c row) }
{
    match setting.family.facts().candidate {
        CandidateForm::LastStage => copy_vector(area, n, Vector::NextStage, Vector::Candidate),
        CandidateForm::Combined => {
            combine(area, n, step, coefficients::rkmc2::candidate_weights(s, c))
        }
        CandidateForm::WithOlder => { mix(area, n, older_of(setting), c.polynomials.gain) }
    }
}
