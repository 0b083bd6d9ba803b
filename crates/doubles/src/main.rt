// Works out the roots, floors, ceilings, maxima and casts of stored doubles and compares each bit with what the file says: data/ was made by
// vectors/doubles.rs. It writes how many of each were compared, and how many differ.
#![tactic(auto)]

ghost use Rattle.std.specs.Prelude.{◌≡◌, ◌<◌, eqb, Float};
ghost use Rattle.std.specs.Float.{binary64};
ghost use Rattle.std.specs.Float.Ieee.{of_bits, to_bits, to_unsigned};
ghost use Rattle.ieee.specs.Sqrt as root;
ghost use Rattle.ieee.specs.Whole as whole;

use std::io::Read;
use std::rt::{Env, Files};
use std::{env, io};
use stored::Tally;

// ---- one answer: whether it is the definition's, bit for bit; both roots by one function, and the other four not over a closure,
// since each clause names its own definition

fn root_right<F: Fn(f64) -> f64>(root_of: F, x: u64, want: u64) -> bool
    requires callable { F.IsAlwaysCallable root_of }
    requires is_root { (y r : Float) → F.post root_of y r → r ≡ root.sqrt y }
    ensures { result ≡ eqb (to_bits binary64 (root.sqrt (of_bits binary64 x))) want }
{
    ieee::bits_of(root_of(ieee::float_of(x))) == want
}

fn floor_right(x: u64, want: u64) -> bool
    ensures { result ≡ eqb (to_bits binary64 (whole.floor (of_bits binary64 x))) want }
{
    ieee::bits_of(ieee::floor(ieee::float_of(x))) == want
}

fn ceil_right(x: u64, want: u64) -> bool
    ensures { result ≡ eqb (to_bits binary64 (whole.ceil (of_bits binary64 x))) want }
{
    ieee::bits_of(ieee::ceil(ieee::float_of(x))) == want
}

fn max_right(x: u64, y: u64, want: u64) -> bool
    ensures { result ≡ eqb (to_bits binary64 (whole.max (of_bits binary64 x) (of_bits binary64 y))) want }
{
    ieee::bits_of(ieee::max(ieee::float_of(x), ieee::float_of(y))) == want
}

fn cast_right(x: u64, want: u64) -> bool
    ensures { result ≡ eqb (to_unsigned 64 (of_bits binary64 x)) want }
{
    ieee::saturating_u64(ieee::float_of(x)) == want
}

// ---- the records

// x, its root
#[derive(Clone, Copy, Default)]
struct Roots {
    fast: Tally,
    by_digits: Tally,
}

impl Roots {
    fn add(&mut self, record: &[u8]) {
        let [x, root] = stored::words::<2>(record);
        self.fast.add(root_right(ieee::sqrt, x, root));
        self.by_digits
            .add(root_right(ieee::sqrt_by_digits, x, root));
    }

    fn print(&self, rt: &impl Print) -> io::Result<()> {
        self.fast.print(rt, "roots")?;
        self.by_digits.print(rt, "roots by digits")
    }
}

// x, y, the floor and the ceiling of x, the maximum of both, x cast
#[derive(Clone, Copy, Default)]
struct Parts {
    floor: Tally,
    ceil: Tally,
    max: Tally,
    cast: Tally,
}

impl Parts {
    fn add(&mut self, record: &[u8]) {
        let [x, y, floor, ceil, max, cast] = stored::words::<6>(record);
        self.floor.add(floor_right(x, floor));
        self.ceil.add(ceil_right(x, ceil));
        self.max.add(max_right(x, y, max));
        self.cast.add(cast_right(x, cast));
    }

    fn print(&self, rt: &impl Print) -> io::Result<()> {
        self.floor.print(rt, "floors")?;
        self.ceil.print(rt, "ceilings")?;
        self.max.print(rt, "maxima")?;
        self.cast.print(rt, "casts to u64")
    }
}

// Every whole record, of so many bytes, of a file that is shorter than the buffer.
fn each_record<F: FnMut(&[u8])>(file: &mut impl Read, size: usize, mut add: F) -> io::Result<()>
    requires some { 0 < size }
    requires callable { (state : F) (bytes : _) → F.pre state bytes }
{
    let mut buf = [0u8; 393216];
    let n = stored::read_full(file, &mut buf)?;
    for record in buf[..n].chunks_exact(size) {
        add(record);
    }
    Ok(())
}

// ---- the program

// There is no such argument; it is too long to be a path. Linux's numbers and not kinds: the error stream tells their texts.
const EINVAL: i32 = 22;

const ENAMETOOLONG: i32 = 36;

// An argument as text, put at the start of buf.
fn argument<'a>(rt: &impl Env, i: usize, buf: &'a mut [u8]) -> io::Result<&'a str> {
    let length = rt.arg(i, buf).map_err(|error| match error {
        env::FillError::NotPresent => io::Error::from_raw_os_error(EINVAL),
        env::FillError::TooLong => io::Error::from_raw_os_error(ENAMETOOLONG),
    })?;
    stored::path_of(&buf[..length])
}

// The file named by an argument; none where there is none.
fn open<R: Env + Files + Eprint>(rt: &R, i: usize) -> io::Result<Option<R::File>> {
    let mut path = [0u8; 4096];
    match argument(rt, i, &mut path) {
        Ok(path) => stored::open(rt, path),
        Err(error) => {
            stored::fail(rt, "path", error)?;
            Ok(None)
        }
    }
}

fn main(rt: HostRuntime) -> io::Result<()> {
    let roots = open(&rt, 1)?;
    let parts = open(&rt, 2)?;
    let Some(mut roots) = roots else {
        return Ok(());
    };
    let Some(mut parts) = parts else {
        return Ok(());
    };
    let mut of_roots = Roots::default();
    each_record(&mut roots, 16, |record| of_roots.add(record))?;
    of_roots.print(&rt)?;
    let mut of_parts = Parts::default();
    each_record(&mut parts, 48, |record| of_parts.add(record))?;
    of_parts.print(&rt)
}
