// Doubles as they are stored in files of test data: words of eight bytes, the lowest first, each the bit pattern of a double.
// Programs read such files, work each record out anew and compare bit for bit.
#![tactic(auto)]

ghost use Rattle.std.specs.Prelude.{◌≡◌, ◌+◌, ◌%◌, ◌^◌, ◌↔◌, IsTrue, EachIndex, slice_index, if◌then◌else◌, MatchResult};
ghost use Rattle.std.specs.Io.{ReadsAtMost};
ghost use Rattle.std.specs.Str.{IsUtf8};
ghost use Rattle.stored.specs.Stored as spec;

use std::io::Read;
use std::rt::Files;
use std::{fs, io, str};

// The i-th word of s; 0 where s has no such word.
pub fn word(s: &[u8], i: usize) -> u64
    ensures { result ≡ spec.word s.now i }
{
    let (words, _) = s.as_chunks::<8>();
    match words.get(i) {
        Some(bytes) => u64::from_le_bytes(*bytes),
        None => 0,
    }
}

// The first N words of s; 0 where s has no such word.
pub fn words<const N: usize>(s: &[u8]) -> [u64; N]
    ensures { EachIndex result (λ k. slice_index result k ≡ spec.word s.now k) }
{
    let mut words = [0; N];
    for i in 0..N {
        words[i] = word(s, i);
    }
    words
}

// Whether x and y are one double: 0 and -0 are two, and a NaN is the same as a NaN.
pub fn same(x: f64, y: f64) -> bool
    ensures { IsTrue result ↔ (x ≡ y) }
{
    ieee::bits_of(x) == ieee::bits_of(y)
}

// How many records were compared, and how many differ.
#[derive(Clone, Copy, Default)]
pub struct Tally {
    pub seen: u64,
    pub differ: u64,
}

impl Tally {
    // One more record, which is as it should be or not.
    pub fn add(&mut self, right: bool)
        ensures seen { self.new.seen ≡ (self.old.seen + 1) % 2 ^ 64 }
        ensures differ { self.new.differ ≡ (self.old.differ + (if right then 0 else 1)) % 2 ^ 64 }
    {
        self.seen = self.seen.wrapping_add(1);
        self.differ = self.differ.wrapping_add(u64::from(!right));
    }

    // How many were compared, what they are, and how many differ.
    pub fn print(&self, rt: &impl Print, what: &str) -> io::Result<()> {
        let seen = self.seen;
        let differ = self.differ;
        println!(rt; "{seen} {what}, {differ} differ")
    }
}

// The same with any bytes between the two numbers, which need be no text.
pub fn print_tally(rt: &impl Print, tally: Tally, what: &[u8]) -> io::Result<()> {
    rt.print(tally.seen)?;
    rt.write_all(what)?;
    rt.print(tally.differ)?;
    rt.write_all(b" differ\n")
}

// Tells on the error stream what failed, as the caller names it, and why.
pub fn fail(rt: &impl Eprint, what: &str, error: io::Error) -> io::Result<()> {
    eprintln!(rt; "{what}: {error}")
}

// The path whose bytes these are.
pub fn path_of(name: &[u8]) -> io::Result<&str>
    ensures { MatchResult result (λ path. (path.now ≡ name.now) × IsUtf8 name.now) (λ _. ¬ (IsUtf8 name.now)) }
{
    str::from_utf8(name).map_err(|_| io::Error::from(io::ErrorKind::InvalidFilename))
}

// The file at path, to be read; none where it can't be opened, which is told on the error stream.
pub fn open<R: Files + Eprint>(rt: &R, path: &str) -> io::Result<Option<R::File>> {
    match fs::open(rt, path) {
        Ok(file) => Ok(Some(file)),
        Err(error) => {
            fail(rt, path, error)?;
            Ok(None)
        }
    }
}

// Reads until buf is full or the file ends, and tells how many bytes now stand at the start of buf: a number, as std's `read`.
pub fn read_full(file: &mut impl Read, buf: &mut [u8]) -> io::Result<usize>
    ensures { ReadsAtMost result buf.new }
{
    let mut done = 0;
    while done < buf.len() {
        let n = file.read(&mut buf[done..])?;
        if n == 0 {
            return Ok(done);
        }
        done += n;
    }
    Ok(done)
}
