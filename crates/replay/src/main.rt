// Sessions with the engine, made again call by call from traces of the Rust: every answer, count, point and vector is to be the
// Rust's, bit for bit; in every finished answer s, k and r are the Rust's; after every call the record's three and its history
// are those of the trace. data/traces was written by bindings/differential/src/bin/sample.rs; docs/VECTORS.md tells of which build of the Rust,
// and where the definition stands in for it.
#![tactic(auto)]

ghost use Rattle.std.specs.Prelude.{◌≤◌};

use calls::Call;
use comparison::{Comparison, Right};
use driver::{Counters, Record, Replied};
use std::io;
use told::{Kept, Past, Told};
use trace::Words;
use vectors::LARGEST_AREA;

mod calls;
mod comparison;
mod told;
mod trace;
mod vectors;

// Where a session stands: n, what the engine is handed, and what its record is to hold.
#[derive(Clone, Copy)]
struct Session {
    n: usize,
    engine: Record,
    counters: Counters,
    kept: Kept,
    past: Past,
    ghost small: { n ≤ 512 },
}

impl Session {
    fn new(n: usize, counters: Counters) -> Session
        requires { n ≤ 512 }
    {
        Session {
            n,
            engine: driver::new_record(),
            counters,
            kept: Kept::default(),
            past: Past::default(),
        }
    }
}

// The trace, the engine's area and the Rust's, the session that is under way, and what the comparison has come to.
#[derive(Drop)]
struct Replay<'a> {
    words: Words<'a>,
    area: [f64; LARGEST_AREA],
    expected: [f64; LARGEST_AREA],
    session: Session,
    comparison: Comparison,
}

impl<'a> Replay<'a> {
    fn new(trace: &'a [u8]) -> Replay<'a> {
        Replay {
            words: Words::new(trace),
            area: [0.0; LARGEST_AREA],
            expected: [0.0; LARGEST_AREA],
            session: Session::new(0, Counters::default()),
            comparison: Comparison::default(),
        }
    }

    fn begin(&mut self) {
        let n = self.words.word().min(512) as usize;
        let counters = told::read_counters(&mut self.words);
        let mut again = self.words;
        vectors::anew(&mut again, n, &mut self.area);
        vectors::anew(&mut self.words, n, &mut self.expected);
        self.session = Session::new(n, counters);
        self.comparison.count_session();
    }

    // Makes the call of this number, in the area that it is lent, and compares. What it brings is put into `brought`.
    fn call(&mut self, number: u64, brought: &mut [f64]) {
        let call = Call::read(number, &mut self.words, brought);
        let family = call.family(&self.session.engine);
        let end = workspace::vector_count(family)
            .saturating_mul(self.session.n)
            .min(LARGEST_AREA);
        let area = &mut self.area[..];
        let made = call.make(self.session.engine, self.session.counters, &mut area[..end]);
        let right = self.compare(made, end);
        self.comparison.count_call(call, made.answer, right);
    }

    // Reads what stands after a call: what it is to answer and to leave.
    fn compare(&mut self, made: Replied, end: usize) -> Right
        requires { end ≤ LARGEST_AREA }
    {
        let (told, counters) = Told::read(&mut self.words);
        let expected = &mut self.expected[..];
        let changes = vectors::follow(&mut self.words, self.session.n, &mut expected[..end]);
        if changes.in_kept() {
            self.session.kept = Kept::read(&mut self.words);
        }
        if changes.in_history() {
            self.session.past = Past::read(&mut self.words);
        }
        self.session.engine = made.record;
        self.session.counters = made.counters;
        let differ = vectors::differing(&self.area[..end], &self.expected[..end]);
        self.comparison.count_area(end, differ);
        Right {
            answer: Told::from(made.answer) == told,
            counts: made.counters == counters,
            in_record: Kept::from(made.record) == self.session.kept
                && Past::from(made.record.history) == self.session.past,
        }
    }

    // All sessions. Each turn takes at least one word.
    fn run(&mut self) {
        let mut brought = [0.0; 513];
        for _ in 0..self.words.count() {
            if self.words.at_end() {
                break;
            }
            match self.words.word() {
                0 => self.begin(),
                number => self.call(number, &mut brought),
            }
        }
    }
}

// Room for the trace; in main itself the check would compute the list that so long a literal is.
fn room() -> [u8; 1048576] {
    [0; 1048576]
}

fn main(rt: HostRuntime) -> io::Result<()> {
    let Some(mut file) = stored::open(&rt, "traces")? else {
        return Ok(());
    };
    let mut bytes = room();
    let n = stored::read_full(&mut file, &mut bytes)?;
    drop(file);
    let mut replay = Replay::new(&bytes[..n]);
    replay.run();
    replay.comparison.print(&rt)
}
