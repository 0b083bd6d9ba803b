// The stage counts of families 1 to 6, held against the Rust's over stored radii: each threshold and its neighbors within 8 units in the last place, random,
// subnormal, huge and infinite radii, NaNs and negatives. data/counts was written by the Rust, RKG's formulas being those of document 02, CR 5
// (bindings/oracle/src/bin/counts.rs): for each radius a word with its bits, and two words with the counts of families 1 to 4 and 5 to 8, two bytes a family,
// the lowest the first's (0 for a family that is not carried).
#![tactic(auto)]

use family::Family;
use std::io;
use std::io::Read;
use stored::Tally;

#[derive(Clone, Copy, Default)]
struct Tallies {
    compared: Tally,
    overflowing: Tally,
}

impl Tallies {
    // Where the Rust's sum overflows it gives no count, the file's 0, and the count is to be 200.
    fn add(&mut self, ours: u64, theirs: u16) {
        if theirs == 0 {
            self.overflowing.add(ours == 200);
        } else {
            self.compared.add(ours == u64::from(theirs));
        }
    }

    fn add_record(&mut self, record: &[u8; 24]) {
        let radius = ieee::float_of(stored::word(record, 0));
        let (counts, _) = record[8..].as_chunks::<2>();
        for (family, count) in (1..=6).zip(counts) {
            let ours = Family::from(family).stages(0.0, radius);
            self.add(ours, u16::from_le_bytes(*count));
        }
    }

    // All whole records of s.
    fn add_records(&mut self, s: &[u8]) {
        let (records, _) = s.as_chunks::<24>();
        for record in records {
            self.add_record(record);
        }
    }

    // Up to 1,000 buffers of 2,048 records; what stands after them in a longer file is not read.
    fn of_file(file: &mut impl Read) -> io::Result<Tallies> {
        let mut tallies = Tallies::default();
        let mut buf = [0; 2048 * 24];
        for _ in 0..1000 {
            let n = stored::read_full(file, &mut buf)?;
            tallies.add_records(&buf[..n]);
            if n < buf.len() {
                break;
            }
        }
        Ok(tallies)
    }
}

fn main(rt: HostRuntime) -> io::Result<()> {
    let Some(mut file) = stored::open(&rt, "counts")? else {
        return Ok(());
    };
    let all = Tallies::of_file(&mut file)?;
    drop(file);
    all.compared
        .print(&rt, "counts of the test build of the Rust")?;
    all.overflowing
        .print(&rt, "counts of 200 where the Rust's sum overflows")
}
