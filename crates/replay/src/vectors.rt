// The area as the Rust left it, beside the engine's.
ghost use Rattle.std.specs.Prelude.{◌<◌, ◌≤◌};

use crate::trace::Words;

// How many vectors the largest area has, and how many doubles that are at most.
pub const COUNT: usize = 12;

pub const LARGEST_AREA: usize = COUNT * 512;

// What is not as it was before: a bit for each vector, the lowest for vector 0, and for what the record keeps.
#[derive(Clone, Copy)]
pub struct Changes(u64);

impl Changes {
    fn has(self, bit: u32) -> bool
        requires { bit < 64 }
    {
        self.0 >> bit & 1 == 1
    }

    pub fn in_kept(self) -> bool {
        self.has(16)
    }

    pub fn in_history(self) -> bool {
        self.has(17)
    }
}

// Reads those vectors that changed.
pub fn follow(words: &mut Words<'_>, n: usize, area: &mut [f64]) -> Changes
    requires { n ≤ 512 }
{
    let changes = Changes(words.word());
    for i in 0..COUNT {
        if changes.has(i as u32) {
            if let Some(vector) = area.get_mut(i * n..(i + 1) * n) {
                words.doubles(vector);
            }
        }
    }
    changes
}

// An area at the beginning of a session.
pub fn anew(words: &mut Words<'_>, n: usize, area: &mut [f64])
    requires { n ≤ 512 }
{
    area.fill(0.0);
    follow(words, n, area);
}

// How many entries differ.
pub fn differing(ours: &[f64], theirs: &[f64]) -> usize {
    ours.iter()
        .zip(theirs)
        .filter(|(x, y)| !stored::same(**x, **y))
        .count()
}
