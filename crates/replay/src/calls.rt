// A call read from the trace and made.
ghost use Rattle.std.specs.Prelude.{◌≤◌, length};

use crate::trace::Words;
use driver::{Counters, Record, Replied};
use workspace::Arguments;

#[derive(Clone, Copy)]
pub enum Call<'a> {
    Start {
        family: u64,
        n: usize,
        time: f64,
        state: &'a [f64],
    },
    Attempt(Arguments),
    Reply(&'a [f64]),
    Accept,
    AcceptWithCallback {
        time: f64,
        state: &'a [f64],
    },
    Abandon,
    // A number of no call: made as abandon, and counted in no line.
    Unnumbered,
}

// Reads a vector, whose length stands before it.
fn bring<'a>(words: &mut Words<'_>, brought: &'a mut [f64]) -> &'a [f64]
    ensures { length result.now ≤ length brought.old }
{
    let length = (words.word() as usize).min(brought.len());
    words.doubles(&mut brought[..length]);
    &brought[..length]
}

fn arguments(words: &mut Words<'_>) -> Arguments {
    Arguments {
        time: words.double(),
        step: words.double(),
        absolute_tolerance: words.double(),
        relative_tolerance: words.double(),
        adaptive: words.word() != 0,
    }
}

impl<'a> Call<'a> {
    // The call of this number. What it brings is put into `brought`.
    pub fn read(number: u64, words: &mut Words<'_>, brought: &'a mut [f64]) -> Call<'a> {
        match number {
            1 => Call::Start {
                family: words.word(),
                n: words.word() as usize,
                time: words.double(),
                state: bring(words, brought),
            },
            2 => Call::Attempt(arguments(words)),
            3 => Call::Reply(bring(words, brought)),
            4 => Call::Accept,
            5 => Call::AcceptWithCallback {
                time: words.double(),
                state: bring(words, brought),
            },
            6 => Call::Abandon,
            _ => Call::Unnumbered,
        }
    }

    // The family whose area it is lent: the one that a start brings, else the record's.
    pub fn family(&self, record: &Record) -> u64 {
        match self {
            Call::Start { family, .. } => *family,
            _ => record.family,
        }
    }

    pub fn make(self, record: Record, counters: Counters, area: &mut [f64]) -> Replied {
        let next = match self {
            Call::Start {
                family,
                n,
                time,
                state,
            } => driver::start(record, area, family, n, state, time),
            Call::Attempt(arguments) => driver::attempt(record, area, arguments),
            Call::Reply(derivative) => return driver::reply(record, counters, area, derivative),
            Call::Accept => driver::accept(record, area),
            Call::AcceptWithCallback { time, state } => {
                driver::accept_with_callback(record, area, state, time)
            }
            Call::Abandon | Call::Unnumbered => driver::abandon(record, area),
        };
        next.with(counters)
    }
}
