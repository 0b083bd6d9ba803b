// What a call is to answer, and what the record is to hold, as the trace has it: in words, doubles by their bits.
use crate::trace::Words;
use driver::{Answer, Counters, Figures, History, Record};

// The bits of a double. Every NaN has the same.
#[derive(Clone, Copy, Default, PartialEq, Eq)]
pub struct Bits(u64);

impl From<f64> for Bits {
    fn from(x: f64) -> Bits {
        Bits(ieee::bits_of(x))
    }
}

// s, k and the scaled radius: a finished answer tells them, and the record keeps them until the next attempt that is taken. As a
// session begins they are 0.
#[derive(Clone, Copy, Default, PartialEq, Eq)]
pub struct Kept {
    stages: u64,
    passes: u64,
    scaled_radius: Bits,
}

impl Kept {
    pub fn read(words: &mut Words<'_>) -> Kept {
        Kept {
            stages: words.word(),
            passes: words.word(),
            scaled_radius: Bits::from(words.double()),
        }
    }
}

impl From<Record> for Kept {
    fn from(record: Record) -> Kept {
        Kept {
            stages: record.staging.stages,
            passes: record.iteration.pass,
            scaled_radius: Bits::from(record.iteration.scaled_radius),
        }
    }
}

impl From<Figures> for Kept {
    fn from(figures: Figures) -> Kept {
        Kept {
            stages: figures.stages,
            passes: figures.passes,
            scaled_radius: Bits::from(figures.scaled_radius),
        }
    }
}

// The history that the record holds, of TSRKC2: whether there is one, and the step accepted before. Its state is in the area.
// As a session begins there is none.
#[derive(Clone, Copy, Default, PartialEq, Eq)]
pub struct Past {
    present: bool,
    previous_accepted_step: Bits,
}

impl Past {
    pub fn read(words: &mut Words<'_>) -> Past {
        Past {
            present: words.word() != 0,
            previous_accepted_step: Bits::from(words.double()),
        }
    }
}

impl From<History> for Past {
    fn from(history: History) -> Past {
        Past {
            present: history.present,
            previous_accepted_step: Bits::from(history.previous_accepted_step),
        }
    }
}

pub fn read_counters(words: &mut Words<'_>) -> Counters {
    Counters {
        evaluations: words.word(),
        finished_attempts: words.word(),
    }
}

// An answer's code, its number, and its time or norm, 0 where it has none; a finished one's s, k and scaled radius.
#[derive(Clone, Copy, PartialEq, Eq)]
pub struct Told {
    code: u64,
    number: u64,
    value: Bits,
    kept: Option<Kept>,
}

impl Told {
    fn new(code: u64, number: u64, value: f64) -> Told {
        Told {
            code,
            number,
            value: Bits::from(value),
            kept: None,
        }
    }

    // The counters stand before what only a finished answer tells.
    pub fn read(words: &mut Words<'_>) -> (Told, Counters) {
        let mut told = Told::new(words.word(), words.word(), words.double());
        let counters = read_counters(words);
        if told.code == 2 {
            told.kept = Some(Kept::read(words));
        }
        (told, counters)
    }
}

// The codes are the trace's, and those of the C interface.
impl From<Answer> for Told {
    fn from(answer: Answer) -> Told {
        match answer {
            Answer::Evaluate { time, vector } => Told::new(1, vector as u64, time),
            Answer::Finished(figures) => Told {
                kept: Some(Kept::from(figures)),
                ..Told::new(2, 0, figures.norm)
            },
            Answer::Ready => Told::new(3, 0, 0.0),
            Answer::Refused(number) => Told::new(4, number, 0.0),
            Answer::Empty => Told::new(5, 0, 0.0),
        }
    }
}
