// What the comparison has come to: what was seen, and how much of it differs.
use crate::calls::Call;
use driver::Answer;
use std::fmt::Display;
use std::io;
use stored::Tally;

fn count_one(count: &mut u64) {
    *count = count.wrapping_add(1);
}

// How often a call was answered so.
#[derive(Clone, Copy, Default)]
struct Answers {
    refused: [u64; 32],
    refused_above: u64,
    evaluate: u64,
    finished: u64,
    finished_nan: u64,
    finished_infinite: u64,
    ready: u64,
    empty: u64,
}

fn print_count(
    rt: &impl Print,
    call: &str,
    answer: impl Display + Drop,
    count: u64,
) -> io::Result<()> {
    if count > 0 {
        println!(rt; "{call}, {answer}: {count}")?;
    }
    Ok(())
}

impl Answers {
    fn count(&mut self, answer: Answer) {
        match answer {
            Answer::Evaluate { .. } => count_one(&mut self.evaluate),
            Answer::Finished(figures) => self.count_finished(figures.scaled_radius),
            Answer::Ready => count_one(&mut self.ready),
            Answer::Refused(number) => self.count_refused(number),
            Answer::Empty => count_one(&mut self.empty),
        }
    }

    fn count_finished(&mut self, scaled_radius: f64) {
        if scaled_radius.is_nan() {
            count_one(&mut self.finished_nan);
        } else if ieee::is_finite(scaled_radius) {
            count_one(&mut self.finished);
        } else {
            count_one(&mut self.finished_infinite);
        }
    }

    fn count_refused(&mut self, number: u64) {
        let count = self.refused.get_mut(number as usize);
        count_one(count.unwrap_or(&mut self.refused_above));
    }

    fn print(&self, rt: &impl Print, call: &str) -> io::Result<()> {
        for (number, count) in self.refused.iter().enumerate() {
            print_count(rt, call, format_args!("turned away with {number}"), *count)?;
        }
        print_count(rt, call, "evaluate", self.evaluate)?;
        print_count(
            rt,
            call,
            "finished with a finite scaled radius",
            self.finished,
        )?;
        print_count(rt, call, "ready", self.ready)?;
        print_count(
            rt,
            call,
            "turned away with a number above 31",
            self.refused_above,
        )?;
        print_count(rt, call, "empty", self.empty)?;
        print_count(
            rt,
            call,
            "finished with the scaled radius NaN",
            self.finished_nan,
        )?;
        print_count(
            rt,
            call,
            "finished with an infinite scaled radius",
            self.finished_infinite,
        )
    }
}

// The answers of each call.
#[derive(Clone, Copy, Default)]
pub struct Seen {
    start: Answers,
    attempt: Answers,
    reply: Answers,
    accept: Answers,
    accept_with_callback: Answers,
    abandon: Answers,
}

impl Seen {
    fn count(&mut self, call: Call<'_>, answer: Answer) {
        match call {
            Call::Start { .. } => self.start.count(answer),
            Call::Attempt(_) => self.attempt.count(answer),
            Call::Reply(_) => self.reply.count(answer),
            Call::Accept => self.accept.count(answer),
            Call::AcceptWithCallback { .. } => self.accept_with_callback.count(answer),
            Call::Abandon => self.abandon.count(answer),
            Call::Unnumbered => {}
        }
    }

    fn print(&self, rt: &impl Print) -> io::Result<()> {
        self.start.print(rt, "start")?;
        self.attempt.print(rt, "attempt")?;
        self.reply.print(rt, "reply")?;
        self.accept.print(rt, "accept")?;
        self.accept_with_callback
            .print(rt, "accept with a callback")?;
        self.abandon.print(rt, "abandon")
    }
}

// What is right of a call: its answer, the counts, and s, k, r and the history in the record.
#[derive(Clone, Copy)]
pub struct Right {
    pub answer: bool,
    pub counts: bool,
    pub in_record: bool,
}

#[derive(Clone, Copy, Default)]
pub struct Comparison {
    seen: Seen,
    sessions: u64,
    answers: Tally,
    counts: Tally,
    records: Tally,
    doubles: u64,
    entries: u64,
}

impl Comparison {
    pub fn count_session(&mut self) {
        count_one(&mut self.sessions);
    }

    // A call that was answered so, of which so much is right.
    pub fn count_call(&mut self, call: Call<'_>, answer: Answer, right: Right) {
        self.seen.count(call, answer);
        self.answers.add(right.answer);
        self.counts.add(right.counts);
        self.records.add(right.in_record);
    }

    // An area of so many doubles, of which so many differ.
    pub fn count_area(&mut self, doubles: usize, differ: usize) {
        self.doubles = self.doubles.wrapping_add(doubles as u64);
        self.entries = self.entries.wrapping_add(differ as u64);
    }

    pub fn print(&self, rt: &impl Print) -> io::Result<()> {
        self.seen.print(rt)?;
        println!(rt;
            "{} sessions, {} calls, {} doubles of areas",
            self.sessions, self.answers.seen, self.doubles
        )?;
        println!(rt;
            "{} answers, {} counts, {} records in s, k, r or the history, {} doubles of areas differ",
            self.answers.differ, self.counts.differ, self.records.differ, self.entries
        )
    }
}
