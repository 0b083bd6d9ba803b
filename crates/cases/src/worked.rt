// Document 01, "driver.rs: the calls": RKL1, n = 1, state 1, step 1, every reply 0. Four evaluations, s = 3, k = 1.
use driver::{Answer, Counters, Record, Replied};
use std::io;
use workspace::Arguments;

fn bits_at(area: &[f64], i: usize) -> u64 {
    ieee::bits_of(area.get(i).copied().unwrap_or(0.0))
}

fn print_answer(rt: &impl Print, answer: Answer, area: &[f64]) -> io::Result<()> {
    match answer {
        Answer::Evaluate { time, vector } => {
            let at = ieee::bits_of(time);
            let point = bits_at(area, vector);
            println!(rt; "evaluate vector {vector} at {at:016x}, point {point:016x}")
        }
        Answer::Finished(figures) => {
            let norm = ieee::bits_of(figures.norm);
            let candidate = bits_at(area, workspace::Vector::Candidate as usize);
            println!(rt; "finished, norm {norm:016x}, candidate {candidate:016x}")
        }
        Answer::Ready => println!(rt; "ready"),
        Answer::Refused(number) => println!(rt; "refused {number}"),
        Answer::Empty => println!(rt; "empty"),
    }
}

// Replies 0, this many times.
fn reply_zeros(
    rt: &impl Print,
    record: Record,
    counters: Counters,
    area: &mut [f64],
    times: u64,
) -> io::Result<Replied> {
    let mut replied = Replied {
        answer: Answer::Empty,
        record,
        counters,
    };
    for _ in 0..times {
        replied = driver::reply(replied.record, replied.counters, area, &[0.0]);
        print_answer(rt, replied.answer, area)?;
    }
    Ok(replied)
}

pub fn print_case(rt: &impl Print) -> io::Result<()> {
    let mut area = [0.0; 11];
    let arguments = Arguments {
        time: 0.0,
        step: 1.0,
        absolute_tolerance: 0.000001,
        relative_tolerance: 0.000001,
        adaptive: false,
    };
    let started = driver::start(driver::new_record(), &mut area, 2, 1, &[1.0], 0.0);
    print_answer(rt, started.answer, &area)?;
    let ready = reply_zeros(rt, started.record, Counters::default(), &mut area, 1)?;
    let begun = driver::attempt(ready.record, &mut area, arguments);
    print_answer(rt, begun.answer, &area)?;
    let end = reply_zeros(rt, begun.record, ready.counters, &mut area, 4)?;
    let s = end.record.staging.stages;
    let k = end.record.iteration.pass;
    let evaluations = end.counters.evaluations;
    let finished = end.counters.finished_attempts;
    println!(rt; "s = {s}, k = {k}, evaluations {evaluations}, finished attempts {finished}")
}
