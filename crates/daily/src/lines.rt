// The lines that are written of a day, put on a page. Each function says what it adds and how long that is at most, and asks for
// so much room: the numbers differ, so that no type could hold them.
ghost use Rattle.std.specs.Prelude.{◌≡◌, ◌+◌, ◌*◌, ◌≤◌, [], ◌++◌, length};
ghost use Rattle.accounts.specs.Accounts.{refused_minute, listed};
ghost use Rattle.inverter.specs.Day.{columns};
ghost use Rattle.daily.specs.Written as spec;

use crate::Page;
use inverter::{Malformed, Minute, Total};

// A double as the 16 hexadecimal digits of its bits.
#[tactic(auto, unfolding(crate::specs::Written::bits_text))]
fn put_bits(page: &mut Page, x: f64)
    requires { length page.old + 16 ≤ spec.room }
    ensures text { page.new ≡ page.old ++ spec.bits_text x }
    ensures len { length page.new ≡ length page.old + 16 }
{
    page.put_word(ieee::bits_of(x));
}

// Minutes as hours, cut to four places.
#[tactic(auto, unfolding(crate::specs::Written::hours_text))]
fn put_hours(page: &mut Page, minutes: u64)
    requires { length page.old + 25 ≤ spec.room }
    ensures text { page.new ≡ page.old ++ spec.hours_text minutes }
    ensures len { length page.new ≤ length page.old + 25 }
{
    page.put_decimal(minutes / 60);
    page.put(b".");
    page.put_digits(10, 4, minutes % 60 * 10000 / 60);
}

// A name and a number.
#[tactic(auto, unfolding(crate::specs::Written::count_line))]
fn put_count(page: &mut Page, name: &[u8], n: u64)
    requires { length page.old + length name.now + 21 ≤ spec.room }
    ensures text { page.new ≡ page.old ++ spec.count_line name.now n }
    ensures len { length page.new ≤ length page.old + length name.now + 21 }
{
    page.put(name);
    page.put_decimal(n);
    page.put(b"\n");
}

#[tactic(auto, unfolding(crate::specs::Written::heading))]
fn put_heading(page: &mut Page, total: Total)
    requires { length page.old + 60 ≤ spec.room }
    ensures text { page.new ≡ page.old ++ spec.heading total }
    ensures len { length page.new ≤ length page.old + 60 }
{
    page.put(b"total ");
    put_bits(page, total.hours);
    page.put(b"\nhours above ");
    put_hours(page, total.above);
}

#[tactic(auto, unfolding(crate::specs::Written::counts))]
fn put_counts(page: &mut Page, total: Total)
    requires { length page.old + 145 ≤ spec.room }
    ensures text { page.new ≡ page.old ++ spec.counts total }
    ensures len { length page.new ≤ length page.old + 145 }
{
    put_count(page, b"\nminutes above ", total.above);
    put_count(page, b"evaluations ", total.evaluations);
    put_count(page, b"finished attempts ", total.finished_attempts);
    put_count(page, b"refused minutes ", total.refused);
}

#[tactic(auto, unfolding(crate::specs::Written::refusal_line))]
fn put_refusal(page: &mut Page, minute: u64, number: u64)
    requires { length page.old + 62 ≤ spec.room }
    ensures text { page.new ≡ page.old ++ spec.refusal_line (refused_minute minute number) }
    ensures len { length page.new ≤ length page.old + 62 }
{
    page.put(b"minute ");
    page.put_decimal(minute);
    put_count(page, b" refused with ", number);
}

// A minute that is not refused, with number 0, has no line.
#[tactic(auto, unfolding(crate::specs::Written::refused_line))]
fn put_if_refused(page: &mut Page, minute: u64, number: u64)
    requires { length page.old + 62 ≤ spec.room }
    ensures text { page.new ≡ page.old ++ spec.refused_line minute number }
    ensures len { length page.new ≤ length page.old + 62 }
{
    if number != 0 {
        put_refusal(page, minute, number);
    }
}

// A line for each refused minute.
#[tactic(auto, using(crate::proofs::Writing::refused_none_yet, crate::proofs::Writing::refused_more, crate::proofs::Writing::refused_all))]
fn put_refusals(page: &mut Page, minutes: &[Minute])
    requires { length page.old + 62 * length minutes.now ≤ spec.room }
    ensures text { page.new ≡ page.old ++ spec.refusal_lines (listed 0 (columns minutes.now).refusals) }
    ensures len { length page.new ≤ length page.old + 62 * length minutes.now }
{
    for (i, minute) in minutes.iter().enumerate() {
        put_if_refused(page, i as u64, minute.refusal);
    }
}

#[tactic(auto, unfolding(crate::specs::Written::malformed_line))]
fn put_malformed(page: &mut Page, malformed: Malformed)
    requires { length page.old + 49 ≤ spec.room }
    ensures text { page.new ≡ page.old ++ spec.malformed_line malformed.line }
    ensures len { length page.new ≤ length page.old + 49 }
{
    page.put(b"malformed at line ");
    page.put_decimal(malformed.line as u64);
    page.put(b", no total\n");
}

// The total and each refused minute, or the line that makes the text no day.
#[tactic(auto, unfolding(crate::specs::Written::day_text))]
pub fn put_day(page: &mut Page, day: Result<Total, Malformed>, minutes: &[Minute; 1440])
    requires { page.old ≡ [] }
    ensures text { page.new ≡ spec.day_text day (columns minutes.now).refusals }
    ensures len { length page.new ≤ spec.room }
{
    match day {
        Ok(total) => {
            put_heading(page, total);
            put_counts(page, total);
            put_refusals(page, minutes);
        }
        Err(malformed) => put_malformed(page, malformed),
    }
}

// A number after a space.
#[tactic(auto, unfolding(crate::specs::Written::spaced))]
fn put_spaced(page: &mut Page, n: u64)
    requires { length page.old + 21 ≤ spec.room }
    ensures text { page.new ≡ page.old ++ spec.spaced n }
    ensures len { length page.new ≤ length page.old + 21 }
{
    page.put(b" ");
    page.put_decimal(n);
}

// The junction temperature at a minute's end, and s, k and r of its attempt.
#[tactic(auto, unfolding(crate::specs::Written::minute_line))]
fn put_minute(page: &mut Page, minute: &Minute)
    requires { length page.old + 76 ≤ spec.room }
    ensures text { page.new ≡ page.old ++ spec.minute_line minute.now.junction minute.now.stages minute.now.passes minute.now.scaled_radius }
    ensures len { length page.new ≤ length page.old + 76 }
{
    put_bits(page, minute.junction);
    put_spaced(page, minute.stages);
    put_spaced(page, minute.passes);
    page.put(b" ");
    put_bits(page, minute.scaled_radius);
    page.put(b"\n");
}

// A line for each minute.
#[tactic(auto, using(crate::proofs::Writing::told_none, crate::proofs::Writing::told_more), unfolding(crate::proofs::Writing::told_lines))]
fn put_each_minute(page: &mut Page, minutes: &[Minute; 1440])
    requires { page.old ≡ [] }
    ensures text { let told = columns minutes.now in
        page.new ≡ spec.minute_lines told.junctions told.stages told.passes told.scaled_radii 1440 }
    ensures len { length page.new ≤ spec.room }
{
    for minute in minutes {
        put_minute(page, minute);
    }
}

// A line for each minute, or the line that makes the text no day.
#[tactic(auto, unfolding(crate::specs::Written::minutes_text))]
pub fn put_minutes(page: &mut Page, day: Result<Total, Malformed>, minutes: &[Minute; 1440])
    requires { page.old ≡ [] }
    ensures text { page.new ≡ spec.minutes_text day (columns minutes.now) }
    ensures len { length page.new ≤ spec.room }
{
    match day {
        Ok(_) => put_each_minute(page, minutes),
        Err(malformed) => put_malformed(page, malformed),
    }
}
