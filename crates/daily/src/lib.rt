// What is written of the text of a day: the bytes, each an equation with a definition, and their handing to the output.
#![tactic(auto)]

ghost use Rattle.std.specs.Prelude.{◌≡◌, ◌≤◌, length, OnOk};
ghost use Rattle.std.specs.Io.KnownBytes.{Appends};
ghost use Rattle.daily.specs.Written as spec;

use inverter::Minute;
use std::io;
use std::io::Write;

mod lines;

// Room for the text of a day: the longest day is 24,588 bytes, and the first bad line of a longer text is among its first 65,536.
pub const ROOM: usize = 65536;

// Room for the longest text: 1,440 minutes of at most 76 bytes each.
pub type Page = page::Page<110000>;

// The total and each refused minute, or the line that makes the text no day.
pub fn day_page(text: &[u8]) -> Page
    ensures text { result ≡ spec.day_page text.now }
    ensures len { length result ≤ spec.room }
{
    let mut minutes = [Minute::default(); 1440];
    let mut page = Page::new();
    let day = inverter::day(text, &mut minutes);
    lines::put_day(&mut page, day, &minutes);
    page
}

// Of each minute the junction temperature at its end, s, k and r, a line each; or the line that makes the text no day.
// Beside day_page: a closure for what is put would need a contract longer than the lines that it saves.
pub fn minutes_page(text: &[u8]) -> Page
    ensures text { result ≡ spec.minutes_page text.now }
    ensures len { length result ≤ spec.room }
{
    let mut minutes = [Minute::default(); 1440];
    let mut page = Page::new();
    let day = inverter::day(text, &mut minutes);
    lines::put_minutes(&mut page, day, &minutes);
    page
}

// Writes the first of these, all of it at once.
pub fn day<W: Write>(text: &[u8], to: &mut W) -> io::Result<()>
    ensures { OnOk result (Appends (W.contents to.old) (W.contents to.new) (spec.day_page text.now)) }
{
    to.write_all(day_page(text).text())
}

// Writes the second.
pub fn minutes<W: Write>(text: &[u8], to: &mut W) -> io::Result<()>
    ensures { OnOk result (Appends (W.contents to.old) (W.contents to.new) (spec.minutes_page text.now)) }
{
    to.write_all(minutes_page(text).text())
}
