// The text of a day: its first line and its readings.
#![tactic(auto)]

ghost use Rattle.std.specs.Prelude.{◌≡◌, [], length};
ghost use Rattle.sheet.specs.Text as spec;

use fields::Cursor;
use heat_sink::Inverter;

// A day has a reading a minute.
const MINUTES: usize = 1440;

// The line after the last: line 1 and a line a minute come before it.
const PAST_THE_LAST: usize = MINUTES + 2;

// The temperatures of a chain at most, and the decimal digits of a number.
const MOST_TEMPERATURES: usize = 512;

const PLACES: u64 = 3;

// The first line that makes a text no day.
#[derive(Clone, Copy, Debug, PartialEq)]
pub struct Malformed {
    pub line: usize,
}

fn finite_constants(m: Inverter) -> bool
    ensures { result ≡ spec.finite_constants m }
{
    [m.initial, m.ambient, m.conduct, m.cool, m.heat, m.rated]
        .iter()
        .all(|constant| ieee::is_finite(*constant))
}

#[tactic(auto, unfolding(crate::specs::Text::sound))]
fn sound(m: Inverter) -> bool
    ensures { result ≡ spec.sound m }
{
    family::known(m.family) && (1..=MOST_TEMPERATURES).contains(&m.n) && finite_constants(m)
}

// The model's constants: the six fields after the number of temperatures. (That the cursor's text stands is said by each that is
// lent the cursor.)
#[tactic(auto, unfolding(crate::specs::Text::constants, crate::specs::Text::if_sound))]
fn constants(fields: &mut Cursor, family: u64, n: usize) -> Option<Inverter>
    ensures text { fields.new.text ≡ fields.old.text }
    ensures line { spec.constants fields.old.text.now family n fields.old.at ≡ spec.head_to fields.new.at result }
{
    let inverter = Inverter {
        family,
        n,
        initial: ieee::float_of(fields.word(b' ')?),
        ambient: ieee::float_of(fields.word(b' ')?),
        conduct: ieee::float_of(fields.word(b' ')?),
        cool: ieee::float_of(fields.word(b' ')?),
        heat: ieee::float_of(fields.word(b' ')?),
        rated: ieee::float_of(fields.word(b'\n')?),
    };
    sound(inverter).then_some(inverter)
}

// What line 1 of a day says.
#[tactic(auto, unfolding(crate::specs::Text::first_line))]
fn first_line(fields: &mut Cursor) -> Option<Inverter>
    requires { fields.old.at ≡ 0 }
    ensures text { fields.new.text ≡ fields.old.text }
    ensures line { spec.first_line fields.old.text.now ≡ spec.head_to fields.new.at result }
{
    let family = fields.number(PLACES, b' ')?;
    let n = fields.number(PLACES, b' ')?;
    constants(fields, family, n as usize)
}

// The readings, one a line, as many as there is room for.
fn read_lines(fields: &mut Cursor, readings: &mut [f64]) -> Result<(), Malformed>
    ensures text { fields.new.text ≡ fields.old.text }
    ensures lines { spec.Fills (spec.lines_from fields.old.text.now (length readings.old) fields.old.at 2 [])
        result fields.new.at readings.new }
{
    for (i, reading) in readings.iter_mut().enumerate() {
        let bits = fields.word(b'\n').ok_or(Malformed { line: i + 2 })?;
        *reading = ieee::float_of(bits);
    }
    Ok(())
}

// A day's text, its readings in the slice, or the first line that makes it no day.
pub fn read(text: &[u8], readings: &mut [f64]) -> Result<Inverter, Malformed>
    requires { length readings.old ≡ spec.minutes_a_day }
    ensures { spec.Reads (spec.parsed text.now) result readings.new }
{
    let mut fields = Cursor::new(text);
    let inverter = first_line(&mut fields).ok_or(Malformed { line: 1 })?;
    read_lines(&mut fields, readings)?;
    if fields.at != text.len() {
        return Err(Malformed {
            line: PAST_THE_LAST,
        });
    }
    Ok(inverter)
}
