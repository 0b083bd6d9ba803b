// The fields of a text, read one after another.
#![tactic(auto)]

ghost use Rattle.std.specs.Prelude.{◌≡◌, ◌^◌, ◌≤◌, ◌<◌};
ghost use Rattle.fields.specs.Fields as spec;

// The value of what was read, and the place after it.
#[derive(Clone, Copy)]
pub struct Field {
    pub value: u64,
    pub next: usize,
}

// The value of a digit, `0` to `9`, then `A` to `F`.
#[tactic(auto, unfolding(crate::specs::Fields::digit))]
fn digit(c: u8) -> Option<u64>
    ensures { result ≡ spec.in_base 16 (spec.digit c) }
{
    match c {
        b'0'..=b'9' => Some(u64::from(c - b'0')),
        b'A'..=b'F' => Some(u64::from(c - b'A') + 10),
        _ => None,
    }
}

// The digit of a base at a place.
fn digit_at(text: &[u8], at: usize, base: u64) -> Option<u64>
    requires { base ≤ 16 }
    ensures { result ≡ spec.in_base base (spec.digit_at text.now at) }
{
    let d = digit(*text.get(at)?)?;
    (d < base).then_some(d)
}

// The number that `least` to `most` digits of a base make. By text and place, since the cursor moves only past a whole field.
fn digits(text: &[u8], from: usize, base: u64, least: u64, most: u64) -> Option<Field>
    requires base_nonzero { (0 < base) × (base ≤ 16) }
    requires most_bound { base ^ most ≤ 2 ^ 64 }
    ensures { result ≡ spec.digits_from base least most text.now from 0 }
{
    let mut at = from;
    let mut value = 0;
    for count in 0..most {
        let Some(d) = digit_at(text, at, base) else {
            return (least <= count).then_some(Field { value, next: at });
        };
        value = value * base + d;
        at += 1;
    }
    Some(Field { value, next: at })
}

// A place in a text, from which fields are read one after another. What is no field leaves it where it is.
#[derive(Clone, Copy)]
pub struct Cursor<'a> {
    pub text: &'a [u8],
    pub at: usize,
}

impl<'a> Cursor<'a> {
    pub fn new(text: &'a [u8]) -> Self
        ensures text { result.text.now ≡ text.now }
        ensures at { result.at ≡ 0 }
    {
        Cursor { text, at: 0 }
    }

    // The value of what was read, where the byte `end` follows it.
    #[tactic(auto, unfolding(crate::specs::Fields::ended_at))]
    fn ended(&mut self, read: Field, end: u8) -> Option<u64>
        ensures { spec.Takes (spec.ended_at end self.old.text.now read.next read.value) self.old result self.new }
    {
        if *self.text.get(read.next)? != end {
            return None;
        }
        self.at = read.next + 1;
        Some(read.value)
    }

    // 64 bits: 16 hexadecimal digits, and the byte that ends them.
    #[tactic(auto, unfolding(crate::specs::Fields::word_field, crate::specs::Fields::ended_by))]
    pub fn word(&mut self, end: u8) -> Option<u64>
        ensures { spec.Takes (spec.word_field end self.old.text.now self.old.at) self.old result self.new }
    {
        let read = digits(self.text, self.at, 16, 16, 16)?;
        self.ended(read, end)
    }

    // A whole number: one to `places` decimal digits, the first not 0, and the byte that ends them.
    #[tactic(auto, unfolding(crate::specs::Fields::number_field, crate::specs::Fields::ended_by))]
    pub fn number(&mut self, places: u64, end: u8) -> Option<u64>
        requires { places ≤ 19 }
        ensures { spec.Takes (spec.number_field places end self.old.text.now self.old.at) self.old result self.new }
    {
        if digit_at(self.text, self.at, 10) == Some(0) {
            return None;
        }
        let read = digits(self.text, self.at, 10, 1, places)?;
        self.ended(read, end)
    }
}
