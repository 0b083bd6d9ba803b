// What the tables of doubles by count share: rows of 16, and the entry of a count.
#![tactic(auto)]

ghost use Rattle.std.specs.Prelude.{◌≡◌, ◌/◌, ◌<◌, min, length};
ghost use Rattle.table.specs.Rows.{entry_in};

// The entry of s, or that of the last count of the table where s is beyond it.
#[inline]
pub fn entry(rows: &[[f64; 16]], last: u64, s: u64) -> f64
    requires { last / 16 < length rows.now }
    ensures { result ≡ entry_in rows.now (min s last) }
{
    let i = s.min(last);
    rows[(i / 16) as usize][(i % 16) as usize]
}
