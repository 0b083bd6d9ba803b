// All coefficients of all families, TSRKC2's without a history, held against the Rust's: a digest for each family and count, then every row of one count.
// The file stdout beside this was written by the Rust (bindings/oracle/src/bin/digests.rs).
#![tactic(auto)]

ghost use Rattle.std.specs.Prelude.{◌≡◌, ◌+◌, ◌-◌, ◌*◌, ◌%◌, ◌^◌, ◌<◌, ◌≤◌};
ghost use Rattle.std.specs.Iterator.{at_most};

use coefficients::{Coefficients, Recurrence};
use family::{Family, Setting};
use std::io;

// FNV-1a's product, to 64 bits: by 2 ^ 40 + 0x1b3.
fn times_prime(h: u64) -> u64
    ensures { result ≡ h * 1099511628211 % 2 ^ 64 }
{
    h.wrapping_mul(0x100_0000_01b3)
}

// FNV-1a over doubles: over the eight bytes of each, the lowest first.
#[derive(Drop)]
struct Digest(u64);

impl Digest {
    fn new() -> Digest {
        Digest(0xcbf2_9ce4_8422_2325)
    }

    fn add(&mut self, x: f64) {
        for byte in ieee::bits_of(x).to_le_bytes() {
            self.0 = times_prime(self.0 ^ u64::from(byte));
        }
    }

    fn add_row(&mut self, row: Coefficients) {
        for x in doubles(row) {
            self.add(x);
        }
    }
}

// The rows of stages j to s, each with its stage.
#[derive(Drop)]
struct Rows {
    setting: Setting,
    s: u64,
    j: u64,
    recurrence: Recurrence,
    ghost from_two: { 2 ≤ j },
    ghost few: { s < 2 ^ 16 },
}

impl Rows {
    // From stage 2 on.
    fn new(setting: Setting, s: u64) -> Rows
        requires { s < 2 ^ 16 }
    {
        Rows {
            setting,
            s,
            j: 2,
            recurrence: coefficients::first_recurrence(setting, s),
        }
    }
}

impl Iterator for Rows {
    type Item = (u64, Coefficients);

    ghost remaining = { λ rows. at_most (rows.s + 1 - rows.j) };

    fn next(&mut self) -> Option<(u64, Coefficients)> {
        if self.j > self.s {
            return None;
        }
        let j = self.j;
        let advance = coefficients::row_and_recurrence(self.setting, self.s, j, self.recurrence);
        self.recurrence = advance.after;
        self.j += 1;
        Some((j, advance.row))
    }
}

fn doubles(row: Coefficients) -> [f64; 5] {
    [row.mu, row.nu, row.mu_tilde, row.gamma_tilde, row.theta]
}

// Of omega_one, first_mu_tilde, and the rows of stages 2 to s.
fn digest_of(setting: Setting, s: u64) -> u64
    requires { s < 2 ^ 16 }
{
    let mut digest = Digest::new();
    digest.add(coefficients::omega_one(setting, s));
    digest.add(coefficients::first_mu_tilde(setting, s));
    for (_, row) in Rows::new(setting, s) {
        digest.add_row(row);
    }
    digest.0
}

// A line for each permitted count: family, s, digest.
fn print_digests(rt: &impl Print, family: u64) -> io::Result<()> {
    let setting = Setting::without_history(Family::from(family));
    for s in 2..=family::MOST_STAGES {
        if setting.family.permits(s) {
            let digest = digest_of(setting, s);
            println!(rt; "{family} {s} {digest:016x}")?;
        }
    }
    Ok(())
}

fn print_double(rt: &impl Print, x: f64) -> io::Result<()> {
    let bits = ieee::bits_of(x);
    print!(rt; " {bits:016x}")
}

// mu, nu, mu_tilde, gamma_tilde, theta, omega_one, first_mu_tilde
fn print_row(rt: &impl Print, setting: Setting, s: u64, row: Coefficients) -> io::Result<()> {
    for x in doubles(row) {
        print_double(rt, x)?;
    }
    print_double(rt, coefficients::omega_one(setting, s))?;
    print_double(rt, coefficients::first_mu_tilde(setting, s))?;
    println!(rt; "")
}

// A line for each stage: family, s, j and its row.
fn print_rows(rt: &impl Print, family: u64, s: u64) -> io::Result<()>
    requires { s < 2 ^ 16 }
{
    let setting = Setting::without_history(Family::from(family));
    for (j, row) in Rows::new(setting, s) {
        print!(rt; "{family} {s} {j}")?;
        print_row(rt, setting, s, row)?;
    }
    Ok(())
}

fn each_family<F: Fn(u64) -> io::Result<()>>(print: F) -> io::Result<()>
    requires { F.IsAlwaysCallable print }
{
    for family in 1..=7 {
        print(family)?;
    }
    Ok(())
}

fn main(rt: HostRuntime) -> io::Result<()> {
    each_family(|family| print_digests(&rt, family))?;
    each_family(|family| print_rows(&rt, family, 9))
}
