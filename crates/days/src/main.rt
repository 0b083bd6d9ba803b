// The texts that the arguments name, each with what is written of it as a day; at the end a line for each minute of four of
// them, the first, the fourth, the fifth and the sixth.
#![tactic(auto)]

ghost use Rattle.std.specs.Prelude.{◌≤◌, length};

use std::env::{Env, FillError};
use std::fs::File;
use std::io::{Eprint, Stdout, Write};
use std::{fs, io};

// How many arguments the program was started with, its own name among them.
fn arg_count(rt: &HostRuntime) -> usize {
    for i in 0..usize::MAX {
        if let Err(FillError::NotPresent) = rt.arg(i, &mut []) {
            return i;
        }
    }
    usize::MAX
}

// An argument, in this buffer; empty where it is missing or longer.
fn arg<'a>(rt: &HostRuntime, argument: usize, buffer: &'a mut [u8; 4096]) -> &'a [u8]
    ensures { length result.now ≤ 4096 }
{
    let length = rt.arg(argument, buffer).unwrap_or(0);
    &buffer[..length]
}

fn open_text(rt: &HostRuntime, name: &[u8]) -> io::Result<File> {
    fs::open(rt, stored::path_of(name)?)
}

// An argument's name, what stands after it, and what is written of its text.
fn write_text<F: FnOnce(&[u8], &mut Stdout) -> io::Result<()>>(
    rt: &HostRuntime,
    argument: usize,
    after: &[u8],
    write: F,
) -> io::Result<()>
    requires { F.IsAlwaysCallable write }
{
    let mut buffer = [0u8; 4096];
    let name = arg(rt, argument, &mut buffer);
    let mut file = match open_text(rt, name) {
        Ok(file) => file,
        Err(why) => {
            rt.stderr().write_all(name)?;
            return eprintln!(rt; ": {why}");
        }
    };
    let mut text = [0u8; daily::ROOM];
    let n = stored::read_full(&mut file, &mut text)?;
    let mut to = rt.stdout();
    to.write_all(name)?;
    to.write_all(after)?;
    write(&text[..n], &mut to)
}

fn write_days(rt: &HostRuntime) -> io::Result<()> {
    for argument in 1..arg_count(rt) {
        write_text(rt, argument, b": ", daily::day)?;
    }
    Ok(())
}

fn write_minutes(rt: &HostRuntime) -> io::Result<()> {
    for argument in [1, 4, 5, 6] {
        write_text(rt, argument, b", minutes:\n", daily::minutes)?;
    }
    Ok(())
}

fn main(rt: HostRuntime) -> io::Result<()> {
    write_days(&rt)?;
    write_minutes(&rt)
}
