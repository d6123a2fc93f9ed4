#![tactic(auto)]
// Runs the vectors of sheets and certificates, and says how many come out as they are written down.
mod texts;

use crate::texts::{bytes_in, numbers_in};
use anyhow::anyhow;
use commands::calls::{check_plan, show_sheet};
use commands::lines::text_of;
use std::alloc::Global;
use std::fs;

// What `show` answers on a sheet in hexadecimal.
fn show(heap: Global, input: &str) -> anyhow::Result<String> {
    Ok(text_of(heap, show_sheet(bytes_in(heap, input)?))?)
}

// What `check` answers on a sheet in hexadecimal, seats and prices.
fn check(heap: Global, input: &str) -> anyhow::Result<String> {
    let Some((sheet, rest)) = input.split_once(' ') else {
        return Err(anyhow!("a line without seats"));
    };
    let Some((seats, prices)) = rest.split_once(' ') else {
        return Err(anyhow!("a line without prices"));
    };
    let seats = numbers_in(heap, seats)?;
    let prices = numbers_in(heap, prices)?;
    let answer = check_plan(bytes_in(heap, sheet)?, &seats, &prices);
    Ok(text_of(heap, answer)?)
}

// Every line of a file against what a command answers; prints those that disagree, and how many agree.
fn run<F: Fn(Global, &str) -> anyhow::Result<String>>(
    rt: &HostRuntime,
    path: &str,
    command: F,
) -> anyhow::Result<()>
    requires { F.IsAlwaysCallable command }
{
    let text = fs::read_to_string(rt, path)?;
    let mut good: u64 = 0;
    let mut all: u64 = 0;
    for line in text.as_str().lines() {
        if let Some((input, answer)) = line.split_once(" => ") {
            all = all.saturating_add(1);
            if command(rt.alloc(), input)?.as_str() == answer {
                good = good.saturating_add(1);
            } else {
                println!(rt; "{path} disagrees: {line}")?;
            }
        }
    }
    println!(rt; "{path}: {good} of {all} agree")?;
    Ok(())
}

fn main(rt: HostRuntime) -> anyhow::Result<()> {
    run(&rt, "sheets.txt", show)?;
    run(&rt, "certificates.txt", check)
}
