#![tactic(auto)]
// The benchmark `bench_checker`: how long one check of a certificate over a dense sheet takes.
use anyhow::anyhow;
use bench_tools::{refusal, sheet_of, wrong_call};
use certificates::checker::check;
use fault::faults::Fault;
use points::sources::{PairSource, RowSource};
use sheets::certificate_files::{Certificate, read_certificate};
use sheets::dense::DenseSheet;
use std::time::Instant;
use std::{env, fs};

// What all repeats of a check come to.
#[derive(Clone, Copy, Default)]
struct Tally {
    // the total that the last check answered
    last: i64,
    // the totals of all checks, added up
    sum: i64,
}

impl Tally {
    // One check more.
    fn with(self, total: i64) -> Tally {
        Tally {
            last: total,
            sum: self.sum.wrapping_add(total),
        }
    }
}

// The same check, over and over.
fn check_often(sheet: &DenseSheet, plan: &Certificate, repeats: u64) -> Result<Tally, Fault> {
    (0..repeats).try_fold(Tally::default(), |tally, _| -> Result<Tally, Fault> {
        Ok(tally.with(check(sheet, &plan.seats, &plan.prices)?))
    })
}

// The time of one check, by the time of all.
fn time_checks(
    rt: &HostRuntime,
    sheet: &DenseSheet,
    plan: &Certificate,
    repeats: u64,
) -> anyhow::Result<()> {
    let start = Instant::now(rt)?;
    let checked = check_often(sheet, plan, repeats);
    let nanos = start.elapsed(rt)?.as_nanos();
    let tally = checked.map_err(|fault| refusal(rt, fault))?;
    let each = nanos / u128::from(repeats.max(1));
    println!(rt; "total {}", tally.last)?;
    eprintln!(rt;
        "{each} ns per check ({repeats} checks, totals add up to {})",
        tally.sum
    )?;
    Ok(())
}

// One sheet and one certificate, by their files.
fn time_files(
    rt: &HostRuntime,
    sheet: &str,
    certificate: &str,
    repeats: u64,
) -> anyhow::Result<()> {
    let bytes = fs::read(rt, sheet)?;
    let written = fs::read(rt, certificate)?;
    let filled = sheet_of(rt, bytes)?;
    let plan = read_certificate(rt.alloc(), &written).map_err(|_| anyhow!(
        "the certificate is not read"
    ))?;
    time_checks(rt, &filled, &plan, repeats)
}

fn main(rt: HostRuntime) -> anyhow::Result<()> {
    let words: Vec<String> = env::args(&rt)?.skip(1).collect(rt.alloc())?;
    match words.as_slice() {
        [sheet, certificate, repeats] => time_files(
            &rt,
            sheet.as_str(),
            certificate.as_str(),
            repeats.as_str().parse::<u64>()?,
        ),
        _ => Err(wrong_call(&rt, "bench_checker SHEET CERTIFICATE REPEATS")),
    }
}
