#![tactic(auto)]
// The benchmark `bench_bids`: how long a bid takes, from search to landing, over a dense sheet and a common board.
use auction::limits::ALLOWANCE_LIMIT;
use bench_tools::{refusal, sheet_of, wrong_call};
use boards::board::PriceBoard;
use boards::states::CommonBoard;
use fault::faults::Fault;
use ledgers::deliveries::Delivery;
use ledgers::ledger::Ledger;
use points::sources::{PairSource, RowSource};
use sheets::dense::DenseSheet;
use std::time::Instant;
use std::{env, fs};

// What a first phase comes to.
#[derive(Clone, Copy, Default)]
struct Phase {
    // how many bids it took
    bids: u64,
    // the prices of all seats, added up
    prices: u64,
}

// One bid: composed, delivered, and told to the board.
fn bid(
    sheet: &DenseSheet,
    board: &mut CommonBoard,
    ledger: &mut Ledger,
    run: usize,
) -> Result<(), Fault> {
    let _ = ledger.compose(sheet, board, run)?;
    if let Delivery::Accepted(landing) = ledger.deliver(run)? {
        board.tell(landing.seat, landing.price);
    }
    Ok(())
}

// The prices of all seats, added up.
fn all_prices(ledger: &Ledger) -> Result<u64, Fault> {
    (0..ledger.size()).try_fold(0u64, |sum, seat| -> Result<u64, Fault> {
        Ok(sum.wrapping_add(ledger.price(seat)?))
    })
}

// Bids of the lowest free run, one after another, until every run holds a seat.
fn play(sheet: &DenseSheet, increment: u64) -> Result<Phase, Fault> {
    let mut board = CommonBoard::new();
    board.clear(sheet.size());
    let mut ledger = Ledger::open(sheet.size(), &[increment, 1], ALLOWANCE_LIMIT)?;
    // as many steps as the allowance has bids: that number is what ends the loop, whatever runs are free
    for _ in 0..ALLOWANCE_LIMIT {
        let Some(run) = ledger.lowest_free() else {
            break;
        };
        bid(sheet, &mut board, &mut ledger, run)?;
    }
    Ok(Phase {
        bids: ledger.counts().composed,
        prices: all_prices(&ledger)?,
    })
}

// The same phase, over and over; the last is answered.
fn play_often(sheet: &DenseSheet, increment: u64, repeats: u64) -> Result<Phase, Fault> {
    (0..repeats).try_fold(Phase::default(), |_before, _| play(sheet, increment))
}

// The time of one bid, by the time of all.
fn time_bids(
    rt: &HostRuntime,
    sheet: &DenseSheet,
    increment: u64,
    repeats: u64,
) -> anyhow::Result<()> {
    let start = Instant::now(rt)?;
    let played = play_often(sheet, increment, repeats);
    let nanos = start.elapsed(rt)?.as_nanos();
    let phase = played.map_err(|fault| refusal(rt, fault))?;
    let all = u128::from(phase.bids).saturating_mul(u128::from(repeats));
    let each = nanos / all.max(1);
    println!(rt; "bids {} prices {}", phase.bids, phase.prices)?;
    eprintln!(rt; "{each} ns per bid ({repeats} phases)")?;
    Ok(())
}

// One sheet, by its file.
fn time_file(rt: &HostRuntime, sheet: &str, increment: u64, repeats: u64) -> anyhow::Result<()> {
    let filled = sheet_of(rt, fs::read(rt, sheet)?)?;
    time_bids(rt, &filled, increment, repeats)
}

fn main(rt: HostRuntime) -> anyhow::Result<()> {
    let words: Vec<String> = env::args(&rt)?.skip(1).collect(rt.alloc())?;
    match words.as_slice() {
        [sheet, increment, repeats] => time_file(
            &rt,
            sheet.as_str(),
            increment.as_str().parse::<u64>()?,
            repeats.as_str().parse::<u64>()?,
        ),
        _ => Err(wrong_call(&rt, "bench_bids SHEET INCREMENT REPEATS")),
    }
}
