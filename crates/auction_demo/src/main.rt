#![tactic(auto)]
// The worked figures of the auction, run through the search, the ledger and a board.
use crate::calls::run_scene;
use boards::states::{CommonBoard, SiteBoard};
use sheets::dense::DenseSheet;

mod answers;
mod calls;

// The word of a pair that is not allowed.
const ABSENT: i32 = i32::MIN;

// A dense sheet of so many runs, with these points run by run.
fn sheet_of(rt: &HostRuntime, size: u8, points: &[i32]) -> anyhow::Result<DenseSheet> {
    let mut bytes = Vec::from_slice(rt.alloc(), &[size, 0, 0, 0, 0, 0, 0, 0])?;
    for word in points {
        bytes.extend_from_slice(&word.to_le_bytes())?;
    }
    let mut sheet = DenseSheet::new(rt.alloc());
    if let Err(fault) = sheet.fill(bytes) {
        println!(rt; "  sheet -> {fault}")?;
    }
    Ok(sheet)
}

// Points 5, 3 and 4, 1, with prices shown at once.
fn at_once(rt: &HostRuntime) -> anyhow::Result<()> {
    let sheet = sheet_of(rt, 2, &[5, 3, 4, 1])?;
    run_scene(
        rt,
        "increment 1, run 0 displaced",
        &sheet,
        CommonBoard::new(),
        &[1],
        |play| {
            play.compose(0)?;
            play.deliver(0)?;
            play.compose(1)?;
            play.deliver(1)?;
            play.compose(0)?;
            play.deliver(0)
        },
    )?;
    run_scene(
        rt,
        "increments 4 and 1",
        &sheet,
        CommonBoard::new(),
        &[4, 1],
        |play| {
            play.compose(0)?;
            play.deliver(0)?;
            play.compose(1)?;
            play.deliver(1)?;
            play.advance()?;
            play.compose(0)?;
            play.deliver(0)?;
            play.compose(1)?;
            play.deliver(1)?;
            play.compose(0)?;
            play.deliver(0)?;
            play.advance()
        },
    )
}

// The same points on a board that lags.
fn lagging(rt: &HostRuntime) -> anyhow::Result<()> {
    let sheet = sheet_of(rt, 2, &[5, 3, 4, 1])?;
    run_scene(
        rt,
        "a board that still shows 0 to run 0",
        &sheet,
        SiteBoard::new(),
        &[1],
        |play| {
            play.compose(0)?;
            play.deliver(0)?;
            play.compose(1)?;
            play.deliver(1)?;
            play.compose(0)?;
            play.deliver(0)
        },
    )?;
    run_scene(
        rt,
        "both compose first, and a bid is recalled",
        &sheet,
        SiteBoard::new(),
        &[1],
        |play| {
            play.compose(0)?;
            play.compose(1)?;
            play.deliver(1)?;
            play.deliver(0)?;
            play.compose(0)?;
            play.recall(0)?;
            play.settle()?;
            play.compose(0)
        },
    )
}

// A bid of the price itself is outbid, and one of an increment more is accepted.
fn one_increment(rt: &HostRuntime) -> anyhow::Result<()> {
    let sheet = sheet_of(rt, 2, &[5, 2, 4, 1])?;
    run_scene(
        rt,
        "increment 1 and price 10, a bid of 10",
        &sheet,
        SiteBoard::new(),
        &[1],
        |play| {
            play.compose(0)?;
            play.compose(1)?;
            play.deliver(1)?;
            play.deliver(0)
        },
    )?;
    let tied = sheet_of(rt, 2, &[4, 4, 1, 3])?;
    run_scene(
        rt,
        "increments 4 and 1, then price 10 and a bid of 11",
        &tied,
        SiteBoard::new(),
        &[4, 1],
        |play| {
            play.compose(0)?;
            play.deliver(0)?;
            play.compose(1)?;
            play.settle()?;
            play.deliver(1)?;
            play.advance()?;
            play.compose(1)?;
            play.deliver(1)
        },
    )
}

// One run and one seat; two runs for one seat; seats that are equal.
fn small(rt: &HostRuntime) -> anyhow::Result<()> {
    let one = sheet_of(rt, 1, &[5])?;
    run_scene(
        rt,
        "one run, 5 points",
        &one,
        CommonBoard::new(),
        &[1],
        |play| { play.compose(0) },
    )?;
    let none = sheet_of(rt, 1, &[ABSENT])?;
    run_scene(
        rt,
        "one run, not allowed",
        &none,
        CommonBoard::new(),
        &[1],
        |play| { play.compose(0) },
    )?;
    let contested = sheet_of(rt, 2, &[0, ABSENT, 0, ABSENT])?;
    run_scene(
        rt,
        "two runs, one seat",
        &contested,
        CommonBoard::new(),
        &[1],
        |play| {
            play.compose(0)?;
            play.deliver(0)?;
            play.compose(1)?;
            play.compose(0)
        },
    )?;
    let equal = sheet_of(rt, 2, &[4, 4, 4, 4])?;
    run_scene(
        rt,
        "equal seats",
        &equal,
        CommonBoard::new(),
        &[1],
        |play| { play.compose(0) },
    )
}

fn main(rt: HostRuntime) -> anyhow::Result<()> {
    at_once(&rt)?;
    lagging(&rt)?;
    one_increment(&rt)?;
    small(&rt)
}
