#![tactic(auto)]
// The benchmark `bench_settle`: how long a settle takes on a site board of 256 seats.
use boards::board::PriceBoard;
use boards::states::SiteBoard;
use std::env;
use std::time::Instant;

// How many seats the board has.
const SEATS: usize = 256;

// The seat and the price that a turn tells.
fn tell_one(board: &mut SiteBoard, turn: u64) {
    board.tell((turn % 256) as usize, turn);
}

// Times the work of one turn, repeated; answers what run 9 is then shown at seat 1.
fn time<F: Fn(&mut SiteBoard, u64)>(
    rt: &HostRuntime,
    what: &str,
    board: &mut SiteBoard,
    repeats: u64,
    work: F,
) -> anyhow::Result<u64>
    requires { F.IsAlwaysCallable work }
{
    let start = Instant::now(rt)?;
    for turn in 0..repeats {
        work(board, turn);
    }
    let each = start.elapsed(rt)?.as_nanos() / u128::from(repeats.max(1));
    eprintln!(rt; "{what}: {each} ns")?;
    Ok(board.shows(9, 1))
}

fn run(rt: &HostRuntime, repeats: u64) -> anyhow::Result<()> {
    let mut board = SiteBoard::new();
    board.clear(SEATS);
    let alone = time(rt, "a telling", &mut board, repeats, tell_one)?;
    board.clear(SEATS);
    let after_one = time(
        rt,
        "a telling and a settle",
        &mut board,
        repeats,
        |b, turn| {
            tell_one(b, turn);
            b.settle();
        },
    )?;
    let after_none = time(
        rt,
        "a settle with nothing told since",
        &mut board,
        repeats,
        |b, _| b.settle(),
    )?;
    println!(rt; "run 9 is shown {alone}, {after_one} and {after_none} at seat 1")?;
    Ok(())
}

// The repeats that the first word asks for, or a thousand.
fn repeats_of(rt: &HostRuntime) -> anyhow::Result<u64> {
    match env::args(rt)?.nth(1) {
        Some(word) => Ok(word.as_str().parse::<u64>()?),
        None => Ok(1000),
    }
}

fn main(rt: HostRuntime) -> anyhow::Result<()> {
    let repeats = repeats_of(&rt)?;
    run(&rt, repeats)
}
