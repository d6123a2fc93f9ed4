#![tactic(auto)]
// Shows a lag on each kind of board, and the worked cases of the delay layer.
use crate::watch::{Reading, tell_up_to, watch};
use boards::board::PriceBoard;
use boards::states::{CommonBoard, Delay, SiteBoard};

mod watch;

fn line(rt: &HostRuntime, when: &str, reading: Reading) -> anyhow::Result<()> {
    println!(rt; "  {when}: {reading}")?;
    Ok(())
}

// A telling, a carry to site 1 and a settle, and what two runs read after each.
fn lag<B: PriceBoard>(rt: &HostRuntime, kind: &str, board: &mut B) -> anyhow::Result<()> {
    let seen = watch(board);
    println!(rt; "{kind}")?;
    line(rt, "7 told at seat 1", seen.told)?;
    line(rt, "1 carried", seen.carried)?;
    line(rt, "settled", seen.settled)
}

fn prices<B: PriceBoard>(rt: &HostRuntime, when: &str, layer: &Delay<B>) -> anyhow::Result<()> {
    let own = layer.told(0);
    let below = layer.below().told(0);
    println!(rt; "  {when}: the layer was told {own}, the board below {below}")?;
    Ok(())
}

// The 65th telling passes the oldest down.
fn full_layer(rt: &HostRuntime, layer: &mut Delay<CommonBoard>) -> anyhow::Result<()> {
    println!(rt; "a full layer")?;
    tell_up_to(layer, 64);
    prices(rt, "1 to 64 told at seat 0", layer)?;
    layer.tell(0, 65);
    prices(rt, "65 told", layer)
}

// A telling between the board below and the layer's own told price is refused by the layer.
fn telling_between(rt: &HostRuntime, layer: &mut Delay<CommonBoard>) -> anyhow::Result<()> {
    println!(rt; "a telling between")?;
    layer.clear(2);
    layer.tell(0, 5);
    layer.carry(1);
    layer.tell(0, 9);
    prices(rt, "5 told at seat 0 and carried, 9 told", layer)?;
    layer.tell(0, 7);
    prices(rt, "7 told", layer)?;
    layer.settle();
    prices(rt, "settled", layer)
}

fn run(rt: &HostRuntime) -> anyhow::Result<()> {
    lag(rt, "common board", &mut CommonBoard::new())?;
    lag(rt, "site board", &mut SiteBoard::new())?;
    let mut layer = Delay::new(rt.alloc(), CommonBoard::new())?;
    lag(rt, "delay layer over a common board", &mut layer)?;
    let lower = Delay::new(rt.alloc(), SiteBoard::new())?;
    let mut pile = Delay::new(rt.alloc(), lower)?;
    lag(rt, "two delay layers over a site board", &mut pile)?;
    full_layer(rt, &mut layer)?;
    telling_between(rt, &mut layer)
}

fn main(rt: HostRuntime) -> anyhow::Result<()> {
    run(&rt)
}
