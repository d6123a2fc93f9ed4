// An auction under way: its calls, made one after another on a ledger and a board, and printed with their answers.
use crate::answers::{Bid, Delivered};
use boards::board::PriceBoard;
use fault::faults::Fault;
use ledgers::deliveries::Delivery;
use ledgers::ledger::Ledger;
use points::sources::{PairSource, RowSource};
use std::fmt::Display;

// What the calls of one auction are made on.
#[derive(Drop)]
pub struct Play<'a, S, B> {
    rt: &'a HostRuntime,
    source: &'a S,
    board: &'a mut B,
    ledger: &'a mut Ledger,
}

impl<S: RowSource, B: PriceBoard> Play<'_, S, B> {
    pub fn compose(&mut self, run: usize) -> anyhow::Result<()> {
        let answer = self.ledger.compose(self.source, self.board, run);
        print_call(self.rt, format_args!("compose {run}"), answer.map(Bid))
    }

    // Delivers a run's bid, and tells the board of it where it is accepted.
    pub fn deliver(&mut self, run: usize) -> anyhow::Result<()> {
        let answer = self.ledger.deliver(run);
        if let Ok(Delivery::Accepted(landing)) = answer {
            self.board.tell(landing.seat, landing.price);
        }
        print_call(
            self.rt,
            format_args!("deliver {run}"),
            answer.map(Delivered),
        )
    }

    pub fn recall(&mut self, run: usize) -> anyhow::Result<()> {
        let answer = self.ledger.recall(run);
        print_call(
            self.rt,
            format_args!("recall {run}"),
            answer.map(|()| "done"),
        )
    }

    pub fn settle(&mut self) -> anyhow::Result<()> {
        self.board.settle();
        print_call(self.rt, "settle", Ok("done"))
    }

    pub fn advance(&mut self) -> anyhow::Result<()> {
        let answer = self.ledger.advance();
        print_call(self.rt, "advance", answer.map(|()| "done"))
    }
}

// A call with what it came to, or its refusal.
fn print_call<C: Display + Drop, A: Display + Drop>(
    rt: &HostRuntime,
    call: C,
    answer: Result<A, Fault>,
) -> anyhow::Result<()> {
    match answer {
        Ok(came) => println!(rt; "  {call} -> {came}")?,
        Err(fault) => println!(rt; "  {call} -> {fault}")?,
    }
    Ok(())
}

// An auction over a source: its title, the calls, and then the bids made.
pub(crate) fn run_scene<
    S: RowSource + Drop,
    B: PriceBoard + Drop,
    F: FnOnce(&mut Play<'_, S, B>) -> anyhow::Result<()>,
>(
    rt: &HostRuntime,
    title: &str,
    source: &S,
    mut board: B,
    ladder: &[u64],
    calls: F,
) -> anyhow::Result<()>
    requires { F.IsAlwaysCallable calls }
{
    println!(rt; "{title}")?;
    board.clear(source.size());
    match Ledger::open(source.size(), ladder, 100) {
        Err(fault) => println!(rt; "  start -> {fault}")?,
        Ok(mut ledger) => {
            calls(&mut Play {
                rt,
                source,
                board: &mut board,
                ledger: &mut ledger,
            })?;
            let counts = ledger.counts();
            println!(rt;
                "  composed {} accepted {} outbid {} recalled {}",
                counts.composed, counts.accepted, counts.outbid, counts.recalled
            )?;
        }
    }
    Ok(())
}
