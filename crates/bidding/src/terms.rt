// The terms of a phase: the numbers that a bid depends on beside points and prices.
ghost use Rattle.std.specs.Prelude.{◌≤◌};
ghost use Rattle.points.specs.Limits.{price_limit, size_limit, top_limit};
ghost use Rattle.auction.specs.Limits.{increment_limit};

// The size and the top of a table, and the increment and the high price of a phase.
#[derive(Clone, Copy, PartialEq, Eq, Debug)]
pub struct Terms {
    pub(crate) size: u16,
    pub(crate) top: u32,
    pub(crate) increment: u64,
    pub(crate) high: u64,
    ghost some: { 1 ≤ size },
    ghost few: { size ≤ size_limit },
    ghost low: { top ≤ top_limit },
    ghost small: { increment ≤ increment_limit },
    ghost cheap: { high ≤ price_limit },
}
