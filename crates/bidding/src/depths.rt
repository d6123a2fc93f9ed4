// How far below 0 the floor of a phase lies.
ghost use Rattle.std.specs.Prelude.{◌≡◌, ◌+◌, ◌*◌, ◌≤◌};
ghost use Rattle.bidding.specs.Depths.{depth_of, floor_of, ceiling_limit, depth_limit};
ghost use Rattle.bidding.specs.Searches.{Made};

use crate::terms::Terms;
use auction::limits::INCREMENT_LIMIT;
use points::limits::{PRICE_LIMIT, SIZE_LIMIT, TOP_LIMIT};
use points::nets::scale;

impl Terms {
    // The terms of these numbers, or nothing where one is outside its limits.
    pub fn new(size: u16, top: u32, increment: u64, high: u64) -> Option<Terms>
        ensures { Made size top increment high result }
    {
        let within = (1..=SIZE_LIMIT).contains(&usize::from(size))
            && top <= TOP_LIMIT
            && increment <= INCREMENT_LIMIT
            && high <= PRICE_LIMIT;
        if !within {
            return None;
        }
        Some(Terms {
            size,
            top,
            increment,
            high,
        })
    }

    // The least net that is bid on.
    pub fn floor(&self) -> i64
        ensures { result ≡ floor_of self.now.size self.now.top self.now.increment self.now.high }
    {
        -(self.depth() as i64)
    }

    // How far below 0 the floor lies.
    pub(crate) fn depth(&self) -> u64
        ensures value { result ≡ depth_of self.now.size self.now.top self.now.increment self.now.high }
        ensures bound { result ≤ depth_limit }
    {
        let size = u64::from(self.size);
        (2 * size - 1) * self.ceiling() + (size - 1) * self.increment + self.high
    }

    // The greatest that scaled points can be.
    pub(crate) fn ceiling(&self) -> u64
        ensures value { result ≡ (self.now.size + 1) * self.now.top }
        ensures bound { result ≤ ceiling_limit }
    {
        scale(self.size) as u64 * u64::from(self.top)
    }
}
