// What a search finds, and what is offered on it.

// A run's best seat, with its scaled points, its net, and the greatest of the floor and the other seats' nets.
#[derive(Clone, Copy, PartialEq, Eq, Debug)]
pub struct Sought {
    pub seat: usize,
    pub worth: i64,
    pub net: i64,
    pub second: i64,
}

// The seat and the price of a bid. No `Telling` of a board, though of the same fields: a bid may never be accepted.
#[derive(Clone, Copy, PartialEq, Eq, Debug)]
pub struct Offer {
    pub seat: usize,
    pub price: u64,
}
