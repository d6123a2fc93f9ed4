// Spans of seats.
ghost use Rattle.std.specs.Prelude.{◌≡◌, ◌≤◌};
ghost use Rattle.boards.specs.Limits.{seat_limit};

use crate::rows::SEAT_LIMIT;

// The seats from `from` up to `to`. One span has no seat, from the limit up to 0: so `min` and `max` put a seat into it as into
// any other. (A `Range` may be empty in many ways, and is not `Copy`.)
#[derive(Clone, Copy, PartialEq, Eq, Debug)]
pub struct Span {
    pub from: usize,
    pub to: usize,
    ghost none: { to ≤ from → (from ≡ seat_limit) × (to ≡ 0) },
    ghost within: { to ≤ seat_limit },
}

impl Span {
    // The span of no seat.
    pub(crate) const NONE: Span = Span {
        from: SEAT_LIMIT,
        to: 0,
    };
}
