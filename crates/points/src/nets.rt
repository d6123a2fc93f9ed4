// The arithmetic of nets: points scaled by one more than the size, less a price.
ghost use Rattle.std.specs.Prelude.{◌≡◌, ◌+◌, ◌≤◌, min, pos, neg_ℤ, ◌-ℤ◌, ◌≤ℤ◌};
ghost use Rattle.points.specs.Limits.{price_limit};
ghost use Rattle.points.specs.Nets.{scaled, net};

use crate::limits::PRICE_LIMIT;

// What points are scaled by: one more than the size, so that totals a point apart are more than the size apart.
pub fn scale(size: u16) -> i64
    ensures { result ≡ pos (size + 1) }
{
    i64::from(size) + 1
}

// Points times one more than the size.
#[tactic(auto, using(crate::proofs::Scales::fits), unfolding(crate::specs::Nets::scaled))]
pub fn scaled_points(size: u16, points: i32) -> i64
    ensures { result ≡ scaled size points }
{
    scale(size) * i64::from(points)
}

// A price, or the limit where it is over that.
pub fn limited(price: u64) -> u64
    ensures { result ≡ min price price_limit }
{
    price.min(PRICE_LIMIT)
}

// Scaled points less a price that is not over the limit.
pub(crate) fn less(scaled: i64, price: u64) -> i64
    requires { (neg_ℤ (pos 140737488355328) ≤ℤ scaled) × (scaled ≤ℤ pos 140737488355328) × (price ≤ price_limit) }
    ensures { result ≡ scaled -ℤ pos price }
{
    scaled - price as i64
}

// The net of a seat with these points at this price; a price over the limit counts as the limit.
pub fn net_points(size: u16, points: i32, price: u64) -> i64
    ensures { result ≡ net size points (min price price_limit) }
{
    less(scaled_points(size, points), limited(price))
}
