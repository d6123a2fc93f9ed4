// A summary of a table of points.

// The least and the greatest of some points. (A `RangeInclusive` is not `Copy`.)
#[derive(Clone, Copy, PartialEq, Eq, Debug)]
pub struct Range {
    pub least: i32,
    pub greatest: i32,
}

// How many pairs are allowed, and the range of their points, where there are any.
#[derive(Clone, Copy, PartialEq, Eq, Debug)]
pub struct Summary {
    pub allowed: u64,
    pub range: Option<Range>,
}
