// The limits of tables.

// No table of more runs is taken by a sheet, the checker or an auction; a source may have any size.
pub const SIZE_LIMIT: usize = 256;

// The greatest top that a kind of source may state.
pub const TOP_LIMIT: u32 = 1_000_000;

// The greatest price that is taken, in scaled points.
pub const PRICE_LIMIT: u64 = 4_000_000_000_000_000;
