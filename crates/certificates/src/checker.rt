// The checker: one text over every row source.
ghost use Rattle.std.specs.Prelude.{◌≡◌, MatchResult};
ghost use Rattle.fault.specs.Checks.{Passes, Refuses};
ghost use Rattle.points.specs.Plans.{total};
ghost use Rattle.certificates.specs.Certificates.{seat_in, certificate_checks, Accepted, Refused};

use crate::contents::Priced;
use crate::plans::check_plan;
use crate::prices::{check_prices, check_size};
use fault::faults::Fault;
use points::sources::{PairSource, RowSource};

// The total of a certificate's plan, which no full plan exceeds; or the first rule that the certificate breaks.
pub fn check<S: RowSource>(source: &S, seats: &[u16], prices: &[u64]) -> Result<i64, Fault>
    ensures { MatchResult result
        (λ a. Accepted (S.PairSource.table source.now) seats.now prices.now a)
        (λ f. Refused (S.PairSource.table source.now) seats.now prices.now f) }
{
    check_rules(source, seats, prices)
}

// Every rule of a certificate, in order. Apart from `check`, so that its proof turns rules into acceptance once, and not at
// each `?`.
pub(crate) fn check_rules<S: RowSource>(
    source: &S,
    seats: &[u16],
    prices: &[u64],
) -> Result<i64, Fault>
    ensures { MatchResult result
        (λ a. Passes (certificate_checks (S.PairSource.table source.now) seats.now prices.now) × (a ≡ total (S.PairSource.table source.now) (seat_in seats.now)))
        (λ f. Refuses (certificate_checks (S.PairSource.table source.now) seats.now prices.now) f) }
{
    let size = check_size(source.size(), seats.len(), prices.len())?;
    let sum = check_plan(source, seats)?;
    check_prices(prices)?;
    let priced = Priced {
        source,
        size,
        prices,
    };
    priced.check_contents(seats)?;
    Ok(sum)
}
