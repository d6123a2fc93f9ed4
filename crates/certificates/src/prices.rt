// Checks of the size, the lengths and the prices of a certificate.
ghost use Rattle.std.specs.Prelude.{◌≡◌, ℕ, ◌<◌, ◌≤◌, length, MatchResult};
ghost use Rattle.fault.specs.Checks.{Passes, Refuses};
ghost use Rattle.certificates.specs.Certificates.{checker_fault, size_checks, price_checks};

use fault::causes::Cause;
use fault::faults::Fault;
use fault::layers::Layer;
use points::limits::{PRICE_LIMIT, SIZE_LIMIT};

// A fault of the checker.
pub(crate) fn checker_fault(cause: Cause, run: Option<usize>, seat: Option<usize>) -> Fault
    ensures { result ≡ checker_fault cause run seat }
{
    Fault::in_phase(Layer::Checker, cause, 0, run, seat)
}

// A size that is checked, with as many seats and prices; answers the size.
pub(crate) fn check_size(size: usize, seats: usize, prices: usize) -> Result<u16, Fault>
    ensures { MatchResult result (λ n. Passes (size_checks size seats prices) × (n ≡ size)) (λ f. Refuses (size_checks size seats prices) f) }
{
    checker_fault(Cause::Size, None, None).unless((1..=SIZE_LIMIT).contains(&size))?;
    checker_fault(Cause::Buffer, None, None).unless(seats == size && prices == size)?;
    Ok(size as u16)
}

// No price is over the limit.
pub(crate) fn check_prices(prices: &[u64]) -> Result<(), Fault>
    ensures { MatchResult result
        (λ _. Passes (price_checks (length prices.now) prices.now))
        (λ f. Refuses (price_checks (length prices.now) prices.now) f) }
{
    for (seat, price) in prices.iter().enumerate() {
        checker_fault(Cause::PriceTooHigh, None, Some(seat)).unless(*price <= PRICE_LIMIT)?;
    }
    Ok(())
}
