// The commands `show` and `check`, from bytes to their lines.
ghost use Rattle.std.specs.Prelude.{◌≡◌, MatchResult};
ghost use Rattle.points.specs.Summaries.{summary_of};
ghost use Rattle.certificates.specs.Certificates.{Accepted, Refused};
ghost use Rattle.sheets.specs.Any.{table_of};
ghost use Rattle.commands.specs.declared.calls.Failure.TheVariants.{Refusal, NoCertificate};
ghost use Rattle.commands.specs.Answers.{Shown, Judged, Checked};

use crate::lines::{AcceptedLine, SheetLine};
use certificates::checker::check;
use fault::faults::Fault;
use points::sources::{PairSource, RowSource};
use points::summaries::Summary;
use points::summarize::summarize;
use sheets::any::AnySheet;
use sheets::certificate_files::{Unreadable, read_certificate};
use std::alloc::Global;

// Why `check` has no total: an error either way, so no `Result` of the two would say more.
#[derive(Clone, Copy, PartialEq, Eq, Debug)]
pub enum Failure {
    // the sheet or the certificate is refused
    Refusal(Fault),
    // the certificate file is not one of seats and prices
    NoCertificate(Unreadable),
}

impl From<Fault> for Failure {
    ghost from_gives = { λ f e. e ≡ Refusal f };

    fn from(fault: Fault) -> Failure {
        Failure::Refusal(fault)
    }
}

impl From<Unreadable> for Failure {
    ghost from_gives = { λ u e. e ≡ NoCertificate u };

    fn from(unreadable: Unreadable) -> Failure {
        Failure::NoCertificate(unreadable)
    }
}

// What a sheet of either kind comes to. (Each kind by itself, as in `total_of`: asked as an `AnySheet`, a sheet looks at its
// kind at each question.)
fn summary_of(sheet: &AnySheet) -> Summary
    ensures { result ≡ summary_of (table_of sheet.now) }
{
    match sheet {
        AnySheet::Dense(sheet) => summarize(sheet),
        AnySheet::Sparse(sheet) => summarize(sheet),
    }
}

// The total of a plan over a sheet of either kind, or the first rule that its certificate breaks.
fn total_of(sheet: &AnySheet, seats: &[u16], prices: &[u64]) -> Result<i64, Fault>
    ensures { MatchResult result (λ a. Accepted (table_of sheet.now) seats.now prices.now a) (λ f. Refused (table_of sheet.now) seats.now prices.now f) }
{
    match sheet {
        AnySheet::Dense(sheet) => check(sheet, seats, prices),
        AnySheet::Sparse(sheet) => check(sheet, seats, prices),
    }
}

// The line of a sheet of either kind.
pub fn show_sheet(bytes: Vec<u8>) -> Result<SheetLine, Fault>
    ensures { Shown bytes.items result }
{
    let sheet = AnySheet::read(bytes)?;
    Ok(SheetLine {
        kind: sheet.kind(),
        runs: sheet.size(),
        summary: summary_of(&sheet),
    })
}

// Seats and prices checked over a sheet of either kind.
pub fn check_plan(bytes: Vec<u8>, seats: &[u16], prices: &[u64]) -> Result<AcceptedLine, Fault>
    ensures { Judged bytes.items seats.now prices.now result }
{
    let total = total_of(&AnySheet::read(bytes)?, seats, prices)?;
    Ok(AcceptedLine { total })
}

// A certificate file checked over a sheet of either kind.
pub fn check_sheet(
    heap: Global,
    bytes: Vec<u8>,
    certificate: &[u8],
) -> Result<AcceptedLine, Failure>
    ensures { Checked bytes.items certificate.now result }
{
    let plan = read_certificate(heap, certificate)?;
    Ok(check_plan(bytes, &plan.seats, &plan.prices)?)
}
