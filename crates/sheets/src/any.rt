// Sheets of either kind, as their bytes name it.
ghost use Rattle.std.specs.Prelude.{◌≡◌, MatchResult};
ghost use Rattle.fault.specs.Checks.{Passes, Refuses};
ghost use Rattle.sheets.specs.Headers.{sheet_top};
ghost use Rattle.sheets.specs.Kinds.{kind_named, sheet_checks, sheet_table};
ghost use Rattle.sheets.specs.Any.{kind_of, table_of, any_topped, any_lawful};
ghost use Rattle.std.proofs.Common.{rules};

use crate::checks::SHEET_TOP;
use crate::dense::DenseSheet;
use crate::kinds::Kind;
use crate::sparse::SparseSheet;
use fault::faults::Fault;
use points::sources::{PairSource, RowSource};

// A sheet of either kind: both are sheets, so neither is a `Result`'s error.
#[derive(Drop)]
pub enum AnySheet {
    Dense(DenseSheet),
    Sparse(SparseSheet),
}

impl AnySheet {
    // The sheet of these bytes, of the kind that their header names, or which rule of that kind they break first.
    pub fn read(bytes: Vec<u8>) -> Result<AnySheet, Fault>
        ensures { MatchResult result
            (λ s. Passes (sheet_checks bytes.items) × (table_of s ≡ sheet_table bytes.items) × (kind_of s ≡ kind_named bytes.items))
            (λ f. Refuses (sheet_checks bytes.items) f) }
    {
        match Kind::named(&bytes) {
            Kind::Dense => Ok(AnySheet::Dense(DenseSheet::read(bytes)?)),
            Kind::Sparse => Ok(AnySheet::Sparse(SparseSheet::read(bytes)?)),
        }
    }

    // Which kind of sheet it is.
    pub fn kind(&self) -> Kind
        ensures { result ≡ kind_of self.now }
    {
        match self {
            AnySheet::Dense(_) => Kind::Dense,
            AnySheet::Sparse(_) => Kind::Sparse,
        }
    }
}

impl PairSource for AnySheet {
    const TOP: u32 = SHEET_TOP as u32;

    ghost TOP = { sheet_top };

    ghost table = { table_of };

    ghost limits = { Prim.search rules };

    ghost topped = { any_topped };

    ghost lawful = { any_lawful };

    fn limit() -> u32 {
        Self::TOP
    }

    // (each question matches by itself: a `&dyn` of either sheet would be handed out, which the gate refuses)
    fn size(&self) -> usize {
        match self {
            AnySheet::Dense(sheet) => sheet.size(),
            AnySheet::Sparse(sheet) => sheet.size(),
        }
    }

    fn points(&self, run: usize, seat: usize) -> Option<i32> {
        match self {
            AnySheet::Dense(sheet) => sheet.points(run, seat),
            AnySheet::Sparse(sheet) => sheet.points(run, seat),
        }
    }
}

impl RowSource for AnySheet {
    fn next(&self, run: usize, from: usize) -> Option<usize> {
        match self {
            AnySheet::Dense(sheet) => sheet.next(run, from),
            AnySheet::Sparse(sheet) => sheet.next(run, from),
        }
    }
}
