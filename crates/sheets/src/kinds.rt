// The kinds of sheet, and which of them a header names.
ghost use Rattle.std.specs.Prelude.{◌≡◌, Some};
ghost use Rattle.sheets.specs.Codes.{code, kind_name};
ghost use Rattle.sheets.specs.Kinds.{names_sparse, kind_named};

use crate::fields::Field;
use std::fmt;

// The kinds of sheet, by the code that a header has.
#[derive(Clone, Copy, PartialEq, Eq, Debug)]
pub enum Kind {
    Dense = 0,
    Sparse = 1,
}

// The code of a kind.
impl From<Kind> for u16 {
    ghost from_gives = { λ k n. n ≡ code k };

    fn from(kind: Kind) -> u16 {
        kind as u16
    }
}

impl Kind {
    // The kind of the sheet that bytes should be: sparse where their header names that kind, and else dense.
    pub fn named(bytes: &[u8]) -> Kind
        ensures { result ≡ kind_named bytes.now }
    {
        // (the test picks the answer, and no step)
        if names_sparse(bytes) {
            Kind::Sparse
        } else {
            Kind::Dense
        }
    }
}

impl fmt::Display for Kind {
    ghost output = { λ k. Some (kind_name k) };

    fn fmt<W: fmt::Write>(&self, f: &mut fmt::Formatter<W>) -> fmt::Result {
        match *self {
            Kind::Dense => f.write_str("dense"),
            Kind::Sparse => f.write_str("sparse"),
        }
    }
}

// Whether a sheet's header names the sparse kind.
pub fn names_sparse(bytes: &[u8]) -> bool
    ensures { result ≡ names_sparse bytes.now }
{
    4 <= bytes.len() && u16::at(bytes, 2) == u16::from(Kind::Sparse)
}
