// Certificate files: the seats of all runs, and then the prices of all seats.
ghost use Rattle.std.specs.Prelude.{◌≡◌, ℕ, ◌+◌, ◌*◌, ◌/◌, take, drop, length, IfOk, MatchResult};
ghost use Rattle.sheets.specs.declared.certificate_files.Unreadable.TheVariants.{Memory};
ghost use Rattle.sheets.specs.CertificateFiles.{Reads, Holds, Unread};

use crate::fields::Field;
use std::alloc::{AllocError, Global};

// The bytes of one run: two for its seat, and eight for the price of the seat of its number.
pub const RUN_BYTES: usize = 10;

// A seat for every run, and a price for every seat.
#[derive(Drop)]
pub struct Certificate {
    pub seats: Vec<u16>,
    pub prices: Vec<u64>,
}

// Why a certificate file is not read.
#[derive(Clone, Copy, PartialEq, Eq, Debug)]
pub enum Unreadable {
    // its length is no multiple of 10
    Length,
    // there is no memory for what it holds
    Memory,
}

impl From<AllocError> for Unreadable {
    ghost from_gives = { λ _ e. e ≡ Memory };

    fn from(_refused: AllocError) -> Unreadable {
        Unreadable::Memory
    }
}

// The numbers that stand in bytes, one after the other.
pub(crate) fn read_list<T: Field>(heap: Global, bytes: &[u8]) -> Result<Vec<T>, AllocError>
    ensures { IfOk result (λ v. Reads (λ k. T.reads bytes.now (T.WIDTH * k)) (length bytes.now / T.WIDTH) v.items) }
{
    bytes
        .chunks_exact(T::WIDTH)
        .map(|number| T::at(number, 0))
        .collect(heap)
}

// The bytes of the seats of so many runs, and those of the prices.
pub(crate) fn seats_and_prices(bytes: &[u8], size: usize) -> (&[u8], &[u8])
    requires { length bytes.now ≡ 10 * size }
    ensures front { result.0.now ≡ take (2 * size) bytes.now }
    ensures back { result.1.now ≡ drop (2 * size) bytes.now }
    ensures front_len { length result.0.now ≡ 2 * size }
    ensures back_len { length result.1.now + 2 * size ≡ length bytes.now }
{
    bytes.split_at(2 * size)
}

// The certificate of a file.
pub fn read_certificate(heap: Global, bytes: &[u8]) -> Result<Certificate, Unreadable>
    ensures { MatchResult result (λ c. Holds bytes.now c) (λ e. Unread bytes.now e) }
{
    if bytes.len() % RUN_BYTES != 0 {
        return Err(Unreadable::Length);
    }
    let size = bytes.len() / RUN_BYTES;
    let (seats, prices) = seats_and_prices(bytes, size);
    Ok(Certificate {
        seats: read_list(heap, seats)?,
        prices: read_list(heap, prices)?,
    })
}
