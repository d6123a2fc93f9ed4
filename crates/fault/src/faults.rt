// A fault: the cause of a refusal, its layer, and what it names.
ghost use Rattle.std.specs.Prelude.{◌≡◌, true, false, Some, None, codes, MatchResult};
ghost use Rattle.fault.specs.Faults.{at_byte, in_phase};
ghost use Rattle.fault.specs.Lines.{place_text, named, line_of};

use crate::causes::Cause;
use crate::layers::Layer;
use std::fmt;

// Where a fault lies; both are places of a refusal, so neither is a `Result`'s error.
#[derive(Clone, Copy, PartialEq, Eq, Debug)]
pub enum Place {
    // the first byte of the field at fault, or the input's length
    Byte(usize),
    // the phase of an open, started exchange, else 0
    Phase(usize),
}

// What a refused call answers.
#[derive(Clone, Copy, PartialEq, Eq, Debug)]
pub struct Fault {
    pub cause: Cause,
    pub layer: Layer,
    pub place: Place,
    // the run and the seat given or under check, if any
    pub run: Option<usize>,
    pub seat: Option<usize>,
}

impl Fault {
    pub fn at_byte(layer: Layer, cause: Cause, byte: usize) -> Fault
        ensures { result ≡ at_byte layer cause byte }
    {
        Fault {
            cause,
            layer,
            place: Place::Byte(byte),
            run: None,
            seat: None,
        }
    }

    pub fn in_phase(
        layer: Layer,
        cause: Cause,
        phase: usize,
        run: Option<usize>,
        seat: Option<usize>,
    ) -> Fault
        ensures { result ≡ in_phase layer cause phase run seat }
    {
        Fault {
            cause,
            layer,
            place: Place::Phase(phase),
            run,
            seat,
        }
    }

    // One test: this fault where it comes out false. (`test` is what came out, and chooses no step.)
    pub fn unless(self, test: bool) -> Result<(), Fault>
        ensures { MatchResult result (λ _. test ≡ true) (λ f. (test ≡ false) × (f ≡ self)) }
    {
        if test { Ok(()) } else { Err(self) }
    }
}

impl fmt::Display for Place {
    ghost output = { λ p. Some (place_text p) };

    fn fmt<W: fmt::Write>(&self, f: &mut fmt::Formatter<W>) -> fmt::Result {
        match *self {
            Place::Byte(at) => write!(f, "byte {at}"),
            Place::Phase(phase) => write!(f, "phase {phase}"),
        }
    }
}

// A word and a number, or nothing where there is no number.
#[derive(Clone, Copy)]
struct Named<'a>(&'a str, Option<usize>);

impl fmt::Display for Named<'_> {
    ghost output = { λ p. Some (named p.0.now p.1) };

    fn fmt<W: fmt::Write>(&self, f: &mut fmt::Formatter<W>) -> fmt::Result {
        match self.1 {
            None => Ok(()),
            Some(number) => write!(f, "{}{number}", self.0),
        }
    }
}

impl fmt::Display for Fault {
    ghost output = { λ f. Some (line_of f) };

    fn fmt<W: fmt::Write>(&self, f: &mut fmt::Formatter<W>) -> fmt::Result {
        let number = u8::from(self.cause);
        let run = Named(" run ", self.run);
        let seat = Named(" seat ", self.seat);
        write!(
            f,
            "refused {number} {} {}{run}{seat}",
            self.layer, self.place
        )
    }
}
