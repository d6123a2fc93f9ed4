// What the program says besides its answers: usage, refusals explained, and wrong calls.
use commands::calls::Failure;
use fault::causes::Cause;
use fault::faults::Fault;
use sheets::certificate_files::Unreadable;
use std::{fmt, io};

// Why the program ends with status 1: what it says on standard error.
#[derive(Drop)]
pub enum Stop<'a> {
    // the sheet or the certificate is refused
    Refused(Fault),
    // a file that cannot be read
    NoFile(&'a str, io::Error),
    // a file that is no certificate
    NoCertificate(&'a str, Unreadable),
    // a word that is no number of a run
    NoRun(&'a str),
    // a call that is none of the program's, by its first word
    NoCall(Option<&'a str>),
    // an answer that cannot be written
    NoAnswer(io::Error),
}

pub const USAGE: &str =
    "usage: mivunduth check SHEET CERTIFICATE   check that a plan is best, and print its total
       mivunduth show SHEET                what a benefit sheet comes to
       mivunduth bid SHEET RUN             a run's bid at increment 1 while no seat has a price
       mivunduth --help                    this text

SHEET is a benefit sheet, CERTIFICATE a file of n seats (u16) and n prices (u64),
little-endian. Answers go to standard output; a refusal is one line on standard
error, and the program then ends with status 1.
";

impl From<Fault> for Stop<'_> {
    fn from(fault: Fault) -> Self {
        Stop::Refused(fault)
    }
}

impl From<io::Error> for Stop<'_> {
    fn from(error: io::Error) -> Self {
        Stop::NoAnswer(error)
    }
}

impl<'a> Stop<'a> {
    // A certificate's check that failed, by the certificate's file.
    pub fn unchecked(certificate: &'a str, failure: Failure) -> Stop<'a> {
        match failure {
            Failure::Refusal(fault) => Stop::Refused(fault),
            Failure::NoCertificate(why) => Stop::NoCertificate(certificate, why),
        }
    }
}

impl fmt::Display for Stop<'_> {
    fn fmt<W: fmt::Write>(&self, f: &mut fmt::Formatter<W>) -> fmt::Result {
        match self {
            Stop::Refused(fault) => writeln!(f, "{fault}: {}", Explained(fault.cause)),
            Stop::NoFile(path, error) => writeln!(f, "mivunduth: cannot read {path}: {error}"),
            Stop::NoCertificate(path, Unreadable::Length) => writeln!(
                f,
                "mivunduth: {path} is no certificate: its length is no multiple of 10 bytes"
            ),
            Stop::NoCertificate(path, Unreadable::Memory) => {
                writeln!(f, "mivunduth: not enough memory to read {path}")
            }
            Stop::NoRun(word) => writeln!(f, "mivunduth: `{word}` is no number of a run"),
            Stop::NoCall(None) => f.write_str(USAGE),
            Stop::NoCall(Some(command)) => write!(
                f,
                "mivunduth: `{command}` with these words is no call\n{USAGE}"
            ),
            Stop::NoAnswer(error) => writeln!(f, "mivunduth: {error}"),
        }
    }
}

// What a cause means, for a person.
#[derive(Clone, Copy)]
struct Explained(Cause);

impl fmt::Display for Explained {
    fn fmt<W: fmt::Write>(&self, f: &mut fmt::Formatter<W>) -> fmt::Result {
        f.write_str(match self.0 {
            Cause::Length => "the input has the wrong length",
            Cause::Size => "the number of runs is not from 1 to 256",
            Cause::Kind => "the sheet is of another kind",
            Cause::Points => "points out of range",
            Cause::Spans => "the span count, a row or a span is broken",
            Cause::Ladder => "the ladder of increments is not allowed",
            Cause::Allowance => "the allowance is not allowed",
            Cause::Number => "a run or seat is not below the number of runs",
            Cause::Buffer => "there are not as many seats and prices as runs",
            Cause::NotAllowed => "the run is not allowed this seat",
            Cause::SeatTaken => "a lower run holds this seat too",
            Cause::PriceTooHigh => "the price of this seat is too high",
            Cause::NotContent => "the run would gain over one increment on this seat",
            Cause::NotStarted => "the exchange is not started",
            Cause::AlreadyStarted => "the exchange is started already",
            Cause::HoldsSeat => "the run holds a seat",
            Cause::BidOut => "a bid of the run is out already",
            Cause::NoBidOut => "no bid of the run is out",
            Cause::AllowanceSpent => "the allowance of bids is spent",
            Cause::NoFullPlan => "no full plan exists",
            Cause::RunFree => "a run is free",
            Cause::LastPhase => "this is the last phase",
            Cause::NotComplete => "the exchange did not end complete",
        })
    }
}
