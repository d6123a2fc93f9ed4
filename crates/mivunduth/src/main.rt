#![tactic(auto)]
// The program `mivunduth`: arguments, files and printing over the proved commands.
mod files;
mod messages;

use crate::files::{bid_file, check_files, show_file};
use crate::messages::{Stop, USAGE};
use std::process::ExitCode;
use std::{env, io};

// One call of the program, by its words.
fn run<'a>(rt: &HostRuntime, words: &'a [String]) -> Result<(), Stop<'a>> {
    match words {
        [help] if is_help(help.as_str()) => Ok(rt.print(USAGE)?),
        [command, sheet] if command.as_str() == "show" => show_file(rt, sheet.as_str()),
        [command, sheet, run] if command.as_str() == "bid" => bid_file(
            rt,
            sheet.as_str(),
            run.as_str(),
        ),
        [command, sheet, certificate] if command.as_str() == "check" => check_files(
            rt,
            sheet.as_str(),
            certificate.as_str(),
        ),
        _ => Err(Stop::NoCall(words.first().map(|word| word.as_str()))),
    }
}

fn is_help(word: &str) -> bool {
    matches!(word, "--help" | "-h" | "help")
}

// The call that the words of the command line make, and what it ends with.
fn call(rt: &HostRuntime) -> io::Result<ExitCode> {
    let words: Vec<String> = env::args(rt)?.skip(1).collect(rt.alloc())?;
    match run(rt, &words) {
        Ok(()) => Ok(ExitCode::SUCCESS),
        Err(stop) => {
            eprint!(rt; "{stop}")?;
            Ok(ExitCode::FAILURE)
        }
    }
}

fn main(rt: HostRuntime) -> ExitCode {
    match call(&rt) {
        Ok(code) => code,
        Err(error) => {
            let _ = eprintln!(rt; "mivunduth: {error}");
            ExitCode::FAILURE
        }
    }
}
