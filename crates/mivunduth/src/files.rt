// The commands on files.
use crate::messages::Stop;
use commands::bids::bid_sheet;
use commands::calls::{check_sheet, show_sheet};
use std::fs;

// The bytes of a file.
fn read_file<'a>(rt: &HostRuntime, path: &'a str) -> Result<Vec<u8>, Stop<'a>> {
    fs::read(rt, path).map_err(|error| Stop::NoFile(path, error))
}

pub fn show_file<'a>(rt: &HostRuntime, sheet: &'a str) -> Result<(), Stop<'a>> {
    let line = show_sheet(read_file(rt, sheet)?)?;
    Ok(rt.println(line)?)
}

pub fn check_files<'a>(
    rt: &HostRuntime,
    sheet: &'a str,
    certificate: &'a str,
) -> Result<(), Stop<'a>> {
    let bytes = read_file(rt, sheet)?;
    let plan = read_file(rt, certificate)?;
    let checked = check_sheet(rt.alloc(), bytes, &plan);
    let line = checked.map_err(|failure| Stop::unchecked(certificate, failure))?;
    Ok(rt.println(line)?)
}

pub fn bid_file<'a>(rt: &HostRuntime, sheet: &'a str, run: &'a str) -> Result<(), Stop<'a>> {
    let number = run.parse::<usize>().map_err(|_| Stop::NoRun(run))?;
    let line = bid_sheet(read_file(rt, sheet)?, number)?;
    Ok(rt.println(line)?)
}
