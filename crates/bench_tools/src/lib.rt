#![tactic(auto)]
// What benchmark programs may share: sheets, work repeated and timed, and how they end on a refusal or a wrong call.
ghost use Rattle.std.specs.Prelude.{◌≡◌, Ok, IfOk};
ghost use Rattle.std.specs.List.{FoldsTo, range_with_len};
ghost use Rattle.fault.specs.Checks.{Passes};
ghost use Rattle.sheets.specs.Dense.{dense_checks};

use anyhow::anyhow;
use fault::faults::Fault;
use sheets::dense::DenseSheet;
use std::io;
use std::time::Instant;

// The dense sheet of a file's bytes.
pub fn sheet_of(rt: &HostRuntime, bytes: Vec<u8>) -> anyhow::Result<DenseSheet>
    ensures { IfOk result (λ s. Passes (dense_checks bytes.items) × (s.bytes ≡ bytes)) }
{
    let mut sheet = DenseSheet::new(rt.alloc());
    sheet.fill(bytes).map_err(|fault| refusal(rt, fault))?;
    Ok(sheet)
}

// What a step comes to when it is made over and over, each time on what it came to before, and the nanoseconds of all.
// (For a step that may be refused. The benchmarks here repeat and time their own work.)
pub fn time_often<T: Default + Drop, F: Fn(T) -> Result<T, Fault>>(
    rt: &HostRuntime,
    repeats: u64,
    step: F,
) -> anyhow::Result<(T, u128)>
    requires { F.IsAlwaysCallable step }
    ensures { IfOk result (λ r. (first : T) × T.is_default first × FoldsTo (λ x _ y. F.post step x (Ok y)) first (range_with_len 0 repeats) r.0) }
{
    let start = Instant::now(rt)?;
    let made = (0..repeats).try_fold(
        T::default(),
        |before, _|
            requires { F.IsAlwaysCallable step }
            ensures { F.post step before result }
        { step(before) },
    );
    let nanos = start.elapsed(rt)?.as_nanos();
    Ok((made.map_err(|fault| refusal(rt, fault))?, nanos))
}

// The error of a refusal, after its line on standard error.
pub fn refusal(rt: &HostRuntime, fault: Fault) -> anyhow::Error {
    said(eprintln!(rt; "{fault}"), "refused")
}

// The error of a call that a program does not take, after its usage on standard error.
pub fn wrong_call(rt: &HostRuntime, usage: &str) -> anyhow::Error {
    said(eprintln!(rt; "usage: {usage}"), "wrong call")
}

// An error whose lines are printed, or why they could not be.
fn said(printed: io::Result<()>, why: &str) -> anyhow::Error {
    match printed {
        Ok(()) => anyhow!("{why}"),
        Err(error) => error.into(),
    }
}

#[cfg(test)]
mod tests {
    use super::time_often;
    use fault::causes::Cause;
    use fault::faults::Fault;
    use fault::layers::Layer;
    use std::test::Fail;

    // three times what came before and one, up to 100; then a refusal
    fn grow(before: u64) -> Result<u64, Fault> {
        if before < 100 {
            Ok(before * 3 + 1)
        } else {
            Err(Fault::at_byte(Layer::Sheet, Cause::Kind, 0))
        }
    }

    #[test]
    fn steps_are_repeated(rt: HostRuntime) -> Result<(), Fail> {
        for (repeats, want) in [(0, 0), (1, 1), (2, 4), (3, 13), (5, 121)] {
            let (made, _) = time_often(&rt, repeats, grow)?;
            assert_eq!(rt; made, want, "after {repeats}");
        }
        assert!(rt; time_often(&rt, 6, grow).is_err());
        Ok(())
    }
}
