#![tactic(auto)]
// The worked cases: one list of all layers, proved by one theorem, and run.
pub mod theorems;

#[cfg(test)]
mod tests {
    use commands::calls::{check_plan, show_sheet};
    use commands::lines::text_of;
    use std::alloc::Global;
    use std::test::Fail;

    // a dense sheet of 2 runs: points 5 and 3, then 4 and 1
    const TWO_RUNS: [u8; 24] = [
        2, 0, 0, 0, 0, 0, 0, 0, 5, 0, 0, 0, 3, 0, 0, 0, 4, 0, 0, 0, 1, 0, 0, 0,
    ];

    // a sparse sheet of 4 runs up to its spans: the first run has them all
    const ROWS: [u8; 40] = [
        4, 0, 1, 0, 1, 0, 0, 0, 0, 0, 0, 0, 1, 0, 0, 0, 1, 0, 0, 0, 0, 0, 0, 0, 1, 0, 0, 0, 0, 0,
        0, 0, 1, 0, 0, 0, 0, 0, 0, 0,
    ];

    // three points of 7
    const POINTS: [u8; 12] = [7, 0, 0, 0, 7, 0, 0, 0, 7, 0, 0, 0];

    fn shown(heap: Global, bytes: Vec<u8>) -> Result<String, Fail> {
        Ok(text_of(heap, show_sheet(bytes))?)
    }

    fn checked(heap: Global, seats: &[u16], prices: &[u64]) -> Result<String, Fail> {
        let bytes = Vec::from_slice(heap, &TWO_RUNS)?;
        Ok(text_of(heap, check_plan(bytes, seats, prices))?)
    }

    // a sparse sheet of 4 runs whose first has the one span (from, 3)
    fn with_span(heap: Global, from: u8) -> Result<Vec<u8>, Fail> {
        let mut bytes = Vec::from_slice(heap, &ROWS)?;
        bytes.extend_from_slice(&[from, 0, 3, 0, 0, 0, 0, 0])?;
        bytes.extend_from_slice(&POINTS)?;
        Ok(bytes)
    }

    #[test]
    fn sheets_come_out(rt: HostRuntime) -> Result<(), Fail> {
        let heap = rt.alloc();
        assert_eq!(rt;
            shown(heap, Vec::new(heap))?.as_str(),
            "refused 1 sheet byte 0"
        );
        assert_eq!(rt;
            shown(heap, Vec::from_slice(heap, &TWO_RUNS)?)?.as_str(),
            "kind dense runs 2 allowed 4 least 1 greatest 5"
        );
        assert_eq!(rt;
            shown(heap, with_span(heap, 0)?)?.as_str(),
            "kind sparse runs 4 allowed 3 least 7 greatest 7"
        );
        assert_eq!(rt;
            shown(heap, with_span(heap, 1)?)?.as_str(),
            "kind sparse runs 4 allowed 3 least 7 greatest 7"
        );
        assert_eq!(rt;
            shown(heap, with_span(heap, 2)?)?.as_str(),
            "refused 5 sheet byte 42"
        );
        Ok(())
    }

    #[test]
    fn certificates_come_out(rt: HostRuntime) -> Result<(), Fail> {
        let heap = rt.alloc();
        assert_eq!(rt;
            checked(heap, &[1, 0], &[10, 5])?.as_str(),
            "accepted total 7"
        );
        assert_eq!(rt;
            checked(heap, &[1, 0], &[10, 7])?.as_str(),
            "refused 13 checker phase 0 run 0 seat 0"
        );
        assert_eq!(rt;
            checked(heap, &[0, 0], &[10, 5])?.as_str(),
            "refused 11 checker phase 0 run 1 seat 0"
        );
        Ok(())
    }
}
