// Damaged sheets: what filling answers is what the plain reading says.
use crate::readings::{dense_fault, sparse_fault};
use sheets::dense::DenseSheet;
use sheets::sparse::SparseSheet;
use std::alloc::Global;
use std::process::Abort;
use std::test::Fail;

// 2 runs: points 5 and -3, then a pair that is not allowed, and 1.
const DENSE: [u8; 24] = [
    2, 0, 0, 0, 0, 0, 0, 0, //
    5, 0, 0, 0, 253, 255, 255, 255, //
    0, 0, 0, 128, 1, 0, 0, 0,
];

// 4 runs: the first has the touching spans (0, 2) and (2, 1), the third the spans (0, 1) and (2, 2).
const SPARSE: [u8; 96] = [
    4, 0, 1, 0, 4, 0, 0, 0, //
    0, 0, 0, 0, 2, 0, 0, 0, //
    2, 0, 0, 0, 0, 0, 0, 0, //
    2, 0, 0, 0, 2, 0, 0, 0, //
    4, 0, 0, 0, 0, 0, 0, 0, //
    0, 0, 2, 0, 0, 0, 0, 0, //
    2, 0, 1, 0, 2, 0, 0, 0, //
    0, 0, 1, 0, 3, 0, 0, 0, //
    2, 0, 2, 0, 4, 0, 0, 0, //
    7, 0, 0, 0, 64, 66, 15, 0, //
    192, 189, 240, 255, 0, 0, 0, 0, //
    1, 0, 0, 0, 2, 0, 0, 0,
];

// What filling a sheet with these bytes answers, and what the plain reading says, agree.
fn agree(rt: &impl Abort, heap: Global, bytes: &[u8]) -> Result<(), Fail> {
    let mut dense = DenseSheet::new(heap);
    assert_eq!(rt; dense.fill(bytes.to_vec(heap)?).err(), dense_fault(bytes));
    let mut sparse = SparseSheet::new(heap);
    assert_eq!(rt; sparse.fill(bytes.to_vec(heap)?).err(), sparse_fault(bytes));
    Ok(())
}

// A sheet with one byte set to each value in turn.
fn agree_where_set(rt: &impl Abort, heap: Global, sheet: &[u8], at: usize) -> Result<(), Fail> {
    let mut bytes = sheet.to_vec(heap)?;
    for value in 0..=255 {
        if let Some(byte) = bytes.get_mut(at) {
            *byte = value;
        }
        agree(rt, heap, &bytes)?;
    }
    Ok(())
}

// A sheet with each of its bytes set, cut off at each byte, and lengthened by up to eight bytes: a loop over places,
// since each is both set and cut off at.
fn agree_where_damaged(rt: &impl Abort, heap: Global, sheet: &[u8]) -> Result<(), Fail> {
    for at in 0..sheet.len() {
        agree_where_set(rt, heap, sheet, at)?;
        agree(rt, heap, &sheet[..at])?;
    }
    let mut bytes = sheet.to_vec(heap)?;
    for more in 0..8 {
        agree(rt, heap, &bytes)?;
        bytes.push(more)?;
    }
    agree(rt, heap, &bytes)
}

// (two tests of two lines, so that each kind comes out by itself)
#[test]
fn damaged_dense_sheets(rt: HostRuntime) -> Result<(), Fail> {
    assert_eq!(rt; dense_fault(&DENSE), None);
    agree_where_damaged(&rt, rt.alloc(), &DENSE)
}

#[test]
fn damaged_sparse_sheets(rt: HostRuntime) -> Result<(), Fail> {
    assert_eq!(rt; sparse_fault(&SPARSE), None);
    agree_where_damaged(&rt, rt.alloc(), &SPARSE)
}
