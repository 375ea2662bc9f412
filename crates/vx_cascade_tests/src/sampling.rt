//! Where the slices of samples lie, with ample memory.

use std::test::Fail;
use vx_base::Words;
use vx_compressor::{partition_indices, stratified_slices};

#[test]
fn parts_are_made(rt: HostRuntime) -> Result<(), Fail> {
    let parts = partition_indices(rt.alloc(), 10, 3)?;
    assert!(rt; parts.as_slice() == [(0, 4), (4, 7), (7, 10)].as_slice());
    Ok(())
}

#[test]
fn slices_are_made(rt: HostRuntime) -> Result<(), Fail> {
    let words = Words::from_vec(vec![in rt.alloc(); 5, 70]?);
    let slices = stratified_slices(rt.alloc(), 2048, &words)?;
    let ends_so = match slices.get(15) {
        Some(last) => *last == (1925, 1989),
        None => false,
    };
    assert!(rt; slices.len() == 16 && ends_so);
    Ok(())
}
