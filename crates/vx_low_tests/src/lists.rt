//! Masks, lists and texts: each call that allocates, once.

use std::test::Fail;
use vx_base::{Bytes, Mask, Text, Words};

#[test]
fn masks_are_sliced_copied_and_gathered(rt: HostRuntime) -> Result<(), Fail> {
    let mask = Mask::from_bits(vec![in rt.alloc(); true, false, true]?);
    let part = mask.slice(rt.alloc(), 1, 3)?;
    let copy = mask.copy(rt.alloc())?;
    let rows = mask.gather(rt.alloc(), &[(1, 3), (0, 1)])?;
    assert!(rt;
        part.as_slice() == [false, true].as_slice()
            && copy.as_slice() == [true, false, true].as_slice()
            && rows.as_slice() == [false, true, true].as_slice()
    );
    Ok(())
}

#[test]
fn lists_are_copied_and_gathered(rt: HostRuntime) -> Result<(), Fail> {
    let bytes = Bytes::from_vec(vec![in rt.alloc(); 5, 6, 7]?);
    assert_eq!(rt; bytes.copy(rt.alloc())?.as_slice(), [5, 6, 7].as_slice());
    let rows = bytes.gather(rt.alloc(), &[(2, 3), (1, 1), (0, 2)])?;
    assert_eq!(rt; rows.as_slice(), [7, 5, 6].as_slice());
    Ok(())
}

#[test]
fn lists_and_texts_grow(rt: HostRuntime) -> Result<(), Fail> {
    let mut words = Words::new_in(rt.alloc());
    words.push(70).ok().ok_or("memory")?;
    assert_eq!(rt; words.as_slice(), [70].as_slice());
    let mut text = Text::new_in(rt.alloc());
    text.push('é').ok().ok_or("memory")?;
    assert_eq!(rt; text.copy(rt.alloc())?.as_str(), "é");
    Ok(())
}
