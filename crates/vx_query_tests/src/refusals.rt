//! Each cause of a refusal.

use crate::answers::is_refused;
use std::alloc::Global;
use std::test::Fail;

// Whether commands on 3, 1, 2 are refused by this name.
fn refuses(alloc: Global, commands: &str, name: &str) -> Result<bool, Fail> {
    is_refused(alloc, "\"u8\"", "[3,1,2]", commands, name)
}

#[test]
fn positions(rt: HostRuntime) -> Result<(), Fail> {
    let alloc = rt.alloc();
    assert!(rt; refuses(alloc, "[[\"slice\",0,9]]", "OutOfBounds")?);
    assert!(rt; refuses(alloc, "[[\"slice\",2,1]]", "OutOfBounds")?);
    assert!(rt; refuses(alloc, "[[\"row\",3]]", "OutOfBounds")?);
    assert!(rt; refuses(alloc, "[[\"take\",[0,3]]]", "OutOfBounds")?);
    assert!(rt; refuses(alloc, "[[\"filter\",[true]]]", "LengthMismatch")?);
    assert!(rt; refuses(alloc, "[[\"mask\",[]]]", "LengthMismatch")?);
    Ok(())
}

#[test]
fn types(rt: HostRuntime) -> Result<(), Fail> {
    let alloc = rt.alloc();
    assert!(rt; refuses(alloc, "[[\"compare\",\"==\",256]]", "MismatchedTypes")?);
    assert!(rt;
        refuses(
            alloc,
            "[[\"between\",0,\"3\",false,false]]",
            "MismatchedTypes"
        )?
    );
    assert!(rt; refuses(alloc, "[[\"like\",\"3\"]]", "MismatchedTypes")?);
    assert!(rt; refuses(alloc, "[[\"not\"]]", "MismatchedTypes")?);
    assert!(rt; refuses(alloc, "[[\"fill_null\",null]]", "MismatchedTypes")?);
    assert!(rt; refuses(alloc, "[[\"cast\",\"text\"]]", "MismatchedTypes")?);
    Ok(())
}

#[test]
fn the_first_of_two(rt: HostRuntime) -> Result<(), Fail> {
    let alloc = rt.alloc();
    assert!(rt;
        refuses(
            alloc,
            "[[\"sum\"],[\"filter\",[]],[\"not\"]]",
            "LengthMismatch"
        )?
    );
    assert!(rt; refuses(alloc, "[[\"not\"],[\"filter\",[]]]", "MismatchedTypes")?);
    assert!(rt; refuses(alloc, "[[\"cast\",\"i8\"],[\"row\",7]]", "OutOfBounds")?);
    Ok(())
}
