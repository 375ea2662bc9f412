//! Each operation, by the rows that it leaves.

use crate::answers::prints;
use std::alloc::Global;
use std::test::Fail;

// Whether an operation leaves these rows of 5, null, 7.
fn leaves(alloc: Global, operation: &str, line: &str) -> Result<bool, Fail> {
    let commands = format!(in alloc; "[{operation},[\"rows\"]]")?;
    prints(alloc, "\"i32?\"", "[5,null,7]", commands.as_str(), line)
}

#[test]
fn rows_by_position(rt: HostRuntime) -> Result<(), Fail> {
    let alloc = rt.alloc();
    assert!(rt; leaves(alloc, "[\"slice\",1,3]", "[null,7]\n")?);
    assert!(rt; leaves(alloc, "[\"filter\",[true,false,true]]", "[5,7]\n")?);
    assert!(rt; leaves(alloc, "[\"mask\",[false,true,true]]", "[null,null,7]\n")?);
    assert!(rt; leaves(alloc, "[\"take\",[2,null,0,2]]", "[7,null,5,7]\n")?);
    Ok(())
}

#[test]
fn other_types_and_no_nulls(rt: HostRuntime) -> Result<(), Fail> {
    let alloc = rt.alloc();
    assert!(rt; leaves(alloc, "[\"cast\",\"u8?\"]", "[5,null,7]\n")?);
    assert!(rt; leaves(alloc, "[\"fill_null\",-1]", "[5,-1,7]\n")?);
    Ok(())
}

#[test]
fn one_after_another(rt: HostRuntime) -> Result<(), Fail> {
    let alloc = rt.alloc();
    let commands =
        "[[\"rows\"],[\"slice\",1,3],[\"null_count\"],[\"fill_null\",0],[\"rows\"],[\"row\",1]]";
    let lines = "[5,null,7]\n1\n[0,7]\n7\n";
    assert!(rt; prints(alloc, "\"i32?\"", "[5,null,7]", commands, lines)?);
    assert!(rt; prints(alloc, "\"i32?\"", "[5,null,7]", "[]", "")?);
    Ok(())
}
