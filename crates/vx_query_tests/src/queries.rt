//! Each query, by the line that it prints.

use crate::answers::prints;
use std::test::Fail;

#[test]
fn numbers(rt: HostRuntime) -> Result<(), Fail> {
    let alloc = rt.alloc();
    let commands = "[[\"compare\",\">=\",2],[\"sum\"],[\"slice\",1,3],[\"rows\"]]";
    let lines = "[true,false,true]\n6\n[1,2]\n";
    assert!(rt; prints(alloc, "\"u8\"", "[3,1,2]", commands, lines)?);
    let commands = "[[\"null_count\"],[\"fill_null\",0],[\"sum\"],[\"min_max\"]]";
    assert!(rt; prints(alloc, "\"i32?\"", "[5,null,7]", commands, "1\n12\n[0,7]\n")?);
    let commands = "[[\"min_max\"],[\"is_constant\"],[\"sum\"]]";
    assert!(rt; prints(alloc, "\"u8\"", "[]", commands, "null\nfalse\n0\n")?);
    assert!(rt;
        prints(
            alloc,
            "\"u8\"",
            "[4,4]",
            "[[\"is_constant\"],[\"row\",1]]",
            "true\n4\n"
        )?
    );
    Ok(())
}

#[test]
fn texts(rt: HostRuntime) -> Result<(), Fail> {
    let alloc = rt.alloc();
    let commands = "[[\"like\",\"a%\"],[\"like\",\"a%\",true],[\"min_max\"],[\"row\",0]]";
    let lines = "[true,false]\n[false,true]\n[\"ab\",\"b\"]\n\"ab\"\n";
    assert!(rt; prints(alloc, "\"text\"", "[\"ab\",\"b\"]", commands, lines)?);
    Ok(())
}

#[test]
fn truths(rt: HostRuntime) -> Result<(), Fail> {
    let alloc = rt.alloc();
    let commands = "[[\"not\"],[\"sum\"],[\"compare\",\"==\",null],[\"min_max\"]]";
    let lines = "[false,null,true]\n1\n[null,null,null]\n[false,true]\n";
    assert!(rt; prints(alloc, "\"bool?\"", "[true,null,false]", commands, lines)?);
    Ok(())
}

#[test]
fn timestamps(rt: HostRuntime) -> Result<(), Fail> {
    let alloc = rt.alloc();
    let commands =
        "[[\"compare\",\"<\",0],[\"between\",-1,0,false,false],[\"compare\",\">\",-9223372036854775808],[\"rows\"]]";
    let lines = "[true,false]\n[true,false]\n[true,true]\n[-1,86400]\n";
    assert!(rt; prints(alloc, "\"timestamp s\"", "[-1,86400]", commands, lines)?);
    Ok(())
}

#[test]
fn lists(rt: HostRuntime) -> Result<(), Fail> {
    let alloc = rt.alloc();
    let commands =
        "[[\"null_count\"],[\"fill_null\",[9]],[\"rows\"],[\"row\",0],[\"is_constant\"]]";
    let lines = "1\n[[1,2],[9]]\n[1,2]\nfalse\n";
    assert!(rt;
        prints(
            alloc,
            "{\"list\":\"u8\",\"nullable\":true}",
            "[[1,2],null]",
            commands,
            lines
        )?
    );
    Ok(())
}
