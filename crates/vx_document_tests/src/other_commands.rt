//! What is no command, and values that are judged only when a command runs.

use crate::commands::with_commands;
use std::alloc::Global;
use std::test::Fail;
use vx_document::{Unread, read_document};

// Whether this text at the key `commands` makes the bytes no document.
fn is_refused(alloc: Global, commands: &str) -> Result<bool, Fail> {
    let bytes = with_commands(alloc, commands)?;
    Ok(matches!(read_document(alloc, bytes), Err(Unread::BadDocument)))
}

#[test]
fn no_list_of_commands(rt: HostRuntime) -> Result<(), Fail> {
    for commands in [
        "null",
        "{}",
        "\"rows\"",
        "7",
        "[7]",
        "[[]]",
        "[\"rows\"]",
        "[[7]]",
        "[[null]]",
        "[[\"rows\"],{}]",
    ] {
        assert!(rt; is_refused(rt.alloc(), commands)?);
    }
    Ok(())
}

#[test]
fn other_names_and_numbers_of_arguments(rt: HostRuntime) -> Result<(), Fail> {
    for commands in [
        "[[\"Rows\"]]",
        "[[\"rows \"]]",
        "[[\"count\"]]",
        "[[\"slice\",0]]",
        "[[\"slice\",0,1,1]]",
        "[[\"filter\"]]",
        "[[\"filter\",[true],[true]]]",
        "[[\"take\",0]]",
        "[[\"cast\"]]",
        "[[\"fill_null\"]]",
        "[[\"compare\",\"==\"]]",
        "[[\"compare\",\"==\",1,1]]",
        "[[\"between\",1,2,true]]",
        "[[\"between\",1,2,true,true,true]]",
        "[[\"like\"]]",
        "[[\"like\",\"a\",true,true]]",
        "[[\"not\",true]]",
        "[[\"row\"]]",
        "[[\"rows\",null]]",
    ] {
        assert!(rt; is_refused(rt.alloc(), commands)?);
    }
    Ok(())
}

#[test]
fn arguments_of_other_kinds(rt: HostRuntime) -> Result<(), Fail> {
    for commands in [
        "[[\"slice\",-1,1]]",
        "[[\"slice\",0,18446744073709551616]]",
        "[[\"slice\",0,1.0]]",
        "[[\"slice\",-0,1]]",
        "[[\"slice\",\"0\",1]]",
        "[[\"slice\",null,1]]",
        "[[\"filter\",[1]]]",
        "[[\"mask\",[null]]]",
        "[[\"mask\",true]]",
        "[[\"take\",[-1]]]",
        "[[\"take\",[1e0]]]",
        "[[\"take\",null]]",
        "[[\"cast\",\"u7\"]]",
        "[[\"compare\",\"=\",1]]",
        "[[\"compare\",\"=<\",1]]",
        "[[\"compare\",\"<>\",1]]",
        "[[\"compare\",1,\"==\"]]",
        "[[\"between\",1,2,0,1]]",
        "[[\"between\",true,true,1,2]]",
        "[[\"like\",\"a\",null]]",
        "[[\"row\",null]]",
        "[[\"row\",18446744073709551616]]",
    ] {
        assert!(rt; is_refused(rt.alloc(), commands)?);
    }
    Ok(())
}

#[test]
fn floats_within_values(rt: HostRuntime) -> Result<(), Fail> {
    for commands in [
        "[[\"fill_null\",1.5]]",
        "[[\"fill_null\",[1,[2.0]]]]",
        "[[\"compare\",\"==\",{\"a\":1,\"b\":[null,{\"c\":-0}]}]]",
        "[[\"between\",1,2e0,true,true]]",
        "[[\"between\",18446744073709551616,2,true,true]]",
        "[[\"like\",[\"a\",0.5]]]",
    ] {
        assert!(rt; is_refused(rt.alloc(), commands)?);
    }
    Ok(())
}

// A value's kind is a question for the run.
#[test]
fn values_of_every_kind(rt: HostRuntime) -> Result<(), Fail> {
    for commands in [
        "[[\"fill_null\",{\"a\":[1,-2,\"x\",true,null]}]]",
        "[[\"compare\",\"<\",[[],[18446744073709551615]]]]",
        "[[\"between\",\"x\",null,false,false]]",
        "[[\"like\",7]]",
    ] {
        assert!(rt; !is_refused(rt.alloc(), commands)?);
    }
    Ok(())
}
