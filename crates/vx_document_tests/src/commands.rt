//! The commands of a document: each form.

use crate::reading::document;
use serde_json::Value;
use std::alloc::Global;
use std::test::Fail;
use vx_base::{DType, Nullability, PType};
use vx_document::{Command, read_document};
use vx_rules::{BetweenOptions, CompareOperator, LikeOptions};

// The bytes of a document with this text at the key `commands`.
pub(crate) fn with_commands(alloc: Global, commands: &str) -> Result<Vec<u8>, Fail> {
    let text = format!(in alloc;
        "{{\"type\":\"u8\",\"rows\":[7],\"words\":[0],\"commands\":{commands}}}"
    )?;
    Ok(Vec::from_slice(alloc, text.as_str().as_bytes())?)
}

// The command of a document that has this one alone.
fn command(alloc: Global, text: &str) -> Result<Command, Fail> {
    let list = format!(in alloc; "[{text}]")?;
    let mut commands = read_document(alloc, with_commands(alloc, list.as_str())?)?.commands;
    match (commands.pop(), commands.pop()) {
        (Some(command), None) => Ok(command),
        _ => Err(Fail::from("not one command")),
    }
}

#[test]
fn rows_by_position(rt: HostRuntime) -> Result<(), Fail> {
    let alloc = rt.alloc();
    let slice = command(alloc, "[\"slice\",0,18446744073709551615]")?;
    assert!(rt; matches!(slice, Command::Slice(0, u64::MAX)));
    let Command::Filter(bits) = command(alloc, "[\"filter\",[true,false]]")? else {
        return Err(Fail::from("no filter"));
    };
    assert!(rt; bits.as_slice() == [true, false].as_slice());
    let Command::Mask(bits) = command(alloc, "[\"mask\",[]]")? else {
        return Err(Fail::from("no mask"));
    };
    assert!(rt; bits.len() == 0);
    let Command::Take(indices) = command(alloc, "[\"take\",[3,null,0]]")? else {
        return Err(Fail::from("no take"));
    };
    assert!(rt; indices.as_slice() == [Some(3), None, Some(0)].as_slice());
    Ok(())
}

#[test]
fn other_types_and_no_nulls(rt: HostRuntime) -> Result<(), Fail> {
    let alloc = rt.alloc();
    let cast = command(alloc, "[\"cast\",\"i8?\"]")?;
    assert!(rt;
        matches!(
            &cast,
            Command::Cast(DType::Primitive(PType::I8, Nullability::Nullable))
        )
    );
    let fill = command(alloc, "[\"fill_null\",null]")?;
    assert!(rt; matches!(fill, Command::FillNull(Value::Null)));
    Ok(())
}

#[test]
fn comparisons(rt: HostRuntime) -> Result<(), Fail> {
    for (text, operator) in [
        ("==", CompareOperator::Eq),
        ("!=", CompareOperator::NotEq),
        (">", CompareOperator::Gt),
        (">=", CompareOperator::Gte),
        ("<", CompareOperator::Lt),
        ("<=", CompareOperator::Lte),
    ] {
        let text = format!(in rt.alloc(); "[\"compare\",\"{text}\",true]")?;
        let Command::Compare(got, Value::Bool(true)) = command(rt.alloc(), text.as_str())? else {
            return Err(Fail::from("no comparison with true"));
        };
        assert!(rt; got == operator);
    }
    Ok(())
}

#[test]
fn bounds(rt: HostRuntime) -> Result<(), Fail> {
    let between = command(rt.alloc(), "[\"between\",false,null,true,false]")?;
    let Command::Between(Value::Bool(false), Value::Null, options) = between else {
        return Err(Fail::from("no bounds"));
    };
    let lower_strict = BetweenOptions {
        lower_strict: true,
        upper_strict: false,
    };
    assert!(rt; options == lower_strict);
    Ok(())
}

#[test]
fn patterns(rt: HostRuntime) -> Result<(), Fail> {
    for (text, negated) in [
        ("[\"like\",\"a%\"]", false),
        ("[\"like\",\"a%\",false]", false),
        ("[\"like\",\"a%\",true]", true),
    ] {
        let like = command(rt.alloc(), text)?;
        let Command::Like(Value::String(pattern), options) = &like else {
            return Err(Fail::from("no pattern"));
        };
        assert!(rt; pattern.as_str() == "a%" && *options == LikeOptions { negated });
    }
    Ok(())
}

#[test]
fn queries_without_values(rt: HostRuntime) -> Result<(), Fail> {
    let alloc = rt.alloc();
    assert!(rt; matches!(command(alloc, "[\"not\"]")?, Command::Not));
    assert!(rt; matches!(command(alloc, "[\"is_constant\"]")?, Command::IsConstant));
    assert!(rt; matches!(command(alloc, "[\"min_max\"]")?, Command::MinMax));
    assert!(rt; matches!(command(alloc, "[\"null_count\"]")?, Command::NullCount));
    assert!(rt; matches!(command(alloc, "[\"sum\"]")?, Command::Sum));
    assert!(rt; matches!(command(alloc, "[\"row\",7]")?, Command::Row(7)));
    assert!(rt; matches!(command(alloc, "[\"rows\"]")?, Command::Rows));
    Ok(())
}

#[test]
fn several_keep_their_order(rt: HostRuntime) -> Result<(), Fail> {
    let bytes = with_commands(rt.alloc(), "[[\"slice\",0,1],[\"sum\"],[\"rows\"]]")?;
    let commands = read_document(rt.alloc(), bytes)?.commands;
    assert!(rt;
        matches!(
            commands.as_slice(),
            [Command::Slice(0, 1), Command::Sum, Command::Rows]
        )
    );
    Ok(())
}

#[test]
fn none_and_an_absent_key(rt: HostRuntime) -> Result<(), Fail> {
    let none = read_document(rt.alloc(), with_commands(rt.alloc(), "[]")?)?;
    let absent = document(rt.alloc(), "{\"type\":\"u8\",\"rows\":[7],\"words\":[0]}")?;
    assert!(rt; none.commands.is_empty() && absent.commands.is_empty());
    Ok(())
}
