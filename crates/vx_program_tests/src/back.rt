//! A document of each type is stored, and comes back from its file as it was.

use crate::forms::{answer, answers};
use std::alloc::Global;
use std::test::Fail;

// Whether the document comes back. Its keys, types and values stand as `rows` writes them.
fn comes_back(alloc: Global, document: &str) -> Result<bool, Fail> {
    let (status, file) = answer(alloc, "store", document.as_bytes())?;
    Ok(status == 0 && answers(alloc, "rows", file.as_slice(), 0, document.as_bytes())?)
}

#[test]
fn truths_and_nulls_come_back(rt: HostRuntime) -> Result<(), Fail> {
    let alloc = rt.alloc();
    assert!(rt;
        comes_back(
            alloc,
            "{\"type\":\"bool\",\"rows\":[true,false,true],\"words\":[0]}\n"
        )?
    );
    assert!(rt;
        comes_back(
            alloc,
            "{\"type\":\"bool?\",\"rows\":[true,null,true],\"words\":[0]}\n"
        )?
    );
    assert!(rt;
        comes_back(
            alloc,
            "{\"type\":\"null\",\"rows\":[null,null],\"words\":[0]}\n"
        )?
    );
    Ok(())
}

#[test]
fn integers_come_back(rt: HostRuntime) -> Result<(), Fail> {
    let alloc = rt.alloc();
    for dtype in ["u8", "u16?", "u32", "u64?", "i8", "i16?", "i32", "i64?"] {
        let document = format!(in alloc;
            "{{\"type\":\"{dtype}\",\"rows\":[0,127,5,7,9,7],\"words\":[0]}}\n"
        )?;
        assert!(rt; comes_back(alloc, document.as_str())?);
        let none = format!(in alloc; "{{\"type\":\"{dtype}\",\"rows\":[],\"words\":[0]}}\n")?;
        assert!(rt; comes_back(alloc, none.as_str())?);
    }
    assert!(rt;
        comes_back(
            alloc,
            "{\"type\":\"i64\",\"rows\":[-9223372036854775808,9223372036854775807],\"words\":[0]}\n"
        )?
    );
    assert!(rt;
        comes_back(
            alloc,
            "{\"type\":\"u64?\",\"rows\":[18446744073709551615,null,0],\"words\":[0]}\n"
        )?
    );
    Ok(())
}

#[test]
fn texts_and_binaries_come_back(rt: HostRuntime) -> Result<(), Fail> {
    let alloc = rt.alloc();
    assert!(rt;
        comes_back(
            alloc,
            "{\"type\":\"text?\",\"rows\":[\"a\",null,\"\",\"\\\"\\\\\\b\\f\\n\\r\\t\\u0000\\u001f/\u{7f}\u{e9}\u{1f600}\"],\"words\":[0]}\n"
        )?
    );
    assert!(rt;
        comes_back(
            alloc,
            "{\"type\":\"text\",\"rows\":[\"one\",\"two\",\"one\",\"two\",\"one\",\"two\"],\"words\":[0]}\n"
        )?
    );
    assert!(rt;
        comes_back(
            alloc,
            "{\"type\":\"binary?\",\"rows\":[\"\",\"00ff\",null,\"0123456789abcdef\"],\"words\":[0]}\n"
        )?
    );
    Ok(())
}

#[test]
fn timestamps_come_back(rt: HostRuntime) -> Result<(), Fail> {
    let alloc = rt.alloc();
    for unit in ["s", "ms", "us", "ns"] {
        let plain = format!(in alloc;
            "{{\"type\":\"timestamp {unit}?\",\"rows\":[-1,null,86400,0],\"words\":[0]}}\n"
        )?;
        assert!(rt; comes_back(alloc, plain.as_str())?);
        let zoned = format!(in alloc;
            "{{\"type\":{{\"timestamp\":\"{unit}\",\"zone\":\"\\\"\"}},\"rows\":[-1,86400],\"words\":[0]}}\n"
        )?;
        assert!(rt; comes_back(alloc, zoned.as_str())?);
    }
    assert!(rt;
        comes_back(
            alloc,
            "{\"type\":{\"timestamp\":\"ms\",\"zone\":\"\",\"nullable\":true},\"rows\":[null],\"words\":[0]}\n"
        )?
    );
    Ok(())
}

#[test]
fn nested_columns_come_back(rt: HostRuntime) -> Result<(), Fail> {
    let alloc = rt.alloc();
    assert!(rt;
        comes_back(
            alloc,
            "{\"type\":{\"list\":\"i32?\",\"nullable\":true},\"rows\":[[1,2],[],null,[3,null]],\"words\":[0]}\n"
        )?
    );
    assert!(rt;
        comes_back(
            alloc,
            "{\"type\":{\"fixed\":\"u8\",\"size\":2,\"nullable\":true},\"rows\":[[1,2],null,[3,4]],\"words\":[0]}\n"
        )?
    );
    assert!(rt;
        comes_back(
            alloc,
            "{\"type\":{\"fixed\":\"u8\",\"size\":0},\"rows\":[[],[]],\"words\":[0]}\n"
        )?
    );
    assert!(rt;
        comes_back(
            alloc,
            "{\"type\":{\"struct\":[]},\"rows\":[[],[]],\"words\":[0]}\n"
        )?
    );
    assert!(rt;
        comes_back(
            alloc,
            "{\"type\":{\"struct\":[[\"a\\\"\",\"u8\"],[\"\",{\"struct\":[[\"b\",\"text?\"]],\"nullable\":true}]],\"nullable\":true},\"rows\":[[7,[\"x\"]],null,[8,null],[9,[null]]],\"words\":[0]}\n"
        )?
    );
    assert!(rt;
        comes_back(
            alloc,
            "{\"type\":{\"list\":{\"struct\":[[\"t\",{\"timestamp\":\"s\",\"zone\":\"UTC\"}],[\"v\",{\"list\":\"bool\"}]]}},\"rows\":[[[1,[true,false]],[2,[]]],[],[[3,[false]]]],\"words\":[0]}\n"
        )?
    );
    Ok(())
}
