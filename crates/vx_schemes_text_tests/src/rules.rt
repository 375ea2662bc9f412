//! How many rules of exclusion each scheme has.

use std::test::Fail;
use vx_fixtures::rules_of;
use vx_schemes_text::{
    BinaryDictScheme, NullDominatedSparseScheme, StringDictScheme, VarBinScheme,
};

#[test]
fn each_scheme_tells_its_rules(rt: HostRuntime) -> Result<(), Fail> {
    let texts = rules_of(rt.alloc(), &StringDictScheme)?;
    let sparse = rules_of(rt.alloc(), &NullDominatedSparseScheme)?;
    let binaries = rules_of(rt.alloc(), &BinaryDictScheme)?;
    let joined = rules_of(rt.alloc(), &VarBinScheme)?;
    assert!(rt; texts == (1, 0) && sparse == (2, 0) && binaries == (1, 0) && joined == (0, 0));
    Ok(())
}
