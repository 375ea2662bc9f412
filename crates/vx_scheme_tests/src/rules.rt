//! How many rules of exclusion each scheme has.

use std::test::Fail;
use vx_fixtures::rules_of;
use vx_scheme::NoScheme;
use vx_schemes::{BitPackingScheme, FoRScheme, IntDictScheme, ZigZagScheme};
use vx_schemes_runs::{DeltaScheme, IntRLEScheme, RunEndScheme, SequenceScheme, SparseScheme};

#[test]
fn each_scheme_tells_its_rules(rt: HostRuntime) -> Result<(), Fail> {
    let frame = rules_of(rt.alloc(), &FoRScheme::v1())?;
    let zig_zag = rules_of(rt.alloc(), &ZigZagScheme)?;
    let packing = rules_of(rt.alloc(), &BitPackingScheme::v1())?;
    let sparse = rules_of(rt.alloc(), &SparseScheme)?;
    let dict = rules_of(rt.alloc(), &IntDictScheme)?;
    let none = rules_of(rt.alloc(), &NoScheme)?;
    assert!(rt; frame == (0, 3) && zig_zag == (3, 3) && packing == (0, 0));
    assert!(rt; sparse == (4, 0) && dict == (0, 0) && none == (0, 0));
    Ok(())
}

#[test]
fn schemes_of_runs_and_series_tell_theirs(rt: HostRuntime) -> Result<(), Fail> {
    let ends = rules_of(rt.alloc(), &RunEndScheme)?;
    let sequence = rules_of(rt.alloc(), &SequenceScheme)?;
    let blocks = rules_of(rt.alloc(), &IntRLEScheme)?;
    let delta = rules_of(rt.alloc(), &DeltaScheme::default())?;
    assert!(rt; ends == (4, 3) && sequence == (0, 3) && blocks == (2, 3) && delta == (1, 3));
    Ok(())
}
