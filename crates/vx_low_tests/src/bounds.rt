//! Trait impls, called through a bound.

ghost use Rattle.std.specs.Prelude.{◌≡◌, ◌<◌};

use std::hash::{DefaultHasher, Hash, Hasher};
use std::marker::Brand;
use std::sync::ledger::{Blank, Ledger};
use std::test::Fail;
use vx_base::{Fraction, Integer, Nullability, PType, Scalar, Steps};

fn hash_of<T: Hash>(value: &T) -> u64 {
    let mut state = DefaultHasher::new();
    value.hash(&mut state);
    state.finish()
}

#[test]
fn equal_scalars_hash_alike(rt: HostRuntime) -> Result<(), Fail> {
    let seven = Scalar::primitive(7, PType::U8, Nullability::Nullable)?;
    let again = seven.copy(rt.alloc())?;
    assert!(rt; hash_of(&seven) == hash_of(&again));
    Ok(())
}

fn greatest<T: Ord + Copy>(a: T, b: T) -> T {
    if a < b { b } else { a }
}

#[test]
fn fractions_are_their_values(rt: HostRuntime) {
    assert_eq!(rt;
        greatest(Fraction::new(1, 3), Fraction::new(1, 2)),
        Fraction::new(2, 4)
    );
    let most = Fraction::new(u64::MAX, u64::MAX - 1);
    assert_eq!(rt; greatest(most, Fraction::new(u64::MAX - 1, u64::MAX)), most);
}

fn lies_in<T: Integer>(number: i128) -> bool {
    match T::from_whole(number) {
        Some(value) => value.to_whole() == number && T::from_low_bits(value.to_bits()) == value,
        None => false,
    }
}

#[test]
fn integers_are_whole_numbers(rt: HostRuntime) {
    assert!(rt; lies_in::<u8>(255) && !lies_in::<u8>(256) && !lies_in::<u8>(-1));
    assert!(rt; lies_in::<u16>(65535) && lies_in::<u32>(4294967295));
    assert!(rt; lies_in::<u64>(18446744073709551615) && !lies_in::<u64>(18446744073709551616));
    assert!(rt; lies_in::<i8>(-128) && !lies_in::<i8>(-129) && !lies_in::<i8>(128));
    assert!(rt; lies_in::<i16>(-32768) && lies_in::<i32>(-2147483648));
    assert!(rt; lies_in::<i64>(-9223372036854775808) && !lies_in::<i64>(9223372036854775808));
}

// Counts twice, and returns the size of the counter.
fn two_ticks<L: Ledger>(blank: Blank) -> usize
    requires name { blank.name ≡ L.name }
    requires parts { blank.parts ≡ L.parts }
    requires some { 0 < L.parts }
{
    let mut steps = Steps::<L>::new(blank);
    steps.tick();
    steps.tick();
    size_of::<Steps<L>>()
}

#[test]
fn counters_take_no_bytes(rt: HostRuntime) {
    assert_eq!(rt; two_ticks::<Brand>(Blank::new(1)), 0);
}
