//! One expression over lists of any integer type, or over two lists of one type.

// One expression for each of the eight lists.
macro_rules! with_ints {
    ($ints:expr, $items:ident => $answer:expr) => {
        match $ints {
            Ints::U8($items) => $answer,
            Ints::U16($items) => $answer,
            Ints::U32($items) => $answer,
            Ints::U64($items) => $answer,
            Ints::I8($items) => $answer,
            Ints::I16($items) => $answer,
            Ints::I32($items) => $answer,
            Ints::I64($items) => $answer,
        }
    };
}

// One expression for two lists of each of the eight types, and another one for lists of two types.
macro_rules! with_pairs {
    ($left:expr, $right:expr, $xs:ident, $ys:ident => $answer:expr, $other:expr) => {
        match ($left, $right) {
            (Ints::U8($xs), Ints::U8($ys)) => $answer,
            (Ints::U16($xs), Ints::U16($ys)) => $answer,
            (Ints::U32($xs), Ints::U32($ys)) => $answer,
            (Ints::U64($xs), Ints::U64($ys)) => $answer,
            (Ints::I8($xs), Ints::I8($ys)) => $answer,
            (Ints::I16($xs), Ints::I16($ys)) => $answer,
            (Ints::I32($xs), Ints::I32($ys)) => $answer,
            (Ints::I64($xs), Ints::I64($ys)) => $answer,
            _ => $other,
        }
    };
}

pub(super) use with_ints;
pub(super) use with_pairs;
