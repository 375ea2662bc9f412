//! One arm in place of eight, where a list of integers of any type is handed to a generic function.

// The answer for the list inside, whatever its type.
macro_rules! with_ints {
    ($ints:expr, $items:ident => $answer:expr) => {
        match $ints {
            Ints::U8($items) => $answer,
            Ints::U16($items) => $answer,
            Ints::U32($items) => $answer,
            Ints::U64($items) => $answer,
            Ints::I8($items) => $answer,
            Ints::I16($items) => $answer,
            Ints::I32($items) => $answer,
            Ints::I64($items) => $answer,
        }
    };
}

pub(crate) use with_ints;
