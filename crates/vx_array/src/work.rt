//! How many rows a tree has to decode, and plain rows for tests that read one row after another. A row of a Delta is a sum of
//! up to 1,024 differences, and each of them may be such a sum again. A few bytes may name 2^31 rows, so a test decodes a child
//! only where the bytes that it stores pay for its rows.

ghost use Rattle.std.specs.Prelude.{◌≡◌, IfSome};
ghost use Rattle.vx_model.specs.Rows.{rows};
ghost use Rattle.vx_model.specs.TreeType.{tree_type};

use crate::array::{ArrayRef, Node, Patches};
use std::alloc::Global;

// The rows that each stored byte pays for: at a bit a row, as many as it holds.
const PAID_ROWS: u128 = 8;

// The rows that a test may decode beside those that are paid for: 64 blocks, one for each node on a path in a file.
const FREE_ROWS: u128 = 65_536;

/// The rows of a tree and of all trees inside, and how many of the roots are Deltas. Both saturate.
#[derive(Clone, Copy)]
struct Work {
    rows: u64,
    deltas: u64,
}

impl Work {
    fn and(self, other: Work) -> Work {
        Work {
            rows: self.rows.saturating_add(other.rows),
            deltas: self.deltas.saturating_add(other.deltas),
        }
    }

    // Whether stored bytes pay for decoding: it takes a row of memory for each row of each tree inside.
    fn is_paid(self, bytes: u128) -> bool {
        let paid = PAID_ROWS.saturating_mul(bytes).saturating_add(FREE_ROWS);
        u128::from(self.rows) <= paid
    }
}

impl ArrayRef {
    // Whether the bytes of the tree pay for decoding it.
    pub(crate) fn is_paid(&self) -> bool {
        self.work().is_paid(self.nbytes())
    }

    // The plain tree of a column of integers, where rows are sums of differences and bytes pay for decoding them; None else, and
    // where memory is wanting.
    pub(crate) fn summed(&self) -> Option<ArrayRef>
        ensures { IfSome result (λ plain. (rows plain ≡ rows self.now) × (tree_type plain ≡ tree_type self.now)) }
    {
        self.known();
        let work = self.work();
        let is_slow = work.deltas > 0 && self.dtype().is_integer();
        if !is_slow || !work.is_paid(self.nbytes()) {
            return None;
        }
        match self.canonical_flat(self.allocator()?) {
            Ok(plain) => Some(plain),
            Err(_) => None,
        }
    }

    // The tree that a test reads: the plain one, where there is one.
    pub(crate) fn or<'a>(&'a self, plain: &'a Option<ArrayRef>) -> &'a ArrayRef
        requires { IfSome plain.now (λ own. (rows own ≡ rows self.now) × (tree_type own ≡ tree_type self.now)) }
        ensures rows { rows result.now ≡ rows self.now }
        ensures dtype { tree_type result.now ≡ tree_type self.now }
    {
        match plain {
            Some(plain) => plain,
            None => self,
        }
    }

    // The allocator of the root's first child, None of a root whose children aren't integers alone.
    fn allocator(&self) -> Option<Global> {
        match &self.node {
            Node::FoR(child, _) => Some(*Box::allocator(&child.array)),
            Node::ZigZag(child) => Some(*Box::allocator(&child.array)),
            Node::Dict(child, _) => Some(*Box::allocator(&child.array)),
            Node::RunEnd(child, _) => Some(*Box::allocator(&child.array)),
            Node::Rle(child, _, _, _) => Some(*Box::allocator(&child.array)),
            Node::Delta(child, _, _, _, _) => Some(*Box::allocator(&child.array)),
            Node::FoRV2(child, _) => Some(*Box::allocator(&child.array)),
            _ => None,
        }
    }

    #[cycle(work)]
    fn work(&self) -> Work {
        let own = Work {
            rows: self.len,
            deltas: 0,
        };
        match &self.node {
            Node::VarBin(child, _, _, _) => own.and(child.array.work()),
            Node::Timestamp(child, _) => own.and(child.array.work()),
            Node::Masked(child, _) => own.and(child.array.work()),
            Node::BitPacked(_, _, _, _, _, patches, _) => own.and(patches_work(patches)),
            Node::FoR(child, _) => own.and(child.array.work()),
            Node::ZigZag(child) => own.and(child.array.work()),
            Node::Dict(codes, values) => own.and(codes.array.work()).and(values.array.work()),
            Node::Sparse(patches, _) => own.and(patches.work()),
            Node::RunEnd(ends, values) => own.and(ends.array.work()).and(values.array.work()),
            Node::Rle(values, indices, offsets, _) => own
                .and(values.array.work())
                .and(indices.array.work())
                .and(offsets.array.work()),
            Node::Delta(bases, deltas, _, _, _) => Work {
                rows: self.len,
                deltas: 1,
            }
            .and(bases.array.work())
            .and(deltas.array.work()),
            Node::BitPackedV2(_, _, offsets, _, _, patches, _) => own
                .and(offsets.array.work())
                .and(patches_work(patches)),
            Node::DateTimeParts(_, _, days, seconds, subseconds) => own
                .and(days.array.work())
                .and(seconds.array.work())
                .and(subseconds.array.work()),
            Node::FoRV2(encoded, references) => {
                own.and(encoded.array.work()).and(references.array.work())
            }
            _ => own,
        }
    }
}

impl Patches {
    #[cycle(work)]
    fn work(&self) -> Work {
        let inside = self.indices.work().and(self.values.work());
        match &self.chunks {
            Some(chunks) => inside.and(chunks.work()),
            None => inside,
        }
    }
}

#[cycle(work)]
fn patches_work(patches: &Option<Box<Patches>>) -> Work {
    match patches {
        Some(patches) => patches.work(),
        None => Work { rows: 0, deltas: 0 },
    }
}
