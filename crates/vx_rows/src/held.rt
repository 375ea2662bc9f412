//! Trees whose rows are read where they stand: plain and constant ones as they are, encoded ones decoded first.

ghost use Rattle.std.specs.Prelude.{◌≡◌, IsTrue};
ghost use Rattle.vx_base.specs.Answers.{OrMemory};
ghost use Rattle.vx_base.specs.PlainType.{is_flat};
ghost use Rattle.vx_model.specs.TreeType.{tree_type};
ghost use Rattle.vx_rows.specs.Readable.{is_readable, held, Reads};

use std::alloc::Global;
use vx_array::{ArrayRef, Node};
use vx_base::VortexResult;

/// A tree whose rows are read where they stand: the caller's, or a decoded one.
#[derive(Drop)]
pub(crate) enum Held<'a> {
    Given(&'a ArrayRef),
    Decoded(ArrayRef),
}

impl Held<'_> {
    pub(crate) fn tree(&self) -> &ArrayRef
        ensures { result.now ≡ held self.now }
    {
        match self {
            Held::Given(tree) => tree,
            Held::Decoded(tree) => tree,
        }
    }
}

// Whether the rows of a flat tree are read where they stand.
#[cycle(is_readable)]
fn is_readable(tree: &ArrayRef) -> bool
    ensures { result ≡ is_readable tree.now }
{
    match tree.node() {
        Node::Bool(_, _, _) | Node::Primitive(_, _, _) => true,
        Node::VarBinView(_, _, _) | Node::Constant(_, _) => true,
        Node::Timestamp(storage, _) => is_readable(&storage.array),
        _ => false,
    }
}

/// The tree, decoded where its rows aren't read where they stand.
#[tactic(auto, using(crate::proofs::ReadLemmas::reading))]
pub(crate) fn readable(alloc: Global, tree: &ArrayRef) -> VortexResult<Held<'_>>
    requires { IsTrue (is_flat (tree_type tree.now)) }
    ensures { OrMemory result (λ read. Reads tree.now (held read)) }
{
    if is_readable(tree) {
        return Ok(Held::Given(tree));
    }
    Ok(Held::Decoded(tree.canonical(alloc)?))
}
