//! Dictionaries decoded: by the runs of their codes, or code by code.

ghost use Rattle.std.specs.Prelude.{IsTrue};
ghost use Rattle.vx_array.specs.IsDecoded.{IsDecoded};
ghost use Rattle.vx_base.specs.Answers.{OrMemory};
ghost use Rattle.vx_base.specs.PlainType.{is_integer};
ghost use Rattle.vx_model.specs.Tree.{Tree, dict};
ghost use Rattle.vx_model.specs.TreeType.{tree_type};
ghost use Rattle.vx_model.specs.WellFormed.{WellFormed};

use crate::array::{ArrayRef, Node};
use crate::node::picked_by_codes;
use std::alloc::Global;
use vx_base::VortexResult;
use vx_flat::decoded_by_runs;
use vx_values::Decoded;

impl ArrayRef {
    // The rows of a dictionary with these codes and with values that are decoded. Of codes in runs, the value of each run's
    // code is found once, and then repeated.
    #[cycle(decoded)]
    pub(crate) fn decoded_dict(&self, alloc: Global, values: Decoded) -> VortexResult<Decoded>
        requires { IsTrue (is_integer (tree_type self.now)) }
        ensures { (tree : Tree) → WellFormed (dict self.now tree) → IsDecoded tree values → OrMemory result (λ rows. IsDecoded (dict self.now tree) rows) }
    {
        match &self.node {
            Node::RunEnd(ends, runs) => {
                let picked = runs.array.decoded_codes(alloc, values)?;
                let (ends, _) = ends.array.integers(alloc)?;
                decoded_by_runs(alloc, ends.as_ints(), picked)
            }
            _ => self.decoded_codes(alloc, values),
        }
    }

    // `decoded_dict` code by code.
    #[cycle(decoded)]
    fn decoded_codes(&self, alloc: Global, values: Decoded) -> VortexResult<Decoded>
        requires { IsTrue (is_integer (tree_type self.now)) }
        ensures { (tree : Tree) → WellFormed (dict self.now tree) → IsDecoded tree values → OrMemory result (λ rows. IsDecoded (dict self.now tree) rows) }
    {
        let (places, valid) = self.integers(alloc)?;
        picked_by_codes(alloc, places.as_ints(), valid, values)
    }
}
