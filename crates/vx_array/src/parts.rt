//! The parts of a Primitive, and the node with other integers in their place.

ghost use Rattle.std.specs.Prelude.{◌≡◌, length};
ghost use Rattle.vx_base.specs.Answers.{Answers};
ghost use Rattle.vx_base.specs.PlainType.{nullability_of};
ghost use Rattle.vx_base.specs.declared.array_id.ArrayId.TheVariants as ids;
ghost use Rattle.vx_model.specs.Nodes.{encoding};
ghost use Rattle.vx_model.specs.Plain.{validity};
ghost use Rattle.vx_model.specs.Rows.{rows};
ghost use Rattle.vx_model.specs.Tree.{primitive};
ghost use Rattle.vx_model.specs.TreeType.{tree_type};
ghost use Rattle.vx_model.specs.WellFormed.{WellFormed};
ghost use Rattle.vx_values.specs.IntsOf.{ptype_of, wholes_of};

use crate::array::{ArrayRef, Node};
use std::alloc::Global;
use vx_base::{Mask, Nullability, VortexResult};
use vx_values::{Ints, copy_validity};

impl ArrayRef {
    /// The integers, validity and nullability of a tree whose root is a Primitive, as the root of a plain tree of integers
    /// is.
    pub fn as_primitive(&self) -> (&Ints, &Option<Mask>, Nullability)
        requires { encoding self.now ≡ ids.Primitive }
        ensures tree { primitive (ptype_of result.0.now) (wholes_of result.0.now) result.1.now result.2 ≡ self.now }
        ensures well_formed { WellFormed (primitive (ptype_of result.0.now) (wholes_of result.0.now) result.1.now result.2) }
    {
        match &self.node {
            Node::Primitive(values, valid, nullability) => (values, valid, *nullability),
            _ => unreachable!(),
        }
    }

    /// This Primitive with other integers in place of its own, one for each row; validity and nullability stay. Refuses
    /// NoMemory alone, and then drops the integers.
    pub fn with_integers(&self, alloc: Global, values: Ints) -> VortexResult<ArrayRef>
        requires primitive { encoding self.now ≡ ids.Primitive }
        requires rows { length (wholes_of values) ≡ length (rows self.now) }
        ensures { Answers result (primitive (ptype_of values) (wholes_of values) (validity (rows self.now)) (nullability_of (tree_type self.now))) }
    {
        let (_, valid, nullability) = self.as_primitive();
        let valid = copy_validity(alloc, valid)?;
        Ok(ArrayRef::primitive_of(values, valid, nullability))
    }
}
