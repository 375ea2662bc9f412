//! The least value of a column of integers.

ghost use Rattle.std.specs.Prelude.{◌≤◌, length, IsTrue};
ghost use Rattle.vx_base.specs.Answers.{Answers, OrMemory};
ghost use Rattle.vx_base.specs.Integers.{lies_in};
ghost use Rattle.vx_base.specs.PlainType.{is_integer, integer_of};
ghost use Rattle.vx_model.specs.Rows.{rows};
ghost use Rattle.vx_model.specs.TreeType.{tree_type};
ghost use Rattle.vx_scheme.specs.Asked.{most_rows};
ghost use Rattle.vx_scheme.specs.Bundle.{SameArray};
ghost use Rattle.vx_stats.specs.Stats.{least_in};

use vx_base::VortexResult;
use vx_scheme::ArrayAndStats;

/// The least value of a column; the type's greatest where every row is null. The statistics that it takes are kept with
/// the column for the next call.
pub fn least_value(column: &mut ArrayAndStats) -> VortexResult<i128>
    requires integer { IsTrue (is_integer (tree_type column.old.array)) }
    requires few { length (rows column.old.array) ≤ most_rows }
    ensures answer { Answers result (least_in (integer_of (tree_type column.old.array)) (rows column.old.array)) }
    ensures held { OrMemory result (λ least. IsTrue (lies_in (integer_of (tree_type column.old.array)) least)) }
    ensures column { SameArray column.old column.new }
{
    column.array().known();
    Ok(column.integer_summary()?.erased().least())
}
