//! The answer of a scheme without parts.

ghost use Rattle.std.specs.Prelude.{◌≡◌};
ghost use Rattle.vx_scheme.specs.Meaning.{split_of};
ghost use Rattle.vx_schemes_common.specs.Finishing.{finished_or_kept};

use vx_array::ArrayRef;
use vx_scheme::Split;

/// `Finished` with the tree; without one `Kept`, so that the column stays plain.
pub fn finished_or_kept(made: Option<ArrayRef>) -> Split
    ensures { result ≡ split_of (finished_or_kept made) }
{
    match made {
        Some(tree) => Split::Finished(tree),
        None => Split::Kept,
    }
}
