//! The root of a cascade: what stands above every scheme, and its children.

ghost use Rattle.std.specs.Prelude.{◌≡◌, ◌==◌, ◌&&◌};
ghost use Rattle.vx_scheme.specs.Contexts.{entries_of};
ghost use Rattle.vx_scheme.specs.Excluded.{is_offsets, root_name};
ghost use Rattle.vx_scheme.specs.Names.{name_of, same_name};

use vx_scheme::SchemeId;

/// The name of what stands above every scheme. No scheme may have it: else a rule against that scheme would hold of the
/// offsets of lists too.
pub(crate) const ROOT: &str = "vortex.compressor.root";

/// The root's child number of a list's offsets.
pub const OFFSETS: usize = 1;

/// The root's child number of a list's sizes. Lists are stored by offsets alone, so no site has it.
pub const SIZES: usize = 2;

const _: () = prove!(OFFSETS == 1);

const _: () = prove!(SIZES == 2);

/// Whether a site with these schemes above, each with its child number, is that of a list's offsets.
pub(crate) fn is_offsets(history: &[(SchemeId, usize)]) -> bool
    ensures { result ≡ is_offsets (entries_of history.now) }
{
    match history.first() {
        Some(first) => is_root_child(first),
        None => false,
    }
}

fn is_root_child(entry: &(SchemeId, usize)) -> bool
    ensures { result ≡ (same_name (name_of entry.now.0) root_name && (entry.now.1 == 1)) }
{
    entry.0 == SchemeId::of(ROOT) && entry.1 == OFFSETS
}
