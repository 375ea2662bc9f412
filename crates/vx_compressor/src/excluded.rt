//! Whether a scheme is excluded at a site, by the schemes above it.

ghost use Rattle.std.specs.Prelude.{◌≡◌, ◌&&◌, ◌||◌, codes, map};
ghost use Rattle.std.specs.List.{list_any};
ghost use Rattle.vx_scheme.specs.Contexts.{entries_of};
ghost use Rattle.vx_scheme.specs.Excluded.{is_offsets};
ghost use Rattle.vx_scheme.specs.Names.{name_of, same_name};
ghost use Rattle.vx_compressor.specs.Bans.{ban_of, is_banned, is_excluded_by};

use crate::bans::Ban;
use crate::root::is_offsets;
use vx_scheme::SchemeId;

/// Whether the scheme is excluded below these schemes, each with its child number: it is one of them, it is the dictionary
/// and the column is a list's offsets, or a ban forbids it.
pub(crate) fn is_excluded(bans: &[Ban], id: SchemeId, history: &[(SchemeId, usize)]) -> bool
    ensures { result ≡ is_excluded_by (map ban_of bans.now) (name_of id) (entries_of history.now) }
{
    stands_in(history, id) || is_barred_from_offsets(history, id) || is_banned(bans, id, history)
}

fn stands_in(history: &[(SchemeId, usize)], id: SchemeId) -> bool
    ensures { result ≡ list_any (λ e. same_name e.0 (name_of id)) (entries_of history.now) }
{
    history.iter().any(|entry| entry.0 == id)
}

// A dictionary isn't tried on a list's offsets: they never fall, and repeat at empty lists alone.
fn is_barred_from_offsets(history: &[(SchemeId, usize)], id: SchemeId) -> bool
    ensures { result ≡ (is_offsets (entries_of history.now) && same_name (name_of id) (codes "vortex.int.dict")) }
{
    is_offsets(history) && id == SchemeId::of("vortex.int.dict")
}

fn is_banned(bans: &[Ban], id: SchemeId, history: &[(SchemeId, usize)]) -> bool
    ensures { result ≡ list_any (is_banned (name_of id) (entries_of history.now)) (map ban_of bans.now) }
{
    bans.iter().any(|ban| ban.forbids(id, history))
}
