//! The exclusion rules of a list of schemes, collected once when a compressor is made.

ghost use Rattle.std.specs.Prelude.{◌≡◌, ◌++◌, map};
ghost use Rattle.vx_base.specs.Answers.{OrMemory};
ghost use Rattle.vx_scheme.specs.Contexts.{entries_of};
ghost use Rattle.vx_scheme.specs.Names.{name_of};
ghost use Rattle.vx_compressor.specs.Bans.{ban_of, against_others, against_itself, bans_of, all_bans, stands_below, is_banned};

use std::alloc::Global;
use vx_base::VortexResult;
use vx_scheme::{ChildSelection, Scheme, SchemeId};

/// An exclusion rule as it is looked up: `banned` may not stand anywhere below these children of `above`. Rules against
/// others and against the scheme itself have this one form.
#[derive(Clone, Copy, Debug)]
pub(crate) struct Ban {
    banned: SchemeId,
    above: SchemeId,
    children: ChildSelection,
}

impl Ban {
    /// Whether it bars the scheme from a site with these schemes above, each with its child number.
    pub(crate) fn forbids(&self, id: SchemeId, history: &[(SchemeId, usize)]) -> bool
        ensures { result ≡ is_banned (name_of id) (entries_of history.now) (ban_of self.now) }
    {
        self.banned == id && stands_below(self.above, self.children, history)
    }
}

fn stands_below(above: SchemeId, children: ChildSelection, history: &[(SchemeId, usize)]) -> bool
    ensures { result ≡ stands_below (name_of above) children (entries_of history.now) }
{
    history
        .iter()
        .any(|entry| entry.0 == above && children.contains(entry.1))
}

/// The bans that the schemes declare, in the order of the list.
pub(crate) fn bans_of<S: Scheme>(alloc: Global, schemes: &[S]) -> VortexResult<Vec<Ban>>
    ensures { OrMemory result (λ bans. map ban_of bans.items ≡ all_bans (map S.meaning schemes.now)) }
{
    let mut bans = Vec::new(alloc);
    for scheme in schemes {
        push_bans(alloc, &mut bans, scheme)?;
    }
    Ok(bans)
}

fn push_bans<S: Scheme>(alloc: Global, bans: &mut Vec<Ban>, scheme: &S) -> VortexResult<()>
    ensures { OrMemory result (λ _. map ban_of bans.new.items ≡ map ban_of bans.old.items ++ bans_of (S.meaning scheme.now)) }
{
    push_against_others(alloc, bans, scheme)?;
    push_against_itself(alloc, bans, scheme)
}

fn push_against_others<S: Scheme>(
    alloc: Global,
    bans: &mut Vec<Ban>,
    scheme: &S,
) -> VortexResult<()>
    ensures { OrMemory result (λ _. map ban_of bans.new.items ≡ map ban_of bans.old.items ++ against_others (S.meaning scheme.now).name (S.meaning scheme.now).descendants) }
{
    let id = scheme.id();
    let rules = scheme.descendant_exclusions(alloc)?;
    for rule in rules.as_slice() {
        bans.push(Ban {
            banned: rule.excluded,
            above: id,
            children: rule.children,
        })?;
    }
    Ok(())
}

fn push_against_itself<S: Scheme>(
    alloc: Global,
    bans: &mut Vec<Ban>,
    scheme: &S,
) -> VortexResult<()>
    ensures { OrMemory result (λ _. map ban_of bans.new.items ≡ map ban_of bans.old.items ++ against_itself (S.meaning scheme.now).name (S.meaning scheme.now).ancestors) }
{
    let id = scheme.id();
    let rules = scheme.ancestor_exclusions(alloc)?;
    for rule in rules.as_slice() {
        bans.push(Ban {
            banned: id,
            above: rule.ancestor,
            children: rule.children,
        })?;
    }
    Ok(())
}
