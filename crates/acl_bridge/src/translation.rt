//! Translating POSIX access control lists to NFSv4 lists.
ghost use Rattle.std.specs.Prelude.{◌≡◌, ◌≤◌, length, map, IfOk, IsOk};
ghost use Rattle.acl_posix.specs.Canonical.{IsAcl};
ghost use Rattle.acl_posix.specs.declared.limits.TheConstants.{INLINE_ENTRIES};
ghost use Rattle.acl_nfs4.specs.Evaluation.{mode_of};
ghost use Rattle.acl_nfs4.specs.Inheritance.{inherited_list};
ghost use Rattle.acl_bridge.specs.Effects.{with_effect};
ghost use Rattle.acl_bridge.specs.Translation.{translation, default_translation, with_flags};
ghost use Rattle.acl_bridge.specs.Translation.{inheriting_flags};
ghost use Rattle.acl_bridge.specs.TranslationLaws.{DecideAlike, GrantsAsMuch, translated_mode};
ghost use Rattle.acl_bridge.specs.TranslationLaws.{most_translated};

use crate::passes::{Effect, PASSES, append_pass};
use acl_nfs4::{Acl4, Kind, MAX_ACES};
use acl_posix::{Acl, MAX_ENTRIES};
use std::alloc::{AllocError, Global};

// A translation always fits: it has at most two entries for each of the list's, none for its mask,
// and one for the others.
const _: () = prove!(2 * MAX_ENTRIES - 3 <= MAX_ACES);

/// The list's translation, to take effect here or below.
fn translation_for(alloc: Global, acl: &Acl, effect: Effect) -> Result<Acl4, AllocError>
    ensures list { IfOk result (λ aces. aces ≡ with_effect effect (translation acl.now)) }
    ensures acl { IsAcl acl.now }
    ensures short { length acl.now ≤ INLINE_ENTRIES → IsOk result }
{
    // No entry makes more than two.
    let entries = acl.entries();
    let mut aces = Acl4::with_capacity(alloc, 2 * entries.len())?;
    for pass in PASSES {
        append_pass(&mut aces, acl, pass, effect)?;
    }
    Ok(aces)
}

/// Translates the list to an NFSv4 list that grants every requester the same single permissions to
/// read, write or execute, for every owner and group; to write is `WRITE_DATA` with `APPEND_DATA`.
/// Each entry becomes one that allows what it has under the mask, and one that denies the rest,
/// without flags but `IDENTIFIER_GROUP`, in this order: the owner's; the users' by id; those of the
/// file's group and the groups by id, which deny only after all of them have allowed; and the
/// others', which only allow. Entries with an empty mask are left out. Fails only if memory runs
/// out.
pub fn translate(alloc: Global, acl: &Acl) -> Result<Acl4, AllocError>
    ensures list { IfOk result (λ aces. aces ≡ translation acl.now) }
    ensures short { length acl.now ≤ INLINE_ENTRIES → IsOk result }
    ensures alike { IfOk result (DecideAlike acl.now) }
    ensures as_much { IfOk result (GrantsAsMuch acl.now) }
    ensures mode { IfOk result (λ aces. mode_of aces ≡ translated_mode acl.now) }
    ensures length { IfOk result (λ aces. length aces ≤ most_translated) }
{
    translation_for(alloc, acl, Effect::Here)
}

/// Translates a default list to an NFSv4 list with `FILE_INHERIT`, `DIRECTORY_INHERIT` and
/// `INHERIT_ONLY` on each entry. It has no effect on the directory itself; what is created in it
/// inherits the translation. Fails only if memory runs out.
pub fn translate_default(alloc: Global, acl: &Acl) -> Result<Acl4, AllocError>
    ensures list { IfOk result (λ aces. aces ≡ default_translation acl.now) }
    ensures short { length acl.now ≤ INLINE_ENTRIES → IsOk result }
    ensures file { IfOk result (λ aces. inherited_list Kind.File aces ≡ translation acl.now) }
    ensures directory { IfOk result (λ aces. inherited_list Kind.Dir aces
        ≡ map (with_flags inheriting_flags) (translation acl.now)) }
    ensures length { IfOk result (λ aces. length aces ≤ most_translated) }
{
    translation_for(alloc, acl, Effect::Below)
}
