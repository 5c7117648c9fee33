//! NFSv4 entries of numbers under construction, in a draft with room for some. It is handed on by
//! reference, since to move one costs more than to make a short list.

ghost use Rattle.std.specs.Prelude.{◌≡◌, ◌<◌, ◌≤◌, ◌++◌, ◌∷◌, [], drop, length, OnErr, OnOk};
ghost use Rattle.acl_wire.specs.RawAcesWriting.{raws_of};
ghost use Rattle.acl_wire.specs.Kept.{raw_unless_empty};
ghost use Rattle.acl_wire.specs.Writing.{PutsInFront};

use crate::RawAce;
use crate::raw_writing::raw_of;
use acl_nfs4::Ace;
use arrayvec::ArrayVec;

/// There is no room for a further entry.
#[derive(Clone, Copy, Debug)]
pub(crate) struct Full;

/// Puts the entry after the others, unless there is no room.
pub(crate) fn push<const N: usize>(draft: &mut ArrayVec<RawAce, N>, raw: RawAce) -> Result<(), Full>
    ensures ok { OnOk result (draft.new.items ≡ draft.old.items ++ raw ∷ []) }
    ensures full { OnErr result (N < length (draft.old.items ++ raw ∷ [])) }
{
    match draft.try_push(raw) {
        Ok(()) => Ok(()),
        Err(_) => Err(Full),
    }
}

/// Puts the entry after the others, unless its mask is empty or there is no room.
#[tactic(auto, unfolding(crate::specs::Kept::raw_unless_empty))]
pub(crate) fn push_unless_empty<const N: usize>(
    draft: &mut ArrayVec<RawAce, N>,
    raw: RawAce,
) -> Result<(), Full>
    ensures ok { OnOk result (draft.new.items ≡ draft.old.items ++ raw_unless_empty raw) }
    ensures full { OnErr result (N < length (draft.old.items ++ raw_unless_empty raw)) }
{
    if raw.mask == 0 {
        return Ok(());
    }
    push(draft, raw)
}

/// Puts the entries after the others, unless there is no room.
pub(crate) fn push_aces<const N: usize>(
    draft: &mut ArrayVec<RawAce, N>,
    aces: &[Ace],
) -> Result<(), Full>
    ensures ok { OnOk result (draft.new.items ≡ draft.old.items ++ raws_of aces.now) }
    ensures full { OnErr result (N < length (draft.old.items ++ raws_of aces.now)) }
{
    for ace in aces {
        push(draft, raw_of(ace))?;
    }
    Ok(())
}

fn put_raws(raws: &[RawAce], out: &mut [RawAce])
    requires { length raws.now ≤ length out.old }
    ensures { out.new ≡ raws.now ++ drop (length raws.now) out.old }
{
    let end = raws.len();
    out[..end].copy_from_slice(raws);
}

/// Copies the entries to the front of `out`, if it has room for all, and else leaves `out` as it
/// was. Returns how many entries there are.
pub(crate) fn write_raws(raws: &[RawAce], out: &mut [RawAce]) -> usize
    ensures { PutsInFront raws.now result out.old out.new }
{
    if raws.len() <= out.len() {
        put_raws(raws, out);
    }
    raws.len()
}
