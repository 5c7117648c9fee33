//! Creating something in a folder with an NFSv4 list, and the NFSv4 list of a mode.

ghost use Rattle.std.specs.Prelude.{◌≡◌, ◌≢◌, ◌≤◌, ◌<◌, ◌⊎◌, ◌++◌, ◌∷◌, [], IfErr, IfOk, IfSome};
ghost use Rattle.std.specs.Prelude.{List, None, Some, false, length, true};
ghost use Rattle.acl_nfs4.specs.Ace.{ace_of};
ghost use Rattle.acl_nfs4.specs.ModeChange.{with_mode};
ghost use Rattle.acl_nfs4.specs.Who.{is_special};
ghost use Rattle.acl_nfs4.specs.declared.ace.AceType.TheVariants.{Allow};
ghost use Rattle.acl_nfs4.specs.declared.limits.TheConstants.{INLINE_ACES, MAX_ACES};
ghost use Rattle.acl_wire.specs.Creation.{PutsMade, aces_of_mode, created_of, dressed, kind_in};
ghost use Rattle.acl_wire.specs.Creation.{made_of, mode_made};
ghost use Rattle.acl_wire.specs.declared.raw_ace.RawAce.{RawAce as Raw};

use crate::inheritance::inherit;
use crate::mode_change::{mode_of_number, rule_of_number, write_changed};
use crate::numbers::without_bits;
use crate::{ModeRule, Nfs4Error, Nfs4Fault, RawAce};
use acl_nfs4::{Ace, AceType, Acl4, Flags, INLINE_ACES, Kind, MAX_ACES, Mask, Who};
use acl_posix::Mode;
use arrayvec::ArrayVec;
use bitflags::Flags as FlagSet;
use std::alloc::Global;

/// What is created in a folder, and how.
#[repr(C)]
#[derive(Clone, Copy, Debug, PartialEq, Eq)]
pub struct Making {
    /// 0 is a file, 1 a directory.
    pub kind: u32,
    /// The mode that is requested.
    pub mode: u32,
    /// The bits that are removed from the mode if nothing is inherited.
    pub umask: u32,
    /// The number of the rule by which the mode is set on what is inherited.
    pub how: u32,
}

/// What servers also check for an owner: `tTnNcCoy`.
const OWNER_ATTRIBUTES: u32 = 0x1E_0198;

/// And of everybody: `tncy`.
const ATTRIBUTES: u32 = 0x12_0088;

/// The kind of this number.
fn kind_of_number(kind: u32) -> Result<Kind, Nfs4Fault>
    ensures { result ≡ kind_in kind }
{
    match kind {
        0 => Ok(Kind::File),
        1 => Ok(Kind::Dir),
        _ => Err(Nfs4Fault::Argument),
    }
}

/// Puts what is inherited, with the mode set on it.
fn write_dressed(
    alloc: Global,
    below: &[RawAce],
    mode: Mode,
    rule: ModeRule,
    out: &mut [RawAce],
) -> Result<Option<usize>, Nfs4Error>
    ensures value { PutsMade (dressed rule mode below.now) result out.old out.new }
    ensures short { length below.now ≤ INLINE_ACES → IfOk (dressed rule mode below.now)
        (λ made. IfSome made (λ list. length list ≤ INLINE_ACES))
        → IfErr result (λ error. error ≢ Nfs4Error.Memory) }
{
    if below.is_empty() {
        return Ok(None);
    }
    match write_changed(alloc, below, mode, rule, out) {
        Ok(count) => Ok(Some(count)),
        Err(error) => Err(error),
    }
}

/// Puts what is made of a folder's entries, in room for so many that are inherited. Never inlined,
/// so that short lists don't pay for the room of long ones.
#[inline(never)]
fn write_within<const N: usize>(
    alloc: Global,
    folder: &[RawAce],
    kind: Kind,
    mode: Mode,
    rule: ModeRule,
    out: &mut [RawAce],
) -> Result<Option<usize>, Nfs4Error>
    requires most { N ≤ MAX_ACES }
    requires room { (length folder.now ≤ N) ⊎ (N ≡ MAX_ACES) }
    ensures value { PutsMade (made_of kind mode rule folder.now) result out.old out.new }
    ensures short { length folder.now ≤ INLINE_ACES
        → IfOk (made_of kind mode rule folder.now)
        (λ made. IfSome made (λ list. length list ≤ INLINE_ACES))
        → IfErr result (λ error. error ≢ Nfs4Error.Memory) }
{
    let mut below = ArrayVec::<RawAce, N>::new();
    inherit(alloc, &mut below, folder, kind)?;
    write_dressed(alloc, below.as_slice(), mode, rule, out)
}

/// Puts the list of what is created in a folder with these entries in front of `out`, if it has
/// room for it, and else leaves `out` as it was: what it inherits (RFC 8881, section 6.4.3), with
/// its mode set on it, whatever the umask. The answer is how many entries it has; `None` if it
/// inherits nothing. Fails with `Argument` if the kind, the mode, the umask or the rule is out of
/// range, before all other faults, and with `TooMany` if the list would have more than 128 entries.
/// Memory runs out only if the folder's list, or the new one, has more than `INLINE_ACES` entries.
#[tactic(auto, unfolding(crate::specs::Creation::created_of))]
pub fn write_created(
    alloc: Global,
    folder: &[RawAce],
    making: &Making,
    out: &mut [RawAce],
) -> Result<Option<usize>, Nfs4Error>
    ensures value { PutsMade (created_of folder.now making.now) result out.old out.new }
    ensures short { length folder.now ≤ INLINE_ACES
        → IfOk (created_of folder.now making.now)
        (λ made. IfSome made (λ list. length list ≤ INLINE_ACES))
        → IfErr result (λ error. error ≢ Nfs4Error.Memory) }
{
    let kind = kind_of_number(making.kind)?;
    let mode = mode_of_number(making.mode)?;
    let _umask = mode_of_number(making.umask)?;
    let rule = rule_of_number(making.how)?;
    if folder.len() <= INLINE_ACES {
        write_within::<INLINE_ACES>(alloc, folder, kind, mode, rule, out)
    } else {
        write_within::<MAX_ACES>(alloc, folder, kind, mode, rule, out)
    }
}

/// The mode of what is created: without the umask's bits if it inherits nothing.
pub fn mode_made(making: &Making, inherits: bool) -> u32
    ensures yes { (list : List Raw) → inherits ≡ true
        → result ≡ mode_made making.now (Some list) }
    ensures no { inherits ≡ false → result ≡ mode_made making.now None }
{
    if inherits {
        making.mode
    } else {
        without_bits(making.mode, making.umask)
    }
}

/// The list that says what the mode says.
fn of_mode(alloc: Global, mode: Mode) -> Acl4
    ensures value { result ≡ with_mode [] mode }
    ensures few { length result ≤ 5 }
{
    let mut list = Acl4::empty(alloc);
    // It has room for all that a mode makes.
    let _set = list.chmod4(alloc, mode);
    list
}

/// Appends an entry that allows the bits. There is room for it.
fn push_allowed(list: &mut Acl4, who: Who, bits: u32)
    requires special { is_special who ≡ true }
    requires room { length list.old < INLINE_ACES }
    ensures { list.new ≡ list.old ++ ace_of Allow 0 who bits ∷ [] }
{
    let ace = Ace::new(
        AceType::Allow,
        Flags::empty(),
        who,
        Mask::from_bits_retain(bits),
    );
    // There is room for it, and it takes effect.
    let _pushed = list.push(ace);
}

/// The list of a mode (as RFC 8881, section 6.3.2, defines a list's mode), and if `attributes` is
/// set, what servers also check: `tTnNcCoy` for the owner, `tncy` for everybody. Fails with
/// `Argument` if the mode is above octal 777. It takes no memory.
#[tactic(auto, unfolding(crate::specs::Creation::aces_of_mode))]
pub fn acl4_of_mode(alloc: Global, mode: u32, attributes: bool) -> Result<Acl4, Nfs4Fault>
    ensures { result ≡ aces_of_mode mode attributes }
{
    let mode = mode_of_number(mode)?;
    let mut list = of_mode(alloc, mode);
    if attributes {
        push_allowed(&mut list, Who::Owner, OWNER_ATTRIBUTES);
        push_allowed(&mut list, Who::Everyone, ATTRIBUTES);
    }
    Ok(list)
}
