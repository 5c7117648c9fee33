//! Setting the mode of a list (RFC 8881, section 6.4.1.1).
ghost use Rattle.std.specs.Prelude.{◌≡◌, ◌<◌, ◌≤◌, ◌↔◌, ◌++◌, false, length, Err, OnOk, OnErr};
ghost use Rattle.std.specs.Prelude.{IfOk, IsOk};
ghost use Rattle.std.specs.List.{list_any};
ghost use Rattle.acl_names.specs.Bits.{◌∩◌};
ghost use Rattle.acl_posix.specs.Mode.{AreClasses};
ghost use Rattle.acl_posix.specs.Perms.{bits_of};
ghost use Rattle.acl_nfs4.specs.Ace.{is_idle};
ghost use Rattle.acl_nfs4.specs.Acl.{HaveEffect, IsTooLong};
ghost use Rattle.acl_nfs4.specs.Marks.{IsMarked};
ghost use Rattle.acl_nfs4.specs.Mask.{all_masks, mask_bits, rest_of};
ghost use Rattle.acl_nfs4.specs.Evaluation.{mode_of};
ghost use Rattle.acl_nfs4.specs.ModeChange.{kept_mask, kept_of_entry, kept_of_list, names};
ghost use Rattle.acl_nfs4.specs.ModeChange.{names_someone};
ghost use Rattle.acl_nfs4.specs.ModeChange.{denies_by_name, denied_to, denial_of, denials};
ghost use Rattle.acl_nfs4.specs.ModeChange.{beyond_group, for_owner, for_others, with_denials};
ghost use Rattle.acl_nfs4.specs.ModeChange.{with_mode, with_mode_least, without_denials};
ghost use Rattle.acl_nfs4.specs.ModeChangeLaws.{DecideEachAlike, GrantsOwner, GrantsGroup};
ghost use Rattle.acl_nfs4.specs.ModeChangeLaws.{GrantsOthers};
ghost use Rattle.acl_nfs4.specs.ModeChangeLaws.{LimitsNamed, KeepsAudits, KeepsInheritOnly};
ghost use Rattle.acl_nfs4.specs.ModeChangeLaws.{InheritsAlike};

use crate::draft::{Draft, Full};
use crate::limits::{INLINE_ACES, MAX_ACES};
use crate::marks::{MARKS, mark_of};
use crate::mask::{mask_of, rest_of};
use crate::{Ace, AceType, Acl4, Flags, Mask, Who};
use acl_posix::{Mode, Perms, without};
use bitflags::Flags as FlagSet;
use std::alloc::Global;

/// Why a mode wasn't set.
#[derive(Clone, Copy, Debug, PartialEq, Eq)]
pub enum Fault4 {
    /// The list would have more than 128 entries.
    TooMany,
    /// Memory ran out.
    Memory,
}

impl Ace {
    ghost use Rattle.std.specs.Prelude.{true, ◌^◌};
    ghost use Rattle.acl_names.specs.Bits.{without, ◌∪◌};
    ghost use Rattle.acl_nfs4.specs.Ace.{IsAce, is_inheritable};
    ghost use Rattle.acl_nfs4.specs.Flags.{inherit_only, inheritance_flags};

    /// The part of the mask that an allowing or denying entry keeps, under a mode with this group.
    #[tactic(auto, unfolding(crate::specs::ModeChange::kept_mask))]
    fn kept_mask(&self, group: Perms) -> Mask
        ensures value { mask_bits result ≡ kept_mask (bits_of group) self.now }
        ensures ace { IsAce self.now }
    {
        if self.who().is_special() {
            without(self.mask(), Mask::OF_MODE)
        } else if self.kind().is_allow() {
            without(self.mask(), rest_of(group))
        } else {
            self.mask()
        }
    }

    /// The entry with the part of its mask that it keeps.
    fn with_kept_mask(&self, group: Perms) -> Ace
        ensures { result ≡ record self.now { mask = kept_mask (bits_of group) self.now } }
    {
        self.with_mask(self.kept_mask(group))
    }

    /// The part of the entry that is only inherited.
    fn inherited_part(&self) -> Ace
        requires { is_inheritable self.now ≡ true }
        ensures value { result ≡ record self.now { flags = self.now.flags ∪ 2 ^ inherit_only } }
        ensures effective { is_idle result ≡ false }
    {
        self.with_flags(self.flags().union(Flags::INHERIT_ONLY))
    }

    /// The part of the entry that has an effect on the file itself.
    fn effective_part(&self, group: Perms) -> Ace
        ensures value { result ≡ record self.now {
          flags = without self.now.flags inheritance_flags;
          mask = kept_mask (bits_of group) self.now;
        } }
        ensures effective { is_idle result ≡ false }
    {
        self.with_kept_mask(group)
            .with_flags(self.flags().without_inheritance())
    }

    /// Whether the entry allows or denies a user or group by id something.
    fn names_someone(&self) -> bool
        ensures { result ≡ names_someone self.now }
    {
        self.decides() && !self.who().is_special()
    }

    /// Whether the entry allows or denies this user or group by id something.
    fn names(&self, who: &Who) -> bool
        ensures { result ≡ names who.now self.now }
    {
        self.names_someone() && self.who().is(who)
    }

    /// Whether the entry denies this user or group by id something.
    fn denies(&self, who: &Who) -> bool
        ensures { result ≡ denies_by_name who.now self.now }
    {
        self.decides() && self.kind().is_deny() && self.who().is(who)
    }
}

/// The entries in front: the owner is allowed what the mode's user has, and denied the mode's other
/// bits.
fn push_owner<const N: usize>(draft: &mut Draft<N>, user: Perms) -> Result<(), Full>
    ensures ok { OnOk result (draft.new ≡ draft.old ++ for_owner (bits_of user)) }
    ensures full { OnErr result (IsTooLong N (draft.old ++ for_owner (bits_of user))) }
{
    draft.push_plain(AceType::Allow, Who::Owner, mask_of(user))?;
    draft.push_plain(AceType::Deny, Who::Owner, rest_of(user))
}

/// The entries at the end: the same for the group, and everyone is allowed what the mode's others
/// have.
fn push_others<const N: usize>(draft: &mut Draft<N>, group: Perms, other: Perms) -> Result<(), Full>
    ensures ok { OnOk result (draft.new ≡ draft.old ++ for_others (bits_of group) (bits_of other)) }
    ensures full { OnErr result (IsTooLong N (draft.old
        ++ for_others (bits_of group) (bits_of other))) }
{
    draft.push_plain(AceType::Allow, Who::Group, mask_of(group))?;
    draft.push_plain(AceType::Deny, Who::Group, rest_of(group))?;
    draft.push_plain(AceType::Allow, Who::Everyone, mask_of(other))
}

/// Appends what is left of an entry: one that doesn't allow or deny stays; one that is inherited
/// too becomes two, of which one is inherit-only; and what takes effect here loses the mode's bits.
fn push_kept_of<const N: usize>(draft: &mut Draft<N>, ace: &Ace, group: Perms) -> Result<(), Full>
    requires { is_idle ace.now ≡ false }
    ensures ok { OnOk result (draft.new ≡ draft.old ++ kept_of_entry (bits_of group) ace.now) }
    ensures full { OnErr result (IsTooLong N (draft.old ++ kept_of_entry (bits_of group) ace.now)) }
{
    if !ace.decides() {
        return draft.push(*ace);
    }
    if ace.is_inheritable() {
        draft.push(ace.inherited_part())?;
        return draft.push_unless_empty(ace.effective_part(group));
    }
    draft.push_unless_empty(ace.with_kept_mask(group))
}

/// Appends what is left of the old entries.
fn push_kept<const N: usize>(draft: &mut Draft<N>, aces: &[Ace], group: Perms) -> Result<(), Full>
    requires { HaveEffect aces.now }
    ensures ok { OnOk result (draft.new ≡ draft.old ++ kept_of_list (bits_of group) aces.now) }
    ensures full { OnErr result (IsTooLong N (draft.old ++ kept_of_list (bits_of group) aces.now)) }
{
    for ace in aces {
        push_kept_of(draft, ace, group)?;
    }
    Ok(())
}

/// Whether an entry allows or denies this user or group by id something.
fn any_names(aces: &[Ace], who: &Who) -> bool
    ensures { result ≡ list_any (names who.now) aces.now }
{
    aces.iter().any(|ace| ace.names(who))
}

/// The bits that the entries deny this user or group by id.
fn denied_to(aces: &[Ace], who: &Who) -> Mask
    ensures { mask_bits result ≡ denied_to who.now aces.now }
{
    let mut denied = Mask::empty();
    for ace in aces {
        if ace.denies(who) {
            denied = denied.union(ace.mask());
        }
    }
    denied
}

/// Like `any_names`, and fast if no entry with an id has the mark of this one.
fn any_marked_names(aces: &[Ace], named: &[bool; MARKS], who: &Who) -> bool
    requires { IsMarked names named.now aces.now }
    ensures { result ≡ list_any (names who.now) aces.now }
{
    named[mark_of(who)] && any_names(aces, who)
}

/// The marks of the users and groups to whom the entries deny something by id.
fn marks_of_denied(aces: &[Ace]) -> [bool; MARKS]
    ensures { IsMarked denies_by_name result aces.now }
{
    let mut denied = [false; MARKS];
    for ace in aces {
        if ace.kind().is_deny() {
            denied[mark_of(&ace.who())] = true;
        }
    }
    denied
}

/// Like `denied_to`, and fast if no denial has the mark of this user or group.
fn marked_denied_to(aces: &[Ace], denied: &[bool; MARKS], who: &Who) -> Mask
    requires { IsMarked denies_by_name denied.now aces.now }
    ensures { mask_bits result ≡ denied_to who.now aces.now }
{
    if denied[mark_of(who)] {
        denied_to(aces, who)
    } else {
        Mask::empty()
    }
}

/// Appends a denial of those of the bits that the old entries don't deny this user or group by id.
fn push_denial<const N: usize>(
    draft: &mut Draft<N>,
    aces: &[Ace],
    denied: &[bool; MARKS],
    bits: Mask,
    who: Who,
) -> Result<(), Full>
    requires marked { IsMarked denies_by_name denied.now aces.now }
    requires known { mask_bits bits ∩ all_masks ≡ mask_bits bits }
    ensures ok { OnOk result (draft.new ≡ draft.old ++ denial_of (mask_bits bits) aces.now who) }
    ensures full { OnErr result (IsTooLong N (draft.old ++ denial_of (mask_bits bits) aces.now who)) }
{
    let denied = marked_denied_to(aces, denied, &who);
    draft.push_plain(AceType::Deny, who, without(bits, denied))
}

/// Appends a denial for each user and group that the old entries name by id, in the order of its
/// first entry.
///
/// For an entry whose mark has occurred before, this reads the entries before it, and for each user
/// or group whose mark is among the denied, all entries. The list has at most 128; sorting them and
/// restoring the order would cost a second list.
fn push_denials<const N: usize>(draft: &mut Draft<N>, aces: &[Ace], bits: Mask) -> Result<(), Full>
    requires { mask_bits bits ∩ all_masks ≡ mask_bits bits }
    ensures ok { OnOk result (draft.new ≡ draft.old ++ denials (mask_bits bits) aces.now) }
    ensures full { OnErr result (IsTooLong N (draft.old ++ denials (mask_bits bits) aces.now)) }
{
    let denied = marks_of_denied(aces);
    let mut named = [false; MARKS];
    for place in 0..aces.len() {
        let ace = &aces[place];
        if ace.names_someone() && !any_marked_names(&aces[..place], &named, &ace.who()) {
            push_denial(draft, aces, &denied, bits, ace.who())?;
        }
        named[mark_of(&ace.who())] = true;
    }
    Ok(())
}

/// The entries with the mode set, and with these bits denied to those whom they name by id.
fn with_denials<const N: usize>(
    alloc: Global,
    aces: &[Ace],
    mode: Mode,
    bits: Mask,
) -> Result<Draft<N>, Full>
    requires effective { HaveEffect aces.now }
    requires places { N ≤ MAX_ACES }
    requires known { mask_bits bits ∩ all_masks ≡ mask_bits bits }
    ensures ok { IfOk result (λ draft. draft ≡ with_denials (mask_bits bits) aces.now mode) }
    ensures within { IfOk result (λ draft. length draft ≤ MAX_ACES) }
    ensures full { OnErr result (IsTooLong N (with_denials (mask_bits bits) aces.now mode)) }
{
    let mut draft = Draft::new(alloc);
    push_owner(&mut draft, mode.user)?;
    push_kept(&mut draft, aces, mode.group)?;
    push_denials(&mut draft, aces, bits)?;
    push_others(&mut draft, mode.group, mode.other)?;
    draft.length_is_within_limit();
    Ok(draft)
}

/// Why the mode wasn't set: the list would have too many entries, or else memory ran out. To find
/// out, it makes the list again without taking memory.
#[cold]
#[inline(never)]
fn why_refused(alloc: Global, aces: &[Ace], mode: Mode, bits: Mask) -> Fault4
    requires effective { HaveEffect aces.now }
    requires known { mask_bits bits ∩ all_masks ≡ mask_bits bits }
    ensures { (result ≡ Fault4.TooMany)
        ↔ (MAX_ACES < length (with_denials (mask_bits bits) aces.now mode)) }
{
    match with_denials::<MAX_ACES>(alloc, aces, mode, bits) {
        Ok(_) => Fault4::Memory,
        Err(_) => Fault4::TooMany,
    }
}

/// The bits that the mode's group lacks.
fn lacking(mode: Mode) -> Mask
    ensures value { mask_bits result ≡ rest_of mode.group }
    ensures known { mask_bits result ∩ all_masks ≡ mask_bits result }
    ensures classes { AreClasses mode }
{
    rest_of(mode.group)
}

/// The bits that the mode's others have and its group lacks.
fn beyond_group(mode: Mode) -> Mask
    ensures value { mask_bits result ≡ beyond_group mode }
    ensures known { mask_bits result ∩ all_masks ≡ mask_bits result }
    ensures classes { AreClasses mode }
{
    without(mask_of(mode.other), mask_of(mode.group))
}

impl Acl4 {
    /// Sets the mode and keeps what the administrator wrote (within RFC 8881, section 6.4.1.1).
    ///
    /// Entries for the owner are put in front of the old ones, and those for the group and everyone
    /// at the end; the old entries that allow or deny lose the bits of the mode that they may not
    /// grant. Users and groups that an entry names are granted no more than the mode's group. An
    /// entry that is also inherited is split, so that what is inherited stays as it was. Audit and
    /// alarm entries and inherit-only entries stay. `docs/PROFILE.md` has the steps.
    ///
    /// Fails with `TooMany` exactly if the list would have more than 128 entries, and else with
    /// `Memory` if memory runs out; then the list stays as it was.
    pub fn chmod4(&mut self, alloc: Global, mode: Mode) -> Result<(), Fault4>
        ensures ok { OnOk result (self.new ≡ with_mode self.old mode) }
        ensures too_many { (result ≡ Err Fault4.TooMany)
            ↔ (MAX_ACES < length (with_mode self.old mode)) }
        ensures err { OnErr result (self.new ≡ self.old) }
        ensures short { length (with_mode self.old mode) ≤ INLINE_ACES → IsOk result }

        // `mode4` returns the mode that was set.
        ensures shown { OnOk result (mode_of self.new ≡ mode) }

        // Of the mode's bits the owner is granted the user's, and a requester whom no entry names
        // is granted the group's or the others'; one whom an entry names is granted none that the
        // group lacks.
        ensures owner_granted { OnOk result (GrantsOwner self.new mode) }
        ensures group_granted { OnOk result (GrantsGroup self.old self.new mode) }
        ensures others_granted { OnOk result (GrantsOthers self.old self.new mode) }
        ensures named_limited { OnOk result (LimitsNamed self.old self.new mode) }

        // What the mode doesn't control stays.
        ensures audits_kept { OnOk result (KeepsAudits self.old self.new) }
        ensures inherit_only_kept { OnOk result (KeepsInheritOnly self.old self.new) }
        ensures inherits_alike { OnOk result (InheritsAlike self.old self.new) }

        // To set the mode again changes nothing.
        ensures again { OnOk result (with_mode self.new mode ≡ self.new) }
    {
        match self.set_mode(alloc, mode, lacking(mode)) {
            Ok(()) => Ok(()),
            Err(fault) => Err(fault),
        }
    }

    /// Sets the mode as `chmod4` does, but denies those whom entries name no more than necessary:
    /// what the mode's others have and its group lacks, which is mostly nothing. The list grants
    /// every requester what the list of `chmod4` grants. But a mode that is set later gives those
    /// whom entries name what it gives everyone, where `chmod4` leaves them denied.
    ///
    /// Fails as `chmod4` does.
    pub fn chmod4_least(&mut self, alloc: Global, mode: Mode) -> Result<(), Fault4>
        ensures ok { OnOk result (self.new ≡ with_mode_least self.old mode) }
        ensures too_many { (result ≡ Err Fault4.TooMany)
            ↔ (MAX_ACES < length (with_mode_least self.old mode)) }
        ensures err { OnErr result (self.new ≡ self.old) }
        ensures short { length (with_mode_least self.old mode) ≤ INLINE_ACES → IsOk result }

        // Each bit is granted to a requester exactly if the list of `chmod4` grants it.
        ensures alike { OnOk result (DecideEachAlike self.new (with_mode self.old mode)) }

        // If the mode's others have no more than its group, nobody is denied anything by name.
        ensures undenied { OnOk result (beyond_group mode ≡ 0
            → self.new ≡ without_denials self.old mode) }

        // `mode4` returns the mode that was set, and requesters are granted what they are there.
        ensures shown { OnOk result (mode_of self.new ≡ mode) }
        ensures owner_granted { OnOk result (GrantsOwner self.new mode) }
        ensures group_granted { OnOk result (GrantsGroup self.old self.new mode) }
        ensures others_granted { OnOk result (GrantsOthers self.old self.new mode) }
        ensures named_limited { OnOk result (LimitsNamed self.old self.new mode) }

        // What the mode doesn't control stays.
        ensures audits_kept { OnOk result (KeepsAudits self.old self.new) }
        ensures inherit_only_kept { OnOk result (KeepsInheritOnly self.old self.new) }
        ensures inherits_alike { OnOk result (InheritsAlike self.old self.new) }

        // To set the mode again changes nothing.
        ensures again { OnOk result (with_mode_least self.new mode ≡ self.new) }
    {
        match self.set_mode(alloc, mode, beyond_group(mode)) {
            Ok(()) => Ok(()),
            Err(fault) => Err(fault),
        }
    }

    /// Sets the mode, and denies these bits to those whom the list names by id.
    fn set_mode(&mut self, alloc: Global, mode: Mode, bits: Mask) -> Result<(), Fault4>
        requires { mask_bits bits ∩ all_masks ≡ mask_bits bits }
        ensures ok { OnOk result (self.new ≡ with_denials (mask_bits bits) self.old mode) }
        ensures too_many { (result ≡ Err Fault4.TooMany)
            ↔ (MAX_ACES < length (with_denials (mask_bits bits) self.old mode)) }
        ensures err { OnErr result (self.new ≡ self.old) }
        ensures short { length (with_denials (mask_bits bits) self.old mode) ≤ INLINE_ACES
            → IsOk result }
    {
        match with_denials::<INLINE_ACES>(alloc, self.aces(), mode, bits) {
            Ok(draft) => {
                *self = draft.into_acl();
                Ok(())
            }
            Err(_) => Err(why_refused(alloc, self.aces(), mode, bits)),
        }
    }
}
