//! A check in one pass over bytes whose entries stand in canonical order, as whoever writes lists
//! leaves them. Nothing is kept of an entry but what the check asks for.

ghost use Rattle.std.specs.Prelude.{◌≡◌, ◌==◌, ◌&&◌, true, false, IfSome, IsTrue, List, Ok, Some};
ghost use Rattle.std.specs.Prelude.{None, IsSome, if◌then◌else◌};
ghost use Rattle.std.specs.Option.{option_map_or};
ghost use Rattle.acl_names.specs.Bits.{has_all};
ghost use Rattle.acl_names.specs.Requester.{Identity};
ghost use Rattle.acl_posix.specs.Entry.{EntryValue};
ghost use Rattle.acl_posix.specs.Perms.{bits_of};
ghost use Rattle.acl_wire.specs.Check.{answer_in, answer_of};
ghost use Rattle.acl_wire.specs.OnePass.{IsSeen, after, after_read, goes_on, is_complete};
ghost use Rattle.acl_wire.specs.OnePass.{is_linux, joined, nothing_seen};
ghost use Rattle.acl_wire.specs.XattrReading.{entries_at, entries_of, entry_of};

use crate::Caller;
use crate::numbers::u32_at;
use crate::xattr_reading::{Fields, VERSION, fields_at};
use acl_access::Rules;
use acl_names::{Gid, Subject, Uid};
use acl_posix::{MAX_ENTRIES, Perms, Tag};
use bitflags::Flags;

/// What was seen of the entries so far. An answer is there if entries for whom it is for are.
#[derive(Clone, Copy)]
struct Seen {
    /// The least place in the order that the next entry may have.
    next: u64,
    /// What the owner's entry answers.
    owner: Option<bool>,
    /// What the entry of the user who asks answers, before the mask.
    user: Option<bool>,
    /// Whether the file's group has an entry.
    group_obj: bool,
    /// What the entries for the groups of who asks answer together, before the mask.
    groups: Option<bool>,
    /// Whether a user or a group is named.
    named: bool,
    /// The mask.
    mask: Option<Perms>,
    /// What the others' entry answers.
    other: Option<bool>,
}

/// What entries answer with a further one.
#[inline(always)]
fn joined(answer: Option<bool>, has: bool) -> Option<bool>
    ensures { result ≡ joined answer has }
{
    match answer {
        Some(true) => Some(true),
        _ => Some(has),
    }
}

impl Seen {
    /// Nothing yet.
    fn nothing() -> Seen
        ensures { result ≡ nothing_seen }
    {
        Seen {
            next: 0,
            owner: None,
            user: None,
            group_obj: false,
            groups: None,
            named: false,
            mask: None,
            other: None,
        }
    }

    /// Adds the owner's entry, and returns whether it may come after the others.
    #[inline(always)]
    fn add_owner(&mut self, caller: &Caller<'_>, group: Gid, request: Perms, perms: Perms) -> bool
        ensures { after (record { uid = caller.now.uid; gids = caller.now.gids.now }) group
            (bits_of request) self.old (record { tag = Tag.UserObj; perms = bits_of perms })
            ≡ (if result then Some self.new else None) }
    {
        if self.next > 0 {
            return false;
        }
        self.next = 1;
        self.owner = Some(perms.contains(request));
        true
    }

    /// Adds the entry of a user, and returns whether it may come after the others.
    #[inline(always)]
    fn add_user(
        &mut self,
        caller: &Caller<'_>,
        group: Gid,
        request: Perms,
        uid: Uid,
        perms: Perms,
    ) -> bool
        ensures { after (record { uid = caller.now.uid; gids = caller.now.gids.now }) group
            (bits_of request) self.old (record { tag = Tag.User uid; perms = bits_of perms })
            ≡ (if result then Some self.new else None) }
    {
        let place = 0x1_0000_0000 + u64::from(uid.value());
        if self.next > place {
            return false;
        }
        self.next = place + 1;
        self.named = true;
        if uid == caller.uid {
            self.user = Some(perms.contains(request));
        }
        true
    }

    /// Adds the entry of the file's group, and returns whether it may come after the others.
    #[inline(always)]
    fn add_file_group(
        &mut self,
        caller: &Caller<'_>,
        group: Gid,
        request: Perms,
        perms: Perms,
    ) -> bool
        ensures { after (record { uid = caller.now.uid; gids = caller.now.gids.now }) group
            (bits_of request) self.old (record { tag = Tag.GroupObj; perms = bits_of perms })
            ≡ (if result then Some self.new else None) }
    {
        if self.next > 0x2_0000_0000 {
            return false;
        }
        self.next = 0x2_0000_0001;
        self.group_obj = true;
        if caller.is_in_group(group) {
            self.groups = joined(self.groups, perms.contains(request));
        }
        true
    }

    /// Adds the entry of a group, and returns whether it may come after the others.
    #[inline(always)]
    fn add_group(
        &mut self,
        caller: &Caller<'_>,
        group: Gid,
        request: Perms,
        gid: Gid,
        perms: Perms,
    ) -> bool
        ensures { after (record { uid = caller.now.uid; gids = caller.now.gids.now }) group
            (bits_of request) self.old (record { tag = Tag.Group gid; perms = bits_of perms })
            ≡ (if result then Some self.new else None) }
    {
        let place = 0x3_0000_0000 + u64::from(gid.value());
        if self.next > place {
            return false;
        }
        self.next = place + 1;
        self.named = true;
        if caller.is_in_group(gid) {
            self.groups = joined(self.groups, perms.contains(request));
        }
        true
    }

    /// Adds the mask, and returns whether it may come after the others.
    #[inline(always)]
    fn add_mask(&mut self, caller: &Caller<'_>, group: Gid, request: Perms, perms: Perms) -> bool
        ensures { after (record { uid = caller.now.uid; gids = caller.now.gids.now }) group
            (bits_of request) self.old (record { tag = Tag.Mask; perms = bits_of perms })
            ≡ (if result then Some self.new else None) }
    {
        if self.next > 0x4_0000_0000 {
            return false;
        }
        self.next = 0x4_0000_0001;
        self.mask = Some(perms);
        true
    }

    /// Adds the others' entry, and returns whether it may come after the others.
    #[inline(always)]
    fn add_others(&mut self, caller: &Caller<'_>, group: Gid, request: Perms, perms: Perms) -> bool
        ensures { after (record { uid = caller.now.uid; gids = caller.now.gids.now }) group
            (bits_of request) self.old (record { tag = Tag.Other; perms = bits_of perms })
            ≡ (if result then Some self.new else None) }
    {
        if self.next > 0x5_0000_0000 {
            return false;
        }
        self.next = 0x5_0000_0001;
        self.other = Some(perms.contains(request));
        true
    }

    /// Adds the entry of these fields, and reports whether they are one, and it may stand there.
    #[inline(always)]
    #[tactic(auto, unfolding(crate::specs::XattrReading::entry_of))]
    fn add_fields(
        &mut self,
        caller: &Caller<'_>,
        group: Gid,
        request: Perms,
        fields: Fields,
    ) -> bool
        ensures { after_read (record { uid = caller.now.uid; gids = caller.now.gids.now }) group
            (bits_of request) self.old (entry_of fields)
            ≡ (if result then Some self.new else None) }
    {
        if fields.perms >= 8 {
            return false;
        }
        let perms = Perms::from_bits_retain(fields.perms as u8);
        match fields.tag {
            0x01 => self.add_owner(caller, group, request, perms),
            0x02 => match Uid::new(fields.id) {
                Some(uid) => self.add_user(caller, group, request, uid, perms),
                None => false,
            },
            0x04 => self.add_file_group(caller, group, request, perms),
            0x08 => match Gid::new(fields.id) {
                Some(gid) => self.add_group(caller, group, request, gid, perms),
                None => false,
            },
            0x10 => self.add_mask(caller, group, request, perms),
            0x20 => self.add_others(caller, group, request, perms),
            _ => false,
        }
    }

    /// Whether the mask, if there is one, has all of the request.
    fn mask_allows(self, request: Perms) -> bool
        ensures { result
            ≡ option_map_or (λ mask. has_all (bits_of mask) (bits_of request)) self.mask true }
    {
        match self.mask {
            Some(mask) => mask.contains(request),
            None => true,
        }
    }

    /// Whether a list with this mask is passed over.
    fn is_passed_over(self, rules: Rules) -> bool
        ensures { result
            ≡ (is_linux rules && option_map_or (λ mask. bits_of mask == 0) self.mask false) }
    {
        match (rules, self.mask) {
            (Rules::Linux, Some(mask)) => mask.is_empty(),
            _ => false,
        }
    }

    /// Whether entries, of which this was seen, are a list.
    fn is_list(self) -> bool
        ensures { result ≡ is_complete self }
    {
        self.owner.is_some()
            && self.group_obj
            && self.other.is_some()
            && (!self.named || self.mask.is_some())
    }

    /// What the list that was seen answers.
    fn answer(
        self,
        rules: Rules,
        owner: Uid,
        group: Gid,
        caller: &Caller<'_>,
        request: Perms,
    ) -> bool
        ensures { let who : Identity
            = record { uid = caller.now.uid; gids = caller.now.gids.now } in
            (entries : List EntryValue) → IsSeen who group (bits_of request) entries self
            → IsTrue (is_complete self)
            → answer_of rules entries owner group who (bits_of request) ≡ Ok result }
    {
        if caller.uid == owner {
            return self.owner.unwrap_or(false);
        }
        if self.is_passed_over(rules) {
            if caller.is_in_group(group) {
                return Perms::empty().contains(request);
            }
            return self.other.unwrap_or(false);
        }
        if let Some(has) = self.user {
            return has && self.mask_allows(request);
        }
        match self.groups {
            Some(has) => has && self.mask_allows(request),
            None => self.other.unwrap_or(false),
        }
    }
}

/// What was seen of so many entries, if they stand in order.
fn seen_at(
    count: usize,
    bytes: &[u8],
    caller: &Caller<'_>,
    group: Gid,
    request: Perms,
) -> Option<Seen>
    ensures { result ≡ goes_on (record { uid = caller.now.uid; gids = caller.now.gids.now }) group
        (bits_of request) nothing_seen (entries_at count bytes.now) }
{
    let mut seen = Seen::nothing();
    let mut rest = bytes;
    for _ in 0..count {
        let Ok((fields, behind)) = fields_at(rest) else {
            return None;
        };
        if !seen.add_fields(caller, group, request, fields) {
            return None;
        }
        rest = behind;
    }
    Some(seen)
}

/// What was seen of the entries behind the version.
#[tactic(auto, unfolding(crate::specs::XattrReading::entries_of))]
fn seen_in(bytes: &[u8], caller: &Caller<'_>, group: Gid, request: Perms) -> Option<Seen>
    ensures { result ≡ goes_on (record { uid = caller.now.uid; gids = caller.now.gids.now }) group
        (bits_of request) nothing_seen (entries_of bytes.now) }
{
    let Ok((number, rest)) = u32_at(bytes) else {
        return None;
    };
    if number != VERSION {
        return None;
    }
    if rest.len() % 8 != 0 || rest.len() / 8 > MAX_ENTRIES {
        return None;
    }
    seen_at(rest.len() / 8, rest, caller, group, request)
}

/// Whether the list of the bytes grants the request, if they have its entries in canonical order.
/// Else it declines.
pub(crate) fn in_order_grants(
    rules: Rules,
    bytes: &[u8],
    owner: Uid,
    group: Gid,
    caller: &Caller<'_>,
    request: Perms,
) -> Option<bool>
    ensures answer { IfSome result (λ granted. answer_in rules bytes.now owner group
        (record { uid = caller.now.uid; gids = caller.now.gids.now }) (bits_of request)
        ≡ Ok granted) }
    ensures answers { IfSome (goes_on
        (record { uid = caller.now.uid; gids = caller.now.gids.now }) group (bits_of request)
        nothing_seen (entries_of bytes.now)) (λ seen. IsTrue (is_complete seen) → IsSome result) }
{
    let seen = seen_in(bytes, caller, group, request)?;
    if seen.is_list() {
        Some(seen.answer(rules, owner, group, caller, request))
    } else {
        None
    }
}
