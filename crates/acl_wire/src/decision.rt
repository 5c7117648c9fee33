//! Decisions by entries of numbers in the caller's memory: no list is made of them.

ghost use Rattle.std.specs.Prelude.{◌≡◌};
ghost use Rattle.acl_names.specs.Requester.{Identity};
ghost use Rattle.acl_nfs4.specs.Who.{matches};
ghost use Rattle.acl_wire.specs.Decision.{AllowsOf, GrantsOf, SaysOf, decided_by, deciding};
ghost use Rattle.acl_wire.specs.DecisionSteps.{goes_on, with_ace, with_word};

use crate::numbers::without_bits;
use crate::raw_ace::{is_request, value_of};
use crate::{Caller, Nfs4Fault, RawAce};
use acl_names::{Gid, Subject, Uid};
use acl_nfs4::{Ace, AceType};
use bitflags::Flags as FlagSet;

/// Which bits of a request entries allow and deny. No entry has a bit that is in neither.
#[repr(C)]
#[derive(Clone, Copy, Debug, PartialEq, Eq)]
pub struct Decided {
    /// The bits that they allow.
    pub allowed: u32,
    /// The bits that they deny.
    pub denied: u32,
}

/// What was found of the bits of a request so far.
#[derive(Clone, Copy)]
pub(crate) struct Found {
    /// The bits that are allowed.
    pub(crate) allowed: u32,
    /// The bits of which no entry has spoken.
    pub(crate) left: u32,
}

impl Found {
    /// What is found with what an entry says.
    #[inline(always)]
    pub(crate) fn with_word(self, ace: &Ace) -> Found
        ensures { result ≡ with_word self ace.now }
    {
        let allowed = match ace.kind() {
            AceType::Allow => self.allowed | (self.left & ace.mask().bits()),
            _ => self.allowed,
        };
        Found {
            allowed,
            left: without_bits(self.left, ace.mask().bits()),
        }
    }

    /// What is found with an entry more. Whom it is about is looked at only if it has a bit that is
    /// open.
    #[inline(always)]
    #[tactic(auto, unfolding(crate::specs::DecisionSteps::with_ace))]
    fn with_ace<S: Subject>(self, ace: &Ace, owner: Uid, group: Gid, subject: &S) -> Found
        ensures { result ≡ with_ace (matches owner group (S.identity subject.now)) self ace.now }
    {
        let reported = self.left & ace.mask().bits();
        if reported == 0 || !ace.concerns(owner, group, subject) {
            return self;
        }
        self.with_word(ace)
    }
}

/// What is found of the bits of a request.
pub(crate) fn found_in<S: Subject>(
    raws: &[RawAce],
    owner: Uid,
    group: Gid,
    subject: &S,
    request: u32,
) -> Result<Found, Nfs4Fault>
    ensures { result ≡ goes_on (matches owner group (S.identity subject.now))
        (record { allowed = 0; left = request }) raws.now }
{
    let mut found = Found {
        allowed: 0,
        left: request,
    };
    for raw in raws {
        if found.left == 0 {
            return Ok(found);
        }
        let ace = value_of(raw)?;
        found = found.with_ace(&ace, owner, group, subject);
    }
    Ok(found)
}

/// What the entries say of the bits of a request.
#[inline(always)]
fn decide(
    raws: &[RawAce],
    owner: Uid,
    group: Gid,
    caller: &Caller<'_>,
    request: u32,
) -> Result<Decided, Nfs4Fault>
    ensures { let who : Identity
        = record { uid = caller.now.uid; gids = caller.now.gids.now } in
        SaysOf (deciding (matches owner group who) raws.now request) owner group who request result }
{
    let found = found_in(raws, owner, group, caller, request)?;
    Ok(Decided {
        allowed: found.allowed,
        denied: without_bits(without_bits(request, found.allowed), found.left),
    })
}

/// Which bits of a request the entries allow and deny a user in these groups, for a file of this
/// owner and this group (RFC 8881, section 6.2.1): the first entry that applies to the user and has
/// a bit decides it. Fails with `Argument` if an id is out of range or the request has a bit of
/// retention, before all other faults.
///
/// It reads the entries once, however many there are, until every bit is decided, and takes no
/// memory. An inherit-only entry decides nothing. An entry with malformed numbers is a fault if it
/// is reached.
#[inline(always)]
#[tactic(auto, unfolding(crate::specs::Decision::decided_by))]
pub fn raws_decide(
    raws: &[RawAce],
    owner: u32,
    group: u32,
    uid: u32,
    gids: &[u32],
    request: u32,
) -> Result<Decided, Nfs4Fault>
    ensures { let who : Identity = record { uid = uid; gids = gids.now } in
        SaysOf (decided_by raws.now owner group who request) owner group who request result }
{
    let (Some(owner), Some(group), Some(uid)) = (Uid::new(owner), Gid::new(group), Uid::new(uid))
    else {
        return Err(Nfs4Fault::Argument);
    };
    if is_request(request) {
        decide(raws, owner, group, &Caller { uid, gids }, request)
    } else {
        Err(Nfs4Fault::Argument)
    }
}

/// The bits of a request that the entries allow, as `raws_decide` decides them: each exactly if it
/// would be granted alone. Fails as `raws_decide` does.
#[inline(always)]
pub fn raws_allow(
    raws: &[RawAce],
    owner: u32,
    group: u32,
    uid: u32,
    gids: &[u32],
    request: u32,
) -> Result<u32, Nfs4Fault>
    ensures { let who : Identity = record { uid = uid; gids = gids.now } in
        AllowsOf (decided_by raws.now owner group who request) owner group who request result }
{
    match raws_decide(raws, owner, group, uid, gids, request) {
        Ok(decided) => Ok(decided.allowed),
        Err(fault) => Err(fault),
    }
}

/// Whether the entries grant all of the request, as `raws_decide` decides its bits. The empty
/// request is granted.
#[inline(always)]
pub fn raws_grant(
    raws: &[RawAce],
    owner: u32,
    group: u32,
    uid: u32,
    gids: &[u32],
    request: u32,
) -> Result<bool, Nfs4Fault>
    ensures { let who : Identity = record { uid = uid; gids = gids.now } in
        GrantsOf (decided_by raws.now owner group who request) owner group who request result }
{
    match raws_allow(raws, owner, group, uid, gids, request) {
        Ok(allowed) => Ok(allowed == request),
        Err(fault) => Err(fault),
    }
}
