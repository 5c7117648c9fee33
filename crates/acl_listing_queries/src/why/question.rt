//! What `why` evaluates for a file.

use acl_access::Rules;
use acl_names::Requester;
use acl_people::Host;
use acl_posix::Perms;

/// What is evaluated.
#[derive(Clone, Copy)]
pub(super) enum Sought {
    /// Whether all of these permissions are granted.
    Permissions(Perms),
    /// Whether the user may delete it.
    Deletion,
}

/// The users and groups whose names blocks have, the rules by which POSIX lists are evaluated, the
/// requester, and what is evaluated.
#[derive(Clone, Copy)]
pub(super) struct Question<'t> {
    pub host: &'t Host,
    pub rules: Rules,
    pub requester: &'t Requester,
    pub sought: Sought,
}
