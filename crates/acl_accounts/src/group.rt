//! Groups by themselves.

ghost use Rattle.std.specs.Prelude.{◌≡◌};

use acl_names::Gid;
use std::marker::Model;

/// A group: a name and a gid.
#[derive(Debug, Drop)]
pub struct AccountGroup {
    pub(crate) name: Vec<u8>,
    pub(crate) gid: Gid,
}

impl Model for AccountGroup {
    ghost use Rattle.acl_accounts.specs.Accounts.{KnownAccountGroup};

    ghost Value = { KnownAccountGroup };

    ghost view = { λ inside. record { name = inside.name.items; gid = inside.gid } };
}

impl AccountGroup {
    /// The bytes of the group's name.
    pub fn name(&self) -> &[u8]
        ensures { result.now ≡ self.now.name }
    {
        self.name.as_slice()
    }

    /// The group's id.
    pub fn gid(&self) -> Gid
        ensures { result ≡ self.now.gid }
    {
        self.gid
    }
}
