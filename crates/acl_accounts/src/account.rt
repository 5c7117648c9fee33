//! Users by themselves.

ghost use Rattle.std.specs.Prelude.{◌≡◌};

use acl_names::{Gid, Uid};
use std::marker::Model;

/// A user: a name, a uid, and the gid of the user's primary group.
#[derive(Debug, Drop)]
pub struct Account {
    pub(crate) name: Vec<u8>,
    pub(crate) uid: Uid,
    pub(crate) gid: Gid,
}

impl Model for Account {
    ghost use Rattle.acl_accounts.specs.Accounts.{KnownAccount};

    ghost Value = { KnownAccount };

    ghost view = { λ inside. record {
      name = inside.name.items;
      uid = inside.uid;
      gid = inside.gid;
    } };
}

impl Account {
    /// The bytes of the user's name.
    pub fn name(&self) -> &[u8]
        ensures { result.now ≡ self.now.name }
    {
        self.name.as_slice()
    }

    /// The user's id.
    pub fn uid(&self) -> Uid
        ensures { result ≡ self.now.uid }
    {
        self.uid
    }

    /// The gid of the user's primary group.
    pub fn gid(&self) -> Gid
        ensures { result ≡ self.now.gid }
    {
        self.gid
    }
}
