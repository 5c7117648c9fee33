//! A resolver without names.

use acl_names::{Gid, NameFault, ResolveNames, Uid};

/// Resolves no names, where none are needed.
#[derive(Clone, Copy)]
pub(super) struct NoNames;

impl ResolveNames for NoNames {
    ghost use Rattle.acl_listing_changes.specs.Restoring.{no_names};

    ghost names = { λ _. no_names };

    fn uid_written(&self, _text: &[u8]) -> Result<Uid, NameFault> {
        Err(NameFault::Malformed)
    }

    fn gid_written(&self, _text: &[u8]) -> Result<Gid, NameFault> {
        Err(NameFault::Malformed)
    }

    fn uid_in_front<'t>(&self, _text: &'t [u8]) -> Option<(Uid, &'t [u8])> {
        None
    }

    fn gid_in_front<'t>(&self, _text: &'t [u8]) -> Option<(Gid, &'t [u8])> {
        None
    }
}
