//! The entries of a journal as they are kept.
use crate::Service;
use std::marker::Model;

/// An entry of a journal: the session, and what the service keeps of the item that was taken. A
/// contract sees the entry with the whole item.
#[derive(Drop)]
pub struct KeptEntry<S: Service> {
    session: u32,
    item: S::Kept,
}

impl<S: Service> Model for KeptEntry<S> {
    ghost use Rattle.acl_broker.specs.declared.steps.JournalEntry.{JournalEntry};

    ghost Value = { JournalEntry S.Request };

    ghost view = { λ entry. record { session = entry.session; item = S.request_of entry.item } };
}

impl<S: Service> KeptEntry<S> {
    ghost use Rattle.std.specs.Prelude.{◌≡◌};

    /// The entry of an item that was taken for a session.
    pub(crate) fn of(session: u32, item: S::Request) -> KeptEntry<S>
        ensures session { result.session ≡ session }
        ensures item { result.item ≡ item }
    {
        KeptEntry {
            session,
            item: S::keep(item),
        }
    }

    /// The number of the session.
    pub fn session(&self) -> u32
        ensures { result ≡ self.now.session }
    {
        self.session
    }

    /// What is kept of the item.
    pub fn kept(&self) -> &S::Kept
        ensures { S.request_of result.now ≡ self.now.item }
    {
        &self.item
    }

    /// What is kept of the item, without the session.
    pub fn into_kept(self) -> S::Kept
        ensures { S.request_of result ≡ self.item }
    {
        let KeptEntry { session: _, item } = self;
        item
    }
}
