//! Which kinds of entry a list has.

ghost use Rattle.std.specs.Prelude.{◌≡◌, not, ◌||◌, ◌&&◌};
ghost use Rattle.acl_posix.specs.Kinds.{kinds_of};

use crate::{Entry, Tag};

/// Which kinds of entry a list has.
#[derive(Clone, Copy)]
pub(crate) struct Kinds {
    pub user_obj: bool,
    pub named: bool,
    pub group_obj: bool,
    pub mask: bool,
    pub other: bool,
}

impl Kinds {
    ghost use Rattle.acl_posix.specs.Kinds.{with_tag};

    fn with_tag(self, tag: Tag) -> Kinds
        ensures { result ≡ with_tag self tag }
    {
        let rank = tag.rank();
        Kinds {
            user_obj: self.user_obj | (rank == 0),
            named: self.named | ((rank == 1) | (rank == 3)),
            group_obj: self.group_obj | (rank == 2),
            mask: self.mask | (rank == 4),
            other: self.other | (rank == 5),
        }
    }

    pub fn lack_required(self) -> bool
        ensures { result ≡ (not self.user_obj || not self.group_obj || not self.other) }
    {
        !self.user_obj || !self.group_obj || !self.other
    }

    pub fn lack_mask(self) -> bool
        ensures { result ≡ (self.named && not self.mask) }
    {
        self.named && !self.mask
    }
}

pub(crate) fn kinds_of(entries: &[Entry]) -> Kinds
    ensures { result ≡ kinds_of entries.now }
{
    let mut kinds = Kinds {
        user_obj: false,
        named: false,
        group_obj: false,
        mask: false,
        other: false,
    };
    for entry in entries {
        kinds = kinds.with_tag(entry.tag);
    }
    kinds
}
