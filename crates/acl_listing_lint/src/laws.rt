//! What findings have to do with who may delete, and with what is created.
ghost use Rattle.acl_listing_lint.specs.Deletions.{AnybodyDeletes};
ghost use Rattle.acl_listing_lint.specs.FromDefault.{CreationIsBounded, CreationIsSilent};

/// Whoever neither owns a folder nor is named by an entry may search it and delete what others own
/// there, by the rules of `who --delete`, exactly if anybody may.
pub fn anybody_deletes()
    ensures { AnybodyDeletes }
{}

/// Nobody whom the list names that a file gets at its creation, by its folder's default list and
/// whatever mode, is found to be granted otherwise; and whoever isn't found so is granted no more
/// than by the default list.
pub fn creation_laws()
    ensures silent { CreationIsSilent }
    ensures bounded { CreationIsBounded }
{}
