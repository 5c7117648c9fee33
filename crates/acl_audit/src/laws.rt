//! Laws of what is reported about trees, about the definitions alone.
ghost use Rattle.acl_audit.specs.Checks.{AlikeNodesAreCheckedAlike, LetterIsChecked};
ghost use Rattle.acl_audit.specs.Dump.{DumpsMakeTheTree};
ghost use Rattle.acl_audit.specs.Quiet.{FilesNeverInherit};

/// A letter is reported for a user exactly if the tree's own check of it replies `granted`. If
/// commands leave a node the same for everybody, every user's checks of it have the same replies as
/// before. There is nothing to run here: a proof cites the contract.
pub fn check_laws()
    ensures read { LetterIsChecked 4 }
    ensures write { LetterIsChecked 2 }
    ensures execute { LetterIsChecked 1 }
    ensures alike { AlikeNodesAreCheckedAlike }
{}

/// Over the tree from which commands started, the dump of the tree that they made makes it again:
/// kinds, owners, groups, lists and umask. No file of such a tree has a list with inheritable
/// entries, so none is refused. There is nothing to run here: a proof cites the contract.
pub fn dump_laws()
    ensures again { DumpsMakeTheTree }
    ensures files { FilesNeverInherit }
{}
