//! The laws of what is answered, over the definitions alone.
ghost use Rattle.acl_tree_queries.specs.AccountsLaws.{UsersAskAlike};
ghost use Rattle.acl_tree_queries.specs.DraftLaws.{DraftDecidesAsChecks};
ghost use Rattle.acl_tree_queries.specs.DumpLaws.{DumpsMakeTheTreeAgain};
ghost use Rattle.acl_tree_queries.specs.ListLaws.{ListsAreInPreOrder, ListsHaveKnownWays};

/// What `dump` prints of a tree that sessions leave on the one that a setup opens makes that very
/// tree, as a session over the same setup: kinds, owners, groups, lists and umask. There is nothing
/// to run here: a proof cites the contract.
pub fn dump_laws()
    ensures again { DumpsMakeTheTreeAgain }
{}

/// Whoever has a name in a directory, and is asked about by accounts that are read of what
/// `accounts` prints of it, has the same uid and is in the same groups; who is in none is in 65534,
/// nobody's. There is nothing to run here: a proof cites the contract.
pub fn accounts_laws()
    ensures asked { UsersAskAlike }
{}

/// Of each block that `list` prints and that reads, `who --draft --perms` prints a line of a user
/// exactly if `check` in the tree grants that user the permissions at once; the user has the same
/// uid and the same groups as in the tree's directory. There is nothing to run here: a proof cites
/// the contract.
pub fn draft_laws()
    ensures checks { DraftDecidesAsChecks }
{}

/// What `list` prints of a tree that sessions leave on the one that a setup opens is in pre-order:
/// of the blocks behind a folder's none is that of a folder above it, and those of all that is in
/// the folder come first. And `who --reach` knows the way to each whose folders' blocks read. There
/// is nothing to run here: a proof cites the contract.
pub fn list_laws()
    ensures order { ListsAreInPreOrder }
    ensures ways { ListsHaveKnownWays }
{}
