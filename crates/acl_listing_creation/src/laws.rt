//! Laws of the definitions of `next`.
ghost use Rattle.std.specs.Prelude.{List};
ghost use Rattle.acl_listings.specs.Listing.{Block};
ghost use Rattle.acl_tree.specs.declared.node_acl.NodeAcl.{NodeAcl};
ghost use Rattle.acl_listing_creation.specs.CreateLaws.{CreatesAlike};
ghost use Rattle.acl_listing_creation.specs.Next.{NextAsking};
ghost use Rattle.acl_listing_creation.specs.NextLaws.{SaysEachFolder, ReportsEachFolder};
ghost use Rattle.acl_listing_creation.specs.declared.creation.Creation.{Creation as CreationValue};

/// Each block of a listing that can be evaluated is printed unchanged, and after it what would be
/// created in it, if it is a folder's: one that shows it itself, or that the next block is below.
/// There is nothing to run here: a proof cites the contract.
pub fn each_folder_is_reported()
    ensures { (asking : NextAsking) (blocks : List Block) → ReportsEachFolder asking blocks }
{}

/// What is printed for the blocks of a listing is read again, by the names by which they are read:
/// as the files of those that can be evaluated, and after each folder what would be created in it.
/// It needs blocks without empty lines, as a listing's are, and created files whose lists have
/// entries and ids within their range. There is nothing to run here: a proof cites the contract.
pub fn what_is_reported_is_read_again()
    ensures { (asking : NextAsking) (blocks : List Block) → SaysEachFolder asking blocks }
{}

/// In a node with a folder's lists, `create` of the tree makes the very lists that are printed, or
/// is refused for the same; if nothing of an NFSv4 list is inherited, it must be called with the
/// mode without the umask's bits. There is nothing to run here: a proof cites the contract.
pub fn trees_create_alike()
    ensures { (creation : CreationValue) (acl : NodeAcl) → CreatesAlike creation acl }
{}
