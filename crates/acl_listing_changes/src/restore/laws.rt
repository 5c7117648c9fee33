//! Laws of what `restore` prints.
ghost use Rattle.acl_listing_changes.specs.RestoreLaws.{BringsBack, PrintsBlocks};

/// If each printed block replaces the one after, the listing after has the block before, byte for
/// byte, for every path of both listings: of the first block of each path, if neither is too long.
/// There is nothing to run here: a proof cites the contract.
pub fn restore_brings_back()
    ensures prints { PrintsBlocks }
    ensures back { BringsBack }
{}
