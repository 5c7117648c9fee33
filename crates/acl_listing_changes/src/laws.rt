//! The law that relates `compare` to `impact`, about the definitions alone.
ghost use Rattle.acl_listing_changes.specs.AlikeLaws.{AlikeListsAreAlikeFiles};
ghost use Rattle.acl_listing_changes.specs.AlikeLaws.{DifferencesAreChanges};

/// Lists are alike to `compare` exactly if files with the same owner and group that have them are
/// alike to `impact`; and what `compare` reports is a change that its requester has between these
/// files. There is nothing to run here: a proof cites the contract.
pub fn alike_laws()
    ensures alike { AlikeListsAreAlikeFiles }
    ensures changes { DifferencesAreChanges }
{}
