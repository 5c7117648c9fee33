//! The laws of what is reported by reach, over the definitions alone.
ghost use Rattle.acl_listing_reach.specs.ReachLaws.{LettersAreThoseOfWho};
ghost use Rattle.acl_listing_reach.specs.ReachLaws.{LinesAreWhereAnswersDiffer};

/// The letters by which two listings are compared are those that `who --reach` prints for each; and
/// a user has a line exactly if it prints other letters before than after. There is nothing to run
/// here: a proof cites the contract.
pub fn reach_laws()
    ensures letters { LettersAreThoseOfWho }
    ensures lines { LinesAreWhereAnswersDiffer }
{}
