//! Laws of what files grant, about the definitions alone.
ghost use Rattle.acl_access.specs.Changes.{ChangesAreNotAlike, TwoGroupsSuffice};
ghost use Rattle.acl_access.specs.Letters.{BitsAreGranted, LettersStandForBits};

/// A letter of a mask is printed for a requester exactly if its bit is granted by itself; for a
/// POSIX list, if its permission is. There is nothing to run here: a proof cites the contract.
pub fn letter_laws()
    ensures bits { BitsAreGranted }
    ensures posix { LettersStandForBits }
{}

/// Files that grant the same to every requester in at most two groups grant the same to everyone. A
/// requester who loses or gains something isn't granted the same, so at most one finding is right.
/// There is nothing to run here: a proof cites the contract.
pub fn change_laws()
    ensures two_groups { TwoGroupsSuffice }
    ensures exclusive { ChangesAreNotAlike }
{}
