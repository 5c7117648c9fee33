//! The laws of the way to a file, of the entries that decide, of what is printed and of PATH, over
//! the definitions alone, and how much is kept.
ghost use Rattle.std.specs.Prelude.{◌≡◌};
ghost use Rattle.acl_listing_queries.specs.DeletionLaws.{DeletionsAgree};
ghost use Rattle.acl_listing_queries.specs.OutputLaws.{WhoAnswersPrint, WhoBeginsPrint};
ghost use Rattle.acl_listing_queries.specs.PathLaws.{ListedPathsAreRead, PrintedPathsAreRead};
ghost use Rattle.acl_listing_queries.specs.ViaLaws.{EntriesGrant, NumbersAllow};
ghost use Rattle.acl_listing_queries.specs.WayLaws.{WaysAreAllAbove, WaysHaveAllAbove};
ghost use Rattle.acl_listing_queries.specs.WayLaws.{WaysHaveAllBefore};
ghost use Rattle.acl_listing_queries.specs.declared.places.TheConstants.{PLACES};

/// In a listing in which each folder comes before its content, and that before anything else, the
/// way to a file is all blocks whose paths are parents of its path, the nearest first. In any
/// order, if the way to a block is known, it has every parent folder that comes before the block;
/// and if the way to each is known, every parent folder in the listing. There is nothing to run
/// here: a proof cites the contract.
pub fn way_laws()
    ensures above { WaysAreAllAbove }
    ensures before { WaysHaveAllBefore }
    ensures any_order { WaysHaveAllAbove }
{}

/// A POSIX list grants permissions at once exactly if `who --via` prints an entry for them, and
/// each entry of an NFSv4 list whose number it prints allows something. There is nothing to run
/// here: a proof cites the contract.
pub fn via_laws()
    ensures grant { EntriesGrant }
    ensures allow { NumbersAllow }
{}

/// The first line of `why --delete` is `granted` exactly if `who --delete` prints a line with this
/// user and this path. There is nothing to run here: a proof cites the contract.
pub fn deletion_laws()
    ensures agree { DeletionsAgree }
{}

/// What `who` means says what stands on standard output, in definitions without faults, counts and
/// failures: `WhoPrints`; if it fails midway, the part of that for the listing's first blocks, of
/// which a prefix goes out. There is nothing to run here: a proof cites the contract.
pub fn output_laws()
    ensures answered { WhoAnswersPrint }
    ensures begun { WhoBeginsPrint }
{}

/// A path of a listing, as getfacl writes it, is itself as PATH of `why`, and so is what an answer
/// prints for it. There is nothing to run here: a proof cites the contract.
pub fn path_laws()
    ensures listed { ListedPathsAreRead }
    ensures printed { PrintedPathsAreRead }
{}

/// How many answers for files with different lines are cached, as a number. There is nothing to run
/// here: a proof cites the contract.
pub fn limits_in_numbers()
    ensures places { PLACES ≡ 256 }
{}
