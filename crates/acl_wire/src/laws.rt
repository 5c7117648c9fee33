//! Laws of the binary forms. There is nothing to run here: a proof cites the contracts.

ghost use Rattle.acl_wire.specs.Decision.{ListsAreValues, ListsDecideAsAWhole};
ghost use Rattle.acl_wire.specs.Decision.{ValuesDecideAsAWhole};
ghost use Rattle.acl_wire.specs.KeepingLaws.{LastModeCounts, ModesStandBesideNamed};
ghost use Rattle.acl_wire.specs.WireLaws.{KeptXdrIsReadAgain, RawsAreReadAgain};
ghost use Rattle.acl_wire.specs.WireLaws.{XattrsAreReadAgain, XdrIsReadAgain};
ghost use Rattle.acl_wire.specs.Written.{RawsWereWritten, XattrsWereWritten};
ghost use Rattle.acl_wire.specs.XdrNames.{NamesAreReadAgain};
ghost use Rattle.acl_wire.specs.XdrWritten.{XdrWasWritten};

/// The bytes of a POSIX list are read as that list, and the numbers of an NFSv4 list, or its XDR,
/// as that list; and entries of numbers keep each bit that has a meaning through XDR, and a name if
/// they have one. And what is read was written so, but for what plays no part. There is nothing to
/// run here: a proof cites the contract.
pub fn wire_laws()
    ensures xattrs { XattrsAreReadAgain }
    ensures raws { RawsAreReadAgain }
    ensures xdr { XdrIsReadAgain }
    ensures kept { KeptXdrIsReadAgain }
    ensures names { NamesAreReadAgain }
    ensures xattrs_written { XattrsWereWritten }
    ensures raws_written { RawsWereWritten }
    ensures xdr_written { XdrWasWritten }
{}

/// Entries that can all be decided by decide each request as the list that they are, of any length;
/// so do those that make a shorter list in which each takes effect somewhere. There is nothing to
/// run here: a proof cites the contract.
pub fn decision_laws()
    ensures lists { ListsDecideAsAWhole }
    ensures values { ValuesDecideAsAWhole }
    ensures are_values { ListsAreValues }
{}

/// A mode that leaves the entries that name users and groups (`ModeRule::Keep`) is shown by the
/// list; the owner, and others whom no entry names, are granted what it says; whom an entry names
/// is decided as that entry says, as before; and nothing is left of a mode that was set before.
/// There is nothing to run here: a proof cites the contract.
pub fn keeping_laws()
    ensures stands { ModesStandBesideNamed }
    ensures last { LastModeCounts }
{}
