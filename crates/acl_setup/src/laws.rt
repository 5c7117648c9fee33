//! Laws of what is reported about refused setups, about the definitions alone.
ghost use Rattle.acl_setup.specs.SetupLaws.{ReportsTheKey, ReportsThePart};

/// For a table that isn't a setup, the first key without a proper value is reported (`keys`): that
/// key is at fault, and none before it. For users and groups that can't make a directory, the first
/// key with the fault is reported, and there is one (`parts`). Both are defined by the table, and
/// by the users and groups, alone. There is nothing to run here: a proof cites the contract.
pub fn setup_laws()
    ensures keys { ReportsTheKey }
    ensures parts { ReportsThePart }
{}
