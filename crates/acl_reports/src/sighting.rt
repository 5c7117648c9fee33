//! The first block that names an id without an account, and those behind it.
ghost use Rattle.std.specs.Prelude.{◌≡◌, is_some};
ghost use Rattle.acl_reports.specs.Strangers.{IsSighting};

use crate::blocks::BlockReporter;
use crate::stranger::Stranger;
use crate::strangers::Strangers;

/// What a block has to do with ids that no account has.
#[derive(Clone, Copy, Debug, PartialEq, Eq)]
pub enum Sighting {
    /// It names no id without an account.
    Nobody,
    /// It names one, and an earlier block does.
    Another,
    /// It names this one first, and no earlier block names any.
    First(Stranger),
}

/// What the block with this text, which was pushed last, has to do with ids that no account has.
/// Its lines are read only if it is the first that names one.
pub fn sighting_of<T: BlockReporter>(reporter: &T, strangers: &Strangers, text: &[u8]) -> Sighting
    ensures { T.found reporter.now ≡ is_some (T.stranger reporter.now text.now)
        → IsSighting strangers.now (T.stranger reporter.now text.now) result }
{
    if !reporter.names_stranger() {
        return Sighting::Nobody;
    }
    if strangers.first.is_some() {
        return Sighting::Another;
    }
    match reporter.stranger(text) {
        Some(stranger) => Sighting::First(stranger),
        None => Sighting::Nobody,
    }
}
