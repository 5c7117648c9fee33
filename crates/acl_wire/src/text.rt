//! Lists as texts, with ids in decimal.

ghost use Rattle.std.specs.Prelude.{IfOk, MatchResult};
ghost use Rattle.acl_names.specs.ListText.{Spells};
ghost use Rattle.acl_names.specs.Pieces.{pieces};
ghost use Rattle.acl_nfs4.specs.AceText.{piece_value};
ghost use Rattle.acl_nfs4.specs.ReadFault.{IsTextFault};
ghost use Rattle.acl_nfs4.specs.declared.limits.TheConstants.{MAX_ACES};
ghost use Rattle.acl_names.specs.Directory.{Known};
ghost use Rattle.acl_posix.specs.AclText as posix;
ghost use Rattle.acl_wire.specs.RawAces.{Answers};
ghost use Rattle.acl_wire.specs.Text.{IsNobody, raws_text_of, xattr_text_of};
ghost use Rattle.acl_wire.specs.Writing.{PutsInFront};
ghost use Rattle.acl_wire.specs.XattrReading.{Gives};

use crate::xattr_writing::put_at;
use crate::{Nfs4Error, PosixError, Purpose, RawAce, acl_of_xattr, read_raw_aces};
use acl_names::Directory;
use acl_nfs4::{AceFault, Acl4, read_aces};
use acl_posix::{Acl, ReadAclFault, read_acl};
use std::alloc::{AllocError, Global};

/// The domain of a directory of nobody.
const NO_DOMAIN: &str = "local";

/// A directory of nobody, in which ids are decimals alone.
fn nobody(alloc: Global) -> Result<Directory, AllocError>
    ensures { IfOk result IsNobody }
{
    let domain = String::from_str(alloc, NO_DOMAIN)?;
    match Directory::from_parts(alloc, domain, Vec::new(alloc), Vec::new(alloc)) {
        Ok(directory) => Ok(directory),
        Err(_) => Err(AllocError),
    }
}

/// The POSIX list that the text spells, with ids in decimal.
pub fn acl_of_text(alloc: Global, text: &[u8]) -> Result<Acl, ReadAclFault>
    ensures { (known : Known) × IsNobody known
        × posix.ReadsAs (posix.acl_of known (pieces text.now)) result }
{
    match nobody(alloc) {
        Ok(directory) => read_acl(alloc, text, &directory),
        Err(_) => Err(ReadAclFault::Memory),
    }
}

/// The NFSv4 list that the text spells, with ids in decimal.
pub fn acl4_of_text(alloc: Global, text: &[u8]) -> Result<Acl4, AceFault>
    ensures { (known : Known) × IsNobody known
        × MatchResult result (Spells (piece_value known) MAX_ACES text.now)
        (IsTextFault known text.now) }
{
    match nobody(alloc) {
        Ok(directory) => read_aces(alloc, text, &directory),
        Err(_) => Err(AceFault::Memory),
    }
}

/// The POSIX list of the bytes in the short text form, with ids in decimal.
#[tactic(auto, unfolding(crate::specs::Text::xattr_text_of))]
pub fn xattr_text(alloc: Global, bytes: &[u8]) -> Result<Vec<u8>, PosixError>
    ensures { Gives (λ text. text.items) result (xattr_text_of bytes.now) }
{
    let acl = acl_of_xattr(alloc, bytes)?;
    let mut out = Vec::new(alloc);
    acl.print_short(&mut out)?;
    Ok(out)
}

/// The NFSv4 list of the entries in the short text form, with ids in decimal.
#[tactic(auto, unfolding(crate::specs::Text::raws_text_of))]
pub fn raws_text(alloc: Global, raws: &[RawAce]) -> Result<Vec<u8>, Nfs4Error>
    ensures { Answers (λ text. text.items) result (raws_text_of raws.now) }
{
    let acl = read_raw_aces(alloc, Purpose::Write, raws)?;
    let mut out = Vec::new(alloc);
    acl.print_short(&mut out)?;
    Ok(out)
}

/// Puts bytes in front of `out`, if it has room for them, and else leaves `out` as it was. The
/// answer is how many there are.
pub fn write_bytes(bytes: &[u8], out: &mut [u8]) -> usize
    ensures { PutsInFront bytes.now result out.old out.new }
{
    if bytes.len() <= out.len() {
        put_at(out, 0, bytes);
    }
    bytes.len()
}
