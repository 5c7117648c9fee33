//! What `translate` prints for a block of a listing.
ghost use Rattle.acl_reports.specs.Reporting.{IsPart};
ghost use Rattle.acl_listing_translation.specs.Translated.{reported_as};

use crate::form::AceForm;
use crate::lists::nfs4_list;
use crate::printing::{push_block, push_pair};
use acl_listings::{FileFault, read_file};
use acl_nfs4::Ace;
use acl_people::Host;
use acl_reports::{BlockReporter, Stranger};
use std::alloc::Global;

/// Prints the NFSv4 list of each block's file.
#[derive(Drop)]
pub(crate) struct TranslateReporter<'t> {
    /// The users and groups whose names blocks have.
    pub host: &'t Host,
    pub form: AceForm,
    /// Whether entries for what servers also check are appended.
    pub attributes: bool,
    /// Whether pairs of entries and a path are printed instead of blocks.
    pub pairs: bool,
}

/// Appends the pair or the block of a file with these entries.
fn push_reported(
    pairs: bool,
    form: AceForm,
    text: &[u8],
    path: &[u8],
    aces: &[Ace],
    out: &mut Vec<u8>,
) -> Result<(), FileFault>
    ensures { IsPart (reported_as pairs form text.now path.now aces.now) result out.old.items
        out.new.items }
{
    if pairs {
        push_pair(form, path, aces, out)?;
        return Ok(());
    }
    push_block(form, text, aces, out)
}

impl<'t> BlockReporter for TranslateReporter<'t> {
    ghost use Rattle.std.specs.Prelude.{false, ⊤};
    ghost use Rattle.acl_listing_translation.specs.TranslateSteps.{translating_of};
    ghost use Rattle.acl_listing_translation.specs.Translated.{translate_part};
    ghost use Rattle.acl_reports.specs.Strangers.{none_sought};

    ghost Stands = { λ reporter earlier. ⊤ };

    ghost part = { λ reporter. translate_part (translating_of reporter) };

    ghost stranger = { λ reporter. none_sought };

    ghost found = { λ reporter. false };

    fn push(&mut self, alloc: Global, text: &[u8], out: &mut Vec<u8>) -> Result<(), FileFault> {
        let file = read_file(alloc, text, self.host)?;
        let path = file.path;
        let acl = nfs4_list(alloc, self.attributes, file.lists)?;
        push_reported(self.pairs, self.form, text, path, acl.aces(), out)
    }

    fn names_stranger(&self) -> bool {
        false
    }

    fn stranger(&self, _text: &[u8]) -> Option<Stranger> {
        None
    }
}
