//! The report on the parent folders of a file, list by list.
ghost use Rattle.std.specs.Prelude.{◌≡◌, ◌∷◌, [], IfErr, IfOk, List, OnOk, Some, option_map};
ghost use Rattle.std.specs.Prelude.{reverse};
ghost use Rattle.acl_listings.specs.Views.{view_file};
ghost use Rattle.acl_names.specs.Names.{Names};
ghost use Rattle.acl_people.specs.Host.{names_of_host};
ghost use Rattle.acl_listing_queries.specs.Readings.{Reading, reading_of};
ghost use Rattle.acl_listing_queries.specs.Ways.{chain_to};
ghost use Rattle.acl_listing_queries.specs.WhySteps.{AreReported, IsNearest, IsUnknown};
ghost use Rattle.acl_listing_queries.specs.WhySteps.{IsWayReported};
ghost use Rattle.acl_listing_queries.specs.WhySteps.{asked_by, is_held, known_folders};
ghost use Rattle.acl_listing_queries.specs.WhySteps.{readings_of};
ghost use Rattle.acl_listing_queries.specs.WhyText.{WhyAsking, nearest};

use super::question::Question;
use super::text::push_decision;
use crate::above::holds;
use acl_bridge::FileAcl;
use acl_listings::{BlockFault, File, FileFault, path_of, read_file};
use acl_people::Host;
use acl_posix::Perms;
use acl_reports::owners_and_list;
use std::alloc::Global;

/// The report on folders, the outermost first.
#[derive(Drop)]
pub(super) struct Folders<'t> {
    pub text: Vec<u8>,
    /// Whether the user may search all of them.
    pub reach: bool,
    /// The block of the nearest so far.
    last: Option<&'t [u8]>,
}

impl<'t> Folders<'t> {
    /// The report on no folder.
    fn new(alloc: Global) -> Folders<'t>
        ensures { (asking : WhyAsking) → AreReported asking [] result }
    {
        Folders {
            text: Vec::new(alloc),
            reach: true,
            last: None,
        }
    }

    /// Whether the path is directly in the nearest folder; true without folders.
    fn are_above(&self, path: Option<&[u8]>) -> bool
        ensures { (names : Names) (way : List Reading) → IsNearest names self.now.last way
            → result ≡ is_held way (option_map (λ path. path.now) path.entry) }
    {
        match self.last {
            Some(text) => holds(path_of(text), path),
            None => true,
        }
    }

    /// Appends the report on another folder, which has this block. Fails with `UnknownWay` if it
    /// isn't directly in the nearest so far, or is malformed.
    fn push(
        &mut self,
        alloc: Global,
        question: &Question<'_>,
        text: &'t [u8],
    ) -> Result<(), FileFault>
        ensures reported { let asking = asked_by question.now in (way : List Reading)
            → AreReported asking way self.old → OnOk result
            (AreReported asking (reading_of asking.names text.entry.now ∷ way) self.new) }
        ensures refused { let asking = asked_by question.now in (way : List Reading)
            → AreReported asking way self.old → IfErr result
            (IsUnknown (known_folders (reading_of asking.names text.entry.now ∷ way))) }
    {
        if !self.are_above(path_of(text)) {
            return Err(FileFault::Block(BlockFault::UnknownWay));
        }
        let file = match read_file(alloc, text, question.host) {
            Ok(file) => file,
            Err(FileFault::Block(_)) => return Err(FileFault::Block(BlockFault::UnknownWay)),
            Err(FileFault::Memory) => return Err(FileFault::Memory),
        };
        let path = file.path;
        let (owners, list) = owners_and_list(alloc, question.rules, file)?;
        let acl = FileAcl {
            owners,
            list: list.as_ref(),
        };
        let requester = question.requester;
        let perms = Perms::EXECUTE;
        let out = &mut self.text;
        let granted = push_decision(alloc, "folder", path, &acl, requester, perms, out)?;
        self.reach = granted && self.reach;
        self.last = Some(text);
        Ok(())
    }

    /// The file of the nearest folder. Fails with `UnknownWay` if there is none.
    pub fn nearest(&self, alloc: Global, host: &Host) -> Result<File<'t>, FileFault>
        ensures read { (way : List Reading) → IsNearest (names_of_host host.now) self.now.last way
            → IfOk result (λ folder. nearest way ≡ Some (view_file folder)) }
        ensures refused { (way : List Reading)
            → IsNearest (names_of_host host.now) self.now.last way
            → IfErr result (IsUnknown (nearest way)) }
    {
        let Some(text) = self.last else {
            return Err(FileFault::Block(BlockFault::UnknownWay));
        };
        match read_file(alloc, text, host) {
            Ok(folder) => Ok(folder),
            Err(FileFault::Block(_)) => Err(FileFault::Block(BlockFault::UnknownWay)),
            Err(FileFault::Memory) => Err(FileFault::Memory),
        }
    }
}

/// The report on the folders of these blocks, the outermost first, which are the parents of a path.
pub(super) fn report_folders<'t>(
    alloc: Global,
    question: &Question<'_>,
    texts: &'t [Vec<u8>],
    path: &[u8],
) -> Result<Folders<'t>, FileFault>
    ensures reported { let asking = asked_by question.now in (here : Reading)
        → here.path ≡ Some path.now → IfOk result
        (IsWayReported asking (reverse (readings_of asking.names texts.entry.now)) here) }
    ensures refused { let asking = asked_by question.now in (here : Reading)
        → here.path ≡ Some path.now → IfErr result
        (IsUnknown (chain_to (reverse (readings_of asking.names texts.entry.now)) here)) }
{
    let mut folders = Folders::new(alloc);
    for text in texts {
        folders.push(alloc, question, text.as_slice())?;
    }
    if folders.are_above(Some(path)) {
        Ok(folders)
    } else {
        Err(FileFault::Block(BlockFault::UnknownWay))
    }
}
