//! What `who` prints for a block, for the users who reach its file.
ghost use Rattle.std.specs.Prelude.{◌≡◌, ◌++◌, ◌∷◌, [], Bool, false, true, IfOk, List, OnOk, ℕ};
ghost use Rattle.std.specs.Prelude.{None, Ok, Some, if◌then◌else◌, is_some, option_map};
ghost use Rattle.std.specs.List.{fold, list_any};
ghost use Rattle.acl_listings.specs.Block.{FileValue, file_by, path_of};
ghost use Rattle.acl_listings.specs.Lines.{after_line};
ghost use Rattle.acl_reports.specs.Reporting.{IsPart, UnlessMemory};
ghost use Rattle.acl_listing_queries.specs.Readings.{Reading, reading_of};
ghost use Rattle.acl_listing_queries.specs.Ways.{chain_to, is_sticky, way_of, way_on};
ghost use Rattle.acl_listing_queries.specs.WhoPart.{part_on, who_part};
ghost use Rattle.acl_listing_queries.specs.WhoSteps.{AreFolders, AreRight, IsAnsweredAt};
ghost use Rattle.acl_listing_queries.specs.WhoSteps.{IsBehind, IsCome, IsEveryone, IsOnWay};
ghost use Rattle.acl_listing_queries.specs.WhoSteps.{IsPlacedAt, asking_of, folders_to};
ghost use Rattle.acl_listing_queries.specs.WhoSteps.{lacks_path, marks_of, names_by, question_by};
ghost use Rattle.acl_listing_queries.specs.WhoSteps.{standings_for, stranger_by, whos_of};
ghost use Rattle.acl_listing_queries.specs.declared.who.reach.Before.{Before as BeforeValue};

use super::answers::Answers;
use super::way::{Folder, inside_of, leave, reach_of};
use crate::beginning::Beginning;
use acl_access::{Standing, both};
use acl_listings::{BlockFault, FileFault, is_above, path_and_lines};
use acl_reports::{BlockReporter, Stranger};
use std::alloc::{AllocError, Global};

/// The previous block.
#[derive(Drop)]
pub(super) struct Before {
    path: Vec<u8>,
    /// The place of its file's answer, unless the block is malformed.
    place: Option<usize>,
}

/// Prints what each user is granted who may also search each parent folder of the file.
#[derive(Drop)]
pub struct ReachReporter<'t> {
    answers: Answers<'t>,
    /// `true` for every user.
    everyone: Vec<bool>,
    /// Where the way to the previous block begins.
    beginning: Beginning,
    /// The parent folders of the previous block.
    folders: Vec<Folder>,
    before: Option<Before>,
    /// Whether a block had no readable path: it may be a parent of everything after it.
    lost: bool,
}

impl<'t> ReachReporter<'t> {
    /// Before any block.
    pub(super) fn new(alloc: Global, answers: Answers<'t>, everyone: Vec<bool>) -> ReachReporter<'t>
        ensures users { result.answers.users ≡ answers.entry.users }
        ensures stands { AreRight answers.entry → answers.entry.users.reach ≡ true
            → IsEveryone (whos_of answers.entry.users) everyone.items → IsOnWay result [] }
    {
        ReachReporter {
            answers,
            everyone,
            beginning: Beginning::new(alloc),
            folders: Vec::new(alloc),
            before: None,
            lost: false,
        }
    }

    /// Whether each user may search the previous block's file and each of its parents; `None` if
    /// that isn't known.
    fn reach_below(&self, alloc: Global, before: &Before) -> Result<Option<Vec<bool>>, AllocError>
        ensures { (block : Reading) (way : List Reading)
            → self.now.answers.users.reach ≡ true
            → block.path ≡ Some before.now.path.items
            → IsPlacedAt self.now.answers before.now.place block
            → IsEveryone (whos_of self.now.answers.users) self.now.everyone.items
            → AreFolders self.now.answers.users self.now.folders.items way
            → IfOk result (λ reach. option_map (λ marks. marks.items) reach
            ≡ marks_of self.now.answers.users (folders_to block way)) }
    {
        let Some(place) = before.place else {
            return Ok(None);
        };
        let folders = self.folders.as_slice();
        let above = reach_of(folders, self.everyone.as_slice(), before.path.as_slice());
        match (self.answers.at(place), above) {
            (Some(kept), Some(above)) => Ok(Some(both(alloc, kept.search(), above)?)),
            _ => Ok(None),
        }
    }

    /// The standing of each user to the previous block's file; empty unless that is needed.
    fn standings(&self, alloc: Global, before: &Before) -> Result<Vec<Standing>, AllocError>
        ensures { (block : Reading) → IsPlacedAt self.now.answers before.now.place block
            → IfOk result (λ standings. standings.items
            ≡ standings_for self.now.answers.users.rules (question_by self.now.answers.users)
            (whos_of self.now.answers.users) block.file) }
    {
        let Some(place) = before.place else {
            return Ok(Vec::new(alloc));
        };
        match self.answers.at(place) {
            Some(kept) => Vec::from_slice(alloc, kept.standings()),
            None => Ok(Vec::new(alloc)),
        }
    }

    /// Goes on from the previous block to the path: finds the parent folders.
    fn come_to(&mut self, alloc: Global, path: &[u8]) -> Result<(), AllocError>
        ensures answers { self.new.answers ≡ self.old.answers }
        ensures everyone { self.new.everyone ≡ self.old.everyone }
        ensures beginning { self.new.beginning ≡ self.old.beginning }
        ensures lost { self.new.lost ≡ self.old.lost }
        ensures folders { (seen : List Reading) (here : Reading)
            → self.old.answers.users.reach ≡ true
            → here.path ≡ Some path.now → list_any lacks_path seen ≡ false
            → IsEveryone (whos_of self.old.answers.users) self.old.everyone.items
            → IsBehind self.old.answers self.old.before self.old.folders.items (fold way_on [] seen)
            → OnOk result (AreFolders self.old.answers.users self.new.folders.items
            (way_of seen here)) }
    {
        let Some(before) = self.before.take() else {
            return Ok(());
        };
        if is_above(before.path.as_slice(), path) {
            let reach = self.reach_below(alloc, &before)?;
            let standings = self.standings(alloc, &before)?;
            self.folders.push(Folder {
                path: before.path,
                reach,
                standings,
            })?;
        } else {
            leave(&mut self.folders, path);
        }
        Ok(())
    }

    /// Appends the report on the block's file, whose parents were found and whose answer is at the
    /// place. `apart` is whether all ways begin apart.
    fn push_here(
        &mut self,
        alloc: Global,
        apart: bool,
        place: usize,
        path: &[u8],
        out: &mut Vec<u8>,
    ) -> Result<(), FileFault>
        ensures same { self.new ≡ self.old }
        ensures reported { (text : List ℕ) (way : List Reading) (begins_apart : Bool)
            (file : FileValue)
            → IsCome self.old way → (self.old.lost ≡ false → apart ≡ begins_apart)
            → path_of text ≡ Some path.now
            → file_by (names_by self.old.answers.users) text ≡ Ok file
            → IsAnsweredAt self.old.answers place file
            → IsPart (part_on (asking_of self.old.answers.users) (is_sticky way) file
            (if begins_apart
            then chain_to way (reading_of (names_by self.old.answers.users) text) else None))
            result out.old.items out.new.items }
    {
        if self.lost {
            return Err(FileFault::Block(BlockFault::UnknownWay));
        }
        if !apart {
            return Err(FileFault::Block(BlockFault::UnknownWay));
        }
        match inside_of(self.folders.as_slice(), self.everyone.as_slice(), path) {
            Some(inside) => self.answers.push_at(alloc, place, inside, path, out),
            None => Err(FileFault::Block(BlockFault::UnknownWay)),
        }
    }

    /// Makes a block with this path, and its answer at the place, the previous block.
    fn stand_at(
        &mut self,
        alloc: Global,
        path: &[u8],
        place: Option<usize>,
    ) -> Result<(), AllocError>
        ensures before { OnOk result ((before : BeforeValue) × (before.path.items ≡ path.now)
            × (before.place ≡ place) × (self.new
            ≡ record self.old { before = Some before })) }
        ensures answers { self.new.answers ≡ self.old.answers }
    {
        let path = Vec::from_slice(alloc, path)?;
        self.before = Some(Before { path, place });
        Ok(())
    }

    /// Appends the report on the block, which has this path, and makes it the previous block.
    fn push_at(
        &mut self,
        alloc: Global,
        path: &[u8],
        text: &[u8],
        lines: &[u8],
        out: &mut Vec<u8>,
    ) -> Result<(), FileFault>
        requires path { path_of text.now ≡ Some path.now }
        requires lines { lines.now ≡ after_line text.now }
        ensures users { self.new.answers.users ≡ self.old.answers.users }
        ensures stands { (earlier : List (List ℕ)) → IsOnWay self.old earlier
            → UnlessMemory result (IsOnWay self.new (earlier ++ text.now ∷ [])) }
        ensures reported { (earlier : List (List ℕ)) → IsOnWay self.old earlier
            → IsPart (who_part (asking_of self.old.answers.users) earlier text.now) result
            out.old.items out.new.items }
        ensures found { (earlier : List (List ℕ)) → IsOnWay self.old earlier → UnlessMemory result
            (self.new.answers.found ≡ is_some (stranger_by self.old.answers.users text.now)) }
    {
        let apart = self.beginning.come_to(alloc, path)?;
        self.come_to(alloc, path)?;
        match self.answers.find(alloc, Some(path), text, lines) {
            Ok(place) => {
                let reported = self.push_here(alloc, apart, place, path, out);
                self.stand_at(alloc, path, Some(place))?;
                reported
            }
            Err(FileFault::Block(fault)) => {
                self.stand_at(alloc, path, None)?;
                Err(FileFault::Block(fault))
            }
            Err(FileFault::Memory) => Err(FileFault::Memory),
        }
    }

    /// Reads a block without a path, after which no way is known.
    fn push_lost(&mut self, alloc: Global, text: &[u8], lines: &[u8]) -> Result<(), FileFault>
        requires path { path_of text.now ≡ None }
        requires lines { lines.now ≡ after_line text.now }
        ensures users { self.new.answers.users ≡ self.old.answers.users }
        ensures stands { (earlier : List (List ℕ)) → IsOnWay self.old earlier
            → UnlessMemory result (IsOnWay self.new (earlier ++ text.now ∷ [])) }
        ensures reported { (earlier : List (List ℕ)) → IsOnWay self.old earlier
            → (old : List ℕ) → IsPart (who_part (asking_of self.old.answers.users) earlier text.now)
            result old old }
        ensures found { (earlier : List (List ℕ)) → IsOnWay self.old earlier → UnlessMemory result
            (self.new.answers.found ≡ is_some (stranger_by self.old.answers.users text.now)) }
    {
        self.lost = true;
        match self.answers.find(alloc, None, text, lines) {
            Ok(_) => Err(FileFault::Block(BlockFault::UnknownWay)),
            Err(fault) => Err(fault),
        }
    }
}

impl<'t> BlockReporter for ReachReporter<'t> {
    ghost use Rattle.acl_listing_queries.specs.WhoPart.{who_part};
    ghost use Rattle.acl_listing_queries.specs.WhoSteps.{IsOnWay, asking_of, stranger_by};

    ghost Stands = { IsOnWay };

    ghost part = { λ reporter. who_part (asking_of reporter.answers.users) };

    ghost stranger = { λ reporter. stranger_by reporter.answers.users };

    ghost found = { λ reporter. reporter.answers.found };

    fn push(&mut self, alloc: Global, text: &[u8], out: &mut Vec<u8>) -> Result<(), FileFault> {
        let (path, lines) = path_and_lines(text);
        match path {
            Some(path) => self.push_at(alloc, path, text, lines, out),
            None => self.push_lost(alloc, text, lines),
        }
    }

    fn names_stranger(&self) -> bool {
        self.answers.found()
    }

    fn stranger(&self, text: &[u8]) -> Option<Stranger> {
        self.answers.stranger(text)
    }
}
