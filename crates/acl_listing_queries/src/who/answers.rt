//! What is answered of the files of a listing, kept for files whose blocks have the same lines.
ghost use Rattle.std.specs.Prelude.{◌≡◌, ◌<◌, Bool, IfErr, IfOk, List, bytes_eq, false, Ok};
ghost use Rattle.std.specs.Prelude.{is_some, option_map, true};
ghost use Rattle.std.specs.Option.{option_map_or};
ghost use Rattle.acl_access.specs.Paths.{printed_path};
ghost use Rattle.acl_bridge.specs.Files.{File, view_acl};
ghost use Rattle.acl_listings.specs.Block.{FileValue, file_by, path_of};
ghost use Rattle.acl_listings.specs.Faults.{IsFaultOf};
ghost use Rattle.acl_listings.specs.Lines.{after_line};
ghost use Rattle.acl_reports.specs.Files.{file_of};
ghost use Rattle.acl_reports.specs.Reporting.{IsPart, UnlessMemory};
ghost use Rattle.acl_reports.specs.Strangers.{names_stranger};
ghost use Rattle.acl_listing_queries.specs.ViaSteps.{asked_of};
ghost use Rattle.acl_listing_queries.specs.WhoPart.{part_of};
ghost use Rattle.acl_listing_queries.specs.WhoSteps.{AreAnswersOf, AreRight, IsAnswered};
ghost use Rattle.acl_listing_queries.specs.WhoSteps.{IsAnsweredAt, IsGranted, IsInside, IsSearch};
ghost use Rattle.acl_listing_queries.specs.WhoSteps.{asking_of};
ghost use Rattle.acl_listing_queries.specs.WhoSteps.{kept_at, names_by, question_by};
ghost use Rattle.acl_listing_queries.specs.WhoSteps.{standings_kept, strange_kept, stranger_by};
ghost use Rattle.acl_listing_queries.specs.WhoSteps.{whos_of};

use super::asked::{Asked, What};
use super::decided::{Decided, decided_for_each, push_decided_lines};
use super::lines::{push_letters_lines, push_may_lines};
use super::numbers::RecentNumbers;
use super::way::Inside;
use crate::places::{PLACES, place_for_text};
use acl_access::{
    PrintedPath, Rules, Standing, letters_of_each, places_of_takers, places_of_those_who_may,
    standings_of_each, which_may,
};
use acl_bridge::FileAcl;
use acl_listings::{FileFault, MAX_BLOCK, read_file};
use acl_names::Requester;
use acl_nfs4::Mask;
use acl_people::{Host, People};
use acl_posix::Perms;
use acl_reports::{Stranger, block_stranger, names_stranger, owners_and_list};
use std::alloc::{AllocError, Global};

/// What a file grants the users.
#[derive(Drop)]
pub(super) enum Granted {
    /// Of each user the letters `r`, `w` and `x`.
    Letters(Vec<Perms>),
    /// The same, to be reported as numbers.
    Numbered(Vec<Perms>),
    /// Of each user all the letters.
    Masks(Vec<Mask>),
    /// The places of those users who are granted what is asked.
    Those(Vec<usize>),
    /// What each user is granted, and the entries that decide so.
    Entries(Vec<Option<Decided>>),
    /// How each user stands to the file.
    Standings(Vec<Standing>),
}

/// What was answered of a file.
#[derive(Drop)]
pub(super) struct Kept {
    /// The lines of its block behind the first.
    lines: Vec<u8>,
    granted: Granted,
    /// Of each user whether to search it is granted, if that is asked.
    search: Vec<bool>,
    /// Whether it names an id without an account.
    strange: bool,
}

impl Kept {
    /// Of each user whether to search it is granted.
    pub fn search(&self) -> &[bool]
        ensures { result.now ≡ self.now.search.items }
    {
        self.search.as_slice()
    }

    /// How each user stands to the file, if that is asked.
    pub fn standings(&self) -> &[Standing]
        ensures { result.now ≡ standings_kept self.now.granted }
    {
        match &self.granted {
            Granted::Standings(standings) => standings.as_slice(),
            _ => &[],
        }
    }
}

/// Who is asked about, and what is asked.
#[derive(Clone, Copy)]
pub(super) struct Users<'t> {
    /// By whose names blocks are read.
    pub host: &'t Host,
    pub people: &'t People,
    pub asked: Asked,
    /// The rules by which POSIX lists are evaluated.
    pub rules: Rules,
    /// Whether it is asked who may search a file.
    pub reach: bool,
}

/// What the file grants the requesters. It fails only if memory runs out.
fn granted_what(
    alloc: Global,
    requesters: &[Requester],
    what: What,
    file: &FileAcl<'_>,
) -> Result<Granted, AllocError>
    ensures { IfOk result (IsGranted requesters.now (asked_of what) (view_acl file.now)) }
{
    match what {
        What::Letters => Ok(Granted::Letters(letters_of_each(alloc, requesters, file)?)),
        What::AllLetters => Ok(Granted::Masks(letters_of_each(alloc, requesters, file)?)),
        What::Perms(perms) => {
            let places = places_of_those_who_may(alloc, requesters, file, perms)?;
            Ok(Granted::Those(places))
        }
    }
}

impl<'t> Users<'t> {
    /// What the file, which has the sticky bit or not, grants the users. It fails only if memory
    /// runs out.
    fn granted(
        &self,
        alloc: Global,
        sticky: bool,
        file: &FileAcl<'_>,
    ) -> Result<Granted, AllocError>
        ensures { IfOk result (IsAnswered (whos_of self.now) (question_by self.now) sticky
            (view_acl file.now)) }
    {
        let requesters = self.people.requesters.as_slice();
        match self.asked {
            Asked::What(what) => granted_what(alloc, requesters, what, file),
            Asked::Via(what) => {
                let decided = decided_for_each(alloc, what, requesters, file)?;
                Ok(Granted::Entries(decided))
            }
            Asked::Numbers => Ok(Granted::Numbered(letters_of_each(alloc, requesters, file)?)),
            Asked::Deletion => {
                let standings = standings_of_each(alloc, requesters, sticky, file)?;
                Ok(Granted::Standings(standings))
            }
        }
    }

    /// Of each user whether to search the file is granted, if that is asked. It fails only if
    /// memory runs out.
    fn search(&self, alloc: Global, file: &FileAcl<'_>) -> Result<Vec<bool>, AllocError>
        ensures { IfOk result (λ marks. IsSearch (whos_of self.now) self.now.reach
            (view_acl file.now) marks.items) }
    {
        if self.reach {
            which_may(
                alloc,
                self.people.requesters.as_slice(),
                file,
                Perms::EXECUTE,
            )
        } else {
            Ok(Vec::new(alloc))
        }
    }

    /// What is answered of the file of the block with this text, of which these are the lines
    /// behind the first.
    fn answer(&self, alloc: Global, text: &[u8], lines: &[u8]) -> Result<Kept, FileFault>
        requires { lines.now ≡ after_line text.now }
        ensures lines { IfOk result (λ kept. kept.lines.items ≡ after_line text.now) }
        ensures answers { IfOk result (λ kept. (file : FileValue)
            × (file_by (names_by self.now) text.now ≡ Ok file) × AreAnswersOf self.now file kept
            × (kept.strange ≡ names_stranger self.now.host.now file)) }
        ensures refused { IfErr result (IsFaultOf (file_by (names_by self.now) text.now)) }
    {
        let file = read_file(alloc, text, self.host)?;
        let strange = names_stranger(self.host, &file);
        let sticky = file.flags.sticky;
        let (owners, list) = owners_and_list(alloc, self.rules, file)?;
        let acl = FileAcl {
            owners,
            list: list.as_ref(),
        };
        let granted = self.granted(alloc, sticky, &acl)?;
        let search = self.search(alloc, &acl)?;
        let lines = Vec::from_slice(alloc, lines)?;
        Ok(Kept {
            lines,
            granted,
            search,
            strange,
        })
    }

    /// Appends what is reported for a file at the path, which lies there, and whose answers these
    /// are, kept at the place.
    fn push(
        &self,
        alloc: Global,
        place: usize,
        kept: &Kept,
        inside: Inside<'_>,
        path: &[u8],
        recent: &mut RecentNumbers,
        out: &mut Vec<u8>,
    ) -> Result<(), FileFault>
        ensures { (file : FileValue) (sticky : Bool) (way : List File)
            → AreAnswersOf self.now file kept.now → IsInside self.now sticky way inside.entry
            → IsPart (part_of (asking_of self.now).persons (question_by self.now) sticky way
            path.now (file_of self.now.rules file)) result out.old.items out.new.items }
    {
        let names = self.people.names.as_slice();
        let reach = inside.reach;
        match &kept.granted {
            Granted::Letters(letters) => {
                push_letters_lines(names, letters.as_slice(), reach, path, out)?;
            }
            Granted::Numbered(letters) => {
                recent.push(alloc, place, names, letters.as_slice(), reach, out)?;
            }
            Granted::Masks(masks) => {
                push_letters_lines(names, masks.as_slice(), reach, path, out)?;
            }
            Granted::Those(places) => {
                push_may_lines(names, places.as_slice(), reach, path, out)?;
            }
            Granted::Entries(decided) => {
                push_decided_lines(names, decided.as_slice(), reach, path, out)?;
            }
            Granted::Standings(standings) => {
                let Some(folder) = inside.folder else {
                    return Ok(());
                };
                let places = places_of_takers(alloc, folder, standings.as_slice())?;
                push_may_lines(names, places.as_slice(), reach, path, out)?;
            }
        }
        Ok(())
    }
}

/// What was kept at the place.
fn kept_at(kept: &[Option<Kept>], place: usize) -> Option<&Kept>
    ensures { option_map (λ kept. kept.now) result ≡ kept_at kept.now place }
{
    match kept.get(place) {
        Some(Some(kept)) => Some(kept),
        _ => None,
    }
}

/// Answers of files, by the lines of their blocks.
#[derive(Drop)]
pub(super) struct Answers<'t> {
    users: Users<'t>,
    kept: Vec<Option<Kept>>,
    recent: RecentNumbers,
    /// Whether the block that was looked up last names an id without an account.
    found: bool,
}

impl<'t> Answers<'t> {
    /// No answers yet.
    pub fn new(alloc: Global, users: Users<'t>) -> Result<Answers<'t>, AllocError>
        ensures users { IfOk result (λ answers. answers.users ≡ users.entry) }
        ensures right { IfOk result AreRight }
    {
        let mut kept = Vec::with_capacity(alloc, PLACES)?;
        for _ in 0..PLACES {
            kept.push(None)?;
        }
        let recent = RecentNumbers::new(alloc)?;
        Ok(Answers {
            users,
            kept,
            found: false,
            recent,
        })
    }

    /// What was kept at the place.
    pub fn at(&self, place: usize) -> Option<&Kept>
        ensures { option_map (λ kept. kept.now) result ≡ kept_at self.now.kept.items place }
    {
        kept_at(self.kept.as_slice(), place)
    }

    /// Whether the block that was looked up last names an id without an account.
    pub fn found(&self) -> bool
        ensures { result ≡ self.now.found }
    {
        self.found
    }

    /// The first such id that the block with this text names, which names one.
    pub fn stranger(&self, text: &[u8]) -> Option<Stranger>
        ensures { is_some (stranger_by self.now.users text.now) ≡ true
            → result ≡ stranger_by self.now.users text.now }
    {
        block_stranger(self.users.host, text)
    }

    /// Whether the block whose answers are kept at the place names one.
    fn strange_at(&self, place: usize) -> bool
        ensures { result ≡ strange_kept (kept_at self.now.kept.items place) }
    {
        match self.at(place) {
            Some(kept) => kept.strange,
            None => false,
        }
    }

    /// Whether what is kept at the place is of a file with these lines.
    fn is_of(&self, place: usize, lines: &[u8]) -> bool
        ensures { result ≡ option_map_or (λ kept. bytes_eq kept.lines.items lines.now)
            (kept_at self.now.kept.items place) false }
    {
        match self.at(place) {
            Some(kept) => kept.lines.as_slice() == lines,
            None => false,
        }
    }

    /// The place where the answers for the file of the block with this text are kept. These are its
    /// path and the lines behind the first.
    pub fn find(
        &mut self,
        alloc: Global,
        path: Option<&[u8]>,
        text: &[u8],
        lines: &[u8],
    ) -> Result<usize, FileFault>
        requires path { option_map (λ path. path.now) path ≡ path_of text.now }
        requires lines { lines.now ≡ after_line text.now }
        ensures users { self.new.users ≡ self.old.users }
        ensures right { AreRight self.old → AreRight self.new }
        ensures found { AreRight self.old → IfOk result (λ place. (file : FileValue)
            × (file_by (names_by self.old.users) text.now ≡ Ok file)
            × IsAnsweredAt self.new place file) }
        ensures refused { IfErr result
            (IsFaultOf (file_by (names_by self.old.users) text.now)) }
        ensures stranger { AreRight self.old → UnlessMemory result
            (self.new.found ≡ is_some (stranger_by self.old.users text.now)) }
    {
        let place = place_for_text(lines);
        if text.len() <= MAX_BLOCK && path.is_some() && self.is_of(place, lines) {
            self.found = self.strange_at(place);
            return Ok(place);
        }
        self.found = false;
        let kept = self.users.answer(alloc, text, lines)?;
        self.found = kept.strange;
        if place < self.kept.len() {
            self.kept[place] = Some(kept);
        }
        Ok(place)
    }

    /// Appends what is reported for the file at the path, which lies there, and whose answers are
    /// kept at the place.
    pub fn push_at(
        &mut self,
        alloc: Global,
        place: usize,
        inside: Inside<'_>,
        path: &[u8],
        out: &mut Vec<u8>,
    ) -> Result<(), FileFault>
        ensures same { self.new ≡ self.old }
        ensures reported { (file : FileValue) (sticky : Bool) (way : List File)
            → IsAnsweredAt self.old place file → IsInside self.old.users sticky way inside.entry
            → IsPart (part_of (asking_of self.old.users).persons (question_by self.old.users) sticky
            way (printed_path path.now) (file_of self.old.users.rules file)) result out.old.items
            out.new.items }
    {
        match kept_at(self.kept.as_slice(), place) {
            Some(kept) => {
                let printed = PrintedPath::of(alloc, path)?;
                let recent = &mut self.recent;
                self.users
                    .push(alloc, place, kept, inside, printed.bytes(), recent, out)
            }
            None => Ok(()),
        }
    }
}
