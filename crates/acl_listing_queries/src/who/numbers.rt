//! The numbers of permissions that were reported last.
ghost use Rattle.std.specs.Prelude.{◌≡◌, ◌++◌, IfOk, IfSome, List, OnOk, map, ℕ};
ghost use Rattle.std.specs.Bool.{Decides, MatchBool};
ghost use Rattle.acl_posix.specs.Perms.{bits_of};
ghost use Rattle.acl_listing_queries.specs.WhoSteps.{AreNumbersOf, numbers_of_each};

use super::lines::push_numbers;
use crate::places::PLACES;
use acl_posix::Perms;
use std::alloc::{AllocError, Global};
use std::marker::Model;

/// Whether the permissions are the same.
fn are_same_letters(letters: &[Perms], others: &[Perms]) -> bool
    ensures { Decides result (map bits_of letters.now ≡ map bits_of others.now) }
{
    letters == others
}

/// Whether the same places are set.
fn are_same_marks(marks: &[bool], others: &[bool]) -> bool
    ensures { Decides result (marks.now ≡ others.now) }
{
    marks == others
}

/// What was reported of the permissions of users, of whom these reach a file.
#[derive(Drop)]
struct Reported {
    letters: Vec<Perms>,
    reach: Vec<bool>,
    /// How many users there are.
    count: usize,
    numbers: Vec<u8>,
}

impl Model for Reported {
    ghost use Rattle.std.specs.Prelude.{⊤};
    ghost use Rattle.acl_listing_queries.specs.WhoSteps.{AreNumbersOf};

    ghost Value = { ⊤ };

    ghost view = { λ inside. tt };

    ghost invariant = { λ inside. AreNumbersOf inside.count inside.letters.items
        inside.reach.items inside.numbers.items };
}

impl Reported {
    /// These numbers, reported of these permissions of so many users.
    fn new(
        alloc: Global,
        count: usize,
        letters: &[Perms],
        reach: &[bool],
        numbers: Vec<u8>,
    ) -> Result<Reported, AllocError>
        requires { AreNumbersOf count letters.now reach.now numbers.items }
    {
        Ok(Reported {
            letters: Vec::from_slice(alloc, letters)?,
            reach: Vec::from_slice(alloc, reach)?,
            count,
            numbers,
        })
    }

    /// What was reported, if it was of these permissions of so many users.
    fn find(&self, count: usize, letters: &[Perms], reach: &[bool]) -> Option<&[u8]>
        ensures { IfSome result (λ numbers. AreNumbersOf count letters.now reach.now numbers.now) }
    {
        if self.count != count {
            return None;
        }
        if !are_same_letters(self.letters.as_slice(), letters) {
            return None;
        }
        if !are_same_marks(self.reach.as_slice(), reach) {
            return None;
        }
        Some(self.numbers.as_slice())
    }
}

/// What was reported last of the files of each place: as a rule that is what is reported next. A
/// contract sees nothing of it.
#[derive(Drop)]
pub(super) struct RecentNumbers {
    reported: Vec<Option<Reported>>,
}

impl Model for RecentNumbers {
    ghost use Rattle.std.specs.Prelude.{⊤};

    ghost Value = { ⊤ };

    ghost view = { λ inside. tt };
}

impl RecentNumbers {
    /// Nothing yet.
    pub fn new(alloc: Global) -> Result<RecentNumbers, AllocError> {
        let mut reported = Vec::with_capacity(alloc, PLACES)?;
        for _ in 0..PLACES {
            reported.push(None)?;
        }
        Ok(RecentNumbers { reported })
    }

    /// Appends what was reported last of a file of the place, if that was of these permissions.
    /// Returns whether it was.
    fn push_again(
        &self,
        place: usize,
        count: usize,
        letters: &[Perms],
        reach: &[bool],
        out: &mut Vec<u8>,
    ) -> Result<bool, AllocError>
        ensures { IfOk result (λ again. MatchBool again ((numbers : List ℕ)
            × AreNumbersOf count letters.now reach.now numbers
            × (out.new.items ≡ out.old.items ++ numbers)) (out.new.items ≡ out.old.items)) }
    {
        let Some(Some(reported)) = self.reported.get(place) else {
            return Ok(false);
        };
        let Some(numbers) = reported.find(count, letters, reach) else {
            return Ok(false);
        };
        out.extend_from_slice(numbers)?;
        Ok(true)
    }

    /// Appends a byte for each of the names, as `push_numbers` does, of a file of the place.
    pub fn push(
        &mut self,
        alloc: Global,
        place: usize,
        names: &[Vec<u8>],
        letters: &[Perms],
        reach: &[bool],
        out: &mut Vec<u8>,
    ) -> Result<(), AllocError>
        ensures { OnOk result (out.new.items ≡ out.old.items ++ numbers_of_each
            (map (λ name. name.items) names.now) (map bits_of letters.now) reach.now) }
    {
        if self.push_again(place, names.len(), letters, reach, out)? {
            return Ok(());
        }
        let mut numbers = Vec::with_capacity(alloc, names.len())?;
        push_numbers(names, letters, reach, &mut numbers)?;
        out.extend_from_slice(numbers.as_slice())?;
        let reported = Reported::new(alloc, names.len(), letters, reach, numbers)?;
        if place < self.reported.len() {
            self.reported[place] = Some(reported);
        }
        Ok(())
    }
}
