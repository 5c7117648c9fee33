//! The paths of a listing, and the letters of their files.
ghost use Rattle.std.specs.Prelude.{◌≡◌, ◌++◌, ◌∷◌, [], false, IfOk, OnOk, Some};
ghost use Rattle.std.specs.Bool.{Decides};
ghost use Rattle.std.specs.Prelude.{length, map, option_map, slice_get};
ghost use Rattle.acl_listing_reach.specs.KnownSteps.{IsGrownBy, IsGrownByAny, IsWithin, at_in};
ghost use Rattle.acl_listing_reach.specs.KnownSteps.{letters_in};
ghost use Rattle.acl_listing_reach.specs.Known.{shown_path};
ghost use Rattle.acl_listing_reach.specs.Once.{At, has_path, letters_for};

use acl_listing_queries::{PLACES, place_for_text};
use indexmap::{IndexMap, IndexSet};
use std::alloc::{AllocError, Global};
use std::marker::Model;

/// A path, and the letters of its file, if they are known.
#[derive(Clone, Copy)]
pub(crate) struct KnownPath<'t> {
    pub path: &'t [u8],
    pub letters: Option<&'t [u8]>,
}

/// The paths of a listing, each once and in its order, and the letters of each one's file, if they
/// are known. A contract sees the list of these.
#[derive(Drop)]
pub(crate) struct KnownPaths {
    /// Where the letters of each path stand.
    paths: IndexMap<Vec<u8>, Option<usize>>,
    /// The letters that there are, each once: most files have those of many others.
    letters: IndexSet<Vec<u8>>,
    /// Where letters may stand, by the place that they have as a text: there they are looked for
    /// first.
    guesses: [usize; PLACES],
}

impl Model for KnownPaths {
    ghost use Rattle.std.specs.Prelude.{List, length, map};
    ghost use Rattle.acl_listing_reach.specs.KnownSteps.{AreWithin, at_in};
    ghost use Rattle.acl_listing_reach.specs.Once.{At};

    ghost Value = { List At };

    ghost view = { λ inside. map (at_in inside.letters.keys) inside.paths.entries };

    ghost invariant = { λ inside. AreWithin (length inside.letters.keys) inside.paths.entries };
}

/// Whether these letters are those at the place.
fn are_at(known: &IndexSet<Vec<u8>>, place: usize, letters: &[u8]) -> bool
    ensures { Decides result (letters_in known.now.keys (Some place) ≡ Some letters.now) }
{
    match known.get_index(place) {
        Some(found) => found.as_slice() == letters,
        None => false,
    }
}

/// The place of these letters among those that there are, to which they are added if they are new.
fn place_for(
    alloc: Global,
    known: &mut IndexSet<Vec<u8>>,
    letters: &[u8],
) -> Result<usize, AllocError>
    ensures there { IfOk result (λ place. letters_in known.new.keys (Some place)
        ≡ Some letters.now) }
    ensures grown { IsGrownBy letters.now known.old.keys known.new.keys }
{
    if let Some((place, found)) = known.get_full(letters) {
        if found.as_slice() == letters {
            return Ok(place);
        }
    }
    match known.insert_full(Vec::from_slice(alloc, letters)?) {
        Ok((place, _)) => Ok(place),
        Err(_) => Err(AllocError),
    }
}

/// The same, with a look where they may stand before.
fn guessed_place_for(
    alloc: Global,
    known: &mut IndexSet<Vec<u8>>,
    guesses: &mut [usize; PLACES],
    letters: &[u8],
) -> Result<usize, AllocError>
    ensures there { IfOk result (λ place. letters_in known.new.keys (Some place)
        ≡ Some letters.now) }
    ensures grown { IsGrownBy letters.now known.old.keys known.new.keys }
{
    let at = place_for_text(letters);
    let guess = guesses[at];
    if are_at(known, guess, letters) {
        return Ok(guess);
    }
    let place = place_for(alloc, known, letters)?;
    guesses[at] = place;
    Ok(place)
}

/// The place of these letters, if there are any.
fn place_for_any(
    alloc: Global,
    known: &mut IndexSet<Vec<u8>>,
    guesses: &mut [usize; PLACES],
    letters: Option<&[u8]>,
) -> Result<Option<usize>, AllocError>
    ensures there { IfOk result (λ place. letters_in known.new.keys place
        ≡ option_map (λ letters. letters.now) letters.entry) }
    ensures within { IfOk result (IsWithin (length known.new.keys)) }
    ensures grown { IsGrownByAny (option_map (λ letters. letters.now) letters.entry)
        known.old.keys known.new.keys }
{
    match letters {
        Some(letters) => Ok(Some(guessed_place_for(alloc, known, guesses, letters)?)),
        None => Ok(None),
    }
}

/// The letters at the place, if there are any.
fn letters_at(known: &IndexSet<Vec<u8>>, place: Option<usize>) -> Option<&[u8]>
    ensures { option_map (λ letters. letters.now) result ≡ letters_in known.now.keys place }
{
    match place {
        Some(place) => match known.get_index(place) {
            Some(letters) => Some(letters.as_slice()),
            None => None,
        },
        None => None,
    }
}

/// What is known of the path, if it is one of these.
fn letters_for<'t>(
    paths: &IndexMap<Vec<u8>, Option<usize>>,
    known: &'t IndexSet<Vec<u8>>,
    path: &[u8],
) -> Option<Option<&'t [u8]>>
    ensures { option_map (option_map (λ letters. letters.now)) result
        ≡ letters_for path.now (map (at_in known.now.keys) paths.now.entries) }
{
    match paths.get(path) {
        Some(place) => Some(letters_at(known, *place)),
        None => None,
    }
}

/// The path at the place, with its letters.
fn path_at<'t>(
    paths: &'t IndexMap<Vec<u8>, Option<usize>>,
    known: &'t IndexSet<Vec<u8>>,
    place: usize,
) -> Option<KnownPath<'t>>
    ensures { option_map shown_path result
        ≡ slice_get (map (at_in known.now.keys) paths.now.entries) place }
{
    match paths.get_index(place) {
        Some((path, letters)) => Some(KnownPath {
            path: path.as_slice(),
            letters: letters_at(known, *letters),
        }),
        None => None,
    }
}

impl KnownPaths {
    /// No path.
    pub fn new(alloc: Global) -> KnownPaths
        ensures { result ≡ [] }
    {
        KnownPaths {
            paths: IndexMap::new(alloc),
            letters: IndexSet::new(alloc),
            guesses: [0; PLACES],
        }
    }

    /// How many there are.
    pub fn len(&self) -> usize
        ensures { result ≡ length self.now }
    {
        self.paths.len()
    }

    /// Whether the path is one of them.
    pub fn has(&self, path: &[u8]) -> bool
        ensures { result ≡ has_path path.now self.now }
    {
        self.paths.contains_key(path)
    }

    /// What is known of the path, if it is one of them.
    pub fn find(&self, path: &[u8]) -> Option<Option<&[u8]>>
        ensures { option_map (option_map (λ letters. letters.now)) result
            ≡ letters_for path.now self.now }
    {
        letters_for(&self.paths, &self.letters, path)
    }

    /// The path at the place, with its letters.
    pub fn at(&self, place: usize) -> Option<KnownPath<'_>>
        ensures { option_map shown_path result ≡ slice_get self.now place }
    {
        path_at(&self.paths, &self.letters, place)
    }

    /// One more, which isn't one of them yet. It fails only if memory runs out.
    pub fn push(
        &mut self,
        alloc: Global,
        path: &[u8],
        letters: Option<&[u8]>,
    ) -> Result<(), AllocError>
        requires { has_path path.now self.old ≡ false }
        ensures { OnOk result (self.new ≡ self.old ++ record {
          path = path.now;
          letters = option_map (λ letters. letters.now) letters.entry;
        } ∷ []) }
    {
        let place = place_for_any(alloc, &mut self.letters, &mut self.guesses, letters)?;
        match self.paths.insert(Vec::from_slice(alloc, path)?, place) {
            Ok(_) => Ok(()),
            Err(_) => Err(AllocError),
        }
    }
}
