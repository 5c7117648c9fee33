//! The lines of a path, of people by their places.
ghost use Rattle.std.specs.Prelude.{◌≡◌, ◌++◌, [], OnOk, option_map};
ghost use Rattle.acl_bridge.specs.Comparison.{mask_for};
ghost use Rattle.acl_names.specs.Bits.{without};
ghost use Rattle.acl_nfs4.specs.Mask.{mask_bits};
ghost use Rattle.acl_people.specs.Asked.{persons_in};
ghost use Rattle.acl_listing_reach.specs.LineSteps.{line_there};
ghost use Rattle.acl_listing_reach.specs.ReachText.{after_by, all_lines, alone_text};
ghost use Rattle.acl_listing_reach.specs.ReachText.{differ_text, first_line, gone_by, number_at};
ghost use Rattle.acl_listing_reach.specs.ReachText.{since_text};
ghost use Rattle.acl_listing_reach.specs.Asking.{asking_by};

use acl_access::PrintedPath;
use acl_bridge::bits::mask_for;
use acl_listing_changes::{push_path, push_person_at};
use acl_nfs4::Mask;
use acl_people::People;
use acl_posix::Perms;
use bitflags::Flags;
use std::alloc::{AllocError, Global};

/// Who is asked about, and how it is reported.
#[derive(Clone, Copy)]
pub(crate) struct Asking<'t> {
    pub people: &'t People,
    /// Whether each of these people has a line, and not only the first.
    pub each: bool,
    /// Whether the exit status reports that there is a line.
    pub asks: bool,
}

/// The number of the letters at the place.
fn number_at(letters: &[u8], place: usize) -> u8
    ensures { result ≡ number_at letters.now place }
{
    letters.get(place).copied().unwrap_or(0)
}

/// The bits of the letters that the other number lacks.
#[tactic(auto, unfolding(acl_names::specs::Bits::without))]
fn lacking(letters: u8, other: u8) -> Mask
    ensures { mask_bits result ≡ mask_for (without letters other) }
{
    mask_for(Perms::from_bits_retain(letters ^ (letters & other)))
}

/// Appends the line of who is at the place, if the letters there differ. Fails only if memory runs
/// out.
fn push_line_at(
    people: &People,
    old: &[u8],
    new: &[u8],
    path: &[u8],
    place: usize,
    out: &mut Vec<u8>,
) -> Result<(), AllocError>
    ensures { OnOk result (out.new.items
        ≡ out.old.items ++ line_there (persons_in people.now) old.now new.now path.now place) }
{
    let before = number_at(old, place);
    let after = number_at(new, place);
    if before == after {
        return Ok(());
    }
    let lost = lacking(before, after);
    let gained = lacking(after, before);
    push_person_at(people, place, lost, gained, path, out)
}

/// Appends the line of each whose letters differ.
fn push_all(
    people: &People,
    old: &[u8],
    new: &[u8],
    path: &[u8],
    out: &mut Vec<u8>,
) -> Result<(), AllocError>
    ensures { OnOk result (out.new.items
        ≡ out.old.items ++ all_lines (persons_in people.now) old.now new.now path.now) }
{
    for place in 0..people.requesters.len() {
        push_line_at(people, old, new, path, place, out)?;
    }
    Ok(())
}

/// Appends the line of the first whose letters differ.
fn push_first(
    people: &People,
    old: &[u8],
    new: &[u8],
    path: &[u8],
    out: &mut Vec<u8>,
) -> Result<(), AllocError>
    ensures { OnOk result (out.new.items
        ≡ out.old.items ++ first_line (persons_in people.now) old.now new.now path.now) }
{
    let kept = out.len();
    for place in 0..people.requesters.len() {
        push_line_at(people, old, new, path, place, out)?;
        if out.len() > kept {
            return Ok(());
        }
    }
    Ok(())
}

impl<'t> Asking<'t> {
    /// Appends the lines of a file that had the one letters and has the other ones.
    fn push_differ(
        &self,
        old: &[u8],
        new: &[u8],
        path: &[u8],
        out: &mut Vec<u8>,
    ) -> Result<(), AllocError>
        ensures { OnOk result (out.new.items
            ≡ out.old.items ++ differ_text (asking_by self.now) old.now new.now path.now) }
    {
        // However many there are, nobody is looked at where all is as it was.
        if old == new {
            return Ok(());
        }
        if self.each {
            push_all(self.people, old, new, path, out)
        } else {
            push_first(self.people, old, new, path, out)
        }
    }

    /// Appends the lines of a path with these letters that is gone, or else new.
    fn push_alone(
        &self,
        gone: bool,
        letters: &[u8],
        path: &[u8],
        out: &mut Vec<u8>,
    ) -> Result<(), AllocError>
        ensures { OnOk result (out.new.items
            ≡ out.old.items ++ alone_text gone (asking_by self.now) letters.now path.now) }
    {
        push_path(gone, path, out)?;
        if !self.each {
            return Ok(());
        }
        if gone {
            push_all(self.people, letters, &[], path, out)
        } else {
            push_all(self.people, &[], letters, path, out)
        }
    }

    /// Appends the lines of a path of the listing after, with these letters, by what is known of it
    /// before, if the listing before has it.
    fn push_since(
        &self,
        was: Option<Option<&[u8]>>,
        letters: &[u8],
        path: &[u8],
        out: &mut Vec<u8>,
    ) -> Result<(), AllocError>
        ensures { OnOk result (out.new.items ≡ out.old.items ++ since_text (asking_by self.now)
            (option_map (option_map (λ letters. letters.now)) was.entry) letters.now path.now) }
    {
        match was {
            None => self.push_alone(false, letters, path, out),
            Some(None) => Ok(()),
            Some(Some(old)) => self.push_differ(old, letters, path, out),
        }
    }

    /// The same, if its letters are known.
    pub fn push_after(
        &self,
        alloc: Global,
        was: Option<Option<&[u8]>>,
        letters: Option<&[u8]>,
        path: &[u8],
        out: &mut Vec<u8>,
    ) -> Result<(), AllocError>
        ensures { OnOk result (out.new.items ≡ out.old.items ++ after_by (asking_by self.now)
            (option_map (option_map (λ letters. letters.now)) was.entry)
            (option_map (λ letters. letters.now) letters.entry) path.now) }
    {
        match letters {
            Some(letters) => {
                let printed = PrintedPath::of(alloc, path)?;
                self.push_since(was, letters, printed.bytes(), out)
            }
            None => Ok(()),
        }
    }

    /// Appends the lines of a path of the listing before, if the listing after hasn't it, and its
    /// letters are known.
    pub fn push_gone(
        &self,
        alloc: Global,
        there: bool,
        letters: Option<&[u8]>,
        path: &[u8],
        out: &mut Vec<u8>,
    ) -> Result<(), AllocError>
        ensures { OnOk result (out.new.items ≡ out.old.items ++ gone_by (asking_by self.now) there
            (option_map (λ letters. letters.now) letters.entry) path.now) }
    {
        if there {
            return Ok(());
        }
        match letters {
            Some(letters) => {
                let printed = PrintedPath::of(alloc, path)?;
                self.push_alone(true, letters, printed.bytes(), out)
            }
            None => Ok(()),
        }
    }
}
