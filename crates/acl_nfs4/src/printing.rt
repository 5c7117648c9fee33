//! Printing lists of entries.

ghost use Rattle.std.specs.Prelude.{◌≡◌, ◌≤◌, ◌<◌, ◌+◌, ◌*◌, ◌++◌, length, option_map, vec_len};
ghost use Rattle.std.specs.Prelude.{vec_capacity, OnOk, OnErr};
ghost use Rattle.acl_names.specs.ListText.{Spells};
ghost use Rattle.acl_names.specs.Pushing.{PushesInRoom};
ghost use Rattle.acl_nfs4.specs.AceText.{piece_value};
ghost use Rattle.acl_nfs4.specs.PrintedText.{ace_text, aces_text, front_text, HaveIds, line_text};
ghost use Rattle.acl_nfs4.specs.PrintedText.{named_text, type_text, who_text};
ghost use Rattle.acl_nfs4.specs.Who.{HasId};
ghost use Rattle.acl_nfs4.specs.declared.limits.TheConstants.{MAX_ACES};
ghost use Rattle.acl_nfs4.specs.declared.printing.TheConstants.{SHORTEST_LINE};

use crate::letters::{push_flags, push_mask};
use crate::limits::MAX_ACES;
use crate::{Ace, AceType, Acl4, Who};
use acl_names::{Directory, push_decimal};
use std::alloc::AllocError;

/// The length to reserve for each line; few lines are longer.
const USUAL_LINE: usize = 32;

/// How many bytes the shortest line has: a type, three colons and a newline.
const SHORTEST_LINE: usize = 5;

impl Acl4 {
    /// Appends the entries in order, one a line: `type:flags:who:letters` and a newline. `who` is
    /// the special word, `name@domain` if the directory has a name, and else a decimal. Fails only
    /// if memory runs out, and never if `out` has room for the text; then `out` is as it was.
    pub fn print_aces(&self, directory: &Directory, out: &mut Vec<u8>) -> Result<(), AllocError>
        ensures text { OnOk result (out.new.items
            ≡ out.old.items ++ aces_text directory.now self.now) }
        ensures unchanged { OnErr result (out.new.items ≡ out.old.items) }
        ensures room { OnErr result (vec_capacity out.old
            < vec_len out.old + length (aces_text directory.now self.now)) }
        // The text is read as these entries.
        ensures read_again { OnOk result (Spells (piece_value directory.now) MAX_ACES
            (aces_text directory.now self.now) self.now) }
    {
        directory.names_read_back();
        let aces = self.aces();
        ask_for_lines(aces.len(), out)?;
        let old_len = out.len();
        let printed = push_lines(aces, directory, out);
        if printed.is_err() {
            out.truncate(old_len);
        }
        printed
    }
}

/// Reserves room for `count` usual lines, if `out` lacks it even for the shortest.
fn ask_for_lines(count: usize, out: &mut Vec<u8>) -> Result<(), AllocError>
    requires { count ≤ MAX_ACES }
    ensures items { out.new.items ≡ out.old.items }
    ensures len { vec_len out.new ≡ vec_len out.old }
    ensures room { OnErr result (vec_capacity out.old < vec_len out.old + count * SHORTEST_LINE) }
    ensures capacity { vec_capacity out.old ≤ vec_capacity out.new }
{
    if out.capacity() - out.len() < count * SHORTEST_LINE {
        out.reserve(count * USUAL_LINE)?;
    }
    Ok(())
}

fn push_lines(aces: &[Ace], directory: &Directory, out: &mut Vec<u8>) -> Result<(), AllocError>
    ensures printed { PushesInRoom (aces_text directory.now aces.now) result out.old out.new }
    ensures have_ids { OnOk result (HaveIds aces.now) }
{
    for ace in aces {
        push_line(ace, directory, out)?;
    }
    Ok(())
}

fn push_line(ace: &Ace, directory: &Directory, out: &mut Vec<u8>) -> Result<(), AllocError>
    ensures printed { PushesInRoom (line_text directory.now ace.now) result out.old out.new }
    ensures has_id { OnOk result (HasId ace.now.who) }
{
    push_ace(ace, directory, out)?;
    out.push(b'\n')?;
    Ok(())
}

/// Appends the entry as `print_aces` does, without a newline: `type:flags:who:letters`. Fails only
/// if memory runs out, and never if `out` has room for the text; what `out` held stays in front.
pub fn push_ace(ace: &Ace, directory: &Directory, out: &mut Vec<u8>) -> Result<(), AllocError>
    ensures printed { PushesInRoom (ace_text directory.now ace.now) result out.old out.new }
    ensures has_id { OnOk result (HasId ace.now.who) }
{
    push_front(ace, out)?;
    push_who(&ace.who(), directory, out)?;
    out.push(b':')?;
    push_mask(ace.mask(), out)
}

/// Appends `type:flags:`.
#[tactic(auto, using(acl_names::proofs::Prefixes::printing_steps))]
pub(crate) fn push_front(ace: &Ace, out: &mut Vec<u8>) -> Result<(), AllocError>
    ensures { PushesInRoom (front_text ace.now) result out.old out.new }
{
    out.extend_from_slice(type_text(ace.kind()))?;
    out.push(b':')?;
    push_flags(ace.flags(), out)?;
    out.push(b':')?;
    Ok(())
}

fn type_text(kind: AceType) -> &'static [u8]
    ensures { result.now ≡ type_text kind }
{
    match kind {
        AceType::Allow => b"A",
        AceType::Deny => b"D",
        AceType::Audit => b"U",
        AceType::Alarm => b"L",
    }
}

fn push_who(who: &Who, directory: &Directory, out: &mut Vec<u8>) -> Result<(), AllocError>
    ensures printed { PushesInRoom (who_text directory.now who.now) result out.old out.new }
    ensures has_id { HasId who.now }
{
    match *who {
        Who::Owner => out.extend_from_slice(b"OWNER@"),
        Who::Group => out.extend_from_slice(b"GROUP@"),
        Who::Everyone => out.extend_from_slice(b"EVERYONE@"),
        Who::User(uid) => push_named(
            directory.user_name(uid),
            directory.domain(),
            uid.value(),
            out,
        ),
        Who::NamedGroup(gid) => push_named(
            directory.group_name(gid),
            directory.domain(),
            gid.value(),
            out,
        ),
    }
}

/// Appends the name in the domain, or the id in decimal if `name` is `None`.
fn push_named(
    name: Option<&str>,
    domain: &str,
    id: u32,
    out: &mut Vec<u8>,
) -> Result<(), AllocError>
    ensures { PushesInRoom (named_text (option_map (λ name. name.now) name.entry) domain.now id)
        result out.old out.new }
{
    match name {
        Some(name) => {
            out.extend_from_slice(name.as_bytes())?;
            out.push(b'@')?;
            out.extend_from_slice(domain.as_bytes())
        }
        None => push_decimal(id, out),
    }
}
