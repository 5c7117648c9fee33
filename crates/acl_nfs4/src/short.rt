//! Printing lists of entries: the short form.

ghost use Rattle.std.specs.Prelude.{◌≡◌, ◌<◌, ◌+◌, ◌++◌, ◌∷◌, length, flat_map, vec_len};
ghost use Rattle.std.specs.Prelude.{vec_capacity, OnOk, OnErr};
ghost use Rattle.acl_names.specs.Bytes.{comma};
ghost use Rattle.acl_names.specs.Directory.{Known};
ghost use Rattle.acl_names.specs.ListText.{Spells};
ghost use Rattle.acl_names.specs.Pushing.{PushesInRoom};
ghost use Rattle.acl_nfs4.specs.AceText.{piece_value};
ghost use Rattle.acl_nfs4.specs.PrintedText.{short_ace, short_text, short_who, HaveIds};
ghost use Rattle.acl_nfs4.specs.Who.{HasId};
ghost use Rattle.acl_nfs4.specs.declared.limits.TheConstants.{MAX_ACES};

use crate::letters::push_mask;
use crate::printing::push_front;
use crate::{Ace, Acl4, Who};
use acl_names::push_decimal;
use std::alloc::AllocError;

impl Acl4 {
    /// Appends the entries in order, in one line with commas between them, as in
    /// `A::OWNER@:rwatTcCoy,A:g:50:rx`: as `print_aces` prints them, but with decimal ids. Appends
    /// nothing for a list without entries. Fails only if memory runs out, and never if `out` has
    /// room for the text; then `out` is as it was.
    pub fn print_short(&self, out: &mut Vec<u8>) -> Result<(), AllocError>
        ensures text { OnOk result (out.new.items ≡ out.old.items ++ short_text self.now) }
        ensures unchanged { OnErr result (out.new.items ≡ out.old.items) }
        ensures room { OnErr result (vec_capacity out.old
            < vec_len out.old + length (short_text self.now)) }
        ensures have_ids { OnOk result (HaveIds self.now) }
        // The text is read as these entries, whatever names a directory has.
        ensures read_again { OnOk result ((known : Known)
            → Spells (piece_value known) MAX_ACES (short_text self.now) self.now) }
    {
        let old_len = out.len();
        let printed = push_short_aces(self.aces(), out);
        if printed.is_err() {
            out.truncate(old_len);
        }
        printed
    }
}

/// Appends the entries with commas between them.
fn push_short_aces(aces: &[Ace], out: &mut Vec<u8>) -> Result<(), AllocError>
    ensures printed { PushesInRoom (short_text aces.now) result out.old out.new }
    ensures have_ids { OnOk result (HaveIds aces.now) }
{
    match aces.split_first() {
        Some((first, rest)) => {
            push_short_ace(first, out)?;
            push_further_aces(rest, out)
        }
        None => Ok(()),
    }
}

/// Appends the entries with a comma before each.
fn push_further_aces(aces: &[Ace], out: &mut Vec<u8>) -> Result<(), AllocError>
    ensures printed { PushesInRoom (flat_map (λ ace. comma ∷ short_ace ace) aces.now) result out.old
        out.new }
    ensures have_ids { OnOk result (HaveIds aces.now) }
{
    for ace in aces {
        push_further_ace(ace, out)?;
    }
    Ok(())
}

/// Appends a comma and the entry.
fn push_further_ace(ace: &Ace, out: &mut Vec<u8>) -> Result<(), AllocError>
    ensures printed { PushesInRoom (comma ∷ short_ace ace.now) result out.old out.new }
    ensures has_id { OnOk result (HasId ace.now.who) }
{
    out.push(b',')?;
    push_short_ace(ace, out)
}

/// Appends the entry as `print_short` does. Fails only if memory runs out, and never if `out` has
/// room for the text; what `out` held stays in front.
pub fn push_short_ace(ace: &Ace, out: &mut Vec<u8>) -> Result<(), AllocError>
    ensures printed { PushesInRoom (short_ace ace.now) result out.old out.new }
    ensures has_id { OnOk result (HasId ace.now.who) }
{
    push_front(ace, out)?;
    push_short_who(&ace.who(), out)?;
    out.push(b':')?;
    push_mask(ace.mask(), out)
}

fn push_short_who(who: &Who, out: &mut Vec<u8>) -> Result<(), AllocError>
    ensures printed { PushesInRoom (short_who who.now) result out.old out.new }
    ensures has_id { HasId who.now }
{
    match *who {
        Who::Owner => out.extend_from_slice(b"OWNER@"),
        Who::Group => out.extend_from_slice(b"GROUP@"),
        Who::Everyone => out.extend_from_slice(b"EVERYONE@"),
        Who::User(uid) => push_decimal(uid.value(), out),
        Who::NamedGroup(gid) => push_decimal(gid.value(), out),
    }
}
