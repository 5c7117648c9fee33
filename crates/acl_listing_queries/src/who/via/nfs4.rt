//! The entries of an NFSv4 list that decide.
ghost use Rattle.std.specs.Prelude.{◌≡◌, ◌++◌, ◌∷◌, [], IfOk, OnOk, decimal, fold, map};
ghost use Rattle.std.specs.Prelude.{if◌then◌else◌};
ghost use Rattle.std.specs.List.{enumerate_from, flat_map};
ghost use Rattle.acl_nfs4.specs.Mask.{mask_bits};
ghost use Rattle.acl_nfs4.specs.Who.{matches};
ghost use Rattle.acl_listing_queries.specs.Via.{is_place_of, nfs4_via, number_words, or_hyphen};
ghost use Rattle.acl_listing_queries.specs.Via.{speaker_of, with_word};

use super::push_word;
use acl_names::Requester;
use acl_nfs4::{Ace, Acl4, Mask, Owners};
use acl_queries::first_speaker;
use bitflags::Flags;
use itoa::Buffer;
use std::alloc::{AllocError, Global};

/// The bits of a mask, each by itself.
const BITS: [Mask; 14] = [
    Mask::READ_DATA,
    Mask::WRITE_DATA,
    Mask::APPEND_DATA,
    Mask::READ_NAMED_ATTRS,
    Mask::WRITE_NAMED_ATTRS,
    Mask::EXECUTE,
    Mask::DELETE_CHILD,
    Mask::READ_ATTRIBUTES,
    Mask::WRITE_ATTRIBUTES,
    Mask::DELETE,
    Mask::READ_ACL,
    Mask::WRITE_ACL,
    Mask::WRITE_OWNER,
    Mask::SYNCHRONIZE,
];

/// A request of bits by a requester, for a file of these owners.
#[derive(Clone, Copy)]
struct MaskAsked<'t> {
    acl: &'t Acl4,
    owners: Owners,
    requester: &'t Requester,
    bits: Mask,
}

impl<'t> MaskAsked<'t> {
    /// Appends the place of the first entry that allows or denies the bit, a mask of one, if it is
    /// requested.
    fn push_speaker(&self, bit: Mask, places: &mut Vec<usize>) -> Result<(), AllocError>
        ensures { OnOk result (places.new.items ≡ places.old.items ++ speaker_of
            (matches self.now.owners.owner self.now.owners.group self.now.requester.now)
            (mask_bits self.now.bits) self.now.acl.now (mask_bits bit)) }
    {
        if !self.bits.contains(bit) {
            return Ok(());
        }
        let (owner, group) = (self.owners.owner, self.owners.group);
        if let Some(place) = first_speaker(self.acl, owner, group, self.requester, bit) {
            places.push(place)?;
        }
        Ok(())
    }

    /// For each of the bits that is requested, the place of the first entry that allows or denies
    /// it.
    fn speakers(&self, alloc: Global, bits: &[Mask]) -> Result<Vec<usize>, AllocError>
        ensures { IfOk result (λ places. places.items ≡ flat_map (speaker_of
            (matches self.now.owners.owner self.now.owners.group self.now.requester.now)
            (mask_bits self.now.bits) self.now.acl.now) (map mask_bits bits.now)) }
    {
        let mut places = Vec::new(alloc);
        for bit in bits {
            self.push_speaker(*bit, &mut places)?;
        }
        Ok(places)
    }
}

/// Whether the place is among these.
fn is_place_of(places: &[usize], place: usize) -> bool
    ensures { result ≡ is_place_of places.now place }
{
    places.iter().any(|other| *other == place)
}

/// Appends the number, if `is` is true.
fn push_number_if(number: usize, is: bool, out: &mut Vec<u8>) -> Result<(), AllocError>
    ensures { OnOk result (out.new.items
        ≡ fold with_word out.old.items (if is then decimal number ∷ [] else [])) }
{
    if is {
        push_word(Buffer::new().format(number).as_bytes(), out)?;
    }
    Ok(())
}

/// The numbers of the entries at the places, from 1.
fn numbers(alloc: Global, aces: &[Ace], places: &[usize]) -> Result<Vec<u8>, AllocError>
    ensures { IfOk result (λ via. via.items
        ≡ fold with_word [] (flat_map (number_words places.now) (enumerate_from 0 aces.now))) }
{
    let mut out = Vec::new(alloc);
    for (place, _ace) in aces.iter().enumerate() {
        push_number_if(place + 1, is_place_of(places, place), &mut out)?;
    }
    Ok(out)
}

/// Appends a hyphen to an empty text.
fn push_hyphen_if_empty(text: &mut Vec<u8>) -> Result<(), AllocError>
    ensures { OnOk result (text.new.items ≡ or_hyphen text.old.items) }
{
    if text.is_empty() {
        text.push(b'-')?;
    }
    Ok(())
}

/// The numbers of the entries that decide for the requester, for a file of these owners: the first
/// for each of the bits; a hyphen without bits. Fails only if memory runs out.
pub(crate) fn nfs4_via(
    alloc: Global,
    acl: &Acl4,
    owners: Owners,
    requester: &Requester,
    bits: Mask,
) -> Result<Vec<u8>, AllocError>
    ensures { IfOk result (λ via. via.items
        ≡ nfs4_via acl.now owners requester.now (mask_bits bits)) }
{
    let asked = MaskAsked {
        acl,
        owners,
        requester,
        bits,
    };
    let places = asked.speakers(alloc, &BITS)?;
    let mut via = numbers(alloc, acl.aces(), places.as_slice())?;
    push_hyphen_if_empty(&mut via)?;
    Ok(via)
}
