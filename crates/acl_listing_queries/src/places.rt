//! Places for texts.
ghost use Rattle.std.specs.Prelude.{◌<◌};

/// How many places there are.
pub const PLACES: usize = 256;

/// An odd number that spreads the bits of a word (2^64 by the golden ratio).
const FACTOR: u64 = 0x9e37_79b9_7f4a_7c15;

/// A place for a text, by a product over its words of 8 bytes: of texts that differ it is mostly
/// another. What is left behind the words is in the last 8 bytes, with which it begins. Each bit
/// bears on those above it alone, so the highest are the place.
pub fn place_for_text(text: &[u8]) -> usize
    ensures { result < PLACES }
{
    let (words, _) = text.as_chunks::<8>();
    let mut hash = match text.last_chunk::<8>() {
        Some(last) => u64::from_le_bytes(*last),
        None => 0,
    };
    for word in words {
        hash = (hash ^ u64::from_le_bytes(*word)).wrapping_mul(FACTOR);
    }
    ((hash >> 56) % PLACES as u64) as usize
}
