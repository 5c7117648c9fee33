//! What is left of two paths behind the front that they share.
ghost use Rattle.std.specs.Prelude.{◌≡◌, ◌≤◌, ◌-◌, ◌⊎◌, get_or, length, take};
ghost use Rattle.std.specs.Bool.{OnTrue};
ghost use Rattle.acl_listings.specs.Way.{steps_behind, steps_of};
ghost use Rattle.acl_listings.specs.declared.way.TheConstants.{SLASH};

use crate::way::SLASH;

/// How many bytes are compared at once.
const WORD: usize = 8;

/// Whether both texts begin with one word.
fn begin_with_word(one: &[u8], other: &[u8]) -> bool
    ensures { OnTrue result ((take 8 one.now ≡ take 8 other.now) × (8 ≤ length one.now)
        × (8 ≤ length other.now)) }
{
    match (one.first_chunk::<WORD>(), other.first_chunk::<WORD>()) {
        (Some(word), Some(next)) => word == next,
        _ => false,
    }
}

/// How many bytes the texts share at their fronts, in whole words.
fn alike_words(one: &[u8], other: &[u8]) -> usize
    ensures alike { take result one.now ≡ take result other.now }
    ensures first { result ≤ length one.now }
    ensures second { result ≤ length other.now }
{
    let mut alike = 0;
    while begin_with_word(&one[alike..], &other[alike..]) {
        alike += WORD;
    }
    alike
}

/// How many bytes the texts share at their fronts.
fn alike_bytes(one: &[u8], other: &[u8]) -> usize
    ensures alike { take result one.now ≡ take result other.now }
    ensures first { result ≤ length one.now }
    ensures second { result ≤ length other.now }
{
    let mut alike = alike_words(one, other);
    while alike < one.len() && alike < other.len() && one[alike] == other[alike] {
        alike += 1;
    }
    alike
}

/// How long the longest front of the path is that ends with a slash and has at most `len` bytes; 0
/// if there is none.
fn up_to_slash(path: &[u8], len: usize) -> usize
    requires { len ≤ length path.now }
    ensures bound { result ≤ len }
    ensures slash { (result ≡ 0) ⊎ (get_or path.now (result - 1) 0 ≡ SLASH) }
{
    let mut end = len;
    while end > 0 && path[end - 1] != SLASH {
        end -= 1;
    }
    end
}

/// What is left of two paths behind the folders that both begin with: the steps of the one lead to
/// the other as those of the paths do.
pub(crate) fn behind_shared<'t>(one: &'t [u8], other: &'t [u8]) -> (&'t [u8], &'t [u8])
    ensures { steps_behind (steps_of result.0.now) (steps_of result.1.now)
        ≡ steps_behind (steps_of one.now) (steps_of other.now) }
{
    let shared = up_to_slash(one, alike_bytes(one, other));
    (&one[shared..], &other[shared..])
}
