//! The places of newlines, 64 bytes at a time.

ghost use Rattle.std.specs.Prelude.{◌≡◌, ◌+◌, ◌<◌, ◌≤◌, ℕ, List, drop, length, take};
ghost use Rattle.acl_listings.specs.Extent.{newline_marks, newlines_in};

use std::simd::prelude::*;

/// The newlines among the 64 bytes from a place on: a bit for each byte, the lowest for the first.
#[inline(always)]
pub(crate) fn newlines_at(text: &[u8], at: usize) -> u64
    requires { at + 64 ≤ length text.now }
    ensures { result ≡ newline_marks (take 64 (drop at text.now)) }
{
    u8x64::from_slice(&text[at..])
        .simd_eq(u8x64::splat(b'\n'))
        .to_bitmask()
}

/// How many of the first `len` bytes are newlines, by the bits of `newlines_at`.
#[inline(always)]
pub(crate) fn count_below(marks: u64, len: usize) -> usize
    requires { len < 64 }
    ensures { (bytes : List ℕ) → marks ≡ newline_marks bytes → result ≡ newlines_in (take len bytes) }
{
    (marks & ((1 << len) - 1)).count_ones() as usize
}
