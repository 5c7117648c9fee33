//! Sets of bits of any kind.
ghost use Rattle.std.specs.Prelude.{◌≡◌, if◌then◌else◌};
ghost use Rattle.acl_names.specs.Bits.{without};

use bitflags::Flags;

/// The bits if the condition holds, and else none.
pub fn bits_if<F: Flags>(bits: F, condition: bool) -> F
    ensures { F.exact → F.set_of result ≡ (if condition then F.set_of bits else 0) }
{
    if condition { bits } else { F::empty() }
}

/// The bits without those in `removed`.
#[tactic(auto, unfolding(acl_names::specs::Bits::without))]
pub fn without<F: Flags + Copy>(bits: F, removed: F) -> F
    ensures { F.exact → F.set_of result ≡ without (F.set_of bits) (F.set_of removed) }
{
    bits.symmetric_difference(bits.intersection(removed))
}
