//! Laws of lists that are written as texts.

ghost use Rattle.std.specs.Prelude.{◌≡◌, ℕ, List};
ghost use Rattle.acl_names.specs.ListText.{Spells};

use crate::PieceReader;

/// By any reader of pieces, a text spells at most one list. There is nothing to run here: a proof
/// cites the contract.
pub fn texts_spell_one_list<R: PieceReader>(reader: &R)
    ensures { (limit : ℕ) (text : List ℕ) (list other : List R.Value)
        → Spells (R.value_of reader.now) limit text list
        → Spells (R.value_of reader.now) limit text other → list ≡ other }
{
    let _ = reader;
}
