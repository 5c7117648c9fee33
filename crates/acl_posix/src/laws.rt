//! Laws of the text of entries, and of what Linux decides. There is nothing to run here: proofs
//! cite the contracts.

ghost use Rattle.std.specs.Prelude.{◌≡◌, ◌↔◌, ℕ, List, Ok, Err};
ghost use Rattle.acl_names.specs.Directory.{Known};
ghost use Rattle.acl_posix.specs.Entry.{EntryValue};
ghost use Rattle.acl_posix.specs.EntryText.{entry_of};
ghost use Rattle.acl_posix.specs.Faults.{HasUnknownName, HasNoShape};
ghost use Rattle.acl_posix.specs.LinuxLaws.{DecidesAlike, GrantsNoLess};
ghost use Rattle.acl_posix.specs.Shapes.{HasShape};

use crate::PieceFault;

/// A piece means what the shapes of entries define. There is nothing to run here: a proof cites the
/// contract.
pub fn pieces_have_shapes()
    ensures { (known : Known) (piece : List ℕ) (entry : EntryValue)
        → (entry_of known piece ≡ Ok entry) ↔ HasShape known piece entry }
{}

/// A malformed piece is refused for an unknown name exactly if it would be an entry with the name
/// known, and else for its shape. There is nothing to run here: a proof cites the contract.
pub fn faults_of_pieces()
    ensures unknown_name { (known : Known) (piece : List ℕ)
        → (entry_of known piece ≡ Err PieceFault.UnknownName) ↔ HasUnknownName known piece }
    ensures syntax { (known : Known) (piece : List ℕ)
        → (entry_of known piece ≡ Err PieceFault.Syntax) ↔ HasNoShape piece }
{}

/// Linux grants whatever the draft grants, and decides as the draft does unless the mask is empty
/// and the list names the user. There is nothing to run here: a proof cites the contract.
pub fn linux_laws()
    ensures no_less { GrantsNoLess }
    ensures alike { DecidesAlike }
{}
