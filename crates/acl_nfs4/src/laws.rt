//! Laws of the definitions. There is nothing to run here: proofs cite the contracts.

ghost use Rattle.std.specs.Prelude.{◌≡◌, ◌↔◌, ℕ, List, Ok, Err};
ghost use Rattle.acl_names.specs.Directory.{Known};
ghost use Rattle.acl_names.specs.Letters.{IsTable};
ghost use Rattle.acl_nfs4.specs.Ace.{Nfsace4};
ghost use Rattle.acl_nfs4.specs.AceShapes.{HasShape};
ghost use Rattle.acl_nfs4.specs.AceText.{piece_value};
ghost use Rattle.acl_nfs4.specs.Comparison.{PairsSuffice, TwoGroupsSuffice};
ghost use Rattle.acl_nfs4.specs.Faults.{HasNoEffect, HasNoShape, HasUnknownName};
ghost use Rattle.acl_nfs4.specs.Letters.{flag_table, mask_table};
ghost use Rattle.acl_nfs4.specs.MaskLaws.{MasksAreDecided};
ghost use Rattle.acl_nfs4.specs.ModeChangeLaws.{LaterModesLift};

use crate::PieceFault;

/// A piece means what the shapes of entries define. There is nothing to run here: a proof cites the
/// contract.
pub fn pieces_have_shapes()
    ensures { (known : Known) (piece : List ℕ) (ace : Nfsace4) → (piece_value known piece ≡ Ok ace)
        ↔ HasShape known piece ace }
{}

/// A malformed piece is refused for an unknown name exactly if it would be an entry with the name
/// known, for being inherit-only exactly if it is an entry without effect, and else for its shape.
/// There is nothing to run here: a proof cites the contract.
pub fn faults_of_pieces()
    ensures syntax { (known : Known) (piece : List ℕ)
        → (piece_value known piece ≡ Err PieceFault.Syntax) ↔ HasNoShape piece }
    ensures unknown_name { (known : Known) (piece : List ℕ)
        → (piece_value known piece ≡ Err PieceFault.UnknownName) ↔ HasUnknownName known piece }
    ensures inherit_only { (known : Known) (piece : List ℕ)
        → (piece_value known piece ≡ Err PieceFault.InheritOnly) ↔ HasNoEffect known piece }
{}

/// Each letter stands for one bit, and no two letters are the same. There is nothing to run here: a
/// proof cites the contract.
pub fn letters_are_distinct()
    ensures flags { IsTable flag_table }
    ensures mask { IsTable mask_table }
{}

/// A list grants a mask exactly if the test of its bits says so. There is nothing to run here: a
/// proof cites the contract.
pub fn mask_laws()
    ensures { MasksAreDecided }
{}

/// Two lists, each for a file with its own owners, grant everyone the same if they grant certain
/// requesters the same: for each pair of entries, one from each list, a requester to whom both
/// apply and who is in no other group. So requesters in at most two groups suffice. There is
/// nothing to run here: a proof cites the contract.
pub fn comparison_laws()
    ensures pairs { PairsSuffice }
    ensures two_groups { TwoGroupsSuffice }
{}

/// The denials of `chmod4_least` don't keep a later mode from those whom entries name. There is
/// nothing to run here: a proof cites the contract.
pub fn mode_laws()
    ensures { LaterModesLift }
{}
