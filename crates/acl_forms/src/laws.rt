//! Laws of the freebsd form. There is nothing to run here: proofs cite the contracts.

ghost use Rattle.std.specs.Prelude.{◌≡◌, ◌↔◌, ℕ, List, Option, Ok};
ghost use Rattle.acl_names.specs.Ids.{written_id};
ghost use Rattle.acl_names.specs.Names.{Names};
ghost use Rattle.acl_nfs4.specs.Ace.{Nfsace4};
ghost use Rattle.acl_forms.specs.FormShapes.{HasFormShape, WritesId, WritesIdPlainly};
ghost use Rattle.acl_forms.specs.FormText.{entry_by};

/// An entry means what the shapes of entries define. There is nothing to run here: a proof cites
/// the contract.
pub fn entries_have_shapes()
    ensures shapes { (names : Names) (piece : List ℕ) (ace : Nfsace4) → (entry_by names piece
        ≡ Ok ace) ↔ HasFormShape names piece ace }
    // A directory's names write an id as a decimal, or as the name of the user or group that has
    // it.
    ensures directory { (id_of : List ℕ → Option ℕ) (text : List ℕ) (id : ℕ)
        → WritesId written_id id_of text id ↔ WritesIdPlainly id_of text id }
{}
