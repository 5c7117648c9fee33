//! Laws of accounts files. There is nothing to run here: proofs cite the contracts.

ghost use Rattle.std.specs.Prelude.{◌≡◌, ◌↔◌, ℕ, List, Some, None};
ghost use Rattle.acl_accounts.specs.Rows.{Row, row_of};
ghost use Rattle.acl_accounts.specs.Shapes.{HasNoShape, HasShape};
ghost use Rattle.acl_accounts.specs.Text.{RowsAreReadAgain};

/// A line means what the shapes of lines define, and is malformed exactly if it has none of them.
/// There is nothing to run here: a proof cites the contract.
pub fn lines_have_shapes()
    ensures rows { (number : ℕ) (line : List ℕ) (row : Row)
        → (row_of number line ≡ Some row) ↔ HasShape number line row }
    ensures bad { (number : ℕ) (line : List ℕ)
        → (row_of number line ≡ None) ↔ HasNoShape number line }
{}

/// Users and groups that are printed as `getent` prints them are read as themselves. There is
/// nothing to run here: a proof cites the contract.
pub fn rows_are_read_again()
    ensures { RowsAreReadAgain }
{}
