//! Laws of a directory. There is nothing to run here: proofs cite the contracts.

ghost use Rattle.std.specs.Prelude.{◌≡◌, None};
ghost use Rattle.acl_names.specs.Directory.{NamesReadBack, fault_of};

use super::Directory;

impl Directory {
    /// Each name that is printed for an id reads as that id, and the domain has its shape. There is
    /// nothing to run here: a proof cites the contract.
    pub fn names_read_back(&self)
        ensures { NamesReadBack self.now }
    {
        let _ = &self.users;
    }

    /// Nothing is wrong with its users and groups. There is nothing to run here: a proof cites the
    /// contract.
    pub fn is_faultless(&self)
        ensures { fault_of self.now ≡ None }
    {
        let _ = &self.users;
    }
}
