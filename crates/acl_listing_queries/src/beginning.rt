//! Where the way to a block begins.
ghost use Rattle.std.specs.Prelude.{◌≡◌, ◌++◌, ◌∷◌, [], false, IfOk, List, OnOk, Some};
ghost use Rattle.std.specs.List.{list_any};
ghost use Rattle.acl_listing_queries.specs.Readings.{Reading};
ghost use Rattle.acl_listing_queries.specs.RootSteps.{IsBegun, is_begun_above};
ghost use Rattle.acl_listing_queries.specs.Ways.{begins_apart};
ghost use Rattle.acl_listing_queries.specs.WhoSteps.{lacks_path};

use crate::roots::Roots;
use acl_listings::is_above;
use std::alloc::{AllocError, Global};

/// The block with which the way to the last block begins, and whether all ways so far begin apart
/// from each other. All other blocks on a way are below its first, so only that one is compared.
#[derive(Drop)]
pub(crate) struct Beginning {
    /// The path of that block, if there was a block.
    path: Option<Vec<u8>>,
    /// Whether all begin apart. If they don't, nothing else is kept any more.
    apart: bool,
    roots: Roots,
}

impl Beginning {
    /// Before any block.
    pub fn new(alloc: Global) -> Beginning
        ensures { IsBegun result [] }
    {
        Beginning {
            path: None,
            apart: true,
            roots: Roots::new(alloc),
        }
    }

    /// Whether the path is below the block with which the last way began.
    fn is_above(&self, path: &[u8]) -> bool
        ensures { result ≡ is_begun_above self.now.path path.now }
    {
        match &self.path {
            Some(outermost) => is_above(outermost.as_slice(), path),
            None => false,
        }
    }

    /// Goes on to a block with this path, and returns whether all ways so far, its own included,
    /// begin apart from each other. Fails only if memory runs out.
    pub fn come_to(&mut self, alloc: Global, path: &[u8]) -> Result<bool, AllocError>
        ensures apart { (earlier : List Reading) (here : Reading) → IsBegun self.old earlier
            → list_any lacks_path earlier ≡ false → here.path ≡ Some path.now
            → IfOk result (λ apart. apart ≡ begins_apart earlier here) }
        ensures begun { (earlier : List Reading) (here : Reading) → IsBegun self.old earlier
            → list_any lacks_path earlier ≡ false → here.path ≡ Some path.now
            → OnOk result (IsBegun self.new (earlier ++ here ∷ [])) }
    {
        if !self.apart {
            return Ok(false);
        }
        if self.is_above(path) {
            return Ok(true);
        }
        let apart = self.roots.add(alloc, path)?;
        let outermost = Vec::from_slice(alloc, path)?;
        self.apart = apart;
        self.path = Some(outermost);
        Ok(apart)
    }
}
