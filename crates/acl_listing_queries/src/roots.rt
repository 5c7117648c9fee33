//! The paths with which the ways of a listing begin.
ghost use Rattle.std.specs.Prelude.{◌≡◌, [], List, IfOk, OnOk, Some, option_map, refl};
ghost use Rattle.std.specs.Borrow.{Bor};
ghost use Rattle.std.specs.Cmp.{eq_by_cmp_equiv, partial_equiv_from_equiv, po};
ghost use Rattle.acl_listing_queries.specs.Readings.{Reading};
ghost use Rattle.acl_listing_queries.specs.RootSteps.{AreRoots, IsFirst, IsLast, apart_if};
ghost use Rattle.acl_listing_queries.specs.RootSteps.{is_apart, root_total, with_root_if};
ghost use Rattle.acl_listing_queries.specs.Ways.{are_apart};
ghost use Rattle.acl_listing_queries.specs.declared.roots.Root.{Root as RootValue};

use acl_listings::{Place, compare_steps, place_below};
use std::alloc::{AllocError, Global};
use std::cmp::Ordering;
use std::collections::BTreeSet;

/// A path, which compares step by step.
#[derive(Drop)]
struct Root {
    path: Vec<u8>,
}

impl PartialEq for Root {
    ghost use Rattle.std.specs.Ordering.{eq_by_cmp};
    ghost use Rattle.acl_listing_queries.specs.RootSteps.{root_cmp};

    ghost eq = { eq_by_cmp root_cmp };

    ghost laws = { partial_equiv_from_equiv (eq_by_cmp_equiv root_total) };

    fn eq(&self, other: &Root) -> bool {
        self.cmp(other) == Ordering::Equal
    }
}

impl Eq for Root {
    ghost laws = { eq_by_cmp_equiv root_total };
}

impl PartialOrd for Root {
    ghost use Rattle.std.specs.Ordering.{as_partial_cmp};
    ghost use Rattle.acl_listing_queries.specs.RootSteps.{root_cmp};

    ghost partial_cmp = { as_partial_cmp root_cmp };

    ghost laws = { po root_total (λ x y. refl) };

    fn partial_cmp(&self, other: &Root) -> Option<Ordering> {
        Some(self.cmp(other))
    }
}

impl Ord for Root {
    ghost use Rattle.acl_listing_queries.specs.RootSteps.{root_cmp};

    ghost cmp = { root_cmp };

    ghost total = { root_total };

    ghost matches_partial_cmp = { λ x y. refl };

    ghost matches_eq = { λ x y. refl };

    fn cmp(&self, other: &Root) -> Ordering {
        compare_steps(self.path.as_slice(), other.path.as_slice())
    }
}

/// Whether both begin alike, and neither is above the other.
fn are_apart(one: &[u8], other: &[u8]) -> bool
    ensures { result ≡ are_apart (Some one.now) (Some other.now) }
{
    one.starts_with(b"/") == other.starts_with(b"/")
        && !matches!(place_below(one, other), Place::Inside | Place::Deeper)
        && !matches!(place_below(other, one), Place::Inside | Place::Deeper)
}

/// The same, if there is the first.
fn are_apart_if(one: Option<&Root>, other: &Root) -> bool
    ensures { result ≡ apart_if
        (option_map (λ (root : Bor RootValue). root.now.path.items) one.entry)
        other.now.path.items }
{
    match one {
        Some(root) => are_apart(root.path.as_slice(), other.path.as_slice()),
        None => true,
    }
}

/// The paths with which ways begin, each of which is apart from the others.
#[derive(Drop)]
pub(crate) struct Roots {
    paths: BTreeSet<Root>,
}

impl Roots {
    /// No path.
    pub fn new(alloc: Global) -> Roots
        ensures { AreRoots result [] }
    {
        Roots {
            paths: BTreeSet::new(alloc),
        }
    }

    /// The last of them that comes no later than the root.
    fn last_before(&self, root: &Root) -> Option<&Root>
        ensures { IsLast self.now.paths.keys root.now (option_map (λ last. last.now) result) }
    {
        self.paths.range(..=root).next_back()
    }

    /// The first of them that comes no earlier than the root.
    fn first_behind(&self, root: &Root) -> Option<&Root>
        ensures { IsFirst self.now.paths.keys root.now (option_map (λ first. first.now) result) }
    {
        self.paths.range(root..).next()
    }

    /// Whether it is apart from each of them: from those that come next to it.
    fn is_apart(&self, root: &Root) -> bool
        ensures { (blocks : List Reading) (here : Reading) → AreRoots self.now blocks
            → here.path ≡ Some root.now.path.items → result ≡ is_apart blocks here }
    {
        let before = self.last_before(root);
        let behind = self.first_behind(root);
        are_apart_if(before, root) && are_apart_if(behind, root)
    }

    /// Adds the path if it is apart from each of them, and returns whether it is. It fails only if
    /// memory runs out.
    pub fn add(&mut self, alloc: Global, path: &[u8]) -> Result<bool, AllocError>
        ensures apart { (blocks : List Reading) (here : Reading) → AreRoots self.old blocks
            → here.path ≡ Some path.now → IfOk result (λ apart. apart ≡ is_apart blocks here) }
        ensures added { (blocks : List Reading) (here : Reading) → AreRoots self.old blocks
            → here.path ≡ Some path.now → OnOk result (AreRoots self.new
            (with_root_if blocks here)) }
    {
        let root = Root {
            path: Vec::from_slice(alloc, path)?,
        };
        let apart = self.is_apart(&root);
        if apart {
            self.paths.insert(root)?;
        }
        Ok(apart)
    }
}
