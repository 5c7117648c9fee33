//! Marks of the blocks before whose paths the listing after has.
ghost use Rattle.std.specs.Prelude.{◌≡◌};
ghost use Rattle.acl_listing_changes.specs.ChangeSteps.{is_marked, with_mark};

/// Whether the place is marked, if there is one.
pub(super) fn is_marked(met: &[bool], place: Option<usize>) -> bool
    ensures { result ≡ is_marked met.now place }
{
    match place {
        Some(place) => met.get(place).copied().unwrap_or(false),
        None => false,
    }
}

/// Marks the place, if there is one.
pub(super) fn mark(met: &mut [bool], place: Option<usize>)
    ensures { met.new ≡ with_mark met.old place }
{
    if let Some(place) = place {
        if place < met.len() {
            met[place] = true;
        }
    }
}
