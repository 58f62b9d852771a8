//! Places, and the one comparison of them.

ghost use Rattle.std.specs.Prelude.{◌≡◌};
ghost use Rattle.nodes.specs.Place.{before};

/// Where a node stands: its document, and then its start. Tree order is rising place, so the order
/// of the fields is the order of places.
#[derive(Clone, Copy, PartialEq, Eq, PartialOrd, Ord, Debug)]
pub struct Place {
    pub document: u32,
    pub start: u32,
}

impl Place {
    /// Whether this place comes before the other: by document, and then by start.
    pub fn is_before(self, other: Place) -> bool
        ensures { result ≡ before self other }
    {
        self < other
    }
}
