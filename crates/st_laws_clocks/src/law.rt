ghost use Rattle.st_laws_clocks.specs.Increments.{EveryRunIsInBound};

/// In every run from the world of a head, the advances that happened are in bound: over every
/// interval of them no clock gains too much next to another. Under the second form of the head the
/// world's numbers of drift witness it: they are those of these advances.
pub fn clocks_are_in_bound()
    ensures { EveryRunIsInBound }
{}
