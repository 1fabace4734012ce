//! Laws of the fleets of an inventory, however they were built.
ghost use Rattle.domains.specs.Laws.{OneFleet};

/// An inventory has at most one fleet: its hosts are dealt in one order.
pub fn one_fleet()
    ensures { OneFleet }
{}
