//! Placements of small programs on small targets, as facts that are computed when the crate is checked.
#![tactic(auto)]

ghost use Rattle.placement_examples.specs.PlacementExamples.{UsesOfPlacements, OrdersOfPairs};
ghost use Rattle.placement_examples.specs.WorkedPlacements.{ArraysOnOneStage, OrdersOnStages, RowsOnStages};

/// What placements take of each stage, and header bits at sizes.
pub fn uses_of_placements()
    ensures { UsesOfPlacements }
{}

/// The order of each two instances of small programs.
pub fn orders_of_pairs()
    ensures { OrdersOfPairs }
{}

/// Two registers whose cells are chosen share the memory of one stage: sizes and a placement that are the best, and others that
/// break one rule each.
pub fn arrays_on_one_stage()
    ensures { ArraysOnOneStage }
{}

/// Orders of units and their stages. Where a unit reads what another one assigns, one stage isn't enough at any sizes.
pub fn orders_on_stages()
    ensures { OrdersOnStages }
{}

/// Two rows of a count-min sketch on three stages.
pub fn rows_on_stages()
    ensures { RowsOnStages }
{}
