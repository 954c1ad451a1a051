//! What bounds say of feasible sizes, and what bounds and counts are of.

ghost use Rattle.unroll_bound.specs.UnitBounds.{SizesAreWithin};
ghost use Rattle.unroll_bound.specs.Counts.{InstancesAreCounted};
ghost use Rattle.unroll_bound.specs.ProgramUnits.{KnownUnitsAreOfTheProgram};

/// At feasible sizes each is at most its bound. It holds of the definitions, and takes no step.
pub fn sizes_are_within_bounds()
    ensures { SizesAreWithin }
{}

/// The counts of instances are the lengths of their lists.
pub fn instances_are_counted()
    ensures { InstancesAreCounted }
{}

/// Units of which is known what `unit_flow::units` says of them are those of their program.
pub fn known_units_are_of_the_program()
    ensures { KnownUnitsAreOfTheProgram }
{}
