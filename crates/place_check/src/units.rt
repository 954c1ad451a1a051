//! What is feasible and best of units is what is of the program that they are of. All of it holds of the definitions, and takes
//! no step.

ghost use Rattle.place_check.specs.OfUnits.{FeasibleAlike, BestAlike, InfeasibleAlike};

/// Sizes and a placement are feasible of units exactly where they are of the program.
pub fn feasible_units_alike()
    ensures { FeasibleAlike }
{}

/// They are best of the units exactly where they are of the program.
pub fn best_units_alike()
    ensures { BestAlike }
{}

/// None are feasible of the units exactly where none are of the program.
pub fn infeasible_units_alike()
    ensures { InfeasibleAlike }
{}
