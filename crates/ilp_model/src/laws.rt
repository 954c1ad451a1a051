//! Laws over the definitions, each the contract of an empty function.

ghost use Rattle.ilp_model.specs.Agreement.{FeasiblePairsArePoints, PointsAreFeasiblePairs};
ghost use Rattle.ilp_model.specs.InLimits.{ProgramsAreInLimits, VariablesAndRowsAreCounted};
ghost use Rattle.ilp_model.specs.Optimum.{BestPointsAreBest, NoPointIsInfeasible, BestPointsAreBestOfProgram, NoPointIsInfeasibleProgram};

/// Feasible sizes within the bounds, with their placement, are given by a point whose value is the utility; and each point gives
/// feasible sizes and a placement whose utility is its value.
pub fn points_and_feasible_pairs_agree()
    ensures pairs { FeasiblePairsArePoints }
    ensures points { PointsAreFeasiblePairs }
{}

/// Within the bounds of the rules, a point with the greatest value gives the best of all sizes and placements; and where there
/// is no point, no sizes and placement are feasible; of units, and of the program that they are of.
pub fn best_points_are_best()
    ensures best { BestPointsAreBest }
    ensures none { NoPointIsInfeasible }
    ensures program { BestPointsAreBestOfProgram }
    ensures none_of_program { NoPointIsInfeasibleProgram }
{}

/// The integer program has as many variables and rows as are counted; and where these and the bounds are within their numbers,
/// it is in the limits of integer programs.
pub fn programs_are_in_limits()
    ensures counted { VariablesAndRowsAreCounted }
    ensures limits { ProgramsAreInLimits }
{}
