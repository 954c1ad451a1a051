//! What an accepted tree of cases tells of a program: laws over the definitions, each the contract of an empty function.

ghost use Rattle.std.specs.Prelude.{◌≡◌, ◌↔◌, ℕ, ℤ, pos, ◌<◌, ◌≤ℤ◌, List, length, Bool, true, false, Option, Some, None, All};
ghost use Rattle.int_program.specs.declared.program.Ip.{Ip};
ghost use Rattle.int_program.specs.declared.program.IpBox.{IpBox};
ghost use Rattle.int_program.specs.declared.program.Node.{Node};
ghost use Rattle.int_program.specs.declared.program.Tree.{Tree};
ghost use Rattle.int_program.specs.declared.program.Weight.{Weight};
ghost use Rattle.int_program.specs.Boxes.{IsNonempty, IsFromZero, IsInside, root_of};
ghost use Rattle.int_program.specs.Limits.{AreSmall, IsInLimits};
ghost use Rattle.int_program.specs.Points.{IsPoint, value_of};
ghost use Rattle.int_program.specs.Weighted.{dual_bound, right_side, rows_least};
ghost use Rattle.int_program.specs.Stopping.{tried_dual, tried_far};
ghost use Rattle.int_program.specs.Numbers.{dual_numbers, far_numbers, where_all_fit};
ghost use Rattle.int_program.specs.Accepts.{IsAccepted, Accepts};
ghost use Rattle.int_program.specs.Cases.{AreCases, IsWhole};
ghost use Rattle.int_program.specs.Counting.{root_points, split_count, IsCut, IsCutTree};
ghost use Rattle.int_program.specs.Fair.{IsFairSplit, IsFair};
ghost use Rattle.int_program.specs.Places.{OfEachNode, FillsRoot};
ghost use Rattle.int_program.specs.FairTrees.{IsAcceptedButOpen};
ghost use Rattle.int_program.specs.TreeLaws.{NoPointIsBetter, NoPointIsLeft, AcceptedForGreaterValues, AcceptedForEachValue, AcceptedTreesAreShort, CuttingTreesAreShort, ListsAcceptAsTrees, DualSumsStop, FarSumsStop, RowsAreSmall, GoalIsSmall, FairSplitsCut, FairWithoutTightening, PlacesHaveTheBoxes, OpenTreesAreShort};
ghost use Rattle.int_program.specs.TreeLaws.{ListsAreFairAsTrees, WholeTreesFillTheRoot, AcceptedTreesAreWhole, OpenTreesAreWhole, FairTreesAreWhole, FairTreesAreShort, FairNodesAreTested, FairTreesHaveNoFirst, FirstUnfairIsFound};

/// A tree that is accepted for a value leaves no point with a greater value; one that is accepted for none leaves no point.
pub fn accepted_trees_leave_no_better_point()
    ensures value { NoPointIsBetter }
    ensures none { NoPointIsLeft }
{}

/// What is accepted for a value is accepted for each greater one, and what is accepted for none is accepted for each value.
pub fn accepted_trees_stay_accepted()
    ensures greater { AcceptedForGreaterValues }
    ensures none { AcceptedForEachValue }
{}

/// A tree has fewer splits than its root box has points, where it is accepted, and where its splits cut and its tightenings
/// are accepted.
pub fn trees_have_fewer_splits_than_points()
    ensures accepted { AcceptedTreesAreShort }
    ensures cut { CuttingTreesAreShort }
{}

/// The recursion on the list of nodes with the open places, and the recursion on the tree, accept the same and find the same fair.
pub fn lists_and_trees_are_accepted_alike()
    ensures accepted { ListsAcceptAsTrees }
    ensures fair { ListsAreFairAsTrees }
{}

/// A sum of weighted rows stops exactly where one of its numbers leaves the signed 128 bits, and is the exact one otherwise.
pub fn sums_stop_where_a_number_is_too_wide()
    ensures dual { DualSumsStop }
    ensures far { FarSumsStop }
{}

/// In a program in its limits each row and the objective are small over each nonempty box inside the root box, as `least`, `most`
/// and `tighten` want it; and the root box is such a box.
pub fn boxes_inside_the_root_are_small()
    ensures box_kept { (ip : Ip) (b : IpBox) → IsInside ip b → IsNonempty b × IsFromZero b }
    ensures rows { RowsAreSmall }
    ensures goal { GoalIsSmall }
    ensures root { (ip : Ip) → IsInLimits ip → IsInside ip (root_of ip) }
{}

/// A fair split of a box with the program's variables cuts it, so that a tree of fair splits has fewer splits than points; and a
/// node that is fair where tightening is owed is fair where it isn't.
pub fn fair_splits_cut()
    ensures cut { FairSplitsCut }
    ensures owed { FairWithoutTightening }
{}

/// The recursion on the list of open places goes through the boxes of that on the list of open boxes; and a tree that is
/// accepted but for its open leaves has fewer splits than its root box has points.
pub fn places_have_the_boxes_of_the_list()
    ensures boxes { PlacesHaveTheBoxes }
    ensures short { OpenTreesAreShort }
{}

/// A tree is whole, that is the preorder of some tree, exactly where its nodes fill the root box; so are accepted and fair trees.
pub fn filled_trees_are_whole()
    ensures filled { WholeTreesFillTheRoot }
    ensures accepted { AcceptedTreesAreWhole }
    ensures open_leaves { OpenTreesAreWhole }
    ensures fair { FairTreesAreWhole }
{}

/// A fair tree has at most twice its splits and 1, times 101, nodes: one more leaf than splits, and 100 tightenings above each.
pub fn fair_trees_are_short()
    ensures { FairTreesAreShort }
{}

/// The first node that isn't fair is found by a function that computes: none in a fair tree, and in another whole tree the first one.
pub fn unfair_nodes_are_found()
    ensures tested { FairNodesAreTested }
    ensures none { FairTreesHaveNoFirst }
    ensures some { FirstUnfairIsFound }
{}
