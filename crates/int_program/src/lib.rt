//! Integer programs: rows, boxes of points, exact least and greatest sums, and trees of cases that show the best value.
#![tactic(auto)]

mod bounds;
mod faults;
mod laws;
mod limits;
mod program;
mod tightening;

pub use bounds::{least, most, root};
pub use faults::{
    fault_of_goal_leaf, fault_of_row, fault_of_row_leaf, fault_of_split, fault_of_tight,
    fault_of_tight_row, goal_most,
};
pub use laws::{
    accepted_trees_leave_no_better_point, accepted_trees_stay_accepted,
    boxes_inside_the_root_are_small, fair_splits_cut, fair_trees_are_short, filled_trees_are_whole,
    lists_and_trees_are_accepted_alike, places_have_the_boxes_of_the_list,
    sums_stop_where_a_number_is_too_wide, trees_have_fewer_splits_than_points,
    unfair_nodes_are_found,
};
pub use limits::{are_small, is_in_limits, is_nonempty};
pub use program::{Ip, IpBox, Node, Part, Place, Point, Row, Tree, Weight, Why};
pub use tightening::tighten;
