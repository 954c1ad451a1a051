//! What expressions and statements ask where they stand.
#![tactic(auto)]

mod expressions;
mod sets;
mod statements;

pub use expressions::{
    check_amount, check_expr, check_known, check_lval, check_number, either, has_width, is_truth,
    unless,
};
pub use sets::{check_set, check_value};
pub use statements::{check_stmts, is_no_action};
