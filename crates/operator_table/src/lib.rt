//! The table of operators: macros that write arms over its rows, and what the rows say of each operator.
#![tactic(auto)]

ghost use Rattle.std.specs.Prelude.{◌≡◌, map};
ghost use Rattle.case_table.specs.Rows.{ListsWords};
ghost use Rattle.elastic_ast.specs.OperatorSorts.{operator_of, operators};
ghost use Rattle.operator_table.specs.Levels.{level_of, text_of};

use case_table::Case;

/// Calls a macro, by its path, with what else it is given, in brackets, and with the table: the levels from the weakest on, and
/// of each level its operators. A row is an operator's code, which is its place, its sign or the two signs that touch, and its
/// sort. The clauses of the functions over the table tie the rows to the definitions.
#[macro_export]
macro_rules! operators {
    ([$($arms:ident)::+] $($given:tt)*) => {
        $($arms)::+! { [$($given)*]
            10 { 0 "||" Logic }
            9 { 1 "&&" Logic }
            8 { 2 "==" Comparison, 3 "!=" Comparison }
            7 { 4 "<" Comparison, 5 "<=" Comparison, 6 ">" Comparison, 7 ">=" Comparison }
            6 { 8 "|" Arithmetic }
            5 { 9 "^" Arithmetic }
            4 { 10 "&" Arithmetic }
            3 { 11 "<<" Shift, 12 ">" ">" Shift }
            2 { 13 "+" Arithmetic, 14 "-" Arithmetic, 15 "++" Joining }
            1 { 16 "*" Arithmetic }
            0 { 17 "~" Arithmetic, 18 "!" Logic }
        }
    };
}

/// A match on an operator's code. The arm of a code is what the macro `of` makes of what it is given, in brackets, and of the
/// level, the signs in brackets, and the sort; the arm of all that is no code is `none`. A macro sees no local of its caller but
/// those that it is given.
#[macro_export]
macro_rules! by_code {
    ($op:ident, $of:ident $([$($given:tt)*])?, $none:expr) => {
        $crate::operators!([$crate::arms_by_code] $op $of [$($($given)*)?] [$none])
    };
}

/// The match that `by_code` writes.
#[macro_export]
macro_rules! arms_by_code {
    ([$op:ident $of:ident $given:tt [$none:expr]]
        $($level:literal { $($code:literal $($sign:literal)+ $sort:ident),+ })+) => {
        match $op {
            $($($code => $of!($given $level [$($sign)+] $sort),)+)+
            _ => $none,
        }
    };
}

// A row of words for each operator.
macro_rules! cases {
    ([] $($level:literal { $($code:literal $($sign:literal)+ $sort:ident),+ })+) => {
        [$($(Case { word: concat!($($sign),+), code: $code }),+),+]
    };
}

/// The operators of expressions, the binary ones by their levels from the weakest on, and then the two unary ones. An
/// operator's code is its place.
pub const OPERATORS: [Case; 19] = operators!([cases]);

/// The rows of the operators: the text of each, in the order of their codes.
pub fn law_of_texts() -> [Case; 19]
    ensures { ListsWords result (map text_of operators) }
{
    OPERATORS
}

macro_rules! level {
    ([] $level:literal $signs:tt $sort:ident) => { $level };
}

/// The level of the operator of a code; 0 is that of the prefixed ones.
pub fn level_at(op: u16) -> u8
    ensures { result ≡ level_of (operator_of op) }
{
    by_code!(op, level, 0)
}

macro_rules! text {
    ([] $level:literal [$($sign:literal)+] $sort:ident) => { concat!($($sign),+) };
}

/// What the operator of a code looks like; empty where there is none.
pub fn text_at(op: u16) -> &'static str
    ensures { result.now ≡ text_of (operator_of op) }
{
    by_code!(op, text, "")
}
