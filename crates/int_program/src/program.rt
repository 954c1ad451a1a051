//! The types of integer programs, of boxes and points, and of trees of cases.

use elx_bits::Items;

/// A variable, by its number, times a whole number.
#[derive(Clone, Copy, Debug)]
pub struct Part {
    pub var: u32,
    pub by: i128,
}

/// The sum of the parts is at most `most`.
#[derive(Debug, Drop)]
pub struct Row {
    pub parts: Items<Part>,
    pub most: i128,
}

/// A program: variables from 0 to their tops that meet each row, and an objective, the sum of `goal` and `base`.
#[derive(Debug, Drop)]
pub struct Ip {
    pub tops: Items<i128>,
    pub rows: Items<Row>,
    pub goal: Items<Part>,
    pub base: i128,
}

/// For each variable a least and a greatest number.
#[derive(Debug, Drop)]
pub struct IpBox {
    pub low: Items<i128>,
    pub high: Items<i128>,
}

/// A number for each variable.
#[derive(Debug, Drop)]
pub struct Point {
    pub values: Items<i128>,
}

/// A row, by its number, times a whole number.
#[derive(Clone, Copy, Debug)]
pub struct Weight {
    pub row: u32,
    pub by: i128,
}

/// One node of a tree of cases. It stands on a box.
#[derive(Debug, Drop)]
pub enum Node {
    /// Two cases: the variable is at most `at`, or above it.
    Split { var: u32, at: i128 },
    /// One case: the row leaves the variable a smaller range.
    Tight { var: u32, row: u32 },
    /// The row holds nowhere on the box.
    RowLeaf { row: u32 },
    /// The objective is nowhere above the known value on the box.
    GoalLeaf,
    /// Nor is it, by a sum of weighted rows.
    Dual { over: i128, weights: Items<Weight> },
    /// A sum of weighted rows holds nowhere on the box.
    Far { weights: Items<Weight> },
    /// Left open.
    Unsolved,
}

/// One whole tree, its nodes in preorder.
#[derive(Debug, Drop)]
pub struct Tree {
    pub nodes: Items<Node>,
}

/// An open place of a tree: its box, and how many tightenings stand directly above it.
#[derive(Debug, Drop)]
pub struct Place {
    pub within: IpBox,
    pub above: u32,
}

/// Why a node is not accepted on its box.
#[derive(Clone, Copy, Debug, Eq, PartialEq)]
pub enum Why {
    /// It names a variable or a row that doesn't exist.
    BadVar,
    /// A split leaves one side empty.
    BadSplit,
    /// The row can hold on the box.
    RowHolds,
    /// The row doesn't shrink the variable's range, or leaves none of it.
    NotTight,
    /// The objective can be above the known value on the box, or no value is known.
    ObjAbove,
    /// The weighted rows don't show enough.
    DualShort,
    /// A number of the weighted sum leaves 128 bits.
    Wide,
    /// The node is open.
    Unsolved,
}
