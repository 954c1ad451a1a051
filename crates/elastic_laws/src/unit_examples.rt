//! What the units of small programs are, as equations that are computed when the crate is checked.
#![tactic(auto, unfolding(elastic_ast::specs::OperatorSorts::operators_in))]

ghost use Rattle.elastic_laws.specs.Examples.UnitExamples.{UnitsOfConditions, UnitsOfLoopsAndBlocks, UnitsOfASketch, UnitsWithRegisters, UnitsOfTablesAndCalls, OrdersOfTwoUnits, WhatInstancesDo, FlatNamesOfElements};
ghost use Rattle.std.specs.Prelude.{true, false, None};
ghost use Rattle.elastic_ast.specs.Packets.MainParts.{body_of};
ghost use Rattle.elastic_laws.specs.Typing.Unnested.{Unnested};
ghost use Rattle.elastic_laws.specs.Units.Footprints.{TablesFit};
ghost use Rattle.elastic_laws.specs.Examples.WorkedSources.{count_min_sketch};
ghost use Rattle.elastic_laws.specs.Examples.WorkedUnits.{with_table};

/// A condition over exactly one unit is a test of that unit, also where the unit is a condition. Any other condition is kept in a
/// predicate. The predicates are numbered in the order of the text, and a literal stands before those of the branches inside.
pub fn units_of_conditions()
    ensures { UnitsOfConditions }
{}

/// A loop around units, and a condition around a loop or in one; and the innermost block with a stage gives the stage.
pub fn units_of_loops_and_blocks()
    ensures { UnitsOfLoopsAndBlocks }
{}

/// A count-min sketch: an assignment, a call that counts in the loop's own register, and a guarded call. Each loop runs all its units
/// at one index after the other; at size 0 it has no instance.
pub fn units_of_a_sketch()
    ensures { UnitsOfASketch }
{}

/// Units that read and write registers: each names one, and the fields of a header count beside its validity.
pub fn units_with_registers()
    ensures { UnitsWithRegisters }
{}

/// A ternary key takes twice as many bits, and `size` stands before the number of entries. A table has what all its actions read and
/// write, and the operators of the action that has most. A call counts its arguments, and validity is a location of its own.
pub fn units_of_tables_and_calls()
    ensures { UnitsOfTablesAndCalls }
{}

/// Orders of two units, of which the first is earlier.
pub fn orders_of_two_units()
    ensures { OrdersOfTwoUnits }
{}

/// What instances write, where everything holds 0 or 5 in 8 bits: a condition writes its predicate, a literal or condition that doesn't
/// hold leaves nothing to write, and an own element is that of the index. Then what stands there after all instances in order, and
/// programs that meet what the laws of units ask.
pub fn what_instances_do()
    ensures facts { WhatInstancesDo }
    ensures fitting_tables { TablesFit (with_table true None) }
    ensures fitting_loops { Unnested (body_of count_min_sketch) false }
{}

/// Elements and registers under their flat names.
pub fn flat_names()
    ensures { FlatNamesOfElements }
{}
