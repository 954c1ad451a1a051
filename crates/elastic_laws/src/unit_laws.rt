//! Laws of units and their instances, each the contract of an empty function.

ghost use Rattle.elastic_laws.specs.Units.CutInstances.{ListsAgree, ProgramListsAgree};
ghost use Rattle.elastic_laws.specs.Units.Footprints.{UnitsHaveFootprints, InstancesHaveFootprints};
ghost use Rattle.elastic_laws.specs.Units.LiveInstances.{InstancesAreKept};
ghost use Rattle.elastic_laws.specs.Units.PieceCounts.{OneIsCounted};
ghost use Rattle.elastic_laws.specs.Units.CutMeaning.{PiecesKeepTheMeaning, InstancesKeepTheMeaning};
ghost use Rattle.elastic_laws.specs.Units.Exchange.{OrderIsUndisturbed, OrderIsFree, FreeExchange};

/// The instances of the flat list are those of the pieces with their loops, in order.
pub fn lists_agree()
    ensures pieces { ListsAgree }
    ensures program { ProgramListsAgree }
{}

/// What an instance writes lies in its unit's writes, at its index, and what it writes depends on its unit's reads alone.
pub fn instances_have_footprints()
    ensures units { UnitsHaveFootprints }
    ensures instances { InstancesHaveFootprints }
{}

/// Two instances whose order is free may be exchanged; and an instance that doesn't stand before another doesn't change what the
/// other writes.
pub fn free_neighbours_exchange()
    ensures exchange { FreeExchange }
    ensures free { OrderIsFree }
    ensures undisturbed { OrderIsUndisturbed }
{}

/// The instances of the units of a program, in order, do what its body does, predicates aside: at all sizes and in every memory,
/// where no loop stands in a loop.
pub fn cut_keeps_the_meaning()
    ensures pieces { PiecesKeepTheMeaning }
    ensures instances { InstancesKeepTheMeaning }
{}

/// The instances at sizes are those at greater sizes, in the same order, whose index is below the size.
pub fn instances_are_kept()
    ensures { InstancesAreKept }
{}

/// Whether a body has exactly one piece, and no loop, is told by the text, whatever the numbers of the predicates.
pub fn one_piece_is_counted()
    ensures { OneIsCounted }
{}
