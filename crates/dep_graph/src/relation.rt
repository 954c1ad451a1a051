//! The order of two instances of units, by what they may read and write.

ghost use Rattle.std.specs.Prelude.{◌≡◌};
ghost use Rattle.elastic_ast.specs.Typing.Scope.{same};
ghost use Rattle.elastic_ast.specs.Units.Reach.{is_own, one_thing};
ghost use Rattle.elastic_ast.specs.Units.Order.{coincide, touches, meet, order};
ghost use Rattle.elastic_ast.specs.Units.SeenUnits.{seen_unit};
ghost use Rattle.dep_graph.specs.OrderAtIndices.{OrderAtIndices};
ghost use Rattle.dep_graph.specs.SeenRelation.{seen_relation};

use elastic_ast::{Location, Unit};
use elx_bits::Name;

/// What the order of an earlier instance and a later one asks of their stages.
#[derive(Clone, Copy, Debug, PartialEq, Eq)]
pub enum Relation {
    /// Nothing.
    Free,
    /// The earlier one stands in no later stage.
    NotAfter,
    /// The earlier one stands in an earlier stage.
    Before,
}

/// The order of an instance of a unit and a later one of another, each at its index. It takes no memory, and at most as many steps as
/// the locations of the first times those of the second.
pub fn order(first: &Unit, second: &Unit, first_index: u32, second_index: u32) -> Relation
    ensures { seen_relation result
        ≡ order (seen_unit first.now) (seen_unit second.now) first_index second_index }
{
    let (reads, writes) = (second.reads.as_slice(), second.writes.as_slice());
    let written = first.writes.as_slice();
    if meet(reads, second_index, written, first_index)
        || meet(writes, second_index, written, first_index)
    {
        Relation::Before
    } else if meet(writes, second_index, first.reads.as_slice(), first_index) {
        Relation::NotAfter
    } else {
        Relation::Free
    }
}

/// Two units have one order at all equal indices, and one at all indices that differ.
pub fn order_at_indices()
    ensures { OrderAtIndices }
{}

/// Whether one of these locations, at an index, is one of the others, at theirs.
fn meet(ones: &[Location], index: u32, others: &[Location], other_index: u32) -> bool
    ensures { result ≡ meet ones.now index others.now other_index }
{
    ones.iter()
        .any(|one| touches(one, index, others, other_index))
}

/// Whether a location at an index is one of the others, at theirs.
fn touches(one: &Location, index: u32, others: &[Location], other_index: u32) -> bool
    ensures { result ≡ touches one.now index others.now other_index }
{
    others
        .iter()
        .any(|other| coincide(one, index, other, other_index))
}

/// Whether two locations are one, where each element has the index beside it.
fn coincide(one: &Location, index: u32, other: &Location, other_index: u32) -> bool
    ensures { result ≡ coincide one.now index other.now other_index }
{
    one_thing(one, other) && (!(is_own(one) && is_own(other)) || index == other_index)
}

/// Whether a location is an element of an array.
fn is_own(at: &Location) -> bool
    ensures { result ≡ is_own at.now }
{
    match at {
        Location::Meta { own, .. } | Location::Pred { own, .. } | Location::Reg { own, .. } => *own,
        _ => false,
    }
}

/// Whether two locations are of one field, validity bit, predicate, register or array.
fn one_thing(one: &Location, other: &Location) -> bool
    ensures { result ≡ one_thing one.now other.now }
{
    match (one, other) {
        (
            Location::Header { header, field },
            Location::Header {
                header: other_header,
                field: other_field,
            },
        ) => same(header, other_header) && same(field, other_field),
        (Location::Valid { header }, Location::Valid { header: other }) => same(header, other),
        (Location::Meta { name, .. }, Location::Meta { name: other, .. }) => same(name, other),
        (Location::Std { name }, Location::Std { name: other }) => same(name, other),
        (Location::Pred { number, .. }, Location::Pred { number: other, .. }) => number == other,
        (Location::Reg { name, .. }, Location::Reg { name: other, .. }) => same(name, other),
        _ => false,
    }
}

/// Whether two names have the same bytes.
fn same(name: &Name, other: &Name) -> bool
    ensures { result ≡ same name.now other.now }
{
    name.same(other)
}
