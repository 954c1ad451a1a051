//! Whether sizes and a placement are feasible.

ghost use Rattle.std.specs.Prelude.{◌≡◌, ◌≤◌, nat_le, length, map, IfSome, MatchOption, MatchResult};
ghost use Rattle.std.specs.List.{find};
ghost use Rattle.elastic_ast.specs.Units.Instances.{nth_size, pair_of, instances};
ghost use Rattle.elastic_ast.specs.Units.SeenUnits.{seen_unit, seen_units};
ghost use Rattle.dep_graph.specs.PlacementRules.{named_pair};
ghost use Rattle.place_check.specs.Conditions.{most_instances, AreSmall, AreSound, AreSizesOf};
ghost use Rattle.place_check.specs.FirstFault.{first_difference as first_difference_of, Listed, Staged, Ordered, Fitting, AllHold, FirstFault};
ghost use Rattle.place_check.specs.Misplaced.{first_against};
ghost use Rattle.place_check.specs.OneAnswer.{FaultsExclude};
ghost use Rattle.place_check.specs.Overfull.{NoneOver, IsFirstOver};
ghost use Rattle.place_check.specs.Standing.{standing, NamesUnits};

use crate::fault::PlaceFault;
use crate::listing::first_difference;
use crate::order::first_misplaced;
use crate::overfull::{first_overfull, limit_of};
use crate::uses::header_use;
use dep_graph::Resource;
use elastic_ast::{At, Placement, Sizes, Units};
use size_terms::holds;
use target_desc::Target;

/// Where there is a fault, the sizes and the placement aren't feasible. It holds of the definitions, and takes no step.
pub fn faults_exclude_feasible()
    ensures { FaultsExclude }
{}

/// The first instance whose stage isn't below a number.
fn first_out(placement: &[At], stages: u8) -> Option<At>
    ensures { result ≡ find (λ at. nat_le stages at.stage) placement.now }
{
    for at in placement {
        if at.stage >= stages {
            return Some(*at);
        }
    }
    None
}

/// The first place at which a placement differs from the list of the instances.
fn difference(units: &Units, sizes: &Sizes, placement: &Placement) -> Option<usize>
    requires { AreSmall sizes.now.values }
    ensures within { IfSome result (λ place. place ≤ length placement.now.at) }
    ensures place { result
        ≡ first_difference_of 0 (map named_pair placement.now.at) (map pair_of (instances (map seen_unit units.now.list) (nth_size sizes.now.values))) }
{
    first_difference(
        units.list.as_slice(),
        sizes.values.as_slice(),
        placement.at.as_slice(),
    )
}

/// The first instance in a stage that the target doesn't have.
fn out_of(target: &Target, placement: &Placement) -> Option<At>
    ensures { result ≡ find (λ at. nat_le target.now.stages at.stage) placement.now.at }
{
    first_out(placement.at.as_slice(), target.stages)
}

/// The first two instances that stand against their order.
fn misplaced(units: &Units, placement: &Placement) -> Option<(At, At)>
    requires { NamesUnits (map seen_unit units.now.list) placement.now.at }
    ensures { result ≡ first_against (map seen_unit units.now.list) placement.now.at }
{
    first_misplaced(units.list.as_slice(), placement.at.as_slice())
}

/// The first stage that takes too much.
fn overfull(
    units: &Units,
    target: &Target,
    sizes: &Sizes,
    placement: &Placement,
) -> Option<(u8, Resource, u128)>
    requires few { length placement.now.at ≤ most_instances }
    requires named { NamesUnits (map seen_unit units.now.list) placement.now.at }
    requires sizes { AreSmall sizes.now.values }
    ensures { MatchOption result
        (NoneOver target.now (nth_size sizes.now.values) (standing (map seen_unit units.now.list) placement.now.at) target.now.stages)
        (λ over. IsFirstOver target.now (nth_size sizes.now.values) (standing (map seen_unit units.now.list) placement.now.at) over.0 over.1 over.2) }
{
    first_overfull(
        units.list.as_slice(),
        sizes.values.as_slice(),
        target,
        placement.at.as_slice(),
    )
}

/// Whether the assume clauses hold, and the placement lists the instances.
fn check_listed(
    units: &Units,
    target: &Target,
    sizes: &Sizes,
    placement: &Placement,
) -> Result<(), PlaceFault>
    requires sound { AreSound units.now }
    requires sizes { AreSizesOf units.now sizes.now.values }
    requires few { length placement.now.at ≤ most_instances }
    ensures { MatchResult result
        (λ done. Listed (seen_units units.now) sizes.now.values placement.now.at)
        (FirstFault (seen_units units.now) target.now sizes.now.values placement.now.at) }
{
    if !holds(&units.terms, sizes) {
        return Err(PlaceFault::Terms);
    }
    match difference(units, sizes, placement) {
        Some(place) => Err(PlaceFault::Instances {
            place: place as u32,
        }),
        None => Ok(()),
    }
}

/// Whether all stages of listed instances are stages of the target.
fn check_staged(
    units: &Units,
    target: &Target,
    sizes: &Sizes,
    placement: &Placement,
) -> Result<(), PlaceFault>
    requires { Listed (seen_units units.now) sizes.now.values placement.now.at }
    ensures { MatchResult result
        (λ done. Staged (seen_units units.now) target.now sizes.now.values placement.now.at)
        (FirstFault (seen_units units.now) target.now sizes.now.values placement.now.at) }
{
    match out_of(target, placement) {
        Some(At { unit, index, stage }) => Err(PlaceFault::StageOut { unit, index, stage }),
        None => Ok(()),
    }
}

/// Whether the instances stand in their order.
fn check_ordered(
    units: &Units,
    target: &Target,
    sizes: &Sizes,
    placement: &Placement,
) -> Result<(), PlaceFault>
    requires { Staged (seen_units units.now) target.now sizes.now.values placement.now.at }
    ensures { MatchResult result
        (λ done. Ordered (seen_units units.now) target.now sizes.now.values placement.now.at)
        (FirstFault (seen_units units.now) target.now sizes.now.values placement.now.at) }
{
    match misplaced(units, placement) {
        Some((first, other)) => Err(PlaceFault::Order {
            unit: first.unit,
            index: first.index,
            other: other.unit,
            other_index: other.index,
        }),
        None => Ok(()),
    }
}

/// Whether no stage takes more than the target has.
fn check_fitting(
    units: &Units,
    target: &Target,
    sizes: &Sizes,
    placement: &Placement,
) -> Result<(), PlaceFault>
    requires before { Ordered (seen_units units.now) target.now sizes.now.values placement.now.at }
    requires sizes { AreSizesOf units.now sizes.now.values }
    requires few { length placement.now.at ≤ most_instances }
    ensures { MatchResult result
        (λ done. Fitting (seen_units units.now) target.now sizes.now.values placement.now.at)
        (FirstFault (seen_units units.now) target.now sizes.now.values placement.now.at) }
{
    match overfull(units, target, sizes, placement) {
        Some((stage, resource, used)) => Err(PlaceFault::Over {
            stage,
            resource,
            used,
            limit: limit_of(target, resource),
        }),
        None => Ok(()),
    }
}

/// Whether the header bits are within those of the target.
fn check_header(
    units: &Units,
    target: &Target,
    sizes: &Sizes,
    placement: &Placement,
) -> Result<(), PlaceFault>
    requires before { Fitting (seen_units units.now) target.now sizes.now.values placement.now.at }
    requires sound { AreSound units.now }
    requires sizes { AreSizesOf units.now sizes.now.values }
    ensures { MatchResult result
        (λ done. AllHold (seen_units units.now) target.now sizes.now.values placement.now.at)
        (FirstFault (seen_units units.now) target.now sizes.now.values placement.now.at) }
{
    let used = header_use(units, sizes.values.as_slice());
    let limit = target.header_bits;
    if used > u128::from(limit) {
        Err(PlaceFault::Header { used, limit })
    } else {
        Ok(())
    }
}

/// Whether sizes and a placement are feasible on a target, or the first thing that is wrong with them. It takes no memory.
///
/// There is one size a symbol, each of at most 2^32, and at most 2^32 - 1 instances are placed.
pub fn check(
    units: &Units,
    target: &Target,
    sizes: &Sizes,
    placement: &Placement,
) -> Result<(), PlaceFault>
    requires sound { AreSound units.now }
    requires sizes { AreSizesOf units.now sizes.now.values }
    requires few { length placement.now.at ≤ most_instances }
    ensures { MatchResult result
        (λ done. AllHold (seen_units units.now) target.now sizes.now.values placement.now.at)
        (FirstFault (seen_units units.now) target.now sizes.now.values placement.now.at) }
{
    check_listed(units, target, sizes, placement)?;
    check_staged(units, target, sizes, placement)?;
    check_ordered(units, target, sizes, placement)?;
    check_fitting(units, target, sizes, placement)?;
    check_header(units, target, sizes, placement)
}
