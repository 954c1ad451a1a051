//! Whether the instances in a stage take more of a resource than the target has.

ghost use Rattle.std.specs.Prelude.{◌≡◌, ◌≤◌, length, map, MatchOption};
ghost use Rattle.std.specs.List.{find};
ghost use Rattle.elastic_ast.specs.Units.Instances.{nth_size};
ghost use Rattle.elastic_ast.specs.Units.SeenUnits.{seen_unit};
ghost use Rattle.dep_graph.specs.Use.{limit_of as limit_by};
ghost use Rattle.place_check.specs.Conditions.{most_instances, AreSmall};
ghost use Rattle.place_check.specs.FirstFault.{resources};
ghost use Rattle.place_check.specs.Standing.{standing, NamesUnits};
ghost use Rattle.place_check.specs.Overfull.{used_by, is_over, NoneOver, IsFirstOver};

use crate::uses::{StageUse, stage_use};
use dep_graph::Resource;
use elastic_ast::{At, Unit};
use target_desc::Target;

/// What is taken of a resource.
fn used_of(used: &StageUse, resource: Resource) -> u128
    ensures { result ≡ used_by resource used.now }
{
    match resource {
        Resource::Stateful => used.stateful,
        Resource::Stateless => used.stateless,
        Resource::Memory => used.memory,
        Resource::TableBits => used.table_bits,
        Resource::TernaryBits => used.ternary_bits,
    }
}

/// What a target has of a resource in each stage.
pub fn limit_of(target: &Target, resource: Resource) -> u64
    ensures { result ≡ limit_by resource target.now }
{
    match resource {
        Resource::Stateful => target.stateful,
        Resource::Stateless => target.stateless,
        Resource::Memory => target.memory_bits,
        Resource::TableBits => target.table_bits,
        Resource::TernaryBits => target.ternary_bits,
    }
}

/// The first resource of which more is taken than the target has.
fn overfull(used: &StageUse, target: &Target) -> Option<Resource>
    ensures { result ≡ find (is_over target.now used.now) resources }
{
    if used.stateful > u128::from(target.stateful) {
        Some(Resource::Stateful)
    } else if used.stateless > u128::from(target.stateless) {
        Some(Resource::Stateless)
    } else if used.memory > u128::from(target.memory_bits) {
        Some(Resource::Memory)
    } else if used.table_bits > u128::from(target.table_bits) {
        Some(Resource::TableBits)
    } else if used.ternary_bits > u128::from(target.ternary_bits) {
        Some(Resource::TernaryBits)
    } else {
        None
    }
}

/// The first stage that takes too much, with the first resource of which it does, and how much it takes.
pub fn first_overfull(
    units: &[Unit],
    sizes: &[u64],
    target: &Target,
    placement: &[At],
) -> Option<(u8, Resource, u128)>
    requires few { length placement.now ≤ most_instances }
    requires named { NamesUnits (map seen_unit units.now) placement.now }
    requires sizes { AreSmall sizes.now }
    ensures { MatchOption result
        (NoneOver target.now (nth_size sizes.now) (standing (map seen_unit units.now) placement.now) target.now.stages)
        (λ over. IsFirstOver target.now (nth_size sizes.now) (standing (map seen_unit units.now) placement.now) over.0 over.1 over.2) }
{
    for stage in 0..target.stages {
        let used = stage_use(units, sizes, placement, stage);
        if let Some(resource) = overfull(&used, target) {
            return Some((stage, resource, used_of(&used, resource)));
        }
    }
    None
}
