//! The answers to the questions of a worked text.

ghost use Rattle.place_check.specs.Conditions.{AreSound, AreSizesOf};

use crate::instances::instances;
use crate::questions::{placement_in, sizes_in};
use crate::unit_lines::put_count;
use dep_graph::{Relation, order};
use elastic_ast::{At, Placement, Sizes, Unit, Units};
use elx_bits::{Items, Name};
use elx_io::Lines;
use place_check::{PlaceFault, Resource, StageUse, are_sizes_of, check, names_units, report};
use size_terms::utility;
use std::alloc::{AllocError, Global};
use target_desc::Target;

/// Adds a line of the symbols with their sizes.
fn put_sizes(
    lines: &mut Lines,
    what: &[u8],
    symbols: &[Name],
    sizes: &Sizes,
) -> Result<(), AllocError> {
    lines.word(what)?;
    for (symbol, size) in symbols.iter().zip(sizes.values.as_slice()) {
        lines.word(symbol.as_slice())?;
        lines.number(i128::from(*size))?;
    }
    lines.end()
}

/// Adds the unit and the index of an instance.
fn put_instance(alloc: Global, lines: &mut Lines, at: At) -> Result<(), AllocError> {
    let At { unit, index, .. } = at;
    lines.word(format!(in alloc; "{unit}.{index}")?.as_bytes())
}

/// Adds the lines of the instances at sizes.
fn put_instances(
    alloc: Global,
    lines: &mut Lines,
    units: &Units,
    sizes: &Sizes,
) -> Result<(), AllocError> {
    put_sizes(lines, b"instances", units.terms.symbols.as_slice(), sizes)?;
    lines.word(b"list")?;
    let listed = instances(alloc, units.list.as_slice(), sizes.values.as_slice())?;
    for at in listed.at.as_slice() {
        put_instance(alloc, lines, *at)?;
    }
    lines.end()
}

/// What stands for an order; nothing for one that asks nothing.
fn relation_word(relation: Relation) -> Option<&'static str> {
    match relation {
        Relation::Free => None,
        Relation::NotAfter => Some("NotAfter"),
        Relation::Before => Some("Before"),
    }
}

/// The order of an instance and a later one.
fn relation_of(units: &[Unit], first: At, second: At) -> Relation {
    match (
        units.get(first.unit as usize),
        units.get(second.unit as usize),
    ) {
        (Some(one), Some(other)) => order(one, other, first.index, second.index),
        _ => Relation::Free,
    }
}

/// Adds a line for each instance after one, where their order asks something.
fn put_orders_of(
    alloc: Global,
    lines: &mut Lines,
    units: &[Unit],
    first: At,
    later: &[At],
) -> Result<(), AllocError> {
    for second in later {
        if let Some(word) = relation_word(relation_of(units, first, *second)) {
            put_instance(alloc, lines, first)?;
            put_instance(alloc, lines, *second)?;
            lines.word(word.as_bytes())?;
            lines.end()?;
        }
    }
    Ok(())
}

/// Adds the lines of the orders of all pairs of instances at sizes.
fn put_orders(
    alloc: Global,
    lines: &mut Lines,
    units: &Units,
    sizes: &Sizes,
) -> Result<(), AllocError> {
    put_sizes(lines, b"orders", units.terms.symbols.as_slice(), sizes)?;
    let list = units.list.as_slice();
    let placement = instances(alloc, list, sizes.values.as_slice())?;
    let listed = placement.at.as_slice();
    for i in 0..listed.len() {
        put_orders_of(alloc, lines, list, listed[i], &listed[i + 1..])?;
    }
    Ok(())
}

/// Adds the line of a placement.
fn put_placement(
    alloc: Global,
    lines: &mut Lines,
    placement: &Placement,
) -> Result<(), AllocError> {
    lines.word(b"at")?;
    for at in placement.at.as_slice() {
        let At { unit, index, stage } = *at;
        lines.word(format!(in alloc; "{unit}.{index}.{stage}")?.as_bytes())?;
    }
    lines.end()
}

fn resource_word(resource: Resource) -> &'static str {
    match resource {
        Resource::Stateful => "stateful",
        Resource::Stateless => "stateless",
        Resource::Memory => "memory",
        Resource::TableBits => "table",
        Resource::TernaryBits => "ternary",
    }
}

/// What is said of a fault.
fn fault_words(alloc: Global, fault: PlaceFault) -> Result<String, AllocError> {
    match fault {
        PlaceFault::Terms => format!(in alloc; "terms"),
        PlaceFault::Instances { place } => format!(in alloc; "instances {place}"),
        PlaceFault::StageOut { unit, index, stage } => {
            format!(in alloc; "stage {unit} {index} {stage}")
        }
        PlaceFault::Order {
            unit,
            index,
            other,
            other_index,
        } => format!(in alloc; "order {unit} {index} {other} {other_index}"),
        PlaceFault::Over {
            stage,
            resource,
            used,
            limit,
        } => {
            let resource = resource_word(resource);
            format!(in alloc; "over {stage} {resource} {used} {limit}")
        }
        PlaceFault::Header { used, limit } => format!(in alloc; "header {used} {limit}"),
    }
}

/// Adds the line of what a stage takes.
fn put_use(
    alloc: Global,
    lines: &mut Lines,
    stage: usize,
    used: StageUse,
) -> Result<(), AllocError> {
    let StageUse {
        stateful,
        stateless,
        memory,
        table_bits,
        ternary_bits,
    } = used;
    lines.word(format!(in alloc;
        "stage {stage} stateful {stateful} stateless {stateless}"
    )?.as_bytes())?;
    lines.word(format!(in alloc;
        "memory {memory} table {table_bits} ternary {ternary_bits}"
    )?.as_bytes())?;
    lines.end()
}

/// Adds the lines of what a placement takes of the target.
fn put_uses(
    alloc: Global,
    lines: &mut Lines,
    units: &Units,
    target: &Target,
    sizes: &Sizes,
    placement: &Placement,
) -> Result<(), AllocError>
    requires sound { AreSound units.now }
    requires sizes { AreSizesOf units.now sizes.now.values }
{
    if placement.at.as_slice().len() > 4_294_967_295 || !names_units(units, placement) {
        return Ok(());
    }
    let table = report(alloc, units, target, sizes, placement)?;
    for (stage, used) in table.stages.as_slice().iter().enumerate() {
        put_use(alloc, lines, stage, *used)?;
    }
    let header = table.header;
    lines.word(format!(in alloc; "header {header}")?.as_bytes())?;
    lines.end()
}

/// Adds the line of what is said of sizes and a placement, and the lines of what they take where nothing is wrong.
fn put_verdict(
    alloc: Global,
    lines: &mut Lines,
    units: &Units,
    target: &Target,
    sizes: &Sizes,
    placement: &Placement,
) -> Result<(), AllocError>
    requires sound { AreSound units.now }
    requires sizes { AreSizesOf units.now sizes.now.values }
{
    lines.word(b"answer")?;
    if placement.at.as_slice().len() > 4_294_967_295 {
        return lines.end();
    }
    match check(units, target, sizes, placement) {
        Ok(()) => {
            lines.word(b"ok")?;
            lines.end()?;
            put_uses(alloc, lines, units, target, sizes, placement)
        }
        Err(fault) => {
            lines.word(fault_words(alloc, fault)?.as_bytes())?;
            lines.end()
        }
    }
}

/// Adds the lines of sizes and a placement that are judged.
fn put_judged(
    alloc: Global,
    lines: &mut Lines,
    units: &Units,
    target: &Target,
    sizes: &Sizes,
    placement: &Placement,
) -> Result<(), AllocError>
    requires { AreSound units.now }
{
    lines.word(b"placement")?;
    lines.end()?;
    put_sizes(lines, b"sizes", units.terms.symbols.as_slice(), sizes)?;
    if !are_sizes_of(units, sizes) {
        return Ok(());
    }
    put_count(lines, b"utility", utility(&units.terms, sizes))?;
    put_placement(alloc, lines, placement)?;
    put_verdict(alloc, lines, units, target, sizes, placement)
}

/// Adds the answers to the questions of a worked text, in its order.
pub fn put_answers(
    alloc: Global,
    lines: &mut Lines,
    units: &Units,
    target: &Target,
    worked: &str,
) -> Result<(), AllocError>
    requires { AreSound units.now }
{
    let mut sizes = Sizes {
        values: Items::new(alloc),
    };
    for line in worked.lines() {
        match line.split(' ').next().unwrap_or("") {
            "instances" => put_instances(alloc, lines, units, &sizes_in(alloc, line)?)?,
            "orders" => put_orders(alloc, lines, units, &sizes_in(alloc, line)?)?,
            "sizes" => sizes = sizes_in(alloc, line)?,
            "at" => {
                let placement = placement_in(alloc, line)?;
                put_judged(alloc, lines, units, target, &sizes, &placement)?;
            }
            _ => {}
        }
    }
    Ok(())
}
