//! The worked programs.

use crate::comparing::compare;
use crate::modelling::{Form, modelled};
use crate::program::{NoAnswer, answer};
use std::alloc::Global;
use std::{fs, io};

pub const NAMES: [&str; 34] = [
    "all_bounds",
    "bloom_mid",
    "cache_tofino",
    "chain_mid",
    "cms_small",
    "condition_once",
    "count_big_headers",
    "count_min_sketch",
    "layered_headers",
    "many_tables",
    "nested_conditions",
    "no_main",
    "no_rows",
    "operators",
    "pipe_mid",
    "refused_bound",
    "refused_instances",
    "refused_ops",
    "refused_rows",
    "refused_second",
    "refused_unbounded",
    "refused_variables",
    "rows_and_cols",
    "shared_action",
    "sketch_and_cache",
    "stepped_utility",
    "swap_then_set",
    "ternary_table",
    "three_registers",
    "two_coupled",
    "two_field_arrays",
    "two_register_arrays",
    "two_staged_blocks",
    "write_each",
];

/// The text of a file.
pub fn read(rt: &HostRuntime, name: &str) -> io::Result<String> {
    fs::read_to_string(rt, name)
}

/// What is said of a worked text of units: that all of its lines are as they are computed, or which isn't.
fn said_of_units(
    alloc: Global,
    source: &str,
    target: &str,
    worked: &str,
) -> Result<String, NoAnswer> {
    let lines = answer(alloc, source, target, worked)?;
    Ok(compare(alloc, lines.bytes(), worked)?)
}

/// What is said of a worked integer program.
fn said_of_model(
    alloc: Global,
    source: &str,
    target: &str,
    worked: &str,
) -> Result<String, NoAnswer> {
    let lines = modelled(alloc, source, target, Form::Model)?;
    Ok(compare(alloc, lines.bytes(), worked)?)
}

/// Prints what is said of a worked text.
fn print_said(
    rt: &HostRuntime,
    name: &str,
    what: &str,
    said: Result<String, NoAnswer>,
) -> io::Result<()> {
    match said {
        Ok(said) => println!(rt; "{name}: {what}: {said}"),
        Err(error) => println!(rt; "{name}: {what}: {error}"),
    }
}

/// Prints what is said of the worked texts of a program.
pub fn compare_named(rt: &HostRuntime, name: &str) -> io::Result<()> {
    let source = read(rt, format!(in rt.alloc(); "{name}.p4")?.as_str())?;
    let target = read(rt, format!(in rt.alloc(); "{name}.toml")?.as_str())?;
    let units = read(rt, format!(in rt.alloc(); "{name}.txt")?.as_str())?;
    let model = read(rt, format!(in rt.alloc(); "{name}.model")?.as_str())?;
    let (source, target) = (source.as_str(), target.as_str());
    print_said(
        rt,
        name,
        "units",
        said_of_units(rt.alloc(), source, target, units.as_str()),
    )?;
    print_said(
        rt,
        name,
        "integer program",
        said_of_model(rt.alloc(), source, target, model.as_str()),
    )
}
