//! Runs the examples of the README, and prints what each gives.
#![tactic(auto)]

use elx_io::{FolderShelf, OutSink};
use p4all_top::{code, p4all};
use std::io;

/// A source and a target of each example.
const EXAMPLES: [(&str, &str); 6] = [
    ("smallest.p4", "one_stage.toml"),
    ("rows_and_cols.p4", "one_stage.toml"),
    ("rows_and_cols.p4", "narrow_header.toml"),
    ("stepped_utility.p4", "one_stage.toml"),
    ("infeasible.p4", "one_stage.toml"),
    ("unbounded.p4", "one_stage.toml"),
];

fn main(rt: HostRuntime) -> io::Result<()> {
    for (source, target) in EXAMPLES {
        println!(rt; "$ ./p4all size examples/{source} examples/{target}")?;
        let mut shelf = FolderShelf::new(&rt);
        let mut out = OutSink::new(&rt);
        let words = ["size", source, target];
        let status = p4all(rt.alloc(), words.as_slice(), &mut shelf, &mut out);
        println!(rt; "(status {})", code(status))?;
    }
    Ok(())
}
