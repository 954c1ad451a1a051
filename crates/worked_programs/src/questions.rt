//! The questions of a worked text, a line each: `instances NAME SIZE ..` and `orders NAME SIZE ..` ask for the instances and for their
//! orders at these sizes, and `sizes NAME SIZE ..` with `at UNIT.INDEX.STAGE ..` behind it for what is said of a placement.

use elastic_ast::{At, Placement, Sizes};
use elx_bits::Items;
use std::alloc::{AllocError, Global};

/// The sizes in a line of names and sizes.
pub fn sizes_in(alloc: Global, line: &str) -> Result<Sizes, AllocError> {
    let mut values = Items::new(alloc);
    for word in line.split(' ') {
        if let Ok(size) = word.parse::<u64>() {
            values.push(size)?;
        }
    }
    Ok(Sizes { values })
}

/// The unit, the index and the stage of a word.
fn at_in(word: &str) -> Option<At> {
    let mut parts = word.split('.');
    Some(At {
        unit: parts.next()?.parse::<u32>().ok()?,
        index: parts.next()?.parse::<u32>().ok()?,
        stage: parts.next()?.parse::<u8>().ok()?,
    })
}

/// The placement in a line.
pub fn placement_in(alloc: Global, line: &str) -> Result<Placement, AllocError> {
    let mut at = Items::new(alloc);
    for word in line.split(' ') {
        if let Some(place) = at_in(word) {
            at.push(place)?;
        }
    }
    Ok(Placement { at })
}
