//! Two texts, line by line.

use std::alloc::{AllocError, Global};

/// What is said of a text beside the worked one: how many lines they have where they are the same, and else the first line in
/// which they differ.
pub fn compare(alloc: Global, computed: &[u8], worked: &str) -> Result<String, AllocError> {
    if computed == worked.as_bytes() {
        let count = worked.lines().count();
        return format!(in alloc; "{count} lines as worked");
    }
    let Ok(computed) = str::from_utf8(computed) else {
        return format!(in alloc; "no text");
    };
    difference(alloc, computed, worked)
}

/// The first line in which two texts differ.
fn difference(alloc: Global, computed: &str, worked: &str) -> Result<String, AllocError> {
    let mut others = computed.lines();
    for (place, line) in worked.lines().enumerate() {
        let other = others.next().unwrap_or("nothing");
        if line != other {
            return format!(in alloc; "line {place} is `{line}`, computed is `{other}`");
        }
    }
    let other = others.next().unwrap_or("nothing");
    format!(in alloc; "behind the last line is computed `{other}`")
}
