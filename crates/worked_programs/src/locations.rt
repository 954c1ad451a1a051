//! Locations, as one word each.

use elastic_ast::Location;
use elx_io::Lines;
use std::alloc::{AllocError, Global};

/// A kind and what is named of it, with dots between, and brackets where it is an element of an array.
fn dotted(alloc: Global, parts: &[&[u8]], own: bool) -> Result<Vec<u8>, AllocError> {
    let mut word = Vec::new(alloc);
    for part in parts {
        if !word.is_empty() {
            word.push(b'.')?;
        }
        word.extend_from_slice(part)?;
    }
    if own {
        word.extend_from_slice(b"[]")?;
    }
    Ok(word)
}

fn location_word(alloc: Global, at: &Location) -> Result<Vec<u8>, AllocError> {
    match at {
        Location::Header { header, field } => {
            dotted(alloc, &[b"hdr", header.as_slice(), field.as_slice()], false)
        }
        Location::Valid { header } => dotted(alloc, &[b"valid", header.as_slice()], false),
        Location::Meta { name, own } => dotted(alloc, &[b"meta", name.as_slice()], *own),
        Location::Std { name } => dotted(alloc, &[b"std", name.as_slice()], false),
        Location::Pred { number, own } => {
            let number = format!(in alloc; "{number}")?;
            dotted(alloc, &[b"if", number.as_bytes()], *own)
        }
        Location::Reg { name, own } => dotted(alloc, &[b"reg", name.as_slice()], *own),
    }
}

/// Adds a line of locations, sorted by their bytes.
pub fn put_locations(
    alloc: Global,
    lines: &mut Lines,
    kind: &[u8],
    locations: &[Location],
) -> Result<(), AllocError> {
    let mut words = Vec::new(alloc);
    for at in locations {
        words.push(location_word(alloc, at)?)?;
    }
    words.sort_unstable();
    lines.word(kind)?;
    for word in &words {
        lines.word(word.as_slice())?;
    }
    lines.end()
}
