//! Which units `size` takes, and how deep their statements may stand.

use crate::Status;
use crate::size_tests::{one_stage, one_stage_with, refuses, run, whole_with};
use std::alloc::{AllocError, Global};
use std::test::Fail;

/// A whole program whose control has this body.
fn whole(alloc: Global, body: &str) -> Result<String, AllocError> {
    whole_with(alloc, "", "", body)
}

/// A whole program whose control assigns in so many conditions, each in the one before.
fn nested(alloc: Global, conditions: usize) -> Result<String, AllocError> {
    let opened = "if (hdr.h.v == 0) {".repeat(alloc, conditions)?;
    let closed = "}".repeat(alloc, conditions)?;
    let body = format!(in alloc; "{opened} hdr.h.v = 1; {closed}")?;
    whole(alloc, body.as_str())
}

pub const GUARDED: &str =
    "if (hdr.h.v == 3 && hdr.h.v != 1) { hdr.h.v = (hdr.h.v + 1) ^ hdr.h.v; }";

const RISING: &str = "hdr.h.v = 1; hdr.h.v = hdr.h.v + 1 + 2; hdr.h.v = hdr.h.v + 1 + 2 + 3;";

/// A body of a control, how many operators a unit may have, and the line that refuses the program.
const BODIES: [(&str, u32, &str); 4] = [
    ("hdr.h.v = hdr.h.v + 1;", 0, "refused unit 0 1\n"),
    (RISING, 1, "refused unit 1 2\n"),
    (RISING, 2, "refused unit 2 3\n"),
    (GUARDED, 4, "refused unit 0 5\n"),
];

#[test]
fn the_first_unit_with_too_many_operators_is_refused(rt: HostRuntime) -> Result<(), Fail> {
    for (body, ops, line) in BODIES {
        let source = whole(rt.alloc(), body)?;
        let target = one_stage_with(rt.alloc(), 512, ops)?;
        let refused = refuses(rt.alloc(), source.as_bytes(), target.as_bytes(), line)?;
        assert!(rt; refused, "{body} with {ops}");
    }
    Ok(())
}

#[test]
fn a_large_unit_is_refused_behind_the_target_and_before_the_bounds(
    rt: HostRuntime,
) -> Result<(), Fail> {
    let source = whole_with(rt.alloc(), "symbolic int s;", "", RISING)?;
    let few = one_stage_with(rt.alloc(), 512, 1)?;
    let more = one_stage_with(rt.alloc(), 512, 3)?;
    let rows = [
        (
            "stages = 1\nops = 1\n",
            "refused target missing memory_bits\n",
        ),
        (few.as_str(), "refused unit 1 2\n"),
        (more.as_str(), "refused unbounded s\n"),
    ];
    for (target, line) in rows {
        let refused = refuses(rt.alloc(), source.as_bytes(), target.as_bytes(), line)?;
        assert!(rt; refused, "{line}");
    }
    Ok(())
}

#[test]
fn eighty_brackets_may_be_open_and_no_more(rt: HostRuntime) -> Result<(), Fail> {
    let target = one_stage(rt.alloc(), 512)?;
    for (conditions, line) in [(78, "refused unit 0 155\n"), (79, "refused src deep 934\n")] {
        let source = nested(rt.alloc(), conditions)?;
        let refused = refuses(rt.alloc(), source.as_bytes(), target.as_bytes(), line)?;
        assert!(rt; refused, "{conditions}");
    }
    Ok(())
}

/// A body of a control, and how many operators its one unit has.
const FULL: [(&str, u32); 2] = [("hdr.h.v = hdr.h.v + 1;", 1), (GUARDED, 5)];

#[test]
fn a_unit_may_have_as_many_operators_as_the_target_allows(rt: HostRuntime) -> Result<(), Fail> {
    for (body, ops) in FULL {
        let source = whole(rt.alloc(), body)?;
        let target = one_stage_with(rt.alloc(), 512, ops)?;
        let (status, out) = run(rt.alloc(), source.as_bytes(), target.as_bytes(), &[])?;
        assert_eq!(rt; status, Status::Done, "{body}");
        assert!(rt; out.bytes() == b"utility 0\n".as_slice(), "{body}");
    }
    Ok(())
}
