//! How a run of `size` reads its files and ends.

use crate::size_tests::{ROWS_AND_COLS, one_stage, refuses, run};
use crate::{Status, p4all};
use elx_bits::Items;
use elx_io::{MemShelf, MemSink};
use std::test::Fail;

#[test]
fn files_may_have_their_limits_and_no_byte_more(rt: HostRuntime) -> Result<(), Fail> {
    let target = one_stage(rt.alloc(), 64)?;
    let mut source = vec![in rt.alloc(); b' '; 16_777_216]?;
    let (ended, _) = run(rt.alloc(), source.as_slice(), target.as_bytes(), &[])?;
    assert_eq!(rt; ended, Status::Done);
    source.push(b' ')?;
    let refused = refuses(
        rt.alloc(),
        source.as_slice(),
        target.as_bytes(),
        "refused long src\n",
    )?;
    assert!(rt; refused);
    let mut text = vec![in rt.alloc(); b'\n'; 65_536 - target.len().min(65_536)]?;
    text.extend_from_slice(target.as_bytes())?;
    let (ended, _) = run(rt.alloc(), b"", text.as_slice(), &[])?;
    assert_eq!(rt; ended, Status::Done);
    text.push(b'\n')?;
    let refused = refuses(rt.alloc(), b"", text.as_slice(), "refused long target\n")?;
    assert!(rt; refused);
    Ok(())
}

#[test]
fn a_fault_ends_the_run_and_prints_nothing(rt: HostRuntime) -> Result<(), Fail> {
    let target = one_stage(rt.alloc(), 64)?;
    for call in [1, 2] {
        let (ended, out) = run(
            rt.alloc(),
            ROWS_AND_COLS.as_bytes(),
            target.as_bytes(),
            &[call],
        )?;
        assert_eq!(rt; ended, Status::Fault, "{call}");
        assert_eq!(rt; out.bytes(), b"".as_slice(), "{call}");
    }
    let (ended, _) = run(rt.alloc(), b"maximize(7);", target.as_bytes(), &[3])?;
    assert_eq!(rt; ended, Status::Done, "a run reads twice");
    Ok(())
}

#[test]
fn a_bad_source_is_refused_before_the_target_is_read(rt: HostRuntime) -> Result<(), Fail> {
    let target = one_stage(rt.alloc(), 64)?;
    let (ended, out) = run(rt.alloc(), b"a $", target.as_bytes(), &[2])?;
    assert_eq!(rt; ended, Status::Refused);
    assert_eq!(rt; out.bytes(), b"refused src byte 2\n".as_slice());
    Ok(())
}

#[test]
fn a_sink_that_fails_ends_the_run(rt: HostRuntime) -> Result<(), Fail> {
    let mut shelf = MemShelf::new(rt.alloc(), Items::new(rt.alloc()));
    shelf.put_file("src", b"maximize(7);")?;
    shelf.put_file("target", one_stage(rt.alloc(), 64)?.as_bytes())?;
    let mut out = MemSink::new(rt.alloc(), Items::from_vec([1].to_vec(rt.alloc())?));
    let words = ["size", "src", "target"];
    let ended = p4all(rt.alloc(), words.as_slice(), &mut shelf, &mut out);
    assert_eq!(rt; ended, Status::Fault);
    let again = p4all(rt.alloc(), words.as_slice(), &mut shelf, &mut out);
    assert_eq!(rt; again, Status::Done);
    Ok(())
}

#[test]
fn other_words_are_no_command(rt: HostRuntime) -> Result<(), Fail> {
    let mut shelf = MemShelf::new(rt.alloc(), Items::new(rt.alloc()));
    let mut out = MemSink::new(rt.alloc(), Items::new(rt.alloc()));
    let rows: [&[&str]; 5] = [
        &[],
        &["size"],
        &["size", "a"],
        &["size", "a", "b", "c"],
        &["sizes", "a", "b"],
    ];
    for words in rows {
        let ended = p4all(rt.alloc(), words, &mut shelf, &mut out);
        assert_eq!(rt; ended, Status::Words, "{words:?}");
    }
    assert_eq!(rt; out.bytes(), b"".as_slice());
    Ok(())
}
