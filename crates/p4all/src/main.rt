//! The program `p4all`.
#![tactic(auto)]

ghost use Rattle.std.specs.Prelude.{◌≡◌, IfOk, IsErr};
ghost use Rattle.p4all_top.specs.Codes.{status_code};

use elx_io::{FolderShelf, OutSink};
use p4all_top::{Status, code, p4all};
use std::alloc::AllocError;
use std::env;
use std::process::ExitCode;

/// Runs the command that the words after the program's name give, on the files of this folder and standard output.
fn main(rt: HostRuntime) -> ExitCode {
    ExitCode::from(exit_code(run(&rt)))
}

/// The exit code of a run: that of its status, and that of want of memory where there was none for the words.
fn exit_code(ended: Result<Status, AllocError>) -> u8
    ensures status { IfOk ended (λ status. result ≡ status_code status) }
    ensures no_words { IsErr ended → result ≡ status_code Status.Memory }
{
    code(ended.unwrap_or(Status::Memory))
}

/// The status of the run on the words after the program's name, if there is memory for them.
fn run(rt: &HostRuntime) -> Result<Status, AllocError> {
    let words = words(rt)?;
    let texts: Vec<&str> = words.iter().map(|word| word.as_str()).collect(rt.alloc())?;
    let mut shelf = FolderShelf::new(rt);
    let mut out = OutSink::new(rt);
    Ok(p4all(rt.alloc(), texts.as_slice(), &mut shelf, &mut out))
}

/// The words after the program's name.
fn words(rt: &HostRuntime) -> Result<Vec<String>, AllocError> {
    let Ok(mut all) = env::args(rt) else {
        return Err(AllocError);
    };
    let _ = all.next();
    all.collect(rt.alloc())
}
