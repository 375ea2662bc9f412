//! `vx compress` and `vx store` read a document, compress its column, and write the listing or the file of the tree. `vx show` and
//! `vx rows` read a file, and write the listings of its trees or their columns as documents. `vx query` runs a document's commands
//! on its compressed column.
#![tactic(auto)]

use std::alloc::AllocError;
use std::env::Env;
use std::io::ErrorKind;
use std::process::ExitCode;
use std::{env, io};
use vx_program::{NO_MEMORY, StdSink, StdSource, run};

/// The arguments behind the program's name; none where one is not UTF-8, which is no supported command line either.
fn args_of(rt: &(impl Env + AllocGlobal)) -> Result<Vec<String>, AllocError> {
    let mut texts = Vec::new(rt.alloc());
    match env::args(rt) {
        Ok(args) => {
            for arg in args.skip(1) {
                texts.push(arg)?;
            }
        }
        Err(e) => {
            if e.kind() == ErrorKind::OutOfMemory {
                return Err(AllocError);
            }
        }
    }
    Ok(texts)
}

/// Runs over standard input and standard output, and ends with the status of the run.
fn main(rt: HostRuntime) -> ExitCode {
    let Ok(args) = args_of(&rt) else {
        return ExitCode::from(NO_MEMORY);
    };
    let mut source = StdSource::new(rt.reader());
    let mut sink = StdSink::new(io::writer(&rt));
    let status = run(rt.alloc(), args.as_slice(), &mut source, &mut sink);
    ExitCode::from(status)
}
