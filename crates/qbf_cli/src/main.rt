//! `qbf`: decides quantified Boolean formulas, one of a file or those of a script.
#![tactic(auto)]

use ports::{HostDesk, HostSink};
use program::{report, run, words_of};
use std::process::ExitCode;
use std::rt::Env;
use std::{env, io};

fn main(rt: HostRuntime) -> ExitCode {
    let mut out = HostSink::new(rt.stdout());
    let mut err = HostSink::new(rt.stderr());
    let status = match words_of(rt.alloc(), given(&rt)) {
        Ok(words) => {
            let mut desk = HostDesk::new(rt);
            let mut stops = Vec::new(rt.alloc());
            run(
                rt.alloc(),
                &words,
                &mut desk,
                &mut out,
                &mut err,
                &mut stops,
            )
        }
        Err(ending) => report(&mut err, &ending),
    };
    ExitCode::from(status)
}

// The words of the command line as the system gives them, the program's name first.
fn given(rt: &(impl Env + AllocGlobal)) -> io::Result<Vec<String>> {
    let mut words = Vec::new(rt.alloc());
    for word in env::args(rt)? {
        if words.push(word).is_err() {
            return Err(io::Error::from(io::ErrorKind::OutOfMemory));
        }
    }
    Ok(words)
}
