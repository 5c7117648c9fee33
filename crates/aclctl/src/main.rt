//! Access control lists, from the command line.
#![tactic(auto)]

mod help;
mod help_of;
mod input;
mod lint;
mod named;
mod output;
mod program;

use acl_cli::{ErrorOutput, Failure, Misuse, OpenFiles, RunFault};
use output::{Faults, Output};
use std::cell::Cell;
use std::fs::File;
use std::io::Read;
use std::process::ExitCode;
use std::{env, io};

/// The files of the system.
#[derive(Clone, Copy)]
struct Disk<'a> {
    rt: &'a HostRuntime,
}

impl<'a> OpenFiles for Disk<'a> {
    ghost use Rattle.std.specs.Prelude.{None};

    type File = File;

    ghost bytes_of = { λ _ _. None };

    /// A folder can be opened but not read, so this reports it.
    fn open(&self, name: &str) -> io::Result<File> {
        let mut file = File::open(self.rt, name)?;
        file.read(&mut [])?;
        Ok(file)
    }
}

/// The words of the command line, without the program's name. Fails for a word that isn't UTF-8.
fn given_words<'n>(rt: &HostRuntime) -> Result<Vec<String>, Failure<'n>> {
    match env::args(rt) {
        Ok(words) => Ok(words.skip(1).collect(rt.alloc())?),
        Err(error) if error.kind() == io::ErrorKind::OutOfMemory => {
            Err(Failure::Lacks(RunFault::Memory))
        }
        Err(_) => Err(Failure::Misuse(Misuse::BadWords)),
    }
}

fn main(rt: HostRuntime) -> ExitCode {
    let is_left = Cell::new(false);
    let mut err = ErrorOutput::new(Faults {
        is_left: &is_left,
        out: rt.stderr(),
    });
    let status = match given_words(&rt) {
        Ok(given) => program::run(
            &rt,
            rt.alloc(),
            &Disk { rt: &rt },
            given,
            &mut rt.stdin(),
            &mut Output {
                is_left: &is_left,
                out: rt.stdout(),
            },
            &mut err,
        ),
        Err(failure) => {
            failure.report(&mut err);
            failure.status()
        }
    };
    ExitCode::from(status)
}

#[cfg(test)]
mod tests;
