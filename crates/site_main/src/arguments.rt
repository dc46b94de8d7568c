//! What the command-line arguments ask for.
use crate::lines::Limits;
use site_args::{ArgsAnswer, Flags, Task, read_args};
use site_program::StoreFault;
use site_tasks::failed;
use std::process::ExitCode;
use std::{env, io};

/// What the command-line arguments ask for.
#[derive(Drop)]
pub struct Asked {
    pub(crate) limits: Limits,
    pub(crate) flags: Flags,
    pub(crate) token_file: Option<String>,
    pub(crate) task: Task,
}

impl Asked {
    /// Returns whether the plugin `snippets` is asked for, beside those of the bundle.
    pub fn with_snippets(&self) -> bool {
        self.flags.snippets
    }
}

/// Reads the command-line arguments. If they ask for help or are bad, or memory for them runs out,
/// says so and returns the program's exit status: 0, 2 or 1.
pub fn read_command_line(rt: &HostRuntime) -> Result<Asked, ExitCode> {
    let words = match words(rt) {
        Ok(words) => words,
        Err(error) if error.kind() == io::ErrorKind::InvalidData => {
            let _ = eprintln!(rt; "error: a command-line argument is not UTF-8");
            return Err(ExitCode::from(2));
        }
        Err(_) => return Err(failed(rt, StoreFault::OutOfMemory)),
    };
    match read_args(rt.alloc(), &words) {
        ArgsAnswer::Run {
            calls,
            cache,
            flags,
            token_file,
            task,
        } => Ok(Asked {
            limits: Limits { calls, cache },
            flags,
            token_file,
            task,
        }),
        ArgsAnswer::Help(text) => {
            let _ = print!(rt; "{text}");
            Err(ExitCode::SUCCESS)
        }
        ArgsAnswer::Bad(text) => {
            let _ = eprint!(rt; "{text}");
            Err(ExitCode::from(2))
        }
        ArgsAnswer::OutOfMemory => Err(failed(rt, StoreFault::OutOfMemory)),
    }
}

/// Returns the command-line arguments.
fn words(rt: &HostRuntime) -> io::Result<Vec<String>> {
    let mut words = Vec::new(rt.alloc());
    for word in env::args(rt)?.skip(1) {
        words.push(word)?;
    }
    Ok(words)
}
