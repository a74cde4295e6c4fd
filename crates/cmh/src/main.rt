//! cmh: which processes of a stalled message-passing program can never continue.
#![tactic(auto)]

mod input;
mod plan;
mod program;
mod status;
mod tell;
#[cfg(test)]
mod tests;

pub use cmh_command::{ListFault, MAX_NUMBERS, read_list};
use cmh_stream::{ReadOf, WriteOf};
use input::Input;
pub use program::serve;
use std::env::Env;
use std::process::ExitCode;
use std::{env, io};

/// The arguments of the command line, of which the first is the program's name.
fn args<R: Env + AllocGlobal>(rt: &R) -> io::Result<Vec<String>> {
    let args = env::args(rt)?.collect(rt.alloc())?;
    Ok(args)
}

fn main(rt: HostRuntime) -> ExitCode {
    let mut source = ReadOf::new(Input::new(rt.stdin(), rt.stderr()));
    let mut out = WriteOf::new(rt.stdout());
    let mut err = WriteOf::new(rt.stderr());
    let status = match args(&rt) {
        Ok(args) => serve(&rt, rt.alloc(), &args, &mut source, &mut out, &mut err),
        Err(error) => tell::refuse_args(&error, &mut err),
    };
    ExitCode::from(status)
}
