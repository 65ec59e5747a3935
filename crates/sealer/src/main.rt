// The command `sealer`: what it can do, with examples, is in help.rt.
#![tactic(auto)]

mod demo;
mod digest;
mod failure;
mod help;

use failure::Failure;
use std::env;
use std::process::ExitCode;

fn main(rt: HostRuntime) -> ExitCode {
    match run(&rt) {
        Ok(()) => ExitCode::SUCCESS,
        // Each file has been named already.
        Err(Failure::Unread) => ExitCode::FAILURE,
        Err(failure) => {
            let _ = eprintln!(rt; "sealer: {failure}");
            ExitCode::FAILURE
        }
    }
}

fn run(rt: &HostRuntime) -> Result<(), Failure> {
    let mut words = env::args(rt)?;
    let _program = words.next();
    let Some(command) = words.next() else {
        return help::print(rt);
    };
    // An enum of the commands, read from the word, would only list them a second time.
    match command.as_str() {
        "help" | "--help" | "-h" => help::print(rt),
        "demo" => demo::run(rt),
        "digest" => digest::print(rt, words),
        "refusals" => help::print_refusals(rt),
        _ => Err(Failure::NoCommand(command)),
    }
}
