//! Makes public calls over small programs, each again where it was refused memory, and prints one line: made again, a call has to succeed.
//! These are the calls that hand back what they were given, or go on, and those from a text to the text of its module. What they answer, and
//! what they leave as it was, their contracts say. That the other calls are refused memory only where there is none, `x10clock` shows.
//! Run it with growths refused, one at a time: `tests/program/refused_growths.py` does.
#![tactic(auto)]

mod fixtures;
mod logs;
mod modules;
mod runs;
mod shared_run;
mod texts;

use modules::Wrong;
use std::alloc::Global;
use std::process::ExitCode;
use xk_bounds::Verified;

/// A module is run in each way, its main being given these numbers.
fn on_verified(alloc: Global, verified: &Verified, arguments: &[i64]) -> Result<(), Wrong> {
    runs::by_hand(alloc, verified, arguments)?;
    runs::by_turns(alloc, verified, arguments)?;
    shared_run::is_shared(alloc, verified, arguments)
}

fn on_module(alloc: Global, text: &str, arguments: &[i64]) -> Result<(), Wrong> {
    let verified = modules::accepted(alloc, text)?;
    on_verified(alloc, &verified, arguments)
}

fn on_modules(alloc: Global) -> Result<(), Wrong> {
    for text in fixtures::accepted() {
        on_module(alloc, text, &[])?;
    }
    for (text, arguments) in fixtures::given() {
        on_module(alloc, text, arguments)?;
    }
    for text in fixtures::refused() {
        modules::is_refused(alloc, text)?;
    }
    Ok(())
}

fn on_texts(alloc: Global) -> Result<(), Wrong> {
    for (text, has_module) in fixtures::texts() {
        texts::is_compiled(alloc, text, has_module)?;
    }
    Ok(())
}

fn on_logs(alloc: Global) -> Result<(), Wrong> {
    for (program, arguments, log, is_whole) in fixtures::logs() {
        logs::is_answered(alloc, program, arguments, log, is_whole)?;
    }
    Ok(())
}

fn every_call(alloc: Global) -> Result<(), Wrong> {
    on_texts(alloc)?;
    on_modules(alloc)?;
    on_logs(alloc)?;
    modules::on_tape(alloc)
}

fn main(rt: HostRuntime) -> ExitCode {
    match every_call(rt.alloc()) {
        Ok(()) => {
            let _ = rt.println("every call answered as it must");
            ExitCode::SUCCESS
        }
        Err(wrong) => {
            let _ = rt.println(wrong.0);
            ExitCode::FAILURE
        }
    }
}
