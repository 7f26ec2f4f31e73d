//! What the programs do with words that are refused, by the same call. The stored run of the gate has such words: the status is 2, and
//! nothing comes on standard output.
#![tactic(auto)]

use gs_shell_command::configured;
use std::process::ExitCode;

fn main(rt: HostRuntime) -> ExitCode {
    match configured(&rt, "chunkstore") {
        Ok(_) => ExitCode::SUCCESS,
        Err(status) => status,
    }
}
