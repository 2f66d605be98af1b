//! The display server's program.
#![tactic(auto)]

use std::process::ExitCode;

fn main(rt: HostRuntime) -> ExitCode {
    drm_server::program(&rt)
}
