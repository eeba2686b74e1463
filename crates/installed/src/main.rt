// The program that is installed: how the inputs were answered is its exit status.
#![tactic(auto)]

use std::process::ExitCode;

fn main(rt: HostRuntime) -> ExitCode {
    ExitCode::from(console::ramdulsi_program(&rt, &rt.stderr()))
}
