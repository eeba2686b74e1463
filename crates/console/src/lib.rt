// The program: what its arguments ask for, the inputs that they name one after the other, and how it ended.
#![tactic(auto)]

mod inputs;

ghost use Rattle.std.specs.Prelude.{◌≡◌, false, is_err};
ghost use Rattle.std.specs.Result.{result_unwrap_or};
ghost use Rattle.console.specs.Status.{status_of, number_of};
ghost use Rattle.std.specs.Process.{exit_status};

use answers::Style;
use inputs::Reported;
use std::env::Env;
use std::io;
use std::process::ExitCode;
use std::rt::Files;
use terminal::arguments::{Asked, Wish};
use terminal::{arguments, failures, help};

// How the program ended; the number is its exit status.
#[derive(Clone, Copy, PartialEq, Eq)]
pub enum Status {
    // every answer was 0 or 40
    AllWell = 0,
    // some request was refused, or some line was malformed
    Refused = 1,
    // the arguments are not those of the program
    Usage = 2,
    // input or output failed
    Failed = 3,
}

impl From<Status> for ExitCode {
    ghost from_gives = { λ status code. exit_status code ≡ number_of status };

    fn from(status: Status) -> ExitCode {
        ExitCode::from(status as u8)
    }
}

// How the inputs ended, as a status.
fn after_inputs(ended: Result<bool, Reported>) -> Status
    ensures { result ≡ status_of (is_err ended) (result_unwrap_or ended false) }
{
    match ended {
        Ok(false) => Status::AllWell,
        Ok(true) => Status::Refused,
        Err(Reported) => Status::Failed,
    }
}

fn serve<R: Env + Files + Input + Print>(rt: &R, err: &impl Print, asked: Asked) -> Status {
    let style = Style {
        worded: asked.worded,
        lined: asked.lined,
    };
    after_inputs(inputs::all(rt, err, style, asked.named))
}

// Whether a text of the program's own was written, as a status.
fn said(err: &impl Print, written: io::Result<()>) -> Status
    ensures { result ≡ status_of (is_err written) false }
{
    match written {
        Ok(()) => Status::AllWell,
        Err(why) => {
            failures::of(err, b"standard output", why);
            Status::Failed
        }
    }
}

// The program, and how it ended. Standard error takes bytes, as the names of inputs are.
pub fn ramdulsi_program<R: Env + Files + Input + Print>(rt: &R, err: &impl Print) -> Status {
    let asked = arguments::wished(rt, err);
    match asked.wish {
        Wish::Serve => serve(rt, err, asked),
        Wish::Help => said(err, help::help(rt)),
        Wish::Version => said(err, help::version(rt)),
        Wish::Nothing => Status::Usage,
    }
}
