// The arguments: options, and names of inputs.
ghost use Rattle.std.specs.Prelude.{◌≡◌, ◌≤◌, length, IfSome};
ghost use Rattle.terminal.specs.Options.{is_name, optioned};

use crate::help;
use std::env::{Env, FillError};

// What is wished for.
#[derive(Clone, Copy, Default, PartialEq, Eq)]
pub enum Wish {
    // answers
    #[default]
    Serve,
    Help,
    Version,
    // nothing, for an argument that is no option of the program; it was named on standard error
    Nothing,
}

#[derive(Clone, Copy, Default)]
pub struct Asked {
    pub wish: Wish,
    pub worded: bool,
    pub lined: bool,
    // whether inputs are named; else there is standard input alone
    pub named: bool,
    // after --, every argument is a name
    pub literal: bool,
}

// Room for an argument: the longest path and one byte more, so that a longer one is refused as a path.
pub const LONGEST: usize = 4097;

// Whether an argument is the name of an input; - alone is one, for standard input.
pub fn is_name(argument: &[u8], literal: bool) -> bool
    ensures { result ≡ is_name argument.now literal }
{
    literal || !matches!(argument, [b'-', _, ..])
}

// What is asked once an option is read.
#[tactic(auto, unfolding(crate::specs::Options::optioned))]
fn option(err: &impl Print, asked: Asked, argument: &[u8]) -> Asked
    ensures { result ≡ optioned asked argument.now }
{
    let is = |text: &[u8]| argument == text;
    if is(b"--words") {
        Asked {
            worded: true,
            ..asked
        }
    } else if is(b"--lines") {
        Asked {
            lined: true,
            ..asked
        }
    } else if is(b"--") {
        Asked {
            literal: true,
            ..asked
        }
    } else if is(b"-h") || is(b"--help") {
        Asked {
            wish: Wish::Help,
            ..asked
        }
    } else if is(b"--version") {
        Asked {
            wish: Wish::Version,
            ..asked
        }
    } else {
        help::unknown(err, argument);
        Asked {
            wish: Wish::Nothing,
            ..asked
        }
    }
}

// The argument of a number, put into the buffer; none past the last. Of one that is longer than the buffer the first bytes are taken.
// This is no iterator, since each argument is lent from the same buffer.
pub fn taken<'a>(rt: &impl Env, i: usize, room: &'a mut [u8; LONGEST]) -> Option<&'a [u8]>
    ensures { IfSome result (λ text. length text.now ≤ LONGEST) }
{
    match rt.arg(i, room) {
        Ok(n) => Some(&room[..n]),
        Err(FillError::TooLong) => Some(room),
        Err(FillError::NotPresent) => None,
    }
}

// What is asked once an argument is read, the name of an input or an option.
fn argument(err: &impl Print, asked: Asked, text: &[u8]) -> Asked {
    if is_name(text, asked.literal) {
        Asked {
            named: true,
            ..asked
        }
    } else {
        option(err, asked, text)
    }
}

// What the arguments ask for; the first that wishes for another thing than answers decides.
pub fn wished(rt: &impl Env, err: &impl Print) -> Asked {
    let mut asked = Asked::default();
    let mut room = [0; LONGEST];
    for i in 1..usize::MAX {
        let Some(text) = taken(rt, i, &mut room) else {
            break;
        };
        asked = argument(err, asked, text);
        if asked.wish != Wish::Serve {
            break;
        }
    }
    asked
}
