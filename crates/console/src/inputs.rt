// The inputs, one after the other. What was read is answered by the service, and what it answered is written before the next read, which may
// have to wait.
ghost use Rattle.std.specs.Prelude.{◌≡◌, [], ◌↔◌, IfOk, IsOk, Ok};
ghost use Rattle.service.specs.Filling.{Ready};

use answers::{Room, Style};
use output::Buffer;
use service::Place;
use std::env::Env;
use std::fs::File;
use std::io::{ErrorKind, Read};
use std::rt::Files;
use std::{io, str};
use terminal::{arguments, failures, streams};

// ---- how an input ended

// How far an input has come.
#[derive(Clone, Copy, PartialEq, Eq)]
enum End {
    // there may be more to read
    GoingOn,
    Read,
}

// Why an input was not read to its end, or its answers not written.
#[derive(Clone, Copy)]
enum Failure {
    Reading(io::Error),
    Writing(io::Error),
}

// An input was not read to its end, and standard error was told why where a read or a write failed.
#[derive(Clone, Copy)]
pub struct Reported;

// ---- one input

// What is at hand while inputs are answered: the system and standard error, how answers are written, how far the input was read, and the
// room that the service works in. That is over 3 MB, so it is lent from one function to the next.
#[derive(Drop)]
struct Serving<'a, R, E> {
    rt: &'a R,
    err: &'a E,
    style: Style,
    place: Place,
    room: Room,
    ghost ready: { Ready place room.out },
}

// What the buffer holds is written, and there is no more of it.
fn written(to: &impl Print, out: &mut Buffer) -> Result<(), Failure>
    ensures { out.new ≡ [] }
{
    let written = streams::write(to, out.held());
    out.clear();
    written.map_err(Failure::Writing)
}

impl<R: Files + Input + Print, E: Print> Serving<'_, R, E> {
    // The bytes of one read.
    fn answered(&mut self, bytes: &[u8]) -> Result<(), Failure> {
        let mut at = 0;
        // Each turn moves by the lines that fit into the buffer.
        while at < bytes.len() {
            let filled = service::fill(bytes, at, self.place, self.style, &mut self.room);
            at = filled.at;
            self.place = filled.place;
            written(self.rt, &mut self.room.out)?;
        }
        Ok(())
    }

    // What the input still had to be answered at its end.
    fn finished(&mut self) -> Result<(), Failure> {
        self.place = service::finish(self.place, self.style, &mut self.room);
        written(self.rt, &mut self.room.out)
    }

    // One read, and what it brought.
    fn one_read(&mut self, from: &mut impl Read) -> Result<End, Failure> {
        let mut buffer = [0; 65536];
        let count = streams::read(from, &mut buffer).map_err(Failure::Reading)?;
        if count == 0 {
            self.finished()?;
            return Ok(End::Read);
        }
        self.answered(&buffer[..count])?;
        Ok(End::GoingOn)
    }

    // An input to its end. A proved loop has to end, so this one counts its turns up to a number that no input reaches.
    fn input(&mut self, from: &mut impl Read) -> Result<End, Failure> {
        self.place = service::start(self.place.refused);
        for _ in 0..u64::MAX {
            if self.one_read(from)? == End::Read {
                return Ok(End::Read);
            }
        }
        Ok(End::GoingOn)
    }

    // Whether some answer was other than 0 and 40. What failed is said with the line that was read last.
    fn reported(&self, name: &[u8], ended: Result<End, Failure>) -> Result<bool, Reported>
        ensures whole { IsOk result ↔ (ended ≡ Ok End.Read) }
        ensures refused { IfOk result (λ refused. refused ≡ self.now.place.refused) }
    {
        let line = self.place.count;
        match ended {
            Ok(End::Read) => return Ok(self.place.refused),
            Ok(End::GoingOn) => {}
            Err(Failure::Reading(why)) => failures::at_line(self.err, name, line, b"", why),
            Err(Failure::Writing(why)) => {
                failures::at_line(self.err, name, line, b": standard output", why)
            }
        }
        Err(Reported)
    }

    // Standard input, which is left open.
    fn standard(&mut self) -> Result<bool, Reported> {
        let mut from = self.rt.reader();
        let ended = self.input(&mut from);
        self.reported(b"standard input", ended)
    }

    // A file by its name, closed before its failure is said.
    fn file(&mut self, name: &[u8]) -> Result<bool, Reported> {
        match opened(self.rt, name) {
            Ok(mut from) => {
                let ended = self.input(&mut from);
                drop(from);
                self.reported(name, ended)
            }
            Err(why) => {
                failures::of(self.err, name, why);
                Err(Reported)
            }
        }
    }

    // An input by its name; - is standard input.
    fn named(&mut self, name: &[u8]) -> Result<bool, Reported> {
        match name {
            b"-" => self.standard(),
            _ => self.file(name),
        }
    }
}

// The file of a name. The system's names are bytes, those of the library are text.
fn opened<R: Files>(rt: &R, name: &[u8]) -> io::Result<R::File> {
    let path = str::from_utf8(name).map_err(|_| io::Error::from(ErrorKind::InvalidFilename))?;
    File::open(rt, path)
}

// ---- all inputs

impl<R: Env + Files + Input + Print, E: Print> Serving<'_, R, E> {
    // The inputs that arguments name, in their order, up to the first that fails. After --, every argument is a name.
    fn all_named(&mut self) -> Result<bool, Reported> {
        let mut refused = false;
        let mut literal = false;
        let mut room = [0; arguments::LONGEST];
        for i in 1..usize::MAX {
            let Some(text) = arguments::taken(self.rt, i, &mut room) else {
                break;
            };
            if arguments::is_name(text, literal) {
                refused = self.named(text)?;
            } else {
                literal = matches!(text, b"--");
            }
        }
        Ok(refused)
    }
}

// Answers all inputs: those that are named, or standard input where none is. Whether some answer was other than 0 and 40, where nothing failed.
pub fn all<R: Env + Files + Input + Print>(
    rt: &R,
    err: &impl Print,
    style: Style,
    any_named: bool,
) -> Result<bool, Reported> {
    let mut serving = Serving {
        rt,
        err,
        style,
        place: service::start(false),
        room: Room::new(),
    };
    if any_named {
        serving.all_named()
    } else {
        serving.standard()
    }
}
