// What the program says of itself.
use crate::streams;
use std::io;

const VERSION: &[u8] = b"ramdulsi 0.7.0\n";

// What is asked, what is answered, and the options.
const HELP: &[u8] = b"usage: ramdulsi [--words] [--lines] [FILE ..]\n\
      \n\
      ramdulsi reads requests, one on a line, and answers each with one line. It reads the files that are\n\
      named, in their order, or standard input where none is named; - is standard input. What it has\n\
      answered it writes before it waits for more.\n\
      \n\
      Requests and answers:\n\
      \x20 check  TYPES TAGS BLOCKS CODE OFFERED                            NUMBER A B ASKED P0 P1 P2\n\
      \x20 memory TYPES TAGS ALLOCATIONS MEMORY                             NUMBER A B\n\
      \x20 entry  TYPES TAGS ALLOCATIONS MEMORY BLOCKS CODE BLOCK R0 .. R7  NUMBER A B\n\
      \x20 run    BLOCKS CODE MEMORY BLOCK R0 .. R7 BUDGET                  NUMBER A B FINISHED R0 .. R7 COUNT WORDS..\n\
      \n\
      A table is its word count and its words. A number is decimal, or 0x and hexadecimal digits; it is below\n\
      2^32, a BUDGET below 2^64. A line may have 135,168 words: those of its tables, BLOCK and R0 .. R7.\n\
      Spaces, tabs and carriage returns separate; empty lines and lines that begin with # are passed over.\n\
      \n\
      NUMBER is 0 for passed or halted, 40 for paused, else that of the first question with a no, and A B is\n\
      its place. ASKED is how many fit questions the check of a routine put, whether it accepts or refuses.\n\
      After a run: the blocks finished, the registers, the memory. A line of another form is answered by\n\
      malformed and the byte, counted from 0, at which reading stopped.\n\
      \n\
      OFFERED is a table of up to 8 rows of eight type words, 0 for none, that stand in for annotations left\n\
      blank: up to 3 rows of BLOCKS may have all eight type words 4294967295. The check takes the first choice\n\
      of offered rows that it accepts, and P0 P1 P2 are the rows, counted from 0, for the first, second and\n\
      third blank block, 0 where there is none. ASKED is then the count with these rows. Where no annotation is\n\
      blank, OFFERED is not looked at.\n\
      \n\
      Options:\n\
      \x20 --words      after each answer two blanks, # and the answer's name, meaning, place, count and choice in words\n\
      \x20 --lines      before each answer the number of its line, counted from 1 anew in each file\n\
      \x20 -h, --help   this text\n\
      \x20 --version    the version\n\
      \x20 --           every argument after it is a file's name\n\
      \n\
      Exit status: 0 every answer was 0 or 40; 1 some request was refused or some line malformed; 2 an unknown\n\
      option; 3 input or output failed, and standard error says what, where and why.\n\
      \n\
      An example, a block that halts at once, is accepted with 0 0 0 0 0 0 0:\n\
      \x20 echo 'check 9 1 0 0 0 0 0 0 0 0 0 9 1 0 0 0 0 0 0 0 0 1 0 0' | ramdulsi --words\n";

// An argument that is no option, named on standard error, and what may be given.
pub fn unknown(err: &impl Print, argument: &[u8]) {
    let _ = err.write_all(b"ramdulsi: unknown option ");
    let _ = err.write_all(argument);
    let _ = err.write_all(
        b"\nusage: ramdulsi [--words] [--lines] [FILE ..]; ramdulsi --help tells more\n",
    );
}

pub fn version(out: &impl Print) -> io::Result<()> {
    streams::write(out, VERSION)
}

pub fn help(out: &impl Print) -> io::Result<()> {
    streams::write(out, HELP)
}
