// Answers in words: for each number its name, its meaning, the usual cause, how to mend it and what its place counts. The program's
// words and docs/REFUSALS.md are both made from here.
#![tactic(auto)]

mod rows;

ghost use Rattle.std.specs.Prelude.{◌+◌, ◌≤◌, length};
ghost use Rattle.output.specs.Room.{buffer};
ghost use Rattle.telling.specs.Row.{column_of, answer_text};
ghost use Rattle.telling.specs.Told.{Told};

use output::Buffer;
use telling::Place;

// ---- the rows beside those of the questions, which have their numbers

// A run's 0; a check's is row 0.
pub const HALTED: u32 = 100;
// A line that is no request.
pub const MALFORMED: u32 = 101;

// A column of a row; nothing for a number that is no answer, and nothing of a column that there is not.
pub fn column(out: &mut Buffer, row: u32, column: u32)
    requires { length out.old + 16384 ≤ buffer }
    ensures { Told (column_of column) out.old out.new }
{
    telling::said_column(out, column, rows::row(row));
}

// An answer in words, after it on its line: name, meaning and place.
pub fn explain(out: &mut Buffer, row: u32, at: Place)
    requires { length out.old + 16384 ≤ buffer }
    ensures { Told (answer_text row at.first at.second) out.old out.new }
{
    telling::answer(out, row, at, rows::row(row));
}
