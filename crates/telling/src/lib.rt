// What is said of a row of the table of numbers. A row is its columns in order, with bars between them: name, meaning, usual cause, remedy, place.
#![tactic(auto)]

ghost use Rattle.std.specs.Prelude.{◌≡◌, ◌++◌, ◌+◌, ◌≤◌, length};
ghost use Rattle.output.specs.Room.{buffer};
ghost use Rattle.telling.specs.Row.{column_of, letter_text, has_place, place_text, answer_text, Fine};
ghost use Rattle.telling.specs.Told.{Told};

use model::number;
use output::Buffer;

// The columns, in the order in which they stand in a row: the number of each is its place.
#[derive(Clone, Copy, PartialEq, Eq)]
pub enum Column {
    Name,
    Meaning,
    Cause,
    Remedy,
    Place,
}

// The numbers of the place that was answered: a row's last column calls them A and B.
#[derive(Clone, Copy)]
pub struct Place {
    pub first: u64,
    pub second: u64,
}

// A column of a row, which is cut at its bars; nothing of a column that there is not.
fn cut(column: u32, row: &[u8]) -> &[u8]
    ensures part { result.now ≡ column_of column row.now }
    ensures upper_bound { length result.now ≤ length row.now }
{
    row.split(|byte| *byte == b'|')
        .nth(column as usize)
        .unwrap_or(&[])
}

// A column as it stands in the row, by its number; nothing of a column that there is not.
pub fn said_column(out: &mut Buffer, column: u32, row: &[u8])
    requires { Fine row.now × (length out.old + 16384 ≤ buffer) }
    ensures text { out.new ≡ out.old ++ column_of column row.now }
    ensures told { Told (column_of column) out.old out.new }
{
    out.text(cut(column, row));
}

// ---- an answer in words

fn letter(out: &mut Buffer, place: Place, byte: u8)
    requires { length out.old + 20 ≤ buffer }
    ensures { out.new ≡ out.old ++ letter_text place byte }
{
    match byte {
        b'A' => out.number(place.first),
        b'B' => out.number(place.second),
        _ => out.put(byte),
    }
}

// Whether a row's answer has a place: a check that passed has none, and the questions of a start block and of a memory's length none but 0, 0.
fn has_place(row: u32) -> bool
    ensures { result ≡ has_place row }
{
    !matches!(
        row,
        number::PASSED | number::START_BLOCK | number::MEMORY_LENGTH
    )
}

// The place that was answered.
fn said_place(out: &mut Buffer, number: u32, place: Place, row: &[u8])
    requires { Fine row.now × (length out.old + 14025 ≤ buffer) }
    ensures { out.new ≡ out.old ++ place_text number place.first place.second row.now }
{
    if has_place(number) {
        out.text(b"; at ");
        for byte in cut(Column::Place as u32, row) {
            letter(out, place, *byte);
        }
    }
}

// Name, meaning and place.
pub fn answer(out: &mut Buffer, number: u32, at: Place, row: &[u8])
    requires { Fine row.now × (length out.old + 16384 ≤ buffer) }
    ensures text { out.new ≡ out.old ++ answer_text number at.first at.second row.now }
    ensures told { Told (answer_text number at.first at.second) out.old out.new }
{
    out.text(b"  # ");
    out.text(cut(Column::Name as u32, row));
    out.text(b": ");
    out.text(cut(Column::Meaning as u32, row));
    said_place(out, number, at, row);
}
