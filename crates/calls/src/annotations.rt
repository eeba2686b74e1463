// The annotations of a routine: the words of a check's answer name a row for each that is blank.
ghost use Rattle.std.specs.Prelude.{◌≡◌, length};
ghost use Rattle.model.specs.Blank.{blanks_of};

use model::limit;

// How many rows of a table are blank, also of one that the check refuses for its length.
pub fn blanks(blocks: &[u32]) -> usize
    ensures { result ≡ length (blanks_of blocks.now) }
{
    let mut found = 0;
    for b in 0..blocks.len() / limit::ROW_WORDS {
        if blank::is_blank(table::type_words(blocks, b)) {
            found += 1;
        }
    }
    found
}
