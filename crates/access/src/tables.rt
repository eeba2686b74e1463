// The tables of a routine's types, as a reading asks them.
ghost use Rattle.std.specs.Prelude.{◌≡◌, ◌+◌, ◌*◌, ◌≤◌, ◌<◌, length};
ghost use Rattle.model.specs.Table.{head_of};
ghost use Rattle.access.specs.Sizes.{Sizes};

use model::limit;

// The type table and the tags that a reading asks. The type table is of whole rows, and no record type has more than eight fields.
#[derive(Clone, Copy)]
pub struct Tables<'a> {
    pub types: &'a [u32],
    pub tags: &'a [u32],
    ghost sized: { Sizes types.now },
}

impl Tables<'_> {
    // The size of a record type, 0 past the table.
    pub fn size(&self, t: u32) -> u32
        ensures { (result ≡ head_of self.now.types.now t) × (result ≤ 8) × (0 < result → t * 9 + 9 ≤ length self.now.types.now) }
    {
        match self.types.get(t as usize * limit::ROW_WORDS) {
            Some(size) => *size,
            None => 0,
        }
    }
}
