// The reading of a block, and its loads and stores: Q10 to Q12, and Q23.
//
// A block's reading is one struct, lent to what reads its instructions. Every contract says that the struct at exit holds the
// definition's reading after it, made of that which it held at entry.
#![tactic(auto)]

ghost use Rattle.std.specs.Prelude.{◌≡◌, List, ℕ, ◌+◌, ◌*◌, ◌%◌, ◌≤◌, ◌<◌, length, set, eqb, ltb, not};
ghost use Rattle.model.specs.Question.{◌or◌};
ghost use Rattle.model.specs.Table.{tables_of, head_of};
ghost use Rattle.model.specs.Machine.{to_store};
ghost use Rattle.model.specs.Reading.{laid_at, up_from, look, fresh, row_fits};
ghost use Rattle.model.specs.Check.{permits, read_plain};
ghost use Rattle.model.specs.Cost.{plain_asked};
ghost use Rattle.instruction.specs.Form.{plain_of, Inside};
ghost use Rattle.known.specs.Numbers.{frame_of, tables_in, values_of};
ghost use Rattle.access.specs.State.{reading, tables_by, Reads, load_ask, store_ask, store_asked, touched, touch_asked};

use fits::Facts;
use known::Values;
use model::Question;

mod tables;

pub use tables::Tables;

// No record is open. A base is a number as the definition has it, 256 for none: with an Option each question would turn it into that first.
pub const NO_BASE: u32 = 256;

// The reading of a block: the value in each register, what is known of the values, the birthplace of the fields seen through each value,
// that of the last close, the base of the open record, and the fields of the record at hand. Beside these, how many fit questions the block
// has put: at most 8 for each instruction before its last, so 256 at most.
#[derive(Drop)]
pub struct Reading {
    pub registers: [u8; 8],
    pub values: Values,
    pub views: [u8; 256],
    pub since: u32,
    pub base: u32,
    pub fields: [u8; 8],
    pub asked: u32,
}

// ---- names and type words

// A row of type words, copied to the names from first on.
pub fn copy_row(words: &mut [u32; 256], row: &[u32], first: usize)
    requires { first + length row.now ≤ 256 }
    ensures { words.new ≡ laid_at words.old first row.now }
{
    words[first..first + row.len()].copy_from_slice(row);
}

// The names of eight fields, from first on, written one by one where they are wanted. Handed back, the eight bytes would be packed into one
// word and taken apart again at every load; made as one array, they would all be held in registers at once, and the loop's own pushed out.
fn name_all(fields: &mut [u8; 8], first: u32)
    requires { first ≤ 248 }
    ensures { fields.new ≡ up_from first 8 }
{
    let f = first as u8;
    *fields = [f; 8];
    fields[1] = f + 1;
    fields[2] = f + 2;
    fields[3] = f + 3;
    fields[4] = f + 4;
    fields[5] = f + 5;
    fields[6] = f + 6;
    fields[7] = f + 7;
}

// ---- loads and stores

// A load to register a, or a store from it, at offset c of the record of type t behind the value v, at birthplace g.
#[derive(Clone, Copy)]
struct Transfer {
    loads: bool,
    a: usize,
    v: u8,
    t: u32,
    c: u32,
    g: usize,
}

// Q23: field c of a record of type t is not locked.
fn may_store(types: &[u32], t: u32, c: u32) -> bool
    requires { (t * 9 + 9 ≤ length types.now) × (c < 8) }
    ensures { (tags : List ℕ) → result ≡ permits (tables_of types.now tags) to_store t c }
{
    !word::locked(table::type_word(types, t as usize, c as usize))
}

// Q12: no record is open, or v opened it.
fn may_touch(base: u32, v: u8) -> bool
    ensures { result ≡ (not (ltb base 256) or eqb base v) }
{
    NO_BASE <= base || base == v as u32
}

impl Reading {
    // Register a holds a new value, born at g, of type word w.
    pub fn fresh(&mut self, a: usize, g: usize, w: u32, frame: u8, constant: u32)
        requires { (a < 8) × (g < 32) }
        ensures { (reading self.new ≡ fresh (reading self.old) g a w (frame_of frame) constant) × (self.new.asked ≡ self.old.asked)
            × (self.new.values.frames ≡ set self.old.values.frames g frame) × (self.new.views ≡ self.old.views) }
    {
        self.registers[a] = (8 * g) as u8;
        self.values.words[8 * g] = w;
        self.values.frames[g] = frame;
        self.values.constants[g] = constant;
    }

    // The fields of the record are at hand: those of the open record, those seen since the last close, or new ones.
    fn look(&mut self, types: &[u32], x: Transfer)
        requires { (x.g < 32) × (x.t * 9 + 9 ≤ length types.now) }
        ensures { ((tags : List ℕ) → reading self.new ≡ look (tables_of types.now tags) (reading self.old) x.g x.v x.t)
            × (self.new.registers ≡ self.old.registers) × (self.new.base ≡ self.old.base) × (self.new.asked ≡ self.old.asked) }
    {
        if self.base < NO_BASE {
            return;
        }
        let v = x.v as usize;
        let seen = u32::from(self.views[v]) % 32;
        if self.since < seen {
            name_all(&mut self.fields, 8 * seen);
            return;
        }
        let own = table::row(types, x.t as usize);
        let g = x.g;
        copy_row(&mut self.values.words, &own[1..], 8 * g);
        self.values.frames[g] = g as u8;
        self.values.constants[g] = 0;
        self.views[v] = g as u8;
        name_all(&mut self.fields, 8 * (g as u32));
    }

    // Q12 of a load, and the register holds the field of the record whose fields are at hand.
    fn load(&mut self, x: Transfer) -> Result<(), Question>
        requires { (x.a < 8) × (x.c < 8) }
        ensures { (types tags : List ℕ)
            → Reads self.old self.new result (λ place. load_ask (tables_of types tags) place x.a x.v x.c) (λ st. 0) }
    {
        if may_touch(self.base, x.v) {
            self.registers[x.a] = self.fields[x.c as usize];
            return Ok(());
        }
        Err(Question::OtherRecord)
    }

    // Field c of the record at hand is the value x: whether each of its n fields fits its type word of the row.
    fn put(&mut self, tags: &[u32], n: u32, c: u32, x: u8, row: &[u32]) -> bool
        requires { (c < n) × (n ≤ 8) × (n ≤ length row.now) }
        ensures { (self.new ≡ record self.old { fields = set self.old.fields c x })
            × ((types : List ℕ)
            → result ≡ row_fits (tables_in types tags) (values_of self.old.values 0 0) n row.now (set self.old.fields c x)) }
    {
        self.fields[c as usize] = x;
        let facts = Facts {
            values: &self.values,
            tags,
            test: 0,
        };
        facts.row_fits(n as usize, row, &self.fields)
    }

    // Q23 and Q12 of a store, and the field of the record, of size n, is the value. It closes if each field fits its type: n fit
    // questions, of which none is left out where an earlier one fails.
    fn store(&mut self, tables: &Tables, x: Transfer, n: u32, value: u8) -> Result<(), Question>
        requires { (n ≡ head_of tables.now.types.now x.t) × (n ≤ 8) × (x.c < n) × (x.t * 9 + 9 ≤ length tables.now.types.now) × (x.g < 32)
            × (self.old.asked ≤ 256) }
        ensures { Reads self.old self.new result
            (λ place. store_ask (tables_by tables.now) place x.g x.v x.t x.c value) (store_asked (tables_by tables.now) x.v x.t x.c) }
    {
        if !may_store(tables.types, x.t, x.c) {
            return Err(Question::LockedField);
        }
        if !may_touch(self.base, x.v) {
            return Err(Question::OtherRecord);
        }
        let own = table::row(tables.types, x.t as usize);
        let born = x.g as u32;
        self.asked += n;
        if self.put(tables.tags, n, x.c, value, &own[1..]) {
            self.since = born;
            self.base = NO_BASE;
            return Ok(());
        }
        self.base = x.v as u32;
        Ok(())
    }

    // A load or a store: Q11, Q23 and Q12. The size past the table is 0, so that Q11 has a no there. A look leaves an open record's fields
    // at hand, so that it can come before Q23 and Q12.
    fn touch(&mut self, tables: &Tables, x: Transfer) -> Result<(), Question>
        requires { (x.g < 32) × (x.a < 8) × (self.old.asked ≤ 256) }
        ensures { Reads self.old self.new result
            (λ place. touched (tables_by tables.now) place x.g x.loads x.a x.v x.t x.c)
            (touch_asked (tables_by tables.now) x.loads x.v x.t x.c) }
    {
        let n = tables.size(x.t);
        if n <= x.c {
            return Err(Question::Offset);
        }
        self.look(tables.types, x);
        if x.loads {
            return self.load(x);
        }
        let value = self.registers[x.a];
        self.store(tables, x, n, value)
    }

    // A load or a store, of the word at birthplace g: Q10, Q11, Q23 and Q12.
    pub fn access(&mut self, tables: &Tables, word: u32, g: usize) -> Result<(), Question>
        requires { Inside 8 word × (g < 32) × (self.old.asked ≤ 256) }
        ensures { Reads self.old self.new result
            (λ place. read_plain (tables_by tables.now) place g (plain_of word)) (plain_asked (tables_by tables.now) (plain_of word)) }
    {
        let a = word::a(word);
        let b = word::b(word);
        let c = word::c(word);
        let v = self.registers[b];
        let Some(t) = fits::reference(&self.values, tables.tags, v) else {
            return Err(Question::Reference);
        };
        let x = Transfer {
            loads: word::opcode(word) == instruction::LOAD,
            a,
            v,
            t,
            c,
            g,
        };
        self.touch(tables, x)
    }
}
