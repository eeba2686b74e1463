// What the reading of a block knows of its values: frames, dependencies, chains of Same, known constants, known equal, known tags.
// Everything here only reads.
//
// A value is a name below 256; a dependency is a name, or 256 + c for the constant c. A constant c is held as c + 1, and 0 is none: held as
// an Option, each would take twice the room, in arrays that the check walks most.
#![tactic(auto)]

ghost use Rattle.std.specs.Prelude.{◌≡◌, List, true, false, ℕ, ◌-◌, ◌≤◌, ◌<◌, get_or};
ghost use Rattle.model.specs.Table.{tables_of};
ghost use Rattle.model.specs.Values.{birthplace, lead, least_along, root, root_of, held_at, alike, constant_held, constants_of, some, known_equal};
ghost use Rattle.model.specs.Reading.{known_zero, first_tag};
ghost use Rattle.known.specs.Numbers.{frames_of, values_of, tables_in, dep_at, sibling_of, named_of};
ghost use Rattle.known.specs.Numbers.{constant_or, stand, Paired, Past, partner_of, serves_as_tag};

// Eight values are born together, so that a chain of Same among them ends, or comes to a circle, within so many steps.
const STEPS: u32 = 7;

// What a test tells goes as one number, of two in its two places. The constant tested is a byte, and as a dependency below this.
const PLACE: u64 = 512;

// What is known of the values of a reading: the type word of each; of each eight born together, the birthplace of the frame that they are
// read in, and the constant that opcode 1 made them of.
#[derive(Drop)]
pub struct Values {
    pub words: [u32; 256],
    pub frames: [u8; 32],
    pub constants: [u32; 32],
}

// ---- dependencies

// The dependency byte x in a frame.
pub fn sibling(frame: u32, x: u32) -> u32
    requires { (frame ≤ 248) × (x < 256) }
    ensures { dep_at result ≡ sibling_of frame x }
{
    if x < word::CONSTANTS {
        frame + x
    } else {
        x + 248
    }
}

// The dependency byte x where the names stand for other values.
pub fn named(names: &[u8; 8], x: u32) -> u32
    requires { x < 256 }
    ensures { dep_at result ≡ named_of names.now x }
{
    if x < word::CONSTANTS {
        u32::from(names[x as usize])
    } else {
        x + 248
    }
}

impl Values {
    // The first name of the frame that the value v is read in.
    pub fn frame(&self, v: u32) -> u32
        requires { v < 256 }
        ensures { (result ≡ get_or (frames_of self.now.frames) (birthplace v) 0) × (result ≤ 248) }
    {
        u32::from(self.frames[(v / 8) as usize]) % 32 * 8
    }

    // The dependency byte x of the type word of the value v.
    pub fn dependency(&self, v: u32, x: u32) -> u32
        requires { (v < 256) × (x < 256) }
        ensures { dep_at result ≡ sibling_of (get_or (frames_of self.now.frames) (birthplace v) 0) x }
    {
        sibling(self.frame(v), x)
    }

    // ---- chains of Same

    // The value that a Same of v leads to, one of the eight born with it; v itself where there is none.
    fn lead(&self, v: u32) -> u32
        requires { v < 256 }
        ensures { ((tested equal : ℕ) → result ≡ lead (values_of self.now tested equal) v) × (result < 256) }
    {
        let w = self.words[v as usize];
        if word::kind(w) != word::SAME {
            return v;
        }
        let d = word::first_dependency(w);
        if word::CONSTANTS <= d {
            return v;
        }
        let x = self.frame(v) + d;
        if x / 8 != v / 8 {
            return v;
        }
        x
    }

    // The least value on the circle of Same that u is on. Seven steps see all of it, as it has at most eight values.
    fn least_on_circle(&self, u: u32) -> u32
        requires { u < 256 }
        ensures { ((tested equal : ℕ) → result ≡ least_along (values_of self.now tested equal) 7 u u) × (result < 256) }
    {
        let mut least = u;
        let mut x = u;
        for _ in 0..STEPS {
            x = self.lead(x);
            least = least.min(x);
        }
        least
    }

    // The value at the root of all that chains of Same join with v. Nearly every chain ends, and most of them after a step or two.
    fn far_root(&self, v: u32) -> u32
        requires { v < 256 }
        ensures { ((tested equal : ℕ) → result ≡ root (values_of self.now tested equal) v) × (result < 256) }
    {
        let mut x = v;
        for _ in 0..STEPS {
            let w = self.lead(x);
            if w == x {
                return x;
            }
            x = w;
        }
        self.least_on_circle(x)
    }

    // Whether a chain starts at x: it is a value of type Same of a name.
    fn linked(&self, x: u32) -> bool
        ensures { (result ≡ true → x < 256)
            × (result ≡ false → (tested equal : ℕ) → dep_at x ≡ root_of (values_of self.now tested equal) (dep_at x)) }
    {
        if 256 <= x {
            return false;
        }
        let w = self.words[x as usize];
        word::kind(w) == word::SAME && word::first_dependency(w) < word::CONSTANTS
    }

    // ---- known constants

    // The constant that x has by itself, 0 for none: opcode 1's for a value of type Any, and that of Same for another. No chain starts at
    // what has one.
    fn own_constant(&self, x: u32) -> u32
        ensures { (tested equal : ℕ)
            → (result ≡ held_at (values_of self.now tested equal) (dep_at x))
            × (0 < result → dep_at x ≡ root_of (values_of self.now tested equal) (dep_at x)) }
    {
        if 256 <= x {
            return x - 255;
        }
        let w = self.words[x as usize];
        if w == 0 {
            return self.constants[(x / 8) as usize];
        }
        if word::kind(w) != word::SAME {
            return 0;
        }
        let d = word::first_dependency(w);
        if d < word::CONSTANTS {
            return 0;
        }
        d - 7
    }

    // What stands for a value, by the root of its chain. It has two callers, and so stays a function of its own when compiled, out of the
    // way of the many values that no chain starts at.
    fn far_stand(&self, v: u32) -> u64
        requires { v < 256 }
        ensures { ((tested equal : ℕ) → dep_at result ≡ stand (values_of self.now tested equal) (dep_at v)) × (result < 4294967551) }
    {
        let r = self.far_root(v);
        constant_or(self.own_constant(r), r)
    }

    // What stands for all that chains of Same join with x: their constant, or the value at their root where they have none. Two that
    // nothing was told of are known equal where one stands for both.
    fn stand(&self, x: u32) -> u64
        ensures { (tested equal : ℕ) → dep_at result ≡ stand (values_of self.now tested equal) (dep_at x) }
    {
        if self.linked(x) {
            return self.far_stand(x);
        }
        constant_or(self.own_constant(x), x)
    }

    // ---- what a test tells

    // A taken opcode 11 tests a value against the constant that equal holds, and so makes two known equal: what stands for the value, and
    // the constant. Both go as one number, 0 where nothing was tested: with two, each question would hand on an argument more.
    pub fn test(&self, tested: u8, equal: u32) -> u64
        requires { equal ≤ 256 }
        ensures { Paired (values_of self.now tested equal) result }
    {
        if equal == 0 {
            return 0;
        }
        self.far_stand(tested as u32) * PLACE + equal as u64 + 255
    }

    // ---- known equal

    // Whether a Same leads from x to y.
    fn leads_to(&self, x: u32, y: u32) -> bool
        ensures { result ≡ true → (tested equal : ℕ) → alike (values_of self.now tested equal) (dep_at x) (dep_at y) ≡ true }
    {
        x < 256 && self.lead(x) == y
    }

    // Whether x and y are known equal, asked where they are not one. A link from x to y comes first, since most questions about a link
    // name its two ends. It has two callers, and so stays a function of its own when compiled.
    fn joined(&self, test: u64, x: u32, y: u32) -> bool
        ensures { Past self.now test (λ vs. result ≡ known_equal vs (dep_at x) (dep_at y)) }
    {
        if self.leads_to(x, y) {
            return true;
        }
        let r = self.stand(x);
        let s = self.stand(y);
        r == s || partner(test, r) == s
    }

    // Whether x and y are known equal. Most are one value, and that is asked first.
    pub fn known_equal(&self, test: u64, x: u32, y: u32) -> bool
        ensures { Past self.now test (λ vs. result ≡ known_equal vs (dep_at x) (dep_at y)) }
    {
        x == y || self.joined(test, x, y)
    }

    // The same as known_equal, for the bounds of runs: it asks own constants before joined, since most bounds that are not one value have
    // them.
    #[inline(always)]
    pub fn known_bound(&self, test: u64, x: u32, y: u32) -> bool
        ensures { Past self.now test (λ vs. result ≡ known_equal vs (dep_at x) (dep_at y)) }
    {
        if x == y {
            return true;
        }
        let c = self.own_constant(x);
        if c != 0 && c == self.own_constant(y) {
            return true;
        }
        self.joined(test, x, y)
    }

    // ---- tags

    // Whether x has a known constant that is a tag of t; with beyond, one beyond the table serves too.
    pub fn known_tag(&self, tags: &[u32], test: u64, x: u32, t: u32, beyond: bool) -> bool
        ensures { (types : List ℕ)
            → Past self.now test (λ vs. result ≡ some (serves_as_tag beyond (tables_in types tags) t) (constants_of vs (dep_at x))) }
    {
        let r = self.stand(x);
        is_tag(tags, r, t, beyond) || is_tag(tags, partner(test, r), t, beyond)
    }

    // The record type that the known constant of x names, if it is a tag. This is asked inside a block, where nothing was tested.
    pub fn known_type(&self, tags: &[u32], x: u32) -> Option<u32>
        ensures { (types : List ℕ)
            → result ≡ first_tag (tables_in types tags) (constants_of (values_of self.now 0 0) (dep_at x)) }
    {
        let r = self.stand(x);
        if r < 256 {
            return None;
        }
        match tags.get((r - 256) as usize) {
            Some(t) => Some(*t),
            None => None,
        }
    }

    // ---- known 0

    // Whether the value v is known 0.
    pub fn known_zero(&self, test: u64, v: u8) -> bool
        ensures { (types tags : List ℕ) → Past self.now test (λ vs. result ≡ known_zero (tables_of types tags) vs v) }
    {
        let r = self.stand(v as u32);
        r == 256 || partner(test, r) == 256
    }
}

// ---- what numbers tell

// The constant that k holds, or x where it holds none. Whatever 32 bits k is, this has room for it.
fn constant_or(k: u32, x: u32) -> u64
    ensures { (result ≡ constant_or k x) × (result < 4294967551) }
{
    if k == 0 { x as u64 } else { k as u64 + 255 }
}

// What a test makes known equal to r: the one of its two for the other, and r itself for all else.
fn partner(test: u64, r: u64) -> u64
    ensures { result ≡ partner_of test r }
{
    let value = test / PLACE;
    let constant = test % PLACE;
    if r == value {
        constant
    } else if r == constant {
        value
    } else {
        r
    }
}

// Whether r is a constant that is a tag of t; with beyond, one beyond the table serves too.
fn is_tag(tags: &[u32], r: u64, t: u32, beyond: bool) -> bool
    ensures { (types : List ℕ) → result ≡ some (serves_as_tag beyond (tables_in types tags) t) (constant_held (r - 255)) }
{
    if r < 256 {
        return false;
    }
    match tags.get((r - 256) as usize) {
        Some(own) => *own == t,
        None => beyond,
    }
}
