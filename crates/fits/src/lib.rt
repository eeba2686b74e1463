// Whether a value fits a type, and which record a value is a reference to. Everything here only reads.
#![tactic(auto)]

ghost use Rattle.std.specs.Prelude.{◌≡◌, List, ℕ, ◌≤◌, ◌<◌, length, get_or};
ghost use Rattle.model.specs.Word.{kind_of, first_of};
ghost use Rattle.model.specs.Values.{typed, birthplace, known_equal};
ghost use Rattle.model.specs.Reading.{is_ref, is_maybe, fits, row_fits, reference_of};
ghost use Rattle.known.specs.Numbers.{values_of, tables_in, dep_at, frames_of, sibling_of, named_of};
ghost use Rattle.fits.specs.Fits.{meant, refers, refers_of, by_record, by_own_tag, tag_fits, place_fits, By};

use known::Values;

// What fits are judged by: the values, the tags of the type table, and what a taken opcode 11 tells, as the number that Values::test makes
// of it; 0 where nothing was tested.
#[derive(Clone, Copy)]
pub struct Facts<'a> {
    pub values: &'a Values,
    pub tags: &'a [u32],
    pub test: u64,
}

// ---- references

// What makes a value a reference: its record type, where it is Ref or In; its dependency, where it is Present.
#[derive(Clone, Copy)]
enum Referred {
    Record(u32),
    Tag(u32),
}

fn refers_by(values: &Values, v: u8) -> Option<Referred>
    ensures { (tested equal : ℕ) → refers_of result ≡ refers (typed (values_of values.now tested equal) v) }
{
    let w = values.words[v as usize];
    match word::kind(w) {
        word::REF | word::IN => Some(Referred::Record(word::record_type(w))),
        word::PRESENT => Some(Referred::Tag(values.dependency(
            v as u32,
            word::first_dependency(w),
        ))),
        _ => None,
    }
}

// The record type that the value v is a reference to. This is asked inside a block, where nothing was tested.
pub fn reference(values: &Values, tags: &[u32], v: u8) -> Option<u32>
    ensures { (types : List ℕ)
        → result ≡ reference_of (tables_in types tags) (values_of values.now 0 0) (typed (values_of values.now 0 0) v) }
{
    match refers_by(values, v)? {
        Referred::Record(t) => Some(t),
        Referred::Tag(x) => values.known_type(tags, x),
    }
}

// ---- fits

// Whether a value of this kind fits Tagged, or Present, where the tag wanted is one of its record type: Ref, In, and for Tagged Maybe. With an
// arm for Maybe, here and in `by_own_tag`, the compiler makes a jump through a table of both; with `||` it asks of Ref too whether it is Present.
#[tactic(auto, using(model::proofs::Tests::decided), unfolding(crate::specs::Fits::by_record))]
fn by_record(kind: u32, present: bool) -> bool
    ensures { result ≡ by_record present kind }
{
    match kind {
        word::REF | word::IN => true,
        _ if present => false,
        _ => kind == word::MAYBE,
    }
}

// Whether it does so where its own tag is known equal to the one wanted: Present, and for Tagged Tagged.
#[tactic(auto, using(model::proofs::Tests::decided), unfolding(crate::specs::Fits::by_own_tag))]
fn by_own_tag(kind: u32, present: bool) -> bool
    ensures { result ≡ by_own_tag present kind }
{
    match kind {
        word::PRESENT => true,
        _ if present => false,
        _ => kind == word::TAGGED,
    }
}

impl Facts<'_> {
    // Whether the value v is Ref t, In t, or Present whose dependency is a known tag of t.
    fn is_ref(&self, v: u8, t: u32) -> bool
        ensures { By self.now (λ 𝒯 vs. result ≡ is_ref 𝒯 vs t (typed vs v)) }
    {
        match refers_by(self.values, v) {
            Some(Referred::Record(u)) => u == t,
            Some(Referred::Tag(x)) => self.values.known_tag(self.tags, self.test, x, t, false),
            None => false,
        }
    }

    // Whether the value v is Maybe t, or Tagged with a tag of t or beyond the table.
    fn is_maybe(&self, v: u8, t: u32) -> bool
        ensures { By self.now (λ 𝒯 vs. result ≡ is_maybe 𝒯 vs t (typed vs v)) }
    {
        let w = self.values.words[v as usize];
        match word::kind(w) {
            word::MAYBE => word::record_type(w) == t,
            word::TAGGED => {
                let x = self.values.dependency(v as u32, word::first_dependency(w));
                self.values.known_tag(self.tags, self.test, x, t, true)
            }
            _ => false,
        }
    }

    // Whether the dependency byte own of the value v is known equal to the byte wanted, read with names for its names.
    #[inline(always)]
    fn bound(&self, v: u8, own: u32, wanted: u32, names: &[u8; 8]) -> bool
        requires { (own < 256) × (wanted < 256) }
        ensures { By self.now (λ 𝒯 vs. result ≡ known_equal vs (sibling_of (get_or vs.frames (birthplace v) 0) own) (named_of names.now wanted)) }
    {
        let d = self.values.dependency(v as u32, own);
        self.values
            .known_bound(self.test, d, known::named(names, wanted))
    }

    // Whether the value v fits the type word w, which is Run, From or In.
    fn is_span(&self, v: u8, w: u32, names: &[u8; 8]) -> bool
        requires { 6 ≤ kind_of w }
        ensures { By self.now (λ 𝒯 vs. result ≡ fits 𝒯 vs v (meant names.now w)) }
    {
        let own = self.values.words[v as usize];
        if word::kind(own) < word::kind(w) {
            return false;
        }
        if word::record_type(own) != word::record_type(w) {
            return false;
        }
        self.bound(
            v,
            word::first_dependency(own),
            word::first_dependency(w),
            names,
        ) && self.bound(
            v,
            word::second_dependency(own),
            word::second_dependency(w),
            names,
        )
    }

    // Whether the value v fits the type word w, which is Ref or Maybe.
    fn fits_pointer(&self, v: u8, w: u32, names: &[u8; 8]) -> bool
        requires { (1 ≤ kind_of w) × (kind_of w ≤ 2) }
        ensures { By self.now (λ 𝒯 vs. result ≡ fits 𝒯 vs v (meant names.now w)) }
    {
        let t = word::record_type(w);
        if self.is_ref(v, t) {
            return true;
        }
        word::kind(w) == word::MAYBE
            && (self.values.known_zero(self.test, v) || self.is_maybe(v, t))
    }

    // Whether the value v fits Tagged y, or Present y, by its own kind: known 0 is asked apart.
    fn tag_fits(&self, v: u8, y: u32, present: bool) -> bool
        ensures { By self.now (λ 𝒯 vs. result ≡ tag_fits 𝒯 vs present (dep_at y) (typed vs v)) }
    {
        let own = self.values.words[v as usize];
        let kind = word::kind(own);
        if by_record(kind, present) {
            let t = word::record_type(own);
            return self.values.known_tag(self.tags, self.test, y, t, false);
        }
        if !by_own_tag(kind, present) {
            return false;
        }
        let x = self
            .values
            .dependency(v as u32, word::first_dependency(own));
        self.values.known_equal(self.test, x, y)
    }

    // Whether the value v fits the type word w, which is Tagged or Present.
    fn fits_tagged(&self, v: u8, w: u32, names: &[u8; 8]) -> bool
        requires { (3 ≤ kind_of w) × (kind_of w ≤ 4) }
        ensures { By self.now (λ 𝒯 vs. result ≡ fits 𝒯 vs v (meant names.now w)) }
    {
        let y = known::named(names, word::first_dependency(w));
        let present = word::kind(w) == word::PRESENT;
        self.tag_fits(v, y, present) || (!present && self.values.known_zero(self.test, v))
    }

    // Whether the value v fits the type word w, read with names for its names. Any is by far the most common, and comes first.
    fn value_fits(&self, v: u8, w: u32, names: &[u8; 8]) -> bool
        ensures { By self.now (λ 𝒯 vs. result ≡ fits 𝒯 vs v (meant names.now w)) }
    {
        let kind = word::kind(w);
        if kind == word::ANY {
            return true;
        }
        match kind {
            word::REF | word::MAYBE => self.fits_pointer(v, w, names),
            word::TAGGED | word::PRESENT => self.fits_tagged(v, w, names),
            word::SAME => {
                let y = known::named(names, word::first_dependency(w));
                self.values.known_equal(self.test, v as u32, y)
            }
            _ => self.is_span(v, w, names),
        }
    }

    // Whether the name at place k fits its type word of the row.
    pub fn field_fits(&self, k: usize, row: &[u32], names: &[u8; 8]) -> bool
        requires { (k < 8) × (k < length row.now) }
        ensures { By self.now (λ 𝒯 vs. result ≡ place_fits 𝒯 vs row.now names.now k) }
    {
        self.value_fits(names[k], row[k], names)
    }

    // Whether each of the first n of names fits its type word of the row: a record that closes, an edge that meets.
    pub fn row_fits(&self, n: usize, row: &[u32], names: &[u8; 8]) -> bool
        requires { (n ≤ 8) × (n ≤ length row.now) }
        ensures { By self.now (λ 𝒯 vs. result ≡ row_fits 𝒯 vs n row.now names.now) }
    {
        for k in 0..n {
            if !self.field_fits(k, row, names) {
                return false;
            }
        }
        true
    }
}
