// The store of types in a lent page (document 01, "Types").
#![tactic(auto)]

ghost use Rattle.std.specs.Prelude.{◌≡◌, true, cond, not, List, [], ◌∷◌, ℕ, suc, ◌+◌, ◌-◌, ◌*◌, ◌≤◌, ◌<◌, length, get_or, set, replicate, option_copied, MatchOption, IfOk, Some, None};
ghost use Rattle.pages.specs.Quant.{any_to, all_to};
ghost use Rattle.pages.specs.Bytes.{within, count_bytes};
ghost use Rattle.pages.specs.Pad.{pad, padded};
ghost use Rattle.chains.specs.Last.{last_below, Links};
ghost use Rattle.chains.specs.Prints.{prints_max, print_of};
ghost use Rattle.names.specs.Table.{names_max};
ghost use Rattle.kinds.specs.Kinds.{fixed_max, children_max, is_named, fewest, most};
ghost use Rattle.types.specs.Store.{entries_max, head_bytes, child_bytes, children_at, size_at, offset, depth_in, larger, depth_at, is_below, children_below, parts_at, is_entry, equal_to, formed, Reached};
ghost use Rattle.types.specs.Types.{types_in, place_of, kind_of, arity, child_of, name_of, Held, Measured};
ghost use Rattle.types.specs.Making.{entry_of, entry_max, Ready, enter_answer, enter_page, taken_back};
ghost use Rattle.types.specs.Calls.{form_verdict, opened_answer, empty_verdict, empty_page, all_below, parts_used, make_answer, make_page, list_to, type_at, read_answer, const_entry, const_answer, const_page};
ghost use Rattle.types.specs.Survey.{whole_at, new_at, print_at, Placed, Chained, offsets_left, depths_left, opened_offsets, opened_depths};

use chains::Chains;
use kinds::{CHILDREN, FIXED, Kind};
use names::Symbol;
use pages::{COUNT_BYTES, Padded, WORD_BYTES, Word};
use refusals::Refusal;

// How many types there can be.
pub const TYPES: usize = 4096;

// How many of them stand in a page.
pub const ENTRIES: usize = TYPES - FIXED;

// The number of Null.
pub const NULL: usize = 0;

// How deep a type can be.
pub const DEPTH: usize = 32;

// A depth for each of the entries.
type Depths = [u8; ENTRIES];

// Where each of the entries begins, and the last one ends.
type Offsets = [usize; ENTRIES + 1];

// What the test of a store writes down of its entries: where each begins, and how deep it is, in arrays, since there is no heap.
#[derive(Drop)]
pub struct Tables {
    pub offsets: Offsets,
    pub depths: Depths,
}

// A store in form, with where each of its entries begins. Its types are numbers, which pages and callers hold: one that carried its store
// would have every function of two types ask that their stores are the same.
#[derive(Clone, Copy)]
pub struct Store<'a> {
    pub page: &'a [u8],
    pub offsets: &'a [usize],
    pub ghost held: { ∥ Held page.now offsets.now ∥₁ },
}

// A store that is lent to be written, with the tables of its test: what is made enters both.
#[derive(Drop)]
pub struct Maker<'a> {
    pub page: &'a mut [u8],
    pub tables: &'a mut Tables,
    pub ghost measured: { ∥ Measured page.now tables.now.offsets tables.now.depths ∥₁ },
}

// How many bytes of an entry stand before its children or its name.
const HEAD_BYTES: usize = 2;

// How many bytes a child takes.
pub const CHILD_BYTES: usize = WORD_BYTES;

// How many bytes a name takes.
const NAME_BYTES: usize = 1;

// How many bytes an entry takes at most.
pub const ENTRY_BYTES: usize = HEAD_BYTES + CHILD_BYTES * CHILDREN;

// An entry by value.
pub type Entry = Padded<ENTRY_BYTES>;

// The places of a type's children.
type Children = [u16; CHILDREN];

// A type as it is read: its kind, its depth, its children with zeros after them, its name, if it has one. The children are an
// array with a count, since there is no heap.
#[derive(Clone, Copy)]
pub struct Shape {
    pub kind: Kind,
    pub depth: usize,
    pub count: usize,
    pub children: Children,
    pub name: Option<Symbol>,
}

// How many bytes the entry at o takes. What reads an entry takes the page and where the entry begins, not a slice from there, as the
// definitions count from the page's front.
#[tactic(auto, using(crate::proofs::Placing::size_named, crate::proofs::Placing::size_children, crate::proofs::Width::name_width))]
fn entry_size(page: &[u8], o: usize) -> usize
    requires { o + head_bytes ≤ length page.now }
    ensures { (result ≡ size_at page.now o) × (result < 65536) }
{
    if kinds::is_named(page[o + 1]) {
        return HEAD_BYTES + NAME_BYTES;
    }
    HEAD_BYTES + CHILD_BYTES * usize::from(page[o])
}

// Whether the first k children of the entry at o are numbered below t.
fn are_below(page: &[u8], o: usize, k: usize, t: usize) -> bool
    requires { (o + head_bytes + child_bytes * k ≤ length page.now) × (k < 256) }
    ensures { result ≡ all_to k (is_below page.now o t) }
{
    (0..k).all(|i| pages::word_at(page, o + HEAD_BYTES + CHILD_BYTES * i) < t)
}

// Whether the entry at o has a kind that is stored, with a name in use, of n, or with as many children as the kind takes, all below t.
fn has_parts(page: &[u8], n: usize, t: usize, o: usize) -> bool
    requires { (o + head_bytes ≤ length page.now) × (o + size_at page.now o ≤ length page.now) }
    ensures { result ≡ parts_at page.now n t o }
{
    let kind = page[o + 1];
    let children = usize::from(page[o]);
    if !kinds::is_stored(kind) {
        return false;
    }
    if kinds::is_named(kind) {
        return children == 0 && names::is_used(n, usize::from(page[o + HEAD_BYTES]));
    }
    is_counted(kind, children) && are_below(page, o, children, t)
}

// The first of the first j entries that has these bytes.
fn find_entry(page: &[u8], offsets: &[usize], j: usize, entry: &[u8]) -> Option<usize>
    requires { Placed page.now offsets.now j }
    ensures { MatchOption result (equal_to page.now j entry.now ≡ j) (λ k. (k < j) × (k ≡ equal_to page.now j entry.now)) }
{
    (0..j).position(|k| pages::same(&page[offsets[k]..offsets[k + 1]], entry))
}

// The depth of a type, where depths has those of the entries.
#[tactic(auto, using(crate::proofs::Placing::depth_fixed, crate::proofs::Placing::depth_entry))]
fn depth_in(depths: &[u8], t: usize) -> usize
    requires { t < fixed_max + length depths.now }
    ensures { (result ≡ depth_in depths.now t) × (result < 256) }
{
    if t < FIXED {
        return 1;
    }
    usize::from(depths[t - FIXED])
}

// The depth of the entry at o.
#[tactic(auto, using(crate::proofs::Placing::deepest_none, crate::proofs::Placing::deepest_next, crate::proofs::Placing::larger_most, crate::proofs::Placing::larger_is, crate::proofs::Placing::child_below))]
fn entry_depth(page: &[u8], depths: &[u8], o: usize) -> usize
    requires { (o + head_bytes ≤ length page.now) × (o + head_bytes + child_bytes * children_at page.now o ≤ length page.now) × (children_below page.now o (fixed_max + length depths.now) ≡ true) }
    ensures { (result ≡ depth_at page.now depths.now o) × (result ≤ 256) }
{
    let mut deepest = 0;
    for i in 0..usize::from(page[o]) {
        let child = pages::word_at(page, o + HEAD_BYTES + CHILD_BYTES * i);
        deepest = depth_in(depths, child).max(deepest);
    }
    deepest + 1
}

// Whether entry j, which begins at o, lies in the page, has its parts, and is not too deep. The depth is asked for again where it is
// written down: a test that answered it would have the law of depths in its contract as well.
fn is_whole(page: &[u8], n: usize, j: usize, o: usize, depths: &[u8]) -> bool
    requires { Reached page.now depths.now j o }
    ensures { result ≡ whole_at page.now n j }
{
    if page.len() < o + HEAD_BYTES {
        return false;
    }
    let end = o + entry_size(page, o);
    if page.len() < end {
        return false;
    }
    if !has_parts(page, n, FIXED + j, o) {
        return false;
    }
    entry_depth(page, depths, o) <= DEPTH
}

// Whether one of the first j entries has these bytes, which have this print.
fn is_among(
    page: &[u8],
    offsets: &[usize],
    chains: &Chains<ENTRIES>,
    j: usize,
    print: usize,
    entry: &[u8],
) -> bool
    requires { Placed page.now offsets.now j × (j ≤ length chains.now.links) × Links (print_at page.now) chains.now.links j × (print < prints_max) × (get_or chains.now.heads print 0 ≡ last_below (print_at page.now) j (print_of entry.now)) }
    ensures { result ≡ any_to j (is_entry page.now entry.now) }
{
    chains.any_linked(
        j,
        print,
        |k| pages::same(&page[offsets[k]..offsets[k + 1]], entry),
    )
}

// Whether entry j, which lies in the page, is equal to none before it. It is put into the chain of its print.
fn is_new(page: &[u8], offsets: &[usize], chains: &mut Chains<ENTRIES>, j: usize) -> bool
    requires { (j < entries_max) × (offset page.now (suc j) ≤ length page.now) × Placed page.now offsets.now j × Chained page.now chains.old.heads chains.old.links j }
    ensures { (result ≡ new_at page.now j) × Chained page.now chains.new.heads chains.new.links (suc j) }
{
    let start = offsets[j];
    let end = start + entry_size(page, start);
    let print = chains::print_of(&page[start..end]);
    let found = is_among(page, offsets, chains, j, print, &page[start..end]);
    chains.link(print, j);
    !found
}

impl Tables {
    // No offset and no depth yet.
    pub fn new() -> Self
        ensures { (result.offsets ≡ replicate (suc entries_max) 0) × (result.depths ≡ replicate entries_max 0) }
    {
        Tables {
            offsets: [0; ENTRIES + 1],
            depths: [0; ENTRIES],
        }
    }

    // The store of which these are the tables.
    pub fn store<'a>(&'a self, page: &'a [u8]) -> Store<'a>
        requires { Measured page.now self.now.offsets self.now.depths }
        ensures { (result.page.now ≡ page.now) × (result.offsets.now ≡ self.now.offsets) }
    {
        Store {
            page,
            offsets: &self.offsets,
        }
    }
}

// Whether the page is a store in form, with n name numbers in use. The offsets and depths of its entries are written down, up to the
// first that breaks it. Each entry is compared with those before it that have its print. In a frame of its own, which is there neither
// while the names are tested nor while a call does its work.
#[inline(never)]
pub fn survey(page: &[u8], n: usize, tables: &mut Tables) -> Result<(), Refusal>
    ensures { (result ≡ form_verdict page.now n) × IfOk result (λ _. Measured page.now tables.new.offsets tables.new.depths) × (tables.new.offsets ≡ offsets_left page.now n tables.old.offsets) × (tables.new.depths ≡ depths_left page.now n tables.old.depths) }
{
    if page.len() < COUNT_BYTES {
        return Err(Refusal::Broken);
    }
    let k = pages::count(page);
    if ENTRIES < k {
        return Err(Refusal::Broken);
    }
    let mut chains: Chains<ENTRIES> = Chains::new();
    let mut o = COUNT_BYTES;
    for j in 0..k {
        tables.offsets[j] = o;
        if !is_whole(page, n, j, o, &tables.depths) {
            return Err(Refusal::Broken);
        }
        if !is_new(page, &tables.offsets, &mut chains, j) {
            return Err(Refusal::Broken);
        }
        tables.depths[j] = entry_depth(page, &tables.depths, o) as u8;
        o += entry_size(page, o);
    }
    tables.offsets[k] = o;
    if !pages::zeros_from(page, o) {
        return Err(Refusal::Broken);
    }
    Ok(())
}

// How many name numbers are in use, where names, if they are lent, and store are in form; the tables are filled as `survey` does. Page
// and names are two things that an entry call is lent, of which a struct would be made for this call alone.
pub fn opened(page: &[u8], names: Option<&[u8]>, tables: &mut Tables) -> Result<usize, Refusal>
    ensures { (result ≡ opened_answer page.now (option_copied names.entry)) × IfOk result (λ n. (n ≤ names_max) × Measured page.now tables.new.offsets tables.new.depths) × (tables.new.offsets ≡ opened_offsets page.now (option_copied names.entry) tables.old.offsets) × (tables.new.depths ≡ opened_depths page.now (option_copied names.entry) tables.old.depths) }
{
    let n = names::used_in(names)?;
    survey(page, n, tables)?;
    Ok(n)
}

// How many types there are in a page, and so the next one's number. Of a page, since what makes and reads types asks before it has a
// `Store`.
pub fn count(page: &[u8]) -> usize
    requires { count_bytes ≤ length page.now }
    ensures { result ≡ types_in page.now }
{
    FIXED + pages::count(page)
}

// The bytes of a page's count of entries.
pub fn front(page: &[u8]) -> Word
    requires { count_bytes ≤ length page.now }
    ensures { result ≡ get_or page.now 0 0 ∷ get_or page.now 1 0 ∷ [] }
{
    [page[0], page[1]]
}

// Where the entry of a type begins, as a table of offsets has it; for the next type's number, where the last entry ends.
pub fn offset_of(offsets: &[usize], t: usize) -> usize
    requires { (fixed_max ≤ t) × (t < fixed_max + length offsets.now) × (length offsets.now ≡ suc entries_max) }
    ensures { result ≡ get_or offsets.now (t - fixed_max) 0 }
{
    offsets[t - FIXED]
}

impl Store<'_> {
    // How many types there are, and so the next one's number.
    pub fn count(self) -> usize
        ensures { result ≡ types_in self.entry.page.now }
    {
        count(self.page)
    }

    // The bytes of the count of entries.
    pub fn front(self) -> Word
        ensures { result ≡ get_or self.entry.page.now 0 0 ∷ get_or self.entry.page.now 1 0 ∷ [] }
    {
        front(self.page)
    }

    // Where the entry of a type begins; for the next type's number, where the last entry ends.
    pub fn place_of(self, t: usize) -> usize
        requires { (fixed_max ≤ t) × (t ≤ types_in self.page.now) }
        ensures { result ≡ place_of self.entry.page.now t }
    {
        offset_of(self.offsets, t)
    }

    // The kind of a type.
    pub fn kind_of(self, t: usize) -> Kind
        requires { t < types_in self.page.now }
        ensures { result ≡ kind_of self.entry.page.now t }
    {
        if t < FIXED {
            return t as u8;
        }
        self.page[self.place_of(t) + 1]
    }

    // How many children a type has.
    pub fn arity(self, t: usize) -> usize
        requires { t < types_in self.page.now }
        ensures { (result ≡ arity self.entry.page.now t) × (result ≤ children_max) }
    {
        if t < FIXED {
            return 0;
        }
        usize::from(self.page[self.place_of(t)])
    }

    // Child i of a type, numbered below it. Children are asked for by number, as the definitions are: what goes over all of them is a `for`
    // over numbers.
    pub fn child_of(self, t: usize, i: usize) -> usize
        requires { (t < types_in self.page.now) × (i < arity self.page.now t) }
        ensures { (result ≡ child_of self.entry.page.now t i) × (result < t) }
    {
        pages::word_at(self.page, self.place_of(t) + HEAD_BYTES + CHILD_BYTES * i)
    }

    // The name of a type whose kind has one.
    pub fn name_of(self, t: usize) -> Symbol
        requires { (t < types_in self.page.now) × (is_named (kind_of self.page.now t) ≡ true) }
        ensures { result ≡ name_of self.entry.page.now t }
    {
        Symbol::from(self.page[self.place_of(t) + HEAD_BYTES])
    }

    // The children of a type, with zeros after them. A loop, since `pages::read_words` would need a test for a type without an entry.
    fn children_of(self, t: usize) -> Children
        requires { t < types_in self.page.now }
        ensures { result ≡ pad children_max 0 (list_to (arity self.entry.page.now t) (child_of self.entry.page.now t)) }
    {
        let mut children = [0; CHILDREN];
        for i in 0..self.arity(t) {
            children[i] = self.child_of(t, i) as u16;
        }
        children
    }

    // The name of a type, if it has one.
    fn name_if_any(self, t: usize) -> Option<Symbol>
        requires { t < types_in self.page.now }
        ensures { result ≡ cond (is_named (kind_of self.entry.page.now t)) (Some (name_of self.entry.page.now t)) None }
    {
        if kinds::is_named(self.kind_of(t)) {
            return Some(self.name_of(t));
        }
        None
    }

    // The entry of a type that is not fixed, under its const kind.
    fn const_entry(self, t: usize) -> Entry
        requires { (fixed_max ≤ t) × (t < types_in self.page.now) }
        ensures { (result ≡ padded entry_max (const_entry self.entry.page.now t)) × (result.size ≤ entry_max) }
    {
        let at = self.place_of(t);
        let size = entry_size(self.page, at);
        let mut entry: Entry = Padded::of(&self.page[at..at + size]);
        entry.bytes[1] = kinds::const_variant(self.page[at + 1]);
        entry
    }
}

// Enters an entry in a store that an entry call found in form: the number of its equal, else the next. The tables grow with it.
// Apart from `Maker::enter`: a `Maker` says after each write that its page is in form, and between the entry and the count it is not.
fn enter(page: &mut [u8], tables: &mut Tables, entry: &[u8]) -> Result<usize, Refusal>
    requires { Ready page.old tables.old.offsets tables.old.depths entry.now }
    ensures { (result ≡ enter_answer page.old entry.now) × (page.new ≡ enter_page page.old entry.now) × (Measured page.new tables.new.offsets tables.new.depths) }
{
    let n = pages::count(page);
    if let Some(k) = find_entry(page, &tables.offsets, n, entry) {
        return Ok(FIXED + k);
    }
    let depth = entry_depth(entry, &tables.depths, 0);
    if DEPTH < depth {
        return Err(Refusal::Depth);
    }
    if ENTRIES <= n {
        return Err(Refusal::Full);
    }
    let end = tables.offsets[n];
    if page.len() < end + entry.len() {
        return Err(Refusal::Full);
    }
    let number = pages::count_bytes(n + 1);
    pages::put_bytes(page, end, entry);
    pages::put_bytes(page, 0, &number);
    tables.offsets[n + 1] = end + entry.len();
    tables.depths[n] = depth as u8;
    Ok(FIXED + n)
}

// Makes the page a store of the fixed types alone. An empty page of names and an empty store are two tables of document 01, each with
// its own definition, though both are a count of none.
pub fn empty_types(page: &mut [u8]) -> Result<(), Refusal>
    ensures { (result ≡ empty_verdict page.old) × (page.new ≡ empty_page page.old) }
{
    if page.len() < COUNT_BYTES {
        return Err(Refusal::Broken);
    }
    pages::clear(page);
    Ok(())
}

// The entry of a type: of a kind with a name that name, of another kind its children. The number of a name in use fits its byte.
// The kind says whether the name is looked at, as in `make_type`: an Option could say none for a kind that has one.
#[tactic(auto, using(crate::proofs::Entries::named_made, crate::proofs::Entries::other_size, crate::proofs::Entries::other_made))]
pub fn entry_of(kind: Kind, children: &[u16], name: Symbol) -> Entry
    requires { length children.now ≤ children_max }
    ensures { (result ≡ padded entry_max (entry_of kind children.now name)) × (result.size ≤ entry_max) }
{
    if kinds::is_named(kind) {
        let named = [0, kind, (name % 256) as u8];
        return Padded::of(&named);
    }
    let head = [children.len() as u8, kind];
    let mut bytes = [0; ENTRY_BYTES];
    pages::put_bytes(&mut bytes, 0, &head);
    pages::put_words(&mut bytes, HEAD_BYTES, children);
    Padded {
        size: HEAD_BYTES + CHILD_BYTES * children.len(),
        bytes,
    }
}

impl Maker<'_> {
    ghost use Rattle.types.specs.Same.{Same};

    // The store as it is.
    pub fn store(&self) -> Store<'_>
        ensures { (result.page.now ≡ self.now.page.now) × (result.offsets.now ≡ self.now.tables.now.offsets) }
    {
        self.tables.store(self.page)
    }

    // Enters an entry: the number of its equal, else the next.
    pub fn enter(&mut self, entry: &[u8]) -> Result<usize, Refusal>
        requires { Ready self.old.page.now self.old.tables.now.offsets self.old.tables.now.depths entry.now }
        ensures value { (result ≡ enter_answer self.old.page.now entry.now) × (self.new.page.now ≡ enter_page self.old.page.now entry.now) }
        ensures same { Same self.new self.old }
    {
        enter(self.page, self.tables, entry)
    }

    // Enters a type of this kind.
    pub fn enter_type(
        &mut self,
        kind: Kind,
        children: &[u16],
        name: Symbol,
    ) -> Result<usize, Refusal>
        requires children_len_bound { length children.now ≤ children_max }
        requires ready { Ready self.old.page.now self.old.tables.now.offsets self.old.tables.now.depths (entry_of kind children.now name) }
        ensures value { (result ≡ enter_answer self.old.page.now (entry_of kind children.now name)) × (self.new.page.now ≡ enter_page self.old.page.now (entry_of kind children.now name)) }
        ensures same { Same self.new self.old }
    {
        let entry = entry_of(kind, children, name);
        self.enter(entry.as_slice())
    }

    // A type's const form: the number of its equal, else the next.
    pub fn const_form(&mut self, t: usize) -> Result<usize, Refusal>
        requires { t < types_in self.old.page.now }
        ensures value { (result ≡ const_answer self.old.page.now t) × (self.new.page.now ≡ const_page self.old.page.now t) }
        ensures same { Same self.new self.old }
    {
        if t < FIXED {
            return Ok(usize::from(kinds::const_variant(t as u8)));
        }
        let entry = self.store().const_entry(t);
        self.enter(entry.as_slice())
    }
}

// Whether all of these numbers are below t.
fn all_below(children: &[u16], t: usize) -> bool
    ensures { result ≡ all_below t children.now }
{
    children.iter().all(|child| usize::from(*child) < t)
}

// Whether the children of a type are in use and, if its kind has one, its name, of n.
#[tactic(auto, using(crate::proofs::Calls::parts_above, crate::proofs::Calls::parts_named, crate::proofs::Calls::parts_nameless))]
fn parts_used(page: &[u8], n: usize, kind: Kind, children: &[u16], name: Symbol) -> bool
    requires { count_bytes ≤ length page.now }
    ensures { result ≡ parts_used page.now n kind children.now name }
{
    if !all_below(children, count(page)) {
        return false;
    }
    if kinds::is_named(kind) {
        return names::is_used(n, usize::from(name));
    }
    true
}

// Whether a kind can have so many children.
fn is_counted(kind: Kind, count: usize) -> bool
    ensures { result ≡ within (fewest kind) (most kind) count }
{
    (kinds::fewest(kind) <= count) & (count <= kinds::most(kind))
}

// The number of a type, which is made if it is new. The name is looked at where the kind has one.
pub fn make_type(
    page: &mut [u8],
    names: Option<&[u8]>,
    kind: Kind,
    children: &[u16],
    name: Symbol,
) -> Result<usize, Refusal>
    ensures { (result ≡ make_answer page.old (option_copied names.entry) kind children.now name) × (page.new ≡ make_page page.old (option_copied names.entry) kind children.now name) }
{
    if kinds::GENERIC < kind {
        return Err(Refusal::Undefined);
    }
    let n = names::used_in(names)?;
    let mut tables = Tables::new();
    survey(page, n, &mut tables)?;
    if !parts_used(page, n, kind, children, name) {
        return Err(Refusal::Unused);
    }
    if !is_counted(kind, children.len()) {
        return Err(Refusal::Width);
    }
    if !kinds::is_stored(kind) {
        return Ok(usize::from(kind));
    }
    let mut maker = Maker {
        page,
        tables: &mut tables,
    };
    maker.enter_type(kind, children, name)
}

// A type by value.
fn shape_of(page: &[u8], tables: &Tables, t: usize) -> Shape
    requires measured { Measured page.now tables.now.offsets tables.now.depths }
    requires t_bound { t < types_in page.now }
    ensures { result ≡ type_at page.now t }
{
    let store = tables.store(page);
    Shape {
        kind: store.kind_of(t),
        depth: depth_in(&tables.depths, t),
        count: store.arity(t),
        children: store.children_of(t),
        name: store.name_if_any(t),
    }
}

// The type with number t.
pub fn read_type(page: &[u8], names: Option<&[u8]>, t: usize) -> Result<Shape, Refusal>
    ensures { result ≡ read_answer page.now (option_copied names.entry) t }
{
    let n = names::used_in(names)?;
    let mut tables = Tables::new();
    survey(page, n, &mut tables)?;
    if count(page) <= t {
        return Err(Refusal::Unused);
    }
    Ok(shape_of(page, &tables, t))
}

// Takes back the entries from index `end` on, the count's bytes having been these. A caller reads both off the store before it grows, as
// a page that has grown tells its new count and its new end alone: two numbers for one call, and no struct.
#[tactic(auto, using(crate::proofs::Back::end_cleared), unfolding(crate::specs::Making::taken_back))]
pub fn take_back(page: &mut [u8], count: Word, end: usize)
    requires { (count_bytes ≤ end) × (end ≤ length page.old) }
    ensures { page.new ≡ taken_back page.old count end }
{
    pages::clear(&mut page[end..]);
    pages::put_bytes(page, 0, &count);
}
