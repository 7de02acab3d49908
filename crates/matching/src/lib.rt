// When one type may stand for another (document 01, "Types"; types.rs of the source, whose names the functions have). Each takes
// numbers in use in the store; `checked` has the calls that test them.
#![tactic(auto)]

ghost use Rattle.std.specs.Prelude.{◌≡◌, true, false, ◌||◌, ◌*◌, ◌≤◌, ◌<◌, replicate, MatchOption};
ghost use Rattle.types.specs.Store.{types_max};
ghost use Rattle.kinds.specs.Kinds.{is_array, is_map, is_tuple, is_union, const_matches};
ghost use Rattle.marks.specs.Marks.{is_marked, marking, Noted};
ghost use Rattle.types.specs.Types.{types_in, kind_of, Held};
ghost use Rattle.matching.specs.Matching.{both, smaller, null_array_elision, null_map_elision, record_matches, enum_matches, set_matches, handle_matches, flat_matches, any_matches, known_for_function, function_matches, matches, in_use};
ghost use Rattle.matching.specs.Memo.{type_number, fits, column_of, keeps, refuting, is_free, is_refuted, members_of, member_of, found, Found};

use kinds::{FN, GENERIC, HANDLE, HANDLE_INFER};
use marks::{LARGE_BYTES, SMALL_BYTES, TINY_BYTES};
use types::{NULL, Store};

// A checked type: a type of the store, none known, or a Callback's parameters and return.
#[derive(Clone, Copy, Debug, PartialEq, Eq)]
pub enum Checked {
    Known(usize),
    Unknown,
    Function(usize),
}

// A store, and a table lent to it of what a call has found of pairs of its types: all that it says was found.
// The functions below take the two apart: as methods of this type, `matches` on the hostile stores of `harness` took 5 to 32 percent
// longer than as these functions.
#[derive(Drop)]
pub struct Matcher<'a> {
    pub store: Store<'a>,
    pub table: &'a mut [u8],
    pub ghost noted: { ∥ Noted (Found store.page.now) table.now ∥₁ },
}

// How many bytes such a table takes: tiny, small or large.
pub const TINY_MEMO: usize = 2 * TINY_BYTES;

pub const SMALL_MEMO: usize = 2 * SMALL_BYTES;

pub const LARGE_MEMO: usize = 2 * LARGE_BYTES;

// The number of a checked type, 0 where none is known: a number that is always in use, so that a type not known fits every table. An
// Option would have to say what an empty table fits.
#[tactic(auto, unfolding(crate::specs::Memo::type_number))]
fn type_number(c: Checked) -> usize
    ensures { result ≡ type_number c }
{
    match c {
        Checked::Known(t) | Checked::Function(t) => t,
        Checked::Unknown => 0,
    }
}

// Whether two checked types, and with them all that they are made of, are numbered below n.
#[tactic(auto, unfolding(crate::specs::Memo::fits))]
pub fn fits(n: usize, a: Checked, b: Checked) -> bool
    ensures { result ≡ fits n a b }
{
    (type_number(a) < n) & (type_number(b) < n)
}

// The column of a type and an answer. The `answer` here, of `recalls` and of `note` is what is kept, or asked for, and no switch.
#[tactic(auto, unfolding(crate::specs::Memo::column_of))]
fn column_of(b: usize, answer: bool) -> usize
    requires { b < types_max }
    ensures { result ≡ column_of b answer }
{
    2 * b + usize::from(answer)
}

// Whether an answer for a pair is kept in mind.
#[tactic(auto, using(crate::proofs::Memo::recalled_is))]
pub fn recalls(memo: &[u8], a: usize, b: usize, answer: bool) -> bool
    requires { (a < types_max) × (b < types_max) }
    ensures { result ≡ keeps memo.now a b answer }
{
    recalled(memo, a, b) == Some(answer)
}

// The answer that is kept in mind for a pair, if one is: a no wherever it is marked, else a yes.
#[tactic(auto, unfolding(crate::specs::Memo::keeps, crate::specs::Memo::column_of))]
pub fn recalled(memo: &[u8], a: usize, b: usize) -> Option<bool>
    requires { (a < types_max) × (b < types_max) }
    ensures { MatchOption result ((keeps memo.now a b true ≡ false) × (keeps memo.now a b false ≡ false)) (λ answer. keeps memo.now a b answer ≡ true) }
{
    match marks::are_marked(memo, a, b) {
        (true, _) => Some(false),
        (false, true) => Some(true),
        (false, false) => None,
    }
}

// Keeps the answer for a pair in mind.
pub fn note(memo: &mut [u8], a: usize, b: usize, answer: bool)
    requires { (a < types_max) × (b < types_max) }
    ensures { memo.new ≡ marking memo.old a (column_of b answer) }
{
    marks::mark(memo, a, column_of(b, answer));
}

// Keeps in mind that a type does not stand for a union. A refutation is both marks, no and yes: a no alone says what `find` came to by
// the kinds of the two, and no yes is recalled where there is a no. Where the table has no room for the no, neither is made.
#[tactic(auto, unfolding(crate::specs::Memo::refuting))]
fn refute(memo: &mut [u8], a: usize, b: usize)
    requires { (a < types_max) × (b < types_max) }
    ensures { memo.new ≡ refuting memo.old a b }
{
    note(memo, a, b, false);
    if marks::is_marked(memo, a, column_of(b, false)) {
        note(memo, a, b, true);
    }
}

// Whether children can be elided in two types: both arrays, or both tuples. One function over the test of a kind for this, maps,
// unions and the unifier's arrays was tried: what a call of it answers is not proved automatically, and its caller's proof by hand is
// longer than these bodies.
fn are_sequences(store: Store, a: usize, b: usize) -> bool
    requires { (a < types_in store.page.now) × (b < types_in store.page.now) }
    ensures { result ≡ (both is_array store.entry.page.now a b || both is_tuple store.entry.page.now a b) }
{
    let ka = store.kind_of(a);
    let kb = store.kind_of(b);
    (kinds::is_array(ka) & kinds::is_array(kb)) | (kinds::is_tuple(ka) & kinds::is_tuple(kb))
}

// Whether two types are both maps.
fn are_maps(store: Store, a: usize, b: usize) -> bool
    requires { (a < types_in store.page.now) × (b < types_in store.page.now) }
    ensures { result ≡ both is_map store.entry.page.now a b }
{
    kinds::is_map(store.kind_of(a)) & kinds::is_map(store.kind_of(b))
}

// Whether two types are both unions.
fn are_unions(store: Store, a: usize, b: usize) -> bool
    requires { (a < types_in store.page.now) × (b < types_in store.page.now) }
    ensures { result ≡ both is_union store.entry.page.now a b }
{
    kinds::is_union(store.kind_of(a)) & kinds::is_union(store.kind_of(b))
}

// Whether of two arrays, or two tuples, every pair of elements has Null on a side or is such a pair itself; of tuples only shared
// elements are compared. The tests stand in the callers, so that a walk is begun only for a pair that is met for the first time.
#[cycle(array_elision)]
#[inline(always)]
pub fn null_array_elision(store: Store, memo: &mut [u8], a: usize, b: usize) -> bool
    requires a_bound { (a < types_in store.page.now) × (b < types_in store.page.now) }
    requires noted { Noted (Found store.page.now) memo.old }
    ensures value { result ≡ null_array_elision store.entry.page.now a b }
    ensures noted_2 { Noted (Found store.entry.page.now) memo.new }
{
    if !are_sequences(store, a, b) {
        return false;
    }
    match recalled(memo, a, b) {
        Some(answer) => answer,
        None => elide_sequences(store, memo, a, b),
    }
}

// The elements of two arrays, or two tuples, pair by pair; what it comes to is kept in mind.
#[cycle(array_elision)]
fn elide_sequences(store: Store, memo: &mut [u8], a: usize, b: usize) -> bool
    requires a_bound { (a < types_in store.page.now) × (b < types_in store.page.now) }
    requires sequences { (both is_array store.page.now a b || both is_tuple store.page.now a b) ≡ true }
    requires noted { Noted (Found store.page.now) memo.old }
    ensures value { result ≡ null_array_elision store.entry.page.now a b }
    ensures noted_2 { Noted (Found store.entry.page.now) memo.new }
{
    let n = store.arity(a).min(store.arity(b));
    for i in 0..n {
        let x = store.child_of(a, i);
        let y = store.child_of(b, i);
        if x != NULL && y != NULL && !null_array_elision(store, memo, x, y) {
            note(memo, a, b, false);
            return false;
        }
    }
    note(memo, a, b, true);
    true
}

// Whether of two maps the keys, and the values, have Null on a side, or are arrays, tuples or maps of which the same holds. One function
// with the elision of arrays would test at each step which of the two it is, and the source has both by name.
#[cycle(map_elision)]
#[inline(always)]
pub fn null_map_elision(store: Store, memo: &mut [u8], a: usize, b: usize) -> bool
    requires a_bound { (a < types_in store.page.now) × (b < types_in store.page.now) }
    requires noted { Noted (Found store.page.now) memo.old }
    ensures value { result ≡ null_map_elision store.entry.page.now a b }
    ensures noted_2 { Noted (Found store.entry.page.now) memo.new }
{
    if !are_maps(store, a, b) {
        return false;
    }
    match recalled(memo, a, b) {
        Some(answer) => answer,
        None => elide_maps(store, memo, a, b),
    }
}

// The keys of two maps, and their values; what it comes to is kept in mind.
#[cycle(map_elision)]
fn elide_maps(store: Store, memo: &mut [u8], a: usize, b: usize) -> bool
    requires a_bound { (a < types_in store.page.now) × (b < types_in store.page.now) }
    requires maps { both is_map store.page.now a b ≡ true }
    requires noted { Noted (Found store.page.now) memo.old }
    ensures value { result ≡ null_map_elision store.entry.page.now a b }
    ensures noted_2 { Noted (Found store.entry.page.now) memo.new }
{
    for i in 0..2 {
        let x = store.child_of(a, i);
        let y = store.child_of(b, i);
        if x != NULL
            && y != NULL
            && !null_array_elision(store, memo, x, y)
            && !null_map_elision(store, memo, x, y)
        {
            note(memo, a, b, false);
            return false;
        }
    }
    note(memo, a, b, true);
    true
}

// Whether a kind is const and the other its plain form, or for some the other way round; no child is looked at.
pub fn const_matches(store: Store, a: usize, b: usize) -> bool
    requires { (a < types_in store.page.now) × (b < types_in store.page.now) }
    ensures { result ≡ const_matches (kind_of store.entry.page.now a) (kind_of store.entry.page.now b) }
{
    kinds::const_matches(store.kind_of(a), store.kind_of(b))
}

// Whether two records have the same name, const or not.
#[tactic(auto, unfolding(crate::specs::Matching::record_matches))]
pub fn record_matches(store: Store, a: usize, b: usize) -> bool
    requires { (a < types_in store.page.now) × (b < types_in store.page.now) }
    ensures { result ≡ record_matches store.entry.page.now a b }
{
    kinds::is_record(store.kind_of(a))
        && kinds::is_record(store.kind_of(b))
        && store.name_of(a) == store.name_of(b)
}

// Whether two enums have the same name, const or not. One function of both, handed the test of the kind, is no shorter than the two.
#[tactic(auto, unfolding(crate::specs::Matching::enum_matches))]
pub fn enum_matches(store: Store, a: usize, b: usize) -> bool
    requires { (a < types_in store.page.now) × (b < types_in store.page.now) }
    ensures { result ≡ enum_matches store.entry.page.now a b }
{
    kinds::is_enum(store.kind_of(a))
        && kinds::is_enum(store.kind_of(b))
        && store.name_of(a) == store.name_of(b)
}

// Whether two sets have equal elements, const or not.
#[tactic(auto, using(crate::proofs::Parts::set_child), unfolding(crate::specs::Matching::set_matches))]
pub fn set_matches(store: Store, a: usize, b: usize) -> bool
    requires { (a < types_in store.page.now) × (b < types_in store.page.now) }
    ensures { result ≡ set_matches store.entry.page.now a b }
{
    kinds::is_set(store.kind_of(a))
        && kinds::is_set(store.kind_of(b))
        && store.child_of(a, 0) == store.child_of(b, 0)
}

// Whether two handles have the same name, or either is HandleInfer.
#[tactic(auto, unfolding(crate::specs::Matching::handle_matches))]
pub fn handle_matches(store: Store, a: usize, b: usize) -> bool
    requires { (a < types_in store.page.now) × (b < types_in store.page.now) }
    ensures { result ≡ handle_matches store.entry.page.now a b }
{
    let ka = store.kind_of(a);
    let kb = store.kind_of(b);
    if ka == HANDLE {
        if kb == HANDLE {
            return store.name_of(a) == store.name_of(b);
        }
        return kb == HANDLE_INFER;
    }
    (ka == HANDLE_INFER) & ((kb == HANDLE_INFER) | (kb == HANDLE))
}

// Whether a type stands for another by a rule that looks at no child's children.
#[tactic(auto, unfolding(crate::specs::Matching::flat_matches))]
fn flat_matches(store: Store, a: usize, b: usize) -> bool
    requires { (a < types_in store.page.now) × (b < types_in store.page.now) }
    ensures { result ≡ flat_matches store.entry.page.now a b }
{
    const_matches(store, a, b)
        || record_matches(store, a, b)
        || enum_matches(store, a, b)
        || set_matches(store, a, b)
        || handle_matches(store, a, b)
}

// Whether a Known type stands for a Function: Null, a Generic, or Fn.
#[tactic(auto, unfolding(crate::specs::Matching::known_for_function))]
fn known_for_function(store: Store, a: usize) -> bool
    requires { a < types_in store.page.now }
    ensures { result ≡ known_for_function store.entry.page.now a }
{
    a == NULL || matches!(store.kind_of(a), GENERIC | FN)
}

// Whether a Function stands for a checked type: Unknown, a Generic, Fn, or a Function with the same parameters and return.
#[tactic(auto, unfolding(crate::specs::Matching::function_matches, crate::specs::Matching::in_use))]
fn function_matches(store: Store, f: usize, expected: Checked) -> bool
    requires { in_use store.page.now expected ≡ true }
    ensures { result ≡ function_matches store.entry.page.now f expected }
{
    match expected {
        Checked::Unknown => true,
        Checked::Known(b) => {
            let k = store.kind_of(b);
            (k == GENERIC) | (k == FN)
        }
        Checked::Function(g) => f == g,
    }
}

// Whether a type stands for another whatever their children are: they are equal, the one is Null, either is a Generic, or one is const.
#[tactic(auto, unfolding(crate::specs::Memo::is_free, crate::specs::Matching::wild))]
fn is_free(store: Store, a: usize, b: usize) -> bool
    requires { (a < types_in store.page.now) × (b < types_in store.page.now) }
    ensures { result ≡ is_free store.entry.page.now a b }
{
    if a == b || a == NULL {
        return true;
    }
    let ka = store.kind_of(a);
    let kb = store.kind_of(b);
    kb == GENERIC || ka == GENERIC || kinds::const_matches(ka, kb)
}

// What is found of a pair whose expected type is no union: by elision, or by a rule that looks at no child's children.
fn find(store: Store, memo: &mut [u8], a: usize, b: usize) -> bool
    requires a_bound { (a < types_in store.page.now) × (b < types_in store.page.now) × (is_union (kind_of store.page.now b) ≡ false) }
    requires noted { Noted (Found store.page.now) memo.old }
    ensures value { result ≡ found store.entry.page.now a b }
    ensures noted_2 { Noted (Found store.entry.page.now) memo.new }
{
    if are_sequences(store, a, b) {
        return null_array_elision(store, memo, a, b);
    }
    if are_maps(store, a, b) {
        return null_map_elision(store, memo, a, b);
    }
    let answer = flat_matches(store, a, b);
    note(memo, a, b, answer);
    answer
}

// Whether it is known already that a type does not stand for another. Where it follows from a no and from the kinds of the two, the other
// mark is made as well, so that the kinds are not asked again.
#[tactic(auto, unfolding(crate::specs::Memo::is_refuted, crate::specs::Memo::column_of))]
fn is_refuted(store: Store, memo: &mut [u8], a: usize, b: usize) -> bool
    requires a_bound { (a < types_in store.page.now) × (b < types_in store.page.now) }
    requires noted { Noted (Found store.page.now) memo.old }
    ensures value { result ≡ is_refuted store.entry.page.now memo.old a b }
    ensures noted_2 { Noted (Found store.entry.page.now) memo.new }
{
    let (no, yes) = marks::are_marked(memo, a, b);
    if !no || yes {
        return no;
    }
    if is_free(store, a, b) || are_unions(store, a, b) {
        return false;
    }
    note(memo, a, b, true);
    true
}

// Whether a checked type stands for another.
#[cycle(any_matches_matches)]
pub fn matches(store: Store, memo: &mut [u8], actual: Checked, expected: Checked) -> bool
    requires actual_value { (in_use store.page.now actual ≡ true) × (in_use store.page.now expected ≡ true) }
    requires noted { Noted (Found store.page.now) memo.old }
    ensures value { result ≡ matches store.entry.page.now actual expected }
    ensures noted_2 { Noted (Found store.entry.page.now) memo.new }
{
    if let Checked::Unknown = expected {
        return true;
    }
    if let Checked::Function(f) = actual {
        return function_matches(store, f, expected);
    }
    let Checked::Known(a) = actual else {
        return true;
    };
    let Checked::Known(b) = expected else {
        return known_for_function(store, a);
    };
    if is_free(store, a, b) {
        return true;
    }
    if !kinds::is_union(store.kind_of(b)) {
        return find(store, memo, a, b);
    }
    if any_matches(store, memo, a, b) {
        return true;
    }
    refute(memo, a, b);
    false
}

// How many members a type has on the actual side, a union or not; what is no union is its own one member.
#[tactic(auto, unfolding(crate::specs::Memo::members_of))]
fn members_of(store: Store, a: usize) -> usize
    requires { a < types_in store.page.now }
    ensures { result ≡ members_of store.entry.page.now a }
{
    if kinds::is_union(store.kind_of(a)) {
        return store.arity(a);
    }
    1
}

// Member i of a type on the actual side.
#[tactic(auto, unfolding(crate::specs::Memo::member_of, crate::specs::Memo::members_of))]
fn member_of(store: Store, a: usize, i: usize) -> usize
    requires { (a < types_in store.page.now) × (i < members_of store.page.now a) }
    ensures { (result ≡ member_of store.entry.page.now a i) × (result ≤ a) }
{
    if kinds::is_union(store.kind_of(a)) {
        return store.child_of(a, i);
    }
    a
}

// Whether a type stands for a union: if every member of its own stands for some expected one.
#[cycle(any_matches_matches)]
pub fn any_matches(store: Store, memo: &mut [u8], a: usize, b: usize) -> bool
    requires noted { Noted (Found store.page.now) memo.old }
    requires a_bound { (a < types_in store.page.now) × (b < types_in store.page.now) }
    ensures { (result ≡ any_matches store.entry.page.now a b) × Noted (Found store.entry.page.now) memo.new }
{
    if !kinds::is_union(store.kind_of(b)) {
        return false;
    }
    'members: for i in 0..members_of(store, a) {
        let m = member_of(store, a, i);
        match recalled(memo, m, b) {
            Some(true) => continue,
            Some(false) => return false,
            None => {}
        }
        for j in 0..store.arity(b) {
            let e = store.child_of(b, j);
            if !is_refuted(store, memo, m, e)
                && matches(store, memo, Checked::Known(m), Checked::Known(e))
            {
                note(memo, m, b, true);
                continue 'members;
            }
        }
        note(memo, m, b, false);
        return false;
    }
    true
}

impl Matcher<'_> {
    ghost use Rattle.matching.specs.Same.{Same};

    // Whether a checked type stands for another.
    #[tactic(auto, using(crate::proofs::Memo::noted_by))]
    pub fn matches(&mut self, actual: Checked, expected: Checked) -> bool
        requires actual_value { (in_use self.old.store.page.now actual ≡ true) × (in_use self.old.store.page.now expected ≡ true) }
        ensures value { result ≡ matches self.old.store.page.now actual expected }
        ensures same { Same self.new self.old }
    {
        matches(self.store, self.table, actual, expected)
    }
}
