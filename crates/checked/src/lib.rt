// The calls on checked types (document 01, "Types"; types.rs of the source, whose names they have). Each takes any input, and refuses
// what it cannot answer.
#![tactic(auto)]

ghost use Rattle.std.specs.Prelude.{◌≡◌, true, ◌&&◌, ◌*◌, ◌≤◌, ◌<◌, ltb, option_copied};
ghost use Rattle.refusals.specs.Lowest.{answer_of};
ghost use Rattle.types.specs.Types.{types_in};
ghost use Rattle.marks.specs.Marks.{large_bytes, room, HasRows};
ghost use Rattle.matching.specs.Matching.{in_use, matches};
ghost use Rattle.matching.specs.Memo.{fits};
ghost use Rattle.bindings.specs.Bindings.{bindings_max, Usable};
ghost use Rattle.unification.specs.Unification.{unified, unify_arg};
ghost use Rattle.checked.specs.Calls.{of_made, matches_answer, generic_answer, into_const, into_const_page, substitute_answer, bindings_verdict, substitute_page, kept_by, fits_bound, unify_arg_answer, unify_answer};

use bindings::Bindings;
use kinds::CALLBACK;
use marks::{LARGE_BYTES, SMALL, SMALL_BYTES, TINY, TINY_BYTES};
use matching::{Checked, LARGE_MEMO, Matcher, SMALL_MEMO, TINY_MEMO};
use refusals::Refusal;
use types::{Maker, Store, TYPES, Tables};
use unification::{Unified, Unifier};

// Whether a checked type's number is in use and, of a Function, that of a Callback. For crates above (their entry calls answer 3).
pub fn is_used(store: Store, c: Checked) -> bool
    ensures { result ≡ in_use store.entry.page.now c }
{
    match c {
        Checked::Unknown => true,
        Checked::Known(t) => t < store.count(),
        Checked::Function(t) => t < store.count() && store.kind_of(t) == CALLBACK,
    }
}

// Whether a checked type in use stands for another, over a table of N bytes that has room for both, in a frame of its own.
#[inline(never)]
fn matches_over<const N: usize>(store: Store, actual: Checked, expected: Checked) -> bool
    requires actual_value { (in_use store.page.now actual ≡ true) × (in_use store.page.now expected ≡ true) }
    requires n_bound { N ≤ 2 * large_bytes }
    requires room { (fits (room N) actual expected ≡ true) × HasRows 1 N }
    ensures { result ≡ matches store.entry.page.now actual expected }
{
    let mut memo = [0; N];
    let mut matcher = Matcher {
        store,
        table: &mut memo,
    };
    matcher.matches(actual, expected)
}

// The same over a table that has room for both types. The choice stands here, in `unify_in` and in `answers::index_in`: over a closure for
// what is called it cannot be one function, as a closure has no const parameter.
fn matches_in(store: Store, actual: Checked, expected: Checked) -> bool
    requires { (in_use store.page.now actual ≡ true) × (in_use store.page.now expected ≡ true) }
    ensures { result ≡ matches store.entry.page.now actual expected }
{
    if matching::fits(TINY, actual, expected) {
        matches_over::<TINY_MEMO>(store, actual, expected)
    } else if matching::fits(SMALL, actual, expected) {
        matches_over::<SMALL_MEMO>(store, actual, expected)
    } else {
        matches_over::<LARGE_MEMO>(store, actual, expected)
    }
}

// Whether a checked type stands for another.
pub fn matches(
    page: &[u8],
    names: Option<&[u8]>,
    actual: Checked,
    expected: Checked,
) -> Result<bool, Refusal>
    ensures { result ≡ matches_answer page.now (option_copied names.entry) actual expected }
{
    let mut tables = Tables::new();
    types::opened(page, names, &mut tables)?;
    let store = tables.store(page);
    if !is_used(store, actual) {
        return Err(Refusal::Unused);
    }
    if !is_used(store, expected) {
        return Err(Refusal::Unused);
    }
    Ok(matches_in(store, actual, expected))
}

// Whether a generic name stands in a type.
pub fn has_generic(page: &[u8], names: Option<&[u8]>, t: usize) -> Result<bool, Refusal>
    ensures { result ≡ generic_answer page.now (option_copied names.entry) t }
{
    let mut tables = Tables::new();
    types::opened(page, names, &mut tables)?;
    let store = tables.store(page);
    if store.count() <= t {
        return Err(Refusal::Unused);
    }
    Ok(bindings::has_generic(store, t))
}

// A type that was made, as a checked type.
fn of_made(made: Result<usize, Refusal>) -> Result<Checked, Refusal>
    ensures { result ≡ of_made made }
{
    made.map(Checked::Known)
}

// The const form of a checked type, which is made if it is new.
pub fn into_const(page: &mut [u8], names: Option<&[u8]>, c: Checked) -> Result<Checked, Refusal>
    ensures { (result ≡ into_const page.old (option_copied names.entry) c) × (page.new ≡ into_const_page page.old (option_copied names.entry) c) }
{
    let mut tables = Tables::new();
    types::opened(page, names, &mut tables)?;
    if !is_used(tables.store(page), c) {
        return Err(Refusal::Unused);
    }
    match c {
        Checked::Unknown => Ok(Checked::Unknown),
        Checked::Function(f) => Ok(Checked::Function(f)),
        Checked::Known(t) => {
            let mut maker = Maker {
                page,
                tables: &mut tables,
            };
            of_made(maker.const_form(t))
        }
    }
}

// A type with its generic names replaced by what they are bound to. New types are made left to right, children before parent.
pub fn substitute(
    page: &mut [u8],
    names: Option<&[u8]>,
    bound: Bindings,
    t: usize,
) -> Result<usize, Refusal>
    ensures { (result ≡ substitute_answer page.old (option_copied names.entry) bound t) × (page.new ≡ substitute_page page.old (option_copied names.entry) bound t) }
{
    let mut tables = Tables::new();
    let used = types::opened(page, names, &mut tables)?;
    let store = tables.store(page);
    let n = store.count();
    if !bindings::is_formed(bound, used, n) {
        return Err(Refusal::Broken);
    }
    if n <= t {
        return Err(Refusal::Unused);
    }
    let front = store.front();
    let end = store.place_of(n);
    let mut done = [None; TYPES];
    let mut maker = Maker {
        page,
        tables: &mut tables,
    };
    let made = bindings::substitute(&mut maker, &mut done, bound, t);
    if let Err(_) = made {
        types::take_back(page, front, end);
    }
    made
}

// A refusal, beside the bindings that came in.
fn refuse(r: Refusal, bound: Bindings) -> Unified
    ensures { result ≡ unified (Err r) bound }
{
    Unified {
        answer: Err(r),
        bindings: bound,
    }
}

// An answer with its bindings, those that came in where it is a refusal.
fn kept_by(out: Unified, bound: Bindings) -> Unified
    ensures { result ≡ kept_by out.answer out.bindings bound }
{
    let answer = out.answer;
    match answer {
        Ok(_) => out,
        Err(r) => refuse(r, bound),
    }
}

// Whether the types of an argument and a parameter, and those that names are bound to, are numbered below n.
#[tactic(auto, unfolding(crate::specs::Calls::fits_bound))]
fn fits_bound(n: usize, bound: Bindings, e: usize, actual: Checked) -> bool
    requires { bound.count ≤ bindings_max }
    ensures { result ≡ fits_bound n bound e actual }
{
    matching::fits(n, Checked::Known(e), actual) & bindings::are_below(bound, n)
}

// Whether an argument in use fits a parameter in use, over tables of M and N bytes that have room for all the types, in a frame of its own.
#[inline(never)]
fn unify_over<const M: usize, const N: usize>(
    store: Store,
    bound: Bindings,
    e: usize,
    actual: Checked,
) -> Unified
    requires e_bound { (e < types_in store.page.now) × (in_use store.page.now actual ≡ true) }
    requires usable { Usable bound (types_in store.page.now) }
    requires m_bound { (M ≤ 2 * large_bytes) × (N ≤ large_bytes) }
    requires room { (fits_bound (room M) bound e actual ≡ true) × (fits_bound (room N) bound e actual ≡ true) × HasRows 1 M × HasRows 2 N }
    ensures { result ≡ unify_arg store.entry.page.now e actual bound }
{
    let mut memo = [0; M];
    let mut seen = [0; N];
    let mut unifier = Unifier {
        matcher: Matcher {
            store,
            table: &mut memo,
        },
        seen: &mut seen,
        bindings: bound,
    };
    let answer = unifier.unify_arg(e, actual);
    Unified {
        answer,
        bindings: unifier.bindings,
    }
}

// The same over tables that have room for all the types.
fn unify_in(store: Store, bound: Bindings, e: usize, actual: Checked) -> Unified
    requires e_bound { (e < types_in store.page.now) × (in_use store.page.now actual ≡ true) }
    requires usable { Usable bound (types_in store.page.now) }
    ensures { result ≡ unify_arg store.entry.page.now e actual bound }
{
    if fits_bound(TINY, bound, e, actual) {
        unify_over::<TINY_MEMO, TINY_BYTES>(store, bound, e, actual)
    } else if fits_bound(SMALL, bound, e, actual) {
        unify_over::<SMALL_MEMO, SMALL_BYTES>(store, bound, e, actual)
    } else {
        unify_over::<LARGE_MEMO, LARGE_BYTES>(store, bound, e, actual)
    }
}

// Whether an argument fits a parameter, and what generic names it binds, where names, store and bindings are in form and the numbers in use.
fn unify_tested(
    page: &[u8],
    names: Option<&[u8]>,
    bound: Bindings,
    e: usize,
    actual: Checked,
) -> Result<Unified, Refusal>
    ensures { result ≡ answer_of (bindings_verdict page.now (option_copied names.entry) bound (ltb e (types_in page.now) && in_use page.now actual)) (unify_arg page.now e actual bound) }
{
    let mut tables = Tables::new();
    let used = types::opened(page, names, &mut tables)?;
    let store = tables.store(page);
    let n = store.count();
    if !bindings::is_formed(bound, used, n) {
        return Err(Refusal::Broken);
    }
    if n <= e {
        return Err(Refusal::Unused);
    }
    if !is_used(store, actual) {
        return Err(Refusal::Unused);
    }
    Ok(unify_in(store, bound, e, actual))
}

// Whether an argument fits a parameter, and what generic names it binds.
pub fn unify_arg(
    page: &[u8],
    names: Option<&[u8]>,
    bound: Bindings,
    e: usize,
    actual: Checked,
) -> Unified
    ensures { result ≡ unify_arg_answer page.now (option_copied names.entry) bound e actual }
{
    match unify_tested(page, names, bound, e, actual) {
        Ok(out) => kept_by(out, bound),
        Err(r) => refuse(r, bound),
    }
}

// Whether an actual type fits an expected one, and what generic names it binds.
pub fn unify(page: &[u8], names: Option<&[u8]>, bound: Bindings, e: usize, a: usize) -> Unified
    ensures { result ≡ unify_answer page.now (option_copied names.entry) bound e a }
{
    unify_arg(page, names, bound, e, Checked::Known(a))
}
