// Bindings of generic names to types, and the types that bear such names (document 01, "Types"; types.rs of the source).
#![tactic(auto)]

ghost use Rattle.std.specs.Prelude.{◌≡◌, true, cond, ◌+◌, ◌≤◌, ◌<◌, length, get_or, set, replicate, Some, None, MatchOption};
ghost use Rattle.types.specs.Store.{types_max};
ghost use Rattle.types.specs.Types.{types_in, kind_of, Held};
ghost use Rattle.types.specs.Same.{Same};
ghost use Rattle.bindings.specs.Bindings.{bindings_max, place_in, is_bound, bound_to, with_binding, good_binding, formed, types_below};
ghost use Rattle.bindings.specs.Generics.{is_entered, has_generic, Told, substitute, Remembered, Working};

use kinds::{CALLBACK, CHILDREN, GENERIC, Kind};
use names::Symbol;
use refusals::Refusal;
use types::{Maker, Store, TYPES};

// How many names are bound at most.
pub const BINDINGS: usize = 32;

// Generic names, and the types that they are bound to: two arrays of 32 and a count by value, as document 01 has them. Callers hand in
// any count, so what reads the places asks for one of at most 32; a type for bindings in form would stand beside this one.
#[derive(Clone, Copy)]
pub struct Bindings {
    pub count: usize,
    pub names: [Symbol; BINDINGS],
    pub types: [u16; BINDINGS],
}

// The first of the first k places that has a name. It asks for places that there are: past the last one the definition reads a 0, as
// if name 0 stood there.
fn place_of(bindings: Bindings, k: usize, name: Symbol) -> Option<usize>
    requires { k ≤ bindings_max }
    ensures { MatchOption result (place_in bindings k name ≡ k) (λ i. (i < k) × (i ≡ place_in bindings k name)) }
{
    bindings.names[..k].iter().position(|n| *n == name)
}

// Whether place i has a name in use, of n, which stands in no place before it, and a type in use, of those below t.
#[tactic(auto, unfolding(crate::specs::Bindings::good_binding))]
fn is_good(bindings: Bindings, n: usize, t: usize, i: usize) -> bool
    requires { i < bindings_max }
    ensures { result ≡ good_binding n t bindings i }
{
    let name = bindings.names[i];
    place_of(bindings, i, name).is_none()
        && names::is_used(n, usize::from(name))
        && usize::from(bindings.types[i]) < t
}

// Whether bindings are in form, with n name numbers in use and the types below t.
pub fn is_formed(bindings: Bindings, n: usize, t: usize) -> bool
    ensures { result ≡ formed n t bindings }
{
    bindings.count <= BINDINGS && (0..bindings.count).all(|i| is_good(bindings, n, t, i))
}

// Whether the types that names are bound to are numbered below t.
pub fn are_below(bindings: Bindings, t: usize) -> bool
    requires { bindings.count ≤ bindings_max }
    ensures { result ≡ types_below bindings t }
{
    bindings.types[..bindings.count]
        .iter()
        .all(|x| usize::from(*x) < t)
}

// The type that a name is bound to, if it is bound.
#[tactic(auto, unfolding(crate::specs::Bindings::is_bound, crate::specs::Bindings::bound_to))]
pub fn bound_to(bindings: Bindings, name: Symbol) -> Option<usize>
    requires { bindings.count ≤ bindings_max }
    ensures { result ≡ cond (is_bound bindings name) (Some (bound_to bindings name)) None }
{
    let i = place_of(bindings, bindings.count, name)?;
    Some(usize::from(bindings.types[i]))
}

// Bindings with one more.
#[tactic(auto, unfolding(crate::specs::Bindings::with_binding))]
pub fn with_binding(bindings: Bindings, name: Symbol, t: usize) -> Bindings
    requires { (bindings.count < bindings_max) × (t < types_max) }
    ensures { result ≡ with_binding bindings name t }
{
    let count = bindings.count;
    let mut names = bindings.names;
    let mut types = bindings.types;
    names[count] = name;
    types[count] = t as u16;
    Bindings {
        count: count + 1,
        names,
        types,
    }
}

// Whether the children of a kind are entered.
pub fn is_entered(k: Kind) -> bool
    ensures { result ≡ is_entered k }
{
    kinds::is_built(k) | (k == CALLBACK)
}

// Whether a generic name stands in a type, where found says it of every lower one.
fn generic_in(store: Store, found: &[bool], t: usize) -> bool
    requires { (t < types_in store.page.now) × (t ≤ length found.now) × Told store.page.now found.now t }
    ensures { result ≡ has_generic store.entry.page.now t }
{
    let kind = store.kind_of(t);
    if kind == GENERIC {
        return true;
    }
    if !is_entered(kind) {
        return false;
    }
    (0..store.arity(t)).any(|i| found[store.child_of(t, i)])
}

// Whether a generic name stands in a type, outside every union in it (`checked::has_generic` tests the store and the number). Types
// are looked at from the lowest number up, each once.
pub fn has_generic(store: Store, t: usize) -> bool
    requires { t < types_in store.page.now }
    ensures { result ≡ has_generic store.entry.page.now t }
{
    let mut found = [false; TYPES];
    for i in 0..t {
        found[i] = generic_in(store, &found, i);
    }
    generic_in(store, &found, t)
}

// A type with its generic names replaced (`checked::substitute` tests store, number and bindings, and restores the store on a
// refusal). Each type is substituted once.
#[cycle(rebuild_substitute)]
pub fn substitute(
    maker: &mut Maker,
    done: &mut [Option<u16>],
    bindings: Bindings,
    t: usize,
) -> Result<usize, Refusal>
    requires { Working bindings maker.old.page.now done.old t }
    ensures value { (result ≡ (substitute bindings t maker.old.page.now).made) × (maker.new.page.now ≡ (substitute bindings t maker.old.page.now).store) }
    ensures remembered { Remembered bindings maker.new.page.now done.new }
    ensures same { Same maker.new maker.old }
{
    let store = maker.store();
    let kind = store.kind_of(t);
    if kind == GENERIC {
        return Ok(bound_to(bindings, store.name_of(t)).unwrap_or(t));
    }
    if !is_entered(kind) {
        return Ok(t);
    }
    if let Some(r) = done[t] {
        return Ok(usize::from(r));
    }
    let r = rebuild(maker, done, bindings, t)?;
    done[t] = Some(r as u16);
    Ok(r)
}

// A type of a kind that is entered, made anew over its children, left to right.
#[cycle(rebuild_substitute)]
fn rebuild(
    maker: &mut Maker,
    done: &mut [Option<u16>],
    bindings: Bindings,
    t: usize,
) -> Result<usize, Refusal>
    requires working { Working bindings maker.old.page.now done.old t }
    requires t_value { is_entered (kind_of maker.old.page.now t) ≡ true }
    ensures value { (result ≡ (substitute bindings t maker.old.page.now).made) × (maker.new.page.now ≡ (substitute bindings t maker.old.page.now).store) }
    ensures remembered { Remembered bindings maker.new.page.now done.new }
    ensures same { Same maker.new maker.old }
{
    let store = maker.store();
    let kind = store.kind_of(t);
    let n = store.arity(t);
    // An array of which the first n places are filled: nothing is on a heap, and the crates use no library but their own.
    let mut kids = [0; CHILDREN];
    for i in 0..n {
        let child = maker.store().child_of(t, i);
        let r = substitute(maker, done, bindings, child)?;
        kids[i] = r as u16;
    }
    maker.enter_type(kind, &kids[..n], 0)
}
