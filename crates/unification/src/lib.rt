// Fitting an actual type to an expected one that may bear generic names (document 01, "Types"; `unify` and `unify_arg` of the
// source's types.rs). `checked` has the calls that test store, numbers and bindings.
#![tactic(auto)]

ghost use Rattle.std.specs.Prelude.{◌≡◌, true, ◌&&◌, ◌<◌, replicate};
ghost use Rattle.types.specs.Store.{types_max};
ghost use Rattle.kinds.specs.Kinds.{is_array};
ghost use Rattle.types.specs.Types.{types_in, Held};
ghost use Rattle.matching.specs.Matching.{both, in_use};
ghost use Rattle.marks.specs.Marks.{is_marked, marking, Noted};
ghost use Rattle.matching.specs.Memo.{Found};
ghost use Rattle.unification.specs.Unification.{unified, generic_unify, is_adopted, is_alike, all_pairs, unify, unify_arg, Settled, seen_row, seen_column, SettledAt, Given};

use bindings::{BINDINGS, Bindings};
use kinds::{CALLBACK, GENERIC, Kind};
use matching::{Checked, Matcher};
use names::Symbol;
use refusals::Refusal;
use types::{NULL, Store};

// An answer, and the bindings beside it, those of a refusal too: document 01 has them handed in and back by value.
#[derive(Clone, Copy)]
pub struct Unified {
    pub answer: Result<bool, Refusal>,
    pub bindings: Bindings,
}

// The store and what matching has found in it, the pairs of which it was found that they fit, and what generic names are bound to.
#[derive(Drop)]
pub struct Unifier<'a, 'b> {
    pub matcher: Matcher<'a>,
    pub seen: &'b mut [u8],
    pub bindings: Bindings,
    pub ghost given: { ∥ Given bindings (types_in matcher.store.page.now) ∥₁ },
    pub ghost settled: { ∥ Noted (SettledAt matcher.store.page.now bindings) seen.now ∥₁ },
}

// The column of a pair; two expected types share a row.
fn column_of(e: usize, a: usize) -> usize
    requires { a < types_max }
    ensures { result ≡ seen_column e a }
{
    2 * a + e % 2
}

// Whether two kinds are both arrays, sets, results, maps or tuples.
#[tactic(auto, unfolding(crate::specs::Unification::is_alike))]
fn are_alike(k: Kind, m: Kind) -> bool
    ensures { result ≡ is_alike k m }
{
    kinds::is_array(k) && kinds::is_array(m)
        || kinds::is_set(k) && kinds::is_set(m)
        || kinds::is_result(k) && kinds::is_result(m)
        || kinds::is_map(k) && kinds::is_map(m)
        || kinds::is_tuple(k) && kinds::is_tuple(m)
}

// Whether two types are both arrays. A function of its own for the reason beside `are_sequences` of matching.
fn are_arrays(store: Store, e: usize, a: usize) -> bool
    requires { (e < types_in store.page.now) × (a < types_in store.page.now) }
    ensures { result ≡ both is_array store.entry.page.now e a }
{
    kinds::is_array(store.kind_of(e)) & kinds::is_array(store.kind_of(a))
}

// Whether an array is taken as it is: one of no element, or of Int where Byte is expected.
#[tactic(auto, using(crate::proofs::Unification::one_element, types::proofs::Types::held_by), unfolding(crate::specs::Unification::is_adopted))]
fn is_adopted(store: Store, e: usize, a: usize) -> bool
    requires { (e < types_in store.page.now) × (a < types_in store.page.now) }
    ensures { result ≡ (both is_array store.entry.page.now e a && is_adopted store.entry.page.now e a) }
{
    if !are_arrays(store, e, a) {
        return false;
    }
    let element = store.child_of(a, 0);
    element == NULL
        || kinds::is_byte(store.kind_of(store.child_of(e, 0)))
            && kinds::is_int(store.kind_of(element))
}

impl Unifier<'_, '_> {
    ghost use Rattle.unification.specs.Same.{Same};

    // Whether a pair was answered yes before.
    fn is_settled(&self, e: usize, a: usize) -> bool
        requires { (e < types_max) × (a < types_max) }
        ensures { result ≡ is_marked self.now.seen.now (seen_row e) (seen_column e a) }
    {
        marks::is_marked(self.seen, e / 2, column_of(e, a))
    }

    // Keeps in mind that a pair was answered yes.
    fn settle(&mut self, e: usize, a: usize)
        requires small { (e < types_max) × (a < types_max) }
        requires fits { Settled self.old.matcher.store.page.now self.old.bindings e a }
        ensures value { self.new.bindings ≡ self.old.bindings }
        ensures marked { self.new.seen.now ≡ marking self.old.seen.now (seen_row e) (seen_column e a) }
        ensures same { Same self.new self.old }
    {
        marks::mark(self.seen, e / 2, column_of(e, a));
    }

    // An expected generic name: what it is bound to must match, and an unbound one is bound. In a frame of its own, so that a level of the walk
    // takes less.
    #[inline(never)]
    fn unify_generic(&mut self, name: Symbol, a: usize) -> Result<bool, Refusal>
        requires { a < types_in self.old.matcher.store.page.now }
        ensures value { unified result self.new.bindings ≡ generic_unify self.old.matcher.store.page.now name a self.old.bindings }
        ensures same { Same self.new self.old }
    {
        if let Some(bound) = bindings::bound_to(self.bindings, name) {
            let (wanted, given) = (Checked::Known(bound), Checked::Known(a));
            return Ok(self.matcher.matches(wanted, given));
        }
        if self.bindings.count < BINDINGS {
            self.bindings = bindings::with_binding(self.bindings, name, a);
            return Ok(true);
        }
        Err(Refusal::Full)
    }

    // Whether an actual type fits an expected one, and what generic names it binds on the way.
    #[cycle(unify_unify_children)]
    pub fn unify(&mut self, e: usize, a: usize) -> Result<bool, Refusal>
        requires { (e < types_in self.old.matcher.store.page.now) × (a < types_in self.old.matcher.store.page.now) }
        ensures value { unified result self.new.bindings ≡ unify self.old.matcher.store.page.now e a self.old.bindings }
        ensures same { Same self.new self.old }
    {
        let store = self.matcher.store;
        let kind = store.kind_of(e);
        if kind == GENERIC {
            return self.unify_generic(store.name_of(e), a);
        }
        if is_adopted(store, e, a) {
            return Ok(true);
        }
        if !are_alike(kind, store.kind_of(a)) {
            return Ok(self.matcher.matches(Checked::Known(e), Checked::Known(a)));
        }
        if self.is_settled(e, a) {
            return Ok(true);
        }
        let fits = self.unify_children(e, a)?;
        if fits {
            self.settle(e, a);
        }
        Ok(fits)
    }

    // Whether two types have as many children, and each fits, left to right.
    #[cycle(unify_unify_children)]
    fn unify_children(&mut self, e: usize, a: usize) -> Result<bool, Refusal>
        requires { (e < types_in self.old.matcher.store.page.now) × (a < types_in self.old.matcher.store.page.now) }
        ensures value { unified result self.new.bindings ≡ all_pairs (unify self.old.matcher.store.page.now) self.old.matcher.store.page.now e a self.old.bindings }
        ensures same { Same self.new self.old }
    {
        let store = self.matcher.store;
        let n = store.arity(e);
        if n != store.arity(a) {
            return Ok(false);
        }
        for i in 0..n {
            if !self.unify(store.child_of(e, i), store.child_of(a, i))? {
                return Ok(false);
            }
        }
        Ok(true)
    }

    // Whether an argument fits a parameter: everything takes Unknown, and a Callback a Function by its parameters and return.
    pub fn unify_arg(&mut self, e: usize, actual: Checked) -> Result<bool, Refusal>
        requires { (e < types_in self.old.matcher.store.page.now) × (in_use self.old.matcher.store.page.now actual ≡ true) }
        ensures value { unified result self.new.bindings ≡ unify_arg self.old.matcher.store.page.now e actual self.old.bindings }
        ensures same { Same self.new self.old }
    {
        if let Checked::Known(a) = actual {
            return self.unify(e, a);
        }
        let Checked::Function(f) = actual else {
            return Ok(true);
        };
        if self.matcher.store.kind_of(e) == CALLBACK {
            return self.unify_children(e, f);
        }
        Ok(self.matcher.matches(actual, Checked::Known(e)))
    }
}
