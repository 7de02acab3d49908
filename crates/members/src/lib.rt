// The members of types, and the union of several types (document 01, "Answers"; `members` in the source's binary.rs).
#![tactic(auto)]

ghost use Rattle.std.specs.Prelude.{◌≡◌, true, ◌*◌, ◌+◌, ◌≤◌, ◌<◌, length, get_or, take, drop};
ghost use Rattle.pages.specs.Bytes.{put};
ghost use Rattle.types.specs.Store.{types_max};
ghost use Rattle.types.specs.Types.{types_in};
ghost use Rattle.types.specs.Same.{Same};
ghost use Rattle.types.specs.Calls.{all_below};
ghost use Rattle.members.specs.Members.{members_max, share_of, members_of, has, merged, entered, union_of, conclude};
ghost use Rattle.members.specs.Trials.{failing_count, failed_at};
ghost use Rattle.members.specs.Leaves.{is_unary, key_of, key_in, leaf_of, Leaves};

use kinds::{ANY, CHILDREN, Kind};
use operators::{Failing, Outcome};
use refusals::Refusal;
use types::{Maker, NULL, Store};

// How many members a type has at most.
// Members and results stand in arrays of so many places beside a count: nothing is on a heap, and the crates use no library but their own
// (`tests/downwards`). One struct of both, whose model is the list of its types, took two fifths longer: 3.9 for 2.8 ms where the leaves
// of 4,096 types are filled, 7.2 for 5.1 where one is negated.
pub const MEMBERS: usize = CHILDREN * CHILDREN;

// A store with the leaf that stands for each of its types, where operators have OPERANDS operands: one or two.
// A number, as the language has no struct with a fact and a `bool` parameter.
#[derive(Clone, Copy)]
pub struct Leafed<'a, const OPERANDS: usize> {
    pub store: Store<'a>,
    leaves: &'a [u16],
    ghost filled: { ∥ Leaves (is_unary OPERANDS) store.page.now leaves.now (types_in store.page.now) ∥₁ },
}

// The type at a place.
fn member_at(types: &[u16], i: usize) -> usize
    requires { i < length types.now }
    ensures { result ≡ get_or types.now i 0 }
{
    usize::from(types[i])
}

// Writes down, from place n on, what child x of a union gives. Says where that ends.
// A loop, since `pages::read_words` would need the place and the layout of an entry, which `Store::child_of` knows, and
// `Store::children_of` makes sixteen places first, out of which the children would be copied.
fn add_share(store: Store, x: usize, types: &mut [u16], n: usize) -> usize
    requires x_bound { x < types_in store.page.now }
    requires x_in_bounds { n + length (share_of store.page.now x) ≤ length types.old }
    ensures { (result ≡ n + length (share_of store.entry.page.now x)) × (types.new ≡ put types.old n (share_of store.entry.page.now x)) }
{
    if !kinds::is_union(store.kind_of(x)) {
        types[n] = x as u16;
        return n + 1;
    }
    let k = store.arity(x);
    for i in 0..k {
        types[n + i] = store.child_of(x, i) as u16;
    }
    n + k
}

// Writes down the members of a type, and says how many they are; what stands after them is left free.
pub fn flatten(store: Store, t: usize, types: &mut [u16; MEMBERS]) -> usize
    requires { t < types_in store.page.now }
    ensures { (result ≡ length (members_of store.entry.page.now t)) × (result ≤ members_max) × (take result types.new ≡ members_of store.entry.page.now t) }
{
    if !kinds::is_union(store.kind_of(t)) {
        types[0] = t as u16;
        return 1;
    }
    let mut n = 0;
    for i in 0..store.arity(t) {
        n = add_share(store, store.child_of(t, i), types, n);
    }
    n
}

// Merges a result with the n before it, and says how many there are now; what stands after them is left free.
#[tactic(auto, using(crate::proofs::Merging::merge_there))]
pub fn merge(types: &mut [u16; MEMBERS], n: usize, t: usize) -> usize
    requires { (n < members_max) × (t < types_max) }
    ensures { (result ≤ n + 1) × (take result types.new ≡ merged t (take n types.old)) × (result ≡ length (merged t (take n types.old))) }
{
    if types[..n].contains(&(t as u16)) {
        return n;
    }
    types[n] = t as u16;
    n + 1
}

// The union of results, entered; one result stays itself.
pub fn enter_union(maker: &mut Maker, types: &[u16]) -> Result<usize, Refusal>
    requires { (0 < length types.now) × (all_below (types_in maker.old.page.now) types.now ≡ true) }
    ensures page_after { entered result maker.new.page.now ≡ union_of maker.old.page.now types.now }
    ensures same { Same maker.new maker.old }
{
    if types.len() == 1 {
        return Ok(member_at(types, 0));
    }
    if CHILDREN < types.len() {
        return Err(Refusal::Width);
    }
    maker.enter_type(ANY, types, 0)
}

// The type that was entered, without an error, or the refusal.
pub fn conclusion_of(made: Result<usize, Refusal>) -> Result<Outcome, Refusal>
    ensures { result ≡ conclude made }
{
    made.map(operators::known)
}

// The members that fail, with one more, which is tried alone or beside another: the first stays the first.
pub fn failed_at(left: usize, right: Option<usize>, failing: Option<Failing>) -> Failing
    requires { failing_count failing < members_max * members_max }
    ensures { (result ≡ failed_at left right failing) × (result.count ≡ failing_count failing + 1) }
{
    match failing {
        None => Failing {
            count: 1,
            left,
            right,
        },
        Some(first) => Failing {
            count: first.count + 1,
            ..first
        },
    }
}

// The key of a kind, where operators have that many operands.
#[tactic(auto, unfolding(crate::specs::Leaves::key_of))]
fn key_of<const OPERANDS: usize>(k: Kind) -> usize
    ensures { result ≡ key_of (is_unary OPERANDS) k }
{
    if OPERANDS == 1 {
        return operators::taker_of(k);
    }
    operators::family_of(k) as usize
}

// The key of a type that is no union.
fn key_in<const OPERANDS: usize>(store: Store, t: usize) -> usize
    requires { t < types_in store.page.now }
    ensures { result ≡ key_in (is_unary OPERANDS) store.entry.page.now t }
{
    key_of::<OPERANDS>(store.kind_of(t))
}

// The leaf that stands for a type, where the table has those of the types below.
#[tactic(auto, using(types::proofs::Types::held_by, crate::proofs::Leaves::leaf_gives, crate::proofs::Leaves::empty_gives))]
fn leaf_of<const OPERANDS: usize>(store: Store, leaves: &[u16], t: usize) -> usize
    requires t_bound { t < types_in store.page.now }
    requires leaves { Leaves (is_unary OPERANDS) store.page.now leaves.now t }
    ensures { (result ≡ leaf_of (is_unary OPERANDS) store.entry.page.now t) × (result ≤ t) }
{
    if !kinds::is_union(store.kind_of(t)) {
        return t;
    }
    let mut types = [0; MEMBERS];
    let n = flatten(store, t, &mut types);
    if n == 0 {
        return NULL;
    }
    let first = member_at(leaves, member_at(&types, 0));
    let key = key_in::<OPERANDS>(store, first);
    for x in &types[..n] {
        let leaf = member_at(leaves, usize::from(*x));
        if key_in::<OPERANDS>(store, leaf) != key {
            return NULL;
        }
    }
    first
}

// Writes down the leaves of all types from `from` on, those below being there; what stands behind them stays.
pub fn fill_leaves<const OPERANDS: usize>(store: Store, leaves: &mut [u16], from: usize)
    requires { (from ≤ types_in store.page.now) × (Leaves (is_unary OPERANDS) store.page.now leaves.old from) }
    ensures leaves { Leaves (is_unary OPERANDS) store.entry.page.now leaves.new (types_in store.entry.page.now) }
    ensures leaves_unchanged { drop (types_in store.entry.page.now) leaves.new ≡ drop (types_in store.entry.page.now) leaves.old }
{
    for t in from..store.count() {
        let leaf = leaf_of::<OPERANDS>(store, leaves, t);
        leaves[t] = leaf as u16;
    }
}

impl<'a, const OPERANDS: usize> Leafed<'a, OPERANDS> {
    // The store with the leaves that `fill_leaves` wrote down.
    pub fn new(store: Store<'a>, leaves: &'a [u16]) -> Self
        requires { Leaves (is_unary OPERANDS) store.page.now leaves.now (types_in store.page.now) }
        ensures { result.store.page.now ≡ store.entry.page.now }
    {
        Leafed { store, leaves }
    }

    // The leaf that stands for a type.
    pub fn leaf_of(self, t: usize) -> usize
        requires { t < types_in self.store.page.now }
        ensures { (result ≡ leaf_of (is_unary OPERANDS) self.entry.store.page.now t) × (result ≤ t) }
    {
        member_at(self.leaves, t)
    }
}
