// Binary operators on types, unions included (document 01, "Answers"; binary.rs of the source, whose names the functions have).
#![tactic(auto)]

ghost use Rattle.std.specs.Prelude.{Some, ◌≡◌, true, ◌*◌, ◌+◌, ◌≤◌, ◌<◌};
ghost use Rattle.types.specs.Types.{types_in};
ghost use Rattle.matching.specs.Matching.{in_use};
ghost use Rattle.operators.specs.Outcome.{number_of};
ghost use Rattle.members.specs.Members.{members_max};
ghost use Rattle.members.specs.Trials.{failing_count, Tried, joined};
ghost use Rattle.binary.specs.Binary.{family_in, either, binary_known, binary_any, beside_function, check_binary};
ghost use Rattle.binary.specs.Tally.{tally_of, settle_tally};

use kinds::Kind;
use matching::Checked;
use members::{Leafed, MEMBERS, failed_at, flatten};
use operators::{Errors, Failing, NO_FAMILY, Outcome, Reason};
use types::Store;

// The trials of pairs: the first result, and the pairs that fail. Of several results no more is kept, as all are one where no pair fails;
// those of `indexing` differ, and are merged.
#[derive(Clone, Copy, Default)]
struct Tally {
    first: Option<usize>,
    failing: Option<Failing>,
}

// One more trial, of the members x and y.
fn join(tally: Tally, o: Outcome, x: usize, y: usize) -> Tally
    requires { failing_count tally.failing < members_max * members_max }
    ensures { ((q : Tried) → tally ≡ tally_of q → result ≡ tally_of (joined x (Some y) o q)) × (failing_count result.failing ≤ failing_count tally.failing + 1) }
{
    match o.passed() {
        Some(t) => Tally {
            first: tally.first.or(Some(t)),
            ..tally
        },
        None => Tally {
            failing: Some(failed_at(x, Some(y), tally.failing)),
            ..tally
        },
    }
}

// What the trials come to.
#[tactic(auto, unfolding(crate::specs::Tally::settle_tally))]
fn settle(tally: Tally) -> Outcome
    ensures { result ≡ settle_tally tally }
{
    match (tally.failing, tally.first) {
        (Some(failing), _) => operators::unknown(Errors::SomeFail(failing)),
        (None, Some(t)) => operators::known(t),
        (None, None) => operators::unknown(Errors::One(Reason::NoMember)),
    }
}

// The family of a type.
fn family_in(store: Store, t: usize) -> Kind
    requires { t < types_in store.page.now }
    ensures { result ≡ family_in store.entry.page.now t }
{
    operators::family_of(store.kind_of(t))
}

// Whether one of two types is a union.
fn is_either(store: Store, l: usize, r: usize) -> bool
    requires { (l < types_in store.page.now) × (r < types_in store.page.now) }
    ensures { result ≡ either store.entry.page.now l r }
{
    kinds::is_union(store.kind_of(l)) || kinds::is_union(store.kind_of(r))
}

// A Function beside a type: a union's members have no partner.
#[tactic(auto, unfolding(crate::specs::Binary::beside_function))]
fn beside_function(store: Store, t: usize, plain: Outcome) -> Outcome
    requires { t < types_in store.page.now }
    ensures { result ≡ beside_function store.entry.page.now t plain }
{
    if kinds::is_union(store.kind_of(t)) {
        return operators::unknown(Errors::One(Reason::NoMember));
    }
    plain
}

// A binary operator and a store to check it over. That the operands' units clash is a finding of the caller's, as their units are no
// part of the store.
#[derive(Clone, Copy)]
pub struct Check<'a> {
    pub leafed: Leafed<'a, 2>,
    pub op: usize,
    pub clash: bool,
}

impl Check<'_> {
    // The check on two Known types. It answers a fixed type, whose number fits a byte.
    #[cycle(check_binary_any_check_binary_operator)]
    pub fn check_binary_operator(self, l: usize, r: usize) -> Outcome
        requires { (l < types_in self.leafed.store.page.now) × (r < types_in self.leafed.store.page.now) }
        ensures { (result ≡ binary_known self.entry.leafed.store.page.now self.entry.op self.entry.clash l r) × (number_of result.checked < 256) }
    {
        let store = self.leafed.store;
        if is_either(store, l, r) {
            return self.check_binary_any(l, r);
        }
        operators::plain_binary(
            self.op,
            self.clash,
            family_in(store, l),
            family_in(store, r),
        )
    }

    // Every pair of members is tried in turn, a member that is a union as the leaf that stands for it. In a frame of its own, so that the check
    // of two plain types, of which a call may make 65,536, does not set up this one's.
    #[cycle(check_binary_any_check_binary_operator)]
    #[inline(never)]
    pub fn check_binary_any(self, l: usize, r: usize) -> Outcome
        requires l_bound { (l < types_in self.leafed.store.page.now) × (r < types_in self.leafed.store.page.now) }
        requires r_value { either self.leafed.store.page.now l r ≡ true }
        ensures { (result ≡ binary_any self.entry.leafed.store.page.now self.entry.op self.entry.clash l r) × (number_of result.checked < 256) }
    {
        let mut lefts = [0; MEMBERS];
        let mut rights = [0; MEMBERS];
        let store = self.leafed.store;
        let m = flatten(store, l, &mut lefts);
        let n = flatten(store, r, &mut rights);
        let mut tally = Tally::default();
        for x in &lefts[..m] {
            let x = usize::from(*x);
            let p = self.leafed.leaf_of(x);
            for y in &rights[..n] {
                let y = usize::from(*y);
                let q = self.leafed.leaf_of(y);
                let o = self.check_binary_operator(p, q);
                tally = join(tally, o, x, y);
            }
        }
        settle(tally)
    }

    // The check on a Known type and another operand.
    #[tactic(auto, using(matching::proofs::Matching::known_in_use), unfolding(crate::specs::Binary::check_binary))]
    fn check_known(self, l: usize, right: Checked) -> Outcome
        requires { (l < types_in self.leafed.store.page.now) × (in_use self.leafed.store.page.now right ≡ true) }
        ensures { result ≡ check_binary self.entry.leafed.store.page.now self.entry.op self.entry.clash (Checked.Known l) right }
    {
        match right {
            Checked::Unknown => operators::unknown(Errors::None),
            Checked::Known(r) => self.check_binary_operator(l, r),
            Checked::Function(_) => {
                let store = self.leafed.store;
                let f = family_in(store, l);
                let plain = operators::plain_binary(self.op, self.clash, f, NO_FAMILY);
                beside_function(store, l, plain)
            }
        }
    }

    // The check on a Function and another operand.
    #[tactic(auto, using(matching::proofs::Matching::known_in_use), unfolding(crate::specs::Binary::check_binary))]
    fn check_function(self, right: Checked) -> Outcome
        requires { in_use self.leafed.store.page.now right ≡ true }
        ensures { result ≡ check_binary self.entry.leafed.store.page.now self.entry.op self.entry.clash (Checked.Function 0) right }
    {
        match right {
            Checked::Unknown => operators::unknown(Errors::None),
            Checked::Known(r) => {
                let store = self.leafed.store;
                let g = family_in(store, r);
                let plain = operators::plain_binary(self.op, self.clash, NO_FAMILY, g);
                beside_function(store, r, plain)
            }
            Checked::Function(_) => {
                operators::plain_binary(self.op, self.clash, NO_FAMILY, NO_FAMILY)
            }
        }
    }

    // The check on checked types, for crates above (`answers::check_binary_operator` is the entry call).
    #[tactic(auto, using(matching::proofs::Matching::known_in_use), unfolding(crate::specs::Binary::check_binary))]
    pub fn check_binary(self, left: Checked, right: Checked) -> Outcome
        requires { (in_use self.leafed.store.page.now left ≡ true) × (in_use self.leafed.store.page.now right ≡ true) }
        ensures { result ≡ check_binary self.entry.leafed.store.page.now self.entry.op self.entry.clash left right }
    {
        match left {
            Checked::Unknown => operators::unknown(Errors::None),
            Checked::Known(l) => self.check_known(l, right),
            Checked::Function(_) => self.check_function(right),
        }
    }
}
