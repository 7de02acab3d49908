// Indexing (document 01, "Answers"; `check_index_target` and `check_index_any` of the source's statements/mod.rs).
#![tactic(auto)]

ghost use Rattle.std.specs.Prelude.{None, ◌≡◌, true, ◌||◌, ◌+◌, ◌≤◌, ◌<◌, eqb};
ghost use Rattle.kinds.specs.Kinds.{null, is_array, is_set, is_tuple};
ghost use Rattle.types.specs.Store.{types_max};
ghost use Rattle.types.specs.Types.{types_in};
ghost use Rattle.types.specs.Same as makers;
ghost use Rattle.matching.specs.Matching.{in_use};
ghost use Rattle.marks.specs.Marks.{Noted};
ghost use Rattle.matching.specs.Memo.{Found};
ghost use Rattle.matching.specs.Same.{Same};
ghost use Rattle.operators.specs.Outcome.{number_of};
ghost use Rattle.members.specs.Members.{members_max, size_of, concluded};
ghost use Rattle.members.specs.Trials.{failing_count, joined};
ghost use Rattle.indexing.specs.Indexing.{index_target, members_tried, tried_of, index_any, check_index};

use kinds::Kind;
use matching::{Checked, Matcher};
use members::{MEMBERS, conclusion_of, enter_union, failed_at, flatten, merge};
use operators::{Errors, Failing, Outcome, Reason};
use refusals::Refusal;
use types::{Maker, NULL};

// Whether a kind's values have one sort of element: arrays and sets.
fn has_elements(k: Kind) -> bool
    ensures { result ≡ (is_array k || is_set k) }
{
    kinds::is_array(k) || kinds::is_set(k)
}

// Whether a kind indexes to Unknown: Null and tuples.
fn is_unknown(k: Kind) -> bool
    ensures { result ≡ (eqb k null || is_tuple k) }
{
    k == NULL as Kind || kinds::is_tuple(k)
}

// What indexing a Known type comes to, where unions are not indexed: a union's member that is itself one fails.
pub fn check_index_target(matcher: &mut Matcher, key: Checked, t: usize) -> Outcome
    requires { (t < types_in matcher.old.store.page.now) × (in_use matcher.old.store.page.now key ≡ true) }
    ensures value { (result ≡ index_target matcher.old.store.page.now key t) × (number_of result.checked < types_in matcher.old.store.page.now) }
    ensures same { Same matcher.new matcher.old }
{
    let store = matcher.store;
    let kind = store.kind_of(t);
    if has_elements(kind) {
        return operators::known(store.child_of(t, 0));
    }
    if kinds::is_map(kind) {
        let wanted = store.child_of(t, 0);
        let value = store.child_of(t, 1);
        if matcher.matches(key, Checked::Known(wanted)) {
            return operators::known(value);
        }
        return operators::known_with(value, Errors::One(Reason::BadKey));
    }
    if is_unknown(kind) {
        return operators::unknown(Errors::None);
    }
    operators::unknown(Errors::One(Reason::NotIndexable))
}

// The trials of members: how many results there are, and the members that fail.
#[derive(Clone, Copy)]
struct Trials {
    merged: usize,
    failing: Option<Failing>,
}

// One more trial, of member x. The results are merged.
#[tactic(auto, using(crate::proofs::Trying::joins, crate::proofs::Trying::fails, pages::proofs::Options::none_cond, std::proofs::lemmas::Option::cond_some))]
fn join(results: &mut [u16; MEMBERS], trials: Trials, o: Outcome, x: usize) -> Trials
    requires merged_lt_members_max { trials.merged < members_max }
    requires failing_lt_members_max { (failing_count trials.failing < members_max) × (number_of o.checked < types_max) }
    ensures result_after { tried_of results.new result ≡ joined x None o (tried_of results.old trials) }
    ensures merged_bound { (result.merged ≤ trials.merged + 1) × (failing_count result.failing ≤ failing_count trials.failing + 1) }
{
    let Some(t) = o.passed() else {
        return Trials {
            failing: Some(failed_at(x, None, trials.failing)),
            ..trials
        };
    };
    Trials {
        merged: merge(results, trials.merged, t),
        ..trials
    }
}

// Tries every member of a type.
fn try_members(
    matcher: &mut Matcher,
    key: Checked,
    t: usize,
    results: &mut [u16; MEMBERS],
) -> Trials
    requires t_bound { (t < types_in matcher.old.store.page.now) × (in_use matcher.old.store.page.now key ≡ true) }
    ensures result_after { tried_of results.new result ≡ members_tried matcher.old.store.page.now key t (size_of matcher.old.store.page.now t) }
    ensures merged_bound { result.merged ≤ members_max }
    ensures same { Same matcher.new matcher.old }
{
    // An array with its count beside it, as `members::MEMBERS` says.
    let mut types = [0; MEMBERS];
    let n = flatten(matcher.store, t, &mut types);
    let mut trials = Trials {
        merged: 0,
        failing: None,
    };
    for x in &types[..n] {
        let x = usize::from(*x);
        let o = check_index_target(matcher, key, x);
        trials = join(results, trials, o, x);
    }
    trials
}

// What indexing a union comes to: every member is tried. What the memo then holds was found in the store as it was given, and so is right
// in one that has grown out of it; it stands beside the maker, as a `Matcher` has a store that nobody writes.
pub fn check_index_any(
    maker: &mut Maker,
    memo: &mut [u8],
    key: Checked,
    t: usize,
) -> Result<Outcome, Refusal>
    requires t_bound { (t < types_in maker.old.page.now) × (in_use maker.old.page.now key ≡ true) }
    requires noted { Noted (Found maker.old.page.now) memo.old }
    ensures page_after { concluded result maker.new.page.now ≡ index_any maker.old.page.now key t }
    ensures noted_2 { Noted (Found maker.old.page.now) memo.new }
    ensures same { makers.Same maker.new maker.old }
{
    // An array, whose count the trials hold, as `members::MEMBERS` says.
    let mut results = [0; MEMBERS];
    let mut matcher = Matcher {
        store: maker.store(),
        table: memo,
    };
    let trials = try_members(&mut matcher, key, t, &mut results);
    if let Some(failing) = trials.failing {
        return Ok(operators::unknown(Errors::SomeFail(failing)));
    }
    if trials.merged == 0 {
        return Ok(operators::unknown(Errors::One(Reason::NoMember)));
    }
    conclusion_of(enter_union(maker, &results[..trials.merged]))
}

// What indexing a checked type comes to, for crates above (`answers::check_index` is the entry call). A refusal leaves
// the store as it was.
pub fn check_index(
    maker: &mut Maker,
    memo: &mut [u8],
    target: Checked,
    key: Checked,
) -> Result<Outcome, Refusal>
    requires target_value { (in_use maker.old.page.now target ≡ true) × (in_use maker.old.page.now key ≡ true) }
    requires noted { Noted (Found maker.old.page.now) memo.old }
    ensures page_after { concluded result maker.new.page.now ≡ check_index maker.old.page.now key target }
    ensures noted_2 { Noted (Found maker.old.page.now) memo.new }
    ensures same { makers.Same maker.new maker.old }
{
    match target {
        Checked::Unknown => Ok(operators::unknown(Errors::None)),
        Checked::Function(_) => Ok(operators::unknown(Errors::One(Reason::NotIndexable))),
        Checked::Known(t) => {
            if kinds::is_union(maker.store().kind_of(t)) {
                return check_index_any(maker, memo, key, t);
            }
            let mut matcher = Matcher {
                store: maker.store(),
                table: memo,
            };
            Ok(check_index_target(&mut matcher, key, t))
        }
    }
}
