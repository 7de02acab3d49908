// Answers of operators and indexing: a checked type, a unit or none, and errors in order (document 01, "Answers"; `CheckedExpr` of
// the source's structs.rs).
#![tactic(auto)]

ghost use Rattle.std.specs.Prelude.{◌≡◌, true, false, ◌*◌, ◌≤◌, ◌<◌, option_copied};
ghost use Rattle.refusals.specs.Lowest.{lowest};
ghost use Rattle.types.specs.Types.{types_in};
ghost use Rattle.types.specs.Same.{Same};
ghost use Rattle.matching.specs.Matching.{in_use};
ghost use Rattle.marks.specs.Marks.{large_bytes, room, HasRows, Noted};
ghost use Rattle.matching.specs.Memo.{fits, Found};
ghost use Rattle.units.specs.Calls.{unitless};
ghost use Rattle.groups.specs.Groups.{walk};
ghost use Rattle.operators.specs.Operators.{is_operator};
ghost use Rattle.operators.specs.Outcome.{number_of};
ghost use Rattle.members.specs.Leaves.{Leaves};
ghost use Rattle.unary.specs.Unary.{check_unary};
ghost use Rattle.indexing.specs.Indexing.{check_index};
ghost use Rattle.answers.specs.Units.{clashes, adopted_by, or_none, combined, binary_unit};
ghost use Rattle.answers.specs.Calls.{operand_used, operand_formed, operand_conditions, answered, with_unit, concluded_by, store_after, unary_unit, unary_checked, binary_checked, binary_answer, unary_answer, unary_page, index_answer, index_page};

use binary::Check;
use groups::Groups;
use marks::{SMALL, TINY};
use matching::{Checked, LARGE_MEMO, SMALL_MEMO, TINY_MEMO};
use members::Leafed;
use operators::{Errors, MINUS, Outcome, UnitRule};
use refusals::Refusal;
use types::{Maker, Store, TYPES, Tables};
use units::Unit;

// An operand: a checked type, and a unit or none.
#[derive(Clone, Copy, Debug, PartialEq, Eq)]
pub struct CheckedExpr {
    pub checked: Checked,
    pub unit: Option<Unit>,
}

// What a call answers: a checked type, a unit or none, and errors. Document 01 lists these three; the first two are an operand's.
#[derive(Clone, Copy, Debug, PartialEq, Eq)]
pub struct Answered {
    pub checked: Checked,
    pub unit: Option<Unit>,
    pub errors: Errors,
}

// What a check came to, with a unit or none.
fn answer(o: Outcome, unit: Option<Unit>) -> Answered
    ensures { result ≡ answered o unit }
{
    Answered {
        checked: o.checked,
        unit,
        errors: o.errors,
    }
}

// Whether there is no unit, or the empty one: of a unit in form, which `units::is_dimensionless` would test again.
#[tactic(auto, using(units::proofs::Form::length_terms), unfolding(units::specs::Calls::unitless))]
fn is_dimensionless(m: Option<Unit>) -> bool
    ensures { result ≡ unitless m }
{
    m.is_none_or(|u| u.count == 0)
}

// Whether two operands' units clash: `add_unit_mismatch` of the source.
fn add_unit_mismatch(groups: Groups, left: CheckedExpr, right: CheckedExpr) -> bool
    requires { (operand_formed left ≡ true) × (operand_formed right ≡ true) }
    ensures { result ≡ clashes (walk groups.entry.steps groups.entry.parents.now) left.unit right.unit }
{
    if is_dimensionless(left.unit) {
        return false;
    }
    if is_dimensionless(right.unit) {
        return false;
    }
    let a = sums::or_empty(left.unit);
    let b = sums::or_empty(right.unit);
    !sums::convertible(groups, a, b)
}

// The unit of a sum: a unitless side adopts the other's.
#[tactic(auto, unfolding(crate::specs::Units::adopted_by))]
fn adopt(left: Option<Unit>, right: Option<Unit>) -> Option<Unit>
    ensures { result ≡ adopted_by left right }
{
    if !is_dimensionless(left) {
        return left;
    }
    if !is_dimensionless(right) {
        return right;
    }
    None
}

// A unit that has a symbol, else none.
fn or_none(u: Unit) -> Option<Unit>
    ensures { result ≡ or_none u }
{
    if u.count == 0 { None } else { Some(u) }
}

// The unit of a product or quotient: `combine_units` of the source.
#[tactic(auto, unfolding(crate::specs::Units::combined))]
fn combine_units(
    quotient: bool,
    left: Option<Unit>,
    right: Option<Unit>,
) -> Result<Option<Unit>, Refusal>
    ensures { result ≡ combined quotient left right }
{
    units::product(sums::or_empty(left), sums::or_empty(right), quotient).map(or_none)
}

// The unit of a binary operator's answer, where its check passes.
#[tactic(auto, unfolding(crate::specs::Units::binary_unit))]
fn binary_unit(op: usize, left: Option<Unit>, right: Option<Unit>) -> Result<Option<Unit>, Refusal>
    ensures { result ≡ binary_unit op left right }
{
    match operators::row_of(op).unit {
        UnitRule::Multiplied => combine_units(false, left, right),
        UnitRule::Divided => combine_units(true, left, right),
        UnitRule::Adopted => Ok(adopt(left, right)),
        UnitRule::Ignored | UnitRule::Compared => Ok(None),
    }
}

// What a binary operator answers.
#[tactic(auto, unfolding(crate::specs::Calls::with_unit))]
fn with_unit(o: Outcome, u: Result<Option<Unit>, Refusal>) -> Result<Answered, Refusal>
    ensures { result ≡ with_unit o u }
{
    if o.passed().is_none() {
        return Ok(answer(o, None));
    }
    Ok(answer(o, u?))
}

// Whether an operand's type and its unit's symbols, of n numbers, are in use.
#[tactic(auto, unfolding(crate::specs::Calls::operand_used))]
fn is_used(store: Store, n: usize, x: CheckedExpr) -> bool
    ensures { result ≡ operand_used store.entry.page.now n x }
{
    checked::is_used(store, x.checked) && units::is_used(sums::or_empty(x.unit), n)
}

// Whether an operand's unit is in form.
fn is_formed(x: CheckedExpr) -> bool
    ensures { result ≡ operand_formed x }
{
    units::is_formed(sums::or_empty(x.unit))
}

// Why two operands are refused, if they are, where n numbers are in use.
pub fn operands_verdict(
    store: Store,
    n: usize,
    left: CheckedExpr,
    right: CheckedExpr,
) -> Result<(), Refusal>
    ensures { result ≡ lowest (operand_conditions store.entry.page.now n left right) }
{
    if !is_used(store, n, left) {
        return Err(Refusal::Unused);
    }
    if !is_used(store, n, right) {
        return Err(Refusal::Unused);
    }
    if !is_formed(left) {
        return Err(Refusal::BadUnit);
    }
    if !is_formed(right) {
        return Err(Refusal::BadUnit);
    }
    Ok(())
}

// What a binary operator answers for two operands in use, by the groups of symbols and the leaves of types, for crates above
// (`check_binary_operator` is the entry call, and tests the forms).
pub fn binary_checked(
    leafed: Leafed<'_, 2>,
    groups: Groups,
    op: usize,
    left: CheckedExpr,
    right: CheckedExpr,
) -> Result<Answered, Refusal>
    requires left_used { (in_use leafed.store.page.now left.checked ≡ true) × (in_use leafed.store.page.now right.checked ≡ true) }
    requires left_value { (operand_formed left ≡ true) × (operand_formed right ≡ true) }
    ensures { result ≡ binary_checked leafed.entry.store.page.now (walk groups.entry.steps groups.entry.parents.now) op left right }
{
    let clash = add_unit_mismatch(groups, left, right);
    let l = left.checked;
    let r = right.checked;
    let check = Check { leafed, op, clash };
    let o = check.check_binary(l, r);
    with_unit(o, binary_unit(op, left.unit, right.unit))
}

// What a binary operator answers for two operands, over a store of types and a table of pairs.
pub fn check_binary_operator(
    page: &[u8],
    names: Option<&[u8]>,
    table: &[u8],
    op: usize,
    left: CheckedExpr,
    right: CheckedExpr,
) -> Result<Answered, Refusal>
    ensures { result ≡ binary_answer page.now (option_copied names.entry) table.now op left right }
{
    if !operators::is_operator(op) {
        return Err(Refusal::Undefined);
    }
    let mut tables = Tables::new();
    let n = types::opened(page, names, &mut tables)?;
    pairs::form_verdict(table, n)?;
    let store = tables.store(page);
    operands_verdict(store, n, left, right)?;
    let mut leaves = [0; TYPES];
    members::fill_leaves::<2>(store, &mut leaves, 0);
    let parents = pairs::parents_of(table);
    let groups = Groups {
        parents: &parents,
        steps: pages::count(table),
    };
    let leafed = Leafed::new(store, &leaves);
    binary_checked(leafed, groups, op, left, right)
}

// The unit of an operator's answer on one operand with that unit: − keeps it, unless its answer is a union.
#[tactic(auto, unfolding(crate::specs::Calls::unary_unit, crate::specs::Units::negation_unit))]
fn unary_unit(store: Store, op: usize, outcome: Outcome, unit: Option<Unit>) -> Option<Unit>
    requires { number_of outcome.checked < types_in store.page.now }
    ensures { result ≡ unary_unit store.entry.page.now op outcome unit }
{
    if op != MINUS {
        return None;
    }
    let t = outcome.passed()?;
    if kinds::is_union(store.kind_of(t)) {
        return None;
    }
    unit
}

// What a check that is not refused answers, and the leaves of the types from n on, which it entered.
fn unary_answer(
    store: Store,
    leaves: &mut [u16],
    n: usize,
    op: usize,
    outcome: Outcome,
    unit: Option<Unit>,
) -> Answered
    requires n_bound { (n ≤ types_in store.page.now) × Leaves true store.page.now leaves.old n }
    requires checked_bound { number_of outcome.checked < types_in store.page.now }
    ensures value { result ≡ answered outcome (unary_unit store.entry.page.now op outcome unit) }
    ensures leaves { Leaves true store.entry.page.now leaves.new (types_in store.entry.page.now) }
{
    members::fill_leaves::<1>(store, leaves, n);
    answer(outcome, unary_unit(store, op, outcome, unit))
}

// What an operator answers for one operand in use; a union that it answers enters the store. The leaves stay right for the store that it
// leaves; they stand beside it, as a `Leafed` has a store that nobody writes. For crates above (`check_unary_operator` is the entry call,
// and tests the forms).
pub fn unary_checked(
    maker: &mut Maker,
    leaves: &mut [u16],
    op: usize,
    x: CheckedExpr,
) -> Result<Answered, Refusal>
    requires leaves { Leaves true maker.old.page.now leaves.old (types_in maker.old.page.now) }
    requires op_value { (is_operator op ≡ true) × (in_use maker.old.page.now x.checked ≡ true) }
    ensures value { result ≡ unary_checked (check_unary maker.old.page.now op x.checked) op x.unit }
    ensures page_after { maker.new.page.now ≡ store_after (check_unary maker.old.page.now op x.checked) maker.old.page.now }
    ensures leaves_2 { Leaves true maker.new.page.now leaves.new (types_in maker.new.page.now) }
    ensures same { Same maker.new maker.old }
{
    let store = maker.store();
    let front = store.front();
    let n = store.count();
    let end = store.place_of(n);
    let conclusion = unary::check_unary(maker, leaves, op, x.checked);
    match conclusion {
        Ok(o) => Ok(unary_answer(maker.store(), leaves, n, op, o, x.unit)),
        Err(r) => {
            types::take_back(maker.page, front, end);
            Err(r)
        }
    }
}

// What an operator answers for one operand, over a store of types.
pub fn check_unary_operator(
    page: &mut [u8],
    names: Option<&[u8]>,
    op: usize,
    x: CheckedExpr,
) -> Result<Answered, Refusal>
    ensures { (result ≡ unary_answer page.old (option_copied names.entry) op x) × (page.new ≡ unary_page page.old (option_copied names.entry) op x) }
{
    if !operators::is_operator(op) {
        return Err(Refusal::Undefined);
    }
    let mut tables = Tables::new();
    let n = types::opened(page, names, &mut tables)?;
    let store = tables.store(page);
    operands_verdict(store, n, x, x)?;
    let mut leaves = [0; TYPES];
    members::fill_leaves::<1>(store, &mut leaves, 0);
    let mut maker = Maker {
        page,
        tables: &mut tables,
    };
    unary_checked(&mut maker, &mut leaves, op, x)
}

// What indexing a target in use by a key in use answers; a union that it answers enters the store. What matching has found is right for
// the store as it was given, and so for the one that it leaves. For crates above (`check_index` is the entry call, and tests the forms).
pub fn index_checked(
    maker: &mut Maker,
    memo: &mut [u8],
    target: CheckedExpr,
    key: Checked,
) -> Result<Answered, Refusal>
    requires checked_value { (in_use maker.old.page.now target.checked ≡ true) × (in_use maker.old.page.now key ≡ true) }
    requires noted { Noted (Found maker.old.page.now) memo.old }
    ensures value { result ≡ concluded_by (check_index maker.old.page.now key target.checked).conclusion target.unit }
    ensures page_after { maker.new.page.now ≡ store_after (check_index maker.old.page.now key target.checked) maker.old.page.now }
    ensures noted_2 { Noted (Found maker.old.page.now) memo.new }
    ensures same { Same maker.new maker.old }
{
    let c = target.checked;
    let o = indexing::check_index(maker, memo, c, key)?;
    Ok(answer(o, target.unit))
}

// The same, over a table of N bytes of what matching has found that has room for both types, in a frame of its own.
#[inline(never)]
fn index_over<const N: usize>(
    maker: &mut Maker,
    target: CheckedExpr,
    key: Checked,
) -> Result<Answered, Refusal>
    requires checked_value { (in_use maker.old.page.now target.checked ≡ true) × (in_use maker.old.page.now key ≡ true) }
    requires n_bound { N ≤ 2 * large_bytes }
    requires room { (fits (room N) target.checked key ≡ true) × HasRows 1 N }
    ensures value { result ≡ concluded_by (check_index maker.old.page.now key target.checked).conclusion target.unit }
    ensures page_after { maker.new.page.now ≡ store_after (check_index maker.old.page.now key target.checked) maker.old.page.now }
    ensures same { Same maker.new maker.old }
{
    let mut memo = [0; N];
    index_checked(maker, &mut memo, target, key)
}

// The same, over a table that has room for both types.
fn index_in(maker: &mut Maker, target: CheckedExpr, key: Checked) -> Result<Answered, Refusal>
    requires { (in_use maker.old.page.now target.checked ≡ true) × (in_use maker.old.page.now key ≡ true) }
    ensures value { result ≡ concluded_by (check_index maker.old.page.now key target.checked).conclusion target.unit }
    ensures page_after { maker.new.page.now ≡ store_after (check_index maker.old.page.now key target.checked) maker.old.page.now }
    ensures same { Same maker.new maker.old }
{
    let c = target.checked;
    if matching::fits(TINY, c, key) {
        index_over::<TINY_MEMO>(maker, target, key)
    } else if matching::fits(SMALL, c, key) {
        index_over::<SMALL_MEMO>(maker, target, key)
    } else {
        index_over::<LARGE_MEMO>(maker, target, key)
    }
}

// What indexing a target by a key answers, over a store of types.
pub fn check_index(
    page: &mut [u8],
    names: Option<&[u8]>,
    target: CheckedExpr,
    key: Checked,
) -> Result<Answered, Refusal>
    ensures { (result ≡ index_answer page.old (option_copied names.entry) target key) × (page.new ≡ index_page page.old (option_copied names.entry) target key) }
{
    let mut tables = Tables::new();
    let n = types::opened(page, names, &mut tables)?;
    let keyed = CheckedExpr {
        checked: key,
        unit: None,
    };
    operands_verdict(tables.store(page), n, target, keyed)?;
    let mut maker = Maker {
        page,
        tables: &mut tables,
    };
    index_in(&mut maker, target, key)
}
