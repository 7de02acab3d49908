// Operators with one operand, unions included (document 01, "Answers"; unary.rs of the source, whose names the functions have).
#![tactic(auto)]

ghost use Rattle.std.specs.Prelude.{◌≡◌, true, ◌<◌};
ghost use Rattle.kinds.specs.Kinds.{is_union};
ghost use Rattle.types.specs.Types.{types_in, kind_of};
ghost use Rattle.types.specs.Same.{Same};
ghost use Rattle.matching.specs.Matching.{in_use};
ghost use Rattle.members.specs.Members.{entered, concluded};
ghost use Rattle.members.specs.Leaves.{Leaves};
ghost use Rattle.unary.specs.Unary.{unary_passes, unary_errors, unary_result, Remembered, Working, check_unary};

use matching::Checked;
use members::{Leafed, MEMBERS, conclusion_of, enter_union, failed_at, flatten, merge};
use operators::{Errors, NO_FAMILY, Outcome, Reason};
use refusals::Refusal;
use types::{Maker, TYPES};

// Whether the check of a type has no error: the operator's own rule is tried on the leaf that stands for it, and hands back its errors.
// Code 0 is no operator's: that rule has it take Null, which stands for a union whose members differ.
#[tactic(auto, using(crate::proofs::Passing::passes_by, types::proofs::Types::held_by))]
fn does_pass(leafed: Leafed<'_, 1>, op: usize, t: usize) -> bool
    requires { (0 < op) × (t < types_in leafed.store.page.now) }
    ensures { result ≡ unary_passes leafed.entry.store.page.now op t }
{
    let leaf = leafed.leaf_of(t);
    operators::plain_unary(op, leafed.store.kind_of(leaf))
        .passed()
        .is_some()
}

// The errors of the check of a union: how many members fail, and the first of them, or that there is none.
fn any_errors(leafed: Leafed<'_, 1>, op: usize, t: usize) -> Errors
    requires { (0 < op) × (t < types_in leafed.store.page.now) × (is_union (kind_of leafed.store.page.now t) ≡ true) }
    ensures { result ≡ unary_errors leafed.entry.store.page.now op t }
{
    let mut types = [0; MEMBERS];
    let size = flatten(leafed.store, t, &mut types);
    if size == 0 {
        return Errors::One(Reason::NoMember);
    }
    let mut failing = None;
    for x in &types[..size] {
        let x = usize::from(*x);
        if !does_pass(leafed, op, x) {
            failing = Some(failed_at(x, None, failing));
        }
    }
    match failing {
        Some(failing) => Errors::SomeFail(failing),
        None => Errors::None,
    }
}

// The errors of the check of a type.
#[tactic(auto, using(crate::proofs::Failing::errors_plain))]
fn errors_of(leafed: Leafed<'_, 1>, op: usize, t: usize) -> Errors
    requires { (0 < op) × (t < types_in leafed.store.page.now) }
    ensures { result ≡ unary_errors leafed.entry.store.page.now op t }
{
    let kind = leafed.store.kind_of(t);
    if kinds::is_union(kind) {
        return any_errors(leafed, op, t);
    }
    let plain = operators::plain_unary(op, kind);
    plain.errors
}

// What an operator that passes answers for a type, whichever it is. Each union's check is done once.
#[cycle(check_unary_any_check_unary_operator)]
fn check_unary_operator(
    maker: &mut Maker,
    done: &mut [Option<u16>],
    t: usize,
) -> Result<usize, Refusal>
    requires { Working maker.old.page.now done.old t }
    ensures page_after { entered result maker.new.page.now ≡ unary_result t maker.old.page.now }
    ensures remembered { Remembered maker.new.page.now done.new }
    ensures same { Same maker.new maker.old }
{
    let kind = maker.store().kind_of(t);
    if !kinds::is_union(kind) {
        return Ok(usize::from(operators::family_of(kind)));
    }
    if let Some(r) = done[t] {
        return Ok(usize::from(r));
    }
    let r = check_unary_any(maker, done, t)?;
    done[t] = Some(r as u16);
    Ok(r)
}

// What it answers for a union: the union of its members' results.
#[cycle(check_unary_any_check_unary_operator)]
fn check_unary_any(maker: &mut Maker, done: &mut [Option<u16>], t: usize) -> Result<usize, Refusal>
    requires working { Working maker.old.page.now done.old t }
    requires t_value { is_union (kind_of maker.old.page.now t) ≡ true }
    ensures page_after { entered result maker.new.page.now ≡ unary_result t maker.old.page.now }
    ensures remembered { Remembered maker.new.page.now done.new }
    ensures same { Same maker.new maker.old }
{
    let mut types = [0; MEMBERS];
    let mut results = [0; MEMBERS];
    let n = flatten(maker.store(), t, &mut types);
    let mut k = 0;
    for x in &types[..n] {
        let x = usize::from(*x);
        let r = check_unary_operator(maker, done, x)?;
        k = merge(&mut results, k, r);
    }
    enter_union(maker, &results[..k])
}

// What an operator that may fail answers for a Known type.
#[tactic(auto, using(crate::proofs::Checking::known_fails))]
fn check_known(maker: &mut Maker, leaves: &[u16], op: usize, t: usize) -> Result<Outcome, Refusal>
    requires leaves { Leaves true maker.old.page.now leaves.now (types_in maker.old.page.now) }
    requires op_nonzero { (0 < op) × (t < types_in maker.old.page.now) }
    ensures page_after { concluded result maker.new.page.now ≡ check_unary maker.old.page.now op (Checked.Known t) }
    ensures same { Same maker.new maker.old }
{
    let errors = errors_of(Leafed::new(maker.store(), leaves), op, t);
    if errors.count() != 0 {
        return Ok(operators::unknown(errors));
    }
    let mut done = [None; TYPES];
    conclusion_of(check_unary_operator(maker, &mut done, t))
}

// The check on a checked type, for crates above (`answers::check_unary_operator` is the entry call, and restores the store on a refusal).
#[tactic(auto, using(crate::proofs::Checking::unknown_checked, crate::proofs::Checking::function_checked, matching::proofs::Matching::known_in_use))]
pub fn check_unary(
    maker: &mut Maker,
    leaves: &[u16],
    op: usize,
    operand: Checked,
) -> Result<Outcome, Refusal>
    requires leaves { Leaves true maker.old.page.now leaves.now (types_in maker.old.page.now) }
    requires op_nonzero { (0 < op) × (in_use maker.old.page.now operand ≡ true) }
    ensures page_after { concluded result maker.new.page.now ≡ check_unary maker.old.page.now op operand }
    ensures same { Same maker.new maker.old }
{
    match operand {
        Checked::Unknown => Ok(operators::unknown(Errors::None)),
        Checked::Known(t) => check_known(maker, leaves, op, t),
        Checked::Function(_) => Ok(operators::plain_unary(op, NO_FAMILY)),
    }
}
