// Group sums and convertibility: a unit's exponents summed over the groups that pairs make (document 01, "Units and pairs";
// `canonicalize` and `is_convertible_to` of the source's units.rs).
#![tactic(auto)]

ghost use Rattle.std.specs.Prelude.{◌≡◌, ◌↔◌, true, false, List, [], ◌∷◌, ◌++◌, ◌<◌, ◌≤◌, option_copied, take};
ghost use Rattle.names.specs.Table.{names_max};
ghost use Rattle.units.specs.Unit.{places_max, formed, exponent};
ghost use Rattle.units.specs.Product.{any_outside, written};
ghost use Rattle.units.specs.Calls.{terms_of, unit_of};
ghost use Rattle.groups.specs.Groups.{walk};
ghost use Rattle.sums.specs.Sums.{rooted, group_sums, convertible, sums_of, sums_from, unit_from};
ghost use Rattle.sums.specs.Gather.{next_from};
ghost use Rattle.sums.specs.Calls.{units_verdict, sums_answer, or_empty, convert_answer};

use groups::Groups;
use names::{NAMES, Symbol};
use refusals::Refusal;
use units::{Unit, with_term};

// The root of each group, ascending by number, with the sum of a unit's exponents in it, none of them zero. Output only: a sum
// may reach 8,000 either way. A type of its own, so that none is taken for a unit.
#[derive(Clone, Copy, Debug, PartialEq, Eq)]
pub struct Sums {
    pub terms: Unit,
}

// The terms of a unit, as sums.
impl From<Unit> for Sums {
    ghost from_gives = { λ u s. s ≡ sums_from u };

    fn from(terms: Unit) -> Sums {
        Sums { terms }
    }
}

// The sums as a unit's terms, to be written: as a unit they may break its form.
impl From<Sums> for Unit {
    ghost from_gives = { λ s u. u ≡ unit_from s };

    fn from(s: Sums) -> Unit {
        s.terms
    }
}

// The unit with each symbol's root in its place: a root may stand there several times, and in any order.
#[tactic(auto, using(units::proofs::Signed::back, crate::proofs::Roots::rooting_start, crate::proofs::Roots::rooting_count, crate::proofs::Roots::rooting_next, crate::proofs::Roots::rooting_end))]
fn rooted(groups: Groups, u: Unit) -> Unit
    requires { u.count ≤ places_max }
    ensures { result ≡ unit_of (rooted (walk groups.entry.steps groups.entry.parents.now) (terms_of u)) }
{
    let mut v = units::dimensionless();
    for (s, e) in u.terms() {
        v = with_term(v, groups.root(s), e);
    }
    v
}

// The least symbol of the terms that is lo or more, if there is one that is a name's number.
fn next_symbol(u: Unit, lo: usize) -> Option<Symbol>
    requires { u.count ≤ places_max }
    ensures { result ≡ next_from lo names_max (take u.count u.symbols) }
{
    u.symbols[..u.count]
        .iter()
        .copied()
        .filter(|s| (lo..NAMES).contains(&usize::from(*s)))
        .min()
}

// The sum of the exponents of the terms with that symbol.
fn sum_of(u: Unit, s: Symbol) -> i16
    requires { (u.count ≤ places_max) × (any_outside (terms_of u) ≡ false) }
    ensures { result ≡ exponent s (terms_of u) }
{
    let mut sum: i16 = 0;
    for (t, e) in u.terms() {
        if t == s {
            sum += e;
        }
    }
    sum
}

// The terms of each symbol summed, in order of the symbols. A `while let`, since the next symbol is looked for behind the last one.
fn gathered(u: Unit) -> Sums
    requires { (u.count ≤ places_max) × (any_outside (terms_of u) ≡ false) }
    ensures { result ≡ sums_of (written names_max (λ g. exponent g (terms_of u))) }
{
    let mut w = units::dimensionless();
    let mut lo: usize = 0;
    while let Some(s) = next_symbol(u, lo) {
        let e = sum_of(u, s);
        if e != 0 {
            w = with_term(w, s, e);
        }
        lo = usize::from(s) + 1;
    }
    Sums::from(w)
}

// The group sums of a unit in form, for crates above (`canonicalize` tests the unit, and the table that the groups are of).
pub fn group_sums(groups: Groups, u: Unit) -> Sums
    requires { formed places_max names_max (terms_of u) ≡ true }
    ensures { result ≡ sums_of (group_sums names_max (walk groups.entry.steps groups.entry.parents.now) (terms_of u)) }
{
    gathered(rooted(groups, u))
}

// Whether two units in form have the same group sums, for crates above (`is_convertible_to` tests them).
pub fn convertible(groups: Groups, left: Unit, right: Unit) -> bool
    requires { (formed places_max names_max (terms_of left) ≡ true) × (formed places_max names_max (terms_of right) ≡ true) }
    ensures { result ≡ convertible names_max (walk groups.entry.steps groups.entry.parents.now) (terms_of left) (terms_of right) }
{
    let a = group_sums(groups, left);
    let b = group_sums(groups, right);
    a == b
}

// Whether two units can be judged by the pairs of a page.
fn units_verdict(page: &[u8], names: Option<&[u8]>, a: Unit, b: Unit) -> Result<(), Refusal>
    ensures { result ≡ units_verdict page.now (option_copied names.entry) (a ∷ b ∷ []) }
{
    let n = pairs::opened(page, names)?;
    if !units::is_used(a, n) {
        return Err(Refusal::Unused);
    }
    if !units::is_used(b, n) {
        return Err(Refusal::Unused);
    }
    units::unit_form(a)?;
    units::unit_form(b)
}

// The group sums of a unit, over the pairs of a page: `canonicalize` of the source. A unit by itself is judged as if given twice.
pub fn canonicalize(page: &[u8], names: Option<&[u8]>, u: Unit) -> Result<Sums, Refusal>
    ensures { result ≡ sums_answer page.now (option_copied names.entry) u }
{
    units_verdict(page, names, u, u)?;
    let parents = pairs::parents_of(page);
    let groups = Groups {
        parents: &parents,
        steps: pages::count(page),
    };
    Ok(group_sums(groups, u))
}

// The unit, or the empty one where there is none, for crates above, whose operands hold one or none.
pub fn or_empty(m: Option<Unit>) -> Unit
    ensures { result ≡ or_empty m }
{
    m.unwrap_or(units::dimensionless())
}

// Whether two units, or none, are convertible by the pairs of a page: `is_convertible_to` of the source.
pub fn is_convertible_to(
    page: &[u8],
    names: Option<&[u8]>,
    left: Option<Unit>,
    right: Option<Unit>,
) -> Result<bool, Refusal>
    ensures { result ≡ convert_answer page.now (option_copied names.entry) left right }
{
    let a = or_empty(left);
    let b = or_empty(right);
    units_verdict(page, names, a, b)?;
    let parents = pairs::parents_of(page);
    let groups = Groups {
        parents: &parents,
        steps: pages::count(page),
    };
    Ok(convertible(groups, a, b))
}
