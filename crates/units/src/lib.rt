// Units: products of powers of symbols (document 01, "Units and pairs"; `Unit` of the source's units.rs).
#![tactic(auto)]

ghost use Rattle.std.specs.Prelude.{◌≡◌, true, false, List, [], ◌∷◌, ◌++◌, ◌<◌, ◌≤◌, ◌+◌, ◌-◌, get_or, pos, MatchOption};
ghost use Rattle.std.specs.Iterator.{at_most};
ghost use Rattle.names.specs.Table.{names_max};
ghost use Rattle.units.specs.Unit.{places_max, Term, term, is_zero, outside, formed, in_use};
ghost use Rattle.units.specs.Product.{combine};
ghost use Rattle.units.specs.Merge.{turn, turned, joined, merge};
ghost use Rattle.units.specs.Calls.{terms_of, filled, present, unit_of, with_term, sum_of, form_verdict, product_answer, exponent_answer, unitless_answer};

use names::{NAMES, Symbol};
use refusals::Refusal;
use std::cmp::Ordering;

// How many symbols a unit has at most.
pub const PLACES: usize = 8;

// How large an exponent can be, either way.
pub const EXPONENT_MAX: i16 = 1000;

// The symbols stand at the first `count` places, ascending, each with its exponent. Arrays with a count, since there is no heap and
// document 01 names the form.
#[derive(Clone, Copy, Debug, PartialEq, Eq)]
pub struct Unit {
    pub count: usize,
    pub symbols: [Symbol; PLACES],
    pub exponents: [i16; PLACES],
}

// A product as far as it has come: the unit's count goes on past the places, and `wide` says that an exponent is outside its limits. A
// flag and no Result, as both are judged at the end, and an exponent anywhere goes before a symbol too many.
#[derive(Clone, Copy)]
struct Sum {
    unit: Unit,
    wide: bool,
}

// Whether an exponent is 0, which no term of a unit in form has.
#[tactic(auto, using(crate::proofs::Signed::bits_zero))]
fn is_zero(e: i16) -> bool
    ensures { result ≡ is_zero e }
{
    e == 0
}

// Whether an exponent is past the limit, either way.
#[tactic(auto, using(crate::proofs::Signed::outside_is))]
fn is_outside(e: i16) -> bool
    ensures { result ≡ outside e }
{
    (e < -EXPONENT_MAX) | (EXPONENT_MAX < e)
}

// An exponent of the second unit, as a product or a quotient takes it. The flag goes down to here, as document 01's call has it: a second
// unit that is turned first would be gone over once more.
#[tactic(auto, using(crate::proofs::Signed::neg_fits, crate::proofs::Signed::small))]
fn turned_by(e: i16, quotient: bool) -> i16
    requires { outside e ≡ false }
    ensures { result ≡ turn quotient e }
{
    if quotient { -e } else { e }
}

// The exponent of a symbol that both units have.
#[tactic(auto, using(crate::proofs::Signed::small, crate::proofs::Signed::abs_turn, crate::proofs::Signed::sum_fits))]
fn combined(e: i16, f: i16, quotient: bool) -> i16
    requires { (outside e ≡ false) × (outside f ≡ false) }
    ensures { result ≡ combine quotient e f }
{
    if quotient { e - f } else { e + f }
}

// The empty unit, which is not the same as none.
#[tactic(auto, unfolding(pages::specs::Pad::pad))]
pub fn dimensionless() -> Unit
    ensures { result ≡ unit_of [] }
{
    Unit {
        count: 0,
        symbols: [0; PLACES],
        exponents: [0; PLACES],
    }
}

// One term more. Past the places it is only counted.
#[tactic(auto, using(crate::proofs::Held::sum_room, crate::proofs::Held::sum_full))]
fn pushed(w: Sum, s: Symbol, e: i16) -> Sum
    requires { w.unit.count < 65536 }
    ensures { (l : List Term) → w ≡ sum_of l → result ≡ sum_of (l ++ (term s e ∷ [])) }
{
    let k = w.unit.count;
    let wide = w.wide | is_outside(e);
    if k < PLACES {
        let unit = with_term(w.unit, s, e);
        return Sum { unit, wide };
    }
    let unit = Unit {
        count: k + 1,
        ..w.unit
    };
    Sum { unit, wide }
}

// One term more, unless its exponent is zero: zero removes the symbol.
fn joined_to(w: Sum, s: Symbol, g: i16) -> Sum
    requires { w.unit.count < 65536 }
    ensures { (l : List Term) → w ≡ sum_of l → result ≡ sum_of (l ++ joined s g []) }
{
    if is_zero(g) {
        return w;
    }
    pushed(w, s, g)
}

// The unit with one term more at its end, in order or not, for crates above (`unit_form` is the entry call).
pub fn with_term(u: Unit, s: Symbol, e: i16) -> Unit
    requires { u.count < places_max }
    ensures { result ≡ with_term u s e }
{
    let mut v = u;
    let k = u.count;
    v.symbols[k] = s;
    v.exponents[k] = e;
    v.count = k + 1;
    v
}

// Whether the unit is in form, for crates above (`unit_form` is the entry call). One in form is no type of its own: most calls take units
// that are not, and an operand, which holds one or none, would need a second type as well. Nor is one of few enough places, `count ≤
// places_max`: that is asked wherever terms are gone over, of units in form or not.
pub fn is_formed(u: Unit) -> bool
    ensures { result ≡ formed places_max names_max (terms_of u) }
{
    if PLACES < u.count {
        return false;
    }
    let mut lo: usize = 0;
    for (s, e) in u.terms() {
        let s = usize::from(s);
        if s < lo {
            return false;
        }
        if NAMES <= s {
            return false;
        }
        if is_zero(e) {
            return false;
        }
        if is_outside(e) {
            return false;
        }
        lo = s + 1;
    }
    true
}

// How many of a unit's symbols stand in a place.
fn filled_in(u: Unit) -> usize
    ensures { (result ≡ filled u) × (result ≤ places_max) }
{
    u.count.min(PLACES)
}

// Whether every symbol that stands in a place is in use, where n names are in use. For crates above (their entry calls answer 3).
pub fn is_used(u: Unit, n: usize) -> bool
    ensures { result ≡ in_use n (present u) }
{
    u.symbols[..filled_in(u)]
        .iter()
        .all(|s| names::is_used(n, usize::from(*s)))
}

// The term at a place, where one stands there.
fn term_at(u: &Unit, i: usize) -> Option<(Symbol, i16)>
    requires { u.now.count ≤ places_max }
    ensures { MatchOption result (u.now.count ≤ i) (λ x. (i < u.now.count) × (x.0 ≡ get_or u.now.symbols i 0) × (x.1 ≡ get_or u.now.exponents i (pos 0))) }
{
    if i < u.count {
        return Some((u.symbols[i], u.exponents[i]));
    }
    None
}

// The terms of a unit from a place on, each a symbol with its exponent. An iterator of its own, which says at what place it is: of the
// two arrays zipped, each loop's proof would have to tell which term it has.
#[derive(Drop)]
pub struct Terms<'a> {
    pub unit: &'a Unit,
    pub at: usize,
}

impl<'a> Iterator for Terms<'a> {
    type Item = (Symbol, i16);

    ghost can_next = { λ s. s.unit.now.count ≤ places_max };

    ghost next_gives = { λ s item t. (t.unit ≡ s.unit) × MatchOption item (s.unit.now.count ≤ s.at) (λ x. (s.at < s.unit.now.count) × (x.0 ≡ get_or s.unit.now.symbols s.at 0) × (x.1 ≡ get_or s.unit.now.exponents s.at (pos 0)) × (t.at ≡ s.at + 1)) };

    ghost remaining = { λ s. at_most (s.unit.now.count - s.at) };

    fn next(&mut self) -> Option<(Symbol, i16)> {
        let term = term_at(self.unit, self.at)?;
        self.at += 1;
        Some(term)
    }
}

impl Unit {
    // The terms, in the order of their places.
    pub fn terms(&self) -> Terms<'_>
        ensures { (result.unit ≡ self.entry) × (result.at ≡ 0) }
    {
        self.terms_from(0)
    }

    // Those from a place on.
    pub fn terms_from(&self, at: usize) -> Terms<'_>
        ensures { (result.unit ≡ self.entry) × (result.at ≡ at) }
    {
        Terms { unit: self, at }
    }
}

// The terms of both units, in order of their symbols; those of one symbol are joined, and zero removes it. A `loop`, since a turn moves
// on one place or both: through `itertools::merge_join_by` a product took 106 ns in place of 52, and a check of this crate 17 s longer.
fn merged(a: Unit, b: Unit, quotient: bool) -> Sum
    requires { (formed places_max names_max (terms_of a) ≡ true) × (formed places_max names_max (terms_of b) ≡ true) }
    ensures { result ≡ sum_of (merge (terms_of a) (turned quotient (terms_of b))) }
{
    let mut w = Sum {
        unit: dimensionless(),
        wide: false,
    };
    let mut i: usize = 0;
    let mut j: usize = 0;
    loop {
        match (term_at(&a, i), term_at(&b, j)) {
            (Some((s, e)), Some((t, f))) => match s.cmp(&t) {
                Ordering::Less => {
                    w = pushed(w, s, e);
                    i += 1;
                }
                Ordering::Greater => {
                    w = pushed(w, t, turned_by(f, quotient));
                    j += 1;
                }
                Ordering::Equal => {
                    w = joined_to(w, s, combined(e, f, quotient));
                    i += 1;
                    j += 1;
                }
            },
            (Some((s, e)), None) => {
                w = pushed(w, s, e);
                i += 1;
            }
            (None, Some((t, f))) => {
                w = pushed(w, t, turned_by(f, quotient));
                j += 1;
            }
            (None, None) => return w,
        }
    }
}

// Whether a unit is in form.
#[tactic(auto, unfolding(crate::specs::Calls::form_verdict))]
pub fn unit_form(u: Unit) -> Result<(), Refusal>
    ensures { result ≡ form_verdict u }
{
    if is_formed(u) {
        return Ok(());
    }
    Err(Refusal::BadUnit)
}

// The product of two units or, with `quotient`, their quotient: `multiply` and `divide` of the source.
#[tactic(auto, using(crate::proofs::Calls::form_ok, crate::proofs::Calls::product_large, crate::proofs::Calls::product_many, crate::proofs::Calls::product_done))]
pub fn product(a: Unit, b: Unit, quotient: bool) -> Result<Unit, Refusal>
    ensures { result ≡ product_answer quotient a b }
{
    unit_form(a)?;
    unit_form(b)?;
    let w = merged(a, b, quotient);
    if w.wide {
        return Err(Refusal::Exponent);
    }
    if PLACES < w.unit.count {
        return Err(Refusal::Symbols);
    }
    Ok(w.unit)
}

// The exponent of a symbol, 0 where the unit does not have it.
pub fn exponent(u: Unit, symbol: Symbol) -> Result<i16, Refusal>
    ensures { result ≡ exponent_answer u symbol }
{
    unit_form(u)?;
    match u.symbols[..u.count].iter().position(|s| *s == symbol) {
        Some(i) => Ok(u.exponents[i]),
        None => Ok(0),
    }
}

// Whether there is no unit, or the empty one.
#[tactic(auto, using(crate::proofs::Calls::none_unitless, crate::proofs::Calls::broken_refused, crate::proofs::Calls::some_unitless), unfolding(crate::specs::Calls::unitless_answer, crate::specs::Calls::maybe_verdict, crate::specs::Calls::unitless))]
pub fn is_dimensionless(m: Option<Unit>) -> Result<bool, Refusal>
    ensures { result ≡ unitless_answer m }
{
    let Some(u) = m else {
        return Ok(true);
    };
    unit_form(u)?;
    Ok(u.count == 0)
}
