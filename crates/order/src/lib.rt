// A unit's terms in byte order of their names.
#![tactic(auto)]

ghost use Rattle.std.specs.Prelude.{◌≡◌, true, List, ◌++◌, ◌+◌, ◌≤◌, ◌<◌};
ghost use Rattle.pages.specs.Bytes.{count_of};
ghost use Rattle.names.specs.Calls.{is_used};
ghost use Rattle.units.specs.Unit.{places_max, Term, term, in_use};
ghost use Rattle.units.specs.Calls.{terms_of, unit_of, terms_from};
ghost use Rattle.order.specs.Order.{place, by_name};

use names::{Names, Symbol};
use units::{Unit, with_term};

// The unit v with the terms of w from place j on at its end.
fn with_rest(v: Unit, w: Unit, j: usize) -> Unit
    requires { (v.count + w.count ≤ places_max + j) × (j ≤ w.count) × (w.count ≤ places_max) }
    ensures { (l : List Term) → v ≡ unit_of l → result ≡ unit_of (l ++ terms_from w j) }
{
    let mut out = v;
    for (s, e) in w.terms_from(j) {
        out = with_term(out, s, e);
    }
    out
}

// The unit w, in order of names, with one term more at its place. By insertion, since what comes first among equal names is promised, too:
// the library's stable sort needs a heap, and its other one promises no order there. By places, since the rest goes on from one.
fn placed(names: Names, w: Unit, s: Symbol, e: i16) -> Unit
    requires { (w.count < places_max) × (is_used (count_of names.page.now) s ≡ true) × (in_use (count_of names.page.now) (terms_of w) ≡ true) }
    ensures { result ≡ unit_of (place names.entry.page.now (term s e) (terms_of w)) }
{
    let name = names.name_of(usize::from(s));
    let mut v = units::dimensionless();
    for j in 0..w.count {
        let t = w.symbols[j];
        if name.cmp(&names.name_of(usize::from(t))).is_lt() {
            return with_rest(with_term(v, s, e), w, j);
        }
        v = with_term(v, t, w.exponents[j]);
    }
    with_term(v, s, e)
}

// The unit's terms in byte order of their names, for crates above (`unit_text` tests what it asks).
pub fn by_name(names: Names, u: Unit) -> Unit
    requires { (u.count ≤ places_max) × (in_use (count_of names.page.now) (terms_of u) ≡ true) }
    ensures { result ≡ unit_of (by_name names.entry.page.now (terms_of u)) }
{
    let mut w = units::dimensionless();
    for (s, e) in u.terms() {
        w = placed(names, w, s, e);
    }
    w
}
