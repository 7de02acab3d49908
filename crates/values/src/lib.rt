// The unit of a value node, in bytes (document 01, "Formulas and sheets").
#![tactic(auto)]

ghost use Rattle.std.specs.Prelude.{◌≡◌, true, false, [], ◌+◌, ◌*◌, ◌≤◌, ◌<◌, length, drop};
ghost use Rattle.std.specs.Simd.{first_chunks};
ghost use Rattle.pages.specs.Bytes.{put};
ghost use Rattle.pages.specs.Pad.{pad};
ghost use Rattle.units.specs.Unit.{places_max};
ghost use Rattle.units.specs.Calls.{terms_of, unit_of};
ghost use Rattle.values.specs.Value.{term_bytes, unit_max, signed_of, terms_at, value_in, unit_said, said_in, symbols_used, raw_of, bytes_in, unit_bytes};

use names::Symbol;
use refusals::Refusal;
use units::{PLACES, Unit, with_term};

// The count that says that there is no unit.
pub const NONE_COUNT: usize = 255;

// How many bytes a term takes: its symbol, and two for its exponent.
pub const TERM_BYTES: usize = 3;

// How many bytes a unit takes at most.
pub const UNIT_BYTES: usize = 1 + PLACES * TERM_BYTES;

// A unit's bytes, and zeros after them.
pub type UnitBytes = [u8; UNIT_BYTES];

// Two bytes as a signed number.
#[tactic(auto, using(crate::proofs::Sixteen::signed_is))]
fn signed(high: u8, low: u8) -> i16
    ensures { result ≡ signed_of (high * 256 + low) }
{
    i16::from_be_bytes([high, low])
}

// The bytes of the first n terms, each by itself.
fn terms_in(bytes: &[u8], n: usize) -> &[[u8; TERM_BYTES]]
    requires { 1 + term_bytes * n ≤ length bytes.now }
    ensures { (result.now ≡ first_chunks term_bytes n (drop 1 bytes.now)) × (length result.now ≡ n) }
{
    let (terms, _) = bytes[1..1 + TERM_BYTES * n].as_chunks::<TERM_BYTES>();
    terms
}

// The unit with n terms, from index 1 on.
fn unit_at(bytes: &[u8], n: usize) -> Unit
    requires { (n ≤ places_max) × (1 + term_bytes * n ≤ length bytes.now) }
    ensures { result ≡ unit_of (terms_at bytes.now n 1) }
{
    let mut u = units::dimensionless();
    for term in terms_in(bytes, n) {
        u = with_term(u, Symbol::from(term[0]), signed(term[1], term[2]));
    }
    u
}

// The unit that the bytes say, which may break its form, or none.
#[tactic(auto, using(crate::proofs::Calls::read_nothing, crate::proofs::Calls::read_some, crate::proofs::Calls::read_cut, crate::proofs::Calls::read_many, crate::proofs::Calls::read_long, crate::proofs::Calls::read_none))]
pub fn read_value(bytes: &[u8]) -> Result<Option<Unit>, Refusal>
    ensures { result ≡ value_in bytes.now }
{
    let Some(count) = bytes.first() else {
        return Err(Refusal::BadUnit);
    };
    let n = usize::from(*count);
    if n <= PLACES {
        if bytes.len() == 1 + TERM_BYTES * n {
            return Ok(Some(unit_at(bytes, n)));
        }
        return Err(Refusal::BadUnit);
    }
    if n != NONE_COUNT {
        return Err(Refusal::BadUnit);
    }
    if bytes.len() != 1 {
        return Err(Refusal::BadUnit);
    }
    Ok(None)
}

// The unit that the bytes say, which may break its form, or none, where there is room for any unit, for crates above (`read_value` looks
// at the length as well).
#[tactic(auto, unfolding(crate::specs::Value::unit_said))]
pub fn unit_said(bytes: &[u8]) -> Option<Unit>
    requires { unit_max ≤ length bytes.now }
    ensures { result ≡ unit_said bytes.now }
{
    let count = usize::from(bytes[0]);
    if count == NONE_COUNT {
        return None;
    }
    Some(Unit {
        count,
        ..unit_at(bytes, count.min(PLACES))
    })
}

// How many symbols the bytes say that there are, all there or not.
#[tactic(auto, using(crate::proofs::Used::said_nothing, crate::proofs::Used::said_none, crate::proofs::Used::said_some))]
fn symbols_said(bytes: &[u8]) -> usize
    ensures { (result ≡ said_in bytes.now) × (result < 256) }
{
    let Some(count) = bytes.first() else {
        return 0;
    };
    let n = usize::from(*count);
    if n == NONE_COUNT {
        return 0;
    }
    n
}

// Whether every symbol that stands in the bytes is in use, where n names are in use, whatever else is wrong with them. For crates above (their
// entry calls answer 3).
pub fn are_used(bytes: &[u8], n: usize) -> bool
    ensures { result ≡ symbols_used n bytes.now }
{
    bytes
        .iter()
        .skip(1)
        .step_by(TERM_BYTES)
        .take(symbols_said(bytes))
        .all(|symbol| names::is_used(n, usize::from(*symbol)))
}

// A signed number as sixteen bits.
#[tactic(auto, using(crate::proofs::Sixteen::raw_is))]
pub fn raw(e: i16) -> usize
    ensures { (result ≡ raw_of e) × (result < 65536) }
{
    usize::from(e.cast_unsigned())
}

// Writes the terms of a unit, from index 1 on.
fn write_terms(out: &mut [u8], u: Unit)
    requires { (u.count ≤ places_max) × (unit_max ≤ length out.old) }
    ensures { out.new ≡ put out.old 1 (bytes_in (terms_of u)) }
{
    for (i, (s, e)) in u.terms().enumerate() {
        let word = pages::count_bytes(raw(e));
        let entry = [(s % 256) as u8, word[0], word[1]];
        pages::put_bytes(out, 1 + TERM_BYTES * i, &entry);
    }
}

// The bytes of a unit, and zeros after them, for crates above (every unit in form, as `unit_form` tests, has few enough places).
pub fn value_bytes(u: Unit) -> UnitBytes
    requires { u.count ≤ places_max }
    ensures { result ≡ pad unit_max 0 (unit_bytes (terms_of u)) }
{
    let mut out = [0u8; UNIT_BYTES];
    let count = [u.count as u8];
    pages::put_bytes(&mut out, 0, &count);
    write_terms(&mut out, u);
    out
}
