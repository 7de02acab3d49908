// The entry calls as functions on numbers and byte slices, for callers in other languages. An answer is one number: the
// refusal's (0 for none) in the upper half, the value in the lower. A unit passes as its bytes in a value node, a checked
// type as one number, and bindings as 97 bytes.
// The numbers, and the `lent` beside a page, are the C interface, which has no Option, Result or enum with fields.
#![tactic(auto)]

ghost use Rattle.std.specs.Prelude.{◌≡◌, false, ◌&&◌, [], ◌∷◌, ◌≤◌, ◌<◌, length, IfOk, option_copied};
ghost use Rattle.std.specs.Bool.{then_some};
ghost use Rattle.std.specs.Option.{ok_or};
ghost use Rattle.refusals.specs.declared.Refusal.TheVariants.{BadUnit};
ghost use Rattle.names.specs.Table.{names_max};
ghost use Rattle.names.specs.Calls.{empty_verdict, empty_page, add_answer, page_after, find_answer, read_answer};
ghost use Rattle.units.specs.Unit.{places_max};
ghost use Rattle.units.specs.Calls.{form_verdict, exponent_answer};
ghost use Rattle.groups.specs.Groups.{pair};
ghost use Rattle.pairs.specs.Calls.{pair_verdict, root_answer, factor_answer};
ghost use Rattle.pairs.specs.Calls as tables;
ghost use Rattle.kinds.specs.Kinds.{children_max};
ghost use Rattle.types.specs.Calls.{make_answer, make_page};
ghost use Rattle.types.specs.Calls as store;
ghost use Rattle.bindings.specs.Bindings.{bindings_max};
ghost use Rattle.checked.specs.Calls.{matches_answer, generic_answer, into_const, into_const_page, substitute_answer, substitute_page};
ghost use Rattle.pages.specs.Bytes.{word_bytes, big_endian};
ghost use Rattle.pages.specs.Pad.{pad};
ghost use Rattle.values.specs.Value.{none_count, unit_max, readable, unit_in};
ghost use Rattle.sums.specs.Calls.{or_empty};
ghost use Rattle.calls.specs.Types.{bytes_of_type, checked_of, bindings_in, bytes_of_bindings, number_in, const_code, bindings_after, unify_in, unify_arg_in};
ghost use Rattle.calls.specs.Codes.{packed, number_code, found_code, nothing_code, size_code, out_after, out_after_bytes, power_code, answer_code, unit_or_broken, unitless_in, product_in, text_verdict_in, text_in, bytes_of_unit, factor_code, out_after_factor, units_verdict_in, group_sums_in, bytes_of_sums, convertible_in, units_in};
ghost use Rattle.refusals.specs.Lowest.{lowest};
ghost use Rattle.formulas.specs.Calls.{check_answer, check_page};
ghost use Rattle.calls.specs.Answers.{operands_in, answered_code, bytes_of_errors, bytes_of_maybe, bytes_of_answer, out_after_answer, operand_used_in, operands_verdict_in, binary_verdict_in, binary_in, unary_verdict_in, unary_in, unary_page_in, index_in, index_page_in};
ghost use Rattle.routes.specs.Run.{formula_lent, run_answer, run_page, run_table, RunRule};
ghost use Rattle.calls.specs.Formulas.{formula_code, bytes_of_formula, out_after_formula, compared_code};

use answers::{Answered, CheckedExpr};
use bindings::{BINDINGS, Bindings};
use formulas::FormulaAnswer;
use kinds::Kind;
use matching::Checked;
use names::{NAME_BYTES, Symbol};
use operators::Errors;
use pages::{LONG_BYTES, Padded, WORD_BYTES, Word};
use refusals::Refusal;
use routes::Asked;
use sums::Sums;
use text::{TEXT_BYTES, Text};
use types::{CHILD_BYTES, ENTRY_BYTES, Shape, Store, Tables};
use unification::Unified;
use units::{PLACES, Unit};
use values::{NONE_COUNT, UNIT_BYTES, UnitBytes};

// What is answered for a name or a factor that the table does not have, and for Unknown: a number that is never in use.
// The C interface says it so, having no Option.
pub const ABSENT: usize = 65535;

// An answer's number, or its refusal's, as one number.
fn coded(answer: Result<usize, Refusal>) -> u32
    ensures { result ≡ number_code answer }
{
    match answer {
        Ok(n) => (n % 65536) as u32,
        Err(r) => u32::from(u8::from(r)) * 65536,
    }
}

// A call's success, or its refusal, as one number.
fn coded_verdict(verdict: Result<(), Refusal>) -> u32
    ensures { result ≡ packed verdict 0 }
{
    coded(verdict.map(|()| 0))
}

// The names page where it is lent, or none.
fn lent_names(names: &[u8], lent: bool) -> Option<&[u8]>
    ensures { option_copied result ≡ then_some lent names.now }
{
    lent.then_some(names)
}

// Makes the page an empty table of names.
#[unsafe(no_mangle)]
pub extern "C" fn riddlepoppy_empty_names(page: &mut [u8]) -> u32
    ensures { (result ≡ packed (empty_verdict page.old) 0) × (page.new ≡ empty_page page.old) }
{
    coded_verdict(names::empty_names(page))
}

// The number of a name, which is added if it is new.
#[unsafe(no_mangle)]
pub extern "C" fn riddlepoppy_add_name(page: &mut [u8], name: &[u8]) -> u32
    ensures { (result ≡ number_code (add_answer names_max page.old name.now)) × (page.new ≡ page_after names_max page.old name.now) }
{
    coded(names::add_name(page, name))
}

// The number of a name, or 65,535 where the table does not have it.
#[unsafe(no_mangle)]
pub extern "C" fn riddlepoppy_find_name(page: &[u8], name: &[u8]) -> u32
    ensures { result ≡ found_code (find_answer page.now name.now) }
{
    coded(names::find_name(page, name).map(|n| n.unwrap_or(ABSENT)))
}

// The size of bytes by value as one number, and the bytes written down, unless it is a refusal.
// One function for this, `written` and `written_down` was tried twice: over a tuple of an array and a number, and with a writer of the array
// alone. The borrow checker takes no array whose length is a parameter in a tuple, and none by value that has been passed by value.
fn written_bytes<const N: usize>(answer: Result<Padded<N>, Refusal>, out: &mut [u8; N]) -> u32
    ensures { (result ≡ size_code answer.entry) × (out.new ≡ out_after_bytes answer.entry out.old) }
{
    match answer {
        Ok(padded) => {
            let bytes = padded.bytes;
            *out = bytes;
            coded(Ok(padded.size))
        }
        Err(r) => coded(Err(r)),
    }
}

// 0, and the bytes written down, unless it is a refusal.
fn written<const N: usize>(answer: Result<[u8; N], Refusal>, out: &mut [u8; N]) -> u32
    ensures { (result ≡ nothing_code answer.entry) × (out.new ≡ out_after (λ bytes. bytes) answer.entry out.old) }
{
    match answer {
        Ok(bytes) => {
            *out = bytes;
            coded(Ok(0))
        }
        Err(r) => coded(Err(r)),
    }
}

// The name with number k, and its length.
#[unsafe(no_mangle)]
pub extern "C" fn riddlepoppy_read_name(page: &[u8], k: u32, out: &mut [u8; NAME_BYTES]) -> u32
    ensures { (result ≡ size_code (read_answer page.now k)) × (out.new ≡ out_after_bytes (read_answer page.now k) out.old) }
{
    written_bytes(names::read_name(page, k as usize), out)
}

// The unit that the bytes say, where no symbol is looked up: 5 for "no unit", and for bytes that cannot be read.
#[tactic(auto, using(crate::proofs::Bytes::unread_refused, crate::proofs::Bytes::read_given))]
fn unit_in(bytes: &[u8]) -> Result<Unit, Refusal>
    ensures { result ≡ ok_or (unit_in bytes.now) BadUnit }
{
    values::read_value(bytes)?.ok_or(Refusal::BadUnit)
}

// Whether a unit is in form.
#[tactic(auto, using(crate::proofs::Bytes::form_read, crate::proofs::Bytes::form_unread))]
#[unsafe(no_mangle)]
pub extern "C" fn riddlepoppy_unit_form(unit: &[u8]) -> u32
    ensures { result ≡ packed (form_verdict (unit_or_broken unit.now)) 0 }
{
    coded_verdict(unit_in(unit).and_then(units::unit_form))
}

// The product of the units that two slices say or, with `quotient`, their quotient.
#[tactic(auto, using(crate::proofs::Bytes::product_left, crate::proofs::Bytes::product_right, crate::proofs::Bytes::product_read))]
fn product_in(a: &[u8], b: &[u8], quotient: bool) -> Result<Unit, Refusal>
    ensures { result ≡ product_in quotient a.now b.now }
{
    units::product(unit_in(a)?, unit_in(b)?, quotient)
}

// The product of two units or, with `quotient`, their quotient.
#[unsafe(no_mangle)]
pub extern "C" fn riddlepoppy_product(
    a: &[u8],
    b: &[u8],
    quotient: bool,
    out: &mut [u8; UNIT_BYTES],
) -> u32
    ensures { (result ≡ nothing_code (product_in quotient a.now b.now)) × (out.new ≡ out_after bytes_of_unit (product_in quotient a.now b.now) out.old) }
{
    written(product_in(a, b, quotient).map(values::value_bytes), out)
}

// The exponent of a symbol, as its sixteen bits.
#[tactic(auto, using(crate::proofs::Bytes::exponent_read, crate::proofs::Bytes::exponent_unread))]
#[unsafe(no_mangle)]
pub extern "C" fn riddlepoppy_exponent(unit: &[u8], symbol: Symbol) -> u32
    ensures { result ≡ power_code (exponent_answer (unit_or_broken unit.now) symbol) }
{
    coded(
        unit_in(unit)
            .and_then(|u| units::exponent(u, symbol))
            .map(values::raw),
    )
}

// A plain answer as one number: 1 for yes.
fn answer_code(answer: Result<bool, Refusal>) -> u32
    ensures { result ≡ answer_code answer }
{
    coded(answer.map(usize::from))
}

// Whether bytes say that there is no unit, or the empty one.
#[tactic(auto, using(crate::proofs::Bytes::dimensionless_read, crate::proofs::Bytes::dimensionless_unread))]
fn unitless_in(bytes: &[u8]) -> Result<bool, Refusal>
    ensures { result ≡ unitless_in bytes.now }
{
    units::is_dimensionless(values::read_value(bytes)?)
}

// Whether there is no unit, or the empty one: 1 for yes.
#[unsafe(no_mangle)]
pub extern "C" fn riddlepoppy_is_dimensionless(bytes: &[u8]) -> u32
    ensures { result ≡ answer_code (unitless_in bytes.now) }
{
    answer_code(unitless_in(bytes))
}

// Why a text is refused of bytes that say no unit. A refusal by itself, as what those below answer where a unit cannot be read, and no
// `Result<(), Refusal>` with `?`: that it is no Ok would take a clause more, and an answer by hand for each code and page of their callers.
fn unread_text(page: &[u8], unit: &[u8]) -> Refusal
    requires { unit_in unit.now ≡ None }
    ensures { Err result ≡ text_verdict_in page.now unit.now }
{
    if !names::is_formed(page) {
        return Refusal::Broken;
    }
    if !values::are_used(unit, pages::count(page)) {
        return Refusal::Unused;
    }
    Refusal::BadUnit
}

// The text of the unit that the bytes say.
fn text_in(page: &[u8], unit: &[u8]) -> Result<Text, Refusal>
    ensures { result ≡ text_in page.now unit.now }
{
    let Ok(Some(u)) = values::read_value(unit) else {
        return Err(unread_text(page, unit));
    };
    text::unit_text(page, u)
}

// The text of a unit, and its length.
#[unsafe(no_mangle)]
pub extern "C" fn riddlepoppy_unit_text(page: &[u8], unit: &[u8], out: &mut [u8; TEXT_BYTES]) -> u32
    ensures { (result ≡ size_code (text_in page.now unit.now)) × (out.new ≡ out_after_bytes (text_in page.now unit.now) out.old) }
{
    written_bytes(text_in(page, unit), out)
}

// Makes the page a table without pairs.
#[unsafe(no_mangle)]
pub extern "C" fn riddlepoppy_empty_pairs(page: &mut [u8]) -> u32
    ensures { (result ≡ packed (tables.empty_verdict page.old) 0) × (page.new ≡ tables.empty_page page.old) }
{
    coded_verdict(pairs::empty_pairs(page))
}

// Adds a pair, its factor as the 64 bits of an f64, to the table.
#[unsafe(no_mangle)]
pub extern "C" fn riddlepoppy_insert_pair(
    page: &mut [u8],
    names: &[u8],
    lent: bool,
    symbol: Symbol,
    factor: u64,
    base: Symbol,
) -> u32
    ensures { (result ≡ packed (pair_verdict page.old (then_some lent names.now) (pair symbol base)) 0) × (page.new ≡ tables.page_after page.old (then_some lent names.now) symbol factor base) }
{
    let names = lent_names(names, lent);
    coded_verdict(pairs::insert_pair(page, names, symbol, factor, base))
}

// The root of a symbol.
#[unsafe(no_mangle)]
pub extern "C" fn riddlepoppy_canonical(
    page: &[u8],
    names: &[u8],
    lent: bool,
    symbol: Symbol,
) -> u32
    ensures { result ≡ number_code (root_answer page.now (then_some lent names.now) symbol) }
{
    let names = lent_names(names, lent);
    coded(pairs::canonical(page, names, symbol).map(usize::from))
}

// The first factor of a symbol, and its base, or 65,535 where no pair has the symbol.
#[unsafe(no_mangle)]
pub extern "C" fn riddlepoppy_first_factor(
    page: &[u8],
    names: &[u8],
    lent: bool,
    symbol: Symbol,
    out: &mut [u8; LONG_BYTES],
) -> u32
    ensures { (result ≡ factor_code (factor_answer page.now (then_some lent names.now) symbol)) × (out.new ≡ out_after_factor (factor_answer page.now (then_some lent names.now) symbol) out.old) }
{
    let names = lent_names(names, lent);
    // Not by `written`, which writes whatever is answered: where no pair has the symbol, nothing is written.
    match pairs::first_factor(page, names, symbol) {
        Ok(Some(first)) => {
            *out = pages::long_bytes(first.factor);
            coded(Ok(usize::from(first.base)))
        }
        Ok(None) => coded(Ok(ABSENT)),
        Err(r) => coded(Err(r)),
    }
}

// Group sums in the form of a unit's bytes.
fn sums_bytes(sums: Sums) -> UnitBytes
    requires { sums.terms.count ≤ places_max }
    ensures { result ≡ bytes_of_sums sums }
{
    values::value_bytes(Unit::from(sums))
}

// The units that two slices say, or none of them, where both can be read.
fn units_in(left: &[u8], right: &[u8]) -> Option<(Option<Unit>, Option<Unit>)>
    ensures { result ≡ units_in left.now right.now }
{
    let l = values::read_value(left).ok();
    let r = values::read_value(right).ok();
    l.zip(r)
}

// Why two units are refused, over the pairs of a page, where one of them cannot be read.
fn unread_units(page: &[u8], names: Option<&[u8]>, left: &[u8], right: &[u8]) -> Refusal
    requires { (readable left.now && readable right.now) ≡ false }
    ensures { Err result ≡ units_verdict_in page.now (option_copied names.entry) left.now right.now }
{
    let Ok(n) = pairs::opened(page, names) else {
        return Refusal::Broken;
    };
    if !values::are_used(left, n) {
        return Refusal::Unused;
    }
    if !values::are_used(right, n) {
        return Refusal::Unused;
    }
    Refusal::BadUnit
}

// The group sums of a unit.
#[unsafe(no_mangle)]
pub extern "C" fn riddlepoppy_canonicalize(
    page: &[u8],
    names: &[u8],
    lent: bool,
    unit: &[u8],
    out: &mut [u8; UNIT_BYTES],
) -> u32
    ensures { (result ≡ nothing_code (group_sums_in page.now (then_some lent names.now) unit.now)) × (out.new ≡ out_after bytes_of_sums (group_sums_in page.now (then_some lent names.now) unit.now) out.old) }
{
    let names = lent_names(names, lent);
    let Ok(u) = values::read_value(unit) else {
        return coded(Err(unread_units(page, names, unit, unit)));
    };
    written(
        sums::canonicalize(page, names, sums::or_empty(u)).map(sums_bytes),
        out,
    )
}

// Whether two units, or none, are convertible: 1 for yes.
#[unsafe(no_mangle)]
pub extern "C" fn riddlepoppy_is_convertible_to(
    page: &[u8],
    names: &[u8],
    lent: bool,
    left: &[u8],
    right: &[u8],
) -> u32
    ensures { result ≡ answer_code (convertible_in page.now (then_some lent names.now) left.now right.now) }
{
    let names = lent_names(names, lent);
    let Some((a, b)) = units_in(left, right) else {
        return coded(Err(unread_units(page, names, left, right)));
    };
    answer_code(sums::is_convertible_to(page, names, a, b))
}

// Makes the page a store of the fixed types alone.
#[unsafe(no_mangle)]
pub extern "C" fn riddlepoppy_empty_types(page: &mut [u8]) -> u32
    ensures { (result ≡ packed (store.empty_verdict page.old) 0) × (page.new ≡ store.empty_page page.old) }
{
    coded_verdict(types::empty_types(page))
}

// The number of a type, which is made if it is new.
#[unsafe(no_mangle)]
pub extern "C" fn riddlepoppy_make_type(
    page: &mut [u8],
    names: &[u8],
    lent: bool,
    kind: Kind,
    children: &[u16],
    name: Symbol,
) -> u32
    ensures { (result ≡ number_code (make_answer page.old (then_some lent names.now) kind children.now name)) × (page.new ≡ make_page page.old (then_some lent names.now) kind children.now name) }
{
    let names = lent_names(names, lent);
    coded(types::make_type(page, names, kind, children, name))
}

// How many bytes a type takes that is read: its depth, and its entry.
pub const TYPE_BYTES: usize = 1 + ENTRY_BYTES;

// The places of those bytes.
type TypeBytes = [u8; TYPE_BYTES];

// A type's depth and entry, and zeros after them.
fn type_bytes(shape: Shape) -> TypeBytes
    requires { (shape.depth < 256) × (shape.count ≤ children_max) }
    ensures { result ≡ bytes_of_type shape }
{
    let children = shape.children;
    let count = shape.count;
    let entry = types::entry_of(shape.kind, &children[..count], shape.name.unwrap_or(0));
    let depth = [shape.depth as u8];
    let body = entry.bytes;
    let mut bytes = [0; TYPE_BYTES];
    pages::put_bytes(&mut bytes, 0, &depth);
    pages::put_bytes(&mut bytes, 1, &body);
    bytes
}

// The type with number t: its depth, and its entry.
#[unsafe(no_mangle)]
pub extern "C" fn riddlepoppy_read_type(
    page: &[u8],
    names: &[u8],
    lent: bool,
    t: u32,
    out: &mut [u8; TYPE_BYTES],
) -> u32
    ensures { (result ≡ nothing_code (store.read_answer page.now (then_some lent names.now) t)) × (out.new ≡ out_after bytes_of_type (store.read_answer page.now (then_some lent names.now) t) out.old) }
{
    let names = lent_names(names, lent);
    written(
        types::read_type(page, names, t as usize).map(type_bytes),
        out,
    )
}

// From which number on a checked type is a Function, and from which one none is known.
// The C interface has them in one number, having no enum with fields.
const FUNCTIONS: usize = 65536;

const UNKNOWN: usize = 2 * FUNCTIONS;

// The checked type that a number says.
fn checked_of(c: u32) -> Checked
    ensures { result ≡ checked_of c }
{
    let n = c as usize;
    if n < FUNCTIONS {
        return Checked::Known(n);
    }
    if n < UNKNOWN {
        return Checked::Function(n - FUNCTIONS);
    }
    Checked::Unknown
}

// How many bytes bindings take: their count, the names, and the types as two bytes each.
pub const BINDING_BYTES: usize = TYPES_AT + CHILD_BYTES * BINDINGS;

// Where the types begin.
const TYPES_AT: usize = 1 + BINDINGS;

// The places of the bytes.
type BindingBytes = [u8; BINDING_BYTES];

// The bindings that the bytes say.
fn bindings_in(bytes: BindingBytes) -> Bindings
    ensures { (result ≡ bindings_in bytes) × (result.count < 256) × (length result.names ≡ bindings_max) × (length result.types ≡ bindings_max) }
{
    let mut names = [0; BINDINGS];
    pages::read_bytes(&bytes, 1, &mut names);
    let mut types = [0; BINDINGS];
    pages::read_words(&bytes, TYPES_AT, &mut types);
    Bindings {
        count: usize::from(bytes[0]),
        names,
        types,
    }
}

// The bytes of bindings.
fn binding_bytes(bindings: Bindings) -> BindingBytes
    requires { bindings.count < 256 }
    ensures { result ≡ bytes_of_bindings bindings }
{
    let count = [bindings.count as u8];
    let names = bindings.names;
    let types = bindings.types;
    let mut bytes = [0; BINDING_BYTES];
    pages::put_bytes(&mut bytes, 0, &count);
    pages::put_low_bytes(&mut bytes, 1, &names);
    pages::put_words(&mut bytes, TYPES_AT, &types);
    bytes
}

// Whether a checked type stands for another: 1 for yes.
#[unsafe(no_mangle)]
pub extern "C" fn riddlepoppy_matches(
    page: &[u8],
    names: &[u8],
    lent: bool,
    actual: u32,
    expected: u32,
) -> u32
    ensures { result ≡ answer_code (matches_answer page.now (then_some lent names.now) (checked_of actual) (checked_of expected)) }
{
    let names = lent_names(names, lent);
    let a = checked_of(actual);
    let e = checked_of(expected);
    answer_code(checked::matches(page, names, a, e))
}

// Whether a generic name stands in a type: 1 for yes.
#[unsafe(no_mangle)]
pub extern "C" fn riddlepoppy_has_generic(page: &[u8], names: &[u8], lent: bool, t: u32) -> u32
    ensures { result ≡ answer_code (generic_answer page.now (then_some lent names.now) t) }
{
    let names = lent_names(names, lent);
    answer_code(checked::has_generic(page, names, t as usize))
}

// From which number on an answered checked type is a Function.
const ANSWERED_FUNCTIONS: usize = 32768;

// A checked type as it is answered: its number, of a Function that much higher, or 65,535 where none is known.
fn number_of(c: Checked) -> usize
    ensures { result ≡ number_in c }
{
    match c {
        Checked::Known(t) => t,
        Checked::Function(t) => ANSWERED_FUNCTIONS + t % ANSWERED_FUNCTIONS,
        Checked::Unknown => ABSENT,
    }
}

// The number of a checked type's const form, which is made if it is new.
#[unsafe(no_mangle)]
pub extern "C" fn riddlepoppy_into_const(page: &mut [u8], names: &[u8], lent: bool, c: u32) -> u32
    ensures { (result ≡ const_code (into_const page.old (then_some lent names.now) (checked_of c))) × (page.new ≡ into_const_page page.old (then_some lent names.now) (checked_of c)) }
{
    let names = lent_names(names, lent);
    coded(checked::into_const(page, names, checked_of(c)).map(number_of))
}

// A plain answer as one number, and the bindings beside it written back unless it is a refusal.
fn written_back(res: Unified, bytes: &mut [u8; BINDING_BYTES]) -> u32
    requires { res.bindings.count < 256 }
    ensures { (result ≡ answer_code res.answer) × (bytes.new ≡ bindings_after res.answer res.bindings bytes.old) }
{
    if res.answer.is_ok() {
        *bytes = binding_bytes(res.bindings);
    }
    answer_code(res.answer)
}

// Whether an actual type fits an expected one, 1 for yes, and the bindings then.
#[unsafe(no_mangle)]
pub extern "C" fn riddlepoppy_unify(
    page: &[u8],
    names: &[u8],
    lent: bool,
    expected: u32,
    actual: u32,
    bindings: &mut [u8; BINDING_BYTES],
) -> u32
    ensures { (result ≡ answer_code (unify_in page.now (then_some lent names.now) bindings.old expected actual).answer) × (bindings.new ≡ bindings_after (unify_in page.now (then_some lent names.now) bindings.old expected actual).answer (unify_in page.now (then_some lent names.now) bindings.old expected actual).bindings bindings.old) }
{
    let names = lent_names(names, lent);
    let bytes = *bindings;
    let bound = bindings_in(bytes);
    let result = checked::unify(page, names, bound, expected as usize, actual as usize);
    written_back(result, bindings)
}

// Whether an argument fits a parameter, 1 for yes, and the bindings then.
#[unsafe(no_mangle)]
pub extern "C" fn riddlepoppy_unify_arg(
    page: &[u8],
    names: &[u8],
    lent: bool,
    expected: u32,
    actual: u32,
    bindings: &mut [u8; BINDING_BYTES],
) -> u32
    ensures { (result ≡ answer_code (unify_arg_in page.now (then_some lent names.now) bindings.old expected actual).answer) × (bindings.new ≡ bindings_after (unify_arg_in page.now (then_some lent names.now) bindings.old expected actual).answer (unify_arg_in page.now (then_some lent names.now) bindings.old expected actual).bindings bindings.old) }
{
    let names = lent_names(names, lent);
    let bytes = *bindings;
    let bound = bindings_in(bytes);
    let c = checked_of(actual);
    let result = checked::unify_arg(page, names, bound, expected as usize, c);
    written_back(result, bindings)
}

// The number of a type with its generic names replaced by what they are bound to.
#[unsafe(no_mangle)]
pub extern "C" fn riddlepoppy_substitute(
    page: &mut [u8],
    names: &[u8],
    lent: bool,
    t: u32,
    bindings: &[u8; BINDING_BYTES],
) -> u32
    ensures { (result ≡ number_code (substitute_answer page.old (then_some lent names.now) (bindings_in bindings.now) t)) × (page.new ≡ substitute_page page.old (then_some lent names.now) (bindings_in bindings.now) t) }
{
    let names = lent_names(names, lent);
    let bytes = *bindings;
    let bound = bindings_in(bytes);
    coded(checked::substitute(page, names, bound, t as usize))
}

// An operand: the checked type that a number says, and a unit or none.
fn operand_of(c: u32, unit: Option<Unit>) -> CheckedExpr
    ensures { result ≡ record { checked = checked_of c; unit = unit } }
{
    CheckedExpr {
        checked: checked_of(c),
        unit,
    }
}

// An operand as it is lent: the number of its checked type, and the bytes that say its unit or none.
#[derive(Clone, Copy)]
struct Operand<'a> {
    number: u32,
    unit: &'a [u8],
}

// Why two operands are refused, over a store and n name numbers in use, where the unit of one of them cannot be read.
fn unfit(store: Store, n: usize, left: Operand, right: Operand) -> Refusal
    requires { (readable left.unit.now && readable right.unit.now) ≡ false }
    ensures { Err result ≡ lowest (operands_in store.entry.page.now n left.entry.number left.entry.unit.now right.entry.number right.entry.unit.now) }
{
    if !is_operand_used(store, n, left) {
        return Refusal::Unused;
    }
    if !is_operand_used(store, n, right) {
        return Refusal::Unused;
    }
    Refusal::BadUnit
}

// The same, over a store's page and the names that may be lent.
fn unread_operands(page: &[u8], names: Option<&[u8]>, left: Operand, right: Operand) -> Refusal
    requires { (readable left.unit.now && readable right.unit.now) ≡ false }
    ensures { Err result ≡ operands_verdict_in page.now (option_copied names.entry) left.entry.number left.entry.unit.now right.entry.number right.entry.unit.now }
{
    let mut tables = Tables::new();
    let Ok(n) = types::opened(page, names, &mut tables) else {
        return Refusal::Broken;
    };
    unfit(tables.store(page), n, left, right)
}

// Whether an operand's type, and the symbols that stand in its unit's bytes, of n numbers, are in use.
fn is_operand_used(store: Store, n: usize, x: Operand) -> bool
    ensures { result ≡ operand_used_in store.entry.page.now n x.entry.number x.entry.unit.now }
{
    checked::is_used(store, checked_of(x.number)) && values::are_used(x.unit, n)
}

// How many bytes errors take: their number, two reasons, how many members fail in four bytes, and the first two in two each.
const ERROR_BYTES: usize = 11;

// How many bytes errors take with a unit after them.
pub const ANSWER_BYTES: usize = ERROR_BYTES + UNIT_BYTES;

// The places of those bytes.
type ErrorBytes = [u8; ERROR_BYTES];

type AnswerBytes = [u8; ANSWER_BYTES];

// The bytes of errors, of each number its lowest.
#[tactic(auto, using(crate::proofs::Answers::errors_said))]
fn error_bytes(errors: Errors) -> ErrorBytes
    ensures { result ≡ bytes_of_errors errors }
{
    let (first, second) = errors.reasons();
    let (failing, left, right) = errors.failing();
    let [.., count] = errors.count().to_be_bytes();
    let [.., first] = first.to_be_bytes();
    let [.., second] = second.to_be_bytes();
    let [.., f3, f2, f1, f0] = failing.to_be_bytes();
    let [.., l1, l0] = left.to_be_bytes();
    let [.., r1, r0] = right.to_be_bytes();
    [count, first, second, f3, f2, f1, f0, l1, l0, r1, r0]
}

// The bytes that say that there is no unit.
fn none_bytes() -> UnitBytes
    ensures { result ≡ pad unit_max 0 (none_count ∷ []) }
{
    let none = [NONE_COUNT as u8];
    let mut bytes = [0u8; UNIT_BYTES];
    pages::put_bytes(&mut bytes, 0, &none);
    bytes
}

// The bytes of a unit, or of none.
#[tactic(auto, unfolding(crate::specs::Answers::bytes_of_maybe))]
fn maybe_bytes(m: Option<Unit>) -> UnitBytes
    requires { (or_empty m).count ≤ places_max }
    ensures { result ≡ bytes_of_maybe m }
{
    match m {
        Some(unit) => values::value_bytes(unit),
        None => none_bytes(),
    }
}

// The bytes of an answer: its errors, and its unit or none.
fn answer_bytes(answer: Answered) -> AnswerBytes
    requires { (or_empty answer.unit).count ≤ places_max }
    ensures { result ≡ bytes_of_answer answer }
{
    let e = answer.errors;
    let errors = error_bytes(e);
    let unit = maybe_bytes(answer.unit);
    let mut bytes = [0; ANSWER_BYTES];
    pages::put_bytes(&mut bytes, 0, &errors);
    pages::put_bytes(&mut bytes, ERROR_BYTES, &unit);
    bytes
}

// An answer as one number, and its bytes written down unless it is a refusal.
fn written_down(answered: Result<Answered, Refusal>, out: &mut [u8; ANSWER_BYTES]) -> u32
    requires { IfOk answered (λ a. (or_empty a.unit).count ≤ places_max) }
    ensures { (result ≡ answered_code answered) × (out.new ≡ out_after_answer answered out.old) }
{
    match answered {
        Ok(a) => {
            *out = answer_bytes(a);
            coded(Ok(number_of(a.checked)))
        }
        Err(r) => coded(Err(r)),
    }
}

// Why a binary operator's operands are refused where the unit of one of them cannot be read. The pairs are tested before the store: they are
// at most 512, and a store of 4,096 types takes longer.
fn unread_binary(
    page: &[u8],
    names: Option<&[u8]>,
    table: &[u8],
    op: usize,
    left: Operand,
    right: Operand,
) -> Refusal
    requires { (readable left.unit.now && readable right.unit.now) ≡ false }
    ensures { Err result ≡ binary_verdict_in page.now (option_copied names.entry) table.now op left.entry.number left.entry.unit.now right.entry.number right.entry.unit.now }
{
    if !operators::is_operator(op) {
        return Refusal::Undefined;
    }
    let Ok(n) = pairs::opened(table, names) else {
        return Refusal::Broken;
    };
    let mut tables = Tables::new();
    if let Err(r) = types::survey(page, n, &mut tables) {
        return r;
    }
    unfit(tables.store(page), n, left, right)
}

// Why an operator's one operand is refused where its unit cannot be read.
fn unread_unary(page: &[u8], names: Option<&[u8]>, op: usize, x: Operand) -> Refusal
    requires { readable x.unit.now ≡ false }
    ensures { Err result ≡ unary_verdict_in page.now (option_copied names.entry) op x.entry.number x.entry.unit.now }
{
    if !operators::is_operator(op) {
        return Refusal::Undefined;
    }
    unread_operands(page, names, x, x)
}

// What a binary operator answers for two operands: the number of a type, errors, and a unit or none.
#[unsafe(no_mangle)]
pub extern "C" fn riddlepoppy_check_binary_operator(
    page: &[u8],
    names: &[u8],
    lent: bool,
    table: &[u8],
    op: u32,
    left: u32,
    unit: &[u8],
    right: u32,
    other: &[u8],
    out: &mut [u8; ANSWER_BYTES],
) -> u32
    ensures { (result ≡ answered_code (binary_in page.now (then_some lent names.now) table.now op left unit.now right other.now)) × (out.new ≡ out_after_answer (binary_in page.now (then_some lent names.now) table.now op left unit.now right other.now) out.old) }
{
    let names = lent_names(names, lent);
    let Some((l, r)) = units_in(unit, other) else {
        let a = Operand { number: left, unit };
        let b = Operand {
            number: right,
            unit: other,
        };
        return coded(Err(unread_binary(page, names, table, op as usize, a, b)));
    };
    let a = operand_of(left, l);
    let b = operand_of(right, r);
    let answer = answers::check_binary_operator(page, names, table, op as usize, a, b);
    written_down(answer, out)
}

// What an operator answers for one operand; a union that it answers enters the store.
#[unsafe(no_mangle)]
pub extern "C" fn riddlepoppy_check_unary_operator(
    page: &mut [u8],
    names: &[u8],
    lent: bool,
    op: u32,
    operand: u32,
    unit: &[u8],
    out: &mut [u8; ANSWER_BYTES],
) -> u32
    ensures value { (result ≡ answered_code (unary_in page.old (then_some lent names.now) op operand unit.now)) × (out.new ≡ out_after_answer (unary_in page.old (then_some lent names.now) op operand unit.now) out.old) }
    ensures page_after { page.new ≡ unary_page_in page.old (then_some lent names.now) op operand unit.now }
{
    let names = lent_names(names, lent);
    let Ok(u) = values::read_value(unit) else {
        let x = Operand {
            number: operand,
            unit,
        };
        return coded(Err(unread_unary(page, names, op as usize, x)));
    };
    let x = operand_of(operand, u);
    let answer = answers::check_unary_operator(page, names, op as usize, x);
    written_down(answer, out)
}

// What indexing a target by a key answers; a union that it answers enters the store.
#[unsafe(no_mangle)]
pub extern "C" fn riddlepoppy_check_index(
    page: &mut [u8],
    names: &[u8],
    lent: bool,
    target: u32,
    unit: &[u8],
    key: u32,
    out: &mut [u8; ANSWER_BYTES],
) -> u32
    ensures value { (result ≡ answered_code (index_in page.old (then_some lent names.now) target unit.now key)) × (out.new ≡ out_after_answer (index_in page.old (then_some lent names.now) target unit.now key) out.old) }
    ensures page_after { page.new ≡ index_page_in page.old (then_some lent names.now) target unit.now key }
{
    let names = lent_names(names, lent);
    let Ok(u) = values::read_value(unit) else {
        let none = [NONE_COUNT as u8];
        let x = Operand {
            number: target,
            unit,
        };
        let k = Operand {
            number: key,
            unit: &none,
        };
        return coded(Err(unread_operands(page, names, x, k)));
    };
    let x = operand_of(target, u);
    let answer = answers::check_index(page, names, x, checked_of(key));
    written_down(answer, out)
}

// How many bytes an answer takes with how many errors its formula has after it.
pub const FORMULA_BYTES: usize = ANSWER_BYTES + WORD_BYTES;

// The places of those bytes.
type FormulaBytes = [u8; FORMULA_BYTES];

// The two bytes of how many errors a formula has.
fn error_count_bytes(errors: usize) -> Word
    ensures { result ≡ big_endian word_bytes errors }
{
    let [.., high, low] = errors.to_be_bytes();
    [high, low]
}

// The bytes of a formula: those of what its root answers, and how many errors it has.
fn formula_bytes(formula: FormulaAnswer) -> FormulaBytes
    requires { (or_empty formula.answer.unit).count ≤ places_max }
    ensures { result ≡ bytes_of_formula formula }
{
    let answer = answer_bytes(formula.answer);
    let errors = error_count_bytes(formula.errors);
    let mut bytes = [0; FORMULA_BYTES];
    pages::put_bytes(&mut bytes, 0, &answer);
    pages::put_bytes(&mut bytes, ANSWER_BYTES, &errors);
    bytes
}

// A formula as one number, and its bytes written down unless it is a refusal.
fn written_formula(formula: Result<FormulaAnswer, Refusal>, out: &mut [u8; FORMULA_BYTES]) -> u32
    requires { IfOk formula (λ f. (or_empty f.answer.unit).count ≤ places_max) }
    ensures { (result ≡ formula_code formula) × (out.new ≡ out_after_formula formula out.old) }
{
    match formula {
        Ok(f) => {
            *out = formula_bytes(f);
            coded(Ok(number_of(f.answer.checked)))
        }
        Err(r) => coded(Err(r)),
    }
}

// What the formula of a list of nodes and a root comes to: what its root answers, and how many errors it has; unions that its nodes answer
// enter the store.
#[unsafe(no_mangle)]
pub extern "C" fn riddlepoppy_check_formula(
    page: &mut [u8],
    names: &[u8],
    lent: bool,
    table: &[u8],
    nodes: &[u8],
    root: u32,
    out: &mut [u8; FORMULA_BYTES],
) -> u32
    ensures value { (result ≡ formula_code (check_answer page.old (then_some lent names.now) table.now nodes.now root)) × (out.new ≡ out_after_formula (check_answer page.old (then_some lent names.now) table.now nodes.now root) out.old) }
    ensures page_after { page.new ≡ check_page page.old (then_some lent names.now) table.now nodes.now root }
{
    let names = lent_names(names, lent);
    let formula = formulas::check_formula(page, names, table, nodes, root as usize);
    written_formula(formula, out)
}

// Whether the results' units of two formulas are convertible, over a table into which pairs are inserted first: 1 for yes. Unions that
// nodes answer enter the store. What it says is what the totals of every two routes down the formulas say (`RunRule`).
#[unsafe(no_mangle)]
pub extern "C" fn riddlepoppy_compare_formulas(
    page: &mut [u8],
    names: &[u8],
    lent: bool,
    table: &mut [u8],
    requests: &[u8],
    left: &[u8],
    left_root: u32,
    right: &[u8],
    right_root: u32,
) -> u32
    ensures value { result ≡ compared_code (run_answer page.old (then_some lent names.now) table.old requests.now (formula_lent left.now left_root) (formula_lent right.now right_root)) }
    ensures page_after { page.new ≡ run_page page.old (then_some lent names.now) table.old requests.now (formula_lent left.now left_root) (formula_lent right.now right_root) }
    ensures table_after { table.new ≡ run_table page.old (then_some lent names.now) table.old requests.now (formula_lent left.now left_root) (formula_lent right.now right_root) }
    ensures route_rule { RunRule page.old (then_some lent names.now) table.old requests.now (formula_lent left.now left_root) (formula_lent right.now right_root) (run_answer page.old (then_some lent names.now) table.old requests.now (formula_lent left.now left_root) (formula_lent right.now right_root)) }
{
    let names = lent_names(names, lent);
    let left = Asked {
        nodes: left,
        root: left_root as usize,
    };
    let right = Asked {
        nodes: right,
        root: right_root as usize,
    };
    let compared = routes::compare_formulas(page, names, table, requests, left, right);
    answer_code(compared.map(|c| c.convertible))
}
