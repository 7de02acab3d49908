// The entry calls for programs in other languages, as a static library. Each is the function of its name in `calls`, which crates
// of this repository call; here they stand once more since no crate can use a static library, and a library exports nothing.
// The numbers, and the `lent` beside a page, are the C interface, which has no Option, Result or enum with fields.
#![tactic(auto)]

ghost use Rattle.std.specs.Prelude.{◌≡◌};
ghost use Rattle.std.specs.Bool.{then_some};
ghost use Rattle.names.specs.Table.{names_max};
ghost use Rattle.names.specs.Calls.{empty_verdict, empty_page, add_answer, page_after, find_answer, read_answer};
ghost use Rattle.units.specs.Calls.{form_verdict, exponent_answer};
ghost use Rattle.groups.specs.Groups.{pair};
ghost use Rattle.pairs.specs.Calls.{pair_verdict, root_answer, factor_answer};
ghost use Rattle.pairs.specs.Calls as tables;
ghost use Rattle.types.specs.Calls.{make_answer, make_page};
ghost use Rattle.types.specs.Calls as store;
ghost use Rattle.checked.specs.Calls.{matches_answer, generic_answer, into_const, into_const_page, substitute_answer, substitute_page};
ghost use Rattle.calls.specs.Types.{bytes_of_type, checked_of, bindings_in, const_code, bindings_after, unify_in, unify_arg_in};
ghost use Rattle.calls.specs.Codes.{packed, number_code, found_code, nothing_code, size_code, out_after, out_after_bytes, power_code, answer_code, unit_or_broken, unitless_in, product_in, text_in, bytes_of_unit, factor_code, out_after_factor, group_sums_in, bytes_of_sums, convertible_in};
ghost use Rattle.formulas.specs.Calls.{check_answer, check_page};
ghost use Rattle.calls.specs.Answers.{answered_code, out_after_answer, binary_in, unary_in, unary_page_in, index_in, index_page_in};
ghost use Rattle.routes.specs.Run.{formula_lent, run_answer, run_page, run_table, RunRule};
ghost use Rattle.calls.specs.Formulas.{formula_code, out_after_formula, compared_code};

use calls::{ANSWER_BYTES, BINDING_BYTES, FORMULA_BYTES, TYPE_BYTES};
use kinds::Kind;
use names::{NAME_BYTES, Symbol};
use pages::LONG_BYTES;
use text::TEXT_BYTES;
use values::UNIT_BYTES;

// Makes the page an empty table of names.
#[unsafe(no_mangle)]
pub extern "C" fn riddlepoppy_empty_names(page: &mut [u8]) -> u32
    ensures { (result ≡ packed (empty_verdict page.old) 0) × (page.new ≡ empty_page page.old) }
{
    calls::riddlepoppy_empty_names(page)
}

// The number of a name, which is added if it is new.
#[unsafe(no_mangle)]
pub extern "C" fn riddlepoppy_add_name(page: &mut [u8], name: &[u8]) -> u32
    ensures { (result ≡ number_code (add_answer names_max page.old name.now)) × (page.new ≡ page_after names_max page.old name.now) }
{
    calls::riddlepoppy_add_name(page, name)
}

// The number of a name, or 65,535 where the table does not have it.
#[unsafe(no_mangle)]
pub extern "C" fn riddlepoppy_find_name(page: &[u8], name: &[u8]) -> u32
    ensures { result ≡ found_code (find_answer page.now name.now) }
{
    calls::riddlepoppy_find_name(page, name)
}

// The name with number k, and its length.
#[unsafe(no_mangle)]
pub extern "C" fn riddlepoppy_read_name(page: &[u8], k: u32, out: &mut [u8; NAME_BYTES]) -> u32
    ensures { (result ≡ size_code (read_answer page.now k)) × (out.new ≡ out_after_bytes (read_answer page.now k) out.old) }
{
    calls::riddlepoppy_read_name(page, k, out)
}

// Whether a unit is in form.
#[unsafe(no_mangle)]
pub extern "C" fn riddlepoppy_unit_form(unit: &[u8]) -> u32
    ensures { result ≡ packed (form_verdict (unit_or_broken unit.now)) 0 }
{
    calls::riddlepoppy_unit_form(unit)
}

// The product of two units or, with `quotient`, their quotient.
#[unsafe(no_mangle)]
pub extern "C" fn riddlepoppy_product(
    a: &[u8],
    b: &[u8],
    quotient: bool,
    out: &mut [u8; UNIT_BYTES],
) -> u32
    ensures { (result ≡ nothing_code (product_in quotient a.now b.now)) × (out.new ≡ out_after bytes_of_unit (product_in quotient a.now b.now) out.old) }
{
    calls::riddlepoppy_product(a, b, quotient, out)
}

// The exponent of a symbol, as its sixteen bits.
#[unsafe(no_mangle)]
pub extern "C" fn riddlepoppy_exponent(unit: &[u8], symbol: Symbol) -> u32
    ensures { result ≡ power_code (exponent_answer (unit_or_broken unit.now) symbol) }
{
    calls::riddlepoppy_exponent(unit, symbol)
}

// Whether there is no unit, or the empty one: 1 for yes.
#[unsafe(no_mangle)]
pub extern "C" fn riddlepoppy_is_dimensionless(bytes: &[u8]) -> u32
    ensures { result ≡ answer_code (unitless_in bytes.now) }
{
    calls::riddlepoppy_is_dimensionless(bytes)
}

// The text of a unit, and its length.
#[unsafe(no_mangle)]
pub extern "C" fn riddlepoppy_unit_text(page: &[u8], unit: &[u8], out: &mut [u8; TEXT_BYTES]) -> u32
    ensures { (result ≡ size_code (text_in page.now unit.now)) × (out.new ≡ out_after_bytes (text_in page.now unit.now) out.old) }
{
    calls::riddlepoppy_unit_text(page, unit, out)
}

// Makes the page a table without pairs.
#[unsafe(no_mangle)]
pub extern "C" fn riddlepoppy_empty_pairs(page: &mut [u8]) -> u32
    ensures { (result ≡ packed (tables.empty_verdict page.old) 0) × (page.new ≡ tables.empty_page page.old) }
{
    calls::riddlepoppy_empty_pairs(page)
}

// Adds a pair, its factor as the 64 bits of an f64, to the table.
#[unsafe(no_mangle)]
pub extern "C" fn riddlepoppy_insert_pair(
    page: &mut [u8],
    names: &[u8],
    lent: bool,
    symbol: Symbol,
    factor: u64,
    base: Symbol,
) -> u32
    ensures { (result ≡ packed (pair_verdict page.old (then_some lent names.now) (pair symbol base)) 0) × (page.new ≡ tables.page_after page.old (then_some lent names.now) symbol factor base) }
{
    calls::riddlepoppy_insert_pair(page, names, lent, symbol, factor, base)
}

// The root of a symbol.
#[unsafe(no_mangle)]
pub extern "C" fn riddlepoppy_canonical(
    page: &[u8],
    names: &[u8],
    lent: bool,
    symbol: Symbol,
) -> u32
    ensures { result ≡ number_code (root_answer page.now (then_some lent names.now) symbol) }
{
    calls::riddlepoppy_canonical(page, names, lent, symbol)
}

// The first factor of a symbol, and its base, or 65,535 where no pair has the symbol.
#[unsafe(no_mangle)]
pub extern "C" fn riddlepoppy_first_factor(
    page: &[u8],
    names: &[u8],
    lent: bool,
    symbol: Symbol,
    out: &mut [u8; LONG_BYTES],
) -> u32
    ensures { (result ≡ factor_code (factor_answer page.now (then_some lent names.now) symbol)) × (out.new ≡ out_after_factor (factor_answer page.now (then_some lent names.now) symbol) out.old) }
{
    calls::riddlepoppy_first_factor(page, names, lent, symbol, out)
}

// The group sums of a unit.
#[unsafe(no_mangle)]
pub extern "C" fn riddlepoppy_canonicalize(
    page: &[u8],
    names: &[u8],
    lent: bool,
    unit: &[u8],
    out: &mut [u8; UNIT_BYTES],
) -> u32
    ensures { (result ≡ nothing_code (group_sums_in page.now (then_some lent names.now) unit.now)) × (out.new ≡ out_after bytes_of_sums (group_sums_in page.now (then_some lent names.now) unit.now) out.old) }
{
    calls::riddlepoppy_canonicalize(page, names, lent, unit, out)
}

// Whether two units, or none, are convertible: 1 for yes.
#[unsafe(no_mangle)]
pub extern "C" fn riddlepoppy_is_convertible_to(
    page: &[u8],
    names: &[u8],
    lent: bool,
    left: &[u8],
    right: &[u8],
) -> u32
    ensures { result ≡ answer_code (convertible_in page.now (then_some lent names.now) left.now right.now) }
{
    calls::riddlepoppy_is_convertible_to(page, names, lent, left, right)
}

// Makes the page a store of the fixed types alone.
#[unsafe(no_mangle)]
pub extern "C" fn riddlepoppy_empty_types(page: &mut [u8]) -> u32
    ensures { (result ≡ packed (store.empty_verdict page.old) 0) × (page.new ≡ store.empty_page page.old) }
{
    calls::riddlepoppy_empty_types(page)
}

// The number of a type, which is made if it is new.
#[unsafe(no_mangle)]
pub extern "C" fn riddlepoppy_make_type(
    page: &mut [u8],
    names: &[u8],
    lent: bool,
    kind: Kind,
    children: &[u16],
    name: Symbol,
) -> u32
    ensures { (result ≡ number_code (make_answer page.old (then_some lent names.now) kind children.now name)) × (page.new ≡ make_page page.old (then_some lent names.now) kind children.now name) }
{
    calls::riddlepoppy_make_type(page, names, lent, kind, children, name)
}

// The type with number t: its depth, and its entry.
#[unsafe(no_mangle)]
pub extern "C" fn riddlepoppy_read_type(
    page: &[u8],
    names: &[u8],
    lent: bool,
    t: u32,
    out: &mut [u8; TYPE_BYTES],
) -> u32
    ensures { (result ≡ nothing_code (store.read_answer page.now (then_some lent names.now) t)) × (out.new ≡ out_after bytes_of_type (store.read_answer page.now (then_some lent names.now) t) out.old) }
{
    calls::riddlepoppy_read_type(page, names, lent, t, out)
}

// Whether a checked type stands for another: 1 for yes.
#[unsafe(no_mangle)]
pub extern "C" fn riddlepoppy_matches(
    page: &[u8],
    names: &[u8],
    lent: bool,
    actual: u32,
    expected: u32,
) -> u32
    ensures { result ≡ answer_code (matches_answer page.now (then_some lent names.now) (checked_of actual) (checked_of expected)) }
{
    calls::riddlepoppy_matches(page, names, lent, actual, expected)
}

// Whether a generic name stands in a type: 1 for yes.
#[unsafe(no_mangle)]
pub extern "C" fn riddlepoppy_has_generic(page: &[u8], names: &[u8], lent: bool, t: u32) -> u32
    ensures { result ≡ answer_code (generic_answer page.now (then_some lent names.now) t) }
{
    calls::riddlepoppy_has_generic(page, names, lent, t)
}

// The number of a checked type's const form, which is made if it is new.
#[unsafe(no_mangle)]
pub extern "C" fn riddlepoppy_into_const(page: &mut [u8], names: &[u8], lent: bool, c: u32) -> u32
    ensures { (result ≡ const_code (into_const page.old (then_some lent names.now) (checked_of c))) × (page.new ≡ into_const_page page.old (then_some lent names.now) (checked_of c)) }
{
    calls::riddlepoppy_into_const(page, names, lent, c)
}

// Whether an actual type fits an expected one, 1 for yes, and the bindings then.
#[unsafe(no_mangle)]
pub extern "C" fn riddlepoppy_unify(
    page: &[u8],
    names: &[u8],
    lent: bool,
    expected: u32,
    actual: u32,
    bindings: &mut [u8; BINDING_BYTES],
) -> u32
    ensures { (result ≡ answer_code (unify_in page.now (then_some lent names.now) bindings.old expected actual).answer) × (bindings.new ≡ bindings_after (unify_in page.now (then_some lent names.now) bindings.old expected actual).answer (unify_in page.now (then_some lent names.now) bindings.old expected actual).bindings bindings.old) }
{
    calls::riddlepoppy_unify(page, names, lent, expected, actual, bindings)
}

// Whether an argument fits a parameter, 1 for yes, and the bindings then.
#[unsafe(no_mangle)]
pub extern "C" fn riddlepoppy_unify_arg(
    page: &[u8],
    names: &[u8],
    lent: bool,
    expected: u32,
    actual: u32,
    bindings: &mut [u8; BINDING_BYTES],
) -> u32
    ensures { (result ≡ answer_code (unify_arg_in page.now (then_some lent names.now) bindings.old expected actual).answer) × (bindings.new ≡ bindings_after (unify_arg_in page.now (then_some lent names.now) bindings.old expected actual).answer (unify_arg_in page.now (then_some lent names.now) bindings.old expected actual).bindings bindings.old) }
{
    calls::riddlepoppy_unify_arg(page, names, lent, expected, actual, bindings)
}

// The number of a type with its generic names replaced by what they are bound to.
#[unsafe(no_mangle)]
pub extern "C" fn riddlepoppy_substitute(
    page: &mut [u8],
    names: &[u8],
    lent: bool,
    t: u32,
    bindings: &[u8; BINDING_BYTES],
) -> u32
    ensures { (result ≡ number_code (substitute_answer page.old (then_some lent names.now) (bindings_in bindings.now) t)) × (page.new ≡ substitute_page page.old (then_some lent names.now) (bindings_in bindings.now) t) }
{
    calls::riddlepoppy_substitute(page, names, lent, t, bindings)
}

// What a binary operator answers for two operands: the number of a type, errors, and a unit or none.
#[unsafe(no_mangle)]
pub extern "C" fn riddlepoppy_check_binary_operator(
    page: &[u8],
    names: &[u8],
    lent: bool,
    table: &[u8],
    op: u32,
    left: u32,
    unit: &[u8],
    right: u32,
    other: &[u8],
    out: &mut [u8; ANSWER_BYTES],
) -> u32
    ensures { (result ≡ answered_code (binary_in page.now (then_some lent names.now) table.now op left unit.now right other.now)) × (out.new ≡ out_after_answer (binary_in page.now (then_some lent names.now) table.now op left unit.now right other.now) out.old) }
{
    calls::riddlepoppy_check_binary_operator(
        page, names, lent, table, op, left, unit, right, other, out,
    )
}

// What an operator answers for one operand; a union that it answers enters the store.
#[unsafe(no_mangle)]
pub extern "C" fn riddlepoppy_check_unary_operator(
    page: &mut [u8],
    names: &[u8],
    lent: bool,
    op: u32,
    operand: u32,
    unit: &[u8],
    out: &mut [u8; ANSWER_BYTES],
) -> u32
    ensures value { (result ≡ answered_code (unary_in page.old (then_some lent names.now) op operand unit.now)) × (out.new ≡ out_after_answer (unary_in page.old (then_some lent names.now) op operand unit.now) out.old) }
    ensures page_after { page.new ≡ unary_page_in page.old (then_some lent names.now) op operand unit.now }
{
    calls::riddlepoppy_check_unary_operator(page, names, lent, op, operand, unit, out)
}

// What indexing a target by a key answers; a union that it answers enters the store.
#[unsafe(no_mangle)]
pub extern "C" fn riddlepoppy_check_index(
    page: &mut [u8],
    names: &[u8],
    lent: bool,
    target: u32,
    unit: &[u8],
    key: u32,
    out: &mut [u8; ANSWER_BYTES],
) -> u32
    ensures value { (result ≡ answered_code (index_in page.old (then_some lent names.now) target unit.now key)) × (out.new ≡ out_after_answer (index_in page.old (then_some lent names.now) target unit.now key) out.old) }
    ensures page_after { page.new ≡ index_page_in page.old (then_some lent names.now) target unit.now key }
{
    calls::riddlepoppy_check_index(page, names, lent, target, unit, key, out)
}

// What the formula of a list of nodes and a root comes to: what its root answers, and how many errors it has; unions that its nodes answer
// enter the store.
#[unsafe(no_mangle)]
pub extern "C" fn riddlepoppy_check_formula(
    page: &mut [u8],
    names: &[u8],
    lent: bool,
    table: &[u8],
    nodes: &[u8],
    root: u32,
    out: &mut [u8; FORMULA_BYTES],
) -> u32
    ensures value { (result ≡ formula_code (check_answer page.old (then_some lent names.now) table.now nodes.now root)) × (out.new ≡ out_after_formula (check_answer page.old (then_some lent names.now) table.now nodes.now root) out.old) }
    ensures page_after { page.new ≡ check_page page.old (then_some lent names.now) table.now nodes.now root }
{
    calls::riddlepoppy_check_formula(page, names, lent, table, nodes, root, out)
}

// Whether the results' units of two formulas are convertible, over a table into which pairs are inserted first: 1 for yes. Unions that
// nodes answer enter the store. What it says is what the totals of every two routes down the formulas say (`RunRule`).
#[unsafe(no_mangle)]
pub extern "C" fn riddlepoppy_compare_formulas(
    page: &mut [u8],
    names: &[u8],
    lent: bool,
    table: &mut [u8],
    requests: &[u8],
    left: &[u8],
    left_root: u32,
    right: &[u8],
    right_root: u32,
) -> u32
    ensures value { result ≡ compared_code (run_answer page.old (then_some lent names.now) table.old requests.now (formula_lent left.now left_root) (formula_lent right.now right_root)) }
    ensures page_after { page.new ≡ run_page page.old (then_some lent names.now) table.old requests.now (formula_lent left.now left_root) (formula_lent right.now right_root) }
    ensures table_after { table.new ≡ run_table page.old (then_some lent names.now) table.old requests.now (formula_lent left.now left_root) (formula_lent right.now right_root) }
    ensures route_rule { RunRule page.old (then_some lent names.now) table.old requests.now (formula_lent left.now left_root) (formula_lent right.now right_root) (run_answer page.old (then_some lent names.now) table.old requests.now (formula_lent left.now left_root) (formula_lent right.now right_root)) }
{
    calls::riddlepoppy_compare_formulas(
        page, names, lent, table, requests, left, left_root, right, right_root,
    )
}
