// Document 01's cases that are executed and not proved as rows of `cases`: "Array Byte takes Array Int; Byte refuses Int", "Unequal
// lengths bind nothing" ("Types"), "m^1000/m passes; m^1000 times m is refusal 8" ("Units and pairs"), those of operators and
// indexing ("Answers"), and refusals 3 and 5 of symbols that no byte holds.
#![tactic(auto)]

ghost use Rattle.std.specs.Prelude.{◌≡◌, true, false, [], ◌∷◌, ◌<◌};
ghost use Rattle.refusals.specs.Numbers.{code_of};
ghost use Rattle.names.specs.Table.{names_max};
ghost use Rattle.units.specs.Unit.{places_max, term};
ghost use Rattle.units.specs.Unit as units;
ghost use Rattle.units.specs.Calls.{terms_of, unit_of};
ghost use Rattle.groups.specs.Groups.{pair};
ghost use Rattle.pairs.specs.Table.{both_used};
ghost use Rattle.types.specs.Store.{formed};
ghost use Rattle.types.specs.Types.{types_in};
ghost use Rattle.unification.specs.Unification.{said, unify};
ghost use Rattle.executed.specs.Rows.{unbound, inch_table, in_use_said, passed, BinaryRow, UnaryRow, IndexRow, ConvertRow};

use answers::{Answered, CheckedExpr};
use bindings::{BINDINGS, Bindings};
use marks::TINY_BYTES;
use matching::{Checked, Matcher, TINY_MEMO};
use names::Symbol;
use operators::{Errors, Failing, MINUS, Reason};
use refusals::Refusal;
use types::{NULL, Tables};
use unification::Unifier;
use units::{PLACES, Unit};

// The numbers of fixed types, each the code of its kind.
const INT: usize = 1;

const UINT: usize = 3;

const FLOAT: usize = 5;

const BYTE: usize = 11;

// A store of Array Byte and Array Int.
const ARRAYS: [u8; 10] = [0, 2, 1, 19, 0, 11, 1, 19, 0, 1];

const ARRAY_BYTE: usize = 19;

const ARRAY_INT: usize = 20;

// A store of A, the Generic with name 0, Tuple(A) and Tuple(Int, Int).
const TUPLES: [u8; 15] = [0, 3, 0, 37, 0, 1, 27, 0, 19, 2, 27, 0, 1, 0, 1];

const TUPLE_A: usize = 20;

const TUPLE_INT_INT: usize = 21;

// A store of Any(Int, Float), Any(Int), Tuple(Int) and Array Float.
const UNIONS: [u8; 20] = [
    // a count of 4
    0, 4,
    // Any(Int, Float)
    2, 29, 0, 1, 0, 5,
    // Any(Int)
    1, 29, 0, 1,
    // Tuple(Int)
    1, 27, 0, 1,
    // Array Float
    1, 19, 0, 5,
];

const ANY_INT_FLOAT: usize = 19;

const ANY_INT: usize = 20;

const TUPLE_INT: usize = 21;

const ARRAY_FLOAT: usize = 22;

// How many names are in use in the stores `ARRAYS` and `TUPLES`, in which A has number 0. The four of `SYMBOLS` are of units.
const NAMES: usize = 1;

const METRE: Symbol = 0;

const SECOND: Symbol = 1;

const MILLIMETRE: Symbol = 2;

const INCH: Symbol = 3;

// A table of their names, m, s, mm and in.
const SYMBOLS: [u8; 12] = [0, 4, 1, 109, 1, 115, 2, 109, 109, 2, 105, 110];

// 25.4, the factor of the pair (in, mm), as the bits of an f64.
const FACTOR: u64 = 0x4039666666666666;

// How many bytes a table of one pair takes.
const TABLE_BYTES: usize = 268;

// Units: none, m, m^1000, s, mm, in.
const NO_UNIT: Option<Unit> = None;

const M: Option<Unit> = Some(Unit {
    count: 1,
    symbols: [METRE, 0, 0, 0, 0, 0, 0, 0],
    exponents: [1, 0, 0, 0, 0, 0, 0, 0],
});

const LARGE: Option<Unit> = Some(Unit {
    count: 1,
    symbols: [METRE, 0, 0, 0, 0, 0, 0, 0],
    exponents: [1000, 0, 0, 0, 0, 0, 0, 0],
});

const S: Option<Unit> = Some(Unit {
    count: 1,
    symbols: [SECOND, 0, 0, 0, 0, 0, 0, 0],
    exponents: [1, 0, 0, 0, 0, 0, 0, 0],
});

const MM: Option<Unit> = Some(Unit {
    count: 1,
    symbols: [MILLIMETRE, 0, 0, 0, 0, 0, 0, 0],
    exponents: [1, 0, 0, 0, 0, 0, 0, 0],
});

const IN: Option<Unit> = Some(Unit {
    count: 1,
    symbols: [INCH, 0, 0, 0, 0, 0, 0, 0],
    exponents: [1, 0, 0, 0, 0, 0, 0, 0],
});

// Units of one symbol that no byte holds.
const WIDE_256: Option<Unit> = Some(Unit {
    count: 1,
    symbols: [256, 0, 0, 0, 0, 0, 0, 0],
    exponents: [1, 0, 0, 0, 0, 0, 0, 0],
});

const WIDE_300: Option<Unit> = Some(Unit {
    count: 1,
    symbols: [300, 0, 0, 0, 0, 0, 0, 0],
    exponents: [1, 0, 0, 0, 0, 0, 0, 0],
});

// Units that say nine symbols, of which eight stand in their places: the eighth is one that a name can have, or one that no byte holds.
const NINE: Option<Unit> = Some(Unit {
    count: 9,
    symbols: [0, 1, 2, 3, 4, 5, 6, 7],
    exponents: [1; PLACES],
});

const NINE_WIDE: Option<Unit> = Some(Unit {
    count: 9,
    symbols: [0, 1, 2, 3, 4, 5, 6, 300],
    exponents: [1; PLACES],
});

// How many names are said to be in use: more than there can be.
const IN_USE: usize = 300;

// Operands: a type with a unit or none.
const UINT_PLAIN: CheckedExpr = CheckedExpr {
    checked: Checked::Known(UINT),
    unit: NO_UNIT,
};

const UINT_MM: CheckedExpr = CheckedExpr {
    checked: Checked::Known(UINT),
    unit: MM,
};

const UINT_S: CheckedExpr = CheckedExpr {
    checked: Checked::Known(UINT),
    unit: S,
};

const UINT_IN: CheckedExpr = CheckedExpr {
    checked: Checked::Known(UINT),
    unit: IN,
};

const INT_M: CheckedExpr = CheckedExpr {
    checked: Checked::Known(INT),
    unit: M,
};

const INT_MM: CheckedExpr = CheckedExpr {
    checked: Checked::Known(INT),
    unit: MM,
};

const UNION_MM: CheckedExpr = CheckedExpr {
    checked: Checked::Known(ANY_INT_FLOAT),
    unit: MM,
};

const UNION_LARGE: CheckedExpr = CheckedExpr {
    checked: Checked::Known(ANY_INT_FLOAT),
    unit: LARGE,
};

const ANY_INT_LARGE: CheckedExpr = CheckedExpr {
    checked: Checked::Known(ANY_INT),
    unit: LARGE,
};

const NULL_PLAIN: CheckedExpr = CheckedExpr {
    checked: Checked::Known(NULL),
    unit: NO_UNIT,
};

const TUPLE_PLAIN: CheckedExpr = CheckedExpr {
    checked: Checked::Known(TUPLE_INT),
    unit: NO_UNIT,
};

const ARRAY_FLOAT_MM: CheckedExpr = CheckedExpr {
    checked: Checked::Known(ARRAY_FLOAT),
    unit: MM,
};

// Operators: + and ×.
const PLUS: usize = 1;

const TIMES: usize = 3;

// Errors: none, reason 2, reason 7 for one pair of members, which is (Float, Int), and reason 10.
const NO_ERROR: Errors = Errors::None;

const BAD_UNITS: Errors = Errors::One(Reason::BadUnits);

const ONE_FAILS: Errors = Errors::SomeFail(Failing {
    count: 1,
    left: 5,
    right: Some(1),
});

const NOT_INDEXABLE: Errors = Errors::One(Reason::NotIndexable);

// No name bound.
fn no_bindings() -> Bindings
    ensures { result ≡ unbound }
{
    Bindings {
        count: 0,
        names: [0; BINDINGS],
        types: [0; BINDINGS],
    }
}

// Expects that an answer has this number, 0 where nothing is refused.
fn expect_code<T: Copy>(answer: Result<T, Refusal>, number: u8)
    requires { code_of answer ≡ number }
{
    check::expect(refusals::code(answer) == number);
}

// Expects of two types of a store that the first, expected, takes the second or, with `yes` false, refuses it, and that no name is bound.
fn expect_unified(page: &[u8], e: usize, a: usize, yes: bool)
    requires page_value { formed page.now 1 ≡ true }
    requires e_bound { (e < types_in page.now) × (a < types_in page.now) }
    requires unbound_value { unify page.now e a unbound ≡ said yes unbound }
{
    let mut tables = Tables::new();
    check::expect(types::survey(page, NAMES, &mut tables).is_ok());
    let store = tables.store(page);
    let mut memo = [0; TINY_MEMO];
    let mut seen = [0; TINY_BYTES];
    let mut unifier = Unifier {
        matcher: Matcher {
            store,
            table: &mut memo,
        },
        seen: &mut seen,
        bindings: no_bindings(),
    };
    let answer = unifier.unify(e, a);
    check::expect(answer == Ok(yes));
    check::expect(unifier.bindings.count == 0);
}

// The cases of types.
fn expect_types() {
    expect_unified(&ARRAYS, ARRAY_BYTE, ARRAY_INT, true);
    expect_unified(&ARRAYS, BYTE, INT, false);
    expect_unified(&TUPLES, TUPLE_A, TUPLE_INT_INT, false);
}

// A symbol to a power.
fn power(symbol: Symbol, exponent: i16) -> Unit
    ensures { result ≡ unit_of (term symbol exponent ∷ []) }
{
    units::with_term(units::dimensionless(), symbol, exponent)
}

// The cases of units.
fn expect_units() {
    let large = power(METRE, 1000);
    let metre = power(METRE, 1);
    let quotient = units::product(large, metre, true);
    expect_code(quotient, 0);
    let product = units::product(large, metre, false);
    expect_code(product, 8);
}

// An answer without a refusal.
fn passed(checked: Checked, unit: Option<Unit>, errors: Errors) -> Result<Answered, Refusal>
    ensures { result ≡ passed checked unit errors }
{
    Ok(Answered {
        checked,
        unit,
        errors,
    })
}

// A table of the pair (in, mm).
fn inch_table() -> [u8; TABLE_BYTES]
    ensures { result ≡ inch_table }
{
    let mut table = [0u8; TABLE_BYTES];
    check::expect(pairs::empty_pairs(&mut table).is_ok());
    check::expect(pairs::insert_pair(&mut table, Some(&SYMBOLS), INCH, FACTOR, MILLIMETRE).is_ok());
    table
}

// Expects two answers to be one.
fn expect_answer(a: Result<Answered, Refusal>, b: Result<Answered, Refusal>)
    requires { a ≡ b }
{
    check::expect(a == b);
}

// Expects what a binary operator answers, over the store of unions and the table of the pair (in, mm).
fn expect_binary(
    op: usize,
    left: CheckedExpr,
    right: CheckedExpr,
    expected: Result<Answered, Refusal>,
)
    requires { BinaryRow op left right expected }
{
    let table = inch_table();
    let a = answers::check_binary_operator(&UNIONS, Some(&SYMBOLS), &table, op, left, right);
    expect_answer(a, expected);
}

// Expects what an operator answers for one operand, over that store, which stays as it is.
fn expect_unary(op: usize, x: CheckedExpr, expected: Result<Answered, Refusal>)
    requires { UnaryRow op x expected }
{
    let mut page = UNIONS;
    let a = answers::check_unary_operator(&mut page, Some(&SYMBOLS), op, x);
    expect_answer(a, expected);
    check::expect(check::same(&page, &UNIONS));
}

// Expects what indexing a target by an Int answers, over that store, which stays as it is.
fn expect_index(target: CheckedExpr, expected: Result<Answered, Refusal>)
    requires { IndexRow target expected }
{
    let mut page = UNIONS;
    let a = answers::check_index(&mut page, Some(&SYMBOLS), target, Checked::Known(INT));
    expect_answer(a, expected);
    check::expect(check::same(&page, &UNIONS));
}

// The cases of sums: "Sums with one unitless side adopt the other's unit. A sum or difference of two units that are not convertible,
// neither side unitless, never answers a number without an error, UInt included; a number answered from two convertible ones has
// the left's".
fn expect_sums() {
    let uint = Checked::Known(UINT);
    let mm = passed(uint, MM, NO_ERROR);
    let inch = passed(uint, IN, NO_ERROR);
    let bad = passed(uint, NO_UNIT, BAD_UNITS);
    expect_binary(PLUS, UINT_MM, UINT_MM, mm);
    expect_binary(PLUS, UINT_PLAIN, UINT_MM, mm);
    expect_binary(PLUS, UINT_MM, UINT_PLAIN, mm);
    expect_binary(PLUS, UINT_IN, UINT_MM, inch);
    expect_binary(PLUS, UINT_MM, UINT_IN, mm);
    expect_binary(PLUS, UINT_MM, UINT_S, bad);
    expect_binary(MINUS, UINT_MM, UINT_S, bad);
}

// The cases of unions: no member's trial meets a unit's limits, the final result does; "Unary − on Any(Int, Float) with mm: that
// union, no unit".
fn expect_unions() {
    let one_fails = passed(Checked::Unknown, NO_UNIT, ONE_FAILS);
    expect_binary(TIMES, UNION_LARGE, INT_M, one_fails);
    expect_binary(TIMES, ANY_INT_LARGE, INT_M, Err(Refusal::Exponent));
    let union = passed(Checked::Known(ANY_INT_FLOAT), NO_UNIT, NO_ERROR);
    expect_unary(MINUS, UNION_MM, union);
}

// The cases of indexing: "Null and tuple targets index to Unknown with no error", "An index keeps its target's unit", with an error too.
fn expect_indexing() {
    let unknown = passed(Checked::Unknown, NO_UNIT, NO_ERROR);
    let element = passed(Checked::Known(FLOAT), MM, NO_ERROR);
    let kept = passed(Checked::Unknown, MM, NOT_INDEXABLE);
    expect_index(NULL_PLAIN, unknown);
    expect_index(TUPLE_PLAIN, unknown);
    expect_index(ARRAY_FLOAT_MM, element);
    expect_index(INT_MM, kept);
}

// Expects that asking whether two units convert is refused, over the table of the pair (in, mm), without names lent.
fn expect_unconverted(left: Option<Unit>, right: Option<Unit>, refusal: u8)
    requires { ConvertRow left right refusal }
{
    let table = inch_table();
    let answer = sums::is_convertible_to(&table, None, left, right);
    expect_code(answer, refusal);
}

// Expects that a unit is refused for its form (5): by itself, on the left of a product, and on the right of a quotient.
fn expect_unformed(u: Unit)
    requires { units.formed places_max names_max (terms_of u) ≡ false }
{
    let metre = power(METRE, 1);
    let form = units::unit_form(u);
    expect_code(form, 5);
    let product = units::product(u, metre, false);
    expect_code(product, 5);
    let quotient = units::product(metre, u, true);
    expect_code(quotient, 5);
}

// Expects that a pair is refused by value for a symbol not in use (3), where more names are said to be in use than there can be.
fn expect_unused(symbol: Symbol, base: Symbol)
    requires { both_used in_use_said (pair symbol base) ≡ false }
{
    let out = pairs::inserted(pairs::fresh_table(), IN_USE, symbol, FACTOR, base);
    expect_code(out, 3);
}

// The cases of symbols that no byte holds: a number not in use (3) wherever symbols are looked up, by value those in the eight
// places; where none is looked up, a unit that breaks its form (5).
fn expect_wide() {
    expect_unconverted(WIDE_256, NO_UNIT, 3);
    expect_unconverted(MM, WIDE_300, 3);
    expect_unconverted(NINE_WIDE, NO_UNIT, 3);
    expect_unconverted(NINE, NO_UNIT, 5);
    expect_unformed(power(256, 1));
    expect_unformed(power(300, 1));
    expect_unused(280, 1);
    expect_unused(1, 280);
}

fn main() {
    expect_types();
    expect_units();
    expect_sums();
    expect_unions();
    expect_indexing();
    expect_wide();
}
