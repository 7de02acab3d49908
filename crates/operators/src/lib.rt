// Operators on plain types (document 01, "Answers"; operators/mod.rs, binary.rs and unary.rs of the source).
#![tactic(auto)]

ghost use Rattle.std.specs.Prelude.{◌≡◌, true, ◌<◌, cond, Some, None};
ghost use Rattle.operators.specs.Operators.{is_operator, row_of, family_of, is_number, class_takes, rule_looks, rule_gives, taker_of};
ghost use Rattle.operators.specs.Outcome.{count_of, first_of, second_of, failing_of, left_of, right_of, no_error, outcome, number_of, is_known, passes, not_bools, class_misfit, plain_binary, unary_reason, plain_unary};

use kinds::{CENUM, INT, Kind, RECORD};
use matching::Checked;

// How many operators there are. Their codes begin at 1, and are numbers: an enum would ask more of callers, who may ask with any number
// (docs/DECISIONS.md).
const OPERATORS: usize = 13;

// The operator −, which has two operands or one.
pub const MINUS: usize = 2;

// The operator !, which has one.
const BANG: usize = 13;

// Classes of operators.
#[derive(Clone, Copy, Debug, PartialEq, Eq)]
pub enum Class {
    NotBinary,
    // + − × /
    Arithmetic,
    // < > <= >=
    Ordering,
    // == !=
    Equality,
    // and, or
    Logic,
}

// What operators do with units.
#[derive(Clone, Copy, Debug, PartialEq, Eq)]
pub enum UnitRule {
    Ignored,
    // A unitless side adopts the other's.
    Adopted,
    Multiplied,
    Divided,
    Compared,
}

// What operators answer: nothing, the operands' family, or Bool.
#[derive(Clone, Copy, Debug, PartialEq, Eq)]
pub enum ResultRule {
    Nothing,
    Operands,
    Truth,
}

// An operator's class, unit rule and result rule.
#[derive(Clone, Copy, Debug, PartialEq, Eq)]
pub struct Row {
    pub class: Class,
    pub unit: UnitRule,
    pub result: ResultRule,
}

// The row of + and −, with two operands.
const SUM: Row = Row {
    class: Class::Arithmetic,
    unit: UnitRule::Adopted,
    result: ResultRule::Operands,
};

// The row of ×.
const PRODUCT: Row = Row {
    class: Class::Arithmetic,
    unit: UnitRule::Multiplied,
    result: ResultRule::Operands,
};

// The row of /.
const QUOTIENT: Row = Row {
    class: Class::Arithmetic,
    unit: UnitRule::Divided,
    result: ResultRule::Operands,
};

// The row of <, >, <= and >=.
const ORDER: Row = Row {
    class: Class::Ordering,
    unit: UnitRule::Compared,
    result: ResultRule::Truth,
};

// The row of == and !=.
const EQUAL: Row = Row {
    class: Class::Equality,
    unit: UnitRule::Compared,
    result: ResultRule::Truth,
};

// The row of `and` and `or`.
const BOTH: Row = Row {
    class: Class::Logic,
    unit: UnitRule::Ignored,
    result: ResultRule::Truth,
};

// The row of !, and each number that is no operator's code.
const UNARY: Row = Row {
    class: Class::NotBinary,
    unit: UnitRule::Ignored,
    result: ResultRule::Nothing,
};

// The rows of + − × / < > <= >= == != and or ! in the order of their codes.
const ROWS: [Row; OPERATORS] = [
    SUM, SUM, PRODUCT, QUOTIENT, ORDER, ORDER, ORDER, ORDER, EQUAL, EQUAL, BOTH, BOTH, UNARY,
];

// Families: the plain one of a kind and its const form. Where there is none it is Null's code, and no Option, as callers lend any kind
// for a family.
pub const NO_FAMILY: Kind = 0;

// The family of UInt.
const UINT: Kind = 3;

// The family of Float.
const FLOAT: Kind = 5;

// The family of Bool.
const BOOL: Kind = 7;

// The last of the kinds of Int, UInt and Float.
const CFLOAT: Kind = 6;

// The last of the fixed kinds that have a family.
const CCHAR: Kind = 14;

// Why a check fails, with document 01's numbers. Reason 7, that some members fail, has more beside it.
#[derive(Clone, Copy, Debug, PartialEq, Eq)]
pub enum Reason {
    BadTypes = 1,
    BadUnits = 2,
    LeftNotBool = 3,
    RightNotBool = 4,
    UnknownHere = 5,
    UintNegated = 6,
    NoMember = 8,
    BadKey = 9,
    NotIndexable = 10,
}

// The number of reason 7.
const MEMBERS_FAIL: usize = 7;

// The errors of a check in order.
#[derive(Clone, Copy, Debug, PartialEq, Eq)]
pub enum Errors {
    None,
    One(Reason),
    Two(Reason, Reason),
    SomeFail(Failing),
}

// How many members fail, and the first of them: one member, or a pair.
#[derive(Clone, Copy, Debug, PartialEq, Eq)]
pub struct Failing {
    pub count: usize,
    pub left: usize,
    pub right: Option<usize>,
}

impl Errors {
    // How many errors there are.
    pub fn count(self) -> usize
        ensures { result ≡ count_of self }
    {
        match self {
            Errors::None => 0,
            Errors::One(_) => 1,
            Errors::Two(_, _) => 2,
            Errors::SomeFail(_) => 1,
        }
    }

    // The numbers of their reasons, 0 where there is none: what the bytes of an answer say, as what `failing` answers.
    pub fn reasons(self) -> (usize, usize)
        ensures { (result.0 ≡ first_of self) × (result.1 ≡ second_of self) }
    {
        match self {
            Errors::None => (0, 0),
            Errors::One(r) => (r as usize, 0),
            Errors::Two(r, s) => (r as usize, s as usize),
            Errors::SomeFail(_) => (MEMBERS_FAIL, 0),
        }
    }

    // How many members fail and the first of them, 0 where no members were tried or there is none.
    pub fn failing(self) -> (usize, usize, usize)
        ensures { (result.0 ≡ failing_of self) × (result.1 ≡ left_of self) × (result.2 ≡ right_of self) }
    {
        match self {
            Errors::SomeFail(f) => (f.count, f.left, f.right.unwrap_or(0)),
            _ => (0, 0, 0),
        }
    }
}

// What a check comes to, but for the unit.
#[derive(Clone, Copy)]
pub struct Outcome {
    pub checked: Checked,
    pub errors: Errors,
}

// A Known type without an error.
pub fn known(t: usize) -> Outcome
    ensures { result ≡ outcome (Checked.Known t) no_error }
{
    known_with(t, Errors::None)
}

// A Known type, with these errors.
pub fn known_with(t: usize, errors: Errors) -> Outcome
    ensures { result ≡ outcome (Checked.Known t) errors }
{
    Outcome {
        checked: Checked::Known(t),
        errors,
    }
}

// Unknown, with these errors.
pub fn unknown(errors: Errors) -> Outcome
    ensures { result ≡ outcome Checked.Unknown errors }
{
    Outcome {
        checked: Checked::Unknown,
        errors,
    }
}

// The number of a Known type, if one is known.
pub fn number_of(c: Checked) -> Option<usize>
    ensures { result ≡ cond (is_known c) (Some (number_of c)) None }
{
    match c {
        Checked::Known(t) => Some(t),
        Checked::Unknown | Checked::Function(_) => None,
    }
}

impl Outcome {
    // The type that a check passes with: a Known one, without an error.
    #[tactic(auto, unfolding(crate::specs::Outcome::passes))]
    pub fn passed(self) -> Option<usize>
        ensures { result ≡ cond (passes self) (Some (number_of self.checked)) None }
    {
        match self.errors {
            Errors::None => number_of(self.checked),
            _ => None,
        }
    }
}

// Whether a number is the code of an operator.
pub fn is_operator(op: usize) -> bool
    ensures { result ≡ is_operator op }
{
    matches!(op, 1..=OPERATORS)
}

// The row of an operator; a number that is no operator's code has that of the operators that are not binary.
#[tactic(auto, using(crate::proofs::Table::row_of_other))]
pub fn row_of(op: usize) -> Row
    ensures { result ≡ row_of op }
{
    if is_operator(op) { ROWS[op - 1] } else { UNARY }
}

// A kind's family.
#[tactic(auto, unfolding(crate::specs::Operators::family_of))]
pub fn family_of(k: Kind) -> Kind
    ensures { result ≡ family_of k }
{
    match k {
        INT..=CCHAR => k - (k + 1) % 2,
        RECORD..=CENUM => k - k % 2,
        _ => NO_FAMILY,
    }
}

// Whether a kind is a number's.
fn is_number(k: Kind) -> bool
    ensures { result ≡ is_number k }
{
    matches!(k, INT..=CFLOAT) || kinds::is_byte(k)
}

// An error for each side that is no Bool, of `and` and `or`.
#[tactic(auto, unfolding(crate::specs::Outcome::not_bools))]
fn not_bools(f: Kind, g: Kind) -> Errors
    ensures { result ≡ not_bools f g }
{
    if f == BOOL {
        return Errors::One(Reason::RightNotBool);
    }
    if g == BOOL {
        return Errors::One(Reason::LeftNotBool);
    }
    Errors::Two(Reason::LeftNotBool, Reason::RightNotBool)
}

impl Row {
    // Whether the operator takes two operands of that family.
    fn takes(self, f: Kind) -> bool
        ensures { result ≡ class_takes self.class f }
    {
        match self.class {
            Class::NotBinary => false,
            Class::Arithmetic | Class::Ordering => is_number(f),
            Class::Equality => f != NO_FAMILY,
            Class::Logic => f == BOOL,
        }
    }

    // Whether it looks at the units of two operands of that family.
    fn looks(self, f: Kind) -> bool
        ensures { result ≡ rule_looks self.unit self.class f }
    {
        match self.unit {
            UnitRule::Adopted => true,
            UnitRule::Compared => self.class == Class::Equality || f == INT || f == FLOAT,
            UnitRule::Ignored | UnitRule::Multiplied | UnitRule::Divided => false,
        }
    }

    // The kind of its answer for operands of that family.
    fn given(self, f: Kind) -> usize
        ensures { result ≡ rule_gives self.result f }
    {
        match self.result {
            ResultRule::Operands => f as usize,
            ResultRule::Nothing | ResultRule::Truth => BOOL as usize,
        }
    }

    // What it answers with an error. `suit` is a finding of the caller's: the operands are of one family, which it takes.
    fn misfit(self, suit: bool, f: Kind, g: Kind) -> Outcome
        ensures { result ≡ class_misfit self.class suit (rule_gives self.result f) (not_bools f g) }
    {
        match self.class {
            Class::NotBinary => unknown(Errors::One(Reason::UnknownHere)),
            Class::Logic => known_with(BOOL as usize, not_bools(f, g)),
            _ if suit => known_with(self.given(f), Errors::One(Reason::BadUnits)),
            Class::Equality => known_with(BOOL as usize, Errors::One(Reason::BadTypes)),
            Class::Arithmetic | Class::Ordering => unknown(Errors::One(Reason::BadTypes)),
        }
    }
}

// A binary operator's own rule on two families; the operands' units clash or not.
#[tactic(auto, unfolding(crate::specs::Outcome::plain_binary, crate::specs::Outcome::misfit, crate::specs::Operators::fits, crate::specs::Operators::suits, crate::specs::Operators::takes, crate::specs::Operators::looks, crate::specs::Operators::gives))]
pub fn plain_binary(op: usize, clash: bool, f: Kind, g: Kind) -> Outcome
    ensures { result ≡ plain_binary op clash f g }
{
    let row = row_of(op);
    let suit = f == g && row.takes(f);
    if suit && !(clash && row.looks(f)) {
        known(row.given(f))
    } else {
        row.misfit(suit, f, g)
    }
}

// The operator with one operand that takes a kind, 0 for none. The definition is a number too, by which leaves are told apart as by a
// family, so that an Option would be turned back at once.
#[tactic(auto, unfolding(crate::specs::Operators::taker_of))]
pub fn taker_of(k: Kind) -> usize
    ensures { result ≡ taker_of k }
{
    match family_of(k) {
        INT | FLOAT => MINUS,
        BOOL => BANG,
        _ => 0,
    }
}

// Why an operator does not take a kind as its one operand.
#[tactic(auto, unfolding(crate::specs::Outcome::unary_reason))]
fn unary_reason(op: usize, k: Kind) -> Reason
    ensures { result ≡ unary_reason op k }
{
    match op {
        MINUS if family_of(k) == UINT => Reason::UintNegated,
        MINUS | BANG => Reason::BadTypes,
        _ => Reason::UnknownHere,
    }
}

// An operator's own rule on one operand.
#[tactic(auto, unfolding(crate::specs::Outcome::plain_unary))]
pub fn plain_unary(op: usize, k: Kind) -> Outcome
    ensures { result ≡ plain_unary op k }
{
    if taker_of(k) == op {
        return known(family_of(k) as usize);
    }
    unknown(Errors::One(unary_reason(op, k)))
}
