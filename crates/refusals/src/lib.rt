// The refusals of document 01 ("Formulas and sheets", the table): one list for every call.
#![tactic(auto)]

ghost use Rattle.std.specs.Prelude.{◌≡◌};
ghost use Rattle.refusals.specs.Numbers.{number_of, code_of};

// Why a call gives no result.
#[derive(Clone, Copy, Debug, PartialEq, Eq, Hash)]
pub enum Refusal {
    // A type kind, node form or operator code is undefined.
    Undefined,
    // A lent store or table, or the bindings, break their form or, with names lent, hold a name number not in use.
    Broken,
    // A name, type or node number is not in use, or a Function's type number is no Callback.
    Unused,
    // A name is malformed.
    Malformed,
    // A unit breaks its form.
    BadUnit,
    // A type has a wrong number of children, or a result union is too wide.
    Width,
    // A type or formula is too deep.
    Depth,
    // A result exponent is outside its limits.
    Exponent,
    // A result has too many symbols.
    Symbols,
    // There is no place for one more.
    Full,
    // A sheet is too long or of bad version, a record cut or misordered, or a body's length wrong.
    Sheet,
}

// The number that document 01 gives a refusal.
impl From<Refusal> for u8 {
    ghost from_gives = { λ r n. n ≡ number_of r };

    fn from(r: Refusal) -> u8 {
        match r {
            Refusal::Undefined => 1,
            Refusal::Broken => 2,
            Refusal::Unused => 3,
            Refusal::Malformed => 4,
            Refusal::BadUnit => 5,
            Refusal::Width => 6,
            Refusal::Depth => 7,
            Refusal::Exponent => 8,
            Refusal::Symbols => 9,
            Refusal::Full => 10,
            Refusal::Sheet => 11,
        }
    }
}

// An answer as a number: 0 where nothing is refused, else the refusal's.
pub fn code<T: Copy>(answer: Result<T, Refusal>) -> u8
    ensures { result ≡ code_of answer }
{
    match answer {
        Ok(_) => 0,
        Err(r) => u8::from(r),
    }
}
