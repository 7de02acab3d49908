// The kinds of types, by their codes (document 01, "Types"; `TypeAnnotation` of the source's types.rs).
#![tactic(auto)]

ghost use Rattle.std.specs.Prelude.{◌≡◌, ◌≤◌};
ghost use Rattle.kinds.specs.Kinds.{children_max, is_int, is_byte, is_array, is_set, is_result, is_map, is_tuple, is_record, is_enum, is_built, is_union, is_named, is_stored, fewest, most, is_plain, const_variant, const_matches};

// The code of a kind; no enum, as the functions are lent any byte, and the const form of a code k, k + 1, and its family in `operators`,
// k - k % 2 or k - (k + 1) % 2, are arithmetic on codes.
pub type Kind = u8;

// How many types are always there, under the codes of their kinds.
pub const FIXED: usize = 19;

// How many children a type has at most.
pub const CHILDREN: usize = 16;

pub const INT: Kind = 1;

const CINT: Kind = 2;

const BYTE: Kind = 11;

const CBYTE: Kind = 12;

const ERROR: Kind = 15;

pub const HANDLE_INFER: Kind = 17;

pub const FN: Kind = 18;

const ARRAY: Kind = 19;

const CARRAY: Kind = 20;

const SET: Kind = 21;

const CSET: Kind = 22;

const RESULT: Kind = 23;

const CRESULT: Kind = 24;

const MAP: Kind = 25;

const CMAP: Kind = 26;

const TUPLE: Kind = 27;

const CTUPLE: Kind = 28;

pub const ANY: Kind = 29;

const CANY: Kind = 30;

pub const CALLBACK: Kind = 31;

pub const RECORD: Kind = 32;

const CRECORD: Kind = 33;

const ENUM: Kind = 34;

pub const CENUM: Kind = 35;

pub const HANDLE: Kind = 36;

pub const GENERIC: Kind = 37;

// The questions from here to `is_stored` differ in a range of codes alone, and each is no more than that range.

// Whether a kind is that of an Int or a CInt.
pub fn is_int(k: Kind) -> bool
    ensures { result ≡ is_int k }
{
    matches!(k, INT..=CINT)
}

// Whether a kind is that of a Byte or a CByte.
pub fn is_byte(k: Kind) -> bool
    ensures { result ≡ is_byte k }
{
    matches!(k, BYTE..=CBYTE)
}

// Whether a kind is that of an Array or a CArray.
pub fn is_array(k: Kind) -> bool
    ensures { result ≡ is_array k }
{
    matches!(k, ARRAY..=CARRAY)
}

// Whether a kind is that of a Set or a CSet.
pub fn is_set(k: Kind) -> bool
    ensures { result ≡ is_set k }
{
    matches!(k, SET..=CSET)
}

// Whether a kind is that of a Result or a CResult.
pub fn is_result(k: Kind) -> bool
    ensures { result ≡ is_result k }
{
    matches!(k, RESULT..=CRESULT)
}

// Whether a kind is that of a Map or a CMap.
pub fn is_map(k: Kind) -> bool
    ensures { result ≡ is_map k }
{
    matches!(k, MAP..=CMAP)
}

// Whether a kind is that of a Tuple or a CTuple.
pub fn is_tuple(k: Kind) -> bool
    ensures { result ≡ is_tuple k }
{
    matches!(k, TUPLE..=CTUPLE)
}

// Whether a kind is that of a Record or a CRecord.
pub fn is_record(k: Kind) -> bool
    ensures { result ≡ is_record k }
{
    matches!(k, RECORD..=CRECORD)
}

// Whether a kind is that of an Enum or a CEnum.
pub fn is_enum(k: Kind) -> bool
    ensures { result ≡ is_enum k }
{
    matches!(k, ENUM..=CENUM)
}

// Whether a kind is one from Array to CTuple.
pub fn is_built(k: Kind) -> bool
    ensures { result ≡ is_built k }
{
    matches!(k, ARRAY..=CTUPLE)
}

// Whether a kind is that of a union.
pub fn is_union(k: Kind) -> bool
    ensures { result ≡ is_union k }
{
    matches!(k, ANY..=CANY)
}

// Whether a kind has a name, and no child.
pub fn is_named(k: Kind) -> bool
    ensures { result ≡ is_named k }
{
    matches!(k, RECORD..=GENERIC)
}

// Whether a store holds types of this kind: those that are not fixed.
pub fn is_stored(k: Kind) -> bool
    ensures { result ≡ is_stored k }
{
    matches!(k, ARRAY..=GENERIC)
}

// How many children a kind has at least.
#[tactic(auto, unfolding(crate::specs::Kinds::fewest))]
pub fn fewest(k: Kind) -> usize
    ensures { result ≡ fewest k }
{
    match k {
        MAP..=CMAP => 2,
        ARRAY..=CRESULT | CALLBACK => 1,
        _ => 0,
    }
}

// How many children a kind has at most.
#[tactic(auto, unfolding(crate::specs::Kinds::most))]
pub fn most(k: Kind) -> usize
    ensures { (result ≡ most k) × (result ≤ children_max) }
{
    match k {
        MAP..=CMAP => 2,
        ARRAY..=CRESULT => 1,
        TUPLE..=CALLBACK => CHILDREN,
        _ => 0,
    }
}

// Whether a kind is the plain one of two, the const one having the next code.
fn is_plain(k: Kind) -> bool
    ensures { result ≡ is_plain k }
{
    k % 2 == 1 && matches!(k, INT..=ERROR | ARRAY..=TUPLE)
}

// The const form of a kind, or itself where it has none: `const_variant` of the source.
#[tactic(auto, unfolding(crate::specs::Kinds::const_variant))]
pub fn const_variant(k: Kind) -> Kind
    ensures { result ≡ const_variant k }
{
    if is_plain(k) || k == RECORD || k == ENUM {
        k + 1
    } else {
        k
    }
}

// Whether a kind stands against another as its const form or, for some, as its plain one: `const_matches` of the source.
#[tactic(auto, unfolding(crate::specs::Kinds::const_matches))]
pub fn const_matches(a: Kind, b: Kind) -> bool
    ensures { result ≡ const_matches a b }
{
    (is_plain(b) && a == b + 1) || (is_plain(a) && matches!(a, ERROR..=TUPLE) && b == a + 1)
}
