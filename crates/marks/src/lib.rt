// Marks on pairs of types in a lent table, one bit each: what a call has found, so that it is not found again. A row has two marks for
// each type that the table has room for; behind its end nothing is marked, and nothing can be. Rows and columns are numbers, as types are
// (`types::Store` says why), and a table is whatever bytes a caller has for it.
#![tactic(auto)]

ghost use Rattle.std.specs.Prelude.{◌≡◌, ◌+◌, ◌*◌, ◌≤◌, ◌<◌, length, MatchOption};
ghost use Rattle.types.specs.Store.{types_max};
ghost use Rattle.marks.specs.Marks.{room, Beyond, Within, is_marked, marking};

use types::TYPES;

// How many marks a byte holds.
const BITS: usize = 8;

// For how many types a tiny table has room, and a small one; a large one has room for all.
pub const TINY: usize = 64;

pub const SMALL: usize = 512;

// How many bytes a table takes that has a row for two types, tiny, small or large; one with a row for each takes twice as many.
pub const TINY_BYTES: usize = TINY * TINY / BITS;

pub const SMALL_BYTES: usize = SMALL * SMALL / BITS;

pub const LARGE_BYTES: usize = TYPES * TYPES / BITS;

// For how many types a table has room.
#[tactic(auto, unfolding(crate::specs::Marks::room))]
pub fn room(table: &[u8]) -> usize
    ensures { (result ≡ room (length table.now)) × (result ≤ types_max) }
{
    match table.len() {
        ..SMALL_BYTES => TINY,
        ..LARGE_BYTES => SMALL,
        _ => TYPES,
    }
}

// The place of a mark, if the table has one.
#[tactic(auto, unfolding(crate::specs::Marks::place))]
fn place_of(table: &[u8], row: usize, column: usize) -> Option<usize>
    requires { row < types_max }
    ensures { MatchOption result (Beyond table.now row column) (λ p. Within table.now row column p) }
{
    let columns = 2 * room(table);
    if column >= columns {
        return None;
    }
    let place = row * columns + column;
    if place / BITS >= table.len() {
        return None;
    }
    Some(place)
}

// Whether a row is marked in a column.
#[tactic(auto, using(crate::proofs::Marks::marked_at, crate::proofs::Marks::unmarked_beyond))]
pub fn is_marked(table: &[u8], row: usize, column: usize) -> bool
    requires { row < types_max }
    ensures { result ≡ is_marked table.now row column }
{
    match place_of(table, row, column) {
        Some(place) => (table[place / BITS] >> (place % BITS)) % 2 == 1,
        None => false,
    }
}

// Whether a row is marked in two columns side by side, of which the first is even: they stand in one byte, which is read once.
#[tactic(auto, using(crate::proofs::Marks::marked_at, crate::proofs::Marks::next_marked_at, crate::proofs::Marks::unmarked_beyond, crate::proofs::Marks::next_unmarked_beyond))]
pub fn are_marked(table: &[u8], row: usize, pair: usize) -> (bool, bool)
    requires { (row < types_max) × (pair < types_max) }
    ensures { (result.0 ≡ is_marked table.now row (2 * pair)) × (result.1 ≡ is_marked table.now row (2 * pair + 1)) }
{
    match place_of(table, row, 2 * pair) {
        Some(place) => {
            let marks = table[place / BITS] >> (place % BITS);
            (marks % 2 == 1, marks / 2 % 2 == 1)
        }
        None => (false, false),
    }
}

// Marks a row in a column.
#[tactic(auto, using(crate::proofs::Marks::marking_at, crate::proofs::Marks::marking_beyond))]
pub fn mark(table: &mut [u8], row: usize, column: usize)
    requires { row < types_max }
    ensures { table.new ≡ marking table.old row column }
{
    if let Some(place) = place_of(table, row, column) {
        table[place / BITS] |= 1 << (place % BITS);
    }
}
