// Conversion pairs: the table of them by value, and in a lent page (document 01, "Units and pairs"; `ConversionTable` of the
// source's units.rs).
#![tactic(auto)]

ghost use Rattle.std.specs.Prelude.{◌≡◌, true, ◌+◌, ◌*◌, ◌≤◌, ◌<◌, map, length, get_or, eqb, option_map, option_copied, IfOk};
ghost use Rattle.std.specs.List.{list_all, find};
ghost use Rattle.std.specs.Simd.{first_chunks};
ghost use Rattle.pages.specs.Bytes.{count_of};
ghost use Rattle.names.specs.Table.{names_max};
ghost use Rattle.groups.specs.Groups.{pair, parents_of, Below};
ghost use Rattle.pairs.specs.Table.{pairs_max, pair_bytes, fresh_table, said, both_used, insert_verdict, insertion, after_insertion, with_pair};
ghost use Rattle.pairs.specs.Table as tables;
ghost use Rattle.pairs.specs.Page.{parents_at, size_of, parents_in, table_in, holds, Held, formed, with_table};
ghost use Rattle.pairs.specs.Calls.{form_verdict, opened_answer, empty_verdict, empty_page, pair_verdict, page_after, symbol_verdict, root_answer, factor_said, factor_answer};

use groups::{Groups, Parents};
use names::{NAMES, Symbol};
use pages::COUNT_BYTES;
use refusals::Refusal;

// How many pairs a table has at most.
pub const PAIRS: usize = 512;

// Where a pair's base stands, after its symbol.
pub const BASE_AT: usize = 1;

// Where its factor begins.
pub const FACTOR_AT: usize = 2;

// How many bytes a pair takes.
pub const PAIR_BYTES: usize = FACTOR_AT + pages::LONG_BYTES;

// How many bytes a table takes at most: behind them no insertion changes a byte.
pub const TABLE_BYTES: usize = COUNT_BYTES + PAIR_BYTES * PAIRS + NAMES;

// The bytes of a pair: its symbol, its base and its factor.
pub type Body = [u8; PAIR_BYTES];

// The bytes of the pairs, one after another.
pub type Bodies = [u8; PAIR_BYTES * PAIRS];

// In form, the pairs stand at the first `count` places, and the parents of all symbols are as they give them. Arrays in a value, with a
// count, are document 01's form for the source's maps.
#[derive(Clone, Copy)]
pub struct ConversionTable {
    pub count: usize,
    pub pairs: Bodies,
    pub parents: Parents,
}

// A symbol's factor, and the base that it leads to.
#[derive(Clone, Copy)]
pub struct Factor {
    pub factor: u64,
    pub base: Symbol,
}

// Whether both symbols of a pair are numbers in use.
fn are_used(symbol: Symbol, base: Symbol, n: usize) -> bool
    ensures { result ≡ both_used n (pair symbol base) }
{
    names::is_used(n, usize::from(symbol)) && names::is_used(n, usize::from(base))
}

// The bytes of the first k pairs, each by itself.
fn bodies_of(pairs: &[u8], k: usize) -> &[Body]
    requires { pair_bytes * k ≤ length pairs.now }
    ensures { (result.now ≡ first_chunks pair_bytes k pairs.now) × (length result.now ≡ k) }
{
    let (bodies, _) = pairs[..PAIR_BYTES * k].as_chunks::<PAIR_BYTES>();
    bodies
}

// A pair's symbol, and its base.
pub fn symbols_of(body: &Body) -> (Symbol, Symbol)
    ensures { (result.0 ≡ (said body.now).symbol) × (result.1 ≡ (said body.now).base) }
{
    (Symbol::from(body[0]), Symbol::from(body[BASE_AT]))
}

// Whether both symbols of each pair are numbers in use.
fn all_used(bodies: &[Body], n: usize) -> bool
    ensures { result ≡ list_all (λ b. both_used n (said b)) bodies.now }
{
    bodies.iter().all(|body| {
        let (symbol, base) = symbols_of(body);
        are_used(symbol, base, n)
    })
}

// The parents that the pairs give.
fn replayed(bodies: &[Body]) -> Parents
    ensures { result ≡ parents_of names_max (map said bodies.now) }
{
    let mut parents = groups::own_parents();
    for (i, body) in bodies.iter().enumerate() {
        let (symbol, base) = symbols_of(body);
        groups::join(&mut parents, i, symbol, base);
    }
    parents
}

// Whether a table is in form, with n name numbers in use.
fn is_table(t: ConversionTable, n: usize) -> bool
    ensures { result ≡ tables.formed t n }
{
    let k = t.count;
    if PAIRS < k {
        return false;
    }
    let pairs = t.pairs;
    let bodies = bodies_of(&pairs, k);
    if !all_used(bodies, n) {
        return false;
    }
    let parents = t.parents;
    parents == replayed(bodies)
}

// A table in form with one more pair.
fn with_pair(t: ConversionTable, symbol: Symbol, factor: u64, base: Symbol) -> ConversionTable
    requires count_lt_pairs_max { (t.count < pairs_max) × (t.parents ≡ parents_of names_max (tables.listed t)) }
    requires symbol_lt_names_max { (symbol < names_max) × (base < names_max) }
    ensures { result ≡ with_pair t symbol factor base }
{
    let k = t.count;
    let at = PAIR_BYTES * k;
    let mut pairs = t.pairs;
    let mut parents = t.parents;
    let front = [symbol as u8, base as u8];
    let long = pages::long_bytes(factor);
    pages::put_bytes(&mut pairs, at, &front);
    pages::put_bytes(&mut pairs, at + FACTOR_AT, &long);
    groups::join(&mut parents, k, symbol, base);
    ConversionTable {
        count: k + 1,
        pairs,
        parents,
    }
}

// A table without pairs.
pub fn fresh_table() -> ConversionTable
    ensures { result ≡ fresh_table }
{
    ConversionTable {
        count: 0,
        pairs: [0; PAIR_BYTES * PAIRS],
        parents: groups::own_parents(),
    }
}

// The insertion, by value, with n name numbers in use: the table with one more pair. Symbol, factor and base are the arguments of the
// source's `insert`; a struct of them would be made for each call, and taken apart at once. This, `insert` and `insert_pair` are parts of
// their callers: by themselves they would each hold a table in a frame of their own, set up before anything is refused.
#[tactic(auto, using(crate::proofs::Table::insert_broken, crate::proofs::Table::insert_unused, crate::proofs::Table::insert_full, crate::proofs::Table::insert_done, crate::proofs::Table::form, crate::proofs::Table::both_below))]
#[inline(always)]
pub fn inserted(
    t: ConversionTable,
    n: usize,
    symbol: Symbol,
    factor: u64,
    base: Symbol,
) -> Result<ConversionTable, Refusal>
    ensures { result ≡ insertion t n symbol factor base }
{
    if !is_table(t, n) {
        return Err(Refusal::Broken);
    }
    if !are_used(symbol, base, n) {
        return Err(Refusal::Unused);
    }
    let k = t.count;
    if PAIRS <= k {
        return Err(Refusal::Full);
    }
    Ok(with_pair(t, symbol, factor, base))
}

// The insertion, in the lent table: `insert` of the source.
#[inline(always)]
pub fn insert(
    table: &mut ConversionTable,
    n: usize,
    symbol: Symbol,
    factor: u64,
    base: Symbol,
) -> Result<(), Refusal>
    ensures verdict { result ≡ insert_verdict table.old n (pair symbol base) }
    ensures table_after { table.new ≡ after_insertion table.old n symbol factor base }
{
    *table = inserted(*table, n, symbol, factor, base)?;
    Ok(())
}

// Where the parents stand in a page, behind k pairs.
fn parents_at(k: usize) -> usize
    requires { k ≤ pairs_max }
    ensures { result ≡ parents_at k }
{
    COUNT_BYTES + PAIR_BYTES * k
}

// How many bytes a table of k pairs takes.
fn size_of(k: usize) -> usize
    requires { k ≤ pairs_max }
    ensures { result ≡ size_of k }
{
    parents_at(k) + NAMES
}

// Whether the page holds the table whose count it says, of few enough pairs, and zeros behind it.
fn holds_table(page: &[u8]) -> bool
    ensures { result ≡ holds page.now }
{
    if page.len() < COUNT_BYTES {
        return false;
    }
    let k = pages::count(page);
    if PAIRS < k {
        return false;
    }
    let end = size_of(k);
    if page.len() < end {
        return false;
    }
    pages::zeros_from(page, end)
}

// The parents in a page that holds a table; in form, they are as its pairs give them. For crates above (`canonical` tests the form).
pub fn parents_of(page: &[u8]) -> Parents
    requires { Held page.now }
    ensures { (result ≡ parents_in page.now) × (length result ≡ names_max) }
{
    let at = parents_at(pages::count(page));
    let mut parents = groups::own_parents();
    pages::read_bytes(page, at, &mut parents);
    parents
}

// The table in a page that holds one.
fn table_in(page: &[u8]) -> ConversionTable
    requires { Held page.now }
    ensures { result ≡ table_in page.now }
{
    let k = pages::count(page);
    let at = parents_at(k);
    let mut pairs = [0; PAIR_BYTES * PAIRS];
    pages::put_bytes(&mut pairs, 0, &page[COUNT_BYTES..at]);
    let parents = parents_of(page);
    ConversionTable {
        count: k,
        pairs,
        parents,
    }
}

// Whether the page is a table in form, with n name numbers in use, for crates above that have counted them.
pub fn form_verdict(page: &[u8], n: usize) -> Result<(), Refusal>
    ensures { result ≡ form_verdict page.now n }
{
    if !holds_table(page) {
        return Err(Refusal::Broken);
    }
    if !is_table(table_in(page), n) {
        return Err(Refusal::Broken);
    }
    Ok(())
}

// How many name numbers are in use, where names, if they are lent, and the table are in form. Calls of crates above on a page of pairs
// begin with it, too.
pub fn opened(page: &[u8], names: Option<&[u8]>) -> Result<usize, Refusal>
    ensures { (result ≡ opened_answer page.now (option_copied names.entry)) × IfOk result (λ n. n ≤ names_max) }
{
    let n = names::used_in(names)?;
    form_verdict(page, n)?;
    Ok(n)
}

// Writes a table at the front of the page.
fn write_table(page: &mut [u8], t: ConversionTable)
    requires { (t.count ≤ pairs_max) × (size_of t.count ≤ length page.old) × Below names_max t.parents }
    ensures { page.new ≡ with_table page.old t }
{
    let k = t.count;
    let at = parents_at(k);
    let pairs = t.pairs;
    let parents = t.parents;
    let number = pages::count_bytes(k);
    pages::put_bytes(page, COUNT_BYTES, &pairs[0..PAIR_BYTES * k]);
    pages::put_low_bytes(page, at, &parents);
    pages::put_bytes(page, 0, &number);
}

// Makes the page a table without pairs.
pub fn empty_pairs(page: &mut [u8]) -> Result<(), Refusal>
    ensures { (result ≡ empty_verdict page.old) × (page.new ≡ empty_page page.old) }
{
    if page.len() < size_of(0) {
        return Err(Refusal::Broken);
    }
    let parents = groups::own_parents();
    pages::clear(page);
    pages::put_low_bytes(page, COUNT_BYTES, &parents);
    Ok(())
}

// The insertion, in the lent page.
#[inline(always)]
pub fn insert_pair(
    page: &mut [u8],
    names: Option<&[u8]>,
    symbol: Symbol,
    factor: u64,
    base: Symbol,
) -> Result<(), Refusal>
    ensures { (result ≡ pair_verdict page.old (option_copied names.entry) (pair symbol base)) × (page.new ≡ page_after page.old (option_copied names.entry) symbol factor base) }
{
    let n = names::used_in(names)?;
    if !holds_table(page) {
        return Err(Refusal::Broken);
    }
    let mut t = table_in(page);
    insert(&mut t, n, symbol, factor, base)?;
    if page.len() < size_of(t.count) {
        return Err(Refusal::Full);
    }
    write_table(page, t);
    Ok(())
}

// The factor of a pair.
pub fn factor_of(body: &Body) -> u64
    ensures { result ≡ (factor_said body.now).factor }
{
    pages::long(body, FACTOR_AT)
}

// Whether a symbol can be looked up in a page of pairs.
fn symbol_verdict(page: &[u8], names: Option<&[u8]>, symbol: Symbol) -> Result<(), Refusal>
    ensures { result ≡ symbol_verdict page.now (option_copied names.entry) symbol }
{
    let n = opened(page, names)?;
    if !names::is_used(n, usize::from(symbol)) {
        return Err(Refusal::Unused);
    }
    Ok(())
}

// The root of a symbol: `canonical` of the source.
pub fn canonical(page: &[u8], names: Option<&[u8]>, symbol: Symbol) -> Result<Symbol, Refusal>
    ensures { result ≡ root_answer page.now (option_copied names.entry) symbol }
{
    symbol_verdict(page, names, symbol)?;
    let parents = parents_of(page);
    let groups = Groups {
        parents: &parents,
        steps: pages::count(page),
    };
    Ok(groups.root(symbol))
}

// The factor of the first pair that has the symbol, with its base.
fn factor_in(bodies: &[Body], symbol: Symbol) -> Option<Factor>
    ensures { result ≡ option_map factor_said (find (λ b. eqb (said b).symbol symbol) bodies.now) }
{
    let body = bodies.iter().find(|body| symbols_of(body).0 == symbol)?;
    Some(Factor {
        factor: factor_of(body),
        base: symbols_of(body).1,
    })
}

// The first factor of a symbol, with its base, if a pair has the symbol.
pub fn first_factor(
    page: &[u8],
    names: Option<&[u8]>,
    symbol: Symbol,
) -> Result<Option<Factor>, Refusal>
    ensures { result ≡ factor_answer page.now (option_copied names.entry) symbol }
{
    symbol_verdict(page, names, symbol)?;
    let k = pages::count(page);
    let bodies = bodies_of(&page[COUNT_BYTES..parents_at(k)], k);
    Ok(factor_in(bodies, symbol))
}
