// Names and their numbers, in a lent page (document 01, "Names").
#![tactic(auto)]

ghost use Rattle.std.specs.Prelude.{◌≡◌, true, false, ◌+◌, ◌≤◌, ◌<◌, cond, length, set, replicate, option_map, Some, None, option_copied, get_or, take, drop, MatchOption, IfOk};
ghost use Rattle.pages.specs.Bytes.{count_of, eqs};
ghost use Rattle.pages.specs.Quant.{any_to};
ghost use Rattle.chains.specs.Last.{last_below};
ghost use Rattle.chains.specs.Prints.{prints_max, print_of};
ghost use Rattle.names.specs.Table.{digit, name_byte, well_named, names_max, name_max, offset, name_at, named, number_of, formed};
ghost use Rattle.names.specs.Prints.{print_at, Chained};
ghost use Rattle.names.specs.Calls.{lent_broken, used_of, used_answer, is_used, empty_verdict, empty_page, add_answer, page_after, find_answer, read_answer};

use chains::Chains;
use pages::Padded;
use refusals::Refusal;

// A name's number, as units, pairs and types hold it. In pages and records it takes one byte.
pub type Symbol = u16;

// How many names there can be.
pub const NAMES: usize = 256;

// Whether s is the number of a name, where the first `used` numbers are in use.
#[tactic(auto, unfolding(crate::specs::Calls::is_used))]
pub fn is_used(used: usize, s: usize) -> bool
    ensures { result ≡ is_used used s }
{
    (s < used) & (s < NAMES)
}

// How many bytes a name has at most.
pub const NAME_BYTES: usize = 31;

// A name by value.
pub type Name = Padded<NAME_BYTES>;

// Whether a byte is a digit; in ranges of bytes, as document 01 lists them.
#[tactic(auto, unfolding(crate::specs::Table::digit))]
fn is_digit(b: u8) -> bool
    ensures { result ≡ digit b }
{
    matches!(b, b'0'..=b'9')
}

// Whether a byte may stand in a name.
#[tactic(auto, unfolding(crate::specs::Table::digit, crate::specs::Table::name_byte))]
fn is_name_byte(b: u8) -> bool
    ensures { result ≡ name_byte b }
{
    matches!(b, b'0'..=b'9' | b'A'..=b'Z' | b'_' | b'a'..=b'z')
}

// Whether the bytes are those of a name.
#[tactic(auto, unfolding(crate::specs::Table::well_named))]
pub fn is_name(name: &[u8]) -> bool
    ensures { result ≡ well_named name.now }
{
    (1..=NAME_BYTES).contains(&name.len())
        && !is_digit(name[0])
        && name.iter().all(|b| is_name_byte(*b))
}

// Where the name ends whose length byte stands at an index. Names have lengths of their own, so where one begins is known from those
// before it, and the loops over a table go from one to the next.
fn name_end(page: &[u8], at: usize) -> usize
    requires { at < length page.now }
    ensures { result ≡ at + 1 + get_or page.now at 0 }
{
    at + 1 + usize::from(page[at])
}

// The bytes of that name.
fn name_from(page: &[u8], at: usize) -> &[u8]
    requires { at + 1 + get_or page.now at 0 ≤ length page.now }
    ensures { result.now ≡ take (get_or page.now at 0) (drop (at + 1) page.now) }
{
    &page[at + 1..name_end(page, at)]
}

// The number of a name among the first n.
fn find(page: &[u8], n: usize, name: &[u8]) -> Option<usize>
    requires { offset page.now n ≤ length page.now }
    ensures { MatchOption result (number_of page.now n name.now ≡ n) (λ k. (k < n) × (k ≡ number_of page.now n name.now)) }
{
    let mut at: usize = pages::COUNT_BYTES;
    for i in 0..n {
        if pages::same(name_from(page, at), name) {
            return Some(i);
        }
        at = name_end(page, at);
    }
    None
}

// Whether a name, which has this print, is among the first n.
fn is_among(
    page: &[u8],
    offsets: &[usize],
    chains: &Chains<NAMES>,
    n: usize,
    print: usize,
    name: &[u8],
) -> bool
    requires { Chained page.now n offsets.now chains.now.links × (print < prints_max) × (get_or chains.now.heads print 0 ≡ last_below (print_at page.now) n (print_of name.now)) }
    ensures { result ≡ any_to n (named page.now name.now) }
{
    chains.any_linked(n, print, |k| pages::same(name_from(page, offsets[k]), name))
}

// Whether the page is a names table in form. Each name is compared with those before it that have its print.
pub fn is_formed(page: &[u8]) -> bool
    ensures { result ≡ formed page.now }
{
    if page.len() < pages::COUNT_BYTES {
        return false;
    }
    let n = pages::count(page);
    if n > NAMES {
        return false;
    }
    let mut chains: Chains<NAMES> = Chains::new();
    let mut offsets = [0usize; NAMES];
    let mut at: usize = pages::COUNT_BYTES;
    for i in 0..n {
        if at >= page.len() {
            return false;
        }
        let end = name_end(page, at);
        if end > page.len() {
            return false;
        }
        let name = name_from(page, at);
        if !is_name(name) {
            return false;
        }
        let print = chains::print_of(name);
        if is_among(page, &offsets, &chains, i, print, name) {
            return false;
        }
        offsets[i] = at;
        chains.link(print, i);
        at = end;
    }
    pages::zeros_from(page, at)
}

// Whether a names page that is lent breaks its form.
#[tactic(auto, unfolding(crate::specs::Calls::lent_broken))]
pub fn is_broken(names: Option<&[u8]>) -> bool
    ensures { result ≡ lent_broken (option_copied names.entry) }
{
    match names {
        Some(page) => !is_formed(page),
        None => false,
    }
}

// How many name numbers are in use: those of the lent table or, where none is lent, every number that a table can have. For crates
// above; `used_in` asks `is_broken` before it.
#[tactic(auto, using(crate::proofs::Calls::lent_form), unfolding(crate::specs::Calls::lent_broken, crate::specs::Calls::used_of))]
pub fn in_use(names: Option<&[u8]>) -> usize
    requires { lent_broken (option_copied names) ≡ false }
    ensures { (result ≡ used_of (option_copied names.entry)) × (result ≤ names_max) }
{
    match names {
        Some(page) => pages::count(page),
        None => NAMES,
    }
}

// How many name numbers are in use, where the names that are lent are in form. For crates above, whose entry calls ask it first.
#[tactic(auto, unfolding(crate::specs::Calls::used_answer))]
pub fn used_in(names: Option<&[u8]>) -> Result<usize, Refusal>
    ensures { (result ≡ used_answer (option_copied names.entry)) × IfOk result (λ n. n ≤ names_max) }
{
    if is_broken(names) {
        return Err(Refusal::Broken);
    }
    Ok(in_use(names))
}

// Where the length byte of name n stands, or the first free byte where n names are all.
fn offset_of(page: &[u8], n: usize) -> usize
    requires { offset page.now n ≤ length page.now }
    ensures { result ≡ offset page.now n }
{
    let mut at: usize = pages::COUNT_BYTES;
    for i in 0..n {
        at = name_end(page, at);
    }
    at
}

// A table of names in form.
#[derive(Clone, Copy)]
pub struct Names<'a> {
    pub page: &'a [u8],
    pub ghost formed: { formed page.now ≡ true },
}

impl<'a> Names<'a> {
    // The table that a page is, if it is in form.
    pub fn of(page: &'a [u8]) -> Option<Names<'a>>
        ensures { option_map (λ t. t.page.now) result ≡ cond (formed page.now) (Some page.now) None }
    {
        if is_formed(page) {
            return Some(Names { page });
        }
        None
    }

    // How many names there are.
    #[tactic(auto, using(crate::proofs::Calls::form))]
    pub fn count(self) -> usize
        ensures { (result ≡ count_of self.entry.page.now) × (result ≤ names_max) }
    {
        pages::count(self.page)
    }

    // The bytes of a name in use.
    pub fn name_of(self, k: usize) -> &'a [u8]
        requires { k < count_of self.page.now }
        ensures { (result.now ≡ name_at self.entry.page.now k) × (1 ≤ length result.now) × (length result.now ≤ name_max) }
    {
        name_from(self.page, offset_of(self.page, k))
    }
}

// Adds a name to a table that an entry call found in form (`add_name` tests it), where there can be `limit` names.
pub fn insert_name(page: &mut [u8], limit: usize, name: &[u8]) -> Result<usize, Refusal>
    requires { (formed page.old ≡ true) × (limit ≤ names_max) }
    ensures { (result ≡ add_answer limit page.old name.now) × (page.new ≡ page_after limit page.old name.now) }
{
    if is_name(name) {
        let n = pages::count(page);
        if let Some(k) = find(page, n, name) {
            return Ok(k);
        }
        if n >= limit {
            return Err(Refusal::Full);
        }
        let end = offset_of(page, n);
        if page.len() < end + 1 + name.len() {
            return Err(Refusal::Full);
        }
        let size = [name.len() as u8];
        let number = pages::count_bytes(n + 1);
        pages::put_bytes(page, end + 1, name);
        pages::put_bytes(page, end, &size);
        pages::put_bytes(page, 0, &number);
        Ok(n)
    } else {
        Err(Refusal::Malformed)
    }
}

// Makes the page an empty table.
pub fn empty_names(page: &mut [u8]) -> Result<(), Refusal>
    ensures { (result ≡ empty_verdict page.old) × (page.new ≡ empty_page page.old) }
{
    if page.len() < pages::COUNT_BYTES {
        return Err(Refusal::Broken);
    }
    pages::clear(page);
    Ok(())
}

// The number of a name, which is added if it is new.
pub fn add_name(page: &mut [u8], name: &[u8]) -> Result<usize, Refusal>
    ensures { (result ≡ add_answer names_max page.old name.now) × (page.new ≡ page_after names_max page.old name.now) }
{
    if is_formed(page) {
        return insert_name(page, NAMES, name);
    }
    Err(Refusal::Broken)
}

// The number of a name, if the table has it.
pub fn find_name(page: &[u8], name: &[u8]) -> Result<Option<usize>, Refusal>
    ensures { result ≡ find_answer page.now name.now }
{
    if !is_formed(page) {
        return Err(Refusal::Broken);
    }
    if !is_name(name) {
        return Err(Refusal::Malformed);
    }
    Ok(find(page, pages::count(page), name))
}

// The name with number k.
pub fn read_name(page: &[u8], k: usize) -> Result<Name, Refusal>
    ensures { result ≡ read_answer page.now k }
{
    let Some(names) = Names::of(page) else {
        return Err(Refusal::Broken);
    };
    if !is_used(names.count(), k) {
        return Err(Refusal::Unused);
    }
    Ok(Padded::of(names.name_of(k)))
}
