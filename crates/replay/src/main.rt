// Replays the stored sample of the oracle's answers (harness/README.md has its format): each row is asked of the entry calls,
// and what they answer is compared with what the oracle answered.
#![tactic(auto)]

ghost use Rattle.std.specs.Prelude.{◌≡◌, ◌≤◌, ◌<◌, length, replicate, IfOk};
ghost use Rattle.std.specs.Iterator.{at_most};

use calls::{ANSWER_BYTES, BINDING_BYTES, TYPE_BYTES};
use kinds::Kind;
use names::Symbol;
use pages::{LONG_BYTES, same, word_at};
use std::convert::AsSlice;
use std::io::{self, Read};
use text::TEXT_BYTES;
use types::CHILD_BYTES;
use values::UNIT_BYTES;

// How many bytes the sample has at most.
const SAMPLE_BYTES: usize = 655360;

// How many bytes a page has at most that a call writes.
const PAGE_BYTES: usize = 8192;

// How many children follow a type's name at most.
const CHILDREN: usize = 32;

// The bytes of the first field, which follow its length, and what comes after them; what is cut ends with the slice.
fn field(s: &[u8]) -> (&[u8], &[u8])
    ensures { (length result.1.now ≤ length s.now) × (0 < length s.now → length result.1.now < length s.now) }
{
    if s.len() < 2 {
        return (&s[..0], &s[..0]);
    }
    let size = word_at(s, 0).min(s.len() - 2);
    s[2..].split_at(size)
}

// The number of a type, of a checked type or of an operator that a field begins with, and the bytes after it.
fn number_in(field: &[u8]) -> Option<(u32, &[u8])> {
    let (number, rest) = field.split_first_chunk()?;
    Some((u32::from_be_bytes(*number), rest))
}

// Such a number that is the whole field.
fn number(field: &[u8]) -> Option<u32> {
    Some(u32::from_be_bytes(field.try_into().ok()?))
}

// Two such numbers that are the whole field.
fn two_numbers(field: &[u8]) -> Option<(u32, u32)> {
    let (a, rest) = number_in(field)?;
    Some((a, number(rest)?))
}

// A row: the call, its argument, a page and four more inputs, and the answer, which is the refusal and the value, what the call wrote,
// and the page afterwards.
#[derive(Clone, Copy)]
struct Row<'a> {
    call: u8,
    argument: u16,
    page: &'a [u8],
    first: &'a [u8],
    second: &'a [u8],
    names: &'a [u8],
    table: &'a [u8],
    code: u32,
    out: &'a [u8],
    after: &'a [u8],
}

// The row that these bytes say.
fn row_in(bytes: &[u8]) -> Option<Row<'_>> {
    let (&[call, high, low], rest) = bytes.split_first_chunk::<3>()?;
    let (page, rest) = field(rest);
    let (first, rest) = field(rest);
    let (second, rest) = field(rest);
    let (names, rest) = field(rest);
    let (table, rest) = field(rest);
    let (&[refusal, upper, lower], rest) = rest.split_first_chunk::<3>()?;
    let (out, rest) = field(rest);
    let (after, _) = field(rest);
    Some(Row {
        call,
        argument: u16::from_be_bytes([high, low]),
        page,
        first,
        second,
        names,
        table,
        code: u32::from_be_bytes([0, refusal, upper, lower]),
        out,
        after,
    })
}

impl<'a> Row<'a> {
    // The kind that the argument's low byte says.
    fn kind(&self) -> Kind {
        (self.argument % 256) as Kind
    }

    // The symbol that it says.
    fn symbol(&self) -> Symbol {
        self.argument % 256
    }

    // Whether names are lent, which the argument's high byte says.
    fn lent(&self) -> bool {
        self.argument / 256 == 1
    }

    // What a call answers, where what it writes over these bytes is what the row says.
    fn writes<T: AsSlice<u8> + Copy, F: FnOnce(&mut T) -> Option<u32>>(
        &self,
        mut bytes: T,
        call: F,
    ) -> Option<u32>
        requires { F.IsAlwaysCallable call }
    {
        let code = call(&mut bytes);
        if same(bytes.as_slice(), self.out) {
            code
        } else {
            None
        }
    }

    // What a call answers, where it leaves a copy of the row's page as the row says.
    fn leaves<F: FnOnce(&mut [u8]) -> Option<u32>>(&self, call: F) -> Option<u32>
        requires { F.IsAlwaysCallable call }
    {
        let mut copy = [0u8; PAGE_BYTES];
        let page = copy.get_mut(..self.page.len())?;
        page.copy_from_slice(self.page);
        let code = call(page);
        if same(page, self.after) { code } else { None }
    }

    // The methods below say what the calls of their names answer, or `None` where a field has another length than the call reads.
    fn read_name(&self) -> Option<u32> {
        let k = u32::from(self.argument);
        self.writes([0; names::NAME_BYTES], |name| {
            Some(calls::riddlepoppy_read_name(self.page, k, name))
        })
    }

    fn product(&self) -> Option<u32> {
        let quotient = self.argument == 1;
        self.writes([0; UNIT_BYTES], |unit| {
            Some(calls::riddlepoppy_product(self.first, self.second, quotient, unit))
        })
    }

    fn unit_text(&self) -> Option<u32> {
        self.writes([0; TEXT_BYTES], |text| {
            Some(calls::riddlepoppy_unit_text(self.page, self.first, text))
        })
    }

    // The first field has the base and the factor's bytes.
    fn insert_pair(&self, page: &mut [u8]) -> Option<u32> {
        let (base, factor) = self.first.split_first()?;
        let base = Symbol::from(*base);
        let factor = u64::from_be_bytes(factor.try_into().ok()?);
        let lent = self.lent();
        Some(calls::riddlepoppy_insert_pair(page, self.names, lent, self.symbol(), factor, base))
    }

    fn canonical(&self) -> Option<u32> {
        Some(calls::riddlepoppy_canonical(self.page, self.names, self.lent(), self.symbol()))
    }

    fn first_factor(&self) -> Option<u32> {
        let (lent, symbol) = (self.lent(), self.symbol());
        self.writes([0; LONG_BYTES], |factor| {
            Some(calls::riddlepoppy_first_factor(self.page, self.names, lent, symbol, factor))
        })
    }

    fn canonicalize(&self) -> Option<u32> {
        let lent = self.lent();
        self.writes([0; UNIT_BYTES], |sums| {
            Some(calls::riddlepoppy_canonicalize(self.page, self.names, lent, self.first, sums))
        })
    }

    fn is_convertible_to(&self) -> Option<u32> {
        let (page, names, lent) = (self.page, self.names, self.lent());
        Some(calls::riddlepoppy_is_convertible_to(page, names, lent, self.first, self.second))
    }

    // The first field has the name and the children.
    fn make_type(&self, page: &mut [u8]) -> Option<u32> {
        let (name, rest) = self.first.split_first()?;
        if rest.len() % CHILD_BYTES != 0 {
            return None;
        }
        let mut words = [0u16; CHILDREN];
        let children = words.get_mut(..rest.len() / CHILD_BYTES)?;
        pages::read_words(rest, 0, children);
        let (lent, kind) = (self.lent(), self.kind());
        let name = Symbol::from(*name);
        Some(calls::riddlepoppy_make_type(page, self.names, lent, kind, children, name))
    }

    fn read_type(&self) -> Option<u32> {
        let t = number(self.first)?;
        let lent = self.lent();
        self.writes([0; TYPE_BYTES], |bytes| {
            Some(calls::riddlepoppy_read_type(self.page, self.names, lent, t, bytes))
        })
    }

    fn matches(&self) -> Option<u32> {
        let (a, e) = two_numbers(self.first)?;
        Some(calls::riddlepoppy_matches(self.page, self.names, self.lent(), a, e))
    }

    fn has_generic(&self) -> Option<u32> {
        let t = number(self.first)?;
        Some(calls::riddlepoppy_has_generic(self.page, self.names, self.lent(), t))
    }

    fn into_const(&self, page: &mut [u8]) -> Option<u32> {
        let c = number(self.first)?;
        Some(calls::riddlepoppy_into_const(page, self.names, self.lent(), c))
    }

    // The second field has the bindings before the call.
    fn unify(&self) -> Option<u32> {
        let (e, a) = two_numbers(self.first)?;
        let lent = self.lent();
        self.writes(self.second.try_into().ok()?, |bindings| {
            Some(calls::riddlepoppy_unify(self.page, self.names, lent, e, a, bindings))
        })
    }

    fn unify_arg(&self) -> Option<u32> {
        let (e, a) = two_numbers(self.first)?;
        let lent = self.lent();
        self.writes(self.second.try_into().ok()?, |bindings| {
            Some(calls::riddlepoppy_unify_arg(self.page, self.names, lent, e, a, bindings))
        })
    }

    fn substitute(&self, page: &mut [u8]) -> Option<u32> {
        let t = number(self.first)?;
        let bindings: [u8; BINDING_BYTES] = self.second.try_into().ok()?;
        Some(calls::riddlepoppy_substitute(page, self.names, self.lent(), t, &bindings))
    }

    // The first field has three numbers and the left unit.
    fn check_binary_operator(&self) -> Option<u32> {
        let (op, rest) = number_in(self.first)?;
        let (a, rest) = number_in(rest)?;
        let (b, left) = number_in(rest)?;
        let (page, names, lent) = (self.page, self.names, self.lent());
        self.writes([0; ANSWER_BYTES], |answer| {
            Some(calls::riddlepoppy_check_binary_operator(
                page,
                names,
                lent,
                self.table,
                op,
                a,
                left,
                b,
                self.second,
                answer,
            ))
        })
    }

    // The first field has two numbers and a unit.
    fn check_unary_operator(&self, page: &mut [u8]) -> Option<u32> {
        let (op, rest) = number_in(self.first)?;
        let (a, unit) = number_in(rest)?;
        let (names, lent) = (self.names, self.lent());
        self.writes([0; ANSWER_BYTES], |answer| {
            Some(calls::riddlepoppy_check_unary_operator(page, names, lent, op, a, unit, answer))
        })
    }

    fn check_index(&self, page: &mut [u8]) -> Option<u32> {
        let (target, rest) = number_in(self.first)?;
        let (key, unit) = number_in(rest)?;
        let (names, lent) = (self.names, self.lent());
        self.writes([0; ANSWER_BYTES], |answer| {
            Some(calls::riddlepoppy_check_index(page, names, lent, target, unit, key, answer))
        })
    }

    // What the row's call answers, where it writes what the row says and leaves the page so. The calls' numbers stand here alone, so an
    // enum of the calls would only list them a second time.
    fn answer(&self) -> Option<u32> {
        match self.call {
            1 => self.leaves(|page| Some(calls::riddlepoppy_empty_names(page))),
            2 => self.leaves(|page| Some(calls::riddlepoppy_add_name(page, self.first))),
            3 => Some(calls::riddlepoppy_find_name(self.page, self.first)),
            4 => self.read_name(),
            5 => Some(calls::riddlepoppy_unit_form(self.first)),
            6 => self.product(),
            7 => Some(calls::riddlepoppy_exponent(self.first, self.symbol())),
            8 => Some(calls::riddlepoppy_is_dimensionless(self.first)),
            9 => self.unit_text(),
            10 => self.leaves(|page| Some(calls::riddlepoppy_empty_pairs(page))),
            11 => self.leaves(|page| self.insert_pair(page)),
            12 => self.canonical(),
            13 => self.first_factor(),
            14 => self.canonicalize(),
            15 => self.is_convertible_to(),
            16 => self.leaves(|page| Some(calls::riddlepoppy_empty_types(page))),
            17 => self.leaves(|page| self.make_type(page)),
            18 => self.read_type(),
            19 => self.matches(),
            20 => self.has_generic(),
            21 => self.leaves(|page| self.into_const(page)),
            22 => self.unify(),
            23 => self.unify_arg(),
            24 => self.leaves(|page| self.substitute(page)),
            25 => self.check_binary_operator(),
            26 => self.leaves(|page| self.check_unary_operator(page)),
            27 => self.leaves(|page| self.check_index(page)),
            _ => None,
        }
    }
}

// Whether a row's call answers what the row says.
fn is_same(bytes: &[u8]) -> bool {
    row_in(bytes).is_some_and(|row| row.answer() == Some(row.code))
}

// The rows that these bytes begin with, each with a length of its own.
#[derive(Drop)]
struct Rows<'a>(&'a [u8]);

impl<'a> Iterator for Rows<'a> {
    type Item = &'a [u8];

    ghost remaining = { λ s. at_most (length s.0.now) };

    fn next(&mut self) -> Option<&'a [u8]> {
        if self.0.is_empty() {
            return None;
        }
        let (row, after) = field(self.0);
        self.0 = after;
        Some(row)
    }
}

// No byte of the sample yet. In a function of its own, since the proof of a `main` with so many zeros in it does not close.
fn no_sample() -> [u8; SAMPLE_BYTES]
    ensures { result ≡ replicate 655360 0 }
{
    [0; SAMPLE_BYTES]
}

// Reads as much of the sample as the input has and there is room for. Says how many bytes that is. A `while`, since the library reads
// a slice whole or not at all, or else as much as comes at once.
fn read_sample<R: Read>(reader: &mut R, sample: &mut [u8]) -> io::Result<usize>
    ensures { IfOk result (λ n. n ≤ length sample.new) }
{
    let mut n: usize = 0;
    while n < sample.len() {
        let more = reader.read(&mut sample[n..])?;
        if more == 0 {
            return Ok(n);
        }
        n += more;
    }
    Ok(n)
}

// Replays every row. Says how many there were, and how many were answered otherwise.
fn replay(rt: &impl Print, sample: &[u8]) -> io::Result<()> {
    let rows = Rows(sample).count();
    let differ = Rows(sample).filter(|row| !is_same(row)).count();
    println!(rt; "{rows} rows, {differ} differ")
}

fn main(rt: HostRuntime) -> io::Result<()> {
    let mut sample = no_sample();
    let n = read_sample(&mut rt.reader(), &mut sample)?;
    replay(&rt, &sample[..n])
}
