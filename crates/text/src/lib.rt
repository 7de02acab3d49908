// The text of a unit (document 01, "Units and pairs"; `Display` of the source's units.rs).
#![tactic(auto)]

ghost use Rattle.std.specs.Prelude.{◌≡◌, false, List, ℕ, ◌+◌, ◌*◌, ◌≤◌, ◌<◌, length, nat_abs};
ghost use Rattle.pages.specs.Bytes.{put};
ghost use Rattle.pages.specs.Pad.{padded};
ghost use Rattle.names.specs.Table.{name_max};
ghost use Rattle.units.specs.Unit.{exponent_max, outside};
ghost use Rattle.units.specs.Calls.{terms_of};
ghost use Rattle.text.specs.Text.{power, stands, separator, side, line_of};
ghost use Rattle.text.specs.Calls.{exponent_digits, power_max, text_max, count_on, Writable, text_answer};

use digits::push;
use names::Names;
use pages::Padded;
use refusals::Refusal;
use units::{PLACES, Unit};

// How many bytes a text has at most: `1`, and every symbol below the line with `/` or `*`, its name, `^` and four digits.
pub const TEXT_BYTES: usize = 1 + PLACES * (names::NAME_BYTES + EXPONENT_DIGITS + 2);

// How many digits an exponent has at most.
pub const EXPONENT_DIGITS: usize = 4;

// A text by value.
pub type Text = Padded<TEXT_BYTES>;

// Whether a term with this exponent stands above the line or, with false, below it. The sides differ in this and in what leads them; a
// closure for the one beside a slice for the other would be two parameters that travel together. An enum of the two sides would be matched
// where the flag is tested, no more shortly.
fn is_on(e: i16, above: bool) -> bool
    ensures { result ≡ stands above e }
{
    if above { e >= 0 } else { e < 0 }
}

// How large an exponent is.
#[tactic(auto, using(units::proofs::Signed::small))]
fn size(e: i16) -> usize
    requires { outside e ≡ false }
    ensures { (result ≡ nat_abs e) × (result ≤ exponent_max) }
{
    usize::from(e.unsigned_abs())
}

// Writes a name with its power.
fn write_power(out: &mut [u8], at: usize, name: &[u8], n: usize) -> usize
    requires { (length name.now ≤ name_max) × (n ≤ exponent_max) × (at + 1 + name_max + exponent_digits ≤ length out.old) }
    ensures { (result ≡ at + length (power name.now n)) × (out.new ≡ put out.old at (power name.now n)) }
{
    let a = push(out, at, name);
    if n == 1 {
        return a;
    }
    let b = push(out, a, b"^");
    digits::decimal(out, b, n)
}

// Writes what stands before one more power of the side that began at start: its lead, or `*` behind the first.
fn write_separator(out: &mut [u8], start: usize, at: usize, above: bool) -> usize
    requires { at < length out.old }
    ensures { (text : List ℕ) → at ≡ start + length text → (result ≡ at + length (separator above text)) × (out.new ≡ put out.old at (separator above text)) }
{
    if at == start {
        if above {
            return at;
        }
        return push(out, at, b"/");
    }
    push(out, at, b"*")
}

// A unit whose terms, in the order of their places, can be written with the names of a table.
#[derive(Clone, Copy)]
struct Line<'a> {
    names: Names<'a>,
    unit: Unit,
    ghost writable: { ∥ Writable names.page.now unit ∥₁ },
}

impl<'a> Line<'a> {
    // Writes one side of the line.
    fn write_side(self, out: &mut [u8], start: usize, above: bool) -> usize
        requires { start + power_max * count_on above (terms_of self.unit) ≤ length out.old }
        ensures { (result ≡ start + length (side self.entry.names.page.now above (terms_of self.entry.unit))) × (out.new ≡ put out.old start (side self.entry.names.page.now above (terms_of self.entry.unit))) }
    {
        let mut at = start;
        for (s, e) in self.unit.terms() {
            if is_on(e, above) {
                let a = write_separator(out, start, at, above);
                let name = self.names.name_of(usize::from(s));
                at = write_power(out, a, name, size(e));
            }
        }
        at
    }

    // Writes both sides at the front of `out`, and answers how many bytes they have.
    fn write(self, out: &mut [u8]) -> usize
        requires { text_max ≤ length out.old }
        ensures { (result ≡ length (line_of self.entry.names.page.now (terms_of self.entry.unit))) × (out.new ≡ put out.old 0 (line_of self.entry.names.page.now (terms_of self.entry.unit))) }
    {
        let a = self.write_side(out, 0, true);
        if a == 0 {
            let b = push(out, a, b"1");
            return self.write_side(out, b, false);
        }
        self.write_side(out, a, false)
    }

    // Its text.
    fn text(self) -> Text
        ensures { result ≡ padded text_max (line_of self.entry.names.page.now (terms_of self.entry.unit)) }
    {
        let mut bytes = [0u8; TEXT_BYTES];
        let size = self.write(&mut bytes);
        Padded { size, bytes }
    }
}

// The text of a unit: its symbols in byte order of their names.
pub fn unit_text(page: &[u8], u: Unit) -> Result<Text, Refusal>
    ensures { result ≡ text_answer page.now u }
{
    let Some(names) = Names::of(page) else {
        return Err(Refusal::Broken);
    };
    if !units::is_used(u, names.count()) {
        return Err(Refusal::Unused);
    }
    units::unit_form(u)?;
    let unit = order::by_name(names, u);
    let line = Line { names, unit };
    Ok(line.text())
}
