// Bytes written one after another into a lent page, and numbers in decimal.
#![tactic(auto)]

ghost use Rattle.std.specs.Prelude.{◌≡◌, ◌+◌, ◌≤◌, ◌<◌, length};
ghost use Rattle.pages.specs.Bytes.{put};
ghost use Rattle.digits.specs.Decimal.{decimal_max, digit_of, decimal_of};

// Writes bytes from index at on, and answers where they end. The page and the place go apart: of a struct with both, each contract would
// say `old.out` and `new.at` of it, and that the page lent is the same one, besides.
pub fn push(out: &mut [u8], at: usize, bytes: &[u8]) -> usize
    requires { at + length bytes.now ≤ length out.old }
    ensures { (result ≡ at + length bytes.now) × (out.new ≡ put out.old at bytes.now) }
{
    pages::put_bytes(out, at, bytes);
    at + bytes.len()
}

// The byte of a digit.
fn digit(n: usize) -> u8
    requires { n < 10 }
    ensures { result ≡ digit_of n }
{
    b'0' + n as u8
}

// Writes a number below 100,000 in decimal from index at on, and answers where it ends.
pub fn decimal(out: &mut [u8], at: usize, n: usize) -> usize
    requires { (n < decimal_max) × (at + length (decimal_of n) ≤ length out.old) }
    ensures { (result ≡ at + length (decimal_of n)) × (out.new ≡ put out.old at (decimal_of n)) }
{
    // An arm for each length: one digit after another takes three times as long, the kit's `itoa`, which fills a buffer of its own, 1.4 to
    // 2.4 times as long, and `write!` 2.6 to 12 times.
    match n {
        0..=9 => push(out, at, &[digit(n)]),
        10..=99 => push(out, at, &[digit(n / 10), digit(n % 10)]),
        100..=999 => push(
            out,
            at,
            &[digit(n / 100), digit(n / 10 % 10), digit(n % 10)],
        ),
        1000..=9999 => push(
            out,
            at,
            &[
                digit(n / 1000),
                digit(n / 100 % 10),
                digit(n / 10 % 10),
                digit(n % 10),
            ],
        ),
        _ => push(
            out,
            at,
            &[
                digit(n / 10000),
                digit(n / 1000 % 10),
                digit(n / 100 % 10),
                digit(n / 10 % 10),
                digit(n % 10),
            ],
        ),
    }
}
