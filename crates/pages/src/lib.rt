// Bytes in lent pages. A page goes with the place in it, here and above, and not as the slice from there on: the definitions count from
// its front.
#![tactic(auto)]

ghost use Rattle.std.specs.Prelude.{◌≡◌, ◌+◌, ◌*◌, ◌≤◌, ◌<◌, length, take, drop, replicate, eqb};
ghost use Rattle.pages.specs.Pad.{padded};
ghost use Rattle.pages.specs.Bytes.{eqs, zeros, word_bytes, count_bytes, word_at, count_of, bytes_of, words, words_at, big_endian, number_at, long_bytes, low_bytes, put};

// How many bytes a word, a number below 65,536, takes.
pub const WORD_BYTES: usize = 2;

// How many bytes the count at a page's front takes.
pub const COUNT_BYTES: usize = WORD_BYTES;

// Whether two slices have the same bytes. By a name, as what `==` answers is the library's `pointwise`: with `==` at the callers each of
// the four, three of them in closures, turns it into `eqs` by hand.
pub fn same(a: &[u8], b: &[u8]) -> bool
    ensures { result ≡ eqs a.now b.now }
{
    a == b
}

// The bits that the bytes have together.
fn bits_of(bytes: &[u8]) -> u8
    ensures { eqb result 0 ≡ zeros bytes.now }
{
    bytes.iter().fold(0, |bits, b| bits | b)
}

// How many bytes are tested for zeros at once.
const BLOCK: usize = 256;

// Whether the bytes from index at on are all 0.
pub fn zeros_from(page: &[u8], at: usize) -> bool
    requires { at ≤ length page.now }
    ensures { result ≡ zeros (drop at page.now) }
{
    let (blocks, rest) = page[at..].as_chunks::<BLOCK>();
    blocks.iter().all(|block| bits_of(block) == 0) && bits_of(rest) == 0
}

// The number that two bytes from index at on say.
pub fn word_at(page: &[u8], at: usize) -> usize
    requires { at + word_bytes ≤ length page.now }
    ensures { (result ≡ word_at page.now at) × (result < 65536) }
{
    usize::from(u16::from_be_bytes([page[at], page[at + 1]]))
}

// The count that the page's first two bytes say.
pub fn count(page: &[u8]) -> usize
    requires { count_bytes ≤ length page.now }
    ensures { (result ≡ count_of page.now) × (result < 65536) }
{
    word_at(page, 0)
}

// A number in two bytes, big-endian.
pub type Word = [u8; WORD_BYTES];

// The two bytes that say a number below 65,536.
pub fn count_bytes(n: usize) -> Word
    requires { n < 65536 }
    ensures { result ≡ bytes_of n }
{
    (n as u16).to_be_bytes()
}

// How many bytes a number of 64 bits takes.
pub const LONG_BYTES: usize = 8;

// A number of 64 bits in bytes, big-endian.
pub type Long = [u8; LONG_BYTES];

// The eight bytes that say a number: its quotients by the powers of 256, the seventh first, each modulo 256.
pub fn long_bytes(n: u64) -> Long
    ensures { result ≡ big_endian long_bytes n }
{
    n.to_be_bytes()
}

// The number that the eight bytes from index at on say.
pub fn long(page: &[u8], at: usize) -> u64
    requires { at + long_bytes ≤ length page.now }
    ensures { result ≡ number_at page.now at long_bytes }
{
    u64::from_be_bytes(page[at..at + LONG_BYTES].try_into().unwrap())
}

// Writes bytes into the page from index at on. One by one: the library's copy of a slice has the archive ask its user for `memmove`.
pub fn put_bytes(page: &mut [u8], at: usize, bytes: &[u8])
    requires { at + length bytes.now ≤ length page.old }
    ensures { page.new ≡ put page.old at bytes.now }
{
    for (i, byte) in bytes.iter().enumerate() {
        page[at + i] = *byte;
    }
}

// Writes numbers into the page from index at on, two bytes each.
pub fn put_words(page: &mut [u8], at: usize, numbers: &[u16])
    requires { at + word_bytes * length numbers.now ≤ length page.old }
    ensures { page.new ≡ put page.old at (words numbers.now) }
{
    for (i, number) in numbers.iter().enumerate() {
        put_bytes(page, at + WORD_BYTES * i, &number.to_be_bytes());
    }
}

// Reads numbers from the page, from index at on, two bytes each: as many as there are places for.
pub fn read_words(page: &[u8], at: usize, numbers: &mut [u16])
    requires { at + word_bytes * length numbers.old ≤ length page.now }
    ensures { numbers.new ≡ words_at page.now at (length numbers.old) }
{
    for (i, number) in numbers.iter_mut().enumerate() {
        *number = word_at(page, at + WORD_BYTES * i) as u16;
    }
}

// Makes every byte of the page 0.
pub fn clear(page: &mut [u8])
    ensures { page.new ≡ replicate (length page.old) 0 }
{
    page.fill(0);
}

// Writes the lowest byte of each number from index at on. A width shared with `put_words` would make both bodies longer.
pub fn put_low_bytes(page: &mut [u8], at: usize, numbers: &[u16])
    requires { at + length numbers.now ≤ length page.old }
    ensures { page.new ≡ put page.old at (low_bytes numbers.now) }
{
    for (i, number) in numbers.iter().enumerate() {
        page[at + i] = (number % 256) as u8;
    }
}

// Reads a byte for each place, from index at on; apart from `read_words` for the same reason.
pub fn read_bytes(page: &[u8], at: usize, numbers: &mut [u16])
    requires { at + length numbers.old ≤ length page.now }
    ensures { numbers.new ≡ take (length numbers.old) (drop at page.now) }
{
    for (i, number) in numbers.iter_mut().enumerate() {
        *number = u16::from(page[at + i]);
    }
}

// Bytes by value, with nothing on a heap: they stand from place 0 on, zeros after them, and `size` is how many they are.
#[derive(Clone, Copy)]
pub struct Padded<const N: usize> {
    pub size: usize,
    pub bytes: [u8; N],
}

impl<const N: usize> Padded<N> {
    // The same bytes in N places.
    pub fn of(bytes: &[u8]) -> Padded<N>
        requires { length bytes.now ≤ N }
        ensures { result ≡ padded N bytes.now }
    {
        let mut places = [0; N];
        put_bytes(&mut places, 0, bytes);
        Padded {
            size: bytes.len(),
            bytes: places,
        }
    }

    // The bytes without the zeros after them.
    pub fn as_slice(&self) -> &[u8]
        requires { self.now.size ≤ N }
        ensures { result.now ≡ take self.now.size self.now.bytes }
    {
        &self.bytes[..self.size]
    }
}
