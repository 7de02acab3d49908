// Chains of numbered things by the prints of their bytes: for each print the last thing so far, and for each thing the one before it
// with its print. A thing is held as one more than its number, and 0 is none: an `Option` of it would take twice the bytes. The places are
// arrays, since there is no heap for a map.
#![tactic(auto)]

ghost use Rattle.std.specs.Prelude.{◌≡◌, ℕ, ◌+◌, ◌<◌, ◌≤◌, length, get_or, set, replicate, take, Bool};
ghost use Rattle.chains.specs.Last.{Descends, any_linked};
ghost use Rattle.chains.specs.Prints.{prints_max, print_of};

// Puts thing i into a bucket, before the things that are there. This and the next are for tables of any length; `Chains` has those of
// names and types.
pub fn link(heads: &mut [u16], links: &mut [u16], bucket: usize, i: usize)
    requires { (bucket < length heads.old) × (i < length links.old) × (i + 1 < 65536) }
    ensures { (heads.new ≡ set heads.old bucket (i + 1)) × (links.new ≡ set links.old i (get_or heads.old bucket 0)) }
{
    links[i] = heads[bucket];
    heads[bucket] = (i + 1) as u16;
}

// Whether one of the things of a chain passes a test, from the last on; `head` is one more than that one, or 0 where there is none.
// Each thing says which is next, so there is no slice to go over.
pub fn any_linked<F: Fn(usize) -> bool>(links: &[u16], head: usize, test: F) -> bool
    requires linked { Descends links.now head }
    requires callable { (k : ℕ) → k < length links.now → F.pre test k }
    ensures { (p : ℕ → Bool) → ((k : ℕ) (r : Bool) → k < length links.now → F.post test k r → r ≡ p k) → result ≡ any_linked links.now p head }
{
    let mut next = head;
    while let Some(k) = next.checked_sub(1) {
        if test(k) {
            return true;
        }
        next = usize::from(links[k]);
    }
    false
}

// How many prints there are.
pub const PRINTS: usize = 1024;

// How many sums have one print: a sum is two bytes.
const SHARE: usize = 65536 / PRINTS;

// What spreads a byte over a sum.
const SPREAD: u16 = 40503;

// The print of bytes, from a sum with them mixed in one after another.
pub fn print_of(bytes: &[u8]) -> usize
    ensures { (result ≡ print_of bytes.now) × (result < prints_max) }
{
    let sum: u16 = bytes.iter().fold(
        0,
        |sum, b| sum.wrapping_add(u16::from(*b)).wrapping_mul(SPREAD),
    );
    usize::from(sum) / SHARE
}

// The chains of at most N things by their prints: for each print the last thing that has it, and for each thing the one before it with
// its print.
#[derive(Drop)]
pub struct Chains<const N: usize> {
    pub heads: [u16; PRINTS],
    pub links: [u16; N],
}

impl<const N: usize> Chains<N> {
    // No thing in any chain.
    pub fn new() -> Self
        ensures { (result.heads ≡ replicate prints_max 0) × (result.links ≡ replicate N 0) }
    {
        Chains {
            heads: [0; PRINTS],
            links: [0; N],
        }
    }

    // Puts thing i into the chain of its print, before the things that are there.
    pub fn link(&mut self, print: usize, i: usize)
        requires { (print < prints_max) × (i < N) × (i + 1 < 65536) }
        ensures { (self.new.heads ≡ set self.old.heads print (i + 1)) × (self.new.links ≡ set self.old.links i (get_or self.old.heads print 0)) }
    {
        link(&mut self.heads, &mut self.links, print, i);
    }

    // Whether one of the things that have a print passes a test, where the first n are in the chains.
    pub fn any_linked<F: Fn(usize) -> bool>(&self, n: usize, print: usize, test: F) -> bool
        requires linked { (n ≤ length self.now.links) × (print < prints_max) × Descends (take n self.now.links) (get_or self.now.heads print 0) }
        requires callable { (k : ℕ) → k < n → F.pre test k }
        ensures { (p : ℕ → Bool) → ((k : ℕ) (r : Bool) → k < n → F.post test k r → r ≡ p k) → result ≡ any_linked (take n self.now.links) p (get_or self.now.heads print 0) }
    {
        any_linked(&self.links[..n], usize::from(self.heads[print]), test)
    }
}
