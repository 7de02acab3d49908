// Groups: the symbols that pairs join, kept as a parent for each symbol (document 01, "Units and pairs"; `union` and `canonical`
// of the source's units.rs).
#![tactic(auto)]

ghost use Rattle.std.specs.Prelude.{◌≡◌, get_or, set};
ghost use Rattle.names.specs.Table.{names_max};
ghost use Rattle.groups.specs.Groups.{pair, link_of, walk, enter, selves};

use names::{NAMES, Symbol};

// A parent for each symbol; a root is its own. An array, as there is one for every symbol and nothing is on a heap.
pub type Parents = [Symbol; NAMES];

// Of two roots, the one that stays a root, and the one that gets it as its parent.
#[derive(Clone, Copy)]
pub struct Link {
    pub root: Symbol,
    pub child: Symbol,
}

// Which root stays a root, of a, the root of a pair's symbol, and b, that of its base.
fn linked(a: Symbol, b: Symbol) -> Link
    ensures { result ≡ link_of a b }
{
    Link { root: a, child: b }
}

// Each symbol its own parent.
pub fn own_parents() -> Parents
    ensures { result ≡ selves 0 names_max }
{
    std::array::from_fn(|i| i as Symbol)
}

// The parent of a symbol, 0 where the list does not have it.
fn parent_of(parents: &[Symbol], symbol: Symbol) -> Symbol
    ensures { result ≡ get_or parents.now symbol 0 }
{
    parents.get(usize::from(symbol)).copied().unwrap_or(0)
}

// Makes a symbol the parent of another, if the list has that one.
fn set_parent(parents: &mut [Symbol], symbol: Symbol, parent: Symbol)
    ensures { parents.new ≡ set parents.old symbol parent }
{
    // By index: of a write through `get_mut` a proof learns no element.
    let i = usize::from(symbol);
    if i < parents.len() {
        parents[i] = parent;
    }
}

// Where that many steps up from a symbol lead. No step leaves a root, so the walk stops there. Apart from `Groups`, as `join` writes the
// parents that it walks.
pub fn root(parents: &[Symbol], steps: usize, symbol: Symbol) -> Symbol
    ensures { result ≡ walk steps parents.now symbol }
{
    let mut at = symbol;
    for _ in 0..steps {
        let up = parent_of(parents, at);
        if up == at {
            return at;
        }
        at = up;
    }
    at
}

// One more pair: its two roots, that many steps up, are linked. For crates above (`pairs::insert_pair` is the entry call).
#[tactic(auto, unfolding(crate::specs::Groups::enter))]
pub fn join(parents: &mut [Symbol], steps: usize, symbol: Symbol, base: Symbol)
    ensures { parents.new ≡ enter steps parents.old (pair symbol base) }
{
    let link = linked(root(parents, steps, symbol), root(parents, steps, base));
    set_parent(parents, link.child, link.root);
}

// The groups that pairs join, as they are looked up: the parents of symbols, lent, and how many steps lead to a root, for which the
// number of pairs is enough.
#[derive(Clone, Copy)]
pub struct Groups<'a> {
    pub parents: &'a [Symbol],
    pub steps: usize,
}

impl Groups<'_> {
    // The root of a symbol, for crates above (`pairs::canonical` is the entry call).
    pub fn root(self, symbol: Symbol) -> Symbol
        ensures { result ≡ walk self.entry.steps self.entry.parents.now symbol }
    {
        root(self.parents, self.steps, symbol)
    }
}
