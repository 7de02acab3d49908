// The call that runs insertions, formulas and the comparison of their results together, and with it demand 3 of the mission: specs/Rule.antt
// states it, proofs/Rule.antt proves it, and the call's contract says it of what the call answers.
#![tactic(auto)]

ghost use Rattle.std.specs.Prelude.{◌≡◌, true, ◌||◌, ◌*◌, map, option_copied};
ghost use Rattle.formulas.specs.Calls as formulas;
ghost use Rattle.pairs.specs.Page.{formed};
ghost use Rattle.pairs.specs.Runs.{page_after_all};
ghost use Rattle.names.specs.Calls.{used_of};
ghost use Rattle.types.specs.Types.{Measured};
ghost use Rattle.types.specs.Making.{Grows};
ghost use Rattle.routes.specs.Run.{request_in, pairs_lent, pairs_cut, lent, formula_lent, compare_answer, compare_store, run_answer, run_page, run_table, RunRule};

use formulas::FormulaAnswer;
use groups::Groups;
use pairs::{PAIR_BYTES, TABLE_BYTES};
use refusals::Refusal;
use types::Tables;

// A formula that is lent: a list of nodes, and the number of its root.
#[derive(Clone, Copy)]
pub struct Asked<'a> {
    pub nodes: &'a [u8],
    pub root: usize,
}

// What two formulas come to, and whether their results' units are convertible.
#[derive(Clone, Copy, Debug, PartialEq, Eq)]
pub struct Compared {
    pub left: FormulaAnswer,
    pub right: FormulaAnswer,
    pub convertible: bool,
}

// The pairs of a list that is lent.
fn pairs_lent(requests: &[u8]) -> &[pairs::Body]
    ensures { result.now ≡ pairs_lent requests.now }
{
    let (bodies, _) = requests.as_chunks::<PAIR_BYTES>();
    bodies
}

// Whether it is cut inside a pair.
fn is_cut(requests: &[u8]) -> bool
    ensures { result ≡ pairs_cut requests.now }
{
    requests.len() % PAIR_BYTES != 0
}

// Whether a list that is lent is cut.
fn are_cut(requests: &[u8], left: Asked, right: Asked) -> bool
    ensures { result ≡ (pairs_cut requests.now || (formulas.is_cut left.entry.nodes.now || formulas.is_cut right.entry.nodes.now)) }
{
    is_cut(requests) || formulas::is_cut(left.nodes) || formulas::is_cut(right.nodes)
}

// Inserts pairs, each into the table as the last one left it; a refused one changes nothing. In a frame of its own, which holds tables, and
// is gone when formulas are answered.
#[inline(never)]
fn insert_all(table: &mut [u8], names: Option<&[u8]>, bodies: &[pairs::Body])
    ensures { table.new ≡ page_after_all table.old (map (request_in (option_copied names.entry)) bodies.now) }
{
    for body in bodies {
        let (symbol, base) = pairs::symbols_of(body);
        let _ = pairs::insert_pair(table, names, symbol, pairs::factor_of(body), base);
    }
}

// What two formulas come to, the second answered over the store that the first left, and what the convertibility call says of their
// results' units, where so many names are in use. A refused one may leave the store larger.
fn compare_after(
    page: &mut [u8],
    tables: &mut Tables,
    names: Option<&[u8]>,
    used: usize,
    table: &[u8],
    left: Asked,
    right: Asked,
) -> Result<Compared, Refusal>
    requires measured { Measured page.old tables.old.offsets tables.old.depths }
    requires form { formed table.now (used_of (option_copied names)) ≡ true }
    requires names { used ≡ used_of (option_copied names) }
    ensures value { result ≡ compare_answer (lent table.now (option_copied names.entry)) page.old (formula_lent left.entry.nodes.now left.entry.root) (formula_lent right.entry.nodes.now right.entry.root) }
    ensures page_after { page.new ≡ compare_store (lent table.now (option_copied names.entry)) page.old (formula_lent left.entry.nodes.now left.entry.root) (formula_lent right.entry.nodes.now right.entry.root) }
    ensures grown { Grows page.old page.new × Measured page.new tables.new.offsets tables.new.depths }
{
    let parents = pairs::parents_of(table);
    let groups = Groups {
        parents: &parents,
        steps: pages::count(table),
    };
    let first = formulas::nodes_lent(left.nodes);
    let second = formulas::nodes_lent(right.nodes);
    let x = formulas::formula_checked(page, tables, used, groups, first, left.root)?;
    let y = formulas::formula_checked(page, tables, used, groups, second, right.root)?;
    let convertible = sums::is_convertible_to(table, names, x.answer.unit, y.answer.unit)?;
    Ok(Compared {
        left: x,
        right: y,
        convertible,
    })
}

// What two formulas come to over a table into which pairs are inserted first, and whether their results' units are convertible. Where it
// is refused the store and the table are as they came.
pub fn compare_formulas(
    page: &mut [u8],
    names: Option<&[u8]>,
    table: &mut [u8],
    requests: &[u8],
    left: Asked,
    right: Asked,
) -> Result<Compared, Refusal>
    ensures { (result ≡ run_answer page.old (option_copied names.entry) table.old requests.now (formula_lent left.entry.nodes.now left.entry.root) (formula_lent right.entry.nodes.now right.entry.root))
        × (page.new ≡ run_page page.old (option_copied names.entry) table.old requests.now (formula_lent left.entry.nodes.now left.entry.root) (formula_lent right.entry.nodes.now right.entry.root))
        × (table.new ≡ run_table page.old (option_copied names.entry) table.old requests.now (formula_lent left.entry.nodes.now left.entry.root) (formula_lent right.entry.nodes.now right.entry.root))
        × RunRule page.old (option_copied names.entry) table.old requests.now (formula_lent left.entry.nodes.now left.entry.root) (formula_lent right.entry.nodes.now right.entry.root) result }
{
    formulas::first_verdict(formulas::nodes_lent(left.nodes))?;
    let mut tables = Tables::new();
    let used = types::opened(page, names, &mut tables)?;
    pairs::form_verdict(table, used)?;
    if are_cut(requests, left, right) {
        return Err(Refusal::Broken);
    }
    let store = tables.store(page);
    let front = store.front();
    let end = store.place_of(store.count());
    let n = table.len().min(TABLE_BYTES);
    let mut saved = [0; TABLE_BYTES];
    pages::put_bytes(&mut saved, 0, &table[..n]);
    insert_all(table, names, pairs_lent(requests));
    let answer = compare_after(page, &mut tables, names, used, table, left, right);
    if let Err(_) = answer {
        pages::put_bytes(table, 0, &saved[..n]);
        types::take_back(page, front, end);
    }
    answer
}
