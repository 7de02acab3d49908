// Formulas: nodes that are answered one after another, each once (document 01, "Formulas and sheets").
#![tactic(auto)]

ghost use Rattle.std.specs.Prelude.{◌≡◌, ◌&&◌, not, [], ◌∷◌, suc, ◌*◌, ◌+◌, ◌≤◌, ◌<◌, ltb, leb, length, option_copied, true, false, Ok};
ghost use Rattle.pages.specs.Bytes.{count_bytes};
ghost use Rattle.types.specs.Store.{larger};
ghost use Rattle.types.specs.Types.{Measured};
ghost use Rattle.types.specs.Making.{taken_back};
ghost use Rattle.types.specs.Same as makers;
ghost use Rattle.refusals.specs.Lowest.{◌when◌, lowest};
ghost use Rattle.refusals.specs.declared.Refusal.TheVariants.{Undefined, Unused, Depth, Full};
ghost use Rattle.marks.specs.Marks.{large_bytes, Noted};
ghost use Rattle.groups.specs.Groups.{walk};
ghost use Rattle.matching.specs.Memo.{Found};
ghost use Rattle.operators.specs.Operators.{is_operator};
ghost use Rattle.formulas.specs.Nodes.{nodes_max, depth_max, is_node, operand_at, value_answer, node_conditions, node_answer, node_store, depth_at, depth_of, first_refused, step_verdict, stepped, all_stepped};
ghost use Rattle.formulas.specs.declared.Written.TheVariants.{Unary, Binary, Index};
ghost use Rattle.formulas.specs.Supplied.{Placed};
ghost use Rattle.formulas.specs.Calls.{nodes_lent, is_cut, first_undefined, check_answer, check_page};
ghost use Rattle.formulas.specs.Bodies.{written_in, nodes_in, list_verdict, formula_nodes, formula_answer, formula_store};

use answers::{Answered, CheckedExpr};
use groups::Groups;
use marks::SMALL;
use matching::{Checked, LARGE_MEMO, SMALL_MEMO};
use members::Leafed;
use operators::Errors;
use pages::Word;
use refusals::Refusal;
use types::{Maker, NULL, Store, TYPES, Tables};
use units::Unit;
use values::UNIT_BYTES;

// How many nodes there are at most.
pub const NODES: usize = 256;

// How deep a formula can be.
pub const DEPTH: usize = 32;

// Where the unit of a value begins, after its form and its type.
const UNIT_AT: usize = 3;

// How many bytes a node takes: as many as the longest body.
pub const NODE_BYTES: usize = UNIT_AT + UNIT_BYTES;

// The bytes of a node: a body, and what stands after it.
pub type Body = [u8; NODE_BYTES];

// A node as it is written. Operands are numbers of nodes, all lower than its own.
#[derive(Clone, Copy, Debug, PartialEq, Eq)]
pub enum Written {
    // A type, and a unit or none.
    Value(usize, Option<Unit>),
    // An operator's code and its operand.
    Unary(usize, usize),
    // An operator's code, and its left and right operands.
    Binary(usize, usize, usize),
    // A target and a key.
    Index(usize, usize),
}

// A node that has its answer: how it is written, how deep the formula below it is, and what it answers.
#[derive(Clone, Copy, Debug, PartialEq, Eq)]
pub struct Node {
    pub written: Written,
    pub depth: usize,
    pub answer: Answered,
}

// What stands at a place that has no node.
const NOTHING: Node = Node {
    written: Written::Value(NULL, None),
    depth: 0,
    answer: Answered {
        checked: Checked::Known(NULL),
        unit: None,
        errors: Errors::None,
    },
};

// What a formula comes to: what its root answers, how many errors it has, each node's once, and whether it passes.
#[derive(Clone, Copy, Debug, PartialEq, Eq)]
pub struct FormulaAnswer {
    pub answer: Answered,
    pub errors: usize,
    pub passes: bool,
}

// What nodes are answered with, one after another, beside a store that grows: the leaves of its types beside one operand and beside two,
// what matching has found in it, the groups of symbols, how many name numbers are in use, and the nodes so far. Nothing of it is made or
// tested anew for a node. The store's `Maker` stands beside it, as what a value in a value has written is not known once that is gone.
#[derive(Drop)]
pub struct Answering<'a, 'b> {
    pub singles: &'a mut [u16],
    pub doubles: &'a mut [u16],
    pub memo: &'a mut [u8],
    pub groups: Groups<'b>,
    pub used: usize,
    pub nodes: &'a mut [Node],
    pub count: usize,
    pub ghost placed: { ∥ Placed nodes.now count ∥₁ },
}

// How a node is written that begins with these bytes, if its form is defined.
#[tactic(auto, unfolding(crate::specs::Bodies::written_in))]
pub fn written_in(body: &Body) -> Option<Written>
    ensures { result ≡ written_in body.now }
{
    let first = usize::from(body[1]);
    let second = usize::from(body[2]);
    match body[0] {
        0 => {
            let bytes = body.as_slice();
            let unit = values::unit_said(&bytes[UNIT_AT..]);
            Some(Written::Value(pages::word_at(bytes, 1), unit))
        }
        1 => Some(Written::Unary(first, second)),
        2 => Some(Written::Binary(first, second, usize::from(body[3]))),
        3 => Some(Written::Index(first, second)),
        _ => None,
    }
}

// Why a node is refused that is so deep, where there are so many.
fn limits(depth: usize, count: usize) -> Result<(), Refusal>
    ensures { result ≡ lowest ((Depth when ltb depth_max depth) ∷ (Full when leb nodes_max count) ∷ []) }
{
    if DEPTH < depth {
        return Err(Refusal::Depth);
    }
    if NODES <= count {
        return Err(Refusal::Full);
    }
    Ok(())
}

// What a value answers: its type and its unit.
fn value_answer(t: usize, unit: Option<Unit>) -> Answered
    ensures { result ≡ value_answer t unit }
{
    Answered {
        checked: Checked::Known(t),
        unit,
        errors: Errors::None,
    }
}

// Of what may be refused and a verdict, the refusal that comes first.
fn first_of<T: Copy>(v: Result<T, Refusal>, u: Result<(), Refusal>) -> Result<(), Refusal>
    ensures { result ≡ first_refused v u }
{
    let Err(r) = v else {
        return u;
    };
    if let Err(s) = u
        && u8::from(s) < u8::from(r)
    {
        return u;
    }
    Err(r)
}

// Why a root is refused of so many nodes.
fn root_verdict(root: usize, n: usize) -> Result<(), Refusal>
    ensures { result ≡ lowest ((Unused when not (ltb root n)) ∷ []) }
{
    if n <= root {
        return Err(Refusal::Unused);
    }
    Ok(())
}

// Takes back what entered a store, whose count's bytes and end were these.
fn take_back(maker: &mut Maker, front: Word, end: usize)
    requires bounds { (count_bytes ≤ end) × (end ≤ length maker.old.page.now) }
    requires measured { Measured (taken_back maker.old.page.now front end) maker.old.tables.now.offsets maker.old.tables.now.depths }
    ensures value { maker.new.page.now ≡ taken_back maker.old.page.now front end }
    ensures same { makers.Same maker.new maker.old }
{
    types::take_back(maker.page, front, end);
}

impl Answering<'_, '_> {
    ghost use Rattle.std.specs.Prelude.{ℕ};
    ghost use mathlib.Core.List.{Memᴰ};
    ghost use Rattle.formulas.specs.Below.{operands_of};
    ghost use Rattle.formulas.specs.State.{nodes_of, roots_of, state_of, Beside, Same};

    // Node n as an operand.
    fn operand(&self, n: usize) -> CheckedExpr
        requires { n < self.now.count }
        ensures { result ≡ operand_at (nodes_of self.now) n }
    {
        let a = self.nodes[n].answer;
        CheckedExpr {
            checked: a.checked,
            unit: a.unit,
        }
    }

    // Why an operator with these operands is refused before it is answered.
    fn operator_verdict(&self, op: usize, a: usize, b: usize) -> Result<(), Refusal>
        ensures { result ≡ lowest ((Undefined when not (is_operator op)) ∷ (Unused when not (is_node (nodes_of self.now) a && is_node (nodes_of self.now) b)) ∷ []) }
    {
        if !operators::is_operator(op) {
            return Err(Refusal::Undefined);
        }
        self.operands_verdict(a, b)
    }

    // Why two operands are refused: one is no node.
    fn operands_verdict(&self, a: usize, b: usize) -> Result<(), Refusal>
        ensures { result ≡ lowest ((Unused when not (is_node (nodes_of self.now) a && is_node (nodes_of self.now) b)) ∷ []) }
    {
        if self.count <= a.max(b) {
            return Err(Refusal::Unused);
        }
        Ok(())
    }

    // Why a node is refused before it is answered.
    fn verdict(&self, store: Store, w: Written) -> Result<(), Refusal>
        ensures { result ≡ lowest (node_conditions self.now.used store.entry.page.now (nodes_of self.now) w) }
    {
        match w {
            Written::Value(t, unit) => {
                let x = CheckedExpr {
                    checked: Checked::Known(t),
                    unit,
                };
                answers::operands_verdict(store, self.used, x, x)
            }
            Written::Unary(op, a) => self.operator_verdict(op, a, a),
            Written::Binary(op, a, b) => self.operator_verdict(op, a, b),
            Written::Index(a, k) => self.operands_verdict(a, k),
        }
    }

    // How deep the formula below node n is, itself among it.
    fn depth_at(&self, n: usize) -> usize
        requires { n < self.now.count }
        ensures { (result ≡ depth_at (nodes_of self.now) n) × (result ≤ depth_max) }
    {
        self.nodes[n].depth
    }

    // How deep a formula over nodes a and b is.
    fn depth_over(&self, a: usize, b: usize) -> usize
        requires { (a < self.now.count) × (b < self.now.count) }
        ensures { (result ≡ suc (larger (depth_at (nodes_of self.now) a) (depth_at (nodes_of self.now) b))) × (result ≤ depth_max + 1) }
    {
        self.depth_at(a).max(self.depth_at(b)) + 1
    }

    // How deep the formula below a node would be.
    fn depth_of(&self, w: Written) -> usize
        requires { (a : ℕ) → Memᴰ a (operands_of w) → a < self.now.count }
        ensures { (result ≡ depth_of (nodes_of self.now) w) × (result ≤ depth_max + 1) }
    {
        match w {
            Written::Value(_, _) => 1,
            Written::Unary(_, a) => self.depth_at(a) + 1,
            Written::Binary(_, a, b) => self.depth_over(a, b),
            Written::Index(a, k) => self.depth_over(a, k),
        }
    }

    // What an operator answers on node a.
    fn unary(&mut self, maker: &mut Maker, op: usize, a: usize) -> Result<Answered, Refusal>
        requires operands { (is_operator op ≡ true) × (a < self.old.count) }
        requires beside { Beside self.old maker.old.page.now }
        ensures value { result ≡ node_answer maker.old.page.now (roots_of self.old) (nodes_of self.old) (Unary op a) }
        ensures store { maker.new.page.now ≡ node_store maker.old.page.now (nodes_of self.old) (Unary op a) }
        ensures beside_2 { Beside self.new maker.new.page.now }
        ensures noted { Noted (Found maker.old.page.now) self.new.memo.now }
        ensures nodes { (self.new.nodes.now ≡ self.old.nodes.now) × (self.new.count ≡ self.old.count) }
        ensures same { Same self.new self.old × makers.Same maker.new maker.old }
    {
        let x = self.operand(a);
        let n = maker.store().count();
        let answer = answers::unary_checked(maker, self.singles, op, x);
        members::fill_leaves::<2>(maker.store(), self.doubles, n);
        answer
    }

    // What an operator answers on nodes a and b.
    fn binary(&self, store: Store, op: usize, a: usize, b: usize) -> Result<Answered, Refusal>
        requires operands { (a < self.now.count) × (b < self.now.count) }
        requires beside { Beside self.now store.page.now }
        ensures { result ≡ node_answer store.entry.page.now (roots_of self.now) (nodes_of self.now) (Binary op a b) }
    {
        let leafed: Leafed<'_, 2> = Leafed::new(store, self.doubles);
        let (l, r) = (self.operand(a), self.operand(b));
        answers::binary_checked(leafed, self.groups, op, l, r)
    }

    // What node a answers as a target, with node k as its key.
    fn index(&mut self, maker: &mut Maker, a: usize, k: usize) -> Result<Answered, Refusal>
        requires operands { (a < self.old.count) × (k < self.old.count) }
        requires beside { Beside self.old maker.old.page.now }
        ensures value { result ≡ node_answer maker.old.page.now (roots_of self.old) (nodes_of self.old) (Index a k) }
        ensures store { maker.new.page.now ≡ node_store maker.old.page.now (nodes_of self.old) (Index a k) }
        ensures beside_2 { Beside self.new maker.new.page.now }
        ensures noted { Noted (Found maker.old.page.now) self.new.memo.now }
        ensures nodes { (self.new.nodes.now ≡ self.old.nodes.now) × (self.new.count ≡ self.old.count) }
        ensures same { Same self.new self.old × makers.Same maker.new maker.old }
    {
        let x = self.operand(a);
        let key = self.operand(k).checked;
        let n = maker.store().count();
        let answer = answers::index_checked(maker, self.memo, x, key);
        members::fill_leaves::<1>(maker.store(), self.singles, n);
        members::fill_leaves::<2>(maker.store(), self.doubles, n);
        answer
    }

    // What a node answers.
    fn answer(&mut self, maker: &mut Maker, w: Written) -> Result<Answered, Refusal>
        requires passed { lowest (node_conditions self.old.used maker.old.page.now (nodes_of self.old) w) ≡ Ok tt }
        requires beside { Beside self.old maker.old.page.now }
        ensures value { result ≡ node_answer maker.old.page.now (roots_of self.old) (nodes_of self.old) w }
        ensures store { maker.new.page.now ≡ node_store maker.old.page.now (nodes_of self.old) w }
        ensures beside_2 { Beside self.new maker.new.page.now }
        ensures noted { Noted (Found maker.old.page.now) self.new.memo.now }
        ensures nodes { (self.new.nodes.now ≡ self.old.nodes.now) × (self.new.count ≡ self.old.count) }
        ensures same { Same self.new self.old × makers.Same maker.new maker.old }
    {
        match w {
            Written::Value(t, unit) => Ok(value_answer(t, unit)),
            Written::Unary(op, a) => self.unary(maker, op, a),
            Written::Binary(op, a, b) => self.binary(maker.store(), op, a, b),
            Written::Index(a, k) => self.index(maker, a, k),
        }
    }

    // Answers one more node. A refused one changes nothing.
    pub fn step(&mut self, maker: &mut Maker, w: Written) -> Result<(), Refusal>
        requires { Beside self.old maker.old.page.now }
        ensures value { result ≡ step_verdict self.old.used (roots_of self.old) (state_of maker.old.page.now self.old) w }
        ensures state { state_of maker.new.page.now self.new ≡ stepped self.old.used (roots_of self.old) (state_of maker.old.page.now self.old) w }
        ensures beside { Beside self.new maker.new.page.now }
        ensures same { Same self.new self.old × makers.Same maker.new maker.old }
    {
        let store = maker.store();
        self.verdict(store, w)?;
        let depth = self.depth_of(w);
        let limit = limits(depth, self.count);
        let front = store.front();
        let end = store.place_of(store.count());
        let answer = self.answer(maker, w);
        let Ok(a) = answer else {
            return first_of(answer, limit);
        };
        if let Err(r) = limit {
            take_back(maker, front, end);
            return Err(r);
        }
        self.nodes[self.count] = Node {
            written: w,
            depth,
            answer: a,
        };
        self.count += 1;
        Ok(())
    }

    // Answers a list of nodes, up to the first that is refused.
    fn answer_all(&mut self, maker: &mut Maker, bodies: &[Body]) -> Result<(), Refusal>
        requires { Beside self.old maker.old.page.now }
        ensures value { result ≡ list_verdict self.old.used (roots_of self.old) (state_of maker.old.page.now self.old) bodies.now }
        ensures state { state_of maker.new.page.now self.new ≡ all_stepped self.old.used (roots_of self.old) (state_of maker.old.page.now self.old) (nodes_in bodies.now) }
        ensures beside { Beside self.new maker.new.page.now }
        ensures same { Same self.new self.old × makers.Same maker.new maker.old }
    {
        for body in bodies {
            let Some(w) = written_in(body) else {
                return Err(Refusal::Undefined);
            };
            self.step(maker, w)?;
        }
        Ok(())
    }

    // Answers a list of nodes, of which those before are none, and says what the formula with that root comes to.
    fn formula(
        &mut self,
        maker: &mut Maker,
        bodies: &[Body],
        root: usize,
    ) -> Result<FormulaAnswer, Refusal>
        requires { Beside self.old maker.old.page.now }
        ensures value { result ≡ formula_answer self.old.used (roots_of self.old) maker.old.page.now bodies.now root }
        ensures store { maker.new.page.now ≡ (formula_nodes self.old.used (roots_of self.old) maker.old.page.now bodies.now).store }
        ensures beside { Beside self.new maker.new.page.now }
        ensures same { Same self.new self.old × makers.Same maker.new maker.old }
    {
        self.count = 0;
        let walk = self.answer_all(maker, bodies);
        first_of(walk, root_verdict(root, bodies.len()))?;
        Ok(FormulaAnswer {
            answer: self.nodes[root].answer,
            errors: self.error_count(root),
            passes: self.passes(root),
        })
    }
}

impl Written {
    ghost use Rattle.std.specs.Prelude.{ℕ};
    ghost use mathlib.Core.List.{Memᴰ};
    ghost use Rattle.formulas.specs.Below.{operands_of};
    ghost use Rattle.formulas.specs.Marked.{marked};

    // Marks the operands of a node that is written so, a key among them.
    fn mark_operands(self, marks: &mut [bool; NODES])
        requires { (a : ℕ) → Memᴰ a (operands_of self) → a < nodes_max }
        ensures { marks.new ≡ marked marks.old (operands_of self) }
    {
        match self {
            Written::Value(_, _) => {}
            Written::Unary(_, a) => marks[a] = true,
            Written::Binary(_, a, b) | Written::Index(a, b) => {
                marks[a] = true;
                marks[b] = true;
            }
        }
    }
}

impl Answering<'_, '_> {
    ghost use Rattle.formulas.specs.State.{nodes_of};
    ghost use Rattle.formulas.specs.Below.{error_count, passes};
    ghost use Rattle.formulas.specs.Marked.{Marked};

    // Which nodes are of the formula whose root is this: the root, and all below it, keys included. One pass downwards, as operands are
    // lower.
    fn nodes_below(&self, root: usize) -> [bool; NODES]
        requires { root < self.now.count }
        ensures { Marked (nodes_of self.now) root result }
    {
        let mut marks = [false; NODES];
        marks[root] = true;
        for n in (0..root + 1).rev() {
            if marks[n] {
                self.nodes[n].written.mark_operands(&mut marks);
            }
        }
        marks
    }

    // How many errors the formula with this root has: a shared node's count once.
    pub fn error_count(&self, root: usize) -> usize
        requires { root < self.now.count }
        ensures { (result ≡ error_count (nodes_of self.now) root) × (result ≤ 2 * nodes_max) }
    {
        let marks = self.nodes_below(root);
        let mut count = 0;
        for n in 0..root + 1 {
            if marks[n] {
                count += self.nodes[n].answer.errors.count();
            }
        }
        count
    }

    // Whether every node of the formula with this root has an answer, and none an error.
    pub fn passes(&self, root: usize) -> bool
        ensures { result ≡ passes (nodes_of self.now) root }
    {
        root < self.count && self.error_count(root) == 0
    }
}

// The nodes of a list that is lent.
pub fn nodes_lent(nodes: &[u8]) -> &[Body]
    ensures { result.now ≡ nodes_lent nodes.now }
{
    let (bodies, _) = nodes.as_chunks::<NODE_BYTES>();
    bodies
}

// Whether it is cut inside a node.
pub fn is_cut(nodes: &[u8]) -> bool
    ensures { result ≡ is_cut nodes.now }
{
    nodes.len() % NODE_BYTES != 0
}

// Why the first node is refused whatever is lent beside the list: its form or its operator is undefined.
pub fn first_verdict(bodies: &[Body]) -> Result<(), Refusal>
    ensures { result ≡ lowest ((Undefined when first_undefined bodies.now) ∷ []) }
{
    let Some(body) = bodies.first() else {
        return Ok(());
    };
    match written_in(body) {
        None => Err(Refusal::Undefined),
        Some(Written::Unary(op, _) | Written::Binary(op, _, _)) if !operators::is_operator(op) => {
            Err(Refusal::Undefined)
        }
        Some(_) => Ok(()),
    }
}

// What a formula comes to, over a table of N bytes of what matching has found, in a frame of its own.
#[inline(never)]
fn answer_over<const N: usize>(
    page: &mut [u8],
    tables: &mut Tables,
    used: usize,
    groups: Groups,
    bodies: &[Body],
    root: usize,
) -> Result<FormulaAnswer, Refusal>
    requires measured { Measured page.old tables.old.offsets tables.old.depths }
    requires n_bound { N ≤ 2 * large_bytes }
    ensures value { result ≡ formula_answer used (walk groups.entry.steps groups.entry.parents.now) page.old bodies.now root }
    ensures page_after { page.new ≡ formula_store used (walk groups.entry.steps groups.entry.parents.now) page.old bodies.now root }
    ensures measured_2 { Measured page.new tables.new.offsets tables.new.depths }
{
    let store = tables.store(page);
    let front = store.front();
    let end = store.place_of(store.count());
    let mut singles = [0; TYPES];
    let mut doubles = [0; TYPES];
    members::fill_leaves::<1>(store, &mut singles, 0);
    members::fill_leaves::<2>(store, &mut doubles, 0);
    let mut memo = [0; N];
    let mut nodes = [NOTHING; NODES];
    let mut maker = Maker { page, tables };
    let mut answering = Answering {
        singles: &mut singles,
        doubles: &mut doubles,
        memo: &mut memo,
        groups,
        used,
        nodes: &mut nodes,
        count: 0,
    };
    let answer = answering.formula(&mut maker, bodies, root);
    if let Err(_) = answer {
        types::take_back(page, front, end);
    }
    answer
}

// What a formula comes to, over a store with its tables, where so many names are in use and symbols are in these groups, for crates above
// (`check_formula` is the entry call, and tests the forms). A formula that is refused leaves the store as it was.
pub fn formula_checked(
    page: &mut [u8],
    tables: &mut Tables,
    used: usize,
    groups: Groups,
    bodies: &[Body],
    root: usize,
) -> Result<FormulaAnswer, Refusal>
    requires { Measured page.old tables.old.offsets tables.old.depths }
    ensures value { result ≡ formula_answer used (walk groups.entry.steps groups.entry.parents.now) page.old bodies.now root }
    ensures page_after { page.new ≡ formula_store used (walk groups.entry.steps groups.entry.parents.now) page.old bodies.now root }
    ensures measured { Measured page.new tables.new.offsets tables.new.depths }
{
    if types::count(page) + NODES <= SMALL {
        answer_over::<SMALL_MEMO>(page, tables, used, groups, bodies, root)
    } else {
        answer_over::<LARGE_MEMO>(page, tables, used, groups, bodies, root)
    }
}

// What the formula of a list of nodes and a root comes to, over a store of types and a table of pairs.
pub fn check_formula(
    page: &mut [u8],
    names: Option<&[u8]>,
    table: &[u8],
    nodes: &[u8],
    root: usize,
) -> Result<FormulaAnswer, Refusal>
    ensures { (result ≡ check_answer page.old (option_copied names.entry) table.now nodes.now root) × (page.new ≡ check_page page.old (option_copied names.entry) table.now nodes.now root) }
{
    let bodies = nodes_lent(nodes);
    first_verdict(bodies)?;
    let mut tables = Tables::new();
    let used = types::opened(page, names, &mut tables)?;
    pairs::form_verdict(table, used)?;
    if is_cut(nodes) {
        return Err(Refusal::Broken);
    }
    let parents = pairs::parents_of(table);
    let groups = Groups {
        parents: &parents,
        steps: pages::count(table),
    };
    formula_checked(page, &mut tables, used, groups, bodies, root)
}
