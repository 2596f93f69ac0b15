//! The evaluator: one step after another, until no frame is left.
ghost use Rattle.std.specs.Prelude.{◌≡◌};
ghost use Rattle.um_eval.specs.Settling.{either};

use crate::frame::{Binary, Collection, Frame, Unary, is_body};
use crate::next::{End, Next};
use crate::operations::{apply, binary_place, given_operands, operate, unary_place};
use crate::scope::Scope;
use crate::stop::Operands;
use std::alloc::AllocError;
use um_cells::{ListCase, Store, Word, WordOutcome, truth};
use um_frac::Trap;
use um_tree::{Expr, Function, Node};
use um_units::NoMemory;

/// A run in the middle of its work.
#[derive(Drop)]
pub(crate) struct Evaluator<'a> {
    pub(crate) store: Store,
    pub(crate) scope: Scope,
    /// The values of items that wait for those after them
    pub(crate) values: Vec<Word>,
    pub(crate) frames: Vec<Frame<'a>>,
    pub(crate) budget: u64,
    /// What was given last
    pub(crate) value: Word,
    /// What ends the run, if it is a trap
    pub(crate) trap: Trap,
    /// Where the run stops, if it traps or the budget ends: the place of the node in the running function
    pub(crate) at: u32,
    /// And the operands of its operation
    pub(crate) operands: Operands,
}

impl<'a> Evaluator<'a> {
    ghost use Rattle.std.specs.Prelude.{◌≡◌, ◌≤◌, ◌∷◌, ◌+◌, ℕ, List, Some, length, slice_get, IfOk, IsTrue, map};
    ghost use Rattle.um_tree.specs.ExprTree.{expr_tree, in_order};
    ghost use Rattle.um_tree.specs.ProgramTree.{FunctionTree, function_tree};
    ghost use Rattle.um_eval.specs.declared.frame.Frame.TheVariants.{Operand, Right, Bound, Matched, Item, Inner};
    ghost use Rattle.um_eval.specs.declared.frame.Frame.{Frame};
    ghost use Rattle.um_eval.specs.Frames.{is_body};
    ghost use Rattle.um_eval.specs.declared.frame.Collection.TheVariants as collection;
    ghost use Rattle.um_eval.specs.Tasks.{Evaluate, Give};
    ghost use Rattle.um_eval.specs.Settling.{settled, given_operands};
    ghost use Rattle.um_eval.specs.Through.{Whole, whole_outcome};
    ghost use Rattle.um_eval.specs.Progress.{frames_of, Within, LeadsTo, Goes, IsVariable, Collects, IsCollected};
    ghost use Rattle.um_eval.specs.Progress.{EndsWith, EndsAt};

    /// Runs until no frame is left, or there is no value.
    pub(crate) fn run(
        &mut self,
        functions: &'a [Function],
        first: Next<'a>,
    ) -> Result<End, NoMemory>
        requires { (whole : Whole) × (n : ℕ) × Goes (map function_tree functions.now) self.old first whole n }
        ensures { (whole : Whole) (n : ℕ) → Goes (map function_tree functions.now) self.old first.entry whole n
            → IfOk result (λ end. EndsWith self.new.store end (whole_outcome (map function_tree functions.now) whole)
            × EndsAt (map function_tree functions.now) self.new end whole) }
    {
        let mut next = first;
        loop {
            match next {
                Next::Evaluate(e) => {
                    next = self.evaluate(functions, e);
                }
                Next::Give => {
                    match self.frames.pop() {
                        Some(frame) => {
                            next = self.resume(functions, frame);
                        }
                        None => return Ok(End::Value(self.value)),
                    }
                }
                Next::Trap => return Ok(End::Trap(self.trap)),
                Next::BudgetEnd => return Ok(End::BudgetEnd),
                Next::Wrong => return Ok(End::Wrong),
                Next::NoMemory => return Err(AllocError),
            }
        }
    }

    // The first step of an expression.
    fn evaluate(&mut self, functions: &'a [Function], e: &'a Expr) -> Next<'a>
        requires { (whole : Whole) × (n : ℕ) × LeadsTo (map function_tree functions.now) self.old
            (Evaluate e) whole n }
        ensures { (whole : Whole) (n : ℕ) → LeadsTo (map function_tree functions.now) self.old
            (Evaluate e.entry) whole (n + 1) → Goes (map function_tree functions.now) self.new result whole n }
    {
        match &e.node {
            Node::Bool(b) => self.give(Word::Bool(*b)),
            Node::Num(c, _) => self.give(Word::Num(*c)),
            Node::Local(k) => self.variable(*k),
            Node::Nil(_) => self.give(Word::Nil),
            Node::Call(j, es) => {
                self.begin_items(functions, Collection::Call(*j, e.at), &es.items)
            }
            Node::List(es) => self.begin_items(functions, Collection::List, &es.items),
            Node::Rec(r, es) => self.begin_items(functions, Collection::Rec(*r), &es.items),
            Node::Neg(x) => self.begin(Frame::Operand(Unary::Negate), x),
            Node::Not(x) => self.begin(Frame::Operand(Unary::Not), x),
            Node::Pow(x, k) => self.begin(Frame::Operand(Unary::Power(*k, e.at)), x),
            Node::Field(r, k, x) => self.begin(Frame::Operand(Unary::Field(*r, *k)), x),
            Node::Arith(op, x, y) => self.begin(Frame::Left(Binary::Arith(*op, e.at), y), x),
            Node::Compare(sign, x, y) => self.begin(Frame::Left(Binary::Compare(*sign), y), x),
            Node::Cons(x, y) => self.begin(Frame::Left(Binary::Cons, y), x),
            Node::And(x, y) => self.begin(Frame::LeftOfAnd(y), x),
            Node::Or(x, y) => self.begin(Frame::LeftOfOr(y), x),
            Node::If(c, x, y) => self.begin(Frame::Test(x, y), c),
            Node::Let(x, y) => self.begin(Frame::Bound(y), x),
            Node::Match(l, x, y) => self.begin(Frame::Matched(x, y), l),
        }
    }

    // The value is handed to the frame that was the innermost.
    fn resume(&mut self, functions: &'a [Function], frame: Frame<'a>) -> Next<'a>
        requires { (whole : Whole) × (n : ℕ) × Within (map function_tree functions.now) self.old
            (frame ∷ frames_of self.old) (Give self.old.value) whole n }
        ensures { (whole : Whole) (n : ℕ) → Within (map function_tree functions.now) self.old
            (frame.entry ∷ frames_of self.old) (Give self.old.value) whole (n + 1)
            → Goes (map function_tree functions.now) self.new result whole n }
    {
        match frame {
            Frame::Operand(op) => self.apply(op),
            Frame::Left(op, y) => {
                let x = self.value;
                self.begin(Frame::Right(op, x), y)
            }
            Frame::Right(op, x) => self.combine(op, x),
            Frame::LeftOfAnd(y) => either(truth(self.value), Next::Evaluate(y), Next::Give),
            Frame::LeftOfOr(y) => either(truth(self.value), Next::Give, Next::Evaluate(y)),
            Frame::Test(x, y) => either(truth(self.value), Next::Evaluate(x), Next::Evaluate(y)),
            Frame::Bound(y) => self.bind(y),
            Frame::Matched(x, y) => self.split(x, y),
            Frame::Inner(outside) => {
                self.scope.cut(outside);
                Next::Give
            }
            Frame::Item(c, rest, first) => self.go_on(functions, c, rest, first),
            Frame::Body(base, _, _) => {
                self.scope.close(base);
                Next::Give
            }
        }
    }

    // Goes into a part.
    #[inline(always)]
    fn begin(&mut self, frame: Frame<'a>, part: &'a Expr) -> Next<'a>
        ensures { (fs : List FunctionTree) (whole : Whole) (n : ℕ)
            → Within fs self.old (frame.entry ∷ frames_of self.old) (Evaluate part.entry) whole n
            → Goes fs self.new result whole n }
    {
        match self.frames.push(frame) {
            Ok(()) => Next::Evaluate(part),
            Err(_) => Next::NoMemory,
        }
    }

    #[inline(always)]
    fn give(&mut self, word: Word) -> Next<'a>
        ensures { (fs : List FunctionTree) (whole : Whole) (n : ℕ) → LeadsTo fs self.old (Give word) whole n
            → Goes fs self.new result whole n }
    {
        self.value = word;
        Next::Give
    }

    // What an operation of this place came to, with its last operand, and the first of two.
    #[inline(always)]
    fn settle(&mut self, outcome: WordOutcome, at: u32, first: Option<Word>, last: Word) -> Next<'a>
        ensures { (fs : List FunctionTree) (whole : Whole) (n : ℕ)
            → LeadsTo fs self.old (settled outcome at (given_operands first last)) whole n
            → Goes fs self.new result whole n }
    {
        match outcome {
            WordOutcome::Value(word) => self.give(word),
            WordOutcome::Trap(trap) => {
                self.trap = trap;
                self.at = at;
                self.operands = given_operands(first, last);
                Next::Trap
            }
            WordOutcome::Wrong => Next::Wrong,
        }
    }

    #[inline(always)]
    fn variable(&mut self, k: u32) -> Next<'a>
        ensures { (fs : List FunctionTree) (whole : Whole) (n : ℕ) → IsVariable fs self.old k whole n
            → Goes fs self.new result whole n }
    {
        match self.scope.get(k as usize) {
            Some(word) => self.give(word),
            None => Next::Wrong,
        }
    }

    // The operation of one part.
    #[inline(never)]
    fn apply(&mut self, op: Unary) -> Next<'a>
        ensures { (fs : List FunctionTree) (whole : Whole) (n : ℕ)
            → Within fs self.old (Operand op ∷ frames_of self.old) (Give self.old.value) whole (n + 1)
            → Goes fs self.new result whole n }
    {
        let outcome = apply(&self.store, op, self.value);
        self.settle(outcome, unary_place(op), None, self.value)
    }

    // The operation of two parts.
    #[inline(always)]
    fn combine(&mut self, op: Binary, x: Word) -> Next<'a>
        requires { (fs : List FunctionTree) × (whole : Whole) × (n : ℕ)
            × Within fs self.old (Right op x ∷ frames_of self.old) (Give self.old.value) whole n }
        ensures { (fs : List FunctionTree) (whole : Whole) (n : ℕ)
            → Within fs self.old (Right op x ∷ frames_of self.old) (Give self.old.value) whole (n + 1)
            → Goes fs self.new result whole n }
    {
        let y = self.value;
        match operate(&mut self.store, op, x, y) {
            Ok(outcome) => self.settle(outcome, binary_place(op), Some(x), y),
            Err(_) => Next::NoMemory,
        }
    }

    // Goes into the second part of a `let`.
    #[inline(never)]
    fn bind(&mut self, y: &'a Expr) -> Next<'a>
        ensures { (fs : List FunctionTree) (whole : Whole) (n : ℕ)
            → Within fs self.old (Bound y.entry ∷ frames_of self.old) (Give self.old.value) whole (n + 1)
            → Goes fs self.new result whole n }
    {
        let outside = self.scope.len();
        match self.scope.push(self.value) {
            Ok(()) => self.begin_inside(outside, y),
            Err(_) => Next::NoMemory,
        }
    }

    // Goes into a part that has more variables than there are outside of it. A function's body drops its variables when
    // it has its value. So the last part of a body needs no frame of its own.
    #[inline(always)]
    fn begin_inside(&mut self, outside: usize, part: &'a Expr) -> Next<'a>
        ensures { (fs : List FunctionTree) (whole : Whole) (n : ℕ)
            → Within fs self.old (Inner outside ∷ frames_of self.old) (Evaluate part.entry) whole n
            → Goes fs self.new result whole n }
    {
        if self.ends_body() {
            return Next::Evaluate(part);
        }
        self.begin(Frame::Inner(outside), part)
    }

    // Whether the innermost frame is that of a body.
    #[inline(always)]
    fn ends_body(&self) -> bool
        ensures { IsTrue result → (f : Frame) × (rest : List Frame) × (frames_of self.now ≡ f ∷ rest)
            × IsTrue (is_body f) }
    {
        match self.frames.last() {
            Some(frame) => is_body(*frame),
            None => false,
        }
    }

    // Goes into an arm of a `match`.
    #[inline(never)]
    fn split(&mut self, x: &'a Expr, y: &'a Expr) -> Next<'a>
        ensures { (fs : List FunctionTree) (whole : Whole) (n : ℕ)
            → Within fs self.old (Matched x.entry y.entry ∷ frames_of self.old) (Give self.old.value) whole (n + 1)
            → Goes fs self.new result whole n }
    {
        match self.store.split(self.value) {
            None => Next::Wrong,
            Some(ListCase::Empty) => Next::Evaluate(x),
            Some(ListCase::Items(first, others)) => {
                let outside = self.scope.len();
                match self.scope.push_both(first, others) {
                    Ok(()) => self.begin_inside(outside, y),
                    Err(_) => Next::NoMemory,
                }
            }
        }
    }

    // Begins to collect the values of the items.
    #[inline(always)]
    fn begin_items(
        &mut self,
        functions: &'a [Function],
        c: Collection,
        items: &'a [Expr],
    ) -> Next<'a>
        requires { (whole : Whole) × (n : ℕ) × Collects (map function_tree functions.now) self.old c
            (in_order (map expr_tree items.now)) (length self.old.values.items) whole n }
        ensures { (whole : Whole) (n : ℕ) → Collects (map function_tree functions.now) self.old c
            (in_order (map expr_tree items.now)) (length self.old.values.items) whole n
            → Goes (map function_tree functions.now) self.new result whole n }
    {
        let first = self.values.len();
        self.collect(functions, c, items, first)
    }

    // One more of the values is there.
    #[inline(always)]
    fn go_on(
        &mut self,
        functions: &'a [Function],
        c: Collection,
        rest: &'a [Expr],
        first: usize,
    ) -> Next<'a>
        requires { (whole : Whole) × (n : ℕ) × Within (map function_tree functions.now) self.old
            (Item c rest first ∷ frames_of self.old) (Give self.old.value) whole n }
        ensures { (whole : Whole) (n : ℕ) → Within (map function_tree functions.now) self.old
            (Item c rest.entry first ∷ frames_of self.old) (Give self.old.value) whole (n + 1)
            → Goes (map function_tree functions.now) self.new result whole n }
    {
        match self.values.push(self.value) {
            Ok(()) => self.collect(functions, c, rest, first),
            Err(_) => Next::NoMemory,
        }
    }

    // Goes into the next item, or makes what is collected.
    #[inline(always)]
    fn collect(
        &mut self,
        functions: &'a [Function],
        c: Collection,
        rest: &'a [Expr],
        first: usize,
    ) -> Next<'a>
        requires { (whole : Whole) × (n : ℕ) × Collects (map function_tree functions.now) self.old c
            (in_order (map expr_tree rest.now)) first whole n }
        ensures { (whole : Whole) (n : ℕ) → Collects (map function_tree functions.now) self.old c
            (in_order (map expr_tree rest.now)) first whole n
            → Goes (map function_tree functions.now) self.new result whole n }
    {
        match rest.split_first() {
            Some((item, behind)) => self.begin(Frame::Item(c, behind, first), item),
            None => self.make(functions, c, first),
        }
    }

    // Makes what is collected.
    #[inline(never)]
    fn make(&mut self, functions: &'a [Function], c: Collection, first: usize) -> Next<'a>
        requires { (whole : Whole) × (n : ℕ) × IsCollected
            (map function_tree functions.now) self.old c first whole n }
        ensures { (whole : Whole) (n : ℕ) → IsCollected (map function_tree functions.now) self.old c first whole n
            → Goes (map function_tree functions.now) self.new result whole n }
    {
        match c {
            Collection::List => self.make_list(first),
            Collection::Rec(r) => self.make_record(r, first),
            Collection::Call(j, at) => self.enter(functions, j, at, first),
        }
    }

    #[inline(never)]
    fn make_list(&mut self, first: usize) -> Next<'a>
        requires place { first ≤ length self.old.values.items }
        requires all { (fs : List FunctionTree) × (whole : Whole) × (n : ℕ)
            × IsCollected fs self.old collection.List first whole n }
        ensures { (fs : List FunctionTree) (whole : Whole) (n : ℕ)
            → IsCollected fs self.old collection.List first whole n → Goes fs self.new result whole n }
    {
        match self.store.make_list(&self.values[first..]) {
            Ok(word) => {
                self.values.truncate(first);
                self.give(word)
            }
            Err(_) => Next::NoMemory,
        }
    }

    #[inline(never)]
    fn make_record(&mut self, r: u32, first: usize) -> Next<'a>
        requires place { first ≤ length self.old.values.items }
        requires all { (fs : List FunctionTree) × (whole : Whole) × (n : ℕ)
            × IsCollected fs self.old (collection.Rec r) first whole n }
        ensures { (fs : List FunctionTree) (whole : Whole) (n : ℕ)
            → IsCollected fs self.old (collection.Rec r) first whole n → Goes fs self.new result whole n }
    {
        match self.store.make_record(r, &self.values[first..]) {
            Ok(word) => {
                self.values.truncate(first);
                self.give(word)
            }
            Err(_) => Next::NoMemory,
        }
    }

    /// Calls the function of this number on the values from `first` on. The call has this place.
    pub(crate) fn enter(
        &mut self,
        functions: &'a [Function],
        j: u32,
        at: u32,
        first: usize,
    ) -> Next<'a>
        requires { first ≤ length self.old.values.items }
        ensures { (whole : Whole) (n : ℕ) → IsCollected (map function_tree functions.now) self.old
            (collection.Call j at) first whole n → Goes (map function_tree functions.now) self.new result whole n }
    {
        match functions.get(j as usize) {
            Some(function) => self.enter_declared(function, j, at, first),
            None => Next::Wrong,
        }
    }

    // Calls the function, which stands in the program under this number.
    fn enter_declared(&mut self, function: &'a Function, j: u32, at: u32, first: usize) -> Next<'a>
        requires { first ≤ length self.old.values.items }
        ensures { (fs : List FunctionTree) (whole : Whole) (n : ℕ) → slice_get fs j
            ≡ Some (function_tree function.now) → IsCollected fs self.old (collection.Call j at) first whole n
            → Goes fs self.new result whole n }
    {
        let count = self.values.len() - first;
        if count != function.params.items.len() {
            return Next::Wrong;
        }
        if self.budget == 0 {
            self.at = at;
            self.operands = Operands::None;
            return Next::BudgetEnd;
        }
        self.budget -= 1;
        match self.scope.open(&self.values[first..]) {
            Ok(base) => {
                self.values.truncate(first);
                self.begin(Frame::Body(base, j, at), &function.body)
            }
            Err(_) => Next::NoMemory,
        }
    }
}

// The first if the truth value is true, the second if it is false.
#[inline(always)]
fn either<'a>(test: Option<bool>, x: Next<'a>, y: Next<'a>) -> Next<'a>
    ensures { result ≡ either test x.entry y.entry }
{
    match test {
        Some(true) => x,
        Some(false) => y,
        None => Next::Wrong,
    }
}
