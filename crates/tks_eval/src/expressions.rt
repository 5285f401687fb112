//! Expressions: their items are done one after the other with a stack of values.
ghost use Rattle.std.specs.Prelude.{true, ◌≡◌, ◌≤◌, ◌-◌, ◌*◌, ◌+◌, [], ◌∷◌, length, drop, reverse, if◌then◌else◌, codes, IfOk, IfSome, OnOk, MatchOption};
ghost use Rattle.tks_expr.specs.View.{operand_text};
ghost use Rattle.tks_expr.specs.declared.items.Item.TheVariants.{Two};
ghost use Rattle.tks_eval.specs.Evaluation.{expr_does, expression_does, result_told, with_value};
ghost use Rattle.tks_eval.specs.Counting.{on_top, leaf_value, two_leaves, put_two, item_done, done_on_top, items_go};
ghost use Rattle.tks_tcl.specs.Meets.{GivesSo};
ghost use Rattle.tks_eval.specs.Machine.{after_frame, ended, level_of, done_by, items_weight, frame_weight, told_by, ComesSo, DoesSo, ValuedSo, FallsTo, ValueFallsTo, FallsBelow};
ghost use Rattle.tks_eval.specs.declared.frame.Frame.TheVariants as frame;

use crate::frame::{Came, Ending, Frame, Waiting};
use crate::halt::{Halt, error_about};
use crate::host::Host;
use crate::machine::{Machine, NEAR, before};
use std::alloc::{AllocError, Global};
use std::marker::Model;
use tks_expr::{Binary, Item, Items, Leaf, Operand, Value, apply, apply_unary};
use tks_tcl::{Interrupt, joined_within};
use tks_text::{ErrorNumber, Limits, Txt, fits};
use tks_vars::Vars;

/// The value of a variable that alone is a text.
#[inline(always)]
pub fn scalar<'a>(name: &Txt, variables: &'a Vars, limits: &Limits) -> Result<&'a Txt, Interrupt>
    ensures { GivesSo (λ t. t.now) result (with_value limits.now variables.now name.now []) }
{
    let value = variables.get(name)?;
    if value.len() > limits.text as usize {
        return Err(Interrupt::TooLarge);
    }
    Ok(value)
}

// What a leaf comes to.
#[inline(always)]
fn leaf_operand<'a>(
    leaf: &'a Leaf,
    variables: &'a Vars,
    limits: &Limits,
) -> Result<Operand<'a>, Interrupt>
    ensures { GivesSo operand_text result (leaf_value limits.now variables.now leaf.now) }
{
    match leaf {
        Leaf::Literal(literal) => Ok(literal.operand()),
        Leaf::Scalar(name) => {
            let value = scalar(name, variables, limits)?;
            Ok(Operand::of(value))
        }
    }
}

// What an operator between two leaves gives.
#[inline(always)]
fn two_leaves(
    alloc: Global,
    operator: Binary,
    left: &Leaf,
    right: &Leaf,
    variables: &Vars,
    limits: &Limits,
) -> Result<Value, Interrupt>
    ensures { GivesSo (λ v. v) result (two_leaves limits.now variables.now operator left.now right.now) }
{
    let left = leaf_operand(left, variables, limits)?;
    let right = leaf_operand(right, variables, limits)?;
    Ok(Value::integer(apply(alloc, operator, left, right)?))
}

/// The values of an expression under way. That on top stands apart, and so may the one below it, so that most expressions take
/// no memory for them. Contracts see their texts, that on top first.
#[derive(Drop)]
pub struct Values {
    top: Option<Value>,
    second: Option<Value>,
    below: Vec<Value>,
}

impl Model for Values {
    ghost use Rattle.std.specs.Prelude.{List, ℕ, reverse};
    ghost use Rattle.tks_eval.specs.Counting.{stack_of};

    ghost Value = { List (List ℕ) };

    ghost view = { λ v. stack_of v.top (stack_of v.second (reverse v.below.items)) };
}

impl Values {
    // None.
    fn new(alloc: Global) -> Values
        ensures { result ≡ [] }
    {
        Values {
            top: None,
            second: None,
            below: Vec::new(alloc),
        }
    }

    // This one on top of those, of which that on top is the last.
    fn above(top: Value, below: Vec<Value>) -> Values
        ensures { result ≡ top ∷ reverse below.items }
    {
        Values {
            top: Some(top),
            second: None,
            below,
        }
    }

    // All of them, that on top last.
    fn into_below(self) -> Result<Vec<Value>, AllocError>
        ensures { IfOk result (λ below. reverse below.items ≡ self) }
    {
        let Values { top, second, below } = self;
        let mut below = below;
        if let Some(second) = second {
            below.push(second)?;
        }
        if let Some(top) = top {
            below.push(top)?;
        }
        Ok(below)
    }

    // Puts a value on top.
    #[inline(always)]
    fn push(&mut self, value: Value) -> Result<(), AllocError>
        ensures { OnOk result (self.new ≡ value ∷ self.old) }
    {
        if let Some(top) = self.top.take() {
            if let Some(second) = self.second.take() {
                self.below.push(second)?;
            }
            self.second = Some(top);
        }
        self.top = Some(value);
        Ok(())
    }

    // Takes the value on top.
    fn pop(&mut self) -> Option<Value>
        ensures { MatchOption result ((self.old ≡ []) × (self.new ≡ [])) (λ v. self.old ≡ v ∷ self.new) }
    {
        if let Some(top) = self.top.take() {
            return Some(top);
        }
        match self.second.take() {
            Some(second) => Some(second),
            None => self.below.pop(),
        }
    }

    // Puts the integer on top that an operator gives for two operands. It passes over no item.
    fn operate(
        &mut self,
        alloc: Global,
        operator: Binary,
        left: Operand<'_>,
        right: Operand<'_>,
    ) -> Result<usize, Interrupt>
        ensures { GivesSo (λ n. (n, self.new)) result (put_two operator self.old (operand_text left.entry) (operand_text right.entry)) }
    {
        let integer = apply(alloc, operator, left, right)?;
        self.push(Value::integer(integer))?;
        Ok(0)
    }

    // Puts 1 on top where something holds, else 0.
    fn push_truth(&mut self, holds: bool) -> Result<(), AllocError>
        ensures { OnOk result (self.new ≡ (if holds then codes "1" else codes "0") ∷ self.old) }
    {
        if holds {
            self.push(Value::integer(1))
        } else {
            self.push(Value::integer(0))
        }
    }

    // Does an item that makes no text, and tells how many items it passes over.
    fn do_item(
        &mut self,
        alloc: Global,
        item: &Item,
        variables: &Vars,
        limits: &Limits,
    ) -> Result<usize, Interrupt>
        ensures { GivesSo (λ n. (n, self.new)) result (item_done limits.now variables.now item.now self.old) }
    {
        match item {
            Item::Load(leaf) => {
                let value = leaf_operand(leaf, variables, limits)?.value()?;
                self.push(value)?;
                Ok(0)
            }
            Item::Two(operator, left, right) => {
                let value = two_leaves(alloc, *operator, left, right, variables, limits)?;
                self.push(value)?;
                Ok(0)
            }
            Item::Skip(count) => Ok(*count),
            Item::Make(_) => Ok(0),
            item => match self.pop() {
                Some(top) => self.do_on_top(alloc, item, top, variables, limits),
                None => Ok(0),
            },
        }
    }

    // Does an item with the value that was on top.
    fn do_on_top(
        &mut self,
        alloc: Global,
        item: &Item,
        top: Value,
        variables: &Vars,
        limits: &Limits,
    ) -> Result<usize, Interrupt>
        ensures { GivesSo (λ n. (n, self.new)) result (done_on_top limits.now variables.now item.now top self.old) }
    {
        match item {
            Item::Right(operator, right) => {
                let right = leaf_operand(right, variables, limits)?;
                self.operate(alloc, *operator, top.operand(), right)
            }
            Item::Operator(operator) => match self.pop() {
                Some(left) => self.operate(alloc, *operator, left.operand(), top.operand()),
                None => Ok(0),
            },
            Item::Sign(sign) => {
                let integer = apply_unary(*sign, top.operand())?;
                self.push(Value::integer(integer))?;
                Ok(0)
            }
            Item::And(count) => {
                if top.holds()? {
                    return Ok(0);
                }
                self.push_truth(false)?;
                Ok(*count)
            }
            Item::Or(count) => {
                if !top.holds()? {
                    return Ok(0);
                }
                self.push_truth(true)?;
                Ok(*count)
            }
            Item::Truth => {
                let holds = top.holds()?;
                self.push_truth(holds)?;
                Ok(0)
            }
            Item::If(count) => { if top.holds()? { Ok(0) } else { Ok(*count) } }
            _ => Ok(0),
        }
    }

    // The value on top. Without one it is empty.
    fn into_top(self, alloc: Global) -> Value
        ensures { result ≡ on_top self }
    {
        let mut values = self;
        match values.pop() {
            Some(value) => value,
            None => Value::text(Txt::new(alloc)),
        }
    }
}

/// An expression under way, at a text that is made for it: the items behind that, and the values before it, that on top last.
/// Contracts see these items and the values' texts.
#[derive(Drop)]
pub struct Counting {
    items: Items,
    left: usize,
    values: Vec<Value>,
}

impl Model for Counting {
    ghost use Rattle.std.specs.Prelude.{List, ℕ, ◌-◌, length, drop, reverse};
    ghost use Rattle.std.specs.Coded.{coded×, coded_list, coded_ℕ};
    ghost use Rattle.tks_expr.specs.declared.items.Item.{Item};
    ghost use Rattle.tks_expr.specs.contracts.items.Item as contract;

    ghost Value = { List Item × List (List ℕ) };

    ghost coded = { coded× (coded_list contract.the_row.coded) (coded_list (coded_list coded_ℕ)) };

    ghost view = { λ c. (drop (length c.items - c.left) c.items, reverse c.values.items) };
}

/// How far an expression came.
#[derive(Drop)]
pub enum Valued {
    /// To its value.
    Value(Value),
    /// To the end of a script in it, by another code than 0.
    Ended(Ending),
    /// To what has to be opened.
    Waits(Box<Waiting>),
}

// What is left behind so many items.
#[tactic(auto, using(crate::proofs::Counting::drop_most))]
fn behind(items: &[Item], count: usize) -> &[Item]
    ensures { result.now ≡ drop count items.now }
{
    items.split_at(count.min(items.len())).1
}

// The operator and the leaves where that is all of an expression.
#[inline(always)]
fn lone_pair(items: &[Item]) -> Option<(Binary, &Leaf, &Leaf)>
    ensures { IfSome result (λ x. items.now ≡ Two x.0 x.1.now x.2.now ∷ []) }
{
    match items {
        [Item::Two(operator, left, right)] => Some((*operator, left, right)),
        _ => None,
    }
}

impl Machine {
    /// Evaluates an expression. An operator between two leaves, as most conditions are, needs no stack.
    #[cycle(run)]
    #[inline(always)]
    pub fn value<H: Host>(
        &mut self,
        alloc: Global,
        host: &mut H,
        items: &Items,
        near: u32,
    ) -> Result<Valued, Halt>
        ensures same_place { H.place host.new ≡ H.place host.old }
        ensures same_limits { self.new.limits ≡ self.old.limits }
        ensures spends { self.new.fuel ≤ self.old.fuel }
        ensures comes { ValuedSo H.meaning self.old.left (done_by (items_go self.old.limits (level_of H.meaning self.old) items.now []) (H.state host.old) self.old) result self.new (H.state host.new) }
    {
        let all = items.as_slice();
        if let Some((operator, left, right)) = lone_pair(all) {
            let variables = &self.variables;
            let value = two_leaves(alloc, operator, left, right, variables, &self.limits)?;
            return Ok(Valued::Value(value));
        }
        self.count(alloc, host, items, all.len(), Values::new(alloc), near)
    }

    // Does the items that are left of an expression, with these values.
    #[cycle(run)]
    fn count<H: Host>(
        &mut self,
        alloc: Global,
        host: &mut H,
        items: &Items,
        left: usize,
        values: Values,
        near: u32,
    ) -> Result<Valued, Halt>
        ensures same_place { H.place host.new ≡ H.place host.old }
        ensures same_limits { self.new.limits ≡ self.old.limits }
        ensures falls { ValueFallsTo result (items_weight (drop (length items.now - left) items.now)) self.old.fuel self.new.fuel }
        ensures comes { ValuedSo H.meaning self.old.left (done_by (items_go self.old.limits (level_of H.meaning self.old) (drop (length items.now - left) items.now) values) (H.state host.old) self.old) result self.new (H.state host.new) }
    {
        let all = items.as_slice();
        let mut rest = behind(all, all.len().saturating_sub(left));
        let mut values = values;
        'item: while let Some((item, more)) = rest.split_first() {
            let Item::Make(parts) = item else {
                let count = values.do_item(alloc, item, &self.variables, &self.limits)?;
                rest = behind(more, count);
                continue 'item;
            };
            rest = more;
            match self.make_parts(alloc, host, parts, near)? {
                Came::Ended(end) => {
                    if end.code != 0 {
                        return Ok(Valued::Ended(end));
                    }
                    values.push(Value::of(end.text))?;
                }
                Came::Waits(waiting) => {
                    let counting = Counting {
                        items: items.share()?,
                        left: rest.len(),
                        values: values.into_below()?,
                    };
                    return Ok(Valued::Waits(before(waiting, Frame::Value(counting))?));
                }
            }
        }
        Ok(Valued::Value(values.into_top(alloc)))
    }

    // expr word ..
    #[cycle(run)]
    pub fn run_expr<H: Host>(
        &mut self,
        alloc: Global,
        host: &mut H,
        command: &Txt,
        words: &[Txt],
        near: u32,
    ) -> Result<Came, Halt>
        ensures same_place { H.place host.new ≡ H.place host.old }
        ensures same_limits { self.new.limits ≡ self.old.limits }
        ensures spends { self.new.fuel ≤ self.old.fuel }
        ensures comes { DoesSo H.meaning true (expr_does self.old.limits (level_of H.meaning self.old) command.now words.now) (H.state host.old) self.old result (H.state host.new) self.new }
    {
        match words {
            [] => Err(error_about(ErrorNumber::WrongWords, command)),
            [word] if fits(word, &self.limits) => self.run_expression(alloc, host, word, near),
            _ => {
                let space = Txt::from_text(alloc, b" ")?;
                let text = joined_within(alloc, words, &space, &self.limits)?;
                self.run_expression(alloc, host, &text, near)
            }
        }
    }

    // Evaluates the expression that a text spells, and tells its result.
    #[cycle(run)]
    #[inline(always)]
    fn run_expression<H: Host>(
        &mut self,
        alloc: Global,
        host: &mut H,
        text: &Txt,
        near: u32,
    ) -> Result<Came, Halt>
        ensures same_place { H.place host.new ≡ H.place host.old }
        ensures same_limits { self.new.limits ≡ self.old.limits }
        ensures spends { self.new.fuel ≤ self.old.fuel }
        ensures comes { DoesSo H.meaning true (told_by self.old.limits (expression_does self.old.limits (level_of H.meaning self.old) text.now)) (H.state host.old) self.old result (H.state host.new) self.new }
    {
        let items = self.table.parsed().expr(alloc, text)?;
        match self.value(alloc, host, &items, near)? {
            Valued::Value(value) => Ok(Came::Ended(Ending::with(value.into_result(alloc)?))),
            Valued::Ended(end) => Ok(Came::Ended(end)),
            Valued::Waits(waiting) => Ok(Came::Waits(before(waiting, Frame::Whole)?)),
        }
    }

    /// Goes on with an expression behind a text that it waited for.
    pub fn after_value<H: Host>(
        &mut self,
        alloc: Global,
        host: &mut H,
        counting: Counting,
        end: Ending,
    ) -> Result<Came, Halt>
        ensures same_place { H.place host.new ≡ H.place host.old }
        ensures same_limits { self.new.limits ≡ self.old.limits }
        ensures falls { FallsBelow result (frame_weight (frame.Value counting)) self.old.fuel self.new.fuel }
        ensures comes { ComesSo H.meaning true self.old.left (after_frame H.meaning self.old.limits self.old.left (frame.Value counting) (done_by (ended end) (H.state host.old) self.old)) result self.new (H.state host.new) }
    {
        if end.code != 0 {
            return Ok(Came::Ended(end));
        }
        let Counting {
            items,
            left,
            values,
        } = counting;
        let values = Values::above(Value::of(end.text), values);
        match self.count(alloc, host, &items, left, values, NEAR)? {
            Valued::Value(value) => Ok(Came::Ended(Ending::with(value.into_text(alloc)?))),
            Valued::Ended(end) => Ok(Came::Ended(end)),
            Valued::Waits(waiting) => Ok(Came::Waits(waiting)),
        }
    }

    /// Goes on with an `expr` behind its value.
    pub fn after_whole<H: Host>(
        &mut self,
        alloc: Global,
        host: &H,
        end: Ending,
    ) -> Result<Came, Halt>
        ensures same_limits { self.new.limits ≡ self.old.limits }
        ensures falls { FallsBelow result 1 self.old.fuel self.new.fuel }
        ensures comes { ComesSo H.meaning true self.old.left (after_frame H.meaning self.old.limits self.old.left frame.Whole (done_by (ended end) (H.state host.now) self.old)) result self.new (H.state host.now) }
    {
        if end.code != 0 {
            return Ok(Came::Ended(end));
        }
        let text = Value::text(end.text).into_result(alloc)?;
        Ok(Came::Ended(Ending::with(text)))
    }
}
