//! Expressions as items, which are done one after the other with a stack of values.
ghost use Rattle.std.specs.Prelude.{◌≡◌, false, ◌∷◌, [], reverse, IfOk, OnOk, None, option_map, option_copied};
ghost use Rattle.tks_parse.specs.View.{parts_of};
ghost use Rattle.tks_text.specs.Fault.{Gives};
ghost use Rattle.tks_expr.specs.Compiled.{leaf_of, leaf_in, are_leaves, passed, compiled, branches, items_in};
ghost use Rattle.tks_expr.specs.declared.items.Item.TheVariants as item;
ghost use Rattle.tks_expr.specs.declared.items.Leaf.TheVariants.{Scalar};
ghost use Rattle.tks_expr.specs.Sign.{combined};
ghost use Rattle.tks_expr.specs.Tree as tree;
ghost use Rattle.tks_expr.specs.View.{chained, operand_text};

use crate::operator::{Binary, Unary};
use crate::parse::parse_expr;
use crate::sign::Join;
use crate::tree::{Expr, Link, Node};
use crate::value::Operand;
use std::alloc::{AllocError, Global};
use std::marker::Model;
use std::rc::Rc;
use tks_parse::{Part, Parts};
use tks_text::{Failure, Txt, decimal_in};

/// A text that stands for itself, with the integer of which it is the decimal, if it is one. Contracts see the text.
#[derive(Drop)]
pub struct Literal {
    text: Txt,
    integer: Option<i64>,
}

impl Model for Literal {
    ghost use Rattle.std.specs.Prelude.{◌≡◌, List, ℕ, IfSome};
    ghost use Rattle.std.specs.Fmt.{signed_decimal};

    ghost Value = { List ℕ };

    ghost view = { λ l. l.text };

    ghost invariant = { λ l. IfSome l.integer (λ z. l.text ≡ signed_decimal z) };
}

impl Literal {
    // The literal of a text.
    fn of(text: Txt) -> Literal
        ensures { result ≡ text }
    {
        let integer = decimal_in(text.as_bytes());
        Literal { text, integer }
    }

    /// What it comes to.
    pub fn operand(&self) -> Operand<'_>
        ensures { operand_text result ≡ self.now }
    {
        match self.integer {
            Some(integer) => Operand::Integer(integer),
            None => Operand::Text(&self.text),
        }
    }
}

/// An operand that stands already: a literal, or the value of a variable.
#[derive(Drop)]
pub enum Leaf {
    Literal(Literal),
    Scalar(Txt),
}

/// What is done with a stack of values. `&&`, `||` and `?:` pass over items.
#[derive(Drop)]
pub enum Item {
    /// A leaf comes on top.
    Load(Leaf),
    /// So does the text that parts make.
    Make(Parts),
    /// A sign takes the value on top.
    Sign(Unary),
    /// An operator between two leaves.
    Two(Binary, Leaf, Leaf),
    /// An operator between the value on top and a leaf.
    Right(Binary, Leaf),
    /// An operator between the two values on top.
    Operator(Binary),
    /// Where the value on top doesn't hold it becomes 0, and so many items are passed over; else it goes.
    And(usize),
    /// Where it holds it becomes 1, and so many items are passed over; else it goes.
    Or(usize),
    /// It becomes 1 where it holds, else 0.
    Truth,
    /// It goes, and where it doesn't hold so many items are passed over.
    If(usize),
    /// So many items are passed over.
    Skip(usize),
}

// The name of the variable whose value is all that parts make, if they do: beside it there are empty texts alone.
fn scalar_in(parts: &[Part]) -> Option<&Txt>
    ensures { option_map Scalar (option_copied result) ≡ leaf_in (parts_of parts.now) }
{
    let mut scalar = None;
    'part: for part in parts {
        match part {
            Part::Text(text) => {
                if !text.is_empty() {
                    return None;
                }
            }
            Part::Variable(name, None) => {
                if scalar.is_some() {
                    return None;
                }
                scalar = Some(name);
            }
            Part::Variable(_, Some(_)) => return None,
            Part::Nested(_) => return None,
        }
    }
    scalar
}

// The leaf that parts are.
fn leaf_in(parts: &Parts) -> Result<Option<Leaf>, AllocError>
    ensures { IfOk result (λ leaf. leaf ≡ leaf_in parts.now) }
{
    match scalar_in(parts.as_slice()) {
        Some(name) => Ok(Some(Leaf::Scalar(name.try_clone()?))),
        None => Ok(None),
    }
}

// The leaf that an operand is.
#[tactic(auto, using(crate::proofs::Compiled::under_no_leaf, crate::proofs::Compiled::chain_no_leaf))]
fn leaf_of(expr: &Expr) -> Result<Option<Leaf>, AllocError>
    ensures { IfOk result (λ leaf. leaf ≡ leaf_of expr.now) }
{
    match expr.node() {
        Node::Literal(text) => Ok(Some(Leaf::Literal(Literal::of(text.try_clone()?)))),
        Node::Made(parts) => leaf_in(parts),
        Node::Signs(..) => Ok(None),
        Node::Chain(..) => Ok(None),
        Node::Conditional(..) => Ok(None),
    }
}

// Puts the item of parts before others. They stand in reverse here, as everywhere below.
fn put_made(items: &mut Vec<Item>, parts: &Parts) -> Result<(), AllocError>
    ensures { OnOk result (reverse items.new.items ≡ compiled (tree.Made parts.now) (reverse items.old.items)) }
{
    match leaf_in(parts)? {
        Some(leaf) => items.push(Item::Load(leaf))?,
        None => items.push(Item::Make(parts.share()?))?,
    }
    Ok(())
}

// Puts the items of an expression before others.
#[cycle(items)]
#[tactic(auto, using(crate::proofs::Compiled::under_size, crate::proofs::Compiled::chain_size))]
fn put(items: &mut Vec<Item>, expr: &Expr) -> Result<(), AllocError>
    ensures { OnOk result (reverse items.new.items ≡ compiled expr.now (reverse items.old.items)) }
{
    match expr.node() {
        Node::Literal(text) => {
            items.push(Item::Load(Leaf::Literal(Literal::of(text.try_clone()?))))?;
            Ok(())
        }
        Node::Made(parts) => put_made(items, parts),
        Node::Signs(outer, sign, operand) => {
            for sign in outer {
                items.push(Item::Sign(*sign))?;
            }
            items.push(Item::Sign(*sign))?;
            put(items, operand)
        }
        Node::Chain(first, link, links) => {
            put_links(items, links.as_slice())?;
            put_front(items, first, link)
        }
        Node::Conditional(condition, if_true, if_false) => {
            put_branches(items, if_true, if_false)?;
            put(items, condition)
        }
    }
}

// Puts the items of the links of a chain before others, but not those of its front.
#[cycle(items)]
#[tactic(auto, using(crate::proofs::Compiled::last_size, crate::proofs::Compiled::chained_last, crate::proofs::Compiled::chained_no_leaf, crate::proofs::Compiled::no_leaves))]
fn put_links(items: &mut Vec<Item>, links: &[Link]) -> Result<(), AllocError>
    ensures { OnOk result ((front : tree.Expr) → leaf_of front ≡ None → compiled front (reverse items.new.items) ≡ compiled (chained front links.now) (reverse items.old.items)) }
{
    let mut rest = links;
    'link: while let Some((link, front)) = rest.split_last() {
        put_link(items, link)?;
        rest = front;
    }
    Ok(())
}

// Puts the items of a chain's front and its first link before others.
#[cycle(items)]
#[tactic(auto, using(crate::proofs::Compiled::no_leaves, crate::proofs::Compiled::two_leaves))]
fn put_front(items: &mut Vec<Item>, first: &Expr, link: &Link) -> Result<(), AllocError>
    ensures { OnOk result (reverse items.new.items ≡ compiled (combined link.now.join first.now link.now.right) (reverse items.old.items)) }
{
    if let Join::Of(operator) = link.join {
        if let Some(left) = leaf_of(first)? {
            if let Some(right) = leaf_of(&link.right)? {
                items.push(Item::Two(operator, left, right))?;
                return Ok(());
            }
        }
    }
    put_link(items, link)?;
    put(items, first)
}

// Puts the items of a link before others, but not those of its left operand.
#[cycle(items)]
fn put_link(items: &mut Vec<Item>, link: &Link) -> Result<(), AllocError>
    ensures { OnOk result ((left : tree.Expr) → are_leaves link.now.join left link.now.right ≡ false → compiled left (reverse items.new.items) ≡ compiled (combined link.now.join left link.now.right) (reverse items.old.items)) }
{
    match link.join {
        Join::Of(operator) => match leaf_of(&link.right)? {
            Some(leaf) => items.push(Item::Right(operator, leaf))?,
            None => {
                items.push(Item::Operator(operator))?;
                put(items, &link.right)?;
            }
        },
        Join::And => {
            let count = put_truth(items, &link.right)?;
            items.push(Item::And(count))?;
        }
        Join::Or => {
            let count = put_truth(items, &link.right)?;
            items.push(Item::Or(count))?;
        }
    }
    Ok(())
}

// Puts the items of the right operand of `&&` or `||` before others, and tells how many they are.
#[cycle(items)]
fn put_truth(items: &mut Vec<Item>, right: &Expr) -> Result<usize, AllocError>
    ensures items { OnOk result (reverse items.new.items ≡ compiled right.now (item.Truth ∷ reverse items.old.items)) }
    ensures count { IfOk result (λ n. n ≡ passed right.now 1) }
{
    let before = items.len();
    items.push(Item::Truth)?;
    put(items, right)?;
    Ok(items.len() - before)
}

// Puts the items of the last two operands of `?:` before others.
#[cycle(items)]
fn put_branches(items: &mut Vec<Item>, if_true: &Expr, if_false: &Expr) -> Result<(), AllocError>
    ensures { OnOk result (reverse items.new.items ≡ branches if_true.now if_false.now (reverse items.old.items)) }
{
    let before = items.len();
    put(items, if_false)?;
    let between = items.len();
    items.push(Item::Skip(between - before))?;
    put(items, if_true)?;
    items.push(Item::If(items.len() - between))?;
    Ok(())
}

/// The items of an expression, which others may hold too.
#[derive(Drop)]
pub struct Items {
    list: Rc<Vec<Item>>,
}

impl Model for Items {
    ghost use Rattle.std.specs.Prelude.{List};
    ghost use Rattle.tks_expr.specs.declared.items.Item.{Item};

    ghost Value = { List Item };

    ghost use Rattle.std.specs.Coded.{codes};
    ghost use Rattle.tks_expr.specs.contracts.items.Item as contract;

    ghost coded = { Prim.hlevel (codes, contract.the_row.coded) };

    ghost view = { λ i. i.list.value.items };
}

impl Items {
    /// The items of an expression.
    pub fn of(alloc: Global, expr: &Expr) -> Result<Items, AllocError>
        ensures { IfOk result (λ items. items ≡ compiled expr.now []) }
    {
        let mut list = Vec::new(alloc);
        put(&mut list, expr)?;
        list.reverse();
        match Rc::new(alloc, list) {
            Ok(list) => Ok(Items { list }),
            Err(_) => Err(AllocError),
        }
    }

    /// The same items, held once more.
    pub fn share(&self) -> Result<Items, AllocError>
        ensures { IfOk result (λ items. items ≡ self.now) }
    {
        Ok(Items {
            list: self.list.clone()?,
        })
    }

    /// The items, in order.
    pub fn as_slice(&self) -> &[Item]
        ensures { result.now ≡ self.now }
    {
        self.list.as_ref().as_slice()
    }
}

/// The items of the expression that a text spells. The errors are those of [`parse_expr`].
pub fn parse_items(alloc: Global, text: &Txt) -> Result<Items, Failure>
    ensures { Gives (λ items. items) result (items_in text.now) }
{
    let expr = parse_expr(alloc, text)?;
    Ok(Items::of(alloc, &expr)?)
}
