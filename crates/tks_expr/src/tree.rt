//! The tree of an expression, flat where operators follow one another.
ghost use Rattle.std.specs.Prelude.{◌≡◌, IfOk};
ghost use Rattle.tks_expr.specs.View.{expr_of};

use crate::operator::Unary;
use crate::sign::Join;
use std::alloc::{AllocError, Global};
use std::marker::Model;
use std::rc::Rc;
use tks_parse::Parts;
use tks_text::Txt;

/// An expression. Contracts see it as a tree of operators and operands, in which operators of two operands group to
/// the left.
///
/// Signs one behind the other, and operators one behind the other, lie in lists. So the boxes in one another are as
/// many as brackets, parentheses and `?:` nest, times the levels of operators, however long the text is: to read, to
/// evaluate and to drop an expression takes a small stack.
#[cycle(tree)]
#[derive(Drop)]
pub struct Expr {
    node: Rc<Node>,
}

/// What stands at the root of an expression, with the operators that lie in a list with it.
#[cycle(tree)]
#[derive(Drop)]
pub enum Node {
    /// An integer as it is spelled, or one of the words `true yes on false no off`.
    Literal(Txt),
    /// A variable, a script in brackets, or a text in quotes or braces.
    Made(Parts),
    /// Signs in the order of the text, the last of them, which is applied first, and their operand.
    Signs(Vec<Unary>, Unary, Expr),
    /// An operand, and the links behind it in the order of the text, the first of them apart.
    Chain(Expr, Link, Vec<Link>),
    /// `?:`, which passes over one of its last two operands.
    Conditional(Expr, Expr, Expr),
}

/// An operator and its right operand. The left one is all that stands before it in its chain.
#[cycle(tree)]
#[derive(Drop)]
pub struct Link {
    pub join: Join,
    pub right: Expr,
}

impl Model for Expr {
    ghost use Rattle.tks_expr.specs.Tree.{Expr, expr_code, expr_size};

    ghost Value = { Expr };

    ghost coded = { expr_code };

    ghost use Rattle.tks_expr.specs.View.{expr_of};

    ghost view = { λ e. expr_of e.node.value };

    ghost size = { expr_size };

    ghost use Rattle.tks_expr.specs.Falls.{node_falls};
    ghost use Rattle.std.proofs.Common.{arith};

    ghost size_decreases = { λ e h. Prim.omega (arith, node_falls e.node.value) };
}

impl Expr {
    /// The expression with this at its root.
    pub fn new(alloc: Global, node: Node) -> Result<Expr, AllocError>
        ensures { IfOk result (λ e. e ≡ expr_of node) }
    {
        match Rc::new(alloc, node) {
            Ok(node) => Ok(Expr { node }),
            Err(_) => Err(AllocError),
        }
    }

    /// The same expression, held once more.
    pub fn share(&self) -> Result<Expr, AllocError>
        ensures { IfOk result (λ e. e ≡ self.now) }
    {
        Ok(Expr {
            node: self.node.clone()?,
        })
    }

    /// What stands at the root.
    pub fn node(&self) -> &Node
        ensures { expr_of result.now ≡ self.now }
    {
        self.node.as_ref()
    }
}
