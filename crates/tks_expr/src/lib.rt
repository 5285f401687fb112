//! Expressions: their tree, the tree that a text spells, and the operators on texts.
#![tactic(auto)]

mod arithmetic;
mod items;
mod laws;
mod literal;
mod operation;
mod operator;
mod parse;
mod sign;
mod tree;
mod value;

pub use arithmetic::{bits_make_an_integer, operators_on_bits, quotients_round_down};
pub use items::{Item, Items, Leaf, Literal, parse_items};
pub use laws::one_expression;
pub use operation::truth_of;
pub use operator::{Binary, Unary};
pub use parse::parse_expr;
pub use sign::Join;
pub use tree::{Expr, Link, Node};
pub use value::{Operand, Value, apply, apply_unary};
