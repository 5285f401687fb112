//! What expressions are read as.

use crate::text::{push_fault, push_text};
use std::alloc::Global;
use tks_expr::{Binary, Expr, Join, Link, Node, Unary, parse_expr};
use tks_parse::Part;
use tks_text::{Failure, Txt};

fn sign(join: Join) -> &'static str {
    let binary = match join {
        Join::Of(binary) => binary,
        Join::And => return "&&",
        Join::Or => return "||",
    };
    match binary {
        Binary::Multiply => "*",
        Binary::Divide => "/",
        Binary::Remainder => "%",
        Binary::Add => "+",
        Binary::Subtract => "-",
        Binary::ShiftLeft => "<<",
        Binary::ShiftRight => ">>",
        Binary::Less => "<",
        Binary::Greater => ">",
        Binary::AtMost => "<=",
        Binary::AtLeast => ">=",
        Binary::Equal => "==",
        Binary::NotEqual => "!=",
        Binary::SameText => "eq",
        Binary::OtherText => "ne",
        Binary::BitAnd => "&",
        Binary::BitXor => "^",
        Binary::BitOr => "|",
    }
}

fn unary_sign(unary: Unary) -> char {
    match unary {
        Unary::Minus => '-',
        Unary::Plus => '+',
        Unary::Complement => '~',
        Unary::Not => '!',
    }
}

// Adds a part: a variable as `$name`, an element as `$name()`, a script as `[]`.
fn show_part(shown: &mut String, part: &Part) -> Option<()> {
    match part {
        Part::Text(text) => push_text(shown, text),
        Part::Variable(name, index) => {
            shown.push('$').ok()?;
            push_text(shown, name)?;
            shown.push_str(if index.is_some() { "()" } else { "" }).ok()
        }
        Part::Nested(_) => shown.push_str("[]").ok(),
    }
}

// Adds parts in braces.
fn show_parts(shown: &mut String, parts: &[Part]) -> Option<()> {
    shown.push('{').ok()?;
    for part in parts {
        show_part(shown, part)?;
    }
    shown.push('}').ok()
}

// Adds links, each behind what stands before it and with the `)` of both.
#[cycle(show)]
fn show_links(shown: &mut String, links: &[Link], depth: u32) -> Option<()> {
    for link in links {
        shown.push_str(sign(link.join)).ok()?;
        show(shown, &link.right, depth)?;
        shown.push(')').ok()?;
    }
    Some(())
}

// Adds an expression with all its parentheses, down to this depth.
#[cycle(show)]
fn show(shown: &mut String, expr: &Expr, depth: u32) -> Option<()> {
    if depth == 0 {
        return Some(());
    }
    match expr.node() {
        Node::Literal(text) => push_text(shown, text),
        Node::Made(parts) => show_parts(shown, parts.as_slice()),
        Node::Signs(outer, last, operand) => {
            for unary in outer {
                shown.push(unary_sign(*unary)).ok()?;
            }
            shown.push(unary_sign(*last)).ok()?;
            show(shown, operand, depth - 1)
        }
        Node::Chain(first, link, links) => {
            for _ in 0..=links.len() {
                shown.push('(').ok()?;
            }
            show(shown, first, depth - 1)?;
            shown.push_str(sign(link.join)).ok()?;
            show(shown, &link.right, depth - 1)?;
            shown.push(')').ok()?;
            show_links(shown, links.as_slice(), depth - 1)
        }
        Node::Conditional(condition, first, second) => {
            shown.push('(').ok()?;
            show(shown, condition, depth - 1)?;
            shown.push_str("?(").ok()?;
            show(shown, first, depth - 1)?;
            shown.push(':').ok()?;
            show(shown, second, depth - 1)?;
            shown.push_str("))").ok()
        }
    }
}

/// The expression that a row's text spells, with all its parentheses, or its fault's text.
pub fn shown(alloc: Global, row: &str) -> Option<String> {
    let mut shown = String::new(alloc);
    match parse_expr(alloc, &Txt::from_bytes(alloc, row.as_bytes()).ok()?) {
        Ok(expr) => show(&mut shown, &expr, 8)?,
        Err(Failure::Script(fault)) => push_fault(alloc, &mut shown, &fault)?,
        Err(Failure::NoMemory) => return None,
    }
    Some(shown)
}
