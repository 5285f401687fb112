//! Reads expressions by precedence climbing. Each function goes from the rest of the text to what stands at its
//! front and the text behind it; `depth` says how many brackets, parentheses and `?:` may still be opened.
ghost use Rattle.std.specs.Prelude.{◌≡◌, ◌≤◌, ◌<◌, length, IfOk, IfSome};
ghost use Rattle.tks_text.specs.Fault.{Gives};
ghost use Rattle.tks_text.specs.Text.{IsText};
ghost use Rattle.tks_text.specs.declared.fault.Failure.TheVariants as failure;
ghost use Rattle.tks_parse.specs.Fault.{expression_syntax};
ghost use Rattle.tks_parse.specs.Gives.{IsTextPiece};
ghost use Rattle.tks_expr.specs.Reading.{then_read, begins_name, begins_line, begins_space, trim, made, literal, close, operand_at, signs, under, signed, when, within_level, level_at, question, colon, conditional_at, inner, expr_of};
ghost use Rattle.tks_expr.specs.Seen.{step_of};
ghost use Rattle.tks_expr.specs.Sign.{join_at};
ghost use Rattle.tks_expr.specs.View.{expr_of as node_expr, chained};

use crate::literal::literal_len;
use crate::operator::Unary;
use crate::sign::{Join, join_at, unary_of};
use crate::tree::{Expr, Link, Node};
use std::alloc::{AllocError, Global};
use tks_parse::{
    MAX_DEPTH, Piece, Syntax, is_name_char, read_braced, read_nested, read_quoted, read_variable,
};
use tks_text::{ErrorNumber, Failure, Txt, is_space};

// The loosest level of binary operators.
const LOOSEST: u32 = 11;

// The fault of a text that is no expression.
fn bad_syntax() -> Failure
    ensures { result ≡ failure.Script expression_syntax }
{
    Syntax::Expressions.fault(ErrorNumber::ExpressionSyntax)
}

// Whether a newline stands at the front.
fn begins_line(text: &[u8]) -> bool
    ensures { result ≡ begins_line text.now }
{
    match text {
        [] => false,
        [c, ..] => *c == b'\n',
    }
}

// Whether white space stands at the front: a blank, a tab, a newline, or a backslash before a newline.
fn begins_space(text: &[u8]) -> bool
    ensures { result ≡ begins_space text.now }
{
    match text {
        [] => false,
        [c, rest @ ..] => is_space(*c) || (*c == b'\\' && begins_line(rest)),
    }
}

// A text behind its white space.
#[tactic(auto, unfolding(crate::specs::Reading::trim))]
fn trim(text: &[u8]) -> &[u8]
    requires { IsText text.now }
    ensures value { result.now ≡ trim text.now }
    ensures bound { length result.now ≤ length text.now }
    ensures text { IsText result.now }
{
    let mut rest = text;
    'spaces: while let Some((_, behind)) = rest.split_first() {
        if !begins_space(rest) {
            return rest;
        }
        rest = behind;
    }
    rest
}

// Whether a variable's name, or one in braces, stands at the front.
fn begins_name(text: &[u8]) -> bool
    ensures { result ≡ begins_name text.now }
{
    match text {
        [] => false,
        [c, ..] => is_name_char(*c) || *c == b'{',
    }
}

// An operand, and the text behind it and behind the white space there.
fn leaf(alloc: Global, node: Node, behind: &[u8]) -> Result<(Expr, &[u8]), AllocError>
    requires { IsText behind.now }
    ensures expr { IfOk result (λ x. x.0 ≡ node_expr node) }
    ensures rest { IfOk result (λ x. x.1.now ≡ trim behind.now) }
    ensures bound { IfOk result (λ x. length x.1.now ≤ length behind.now) }
    ensures text { IfOk result (λ x. IsText x.1.now) }
{
    Ok((Expr::new(alloc, node)?, trim(behind)))
}

// A variable or a script in brackets, behind the character that opens it.
fn read_made(
    alloc: Global,
    found: Option<(Piece, usize)>,
    text: &[u8],
) -> Result<(Expr, &[u8]), Failure>
    requires is_text { IsText text.now }
    requires piece { IfSome found (λ x. IsTextPiece x.0) }
    requires within { IfSome found (λ x. x.1 ≤ length text.now) }
    ensures gives { Gives (λ x. (x.0, x.1.now)) result (made text.now (step_of found)) }
    ensures bound { IfOk result (λ x. length x.1.now ≤ length text.now) }
    ensures text { IfOk result (λ x. IsText x.1.now) }
{
    match found {
        Some((piece, taken)) => {
            let parts = piece.into_parts(alloc)?;
            let read = leaf(alloc, Node::Made(parts), text.split_at(taken).1)?;
            Ok(read)
        }
        None => Err(bad_syntax()),
    }
}

// An integer or a truth word.
#[tactic(auto, unfolding(crate::specs::Reading::literal))]
fn read_literal(alloc: Global, text: &[u8]) -> Result<(Expr, &[u8]), Failure>
    requires { IsText text.now }
    ensures gives { Gives (λ x. (x.0, x.1.now)) result (literal text.now) }
    ensures bound { IfOk result (λ x. length x.1.now ≤ length text.now) }
    ensures text { IfOk result (λ x. IsText x.1.now) }
{
    let len = literal_len(text);
    if len == 0 {
        return Err(bad_syntax());
    }
    let (literal, behind) = text.split_at(len);
    let literal = Txt::from_text(alloc, literal)?;
    let read = leaf(alloc, Node::Literal(literal), behind)?;
    Ok(read)
}

// The expression behind a `(`, and its `)`.
#[cycle(parse)]
fn read_parenthesis(alloc: Global, text: &[u8], depth: u32) -> Result<(Expr, &[u8]), Failure>
    requires { IsText text.now }
    ensures gives { Gives (λ x. (x.0, x.1.now)) result (then_read (inner depth text.now) close) }
    ensures bound { IfOk result (λ x. length x.1.now ≤ length text.now) }
    ensures text { IfOk result (λ x. IsText x.1.now) }
{
    let (inner, rest) = read_inner(alloc, text, depth)?;
    match rest {
        [b')', behind @ ..] => Ok((inner, trim(behind))),
        _ => Err(bad_syntax()),
    }
}

// An operand.
#[cycle(parse)]
#[tactic(auto, unfolding(crate::specs::Reading::operand))]
fn read_operand(alloc: Global, text: &[u8], depth: u32) -> Result<(Expr, &[u8]), Failure>
    requires { IsText text.now }
    ensures gives { Gives (λ x. (x.0, x.1.now)) result (operand_at depth text.now) }
    ensures bound { IfOk result (λ x. length x.1.now ≤ length text.now) }
    ensures text { IfOk result (λ x. IsText x.1.now) }
{
    match text {
        [b'(', rest @ ..] => read_parenthesis(alloc, rest, depth),
        [b'[', rest @ ..] => {
            let found = read_nested(alloc, rest, depth)?;
            read_made(alloc, found, rest)
        }
        [b'$', rest @ ..] if begins_name(rest) => {
            let found = read_variable(alloc, rest, Syntax::Expressions, depth)?;
            read_made(alloc, found, rest)
        }
        [b'"', rest @ ..] => {
            let (parts, taken) = read_quoted(alloc, rest, Syntax::Expressions, depth)?;
            let read = leaf(alloc, Node::Made(parts), rest.split_at(taken).1)?;
            Ok(read)
        }
        [b'{', rest @ ..] => {
            let (parts, taken) = read_braced(alloc, rest, Syntax::Expressions)?;
            let read = leaf(alloc, Node::Made(parts), rest.split_at(taken).1)?;
            Ok(read)
        }
        _ => read_literal(alloc, text),
    }
}

// The signs before an operand, and the text behind them and the white space there.
fn read_signs(alloc: Global, text: &[u8]) -> Result<(Vec<Unary>, &[u8]), AllocError>
    requires { IsText text.now }
    ensures gives { IfOk result (λ x. (x.0.items, x.1.now) ≡ signs text.now) }
    ensures bound { IfOk result (λ x. length x.1.now ≤ length text.now) }
    ensures text { IfOk result (λ x. IsText x.1.now) }
{
    let mut signs = Vec::new(alloc);
    let mut rest = text;
    'signs: while let Some((first, behind)) = rest.split_first() {
        if !begins_space(rest) {
            match unary_of(*first) {
                Some(sign) => signs.push(sign)?,
                None => return Ok((signs, rest)),
            }
        }
        rest = behind;
    }
    Ok((signs, rest))
}

// The operand behind its signs.
#[tactic(auto, using(crate::proofs::Operands::under_push))]
fn with_signs(alloc: Global, mut signs: Vec<Unary>, operand: Expr) -> Result<Expr, AllocError>
    ensures { IfOk result (λ e. e ≡ under signs.items operand) }
{
    match signs.pop() {
        Some(sign) => {
            let signed = Expr::new(alloc, Node::Signs(signs, sign, operand))?;
            Ok(signed)
        }
        None => Ok(operand),
    }
}

// An operand and its signs.
#[cycle(parse)]
fn read_signed(alloc: Global, text: &[u8], depth: u32) -> Result<(Expr, &[u8]), Failure>
    requires { IsText text.now }
    ensures gives { Gives (λ x. (x.0, x.1.now)) result (signed (operand_at depth) text.now) }
    ensures bound { IfOk result (λ x. length x.1.now ≤ length text.now) }
    ensures text { IfOk result (λ x. IsText x.1.now) }
{
    let (signs, rest) = read_signs(alloc, text)?;
    let (operand, rest) = read_operand(alloc, rest, depth)?;
    let signed = with_signs(alloc, signs, operand)?;
    Ok((signed, rest))
}

// The operator at the front, where it is of this level or a tighter one, and how many bytes it takes behind its
// first.
fn join_within(text: &[u8], level: u32) -> Option<(Join, usize)>
    ensures value { result ≡ when (within_level level) (join_at text.now) }
    ensures bound { IfSome result (λ x. x.1 < length text.now) }
{
    let (join, more) = join_at(text)?;
    if join.level() <= level {
        Some((join, more))
    } else {
        None
    }
}

// An operand and the links behind it.
fn with_links(alloc: Global, first: Expr, mut links: Vec<Link>) -> Result<Expr, AllocError>
    ensures { IfOk result (λ e. e ≡ chained first links.items) }
{
    if links.is_empty() {
        return Ok(first);
    }
    let link = links.remove(0);
    let chain = Expr::new(alloc, Node::Chain(first, link, links))?;
    Ok(chain)
}

// An expression whose binary operators are of this level or tighter ones.
#[cycle(parse)]
fn read_level(alloc: Global, text: &[u8], level: u32, depth: u32) -> Result<(Expr, &[u8]), Failure>
    requires { IsText text.now }
    ensures gives { Gives (λ x. (x.0, x.1.now)) result (level_at depth level text.now) }
    ensures bound { IfOk result (λ x. length x.1.now ≤ length text.now) }
    ensures text { IfOk result (λ x. IsText x.1.now) }
{
    let (first, mut rest) = read_signed(alloc, text, depth)?;
    let mut links = Vec::new(alloc);
    'joins: while let Some((join, more)) = join_within(rest, level) {
        let behind = rest.split_at(1 + more).1;
        let (right, behind) = read_level(alloc, behind, join.level() - 1, depth)?;
        links.push(Link { join, right })?;
        rest = behind;
    }
    let expr = with_links(alloc, first, links)?;
    Ok((expr, rest))
}

// The operands behind a condition and a `?`.
#[cycle(parse)]
fn read_branches(
    alloc: Global,
    condition: Expr,
    text: &[u8],
    depth: u32,
) -> Result<(Expr, &[u8]), Failure>
    requires { IsText text.now }
    ensures gives { Gives (λ x. (x.0, x.1.now)) result (then_read (inner depth text.now) (colon (inner depth) condition)) }
    ensures bound { IfOk result (λ x. length x.1.now ≤ length text.now) }
    ensures text { IfOk result (λ x. IsText x.1.now) }
{
    let (first, rest) = read_inner(alloc, text, depth)?;
    match rest {
        [b':', behind @ ..] => {
            let (second, rest) = read_inner(alloc, behind, depth)?;
            let conditional = Expr::new(alloc, Node::Conditional(condition, first, second))?;
            Ok((conditional, rest))
        }
        _ => Err(bad_syntax()),
    }
}

// An expression.
#[cycle(parse)]
fn read_conditional(alloc: Global, text: &[u8], depth: u32) -> Result<(Expr, &[u8]), Failure>
    requires { IsText text.now }
    ensures gives { Gives (λ x. (x.0, x.1.now)) result (conditional_at depth text.now) }
    ensures bound { IfOk result (λ x. length x.1.now ≤ length text.now) }
    ensures text { IfOk result (λ x. IsText x.1.now) }
{
    let (condition, rest) = read_level(alloc, text, LOOSEST, depth)?;
    match rest {
        [b'?', behind @ ..] => read_branches(alloc, condition, behind, depth),
        _ => Ok((condition, rest)),
    }
}

// An expression in parentheses, or an operand of `?:`.
#[cycle(parse)]
#[tactic(auto, unfolding(crate::specs::Reading::inner))]
fn read_inner(alloc: Global, text: &[u8], depth: u32) -> Result<(Expr, &[u8]), Failure>
    requires { IsText text.now }
    ensures gives { Gives (λ x. (x.0, x.1.now)) result (inner depth text.now) }
    ensures bound { IfOk result (λ x. length x.1.now ≤ length text.now) }
    ensures text { IfOk result (λ x. IsText x.1.now) }
{
    if depth == 0 {
        return Err(Syntax::Scripts.fault(ErrorNumber::TooDeeplyNested));
    }
    read_conditional(alloc, text, depth - 1)
}

/// The expression that a text spells (expr(n)), or its first fault: of a script in brackets its own, more than 32
/// brackets, parentheses and `?:` in one another, or bad syntax.
#[tactic(auto, unfolding(crate::specs::Reading::expr_of))]
pub fn parse_expr(alloc: Global, text: &Txt) -> Result<Expr, Failure>
    ensures read { Gives (λ e. e) result (expr_of text.now) }
{
    let (expr, rest) = read_conditional(alloc, text.as_bytes(), MAX_DEPTH)?;
    if !rest.is_empty() {
        return Err(bad_syntax());
    }
    Ok(expr)
}
