//! The law of expressions.
ghost use Rattle.std.specs.Prelude.{◌≡◌, ◌↔◌, List, ℕ, Result};
ghost use Rattle.tks_text.specs.declared.fault.ScriptFault.{ScriptFault};
ghost use Rattle.tks_expr.specs.Expression.{ExprOf};
ghost use Rattle.tks_expr.specs.Reading.{expr_of};
ghost use Rattle.tks_expr.specs.Tree.{Expr};

/// Each text spells one expression, or has one first fault.
pub fn one_expression()
    ensures { (t : List ℕ) (r : Result Expr ScriptFault) → ExprOf t r ↔ (r ≡ expr_of t) }
{}
