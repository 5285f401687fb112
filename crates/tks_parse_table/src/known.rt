//! Texts together with what they spell: scripts and expressions.
ghost use Rattle.std.specs.Prelude.{◌≡◌, IfOk, IfSome, Ok};
ghost use Rattle.tks_parse.specs.Reading.{script_of};
ghost use Rattle.tks_expr.specs.Compiled.{items_in};
ghost use Rattle.tks_text.specs.Fault.{Gives};

use crate::places::Known;
use std::alloc::{AllocError, Global};
use std::marker::Model;
use tks_expr::{Items, parse_items};
use tks_parse::Script;
use tks_text::{Failure, Txt};

/// A text with the script that it spells. Contracts see the text.
#[derive(Drop)]
pub struct KnownScript {
    text: Txt,
    script: Script,
}

impl Model for KnownScript {
    ghost use Rattle.std.specs.Prelude.{List, ℕ, ◌≡◌};
    ghost use Rattle.tks_parse.specs.Reading.{script_of};

    ghost Value = { List ℕ };

    ghost view = { λ k. k.text };

    ghost invariant = { λ k. k.script ≡ script_of k.text };
}

impl KnownScript {
    /// This text, with its script.
    pub(crate) fn new(text: &Txt, script: Script) -> Result<KnownScript, AllocError>
        requires { script ≡ script_of text.now }
        ensures { IfOk result (λ k. k ≡ text.now) }
    {
        Ok(KnownScript {
            text: text.try_clone()?,
            script,
        })
    }

    /// The script.
    pub fn script(&self) -> &Script
        ensures { result.now ≡ script_of self.now }
    {
        &self.script
    }
}

impl Known for KnownScript {
    ghost use Rattle.std.specs.Prelude.{◌≡◌};
    ghost use Rattle.tks_parse.specs.Reading.{script_of};

    type Tree = Script;

    ghost text_of = { λ known. known };

    ghost spells = { λ text script. script ≡ script_of text };

    fn text(&self) -> &Txt {
        &self.text
    }

    fn tree(&self) -> Option<Script> {
        match self.script.share() {
            Ok(script) => Some(script),
            Err(_) => None,
        }
    }
}

/// A text with the expression that it spells, if it spells one. Contracts see the text.
#[derive(Drop)]
pub struct KnownExpr {
    text: Txt,
    items: Option<Items>,
}

impl Model for KnownExpr {
    ghost use Rattle.std.specs.Prelude.{List, ℕ, ◌≡◌, IfSome, Ok};
    ghost use Rattle.tks_expr.specs.Compiled.{items_in};

    ghost Value = { List ℕ };

    ghost view = { λ k. k.text };

    ghost invariant = { λ k. IfSome k.items (λ i. items_in k.text ≡ Ok i) };
}

impl KnownExpr {
    /// This text, with the items of its expression, if they are there.
    pub(crate) fn new(text: &Txt, items: Option<Items>) -> Result<KnownExpr, AllocError>
        requires { IfSome items (λ i. items_in text.now ≡ Ok i) }
        ensures { IfOk result (λ k. k ≡ text.now) }
    {
        Ok(KnownExpr {
            text: text.try_clone()?,
            items,
        })
    }

    /// The items of the expression.
    pub fn items(&self, alloc: Global) -> Result<Items, Failure>
        ensures { Gives (λ i. i) result (items_in self.now) }
    {
        match &self.items {
            Some(items) => Ok(items.share()?),
            None => parse_items(alloc, &self.text),
        }
    }
}

impl Known for KnownExpr {
    ghost use Rattle.std.specs.Prelude.{◌≡◌, Ok};
    ghost use Rattle.tks_expr.specs.Compiled.{items_in};

    type Tree = Items;

    ghost text_of = { λ known. known };

    ghost spells = { λ text items. items_in text ≡ Ok items };

    fn text(&self) -> &Txt {
        &self.text
    }

    fn tree(&self) -> Option<Items> {
        match self.items.as_ref()?.share() {
            Ok(items) => Some(items),
            Err(_) => None,
        }
    }
}
