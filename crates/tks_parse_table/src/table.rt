//! A table of scripts and expressions that were parsed, each found by its text.
ghost use Rattle.std.specs.Prelude.{◌≡◌, IfOk, Ok};
ghost use Rattle.tks_expr.specs.Compiled.{items_in};
ghost use Rattle.tks_parse.specs.Reading.{script_of};
ghost use Rattle.tks_text.specs.Fault.{Gives};

use crate::known::{KnownExpr, KnownScript};
use crate::places::Places;
use std::alloc::{AllocError, Global};
use std::marker::Model;
use tks_expr::{Items, parse_items};
use tks_parse::{Script, parse};
use tks_text::{Failure, Txt};

/// Scripts and expressions that were parsed, each with its text: the last 32 of each. Contracts see nothing of what is kept, and
/// want of memory keeps nothing more.
pub struct ParseTable {
    scripts: Places<KnownScript>,
    exprs: Places<KnownExpr>,
}

// Written out, so that to let go of a table is one step for whoever owns it.
impl Drop for ParseTable {
    fn drop(self) {
        let ParseTable {
            scripts: _,
            exprs: _,
        } = self;
    }
}

impl Model for ParseTable {
    ghost Value = { Unit {0} };

    ghost view = { λ _. tt };
}

impl ParseTable {
    /// Nothing kept. A table is seen as nothing at all, so there is nothing that a clause could tell of one.
    pub fn new(alloc: Global) -> ParseTable {
        ParseTable {
            scripts: Places::new(alloc),
            exprs: Places::new(alloc),
        }
    }

    // Keeps a script under its text.
    fn keep_script(&mut self, text: &Txt, script: &Script) -> Result<(), AllocError>
        requires { script.now ≡ script_of text.now }
    {
        let known = KnownScript::new(text, script.share()?)?;
        self.scripts.keep(known);
        Ok(())
    }

    /// The script that a text spells, parsed where it isn't kept, and then kept where memory serves.
    pub fn script(&mut self, alloc: Global, text: &Txt) -> Result<Script, AllocError>
        ensures { IfOk result (λ s. s ≡ script_of text.now) }
    {
        if let Some(script) = self.scripts.find(text) {
            return Ok(script);
        }
        let script = parse(alloc, text)?;
        let _ = self.keep_script(text, &script);
        Ok(script)
    }

    // Keeps an expression under its text.
    fn keep_expr(&mut self, text: &Txt, items: &Items) -> Result<(), AllocError>
        requires { items_in text.now ≡ Ok items.now }
    {
        let known = KnownExpr::new(text, Some(items.share()?))?;
        self.exprs.keep(known);
        Ok(())
    }

    /// The items of the expression that a text spells, parsed where it isn't kept, and then kept where memory serves.
    pub fn expr(&mut self, alloc: Global, text: &Txt) -> Result<Items, Failure>
        ensures { Gives (λ items. items) result (items_in text.now) }
    {
        if let Some(items) = self.exprs.find(text) {
            return Ok(items);
        }
        let items = parse_items(alloc, text)?;
        let _ = self.keep_expr(text, &items);
        Ok(items)
    }

    /// A text with the script that it spells.
    pub fn known_script(&mut self, alloc: Global, text: &Txt) -> Result<KnownScript, AllocError>
        ensures { IfOk result (λ k. k ≡ text.now) }
    {
        let script = self.script(alloc, text)?;
        KnownScript::new(text, script)
    }

    /// A text with the expression that it spells, if it spells one.
    pub fn known_expr(&mut self, alloc: Global, text: &Txt) -> Result<KnownExpr, AllocError>
        ensures { IfOk result (λ k. k ≡ text.now) }
    {
        match self.expr(alloc, text) {
            Ok(items) => KnownExpr::new(text, Some(items)),
            Err(Failure::Script(_)) => KnownExpr::new(text, None),
            Err(Failure::NoMemory) => Err(AllocError),
        }
    }

    /// Lets go of texts of more than 4,096 bytes, so that what is kept for further inputs takes bounded memory.
    pub fn keep_short(&mut self) {
        self.scripts.keep_short();
        self.exprs.keep_short();
    }
}
