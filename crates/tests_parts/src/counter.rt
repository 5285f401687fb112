//! A second host of scripts.
ghost use Rattle.std.specs.Prelude.{◌≡◌, IfOk};
ghost use Rattle.tests_parts.specs.Counter.{script_in, waiting, rest_of, counting};

use std::alloc::{AllocError, Global};
use tks_eval::{Due, Host, Plan};
use tks_tcl::Stop;
use tks_text::Txt;
use tks_vars::Vars;

/// A host with a count: `up` adds one to it, `zero` sets it to 0, and `top` does so and wants its word run at global
/// level. A window is there while the count is below its number; a fault makes it 1000. Below that, as many things wait as
/// it counts: `all` wants them done, and `idle` all but the last two.
#[derive(Drop)]
pub struct Counter {
    pub alloc: Global,
    pub count: u32,
}

// The script that `top` wants run, which is empty where it has no word.
fn script_in(alloc: Global, words: &[Txt]) -> Result<Txt, AllocError>
    ensures { IfOk result (λ script. script ≡ script_in words.now) }
{
    match words.first() {
        Some(script) => script.try_clone(),
        None => Ok(Txt::new(alloc)),
    }
}

// The script of the next thing at a count.
fn waiting(alloc: Global, count: u32) -> Result<Txt, AllocError>
    ensures { IfOk result (λ script. script ≡ waiting count) }
{
    match count {
        1 => Ok(Txt::new(alloc)),
        5 => Txt::from_text(alloc, b"error e"),
        6 => Txt::from_text(alloc, b"break"),
        7 => Txt::from_text(alloc, b"return x"),
        8 => Txt::from_text(alloc, b"all"),
        _ => Txt::from_text(alloc, b"incr n"),
    }
}

// The count at which nothing waits any more.
fn rest_of(due: Due) -> u32
    ensures { result ≡ rest_of due }
{
    match due {
        Due::All => 0,
        Due::Idle => 2,
    }
}

impl Host for Counter {
    type State = u32;

    ghost state = { λ c. c.count };

    ghost Place = { Unit {0} };

    ghost place = { λ _. tt };

    ghost meaning = { counting };

    fn call(&mut self, _variables: &mut Vars, words: &[Txt]) -> Result<Option<Plan>, Stop> {
        let Some((name, rest)) = words.split_first() else {
            return Ok(None);
        };
        if name.as_bytes() == b"up".as_slice() {
            if self.count == u32::MAX {
                return Err(Stop::TooLarge);
            }
            self.count += 1;
            return Ok(Some(Plan::Answer(0, Txt::new(self.alloc))));
        }
        if name.as_bytes() == b"zero".as_slice() {
            self.count = 0;
            return Ok(Some(Plan::Answer(0, Txt::new(self.alloc))));
        }
        if name.as_bytes() == b"top".as_slice() {
            self.count = 0;
            return Ok(Some(Plan::Eval(script_in(self.alloc, rest)?)));
        }
        if name.as_bytes() == b"all".as_slice() {
            return Ok(Some(Plan::Update(Due::All)));
        }
        if name.as_bytes() == b"idle".as_slice() {
            return Ok(Some(Plan::Update(Due::Idle)));
        }
        Ok(None)
    }

    fn owns(&self, name: &Txt) -> bool {
        name.as_bytes() == b"up".as_slice()
            || name.as_bytes() == b"zero".as_slice()
            || name.as_bytes() == b"top".as_slice()
    }

    fn alive(&self, window: u64) -> bool {
        u64::from(self.count) < window
    }

    fn fault(&mut self, _text: &Txt) -> Result<(), Stop> {
        self.count = 1000;
        Ok(())
    }

    fn next(&mut self, due: Due) -> Result<Option<Plan>, Stop> {
        if self.count <= rest_of(due) || self.count >= 1000 {
            return Ok(None);
        }
        if self.count == 20 {
            return Err(Stop::TooLarge);
        }
        let script = waiting(self.alloc, self.count)?;
        self.count -= 1;
        Ok(Some(Plan::Eval(script)))
    }
}
