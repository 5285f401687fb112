//! A machine that is easy to foresee: a text to which scripts of one character are added.
ghost use Rattle.std.specs.Prelude.{◌≡◌, IfOk, IfErr, OnErr};
ghost use Rattle.tks_durable.specs.Machine.{accepts};
ghost use Rattle.tks_durable.specs.Refusing.{RefusedAs};
ghost use Rattle.tests_store.specs.Logging.{logging, longer};

use std::alloc::{AllocError, Global};
use tks_durable::Machine;
use tks_input::{Input, Refused, Reply};
use tks_spelling::{Format, Header, within_side};
use tks_text::{Seq, Size, Txt};

// Adds more to a text, as long as it stays within the limit.
fn lengthen(alloc: Global, limit: usize, text: &mut Txt, more: &Txt) -> Result<Reply, Refused>
    ensures accepted { IfOk result (λ reply. longer limit text.old more.now ≡ accepts text.new reply) }
    ensures refused { IfErr result (λ why. RefusedAs why (longer limit text.old more.now)) }
    ensures unchanged { OnErr result (text.new ≡ text.old) }
{
    if more.len() > limit || text.len() > limit - more.len() {
        return Err(Refused::TooLarge);
    }
    text.append(more)?;
    Ok(Reply {
        number: text.len() as u64,
        code: 0,
        text: Txt::new(alloc),
    })
}

/// A machine whose state is a text of at most `limit` bytes, to which scripts of one character are added; a turn adds a `t`,
/// unless it is empty.
#[derive(Clone, Copy, Drop)]
pub struct Log {
    pub limit: usize,
    pub pending: usize,
}

impl Machine for Log {
    type World = Txt;

    ghost meaning = { λ l. logging l.limit l.pending };

    fn step(&self, alloc: Global, world: &mut Txt, input: &Input) -> Result<Reply, Refused> {
        match input {
            Input::Script(more) => match more.as_bytes() {
                [_] => lengthen(alloc, self.limit, world, more),
                _ => Err(Refused::BadInput),
            },
            Input::Turn if world.is_empty() => Err(Refused::Quiet),
            Input::Turn => {
                let more = Txt::from_text(alloc, b"t")?;
                lengthen(alloc, self.limit, world, &more)
            }
            _ => Err(Refused::BadInput),
        }
    }

    fn prepare(&self, _world: &mut Txt) {}

    fn first(&self, alloc: Global) -> Result<Txt, AllocError> {
        Ok(Txt::new(alloc))
    }

    fn stored(
        &self,
        alloc: Global,
        _format: Format,
        _header: &Header,
        bytes: &[u8],
    ) -> Result<Option<Txt>, AllocError> {
        if !tks_text::is_text(bytes) {
            return Ok(None);
        }
        let text = Txt::from_text(alloc, bytes)?;
        Ok(Some(text))
    }

    #[tactic(auto, using(tks_text::proofs::Texts::all_from_text))]
    fn bytes(&self, alloc: Global, world: &Txt) -> Result<Vec<u8>, AllocError> {
        let mut bytes = Vec::new(alloc);
        bytes.extend_from_slice(world.as_bytes())?;
        Ok(bytes)
    }

    fn length(&self, world: &Txt) -> Option<u64> {
        within_side(world.len() as u64)
    }

    fn header(
        &self,
        alloc: Global,
        generation: u64,
        world_length: u64,
    ) -> Result<Header, AllocError> {
        let Some(grid) = Size::new(20, 3) else {
            unreachable!()
        };
        Ok(Header {
            generation,
            grid,
            names: Seq::new(alloc),
            world_length,
        })
    }

    fn is_within(&self, world: &Txt) -> bool {
        world.len() <= self.limit
    }

    fn count(&self, world: &Txt) -> u64 {
        world.len() as u64
    }

    fn grid(&self) -> Size {
        let Some(grid) = Size::new(20, 3) else {
            unreachable!()
        };
        grid
    }

    fn has_names(&self, names: &[Txt]) -> bool {
        names.is_empty()
    }

    fn pending(&self) -> usize {
        self.pending
    }
}
