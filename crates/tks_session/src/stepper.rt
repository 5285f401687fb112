//! The world within limits, with an application's commands, as a session keeps it.
ghost use Rattle.std.specs.Prelude.{◌≡◌, ◌≤◌, drop, length, map, IfOk};
ghost use Rattle.tks_app.specs.Applications.{command_names};
ghost use Rattle.tks_codec.specs.World as codec;
ghost use Rattle.tks_durable.specs.Opening.{same_names};
ghost use Rattle.tks_spelling.specs.declared.format.Format.TheVariants.{Two};
ghost use Rattle.tks_state.specs.World.{first_world};
ghost use Rattle.tks_session.specs.Terminals.{is_stored, names_of, spelled, terminal};

use std::alloc::{AllocError, Global};
use tks_app::{AppBody, AppClosure, AppCommand, AppMeaning, Apps, Memories};
use tks_codec::{read_world, world_length, write_world};
use tks_durable::Machine;
use tks_input::{Input, Refused, Reply};
use tks_limits::is_within;
use tks_spelling::{CodecFault, Format, Header, one_header};
use tks_state::World;
use tks_text::{Limits, Seq, Size, Txt};
use tks_vars::Iter;
use tks_world::step;

/// What a session is made for, as the machine that it makes durable: the limits that scripts keep within, the size of the
/// grid, and the commands of an application.
#[derive(Drop)]
pub struct Stepper<T: AppMeaning, B: AppBody = AppClosure> {
    pub limits: Limits,
    pub grid: Size,
    pub apps: Apps<T, B>,
}

// Whether these are the commands' names.
fn are_names<T: AppMeaning, B: AppBody>(names: &[Txt], commands: &[AppCommand<T, B>]) -> bool
    ensures { result ≡ same_names names.now (command_names commands.now) }
{
    let mut rest = names;
    let mut others = commands;
    while let (Some((name, behind)), Some((command, more))) = (
        rest.split_first(),
        others.split_first(),
    ) {
        if name.as_bytes() != command.name().as_bytes() {
            return false;
        }
        rest = behind;
        others = more;
    }
    rest.is_empty() && others.is_empty()
}

// Whether these texts stand under just these names.
fn stand_under(texts: Iter<'_, Txt>, names: &[Txt]) -> bool
    ensures { result ≡ same_names (map (λ e. e.0) texts.entry) names.now }
{
    let mut others = names;
    for (name, _) in texts {
        let Some((other, more)) = others.split_first() else {
            return false;
        };
        if name != other.as_bytes() {
            return false;
        }
        others = more;
    }
    others.is_empty()
}

// Whether just these names have memories.
fn have_memories(memories: &Memories, names: &[Txt]) -> bool
    ensures { result ≡ same_names (names_of memories.now) names.now }
{
    stand_under(memories.texts().iter(), names)
}

// Whether a world that was read from so many bytes is what a side holds: these are all, and it has memories of just these names.
#[tactic(auto, using(crate::proofs::Stored::nothing_left, crate::proofs::Stored::some_left))]
fn is_stored(world: &World, read: usize, bytes: &[u8], names: &[Txt]) -> bool
    requires { read ≤ length bytes.now }
    ensures { result ≡ is_stored names.now world.now (drop read bytes.now) }
{
    read == bytes.len() && have_memories(world.memories(), names)
}

// The bytes of a world.
#[tactic(auto, unfolding(crate::specs::Terminals::spelled))]
fn bytes_of(alloc: Global, world: &World) -> Result<Vec<u8>, AllocError>
    ensures value { IfOk result (λ bytes. bytes.items ≡ spelled world.now) }
    ensures legal { IfOk result (λ bytes. (codec.world Two world.now.grid).Legal world.now) }
{
    let mut bytes = Vec::new(alloc);
    write_world(alloc, world, &mut bytes)?;
    Ok(bytes)
}

impl<T: AppMeaning, B: AppBody> Machine for Stepper<T, B> {
    type World = World;

    ghost meaning = { λ t. terminal (record { names = t.apps; meaning = T.meaning }) t.limits t.grid };

    #[tactic(auto, using(crate::proofs::Steps::accepted, crate::proofs::Steps::refused))]
    fn step(&self, alloc: Global, world: &mut World, input: &Input) -> Result<Reply, Refused> {
        match step(alloc, world, &self.apps, input, &self.limits) {
            Ok(reply) => Ok(reply),
            Err(refused) => Err(refused),
        }
    }

    fn prepare(&self, world: &mut World) {
        // Where memory is refused, whoever reads the world finds it anew.
        let _ = world.lay_out();
    }

    fn first(&self, alloc: Global) -> Result<World, AllocError> {
        // The names are those of commands.
        let _ = self.apps.commands();
        let names = self.apps.names(alloc)?;
        let world = World::first(alloc, self.grid, names.as_slice())?;
        Ok(world)
    }

    fn bytes(&self, alloc: Global, world: &World) -> Result<Vec<u8>, AllocError> {
        let bytes = bytes_of(alloc, world)?;
        Ok(bytes)
    }

    fn stored(
        &self,
        alloc: Global,
        format: Format,
        header: &Header,
        bytes: &[u8],
    ) -> Result<Option<World>, AllocError> {
        match read_world(alloc, format, header.grid, bytes) {
            Ok((world, read)) => {
                let is_whole = is_stored(&world, read, bytes, header.names.as_slice());
                Ok(is_whole.then_some(world))
            }
            Err(CodecFault::Bad(_)) => Ok(None),
            Err(CodecFault::NoMemory) => Err(AllocError),
        }
    }

    #[tactic(auto, unfolding(crate::specs::Terminals::spelled))]
    fn length(&self, world: &World) -> Option<u64> {
        world_length(world)
    }

    #[tactic(auto, using(crate::proofs::Names::header_names, crate::proofs::Names::header_texts))]
    fn header(
        &self,
        alloc: Global,
        generation: u64,
        world_length: u64,
    ) -> Result<Header, AllocError> {
        // The grid's range and what names are is what the header's law asks for.
        let _ = self.grid.width();
        let _ = self.apps.commands();
        one_header();
        Ok(Header {
            generation,
            grid: self.grid,
            names: self.apps.names(alloc)?,
            world_length,
        })
    }

    fn is_within(&self, world: &World) -> bool {
        is_within(world, &self.limits)
    }

    fn count(&self, world: &World) -> u64 {
        world.accepted()
    }

    fn grid(&self) -> Size {
        self.grid
    }

    fn has_names(&self, names: &[Txt]) -> bool {
        are_names(names, self.apps.commands())
    }

    fn pending(&self) -> usize {
        self.limits.pending as usize
    }
}
