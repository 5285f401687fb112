//! Inputs of frames, stepped again.

ghost use Rattle.std.specs.Prelude.{◌≡◌, ◌≤◌, ◌<◌, ℕ, IfOk, IfSome, Ok, None, length, drop};
ghost use Rattle.tks_durable.specs.Opening as opening;
ghost use Rattle.tks_durable.specs.Opening.{IsOwn, then_input, with_inputs};
ghost use Rattle.tks_durable.specs.Inputs.{frame_in, inputs_in, with_input};
ghost use Rattle.tks_spelling.specs.declared.format.Format.TheVariants.{Two};

use crate::fault::SessionFault;
use crate::machine::Machine;
use byteorder::{BigEndian, ByteOrder};
use std::alloc::{AllocError, Global};
use tks_input::{Input, Refused};
use tks_spelling::{CodecFault, Format, read_input};

// Why an input that was accepted once isn't accepted again.
fn fault_of(input: &Input, refused: Refused) -> SessionFault
    ensures { result ≡ opening.fault_of input.now refused }
{
    match refused {
        Refused::BadInput => match input {
            Input::Script(_) => SessionFault::SmallerLimits,
            _ => SessionFault::Damaged,
        },
        Refused::Budget | Refused::Depth | Refused::TooLarge => SessionFault::SmallerLimits,
        _ => SessionFault::Damaged,
    }
}

// An input more. A fault stays.
fn step_again<M: Machine>(
    alloc: Global,
    machine: &M,
    so_far: Result<M::World, SessionFault>,
    input: Input,
) -> Result<Result<M::World, SessionFault>, AllocError>
    ensures value { IfOk result (λ next. next ≡ then_input (M.meaning machine.now) so_far input) }
    ensures own { IsOwn (M.meaning machine.now) so_far → IfOk result (IsOwn (M.meaning machine.now)) }
{
    let Ok(mut world) = so_far else {
        return Ok(so_far);
    };
    match machine.step(alloc, &mut world, &input) {
        Ok(_) => Ok(Ok(world)),
        Err(Refused::NoMemory) => Err(AllocError),
        Err(refused) => Ok(Err(fault_of(&input, refused))),
    }
}

// The input at the front, and how many bytes it takes; none where no input stands there.
fn next_input(alloc: Global, bytes: &[u8]) -> Result<Option<(Input, usize)>, AllocError>
    requires { 0 < length bytes.now }
    ensures some { IfOk result (λ o. IfSome o (λ x. (0 < x.1) × (x.1 ≤ length bytes.now) × (inputs_in bytes.now ≡ with_input x.0 (inputs_in (drop x.1 bytes.now))))) }
    ensures none { result ≡ Ok None → inputs_in bytes.now ≡ None }
{
    match read_input(alloc, bytes) {
        Ok(found) => Ok(Some(found)),
        Err(CodecFault::Bad(_)) => Ok(None),
        Err(CodecFault::NoMemory) => Err(AllocError),
    }
}

// Steps the inputs that bytes are, and says how many they are. What is no list of inputs is damaged.
#[tactic(auto, using(crate::proofs::Runs::input_first))]
fn replay_inputs<M: Machine>(
    alloc: Global,
    machine: &M,
    start: Result<M::World, SessionFault>,
    bytes: &[u8],
) -> Result<(Result<M::World, SessionFault>, usize), AllocError>
    ensures value { IfOk result (λ end. end.0 ≡ with_inputs (M.meaning machine.now) start (inputs_in bytes.now)) }
    ensures count { IfOk result (λ end. IfSome (inputs_in bytes.now) (λ inputs. end.1 ≡ length inputs)) }
    ensures own { IsOwn (M.meaning machine.now) start → IfOk result (λ end. IsOwn (M.meaning machine.now) end.0) }
{
    let mut so_far = start;
    let mut rest = bytes;
    let mut count = 0;
    while !rest.is_empty() {
        let Some((input, length)) = next_input(alloc, rest)? else {
            return Ok((Err(SessionFault::Damaged), 0));
        };
        so_far = step_again(alloc, machine, so_far, input)?;
        rest = &rest[length..];
        count += 1;
    }
    Ok((so_far, count))
}

// Steps the inputs of a frame of the second format.
fn replay_counted<M: Machine>(
    alloc: Global,
    machine: &M,
    start: Result<M::World, SessionFault>,
    frame: &[u8],
) -> Result<Result<M::World, SessionFault>, AllocError>
    ensures value { IfOk result (λ end. end ≡ with_inputs (M.meaning machine.now) start (frame_in Two frame.now)) }
    ensures own { IsOwn (M.meaning machine.now) start → IfOk result (IsOwn (M.meaning machine.now)) }
{
    if frame.len() < 4 {
        return Ok(Err(SessionFault::Damaged));
    }
    let number = BigEndian::read_u32(&frame[..4]);
    let (end, count) = replay_inputs(alloc, machine, start, &frame[4..])?;
    if count != number as usize {
        return Ok(Err(SessionFault::Damaged));
    }
    Ok(end)
}

/// Steps the inputs of a frame. What is no list of inputs, or of another number than the frame tells, is damaged.
pub fn replay<M: Machine>(
    alloc: Global,
    machine: &M,
    format: Format,
    start: Result<M::World, SessionFault>,
    frame: &[u8],
) -> Result<Result<M::World, SessionFault>, AllocError>
    ensures value { IfOk result (λ end. end ≡ with_inputs (M.meaning machine.now) start (frame_in format frame.now)) }
    ensures own { IsOwn (M.meaning machine.now) start → IfOk result (IsOwn (M.meaning machine.now)) }
{
    match format {
        Format::One => {
            let (end, _) = replay_inputs(alloc, machine, start, frame)?;
            Ok(end)
        }
        Format::Two => replay_counted(alloc, machine, start, frame),
    }
}
