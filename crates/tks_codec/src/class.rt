//! Classes.
ghost use Rattle.std.specs.Prelude.{OnOk};
ghost use Rattle.tks_spelling.specs.Reading.{Gives};
ghost use Rattle.tks_spelling.specs.Writing.{PutsSo};
ghost use Rattle.tks_codec.specs.Class as kinds;

use std::alloc::AllocError;
use tks_opt::{class_number, class_numbered};
use tks_spelling::Unread;
use tks_spelling::reading::u8_of;
use tks_spelling::writing::put_u8;
use tks_text::Class;

/// A class.
pub fn class_of(bytes: &[u8]) -> Result<(Class, &[u8]), Unread>
    ensures { Gives (λ x. (x.0, x.1.now)) result (kinds.class.read bytes.now) }
{
    let (number, rest) = u8_of(bytes)?;
    match class_numbered(number) {
        Some(class) => Ok((class, rest)),
        None => Err(Unread::Left(rest.len() + 1)),
    }
}

/// Adds a class.
pub fn put_class(out: &mut Vec<u8>, class: Class) -> Result<(), AllocError>
    ensures { PutsSo result out.old.items out.new.items (kinds.class.write class) }
{
    put_u8(out, class_number(class))
}
