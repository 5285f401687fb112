//! Writers of single values. Each adds a value's spelling to the bytes.

ghost use Rattle.std.specs.Prelude.{◌≡◌, ◌∷◌, ◌++◌, [], OnOk};
ghost use Rattle.std.specs.Int.{w16, w32, w64, to_be_bytes};
ghost use Rattle.tks_text.specs.Text.{IsText};
ghost use Rattle.tks_text.specs.Short.{IsShort};
ghost use Rattle.tks_spelling.specs.Spelling.{flag_of, flag, signed};
ghost use Rattle.tks_spelling.specs.Spelling as spellings;
ghost use Rattle.tks_spelling.specs.Writing.{PutsSo};

use byteorder::{BigEndian, ByteOrder};
use std::alloc::AllocError;
use tks_text::Txt;

// Adds bytes.
#[tactic(auto, using(crate::proofs::Puts::still, crate::proofs::Puts::all_there))]
fn put(out: &mut Vec<u8>, bytes: &[u8]) -> Result<(), AllocError>
    ensures { PutsSo result out.old.items out.new.items bytes.now }
{
    out.extend_from_slice(bytes)?;
    Ok(())
}

/// Adds a byte.
pub fn put_u8(out: &mut Vec<u8>, byte: u8) -> Result<(), AllocError>
    ensures { PutsSo result out.old.items out.new.items (byte ∷ []) }
{
    put(out, &[byte])?;
    Ok(())
}

/// Adds a number of two bytes.
pub fn put_u16(out: &mut Vec<u8>, number: u16) -> Result<(), AllocError>
    ensures { PutsSo result out.old.items out.new.items (to_be_bytes w16 number) }
{
    let mut bytes = [0; 2];
    BigEndian::write_u16(&mut bytes, number);
    put(out, &bytes)?;
    Ok(())
}

/// Adds a number of four bytes.
pub fn put_u32(out: &mut Vec<u8>, number: u32) -> Result<(), AllocError>
    ensures { PutsSo result out.old.items out.new.items (to_be_bytes w32 number) }
{
    let mut bytes = [0; 4];
    BigEndian::write_u32(&mut bytes, number);
    put(out, &bytes)?;
    Ok(())
}

/// Adds a number of eight bytes.
pub fn put_u64(out: &mut Vec<u8>, number: u64) -> Result<(), AllocError>
    ensures { PutsSo result out.old.items out.new.items (to_be_bytes w64 number) }
{
    let mut bytes = [0; 8];
    BigEndian::write_u64(&mut bytes, number);
    put(out, &bytes)?;
    Ok(())
}

/// Adds an integer of eight bytes.
pub fn put_i64(out: &mut Vec<u8>, number: i64) -> Result<(), AllocError>
    ensures { PutsSo result out.old.items out.new.items ((signed w64).write number) }
{
    put_u64(out, number.cast_unsigned())?;
    Ok(())
}

/// Adds whether a value that may be there is there, the byte in front of it.
pub fn put_presence(out: &mut Vec<u8>, is_there: bool) -> Result<(), AllocError>
    ensures { PutsSo result out.old.items out.new.items (flag_of is_there ∷ []) }
{
    put_u8(out, if is_there { 1 } else { 0 })?;
    Ok(())
}

/// Adds a truth value.
pub fn put_flag(out: &mut Vec<u8>, value: bool) -> Result<(), AllocError>
    ensures { PutsSo result out.old.items out.new.items (flag.write value) }
{
    put_presence(out, value)?;
    Ok(())
}

/// Adds a text.
#[tactic(auto, using(crate::proofs::Puts::still, crate::proofs::Puts::put_behind))]
pub fn put_text(out: &mut Vec<u8>, text: &Txt) -> Result<(), AllocError>
    ensures puts { PutsSo result out.old.items out.new.items (spellings.text.write text.now) }
    ensures legal { OnOk result (spellings.text.Legal text.now) }
{
    let bytes = text.as_bytes();
    put_u32(out, bytes.len() as u32)?;
    put(out, bytes)?;
    Ok(())
}

// Adds bytes that stand in two pieces, one behind the other.
#[tactic(auto, using(crate::proofs::Puts::still, crate::proofs::Puts::put_behind))]
fn put_both(out: &mut Vec<u8>, front: &[u8], behind: &[u8]) -> Result<(), AllocError>
    ensures { PutsSo result out.old.items out.new.items (front.now ++ behind.now) }
{
    put(out, front)?;
    put(out, behind)?;
    Ok(())
}

/// Adds a text that stands in three pieces, one behind the other.
#[tactic(auto, using(crate::proofs::Puts::still, crate::proofs::Puts::put_behind, tks_text::proofs::Texts::text_append))]
pub fn put_pieces(
    out: &mut Vec<u8>,
    front: &[u8],
    middle: &[u8],
    behind: &[u8],
) -> Result<(), AllocError>
    requires short { IsShort (front.now ++ (middle.now ++ behind.now)) }
    requires text { IsText front.now × (IsText middle.now × IsText behind.now) }
    ensures puts { PutsSo result out.old.items out.new.items (spellings.text.write (front.now ++ (middle.now ++ behind.now))) }
    ensures legal { OnOk result (spellings.text.Legal (front.now ++ (middle.now ++ behind.now))) }
{
    put_u32(out, (front.len() + middle.len() + behind.len()) as u32)?;
    put(out, front)?;
    put_both(out, middle, behind)?;
    Ok(())
}
