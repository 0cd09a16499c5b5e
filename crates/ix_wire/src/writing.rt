//! Writes fields at the end of bytes.
ghost use Rattle.std.specs.Prelude.{◌≡◌, ◌++◌, OnOk, OnErr};
ghost use Rattle.ix_wire.specs.Spelling.{u32_bytes, u64_bytes, text_bytes};

use ix_types::{Memory, Text};

/// Appends a number as four bytes, the most significant first. After `Memory` the bytes are as before.
#[tactic(auto, unfolding(crate::specs::Spelling::u32_bytes))]
pub fn put_u32(out: &mut Vec<u8>, n: u32) -> Result<(), Memory>
    ensures ok { OnOk result (out.new.items ≡ out.old.items ++ u32_bytes n) }
    ensures err { OnErr result (out.new.items ≡ out.old.items) }
{
    out.extend_from_slice(&n.to_be_bytes())?;
    Ok(())
}

/// Appends a number as eight bytes, the most significant first. After `Memory` the bytes are as before.
#[tactic(auto, unfolding(crate::specs::Spelling::u64_bytes))]
pub fn put_u64(out: &mut Vec<u8>, n: u64) -> Result<(), Memory>
    ensures ok { OnOk result (out.new.items ≡ out.old.items ++ u64_bytes n) }
    ensures err { OnErr result (out.new.items ≡ out.old.items) }
{
    out.extend_from_slice(&n.to_be_bytes())?;
    Ok(())
}

/// Appends the length of a text as four bytes, and its bytes. After `Memory` the bytes are as before.
#[tactic(auto, unfolding(crate::specs::Spelling::text_bytes))]
pub fn put_text(out: &mut Vec<u8>, text: &Text) -> Result<(), Memory>
    ensures ok { OnOk result (out.new.items ≡ out.old.items ++ text_bytes text.now) }
    ensures err { OnErr result (out.new.items ≡ out.old.items) }
{
    let bytes = text.bytes();
    let before = out.len();
    put_u32(out, bytes.len() as u32)?;
    match out.extend_from_slice(bytes) {
        Ok(()) => Ok(()),
        Err(_) => {
            out.truncate(before);
            Err(Memory)
        }
    }
}
