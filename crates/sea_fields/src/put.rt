// Writing fields.
ghost use Rattle.std.specs.Prelude.{◌≡◌, ◌++◌, ◌∷◌, [], ◌<◌, ◌^◌, length, OnOk, OnErr};
ghost use Rattle.std.specs.Int.{w32, w64, to_be_bytes};
ghost use Rattle.sea_fields.specs.Fields.{led};

use crate::owned::Bytes;
use std::alloc::AllocError;

/// Appends a byte. Without memory it leaves `out` as it was, as the other calls do.
pub fn put_u8(out: &mut Bytes, value: u8) -> Result<(), AllocError>
    ensures ok { OnOk result (out.new ≡ out.old ++ value ∷ []) }
    ensures err { OnErr result (out.new ≡ out.old) }
{
    out.append(&[value])
}

/// Appends a number in four bytes, the highest first.
pub fn put_u32(out: &mut Bytes, value: u32) -> Result<(), AllocError>
    ensures ok { OnOk result (out.new ≡ out.old ++ to_be_bytes w32 value) }
    ensures err { OnErr result (out.new ≡ out.old) }
{
    out.append(&value.to_be_bytes())
}

/// Appends a number in eight bytes, the highest first.
pub fn put_u64(out: &mut Bytes, value: u64) -> Result<(), AllocError>
    ensures ok { OnOk result (out.new ≡ out.old ++ to_be_bytes w64 value) }
    ensures err { OnErr result (out.new ≡ out.old) }
{
    let bytes = value.to_be_bytes();
    out.append(&bytes)
}

/// Appends a byte row of fewer than 2^32 bytes: how many it has, in four bytes, and its own.
pub fn put_bytes(out: &mut Bytes, value: &[u8]) -> Result<(), AllocError>
    requires { length value.now < 2 ^ 32 }
    ensures ok { OnOk result (out.new ≡ out.old ++ led value.now) }
    ensures err { OnErr result (out.new ≡ out.old) }
{
    let length = out.len();
    put_u32(out, value.len() as u32)?;
    match out.append(value) {
        Ok(()) => Ok(()),
        Err(error) => {
            out.truncate(length);
            Err(error)
        }
    }
}
