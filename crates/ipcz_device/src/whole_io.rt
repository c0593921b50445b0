//! Reading all of an input, and writing all of an output.
ghost use Rattle.std.specs.Prelude.{◌≡◌, ◌<◌, ◌≤◌, length, take, false, is_err, OnOk, IfOk, IfErr, IfSome, if◌then◌else◌};
ghost use Rattle.std.specs.Io.KnownBytes.{Appends, Consumes, IsAtEnd};
ghost use Rattle.ipcz_device.specs.declared.fault.Fault.TheVariants as fault;
ghost use Rattle.ipcz_device.specs.WholeIo.{AppendsFront, ConsumesAtMost};

use crate::device::Device;
use crate::fault::Fault;
use std::alloc::Global;
use std::io::{Read, Write};

const CHUNK: usize = 4096;

/// Reads until a `read` answers 0 bytes or `limit` bytes are there (docs/PROTOCOL.md, "Devices").
///
/// A read that answers fewer bytes than it could isn't the end. The answer is `Read` if a `read` fails, and
/// `OutOfMemory` if no memory is found for the bytes; the device hasn't failed then.
pub fn read_up_to<R: Read>(
    alloc: Global,
    device: &mut Device<R>,
    limit: usize,
) -> Result<Vec<u8>, Fault>
    requires works { device.old.failed ≡ false }
    ensures bytes { IfOk result (λ bytes.
        IfSome (R.remaining device.old.inner) (λ input. bytes.items ≡ take limit input)) }
    ensures read { IfOk result (λ bytes.
        Consumes (R.remaining device.old.inner) (R.remaining device.new.inner) bytes.items) }
    ensures few { IfOk result (λ bytes. length bytes.items ≤ limit) }
    ensures whole { IfOk result (λ bytes.
        length bytes.items < limit → IsAtEnd (R.remaining device.new.inner)) }
    ensures taken { ConsumesAtMost (R.remaining device.old.inner) (R.remaining device.new.inner) limit }
    ensures ok { OnOk result (device.new.failed ≡ false) }
    ensures fault { IfErr result (λ why.
        why ≡ (if device.new.failed then fault.Read else fault.OutOfMemory)) }
{
    let mut bytes = Vec::new(alloc);
    let mut chunk = [0u8; CHUNK];
    'reading: while bytes.len() < limit {
        let room = CHUNK.min(limit - bytes.len());
        let Ok(count) = device.read(&mut chunk[..room]) else {
            return Err(Fault::Read);
        };
        if count == 0 {
            return Ok(bytes);
        }
        bytes.extend_from_slice(&chunk[..count])?;
    }
    Ok(bytes)
}

/// Writes the whole text, with as many `write`s as that takes (docs/PROTOCOL.md, "Devices").
///
/// The answer is `Write` if a `write` fails; some front of the text is written then.
pub fn write_whole<W: Write>(device: &mut Device<W>, text: &[u8]) -> Result<(), Fault>
    requires works { device.old.failed ≡ false }
    ensures done { OnOk result
        (Appends (W.contents device.old.inner) (W.contents device.new.inner) text.now) }
    ensures front { AppendsFront (W.contents device.old.inner) (W.contents device.new.inner) text.now }
    ensures failed { device.new.failed ≡ is_err result }
    ensures fault { IfErr result (λ why. why ≡ fault.Write) }
{
    let mut rest = text;
    'writing: while !rest.is_empty() {
        let Ok(count) = device.write(rest) else {
            return Err(Fault::Write);
        };
        rest = &rest[count..];
    }
    Ok(())
}
