// The three system calls: a number or a byte for the report, a fact about the push.
ghost use Rattle.std.specs.Prelude.{◌≡◌, ◌++◌, length, is_ok, if◌then◌else◌, nat_le};
ghost use Rattle.runtime.specs.Hosts.{KeepsHost};
ghost use Rattle.runtime.specs.System.{byte_written, fact_told, number_written, Writes};

use crate::host::{Facts, Full, PushHost};
use crate::stop::Stop;
use itoa::Buffer;

// Appends the bytes whole, or none of them.
fn append<H: PushHost>(host: &mut H, bytes: &[u8]) -> Result<(), Full>
    ensures answer { is_ok result ≡ nat_le (length bytes.now) (length (H.PushHost.spare host.old)) }
    ensures after { H.PushHost.report host.new ≡ (if is_ok result then H.PushHost.report host.old ++ bytes.now else H.PushHost.report host.old) }
    ensures keeps { KeepsHost H.Facts H.PushHost.own host.old host.new }
{
    // First the room for all, then the bytes, none of which is refused: `?` at each would leave the front of a text.
    if host.space() < bytes.len() {
        return Err(Full);
    }
    for byte in bytes {
        let _ = host.put(*byte);
    }
    Ok(())
}

// Sys 1: the number in decimal, whole, or no byte of it.
pub fn write_number<H: PushHost>(host: &mut H, value: i32) -> Result<i32, Stop>
    ensures does { Writes H.PushHost.report H.PushHost.spare host.old host.new (number_written value) result }
    ensures keeps { KeepsHost H.Facts H.PushHost.own host.old host.new }
{
    let mut buffer = Buffer::new();
    append(host, buffer.format(value).as_bytes())?;
    Ok(value)
}

// Sys 2: one byte.
pub fn write_byte<H: PushHost>(host: &mut H, value: i32) -> Result<i32, Stop>
    ensures does { Writes H.PushHost.report H.PushHost.spare host.old host.new (byte_written value) result }
    ensures keeps { KeepsHost H.Facts H.PushHost.own host.old host.new }
{
    let byte = u8::try_from(value).map_err(|_| Stop::NotByte)?;
    host.put(byte)?;
    Ok(value)
}

// Sys 3: the fact of that number. It needs facts alone, and no report.
pub fn fact_at<F: Facts>(source: &F, number: i32) -> Result<i32, Stop>
    ensures { result ≡ fact_told (F.facts source.now) number }
{
    usize::try_from(number)
        .ok()
        .and_then(|k| source.fact(k))
        .ok_or(Stop::NoFact)
}
