// A line, put together piece by piece and then into a buffer.
ghost use Rattle.std.specs.Prelude.{◌≡◌, ◌+◌, ◌≤◌, ◌++◌, length};
ghost use Rattle.arrayvec.specs.ArrayString.{array_string_len};
ghost use Rattle.report.specs.Lines.{answer, filled};

use arrayvec::ArrayString;
use faults::fault::ReportFault;
use itoa::{Buffer, Integer};

// The longest line takes 33 bytes.
pub type Line = ArrayString<40>;

// A text and the number after it. `write!` says nothing of when it succeeds, and here it always fits.
pub fn push_numbered<I: Integer>(line: &mut Line, text: &str, n: I)
    requires { array_string_len line.old + length text.now + I.MAX_STR_LEN ≤ 40 }
    ensures bytes { line.new.bytes ≡ line.old.bytes ++ text.now ++ I.text n }
    ensures len { array_string_len line.new ≤ array_string_len line.old + length text.now + I.MAX_STR_LEN }
{
    line.push_str(text);
    line.push_str(Buffer::new().format(n));
}

// A buffer that is too short is left as it was.
pub fn put(line: &Line, buffer: &mut [u8]) -> Result<usize, ReportFault>
    ensures value { result ≡ answer line.now.bytes buffer.old }
    ensures after { buffer.new ≡ filled line.now.bytes buffer.old }
{
    let len = line.len();
    if buffer.len() < len {
        return Err(ReportFault::BufferTooShort { length: len as u16 });
    }
    buffer[..len].copy_from_slice(line.as_bytes());
    Ok(len)
}
