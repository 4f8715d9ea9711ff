// The line of a step's name.
ghost use Rattle.std.specs.Prelude.{◌≡◌, OnOk};
ghost use Rattle.listing.specs.Appending.{Appended};
ghost use Rattle.std.specs.List.{flat_map};
ghost use Rattle.listing.specs.Listing.{plain, shown_byte, name_line};

use records::record::Part;
use std::alloc::AllocError;

fn is_plain(byte: u8) -> bool
    ensures { result ≡ plain byte }
{
    matches!(byte, b' '..=b'~') && byte != b'\\'
}

// A name may hold any byte, and its line stays one line of ASCII.
#[tactic(auto, using(std::proofs::lemmas::Fmt::hex_byte))]
fn push_byte(text: &mut String, byte: u8) -> Result<(), AllocError>
    ensures { OnOk result (Appended text.old text.new (shown_byte byte)) }
{
    if is_plain(byte) {
        text.push(char::from(byte))
    } else {
        write!(text, "\\x{byte:02x}")
    }
}

fn push_bytes(text: &mut String, name: &[u8]) -> Result<(), AllocError>
    ensures { OnOk result (Appended text.old text.new (flat_map shown_byte name.now)) }
{
    for byte in name {
        push_byte(text, *byte)?;
    }
    Ok(())
}

// The name of a step, with the place of its first byte in the file.
pub fn push_name(text: &mut String, step: u8, name: &Part) -> Result<(), AllocError>
    ensures { OnOk result (Appended text.old text.new (name_line step name.now.place name.now.bytes.now)) }
{
    let place = name.place;
    write!(text, "NAME step {step} at {place} ")?;
    push_bytes(text, name.bytes)?;
    text.push_str("\n")
}
