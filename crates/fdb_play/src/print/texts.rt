// Bytes as byte texts, which `read_text` reads.
ghost use Rattle.std.specs.Prelude.{◌≡◌, ◌<◌, ◌++◌, OnOk, string_bytes};
ghost use Rattle.std.specs.Char.{digit_char};
ghost use Rattle.fdb_play.specs.print.Texts.{written_byte, text_of, WrittenTextReadsBack};

use crate::script::texts::is_plain;
use std::alloc::AllocError;

/// Writes the bytes as a byte text.
pub fn push_text(text: &mut String, bytes: &[u8]) -> Result<(), AllocError>
    ensures { OnOk result (string_bytes text.new ≡ string_bytes text.old ++ text_of bytes.now) }
{
    if bytes.is_empty() {
        return text.push('%');
    }
    for byte in bytes {
        push_byte(text, *byte)?;
    }
    Ok(())
}

fn push_byte(text: &mut String, byte: u8) -> Result<(), AllocError>
    ensures { OnOk result (string_bytes text.new ≡ string_bytes text.old ++ written_byte byte) }
{
    if is_plain(byte) {
        return text.push(byte as char);
    }
    text.push('%')?;
    text.push(hex_digit(byte / 16))?;
    text.push(hex_digit(byte % 16))
}

fn hex_digit(value: u8) -> char
    requires { value < 16 }
    ensures { result ≡ digit_char value }
{
    char::from_digit(u32::from(value), 16).unwrap()
}

/// What is written of bytes as a byte text is read as those bytes.
pub fn written_text_reads_back()
    ensures { WrittenTextReadsBack }
{}
