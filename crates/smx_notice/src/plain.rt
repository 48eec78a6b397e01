//! Text that can't break a line.
ghost use Rattle.std.specs.Prelude.{◌≡◌, ◌<◌, ◌≤◌, string_bytes, All, IfOk, OnOk};
ghost use Rattle.smx_notice.specs.Lines.{IsPrintable, IsLine};

use std::alloc::{AllocError, Global};

// The digit of a number in base 16.
fn digit_of(number: u32) -> char
    requires { number < 16 }
    ensures { IsPrintable result }
{
    match number {
        0..10 => (b'0' + number as u8) as char,
        _ => (b'a' + (number - 10) as u8) as char,
    }
}

// Adds a printable character of ASCII.
fn add(line: &mut String, character: char) -> Result<(), AllocError>
    requires printable { IsPrintable character }
    requires before { All IsPrintable (string_bytes line.now) }
    ensures { OnOk result (All IsPrintable (string_bytes line.new)) }
{
    line.push(character)
}

// Adds a unit of UTF-16 as JSON has it: \u and four digits in base 16.
fn add_unit(line: &mut String, unit: u32) -> Result<(), AllocError>
    requires { All IsPrintable (string_bytes line.now) }
    ensures { OnOk result (All IsPrintable (string_bytes line.new)) }
{
    add(line, '\\')?;
    add(line, 'u')?;
    add(line, digit_of(unit / 0x1000 % 16))?;
    add(line, digit_of(unit / 0x100 % 16))?;
    add(line, digit_of(unit / 0x10 % 16))?;
    add(line, digit_of(unit % 16))
}

// Adds a character that isn't printable ASCII, escaped as JSON does it.
fn add_escaped(line: &mut String, character: char) -> Result<(), AllocError>
    requires { All IsPrintable (string_bytes line.now) }
    ensures { OnOk result (All IsPrintable (string_bytes line.new)) }
{
    let number = character as u32;
    if number < 0x1_0000 {
        return add_unit(line, number);
    }
    let rest = number - 0x1_0000;
    add_unit(line, 0xD800 + rest / 0x400)?;
    add_unit(line, 0xDC00 + rest % 0x400)
}

// Adds a character, escaped where it isn't printable ASCII.
fn add_character(line: &mut String, character: char) -> Result<(), AllocError>
    requires { All IsPrintable (string_bytes line.now) }
    ensures { OnOk result (All IsPrintable (string_bytes line.new)) }
{
    match character {
        ' '..='~' => add(line, character),
        _ => add_escaped(line, character),
    }
}

// Adds each character of a text, escaped where it isn't printable ASCII.
fn add_text(line: &mut String, text: &str) -> Result<(), AllocError>
    requires { All IsPrintable (string_bytes line.now) }
    ensures { OnOk result (All IsPrintable (string_bytes line.new)) }
{
    for character in text.chars() {
        add_character(line, character)?;
    }
    Ok(())
}

/// A text as one line with its end: what isn't printable ASCII is escaped as in JSON, a line feed as \u000a.
/// Takes the memory of the line.
pub(crate) fn line_of(alloc: Global, text: &str) -> Result<String, AllocError>
    ensures one_line { IfOk result (λ line. IsLine (string_bytes line)) }
{
    let mut line = String::new(alloc);
    add_text(&mut line, text)?;
    line.push('\n')?;
    Ok(line)
}
