// An answer with the entries of its go or strike, as the console prints it.
ghost use Rattle.std.specs.Prelude.{◌≡◌, ◌<◌, ◌++◌, codes, decimal, string_bytes, OnOk};
ghost use Rattle.std.specs.List.{flat_map};
ghost use Rattle.console.specs.Answers.{entry_text, reply_text};

use crate::answer::Answer;
use protocol::Entry;
use std::alloc::AllocError;

// Puts the text behind what is there.
pub fn write_reply(text: &mut String, answer: &Answer, entries: &[Entry]) -> Result<(), AllocError>
    ensures { OnOk result (string_bytes text.new ≡ string_bytes text.old ++ reply_text answer.now entries.now) }
{
    text.write(answer).map_err(|_| AllocError)?;
    write_entries(text, entries)
}

// A go may have more than a thousand: byte by byte is faster than `write!` or a buffer of a line.
fn write_entries(text: &mut String, entries: &[Entry]) -> Result<(), AllocError>
    ensures { OnOk result (string_bytes text.new ≡ string_bytes text.old ++ flat_map entry_text entries.now) }
{
    for entry in entries {
        write_entry(text, *entry)?;
    }
    Ok(())
}

#[inline(always)]
fn write_entry(text: &mut String, entry: Entry) -> Result<(), AllocError>
    ensures { OnOk result (string_bytes text.new ≡ string_bytes text.old ++ entry_text entry) }
{
    text.push(' ')?;
    write_after_blank(text, entry.port)?;
    write_after_blank(text, entry.letter)?;
    write_after_blank(text, entry.answer)?;
    write_after_blank(text, entry.station)?;
    text.push('\n')
}

#[inline(always)]
fn write_after_blank(text: &mut String, number: u8) -> Result<(), AllocError>
    ensures { OnOk result (string_bytes text.new ≡ string_bytes text.old ++ (codes " " ++ decimal number)) }
{
    text.push(' ')?;
    write_number(text, number)
}

#[inline(always)]
#[tactic(auto, using(crate::proofs::Decimals::last_digit))]
fn write_number(text: &mut String, number: u8) -> Result<(), AllocError>
    ensures { OnOk result (string_bytes text.new ≡ string_bytes text.old ++ decimal number) }
{
    if number < 10 {
        return write_digit(text, number);
    }
    write_tens(text, number / 10)?;
    write_digit(text, number % 10)
}

// All but the last digit of a number.
#[inline(always)]
#[tactic(auto, using(crate::proofs::Decimals::last_digit))]
fn write_tens(text: &mut String, tens: u8) -> Result<(), AllocError>
    requires { tens < 100 }
    ensures { OnOk result (string_bytes text.new ≡ string_bytes text.old ++ decimal tens) }
{
    if tens < 10 {
        return write_digit(text, tens);
    }
    write_digit(text, tens / 10)?;
    write_digit(text, tens % 10)
}

#[inline(always)]
#[tactic(auto, using(std::proofs::lemmas::Fmt::decimal_digit))]
fn write_digit(text: &mut String, digit: u8) -> Result<(), AllocError>
    requires { digit < 10 }
    ensures { OnOk result (string_bytes text.new ≡ string_bytes text.old ++ decimal digit) }
{
    text.push((b'0' + digit) as char)
}
