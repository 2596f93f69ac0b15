// What is wrong with a character, a number or a power.
ghost use Rattle.std.specs.Prelude.{◌≡◌, ◌++◌, ◌≤◌, OnOk, drop, length, option_copied, take};
ghost use Rattle.std.specs.Str.{chars};
ghost use Rattle.um_syntax.specs.Lexeme.{begins};
ghost use Rattle.unicode_ident.specs.Ident.{is_xid_continue as goes_on};
ghost use Rattle.um_text_details.specs.TextDetails.{character_line, follows_number, is_digit, last_byte, text_details};
ghost use Rattle.um_text_details.specs.Stops.{IsCharacterStop};
ghost use Rattle.std.specs.Str.{IsUtf8};

use std::alloc::AllocError;
use std::str;
use um_syntax::TextStop;
use unicode_ident::is_xid_continue;

/// Adds what is told of bytes that have no tokens: what is wrong with the character, the number or the power. Of bytes
/// that aren't UTF-8 nothing is added. The rules are this project's own. Want of memory is the one error.
pub fn push_text_details(text: &mut Vec<u8>, bytes: &[u8], stop: TextStop) -> Result<(), AllocError>
    requires character { IsCharacterStop bytes.now stop }
    ensures details { OnOk result (text.new.items ≡ text.old.items ++ text_details bytes.now stop) }
{
    match stop {
        TextStop::Utf8 { at: _ } => Ok(()),
        TextStop::BadChar { at } => push_character(text, follows_number(bytes, at)),
        TextStop::NumberRange { at: _ } => text.extend_from_slice(
            b"a number has at most 38 digits, no denominator 0, and parts that fit 64 bits\n",
        ),
        TextStop::PowerText { at: _ } => {
            text.extend_from_slice(b"a power is digits alone, at most 2147483647\n")
        }
        TextStop::NoMemory => Ok(()),
    }
}

/// Adds what is wrong with a character.
fn push_character(text: &mut Vec<u8>, after_number: bool) -> Result<(), AllocError>
    ensures { OnOk result (text.new.items ≡ text.old.items ++ character_line after_number) }
{
    if after_number {
        text.extend_from_slice(b"no letter follows a number\n")
    } else {
        text.extend_from_slice(b"no token begins with this character\n")
    }
}

/// Whether the place is directly after a number, and the character there may go on a name.
fn follows_number(bytes: &[u8], at: u32) -> bool
    requires within { at ≤ length bytes.now }
    requires after { IsUtf8 (drop at bytes.now) }
    ensures { result ≡ follows_number bytes.now at }
{
    ends_in_digit(&bytes[..at as usize]) && goes_on_a_name(&bytes[at as usize..])
}

/// Whether the last of the bytes is a digit.
fn ends_in_digit(bytes: &[u8]) -> bool
    ensures { result ≡ is_digit (last_byte bytes.now) }
{
    is_digit(bytes.last())
}

fn is_digit(byte: Option<&u8>) -> bool
    ensures { result ≡ is_digit (option_copied byte.entry) }
{
    match byte {
        Some(byte) => byte.is_ascii_digit(),
        None => false,
    }
}

/// Whether the first character may go on a name.
fn goes_on_a_name(bytes: &[u8]) -> bool
    requires { IsUtf8 bytes.now }
    ensures { result ≡ begins goes_on (chars bytes.now) }
{
    match str::from_utf8(bytes) {
        Ok(text) => first_goes_on(text),
        Err(_) => unreachable!(),
    }
}

#[tactic(auto, using(crate::proofs::FirstCharacter::first_begins, crate::proofs::FirstCharacter::none_begins))]
fn first_goes_on(text: &str) -> bool
    ensures { result ≡ begins goes_on (chars text.now) }
{
    match text.chars().next() {
        Some(c) => is_xid_continue(c),
        None => false,
    }
}
