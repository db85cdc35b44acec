//! The words of a redirect: a slot's number and the address of a node.
ghost use Rattle.std.specs.Prelude.{◌≡◌, ◌^◌, length, take_while, option_map};
ghost use Rattle.std.specs.Char.{is_ascii_whitespace};
ghost use Rattle.resp_core.specs.Numbers.{number_below};
ghost use Rattle.resp_core.specs.Redirect.{behind_space, behind_word, front_word, number_word, redirect_words, text_word};

use std::str::from_utf8;

fn space_length(text: &[u8]) -> usize
    ensures { result ≡ length (take_while is_ascii_whitespace text.now) }
{
    text.iter().take_while(|c| c.is_ascii_whitespace()).count()
}

fn behind_space(text: &[u8]) -> &[u8]
    ensures { result.now ≡ behind_space text.now }
{
    &text[space_length(text)..]
}

fn word_length(text: &[u8]) -> usize
    ensures { result ≡ length (front_word text.now) }
{
    text.iter().take_while(|c| !c.is_ascii_whitespace()).count()
}

fn front_word(text: &[u8]) -> &[u8]
    ensures { result.now ≡ front_word text.now }
{
    &text[..word_length(text)]
}

fn behind_word(text: &[u8]) -> &[u8]
    ensures { result.now ≡ behind_word text.now }
{
    &text[word_length(text)..]
}

/// A word that is a text.
fn text_word(word: &[u8]) -> Option<&str>
    ensures { option_map (λ text. text.now) result ≡ text_word word.now }
{
    if word.len() == 0 {
        return None;
    }
    match from_utf8(word) {
        Ok(text) => Some(text),
        Err(_) => None,
    }
}

fn number_of(text: &str) -> Option<u16>
    ensures { result ≡ number_below (2 ^ 16) text.now }
{
    text.parse::<u16>().ok()
}

fn number_word(word: &[u8]) -> Option<u16>
    ensures { result ≡ number_word word.now }
{
    match text_word(word) {
        Some(text) => number_of(text),
        None => None,
    }
}

/// The address text and the number that a redirect's detail names.
pub(crate) fn redirect_words(detail: &str) -> Option<(&str, u16)>
    ensures { option_map (λ words. record { address = words.0.now; slot = words.1 }) result
        ≡ redirect_words detail.now }
{
    let number = behind_space(detail.as_bytes());
    let Some(slot) = number_word(front_word(number)) else {
        return None;
    };
    match text_word(front_word(behind_space(behind_word(number)))) {
        Some(address) => Some((address, slot)),
        None => None,
    }
}
