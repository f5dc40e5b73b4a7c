//! Tokens of a JSON text.
ghost use Rattle.std.specs.Prelude.{false, ◌≡◌, ◌<◌, Some, None, IfSome, IfNone, length, take, drop, IsTrue, ◌+◌};
ghost use Rattle.decimal_import.specs.Token.{word_text, word_in_front, text_in_front, closing_quote, number_in_front, token_in_front, is_colon_next_in};
ghost use Rattle.decimal_import.specs.View.{token_of};

use crate::literal::{Literal, split_literal};

/// The two kinds of brackets of JSON: `{ }` and `[ ]`.
#[derive(Clone, Copy, PartialEq, Eq)]
pub(crate) enum Bracket {
    Brace,
    Square,
}

/// The words of JSON.
#[derive(Clone, Copy)]
pub(crate) enum Word {
    True,
    False,
    Null,
}

/// A token. A string has the bytes between its quotes.
#[derive(Clone, Copy)]
pub(crate) enum Token<'a> {
    Opening(Bracket),
    Closing(Bracket),
    Comma,
    Colon,
    Blank(u8),
    Word(Word),
    Text(&'a [u8]),
    Number(Literal<'a>),
}

impl Word {
    fn text(self) -> &'static [u8]
        ensures { result.now ≡ word_text self }
    {
        match self {
            Word::True => b"true",
            Word::False => b"false",
            Word::Null => b"null",
        }
    }
}

/// The token in front, and what follows it. `None` where no token begins or it isn't whole.
pub(crate) fn split_token(bytes: &[u8]) -> Option<(Token<'_>, &[u8])>
    ensures some { IfSome result (λ p. token_in_front bytes.now ≡ Some (token_of p.0, p.1.now)) }
    ensures none { IfNone result (token_in_front bytes.now ≡ None) }
{
    match bytes {
        [b'{', rest @ ..] => Some((Token::Opening(Bracket::Brace), rest)),
        [b'[', rest @ ..] => Some((Token::Opening(Bracket::Square), rest)),
        [b'}', rest @ ..] => Some((Token::Closing(Bracket::Brace), rest)),
        [b']', rest @ ..] => Some((Token::Closing(Bracket::Square), rest)),
        [b',', rest @ ..] => Some((Token::Comma, rest)),
        [b':', rest @ ..] => Some((Token::Colon, rest)),
        [blank @ (b' ' | b'\t' | b'\n' | b'\r'), rest @ ..] => Some((Token::Blank(*blank), rest)),
        [b'"', rest @ ..] => split_text(rest),
        [b't', ..] => split_word(bytes, Word::True),
        [b'f', ..] => split_word(bytes, Word::False),
        [b'n', ..] => split_word(bytes, Word::Null),
        _ => split_number(bytes),
    }
}

/// The word, where it stands in front.
fn split_word(bytes: &[u8], word: Word) -> Option<(Token<'_>, &[u8])>
    ensures some { IfSome result (λ p. word_in_front word bytes.now
        ≡ Some (token_of p.0, p.1.now)) }
    ensures none { IfNone result (word_in_front word bytes.now ≡ None) }
{
    let text = word.text();
    if !bytes.starts_with(text) {
        return None;
    }
    Some((Token::Word(word), &bytes[text.len()..]))
}

/// The string, behind its opening quote.
fn split_text(bytes: &[u8]) -> Option<(Token<'_>, &[u8])>
    ensures some { IfSome result (λ p. text_in_front bytes.now ≡ Some (token_of p.0, p.1.now)) }
    ensures none { IfNone result (text_in_front bytes.now ≡ None) }
{
    let Some(length) = text_length(bytes) else {
        return None;
    };
    Some((Token::Text(&bytes[..length]), &bytes[length + 1..]))
}

/// How many bytes stand before the closing quote of a string, behind its opening quote.
fn text_length(bytes: &[u8]) -> Option<usize>
    ensures exact { result ≡ closing_quote false 0 bytes.now }
    ensures within { IfSome result (λ n. n < length bytes.now) }
{
    let mut is_escaped = false;
    for (index, &byte) in bytes.iter().enumerate() {
        if is_escaped {
            is_escaped = false;
        } else if byte == b'"' {
            return Some(index);
        } else if byte < 32 {
            return None;
        } else {
            is_escaped = byte == b'\\';
        }
    }
    None
}

/// The number literal.
fn split_number(bytes: &[u8]) -> Option<(Token<'_>, &[u8])>
    ensures some { IfSome result (λ p. number_in_front bytes.now ≡ Some (token_of p.0, p.1.now)) }
    ensures none { IfNone result (number_in_front bytes.now ≡ None) }
{
    let Some((literal, rest)) = split_literal(bytes) else {
        return None;
    };
    Some((Token::Number(literal), rest))
}

/// Whether a colon stands in front, blanks aside.
pub(crate) fn is_colon_next(bytes: &[u8]) -> bool
    ensures { result ≡ is_colon_next_in bytes.now }
{
    for byte in bytes {
        if !matches!(*byte, b' ' | b'\t' | b'\n' | b'\r') {
            return *byte == b':';
        }
    }
    false
}
