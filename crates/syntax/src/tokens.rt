ghost use Rattle.std.specs.Prelude.{◌≡◌, ℕ, ◌+◌, ◌<◌, ◌≤◌, true, false, List, [], ◌∷◌, length, drop, Some, None, MatchOption, slice_index};
ghost use Rattle.decimal.specs.Numbers.{digit, numeral};
ghost use Rattle.syntax.specs.Bytes.{starts, continues, front, after};
ghost use Rattle.syntax.specs.Cells.{span};
ghost use Rattle.syntax.specs.Tokens.{number, figures, closed, word, not_quote, next_read, read, tokens};
ghost use Rattle.syntax.specs.Meant.{meant, token_of};
ghost use Rattle.syntax.specs.Left.{tokens_left};
ghost use Rattle.std.specs.Iterator.{YieldsFirstBy, item_count};

use crate::bytes::{continues_name, is_blank, run_len, starts_name};

// A token of a line. A name, a number and a text borrow their bytes from it.
#[derive(Clone, Copy)]
pub enum Token<'a> {
    Name(&'a [u8]),
    Number(&'a [u8]),
    Character(u8),
    Text(&'a [u8]),
    Sign(u8),
}

// Is the first byte a digit, or a minus before a digit?
fn begins_number(line: &[u8]) -> bool
    ensures { result ≡ figures (slice_index line.now 0) (drop 1 line.now) }
{
    match line {
        [b'-', second, ..] => second.is_ascii_digit(),
        [first, ..] => first.is_ascii_digit(),
        [] => false,
    }
}

// A character between apostrophes, or an apostrophe alone.
fn quoted_token<'a>(line: &'a [u8]) -> (Token<'a>, &'a [u8])
    requires { slice_index line.now 0 ≡ 39 }
    ensures { read (meant result.0) result.1.now ≡ token_of line.now }
{
    match line {
        [open, character, close, rest @ ..] if *close == *open => (
            Token::Character(*character),
            rest,
        ),
        _ => (Token::Sign(b'\''), &line[1..]),
    }
}

// After a quotation mark: the text up to the next one, or the mark alone.
fn text_token<'a>(inner: &'a [u8]) -> (Token<'a>, &'a [u8])
    ensures { read (meant result.0) result.1.now ≡ closed inner.now (front not_quote inner.now) (after not_quote inner.now) }
{
    let (body, rest) = inner.split_at(run_len(inner, |byte| byte != b'"'));
    match rest {
        [_, after @ ..] => (Token::Text(body), after),
        [] => (Token::Sign(b'"'), inner),
    }
}

// A word of at most 31 bytes is a name; a longer one is a sign that no form has.
fn name_token<'a>(line: &'a [u8]) -> (Token<'a>, &'a [u8])
    ensures { read (meant result.0) result.1.now ≡ read (word (slice_index line.now 0) (front continues line.now)) (after continues line.now) }
{
    let (word, rest) = line.split_at(run_len(line, continues_name));
    if word.len() <= 31 {
        (Token::Name(word), rest)
    } else {
        (Token::Sign(line[0]), rest)
    }
}

// The first byte and the digits after it.
fn number_token<'a>(line: &'a [u8]) -> (Token<'a>, &'a [u8])
    requires { 0 < length line.now }
    ensures { read (meant result.0) result.1.now ≡ read (number (numeral (slice_index line.now 0 ∷ front digit (drop 1 line.now)))) (after digit (drop 1 line.now)) }
{
    let (digits, rest) = line.split_at(1 + run_len(&line[1..], |byte| byte.is_ascii_digit()));
    (Token::Number(digits), rest)
}

// The token that begins at the first byte, which is no blank.
fn token_at<'a>(line: &'a [u8]) -> (Token<'a>, &'a [u8])
    requires { 0 < length line.now }
    ensures { read (meant result.0) result.1.now ≡ token_of line.now }
{
    let first = line[0];
    if starts_name(first) {
        return name_token(line);
    }
    if begins_number(line) {
        return number_token(line);
    }
    match first {
        b'\'' => quoted_token(line),
        b'"' => text_token(&line[1..]),
        _ => (Token::Sign(first), &line[1..]),
    }
}

// The token after the blanks; none at the line's end or a comment.
// Stays: a function of its own, since the second clause of next_token is proved from this one.
fn first_token<'a>(line: &'a [u8]) -> Option<(Token<'a>, &'a [u8])>
    ensures { MatchOption result (next_read line.now ≡ None) (λ p. next_read line.now ≡ Some (read (meant p.0) p.1.now)) }
{
    let (_, rest) = line.split_at(run_len(line, is_blank));
    match rest {
        [] | [b';' | b'#', ..] => None,
        _ => Some(token_at(rest)),
    }
}

// The first token of what is left of a line, and the rest.
// Stays: beside `Tokens`, a rule of the project asks for a token reader that answers token and rest as a pair.
pub fn next_token<'a>(line: &'a [u8]) -> Option<(Token<'a>, &'a [u8])>
    ensures read { MatchOption result (next_read line.now ≡ None) (λ p. next_read line.now ≡ Some (read (meant p.0) p.1.now)) }
    ensures tokens { MatchOption result (tokens line.now ≡ []) (λ p. (tokens line.now ≡ meant p.0 ∷ tokens p.1.now) × (length p.1.now < length line.now) × (span (meant p.0) + length p.1.now ≤ length line.now)) }
{
    first_token(line)
}

// The tokens of a line, in order.
#[derive(Drop)]
pub struct Tokens<'a> {
    rest: &'a [u8],
}

impl<'a> Tokens<'a> {
    #[tactic(auto, using(crate::proofs::Tokened::tokens_count))]
    pub fn new(line: &'a [u8]) -> Tokens<'a>
        ensures tokens { tokens_left result ≡ tokens line.now }
        ensures count { length (tokens_left result) ≤ length line.now }
    {
        Tokens { rest: line }
    }
}

impl<'a> Iterator for Tokens<'a> {
    type Item = Token<'a>;

    ghost next_gives = { YieldsFirstBy meant tokens_left };

    ghost remaining = { item_count tokens_left };

    fn next(&mut self) -> Option<Token<'a>> {
        let (token, rest) = next_token(self.rest)?;
        self.rest = rest;
        Some(token)
    }
}
