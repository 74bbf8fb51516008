ghost use Rattle.std.specs.Prelude.{◌≡◌, ℕ, ◌-◌, ◌<◌, ◌≤◌, List, [], ◌∷◌, length, drop, Some, None, MatchOption};
ghost use Rattle.syntax.specs.Bytes.{front, after};
ghost use Rattle.syntax.specs.Lines.{lines, line_at, not_end};
ghost use Rattle.syntax.specs.Left.{lines_left};
ghost use Rattle.std.specs.Iterator.{YieldsFirstRef, item_count};

use crate::bytes::run_len;

// The bytes before the first byte 10, and those after it.
fn cut_line<'a>(text: &'a [u8]) -> (&'a [u8], &'a [u8])
    ensures line { result.0.now ≡ front not_end text.now }
    ensures rest { result.1.now ≡ drop 1 (after not_end text.now) }
    ensures shorter { length result.1.now ≤ length text.now - 1 }
{
    let (line, rest) = text.split_at(run_len(text, |byte| byte != b'\n'));
    (line, rest.get(1..).unwrap_or(rest))
}

// The first line of a text, without its byte 10, and the text after it.
pub fn next_line<'a>(text: &'a [u8]) -> Option<(&'a [u8], &'a [u8])>
    ensures parts { MatchOption result (text.now ≡ []) (λ p. (p.0.now ≡ front not_end text.now) × (p.1.now ≡ drop 1 (after not_end text.now))) }
    ensures lines { MatchOption result (lines text.now ≡ []) (λ p. lines text.now ≡ p.0.now ∷ lines p.1.now) }
    ensures shorter { MatchOption result (length text.now ≡ 0) (λ p. length p.1.now < length text.now) }
{
    (!text.is_empty()).then(|| cut_line(text))
}

// The line of this number, counted from 1.
pub fn line_in<'a>(text: &'a [u8], number: usize) -> Option<&'a [u8]>
    ensures { MatchOption result (line_at number (lines text.now) ≡ None) (λ l. line_at number (lines text.now) ≡ Some l.now) }
{
    Lines::new(text).nth(number.checked_sub(1)?)
}

// The lines of a text, in order.
#[derive(Drop)]
pub struct Lines<'a> {
    rest: &'a [u8],
}

impl<'a> Lines<'a> {
    #[tactic(auto, using(crate::proofs::Cuts::lines_count))]
    pub fn new(text: &'a [u8]) -> Lines<'a>
        ensures lines { lines_left result ≡ lines text.now }
        ensures count { length (lines_left result) ≤ length text.now }
    {
        Lines { rest: text }
    }
}

impl<'a> Iterator for Lines<'a> {
    type Item = &'a [u8];

    ghost next_gives = { YieldsFirstRef lines_left };

    ghost remaining = { item_count lines_left };

    fn next(&mut self) -> Option<&'a [u8]> {
        let (line, rest) = next_line(self.rest)?;
        self.rest = rest;
        Some(line)
    }
}
