// How many cells a line takes.
ghost use Rattle.std.specs.Prelude.{◌≡◌, ℕ, ◌≤◌, length};
ghost use Rattle.decimal.specs.Numbers.{numeral};
ghost use Rattle.syntax.specs.Tokens.{tokens};
ghost use Rattle.syntax.specs.Cells.{cells, span, spans, times};
ghost use Rattle.syntax.specs.Meant.{meant};
ghost use Rattle.syntax.specs.Stated.{stated, argued};

use crate::statements::Statement;
use crate::tokens::{Token, Tokens};
use decimal::cell_number;

fn span_of(token: Token) -> usize
    ensures { result ≡ span (meant token.entry) }
{
    match token {
        Token::Text(text) => text.len(),
        Token::Sign(_) => 0,
        _ => 1,
    }
}

// How many cells a list takes: no more than its bytes.
fn cells_in(list: &[u8]) -> usize
    ensures is { result ≡ spans (tokens list.now) }
    ensures within { result ≤ length list.now }
{
    Tokens::new(list).map(span_of).sum()
}

// How many copies a count asks for, up to 1,000; a count out of range asks for none.
fn copies_in(count: &[u8]) -> usize
    ensures { result ≡ times (numeral count.now) }
{
    cell_number(count)
        .and_then(|k| usize::try_from(k).ok())
        .filter(|k| *k <= 1000)
        .unwrap_or(0)
}

// How many cells a statement takes.
pub fn cells_of(statement: Statement) -> usize
    ensures { result ≡ length (cells (stated statement.entry)) }
{
    match statement {
        Statement::Instruction(_, _, argument) => 1 + usize::from(argument.is_some()),
        Statement::Words(_, list) => cells_in(list),
        Statement::Copies(_, count, _) => copies_in(count),
        Statement::Empty | Statement::Enter(_) | Statement::Unit(_, _, _) => 0,
    }
}
