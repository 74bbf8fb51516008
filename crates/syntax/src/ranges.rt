// The ranges of a line's numbers.
ghost use Rattle.std.specs.Prelude.{◌≡◌, ℤ, pos};
ghost use Rattle.decimal.specs.Numbers.{numeral, cell_range};
ghost use Rattle.isa.specs.Table.{operand};
ghost use Rattle.syntax.specs.Tokens.{tokens};
ghost use Rattle.syntax.specs.Ranges.{within, items_range, figure_range, figures_range, range};
ghost use Rattle.syntax.specs.Meant.{meant};
ghost use Rattle.syntax.specs.Stated.{argued, stated};

use crate::statements::{Argument, Statement};
use crate::tokens::{Token, Tokens};
use decimal::cell_number;
use isa::{Opcode, Operand, operand_of};

// Has a number 32 signed bits?
fn is_cell(number: &[u8]) -> bool
    ensures { result ≡ cell_range (numeral number.now) }
{
    cell_number(number).is_some()
}

// Is a number within bounds?
fn is_within(number: &[u8], low: u16, high: u16) -> bool
    ensures { result ≡ within (pos low) (pos high) (numeral number.now) }
{
    cell_number(number).is_some_and(|n| (i32::from(low)..=i32::from(high)).contains(&n))
}

// A count goes from 0 to 1,000, and any other number has 32 signed bits.
fn is_argument(op: Opcode, argument: Option<Argument>) -> bool
    ensures { result ≡ items_range (operand op) (argued argument.entry) }
{
    match argument {
        Some(Argument::Number(number)) => match operand_of(op) {
            Operand::Count => is_within(number, 0, 1000),
            _ => is_cell(number),
        },
        _ => true,
    }
}

fn is_figure(token: Token) -> bool
    ensures { result ≡ figure_range (meant token.entry) }
{
    match token {
        Token::Number(number) => is_cell(number),
        _ => true,
    }
}

// Have the numbers of a list 32 signed bits?
fn are_figures(list: &[u8]) -> bool
    ensures { result ≡ figures_range (tokens list.now) }
{
    Tokens::new(list).all(is_figure)
}

// Are all numbers of a statement in range? A unit has 0 to 255 arguments and 0 or 1 results, and DUP makes 1 to
// 1,000 copies.
pub fn in_range(statement: Statement) -> bool
    ensures { result ≡ range (stated statement.entry) }
{
    match statement {
        Statement::Unit(_, arguments, results) => is_within(arguments, 0, 255)
            && is_within(results, 0, 1),
        Statement::Instruction(_, op, argument) => is_argument(op, argument),
        Statement::Words(_, list) => are_figures(list),
        Statement::Copies(_, count, number) => is_within(count, 1, 1000) && is_cell(number),
        Statement::Empty | Statement::Enter(_) => true,
    }
}
