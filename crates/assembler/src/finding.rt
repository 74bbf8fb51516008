// Names and the labels that they stand for.
// Stays: labels are one parameter, a slice that `map mark_of` gives its meaning; a struct would hold that slice alone.
ghost use Rattle.assembler.specs.Assembly.{forms};
ghost use Rattle.assembler.specs.Cells.{all_known, resolved, unresolved};
ghost use Rattle.assembler.specs.Marks.{find as find_mark, mark_of};
ghost use Rattle.program.specs.Names.{smalls};
ghost use Rattle.syntax.specs.Cells.{items, items_of};
ghost use Rattle.syntax.specs.Forms.{form};
ghost use Rattle.syntax.specs.Meant.{meant};
ghost use Rattle.syntax.specs.Stated.{argued, stated};
ghost use Rattle.syntax.specs.Tokens.{tokens};
ghost use Rattle.std.specs.Prelude.{◌≡◌, ◌≤◌, map, length, is_some};

use program::Label;
use syntax::{Argument, Lines, Statement, Token, Tokens, statement_of};

// The address of the label of that name.
pub(crate) fn find(labels: &[Label], word: &[u8]) -> Option<u32>
    ensures { result ≡ find_mark (smalls word.now) (map mark_of labels.now) }
{
    labels
        .iter()
        .find(|label| label.name.is(word))
        .map(|label| label.address)
}

fn is_known(labels: &[Label], word: &[u8]) -> bool
    ensures { result ≡ is_some (find_mark (smalls word.now) (map mark_of labels.now)) }
{
    find(labels, word).is_some()
}

fn is_token_known(labels: &[Label], token: Token) -> bool
    ensures { result ≡ all_known (map mark_of labels.now) (items_of (meant token.entry)) }
{
    match token {
        Token::Name(name) => is_known(labels, name),
        _ => true,
    }
}

// Have all names of a list a label?
fn is_list_known(labels: &[Label], list: &[u8]) -> bool
    ensures { result ≡ all_known (map mark_of labels.now) (items (tokens list.now)) }
{
    Tokens::new(list).all(|token| is_token_known(labels, token))
}

fn is_argument_known(labels: &[Label], argument: Option<Argument>) -> bool
    ensures { result ≡ all_known (map mark_of labels.now) (argued argument.entry) }
{
    match argument {
        Some(Argument::Label(name)) => is_known(labels, name),
        _ => true,
    }
}

// Have all names that a statement uses a label?
fn is_resolved(labels: &[Label], statement: Statement) -> bool
    ensures { result ≡ resolved (map mark_of labels.now) (stated statement.entry) }
{
    match statement {
        Statement::Unit(name, _, _) => is_known(labels, name),
        Statement::Instruction(_, _, argument) => is_argument_known(labels, argument),
        Statement::Words(_, list) => is_list_known(labels, list),
        _ => true,
    }
}

fn is_line_resolved(labels: &[Label], line: &[u8]) -> bool
    ensures { result ≡ resolved (map mark_of labels.now) (form line.now) }
{
    statement_of(line).map_or(true, |statement| is_resolved(labels, statement))
}

// The first line with a name that has no label.
pub(crate) fn unresolved_in(labels: &[Label], text: &[u8]) -> Option<u32>
    requires { length text.now ≤ 65536 }
    ensures { result ≡ unresolved (map mark_of labels.now) 1 (forms text.now) }
{
    let place = Lines::new(text).position(|line| !is_line_resolved(labels, line))?;
    // Stays: `as u32`; with `try_from` and `unwrap` the answer's place stayed open in the proof.
    Some(place as u32 + 1)
}
