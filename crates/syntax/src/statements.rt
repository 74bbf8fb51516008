ghost use Rattle.std.specs.Prelude.{◌≡◌, ℕ, ◌<◌, ◌≤◌, Bool, true, false, ◌&&◌, List, [], ◌∷◌, length, ℤ, Some, MatchOption, nat_le};
ghost use Rattle.program.specs.Names.{smalls};
ghost use Rattle.decimal.specs.Numbers.{numeral};
ghost use Rattle.isa.specs.declared.opcode.Operand.TheVariants.{Value};
ghost use Rattle.syntax.specs.Bytes.{every, plain};
ghost use Rattle.syntax.specs.Tokens.{Tok, tokens};
ghost use Rattle.syntax.specs.Forms.{Form, Item, unfit, then_name, then_number, then_sign, then_further, ended, unit_form, section_of_name, directive, then_argument, instruction_form, is_dup_token, is_sign_token, copies_form, is_item_token, is_list, listed, data_form, operation, labelled, spelled, form};
ghost use Rattle.syntax.specs.Limits.{Limited};
ghost use Rattle.syntax.specs.Meant.{meant};
ghost use Rattle.syntax.specs.Stated.{stated, formed, label_of, item_of, argued, line_form};
ghost use Rattle.syntax.specs.Causes.{line_cause};

use crate::bytes::is_plain;
use crate::tokens::{Token, Tokens, next_token};
use isa::{Opcode, Operand, opcode_named, operand_of};
use program::{AssemblyCause, Section, is_word};

// What stands after an instruction's mnemonic, if anything does.
#[derive(Clone, Copy)]
pub enum Argument<'a> {
    Number(&'a [u8]),
    Label(&'a [u8]),
}

// What a line says: nothing; a section begins; a unit's name, arguments and results; an instruction's label, opcode
// and argument; the label of DW and the list after it; the label of DW, and the count and number of k DUP(n).
// Names, numbers and lists borrow their bytes from the line.
#[derive(Clone, Copy)]
pub enum Statement<'a> {
    // Stays: a blank line is a statement that does nothing, not the lack of one.
    Empty,
    Enter(Section),
    Unit(&'a [u8], &'a [u8], &'a [u8]),
    Instruction(Option<&'a [u8]>, Opcode, Option<Argument<'a>>),
    Words(Option<&'a [u8]>, &'a [u8]),
    Copies(Option<&'a [u8]>, &'a [u8], &'a [u8]),
}

// Why a line is no statement: it is over 255 bytes long or has a byte that may not stand in a line, or it fits no
// form.
#[derive(Clone, Copy, PartialEq, Eq)]
pub enum LineFault {
    Bytes,
    Form,
}

// The cause with which an assembly refuses such a line.
impl From<LineFault> for AssemblyCause {
    ghost from_gives = { λ fault cause. cause ≡ line_cause fault };

    fn from(fault: LineFault) -> AssemblyCause {
        match fault {
            LineFault::Bytes => AssemblyCause::LineBytes,
            LineFault::Form => AssemblyCause::NoForm,
        }
    }
}

// Stays: each reader hands on the rest, as next_token does; methods of Tokens would promise by what is left in it.
// Stays: take_name, take_number and take_value are one match each; one reader with a closure would keep all three.
fn take_name<'a>(line: &'a [u8]) -> Option<(&'a [u8], &'a [u8])>
    ensures { MatchOption result ((k : List ℕ → List Tok → Form) → then_name (tokens line.now) k ≡ unfit) (λ p. (k : List ℕ → List Tok → Form) → then_name (tokens line.now) k ≡ k (smalls p.0.now) (tokens p.1.now)) }
{
    match next_token(line) {
        Some((Token::Name(name), rest)) => Some((name, rest)),
        _ => None,
    }
}

fn take_number<'a>(line: &'a [u8]) -> Option<(&'a [u8], &'a [u8])>
    ensures { MatchOption result ((k : ℤ → List Tok → Form) → then_number (tokens line.now) k ≡ unfit) (λ p. (k : ℤ → List Tok → Form) → then_number (tokens line.now) k ≡ k (numeral p.0.now) (tokens p.1.now)) }
{
    match next_token(line) {
        Some((Token::Number(digits), rest)) => Some((digits, rest)),
        _ => None,
    }
}

fn take_sign<'a>(line: &'a [u8], sign: u8) -> Option<&'a [u8]>
    ensures { MatchOption result ((k : List Tok → Form) → then_sign sign (tokens line.now) k ≡ unfit) (λ p. (k : List Tok → Form) → then_sign sign (tokens line.now) k ≡ k (tokens p.now)) }
{
    match next_token(line) {
        Some((Token::Sign(found), rest)) if found == sign => Some(rest),
        _ => None,
    }
}

fn only<'a>(line: &'a [u8], statement: Statement<'a>) -> Option<Statement<'a>>
    ensures { formed result ≡ ended (tokens line.now) (stated statement.entry) }
{
    next_token(line).is_none().then_some(statement)
}

// A comma and a number.
fn take_further<'a>(line: &'a [u8]) -> Option<(&'a [u8], &'a [u8])>
    ensures { MatchOption result ((k : ℤ → List Tok → Form) → then_further (tokens line.now) k ≡ unfit) (λ p. (k : ℤ → List Tok → Form) → then_further (tokens line.now) k ≡ k (numeral p.0.now) (tokens p.1.now)) }
{
    take_number(take_sign(line, b',')?)
}

// NAME, m, r.
fn unit_statement<'a>(line: &'a [u8]) -> Option<Statement<'a>>
    ensures { formed result ≡ unit_form (tokens line.now) }
{
    let (name, line) = take_name(line)?;
    let (arguments, line) = take_further(line)?;
    let (results, line) = take_further(line)?;
    only(line, Statement::Unit(name, arguments, results))
}

fn section_named(word: &[u8]) -> Option<Section>
    ensures { result ≡ section_of_name (smalls word.now) }
{
    if is_word(word, b"code") {
        Some(Section::Code)
    } else if is_word(word, b"data") {
        Some(Section::Data)
    } else if is_word(word, b"heap") {
        Some(Section::Heap)
    } else {
        None
    }
}

// What follows a dot.
#[tactic(auto, using(crate::proofs::Directives::unit_directive))]
fn directive_statement<'a>(line: &'a [u8]) -> Option<Statement<'a>>
    ensures { formed result ≡ directive (tokens line.now) }
{
    let (word, line) = take_name(line)?;
    if is_word(word, b"unit") {
        return unit_statement(line);
    }
    only(line, Statement::Enter(section_named(word)?))
}

// A number or a label.
fn take_value<'a>(line: &'a [u8]) -> Option<(Argument<'a>, &'a [u8])>
    ensures { MatchOption result ((k : List Item → List Tok → Form) → then_argument Value (tokens line.now) k ≡ unfit) (λ p. (k : List Item → List Tok → Form) → then_argument Value (tokens line.now) k ≡ k (item_of p.0 ∷ []) (tokens p.1.now)) }
{
    match next_token(line) {
        Some((Token::Number(digits), rest)) => Some((Argument::Number(digits), rest)),
        Some((Token::Name(name), rest)) => Some((Argument::Label(name), rest)),
        _ => None,
    }
}

// An argument of the kind that an instruction takes.
fn take_argument<'a>(wanted: Operand, line: &'a [u8]) -> Option<(Option<Argument<'a>>, &'a [u8])>
    ensures { MatchOption result ((k : List Item → List Tok → Form) → then_argument wanted (tokens line.now) k ≡ unfit) (λ p. (k : List Item → List Tok → Form) → then_argument wanted (tokens line.now) k ≡ k (argued p.0) (tokens p.1.now)) }
{
    match wanted {
        Operand::Absent => Some((None, line)),
        Operand::Value => {
            let (value, line) = take_value(line)?;
            Some((Some(value), line))
        }
        Operand::Target => {
            let (name, line) = take_name(line)?;
            Some((Some(Argument::Label(name)), line))
        }
        Operand::Count | Operand::Number => {
            let (digits, line) = take_number(line)?;
            Some((Some(Argument::Number(digits)), line))
        }
    }
}

// An instruction and its argument.
fn instruction<'a>(label: Option<&'a [u8]>, op: Opcode, line: &'a [u8]) -> Option<Statement<'a>>
    ensures { formed result ≡ instruction_form (label_of label.entry) op (tokens line.now) }
{
    let (argument, line) = take_argument(operand_of(op), line)?;
    only(line, Statement::Instruction(label, op, argument))
}

fn is_dup(token: Token) -> bool
    ensures { result ≡ is_dup_token (meant token.entry) }
{
    matches!(token, Token::Name(name) if is_word(name, b"dup"))
}

fn copies<'a>(label: Option<&'a [u8]>, count: &'a [u8], line: &'a [u8]) -> Option<Statement<'a>>
    ensures { formed result ≡ copies_form (label_of label.entry) (numeral count.now) (tokens line.now) }
{
    let line = take_sign(line, b'(')?;
    let (number, line) = take_number(line)?;
    let line = take_sign(line, b')')?;
    only(line, Statement::Copies(label, count, number))
}

// Is a token an item of DW?
fn is_item(token: Token) -> bool
    ensures { result ≡ is_item_token (meant token.entry) }
{
    !matches!(token, Token::Sign(_))
}

fn is_sign(token: Token, sign: u8) -> bool
    ensures { result ≡ is_sign_token sign (meant token.entry) }
{
    matches!(token, Token::Sign(found) if found == sign)
}

// Are these one item or more, with commas between?
fn are_items(line: &[u8]) -> bool
    ensures { result ≡ is_list (tokens line.now) }
{
    let mut item_due = true;
    for token in Tokens::new(line) {
        let fits = if item_due {
            is_item(token)
        } else {
            is_sign(token, b',')
        };
        if !fits {
            return false;
        }
        item_due = !item_due;
    }
    !item_due
}

fn words<'a>(label: Option<&'a [u8]>, line: &'a [u8]) -> Option<Statement<'a>>
    ensures { formed result ≡ listed (label_of label.entry) (tokens line.now) }
{
    are_items(line).then_some(Statement::Words(label, line))
}

// DW: a list of items, or k DUP(n).
fn data_statement<'a>(label: Option<&'a [u8]>, line: &'a [u8]) -> Option<Statement<'a>>
    ensures { formed result ≡ data_form (label_of label.entry) (tokens line.now) }
{
    let (first, rest) = next_token(line)?;
    match next_token(rest) {
        Some((second, rest)) if is_dup(second) => match first {
            Token::Number(count) => copies(label, count, rest),
            _ => None,
        },
        _ => words(label, line),
    }
}

// DW or an instruction, after its label if it has one.
fn operation_statement<'a>(
    label: Option<&'a [u8]>,
    word: &'a [u8],
    line: &'a [u8],
) -> Option<Statement<'a>>
    ensures { formed result ≡ operation (label_of label.entry) (smalls word.now) (tokens line.now) }
{
    if is_word(word, b"dw") {
        return data_statement(label, line);
    }
    let op = opcode_named(word)?;
    instruction(label, op, line)
}

// What follows a label and its colon.
fn labelled_statement<'a>(label: &'a [u8], line: &'a [u8]) -> Option<Statement<'a>>
    ensures { formed result ≡ then_name (tokens line.now) (operation (Some (smalls label.now))) }
{
    let (word, line) = take_name(line)?;
    operation_statement(Some(label), word, line)
}

// A line that begins with a name: its label if a colon follows, else the word itself.
fn named_statement<'a>(word: &'a [u8], line: &'a [u8]) -> Option<Statement<'a>>
    ensures { formed result ≡ labelled (smalls word.now) (tokens line.now) }
{
    match next_token(line) {
        Some((Token::Sign(b':'), rest)) => labelled_statement(word, rest),
        _ => operation_statement(None, word, line),
    }
}

// The statement that a line's tokens spell.
fn spelled_statement<'a>(line: &'a [u8]) -> Option<Statement<'a>>
    ensures { formed result ≡ spelled (tokens line.now) }
{
    match next_token(line) {
        None => Some(Statement::Empty),
        Some((Token::Sign(b'.'), rest)) => directive_statement(rest),
        Some((Token::Name(word), rest)) => named_statement(word, rest),
        Some(_) => None,
    }
}

// Has the line at most 255 bytes, which may all stand in a line?
fn is_lawful(line: &[u8]) -> bool
    ensures { result ≡ (nat_le (length line.now) 255 && every plain line.now) }
{
    line.len() <= 255 && line.iter().all(|byte| is_plain(*byte))
}

// The statement of a line.
pub fn statement_of<'a>(line: &'a [u8]) -> Result<Statement<'a>, LineFault>
    ensures form { line_form result ≡ form line.now }
    ensures limited { Limited (line_form result) }
{
    if !is_lawful(line) {
        return Err(LineFault::Bytes);
    }
    spelled_statement(line).ok_or(LineFault::Form)
}
