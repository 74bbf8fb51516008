// The cells of a program, written one after another.
// Stays: unlike in `Lists`, one of the two is only read; behind `&mut self` each method must promise that it stays.
ghost use Rattle.assembler.specs.Assembly.{forms};
ghost use Rattle.assembler.specs.Cells.{all, both, cell, in_cell, items_in, same_section, following_section};
ghost use Rattle.assembler.specs.Marks.{find as find_mark, mark_of};
ghost use Rattle.assembler.specs.Progress.{Puts};
ghost use Rattle.decimal.specs.Numbers.{numeral};
ghost use Rattle.isa.specs.Table.{number};
ghost use Rattle.program.specs.Names.{smalls};
ghost use Rattle.program.specs.declared.section.Section.TheVariants.{Code};
ghost use Rattle.syntax.specs.Cells.{cells, items as items_of_tokens, items_of};
ghost use Rattle.syntax.specs.Forms.{byte, form};
ghost use Rattle.syntax.specs.Meant.{meant};
ghost use Rattle.syntax.specs.Stated.{argued, stated};
ghost use Rattle.syntax.specs.Tokens.{tokens};
ghost use Rattle.std.specs.Prelude.{◌≡◌, [], ◌∷◌, map, length, replicate, pos, if◌then◌else◌, unwrap_or};

use crate::layout::entry_of;
use crate::texts::Texts;
use decimal::cell_number;
use isa::{Opcode, code_of};
use program::{Label, Section};
use slots::SlotList;
use syntax::{Argument, Lines, Statement, Token, Tokens, cells_of, statement_of};

// One more cell.
fn put(written: &mut SlotList<i32>, value: i32)
    ensures { Puts written.old written.new (value ∷ []) }
{
    let _ = written.push(value);
}

// The bytes of a text, one to a cell.
fn put_bytes(written: &mut SlotList<i32>, text: &[u8])
    ensures { Puts written.old written.new (map pos text.now) }
{
    for b in text {
        put(written, i32::from(*b));
    }
}

// Copies of a value.
fn put_copies(written: &mut SlotList<i32>, count: usize, value: i32)
    ensures { Puts written.old written.new (replicate count value) }
{
    for _i in 0..count {
        put(written, value);
    }
}

// The number that digits write, in a cell.
// Stays: 0 here and in label_cell where a check has refused before, as the definitions have it.
fn number_cell(digits: &[u8]) -> i32
    ensures { result ≡ in_cell (numeral digits.now) }
{
    cell_number(digits).unwrap_or(0)
}

// The address of a label, in a cell.
fn label_cell(labels: &[Label], word: &[u8]) -> i32
    ensures { result ≡ in_cell (pos (unwrap_or (find_mark (smalls word.now) (map mark_of labels.now)) 0)) }
{
    i32::try_from(entry_of(labels, word)).unwrap_or(0)
}

// A token of a list.
fn put_token(written: &mut SlotList<i32>, labels: &[Label], token: Token)
    ensures { Puts written.old written.new (map (cell (map mark_of labels.now)) (items_of (meant token.entry))) }
{
    match token {
        Token::Name(name) => put(written, label_cell(labels, name)),
        Token::Number(digits) => put(written, number_cell(digits)),
        Token::Character(character) => put(written, i32::from(character)),
        Token::Text(text) => put_bytes(written, text),
        Token::Sign(_) => (),
    }
}

// The list of DW.
fn put_list(written: &mut SlotList<i32>, labels: &[Label], list: &[u8])
    ensures { Puts written.old written.new (map (cell (map mark_of labels.now)) (items_of_tokens (tokens list.now))) }
{
    for token in Tokens::new(list) {
        put_token(written, labels, token);
    }
}

// The argument of an instruction.
fn put_argument(written: &mut SlotList<i32>, labels: &[Label], argument: Option<Argument>)
    ensures { Puts written.old written.new (map (cell (map mark_of labels.now)) (argued argument.entry)) }
{
    match argument {
        None => (),
        Some(Argument::Number(digits)) => put(written, number_cell(digits)),
        Some(Argument::Label(name)) => put(written, label_cell(labels, name)),
    }
}

fn put_instruction(
    written: &mut SlotList<i32>,
    labels: &[Label],
    op: Opcode,
    argument: Option<Argument>,
)
    ensures { Puts written.old written.new (pos (number op) ∷ map (cell (map mark_of labels.now)) (argued argument.entry)) }
{
    put(written, code_of(op));
    put_argument(written, labels, argument);
}

// The cells of a statement.
fn put_statement(written: &mut SlotList<i32>, labels: &[Label], statement: Statement)
    ensures { Puts written.old written.new (map (cell (map mark_of labels.now)) (cells (stated statement.entry))) }
{
    match statement {
        Statement::Instruction(_, op, argument) => put_instruction(written, labels, op, argument),
        Statement::Words(_, list) => put_list(written, labels, list),
        Statement::Copies(_, _, number) => put_copies(
            written,
            cells_of(statement),
            number_cell(number),
        ),
        Statement::Empty | Statement::Enter(_) | Statement::Unit(_, _, _) => (),
    }
}

// The section of the lines after a statement.
fn section_after(section: Section, statement: Statement) -> Section
    ensures { result ≡ following_section section (stated statement.entry) }
{
    match statement {
        Statement::Enter(next) => next,
        _ => section,
    }
}

// The cells of a line, if they are wanted; and the section of the lines after it.
fn put_line(
    written: &mut SlotList<i32>,
    labels: &[Label],
    wanted: bool,
    section: Section,
    line: &[u8],
) -> Section
    ensures cells { Puts written.old written.new (map (cell (map mark_of labels.now)) (if wanted then cells (form line.now) else [])) }
    ensures section { result ≡ following_section section (form line.now) }
{
    let Ok(statement) = statement_of(line) else {
        return section;
    };
    if wanted {
        put_statement(written, labels, statement);
    }
    section_after(section, statement)
}

// The cells of one section of a text.
fn write_section(written: &mut SlotList<i32>, labels: &[Label], want: Section, text: &[u8])
    ensures { Puts written.old written.new (map (cell (map mark_of labels.now)) (items_in want Code (forms text.now))) }
{
    let mut section = Section::Code;
    for line in Lines::new(text) {
        section = put_line(written, labels, section == want, section, line);
    }
}

// All cells of a program.
pub(crate) fn write_all(written: &mut SlotList<i32>, labels: &[Label], texts: Texts)
    ensures { Puts written.old written.new (map (cell (map mark_of labels.now)) (all (forms texts.entry.site.now) (forms texts.entry.library.now))) }
{
    for want in [Section::Code, Section::Data, Section::Heap] {
        write_section(written, labels, want, texts.site);
        write_section(written, labels, want, texts.library);
    }
}
