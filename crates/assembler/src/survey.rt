ghost use Rattle.std.specs.Prelude.{◌≡◌, ℕ, ◌+◌, ◌*◌, ◌<◌, ◌≤◌, not, List, map, length, MatchResult};
ghost use Rattle.assembler.specs.Assembly.{forms};
ghost use Rattle.assembler.specs.Marks.{Mark, Entry, entry, mark};
ghost use Rattle.assembler.specs.Progress.{Bounded, Kept, KeptBoth, Small, Stepped, entries, marks, survey_of, surveyed_to};
ghost use Rattle.assembler.specs.Survey.{Step, adding, declaring, demand, entered, extent, grown, is_code, octet, putting, step, stop, survey, taken};
ghost use Rattle.program.specs.Names.{smalls};
ghost use Rattle.program.specs.declared.fault.AssemblyCause.TheVariants.{LateUnit, WrongSection};
ghost use Rattle.decimal.specs.Numbers.{numeral};
ghost use Rattle.slots.specs.Items.{room};
ghost use Rattle.syntax.specs.Forms.{form};
ghost use Rattle.syntax.specs.Limits.{Limited, ShortLabel};
ghost use Rattle.syntax.specs.Stated.{label_of, stated};

use crate::layout::address_of;
use crate::lists::Lists;
use crate::named::add;
use crate::tally::{LineCause, Tally};
use decimal::cell_number;
use program::{AssemblyCause, Label, Name, Section, Unit};
use slots::SlotList;
use syntax::{Lines, Statement, cells_of, in_range, statement_of};

impl Tally {
    // How many cells the section at hand has.
    fn extent(self) -> usize
        ensures { result ≡ extent self self.section }
    {
        match self.section {
            Section::Code => self.code,
            Section::Data => self.data,
            Section::Heap => self.heap,
        }
    }

    // Does the section at hand hold code?
    fn is_code(self) -> bool
        ensures { result ≡ is_code self.section }
    {
        self.section == Section::Code
    }

    // n more cells in the section at hand.
    // Stays: here and below `few` and `short` bound one number and one word; a type for either would carry no more.
    fn grow(self, n: usize) -> Tally
        requires small { Small self 1000000000 }
        requires few { n ≤ 1000 }
        ensures is { result ≡ grown self n }
        ensures grows { (m : ℕ) → Small self m → Small result (m + 1000) }
    {
        let mut tally = self;
        tally.begun = true;
        match tally.section {
            Section::Code => tally.code += n,
            Section::Data => tally.data += n,
            Section::Heap => tally.heap += n,
        }
        tally
    }

    // Lines of another section follow.
    fn enter(self, section: Section) -> Tally
        ensures is { result ≡ entered self section }
        ensures grows { (m : ℕ) → Small self m → Small result (m + 1000) }
    {
        Tally {
            section,
            begun: true,
            ..self
        }
    }
}

// A number of a .UNIT line, which is below 256.
// Stays: 0 where in_range has refused before, as the definitions have it.
fn octet_of(number: &[u8]) -> u8
    ensures { result ≡ octet (numeral number.now) }
{
    cell_number(number)
        .and_then(|n| u8::try_from(n).ok())
        .unwrap_or(0)
}

// A label at the end of the section at hand.
// Stays: what this and `add_unit` share is in `add`, and the rest is the record that each makes of the name.
fn add_label(tally: Tally, labels: &mut SlotList<Label>, word: &[u8]) -> Result<(), AssemblyCause>
    requires small { Small tally 1000000000 }
    requires short { length word.now ≤ 31 }
    ensures added { MatchResult result (λ _. (on : List Mark → Step) → adding (room labels.old) (map (λ l. l.name) (marks labels.old)) (marks labels.old) (smalls word.now) (mark (smalls word.now) tally.section (extent tally tally.section)) on ≡ on (marks labels.new)) (λ e. (on : List Mark → Step) → adding (room labels.old) (map (λ l. l.name) (marks labels.old)) (marks labels.old) (smalls word.now) (mark (smalls word.now) tally.section (extent tally tally.section)) on ≡ stop e) }
    ensures kept { Kept labels.old labels.new }
{
    let name = Name::new(word).ok_or(AssemblyCause::NoForm)?;
    let address = address_of(tally.extent());
    add(
        labels,
        word,
        Label {
            name,
            section: tally.section,
            address,
        },
    )
}

// One more unit.
fn add_unit(
    units: &mut SlotList<Unit>,
    word: &[u8],
    arguments: u8,
    results: u8,
) -> Result<(), AssemblyCause>
    requires { length word.now ≤ 31 }
    ensures added { MatchResult result (λ _. (on : List Entry → Step) → adding (room units.old) (map (λ u. u.name) (entries units.old)) (entries units.old) (smalls word.now) (entry (smalls word.now) 0 arguments results) on ≡ on (entries units.new)) (λ e. (on : List Entry → Step) → adding (room units.old) (map (λ u. u.name) (entries units.old)) (entries units.old) (smalls word.now) (entry (smalls word.now) 0 arguments results) on ≡ stop e) }
    ensures kept { Kept units.old units.new }
{
    let name = Name::new(word).ok_or(AssemblyCause::NoForm)?;
    add(
        units,
        word,
        Unit {
            name,
            // Stays: 0 until open_units gives the entry; a record of a unit has no third state.
            entry: 0,
            arguments,
            results,
        },
    )
}

impl Lists<'_, '_, '_> {
    // n cells, at a label or not.
    fn put_cells(
        &mut self,
        tally: Tally,
        label: Option<&[u8]>,
        n: usize,
    ) -> Result<Tally, AssemblyCause>
        requires small { Small tally 1000000000 }
        requires short_label { ShortLabel (label_of label) }
        requires few { n ≤ 1000 }
        ensures { Stepped self.old self.new tally result (putting (room self.old.labels.now) (room self.old.units.now) (survey_of tally self.old) (label_of label.entry) n) }
    {
        if let Some(word) = label {
            add_label(tally, self.labels, word)?;
        }
        Ok(tally.grow(n))
    }

    // n cells where the section allows them.
    // Stays: `allowed` picks no step; it is the test of `demand` in the definition, whose refusal three callers share.
    fn put_allowed(
        &mut self,
        allowed: bool,
        tally: Tally,
        label: Option<&[u8]>,
        n: usize,
    ) -> Result<Tally, AssemblyCause>
        requires small { Small tally 1000000000 }
        requires short_label { ShortLabel (label_of label) }
        requires few { n ≤ 1000 }
        ensures { Stepped self.old self.new tally result (demand allowed WrongSection (putting (room self.old.labels.now) (room self.old.units.now) (survey_of tally self.old) (label_of label.entry) n)) }
    {
        if !allowed {
            return Err(AssemblyCause::WrongSection);
        }
        self.put_cells(tally, label, n)
    }

    // A unit's line, which comes before all others of its text.
    fn declare(
        &mut self,
        tally: Tally,
        word: &[u8],
        arguments: &[u8],
        results: &[u8],
    ) -> Result<Tally, AssemblyCause>
        requires { length word.now ≤ 31 }
        ensures { Stepped self.old self.new tally result (demand (not tally.begun) LateUnit (declaring (room self.old.labels.now) (room self.old.units.now) (survey_of tally self.old) (smalls word.now) (octet (numeral arguments.now)) (octet (numeral results.now)))) }
    {
        if tally.begun {
            return Err(AssemblyCause::LateUnit);
        }
        add_unit(self.units, word, octet_of(arguments), octet_of(results))?;
        Ok(tally)
    }

    // A statement whose numbers are in range.
    fn take_statement(&mut self, statement: Statement, tally: Tally) -> Result<Tally, AssemblyCause>
        requires small { Small tally 1000000000 }
        requires limited { Limited (stated statement) }
        ensures { Stepped self.old self.new tally result (taken (room self.old.labels.now) (room self.old.units.now) (survey_of tally self.old) (stated statement.entry)) }
    {
        let n = cells_of(statement);
        let code = tally.is_code();
        match statement {
            Statement::Empty => Ok(tally),
            Statement::Enter(section) => Ok(tally.enter(section)),
            Statement::Unit(name, arguments, results) => self.declare(
                tally, name, arguments, results,
            ),
            Statement::Instruction(label, _, _) => self.put_allowed(code, tally, label, n),
            Statement::Words(label, _) => self.put_allowed(!code, tally, label, n),
            Statement::Copies(label, _, _) => self.put_allowed(!code, tally, label, n),
        }
    }

    // One line.
    fn survey_line(&mut self, line: &[u8], tally: Tally) -> Result<Tally, AssemblyCause>
        requires { Small tally 1000000000 }
        ensures { Stepped self.old self.new tally result (step (room self.old.labels.now) (room self.old.units.now) (survey_of tally self.old) (form line.now)) }
    {
        let statement = statement_of(line)?;
        if !in_range(statement) {
            return Err(AssemblyCause::NumberRange);
        }
        self.take_statement(statement, tally)
    }

    // The lines of a text, in order; or the first faulty line and its cause.
    pub(crate) fn survey_text(&mut self, text: &[u8], start: Tally) -> Result<Tally, LineCause>
        requires short { length text.now ≤ 65536 }
        requires small { Small start 100000000 }
        ensures survey { surveyed_to result self.new ≡ survey (room self.old.labels.now) (room self.old.units.now) 1 (survey_of start self.old) (forms text.now) }
        ensures kept { KeptBoth self.old self.new }
        ensures grows { Bounded start result }
    {
        let mut tally = start;
        for (line, number) in Lines::new(text).zip(1..) {
            tally = self.survey_line(line, tally).map_err(|cause| LineCause {
                line: number,
                cause,
            })?;
        }
        Ok(tally)
    }
}
