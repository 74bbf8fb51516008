// The passes over both texts.
ghost use Rattle.std.specs.Prelude.{◌≡◌, [], map, length};
ghost use Rattle.assembler.specs.Assembly.{first, fitted, forms};
ghost use Rattle.assembler.specs.Builds.{Builds, Fresh, Links, Made, Surveys, Tallied};
ghost use Rattle.assembler.specs.Cells.{both};
ghost use Rattle.assembler.specs.Marks.{mark_of};
ghost use Rattle.assembler.specs.Progress.{Kept, Small, entries, marks};
ghost use Rattle.assembler.specs.Survey.{extent, surveyed};
ghost use Rattle.program.specs.Programs.{Lawful};
ghost use Rattle.program.specs.declared.section.Section.{Section as SectionKind};
ghost use Rattle.slots.specs.Items.{items, room};

use crate::finding::unresolved_in;
use crate::layout::{lay_out, open_units};
use crate::lists::Lists;
use crate::tally::Tally;
use crate::texts::Texts;
use crate::writing::write_all;
use program::{Assembled, AssemblyCause, Counts, Fault, Label, Place, Text, Unit};
use slots::SlotList;

// The lines of both texts.
fn survey_texts(
    texts: Texts,
    labels: &mut SlotList<Label>,
    units: &mut SlotList<Unit>,
) -> Result<Tally, Fault>
    requires no_labels { marks labels.old ≡ [] }
    requires no_units { entries units.old ≡ [] }
    ensures surveys { Surveys (forms texts.entry.site.now) (forms texts.entry.library.now) (room labels.old) (room units.old) result (marks labels.new) (entries units.new) }
    ensures small { Tallied result }
    ensures labels { Kept labels.old labels.new }
    ensures units { Kept units.old units.new }
{
    let mut lists = Lists { labels, units };
    lists.survey_both(texts)
}

// Has every name a label? Else the first line with one that has none is refused.
fn check_names(labels: &[Label], texts: Texts) -> Result<(), Fault>
    ensures { Links result (forms texts.entry.site.now) (forms texts.entry.library.now) (map mark_of labels.now) }
{
    if let Some(line) = unresolved_in(labels, texts.site) {
        return Err(Fault::Assembly(AssemblyCause::NoLabel, Place::Line(Text::Site, line)));
    }
    if let Some(line) = unresolved_in(labels, texts.library) {
        return Err(Fault::Assembly(AssemblyCause::NoLabel, Place::Line(Text::Library, line)));
    }
    Ok(())
}

// The program of counts that are lawful.
fn finished(counts: Counts) -> Result<Assembled, Fault>
    requires { Lawful counts }
    ensures { Made result counts }
{
    Assembled::new(counts).ok_or(Fault::Assembly(
        AssemblyCause::ProgramSize,
        Place::Line(Text::Site, 0),
    ))
}

// Surveyed lines become a program, if it fits its memory and every name has a label.
// Stays: a struct that owned the lists left open how lent slots end; one that borrows must say of each that it stays.
fn link(
    cells: usize,
    tally: Tally,
    texts: Texts,
    written: &mut SlotList<i32>,
    labels: &mut SlotList<Label>,
    units: &mut SlotList<Unit>,
) -> Result<Assembled, Fault>
    requires fresh { Fresh cells written.old labels.old units.old }
    requires small { Small tally 200000000 }
    requires extents { (q : SectionKind) → extent tally q ≡ length (both q (forms texts.site.now) (forms texts.library.now)) }
    ensures builds { Builds cells result (fitted cells (forms texts.entry.site.now) (forms texts.entry.library.now) (surveyed tally (marks labels.old) (entries units.old))) (items written.new) (marks labels.new) (entries units.new) }
    ensures written { Kept written.old written.new }
    ensures labels { Kept labels.old labels.new }
    ensures units { Kept units.old units.new }
{
    let Tally {
        code,
        data,
        heap,
        ..
    } = tally;
    if code + data + heap > cells {
        return Err(Fault::Assembly(AssemblyCause::ProgramSize, Place::Line(Text::Site, 0)));
    }
    lay_out(tally, labels);
    check_names(labels.items(), texts)?;
    write_all(written, labels.items(), texts);
    open_units(labels.items(), units);
    finished(Counts {
        cells,
        code,
        data,
        heap,
        labels: labels.len(),
        units: units.len(),
    })
}

// Both texts become a program.
pub(crate) fn build(
    cells: usize,
    texts: Texts,
    written: &mut SlotList<i32>,
    labels: &mut SlotList<Label>,
    units: &mut SlotList<Unit>,
) -> Result<Assembled, Fault>
    requires fresh { Fresh cells written.old labels.old units.old }
    requires no_labels { marks labels.old ≡ [] }
    requires no_units { entries units.old ≡ [] }
    ensures builds { Builds cells result (first cells (forms texts.entry.site.now) (forms texts.entry.library.now) (room labels.old) (room units.old)) (items written.new) (marks labels.new) (entries units.new) }
    ensures written { Kept written.old written.new }
    ensures labels { Kept labels.old labels.new }
    ensures units { Kept units.old units.new }
{
    let tally = survey_texts(texts, labels, units)?;
    link(cells, tally, texts, written, labels, units)
}
