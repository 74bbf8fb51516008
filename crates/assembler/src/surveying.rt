// Both texts surveyed, one after the other.
ghost use Rattle.std.specs.Prelude.{◌≡◌, ℕ, []};
ghost use Rattle.assembler.specs.Assembly.{forms};
ghost use Rattle.assembler.specs.Builds.{Surveys, Tallied};
ghost use Rattle.assembler.specs.Progress.{KeptBoth, Small, entries, marks};
ghost use Rattle.assembler.specs.Survey.{opened};
ghost use Rattle.program.specs.declared.fault.Fault.TheVariants as F;
ghost use Rattle.program.specs.declared.fault.Place.TheVariants as P;
ghost use Rattle.slots.specs.Items.{room};

use crate::lists::Lists;
use crate::tally::{LineCause, Tally};
use crate::texts::Texts;
use program::{Fault, Place, Section, Text};

impl Tally {
    // Another text begins in .CODE.
    fn reopened(self) -> Tally
        ensures is { result ≡ opened self }
        ensures small { (n : ℕ) → Small self n → Small result n }
    {
        Tally {
            section: Section::Code,
            begun: false,
            ..self
        }
    }
}

fn line_fault(text: Text, found: LineCause) -> Fault
    ensures { result ≡ F.Assembly found.cause (P.Line text found.line) }
{
    Fault::Assembly(found.cause, Place::Line(text, found.line))
}

impl Lists<'_, '_, '_> {
    // The lines of both texts.
    pub(crate) fn survey_both(&mut self, texts: Texts) -> Result<Tally, Fault>
        requires no_labels { marks self.old.labels.now ≡ [] }
        requires no_units { entries self.old.units.now ≡ [] }
        ensures surveys { Surveys (forms texts.entry.site.now) (forms texts.entry.library.now) (room self.old.labels.now) (room self.old.units.now) result (marks self.new.labels.now) (entries self.new.units.now) }
        ensures small { Tallied result }
        ensures kept { KeptBoth self.old self.new }
    {
        let start = Tally {
            section: Section::Code,
            begun: false,
            code: 0,
            data: 0,
            heap: 0,
        };
        let tally = self
            .survey_text(texts.site, start)
            .map_err(|found| line_fault(Text::Site, found))?;
        self.survey_text(texts.library, tally.reopened())
            .map_err(|found| line_fault(Text::Library, found))
    }
}
