ghost use Rattle.std.specs.Prelude.{◌≡◌, MatchOption};
ghost use Rattle.program.specs.Programs.{Lawful};

use crate::assembled::Assembled;
use crate::counts::Counts;

impl Assembled {
    // A program with these counts, unless they pass the limits of a program.
    pub fn new(counts: Counts) -> Option<Assembled>
        ensures { MatchOption result (Lawful counts → ⊥) (λ p. (p.counts ≡ counts) × Lawful counts) }
    {
        let Counts {
            cells,
            code,
            data,
            heap,
            labels,
            units,
        } = counts;
        if !(16..=65536).contains(&cells) || labels > 512 || units > 64 {
            return None;
        }
        if code > cells || data > cells - code || heap > cells - code - data {
            return None;
        }
        Some(Assembled { counts })
    }

    pub fn counts(&self) -> Counts
        ensures { result ≡ self.now.counts }
    {
        self.counts
    }
}
