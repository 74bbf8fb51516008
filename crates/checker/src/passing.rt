ghost use Rattle.std.specs.Prelude.{◌≡◌};

use crate::passed::Passed;
use program::Counts;

impl Passed {
    pub fn counts(&self) -> Counts
        ensures { result ≡ self.now.program.counts }
    {
        self.program.counts()
    }
}
