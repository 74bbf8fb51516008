ghost use Rattle.std.specs.Prelude.{◌≡◌, ℕ, ◌<◌, ◌≤◌, List, map, length, MatchResult};
ghost use Rattle.assembler.specs.Marks.{has};
ghost use Rattle.assembler.specs.Progress.{Kept};
ghost use Rattle.assembler.specs.Survey.{Step, adding, stop};
ghost use Rattle.program.specs.Names.{name_of, same, smalls};
ghost use Rattle.slots.specs.Items.{items, room};

use program::{AssemblyCause, Label, Name, Unit};
use slots::SlotList;

// A label or a unit: a record with a name, whose letters are small.
pub trait Named {
    ghost named: { Self → List ℕ };

    fn name(&self) -> Name
        ensures { name_of result ≡ named self.now };

    // Is the word, in small letters, its name?
    fn is_named(&self, word: &[u8]) -> bool
        ensures { result ≡ same (smalls word.now) (named self.now) }
    {
        self.name().is(word)
    }
}

impl Named for Label {
    ghost named = { λ l. name_of l.name };

    fn name(&self) -> Name {
        self.name
    }
}

impl Named for Unit {
    ghost named = { λ u. name_of u.name };

    fn name(&self) -> Name {
        self.name
    }
}

// Is the word the name of one of these?
fn is_given<T: Named>(items: &[T], word: &[u8]) -> bool
    ensures { result ≡ has (smalls word.now) (map T.named items.now) }
{
    items.iter().any(|item| item.is_named(word))
}

// One more in a list, unless its name is given already or the list is full.
pub(crate) fn add<T: Named + Copy>(
    list: &mut SlotList<T>,
    word: &[u8],
    item: T,
) -> Result<(), AssemblyCause>
    ensures added { MatchResult result (λ _. (on : List T → Step) → adding (room list.old) (map T.named (items list.old)) (items list.old) (smalls word.now) item on ≡ on (items list.new)) (λ e. (on : List T → Step) → adding (room list.old) (map T.named (items list.old)) (items list.old) (smalls word.now) item on ≡ stop e) }
    ensures kept { Kept list.old list.new }
{
    if is_given(list.items(), word) {
        return Err(AssemblyCause::GivenTwice);
    }
    list.push(item).map_err(|_| AssemblyCause::ListFull)
}
