ghost use Rattle.std.specs.Prelude.{◌≡◌, ℕ, ◌-◌, ◌<◌, ◌≤◌, Bool, true, false, List, [], ◌∷◌, ◌++◌, length, replicate, pos, MatchOption};
ghost use Rattle.program.specs.Names.{small, smalls, same, name_of};
ghost use Rattle.program.specs.Records.{no_name, NoLabel, NoUnit};

use crate::label::Label;
use crate::name::Name;
use crate::section::Section;
use crate::unit::Unit;

// A capital letter as its small letter; any other byte as it is.
pub fn small_letter(byte: u8) -> u8
    ensures { result ≡ small byte }
{
    byte.to_ascii_lowercase()
}

// Is the word, in small letters, this name?
// Stays: with `map` and `eq` it did not prove; open was that `eq` of two iterators answers whether their lists agree.
pub fn is_word(word: &[u8], name: &[u8]) -> bool
    ensures { result ≡ same (smalls word.now) name.now }
{
    if word.len() != name.len() {
        return false;
    }
    word.iter()
        .zip(name)
        .all(|(letter, byte)| small_letter(*letter) == *byte)
}

impl Name {
    // No name: 31 bytes of zero.
    // Stays: no `Default`, which is not derived for a struct with a ghost field, as a name is, nor for what holds one.
    pub fn empty() -> Name
        ensures { (result.bytes ≡ replicate 31 0) × (result.len ≡ 0) }
    {
        Name {
            bytes: [0; 31],
            len: 0,
        }
    }

    // The word in small letters, zeros after it; none where it has more than 31 bytes.
    pub fn new(word: &[u8]) -> Option<Name>
        ensures { MatchOption result (31 < length word.now) (λ n. (name_of n ≡ smalls word.now) × (n.bytes ≡ smalls word.now ++ replicate (31 - length word.now) 0) × (n.len ≡ length word.now)) }
    {
        if word.len() > 31 {
            return None;
        }
        let mut bytes = [0; 31];
        bytes[..word.len()].copy_from_slice(word);
        bytes.make_ascii_lowercase();
        Some(Name {
            bytes,
            len: word.len(),
        })
    }

    // Is the word, in small letters, this name?
    pub fn is(&self, word: &[u8]) -> bool
        ensures { result ≡ same (smalls word.now) (name_of self.now) }
    {
        is_word(word, self.text())
    }

    pub fn text(&self) -> &[u8]
        ensures { result.now ≡ name_of self.now }
    {
        &self.bytes[..self.len]
    }
}

impl Label {
    // What a slot without a label holds.
    pub fn empty() -> Label
        ensures { NoLabel result }
    {
        Label {
            name: Name::empty(),
            section: Section::Code,
            address: 0,
        }
    }
}

impl Unit {
    // What a slot without a unit holds.
    pub fn empty() -> Unit
        ensures { NoUnit result }
    {
        Unit {
            name: Name::empty(),
            entry: 0,
            arguments: 0,
            results: 0,
        }
    }
}
