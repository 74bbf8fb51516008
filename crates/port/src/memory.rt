ghost use Rattle.std.specs.Prelude.{◌≡◌, ℕ, ◌<◌, List, length, refl, slice_set};

// A memory of bytes: an array of a port's own, or a slice that was lent.
pub(crate) trait Memory {
    ghost content: { Self → List ℕ };

    // The second is the first one, whatever bytes stand in it.
    ghost Same: { Self → Self → Type 0 };

    // All of its bytes.
    fn all(&self) -> &[u8]
        ensures { result.now ≡ content self.now };

    // A byte put at a place, and no other byte changed.
    fn set(&mut self, place: usize, byte: u8)
        requires { place < length (content self.old) }
        ensures bytes { content self.new ≡ slice_set (content self.old) place byte }
        ensures same { Same self.old self.new };

    // With nothing put into it, it is the same one.
    ghost stays: { (memory : Self) → Same memory memory };
}

// An array is as long as before.
impl<const N: usize> Memory for [u8; N] {
    ghost content = { λ bytes. bytes };

    ghost Same = { λ before after. length after ≡ length before };

    ghost stays = { λ memory. refl };

    fn all(&self) -> &[u8] {
        self
    }

    fn set(&mut self, place: usize, byte: u8) {
        self[place] = byte;
    }
}

// A slice is still the one that was lent.
impl<'a> Memory for &'a mut [u8] {
    ghost content = { λ bytes. bytes.now };

    ghost Same = { λ before after. after.ghost_name ≡ before.ghost_name };

    ghost stays = { λ memory. refl };

    fn all(&self) -> &[u8] {
        self
    }

    fn set(&mut self, place: usize, byte: u8) {
        self[place] = byte;
    }
}
