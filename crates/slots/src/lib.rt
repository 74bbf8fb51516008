#![tactic(auto)]

// One bounded list over handed-over slots, for elements of every kind. Its owner learns from `slots_of` what the
// slots hold when the list ends: they are the same slots (`lender`), and each call says which of them it wrote.
mod list;

ghost use Rattle.std.specs.List.{AllZip};
ghost use Rattle.std.specs.Prelude.{◌≡◌, ℕ, ◌+◌, ◌-◌, ◌<◌, ◌≤◌, min, List, [], ◌∷◌, ◌++◌, length, drop, replicate, MatchOption, MatchResult, slice_index_or, slice_set};
ghost use Rattle.slots.specs.Items.{items, room, slots_of};

pub use list::SlotList;

// Stays: `lender` and `room` are a clause of each method, since callers' proofs cite each of them by its name.
impl<'a, T: Copy> SlotList<'a, T> {
    // An empty list, of at most `most` elements; no slot changes.
    pub fn new(slots: &'a mut [T], most: usize) -> SlotList<'a, T>
        ensures len { result.len ≡ 0 }
        ensures room { room result ≡ min (length slots.old) most }
        ensures lender { result.slots.ghost_name ≡ slots.entry.ghost_name }
        ensures slots { slots_of result ≡ slots.old }
    {
        let room = slots.len().min(most);
        SlotList {
            slots,
            room,
            len: 0,
        }
    }

    // One more element at the end. A full list hands it back, and all stays as it was.
    pub fn push(&mut self, x: T) -> Result<(), T>
        ensures lender { self.new.slots.ghost_name ≡ self.old.slots.ghost_name }
        ensures items { MatchResult result (λ _. (items self.new ≡ items self.old ++ x ∷ []) × (length (items self.old) < room self.old) × (room self.new ≡ room self.old)) (λ _. (room self.old ≤ length (items self.old)) × (self.new ≡ self.old)) }
        ensures slots { MatchResult result (λ _. (slots_of self.new ≡ slice_set (slots_of self.old) self.old.len x) × (self.new.len ≡ self.old.len + 1)) (λ y. (y ≡ x) × (self.old.len ≡ room self.old) × (self.new ≡ self.old)) }
    {
        let at = self.len;
        if at >= self.room {
            return Err(x);
        }
        self.slots[at] = x;
        self.len = at + 1;
        Ok(())
    }

    // The last element, which leaves the list; its slot keeps what it holds.
    pub fn pop(&mut self) -> Option<T>
        ensures lender { self.new.slots.ghost_name ≡ self.old.slots.ghost_name }
        ensures room { room self.new ≡ room self.old }
        ensures slots { slots_of self.new ≡ slots_of self.old }
        ensures items { MatchOption result ((self.old.len ≡ 0) × (self.new ≡ self.old)) (λ x. (items self.old ≡ items self.new ++ x ∷ []) × (self.new.len + 1 ≡ self.old.len)) }
    {
        if self.len == 0 {
            return None;
        }
        self.len -= 1;
        Some(self.slots[self.len])
    }

    // The element at a place counted from 0; past the end there is none.
    pub fn get(&self, place: usize) -> Option<T>
        ensures { MatchOption result (length (items self.now) ≤ place) (λ x. (place < length (items self.now)) × (x ≡ slice_index_or (items self.now) place x)) }
    {
        self.items().get(place).copied()
    }

    // Another element at a place that has one; elsewhere the element comes back, and all stays as it was.
    pub fn replace(&mut self, place: usize, x: T) -> Result<(), T>
        ensures lender { self.new.slots.ghost_name ≡ self.old.slots.ghost_name }
        ensures len { self.new.len ≡ self.old.len }
        ensures room { room self.new ≡ room self.old }
        ensures items { MatchResult result (λ _. items self.new ≡ slice_set (items self.old) place x) (λ _. (self.old.len ≤ place) × (items self.new ≡ items self.old)) }
        ensures slots { MatchResult result (λ _. (place < self.old.len) × (slots_of self.new ≡ slice_set (slots_of self.old) place x)) (λ y. (y ≡ x) × (self.old.len ≤ place) × (self.new ≡ self.old)) }
    {
        if place >= self.len {
            return Err(x);
        }
        self.slots[place] = x;
        Ok(())
    }

    pub fn len(&self) -> usize
        ensures { result ≡ self.now.len }
    {
        self.len
    }

    // The elements, in order.
    pub fn items(&self) -> &[T]
        ensures { result.now ≡ items self.now }
    {
        &self.slots[0..self.len]
    }

    // Writes a value into every slot past the elements.
    pub fn fill_rest(&mut self, value: T)
        ensures lender { self.new.slots.ghost_name ≡ self.old.slots.ghost_name }
        ensures len { self.new.len ≡ self.old.len }
        ensures room { room self.new ≡ room self.old }
        ensures slots { slots_of self.new ≡ items self.old ++ replicate (length (slots_of self.old) - self.old.len) value }
    {
        self.slots[self.len..].fill_with(|| value);
    }

    // Empties the list and writes a value into every slot.
    pub fn clear(&mut self, value: T)
        ensures lender { self.new.slots.ghost_name ≡ self.old.slots.ghost_name }
        ensures len { self.new.len ≡ 0 }
        ensures room { room self.new ≡ room self.old }
        ensures slots { slots_of self.new ≡ replicate (length (slots_of self.old)) value }
    {
        self.len = 0;
        self.slots.fill_with(|| value);
    }

    // Each element becomes what `change` makes of it; the other slots stay as they were.
    pub fn change_each<F: Fn(T) -> T>(&mut self, change: F)
        requires { F.IsAlwaysCallable change }
        ensures lender { self.new.slots.ghost_name ≡ self.old.slots.ghost_name }
        ensures len { self.new.len ≡ self.old.len }
        ensures room { room self.new ≡ room self.old }
        ensures items { AllZip (λ x y. F.post change x y) (items self.old) (items self.new) }
        ensures rest { drop self.old.len (slots_of self.new) ≡ drop self.old.len (slots_of self.old) }
    {
        change_all(&mut self.slots[..self.len], change);
    }
}

// Each element becomes what `change` makes of it.
fn change_all<T: Copy, F: Fn(T) -> T>(elements: &mut [T], change: F)
    requires { F.IsAlwaysCallable change }
    ensures { AllZip (λ x y. F.post change x y) elements.old elements.new }
{
    for x in elements.iter_mut() {
        *x = change(*x);
    }
}
