use program::{Label, Unit};
use slots::SlotList;

// What the lines declare, in line order: labels and units, each in a list that its owner lends.
// Stays: with the tally as a field here, tried, what `put_cells` and `declare` promise (`Stepped`) stayed open.
#[derive(Drop)]
pub struct Lists<'a, 'b, 'c> {
    pub(crate) labels: &'a mut SlotList<'b, Label>,
    pub(crate) units: &'a mut SlotList<'c, Unit>,
}
