use crate::name::Name;

// A unit: its name, its entry, and how many argument and result cells it has.
#[derive(Clone, Copy)]
pub struct Unit {
    pub name: Name,
    pub entry: u32,
    pub arguments: u8,
    pub results: u8,
}
