use crate::name::Name;
use crate::section::Section;

// A label: its name, its section, and the address where the cells of its line begin.
#[derive(Clone, Copy)]
pub struct Label {
    pub name: Name,
    pub section: Section,
    pub address: u32,
}
