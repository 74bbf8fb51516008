use crate::assemblies::write_assembly;
use assembler::assemble;
use program::{Label, Unit};
use std::alloc::Global;
use std::fmt;

// What is made as large as a number says.
#[derive(Clone, Copy)]
pub(crate) enum Size {
    Memory(usize),
    Site(usize),
    Library(usize),
    Line(usize),
    Labels(usize),
    Units(usize),
}

impl fmt::Display for Size {
    fn fmt<W: fmt::Write>(&self, f: &mut fmt::Formatter<W>) -> fmt::Result {
        match *self {
            Size::Memory(n) => write!(f, "memory of {n} cells"),
            Size::Site(n) => write!(f, "site text of {n} bytes"),
            Size::Library(n) => write!(f, "library text of {n} bytes"),
            Size::Line(n) => write!(f, "line of {n} bytes"),
            Size::Labels(n) => write!(f, "{n} labels"),
            Size::Units(n) => write!(f, "{n} units"),
        }
    }
}

pub(crate) const SIZES: [Size; 14] = [
    Size::Memory(15),
    Size::Memory(16),
    Size::Memory(65536),
    Size::Memory(65537),
    Size::Site(65536),
    Size::Site(65537),
    Size::Library(65536),
    Size::Library(65537),
    Size::Line(255),
    Size::Line(256),
    Size::Labels(512),
    Size::Labels(513),
    Size::Units(64),
    Size::Units(65),
];

// Two texts and a memory.
#[derive(Drop)]
struct Job {
    site: String,
    library: String,
    cells: usize,
}

// Writes so many lines, each with a name of its own between the same two texts.
fn write_names(out: &mut String, before: &str, times: usize, after: &str) -> anyhow::Result<()> {
    for i in 0..times {
        writeln!(out, "{before}name{i}{after}")?;
    }
    Ok(())
}

// The texts and the memory of a size.
fn job_of(heap: Global, size: &Size) -> anyhow::Result<Job> {
    let mut job = Job {
        site: String::new(heap),
        library: String::new(heap),
        cells: 1024,
    };
    match *size {
        Size::Memory(n) => job.cells = n,
        Size::Site(n) => job.site = "\n".repeat(heap, n)?,
        Size::Library(n) => job.library = "\n".repeat(heap, n)?,
        Size::Line(n) => job.site = ";".repeat(heap, n)?,
        Size::Labels(n) => write_names(&mut job.site, "", n, ": NOP")?,
        Size::Units(n) => {
            write_names(&mut job.site, ".UNIT ", n, ", 0, 0")?;
            write_names(&mut job.site, "", n, ": NOP")?;
        }
    }
    Ok(job)
}

// A size, and what texts and a memory of it assemble to, with slots for 600 labels and 70 units.
pub(crate) fn size_answer(heap: Global, size: &Size) -> anyhow::Result<String> {
    let mut out = format!(in heap; "{size}: ")?;
    let job = job_of(heap, size)?;
    let mut memory = vec![in heap; 0; job.cells]?;
    let mut labels = vec![in heap; Label::empty(); 600]?;
    let mut units = vec![in heap; Unit::empty(); 70]?;
    let site = job.site.as_bytes();
    let library = job.library.as_bytes();
    let assembly = assemble(site, library, &mut memory, &mut labels, &mut units);
    write_assembly(&mut out, assembly, site, library)?;
    Ok(out)
}
