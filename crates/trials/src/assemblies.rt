use crate::quoting::Quoted;
use assembler::{assemble, source_line};
use bench::{NET, Refusal};
use program::{Assembled, Counts, Fault, Label, Place, Text, Unit};
use std::alloc::Global;
use std::fmt;

// A site text and a library text, assembled into 32 cells with 3 label slots and 2 unit slots.
#[derive(Clone, Copy)]
pub(crate) struct TextPair {
    pub name: &'static str,
    pub site: &'static [u8],
    pub library: &'static [u8],
}

pub(crate) const TEXTS: [TextPair; 33] = [
    TextPair {
        name: "net",
        site: NET,
        library: b"",
    },
    TextPair {
        name: "three sections",
        site: b".UNIT show, 1, 0\nPUSH greeting\nPUSH show\nCALL\nHALT\n.DATA\ngreeting: DW \"Hi\", 33, 0\n.CODE\nshow: LOADFP\nLOADSP\nSTOREFP\nLOAD 3\nSPRINT\nPRNLN\nSTOREFP\nRET 1\n.HEAP\nbuffer: DW 4 DUP(0)\n",
        library: b"",
    },
    TextPair {
        name: "no text",
        site: b"",
        library: b"",
    },
    TextPair {
        name: "two texts, parts of sections join",
        site: b".DATA\na: DW 1\n.CODE\nPUSH b\n.HEAP\nDW 5",
        library: b"JUMP c\nc: PUSH a\n.DATA\nb: DW 2, c",
    },
    TextPair {
        name: "tokens without blanks",
        site: b"x:PUSH-5\n.DATA\nDW''',';',\"a;b\",\"\"\nDW 3DUP(0)",
        library: b"",
    },
    TextPair {
        name: "capitals and comments",
        site: b"; note\n\n\t# note\nLoop: Nop ; again\nJUMP lOOP",
        library: b"",
    },
    TextPair {
        name: "a line without its byte 10",
        site: b"NOP\nHALT",
        library: b"",
    },
    TextPair {
        name: "33 cells",
        site: b".DATA\nDW 33 DUP(1)",
        library: b"",
    },
    TextPair {
        name: "32 cells",
        site: b".DATA\nDW 32 DUP(-1)",
        library: b"",
    },
    TextPair {
        name: "carriage return",
        site: b"NOP\r\n",
        library: b"",
    },
    TextPair {
        name: "byte 200 in a comment",
        site: b"NOP\n; \xc8\n",
        library: b"",
    },
    TextPair {
        name: "no mnemonic",
        site: b"NOP\nFOO\n",
        library: b"",
    },
    TextPair {
        name: "label alone",
        site: b"x:\n",
        library: b"",
    },
    TextPair {
        name: "argument of another kind",
        site: b"x: JUMP 5\n",
        library: b"",
    },
    TextPair {
        name: "unclosed quote",
        site: b".DATA\nDW \"ab\n",
        library: b"",
    },
    TextPair {
        name: "name of 32 bytes",
        site: b"abcdefghijklmnopqrstuvwxyz_01234: NOP",
        library: b"",
    },
    TextPair {
        name: "no form before no range",
        site: b"PUSH 99999999999 ,\n",
        library: b"",
    },
    TextPair {
        name: "number too large",
        site: b"PUSH 2147483648\n",
        library: b"",
    },
    TextPair {
        name: "number too small",
        site: b"PUSH -2147483649\n",
        library: b"",
    },
    TextPair {
        name: "count too large",
        site: b"RMEM 1001\n",
        library: b"",
    },
    TextPair {
        name: "negative count",
        site: b"RET -1\n",
        library: b"",
    },
    TextPair {
        name: "unit after code",
        site: b"NOP\n.UNIT a, 0, 0\n",
        library: b"",
    },
    TextPair {
        name: "unit of the library after site code",
        site: b"NOP\n",
        library: b".UNIT a, 0, 0\na: NOP",
    },
    TextPair {
        name: "code in data",
        site: b".DATA\nNOP\n",
        library: b"",
    },
    TextPair {
        name: "data in code",
        site: b"DW 1\n",
        library: b"",
    },
    TextPair {
        name: "label twice",
        site: b"a: NOP\nA: NOP\n",
        library: b"",
    },
    TextPair {
        name: "label of both texts",
        site: b"a: NOP\n",
        library: b"NOP\na: NOP ; again\n",
    },
    TextPair {
        name: "unit twice",
        site: b".UNIT a, 0, 0\n.UNIT a, 1, 1\na: NOP",
        library: b"",
    },
    TextPair {
        name: "fourth label for three slots",
        site: b"a: NOP\nb: NOP\nc: NOP\nd: NOP",
        library: b"",
    },
    TextPair {
        name: "third unit for two slots",
        site: b".UNIT a, 0, 0\n.UNIT b, 0, 0\n.UNIT c, 0, 0",
        library: b"",
    },
    TextPair {
        name: "33 cells of both texts",
        site: b"NOP\n.HEAP\nDW 20 DUP(0)",
        library: b".HEAP\nDW 12 DUP(0)",
    },
    TextPair {
        name: "name without label",
        site: b"NOP\nPUSH x\n",
        library: b"",
    },
    TextPair {
        name: "unit without label in the library",
        site: b"NOP\n",
        library: b"\n.UNIT far, 0, 0 ; nowhere\n",
    },
];

// Writes why texts were refused, and the line that is at fault.
fn write_refusal(
    out: &mut String,
    fault: Fault,
    site: &[u8],
    library: &[u8],
) -> anyhow::Result<()> {
    let text = match fault.place() {
        Place::Line(Text::Site, _) => " site",
        Place::Line(Text::Library, _) => " library",
        _ => "",
    };
    write!(out, "{}{text}", Refusal(fault))?;
    match source_line(fault, site, library) {
        Some(line) => write!(out, ": {}", Quoted(line))?,
        None => out.push_str(", no line")?,
    }
    Ok(())
}

// The counts of a program, as `n 32 C 24 D 0 H 0, labels 1, units 1`.
#[derive(Clone, Copy)]
struct Counted(Counts);

impl fmt::Display for Counted {
    fn fmt<W: fmt::Write>(&self, f: &mut fmt::Formatter<W>) -> fmt::Result {
        let Counts {
            cells,
            code,
            data,
            heap,
            labels,
            units,
        } = self.0;
        write!(
            f,
            "n {cells} C {code} D {data} H {heap}, labels {labels}, units {units}"
        )
    }
}

// Writes what two texts assembled to: the counts, or the refusal and its line.
pub(crate) fn write_assembly(
    out: &mut String,
    assembly: Result<Assembled, Fault>,
    site: &[u8],
    library: &[u8],
) -> anyhow::Result<()> {
    match assembly {
        Ok(program) => write!(out, "{}", Counted(program.counts()))?,
        Err(fault) => write_refusal(out, fault, site, library)?,
    }
    Ok(())
}

// Writes the labels in slots, zero records left out.
fn write_labels(out: &mut String, labels: &[Label]) -> anyhow::Result<()> {
    for label in labels {
        let address = label.address;
        if address > 0 || !label.name.text().is_empty() {
            write!(out, "; {} {address}", Quoted(label.name.text()))?;
        }
    }
    Ok(())
}

// Writes the units in slots, zero records left out.
fn write_units(out: &mut String, units: &[Unit]) -> anyhow::Result<()> {
    for unit in units {
        let (entry, arguments, results) = (unit.entry, unit.arguments, unit.results);
        if entry > 0 || !unit.name.text().is_empty() {
            let name = Quoted(unit.name.text());
            write!(out, "; unit {name} {entry} {arguments} {results}")?;
        }
    }
    Ok(())
}

// Writes the cells of a memory without the zeros at its end.
fn write_cells(out: &mut String, memory: &[i32]) -> anyhow::Result<()> {
    let zeros = memory.iter().rev().take_while(|cell| **cell == 0).count();
    let used = memory.len().saturating_sub(zeros);
    out.push_str("; cells")?;
    for cell in memory.iter().take(used) {
        write!(out, " {cell}")?;
    }
    Ok(())
}

// The name of two texts and what they assemble to: the counts, the cells and the slots, or the refusal and its line.
// What stood in memory and slots before is gone after.
pub(crate) fn text_answer(heap: Global, text: &TextPair) -> anyhow::Result<String> {
    let mut memory = [7; 32];
    let mut labels = [Label {
        address: 7,
        ..Label::empty()
    }; 3];
    let mut units = [Unit {
        entry: 7,
        ..Unit::empty()
    }; 2];
    let mut out = format!(in heap; "{}: ", text.name)?;
    let TextPair { site, library, .. } = *text;
    let assembly = assemble(site, library, &mut memory, &mut labels, &mut units);
    write_assembly(&mut out, assembly, site, library)?;
    write_cells(&mut out, &memory)?;
    write_labels(&mut out, &labels)?;
    write_units(&mut out, &units)?;
    Ok(out)
}
