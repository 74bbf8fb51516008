ghost use Rattle.std.specs.Prelude.{◌≡◌, length, IfOk};
ghost use Rattle.program.specs.Faults.{refusal};
ghost use Rattle.machine.specs.Console.{console};
ghost use Rattle.bench.specs.Bench.{bench_report};
ghost use Rattle.bench.specs.Output.{ran_report, refused_report};
ghost use Rattle.bench.specs.Trial.{trial as trial_of, offered};
ghost use Rattle.bench.specs.Input.{readings_of};

use crate::input::site_text;
use crate::readings::offer_readings;
use crate::shown::shown_bytes;
use crate::texts::{outcome_text, refusal_text};
use assembler::assemble;
use machine::{Report, bench_start, run};
use port::{Port, ServicePort};
use program::{Assembled, Fault, Label, Unit};
use std::alloc::{AllocError, Global};

// What the bench has: cells of memory, slots for labels and units, bytes for 64 readings and for what is shown,
// and the steps of the one run.
const CELLS: usize = 1024;

const LABELS: usize = 512;

const UNITS: usize = 64;

const PLACES: usize = 64 * 12;

const BYTES: usize = 4096;

const ALLOWANCE: u32 = 100000;

// The report of a refused program.
fn refused(heap: Global, fault: Fault) -> Result<Vec<u8>, AllocError>
    ensures { IfOk result (λ v. v.items ≡ refused_report (refusal fault)) }
{
    let mut bytes = refusal_text(heap, fault)?.into_bytes();
    bytes.push(b'\n')?;
    Ok(bytes)
}

// The report of a program that ran.
fn ran<P: Port>(heap: Global, report: Report, pc: i32, port: &P) -> Result<Vec<u8>, AllocError>
    ensures { IfOk result (λ v. v.items ≡ ran_report (P.meaning port.now).shown report.outcome report.steps pc) }
{
    let mut bytes = shown_bytes(heap, port)?;
    bytes.push(b'\n')?;
    let text = outcome_text(heap, report, pc)?;
    bytes.extend_from_slice(text.as_bytes())?;
    bytes.push(b'\n')?;
    Ok(bytes)
}

// The report of a program on a port to which the readings were offered.
fn trial<P: Port>(
    heap: Global,
    program: Assembled,
    memory: &mut [i32],
    port: &mut P,
) -> Result<Vec<u8>, AllocError>
    requires { length memory.old ≡ program.counts.cells }
    ensures { IfOk result (λ v. v.items ≡ trial_of program.counts memory.old (console (P.meaning port.old))) }
{
    let mut machine = match bench_start(program, memory) {
        Ok(machine) => machine,
        Err(refusal) => return refused(heap, refusal.fault),
    };
    match run(&mut machine, memory, port, ALLOWANCE) {
        Ok(report) => ran(heap, report, machine.registers().pc, port),
        Err(fault) => refused(heap, fault),
    }
}

// The report of an assembled program, run on a service port to which the readings of the input were offered.
fn started(
    heap: Global,
    program: Assembled,
    memory: &mut [i32],
    input: &[u8],
) -> Result<Vec<u8>, AllocError>
    requires { length memory.old ≡ program.counts.cells }
    ensures { IfOk result (λ v. v.items ≡ trial_of program.counts memory.old (offered (readings_of input.now))) }
{
    let mut places = vec![in heap; 0; PLACES]?;
    let mut bytes = vec![in heap; 0; BYTES]?;
    let mut port = ServicePort::new(&mut places, &mut bytes);
    offer_readings(input, &mut port);
    trial(heap, program, memory, &mut port)
}

// What the bench reports of its input: the site text, then a line `.`, then readings, one a line.
pub fn report(heap: Global, input: &[u8]) -> Result<Vec<u8>, AllocError>
    ensures { IfOk result (λ v. v.items ≡ bench_report input.now) }
{
    let mut memory = vec![in heap; 0; CELLS]?;
    let mut labels = vec![in heap; Label::empty(); LABELS]?;
    let mut units = vec![in heap; Unit::empty(); UNITS]?;
    let cells = memory.as_mut_slice();
    match assemble(site_text(input), &[], cells, &mut labels, &mut units) {
        Ok(program) => started(heap, program, cells, input),
        Err(fault) => refused(heap, fault),
    }
}
