ghost use Rattle.std.specs.Prelude.{◌≡◌, IfOk, Some, string_bytes};
ghost use Rattle.bench.specs.Output.{outcome_word, outcome_cause, text_of_outcome, text_of_refusal};
ghost use Rattle.program.specs.Faults.{refusal};

use machine::{Outcome, Report};
use program::Fault;
use std::alloc::{AllocError, Global};
use std::fmt;

// How a run ended, with pc after it, written as `halted 16 10 0`: the outcome, the steps, pc, and the cause or 0.
#[derive(Clone, Copy)]
pub struct Ending {
    pub report: Report,
    pub pc: i32,
}

impl fmt::Display for Ending {
    ghost output = { λ e. Some (text_of_outcome e.report.outcome e.report.steps e.pc) };

    fn fmt<W: fmt::Write>(&self, f: &mut fmt::Formatter<W>) -> fmt::Result {
        let word = word(self.report.outcome);
        let steps = self.report.steps;
        let pc = self.pc;
        let cause = cause(self.report.outcome);
        write!(f, "{word} {steps} {pc} {cause}")
    }
}

// Why there was no run, written as `refused 4 1`: the cause, and its line, its address or 0.
#[derive(Clone, Copy)]
pub struct Refusal(pub Fault);

impl fmt::Display for Refusal {
    ghost output = { λ r. Some (text_of_refusal (refusal r.0)) };

    fn fmt<W: fmt::Write>(&self, f: &mut fmt::Formatter<W>) -> fmt::Result {
        let cause = self.0.number();
        let place = self.0.place().number();
        write!(f, "refused {cause} {place}")
    }
}

fn word(outcome: Outcome) -> &'static str
    ensures { result.now ≡ outcome_word outcome }
{
    match outcome {
        Outcome::Spent => "spent",
        Outcome::Halted => "halted",
        Outcome::Reading => "reading",
        Outcome::Space => "space",
        Outcome::Fault(_) => "fault",
    }
}

// The number of the fault; 0 where there is none.
// Stays: the report has a number for the cause in every line, and promises 0 for a run without a fault.
fn cause(outcome: Outcome) -> u32
    ensures { result ≡ outcome_cause outcome }
{
    match outcome {
        Outcome::Fault(fault) => fault.number(),
        _ => 0,
    }
}

// How a run ended, as a text of its own.
pub fn outcome_text(heap: Global, report: Report, pc: i32) -> Result<String, AllocError>
    ensures { IfOk result (λ s. string_bytes s ≡ text_of_outcome report.outcome report.steps pc) }
{
    Ending { report, pc }.to_string(heap)
}

// Why there was no run, as a text of its own.
pub fn refusal_text(heap: Global, fault: Fault) -> Result<String, AllocError>
    ensures { IfOk result (λ s. string_bytes s ≡ text_of_refusal (refusal fault)) }
{
    Refusal(fault).to_string(heap)
}
