use crate::quoting::Quoted;
use bench::report;
use std::alloc::Global;

// What the bench is given.
#[derive(Clone, Copy)]
pub(crate) struct BenchInput {
    pub name: &'static str,
    pub bytes: &'static [u8],
}

pub(crate) const INPUTS: [BenchInput; 15] = [
    BenchInput {
        name: "no input",
        bytes: b"",
    },
    BenchInput {
        name: "a text only",
        bytes: b"PUSH 1\nIPRINT\nHALT",
    },
    BenchInput {
        name: "a refused text",
        bytes: b"NOP\nFOO\n.\n1\n",
    },
    BenchInput {
        name: "a reading",
        bytes: b"READ\nIPRINT\nHALT\n.\n-3",
    },
    BenchInput {
        name: "lines that are no numbers",
        bytes: b"READ\nIPRINT\nHALT\n.\nfive\n 6\n--7\n\n2147483648\n-2147483648\n8\n",
    },
    BenchInput {
        name: "numbers with zeros before them",
        bytes: b"READ\nIPRINT\nREAD\nIPRINT\nHALT\n.\n-0\n007\n",
    },
    BenchInput {
        name: "no readings",
        bytes: b"READ\nIPRINT\nHALT\n.\n",
    },
    BenchInput {
        name: "a last line without its byte 10",
        bytes: b"HALT\n.",
    },
    BenchInput {
        name: "a second dot",
        bytes: b"READ\nIPRINT\nHALT\n.\n.\n4\n",
    },
    BenchInput {
        name: "a dot first",
        bytes: b".\n5\n",
    },
    BenchInput {
        name: "a dot and a blank",
        bytes: b"HALT\n. \n",
    },
    BenchInput {
        name: "a dot in a comment",
        bytes: b"HALT ; .\n",
    },
    BenchInput {
        name: "a dot and a carriage return",
        bytes: b"HALT\n.\r\n",
    },
    BenchInput {
        name: "66 readings",
        bytes: b"a: READ\nIPRINT\nJUMP a\n.\n1\n2\n3\n4\n5\n6\n7\n8\n9\n0\n1\n2\n3\n4\n5\n6\n7\n8\n9\n0\n1\n2\n3\n4\n5\n6\n7\n8\n9\n0\n1\n2\n3\n4\n5\n6\n7\n8\n9\n0\n1\n2\n3\n4\n5\n6\n7\n8\n9\n0\n1\n2\n3\n4\n5\n6\n7\n8\n9\n0\n1\n2\n3\n4\n5\n6\n",
    },
    BenchInput {
        name: "a loop",
        bytes: b"a: NOP\nJUMP a\n",
    },
];

// The name of an input, and what the bench reports of it.
pub(crate) fn report_answer(heap: Global, input: &BenchInput) -> anyhow::Result<String> {
    let answer = report(heap, input.bytes)?;
    Ok(format!(in heap; "{}: {}", input.name, Quoted(&answer))?)
}
