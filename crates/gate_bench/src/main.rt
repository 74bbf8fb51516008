#![tactic(auto)]

// The bench program: prints what the bench reports of a file, or of standard input.
use std::io::{Read, Write};
use std::{env, fs, io};

// The whole of the file that the first argument names, or of standard input where there is none.
fn read_input(rt: &HostRuntime) -> io::Result<Vec<u8>> {
    let mut args = env::args(rt)?;
    let _program = args.next();
    match args.next() {
        Some(path) => fs::read(rt, path),
        None => {
            let mut input = Vec::new(rt.alloc());
            rt.stdin().read_to_end(&mut input)?;
            Ok(input)
        }
    }
}

fn main(rt: HostRuntime) -> io::Result<()> {
    let input = read_input(&rt)?;
    let report = bench::report(rt.alloc(), &input)?;
    rt.stdout().write_all(&report)
}
