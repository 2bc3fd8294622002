#![tactic(auto)]
// Runs cases given as text, a line each, and writes what the library answers.
//
// A line of `t` and numbers is a table, and its answer is the table's refusal number. A line that
// starts with `#` is a title and is written out as it stands.
mod line;

use line::{Line, Words};
use std::io;
use std::io::Read;

fn main(rt: HostRuntime) -> io::Result<()> {
    let mut line = Line::new();
    let mut words = Words::new();
    let mut chunk = [0u8; 4096];
    let mut input = rt.stdin();
    let mut out = rt.stdout();
    // At most 16 MiB are read.
    for _ in 0usize..4096 {
        let n = input.read(&mut chunk)?;
        if n == 0 {
            return Ok(());
        }
        for b in &chunk[..n] {
            line.read(&mut out, &mut words, *b)?;
        }
    }
    Ok(())
}
