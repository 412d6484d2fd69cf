// Marks the sheet on standard input: one line for each task, or one for the sheet's first fault.
#![tactic(auto)]

use answers::answer_sheet;
use std::io;
use std::io::Read;

// One byte more than a sheet may have tells that one is too long.
const READ: u64 = 32769;

fn read_sheet(rt: &HostRuntime) -> io::Result<Vec<u8>> {
    let mut sheet = Vec::new(rt.alloc());
    rt.stdin().take(READ).read_to_end(&mut sheet)?;
    Ok(sheet)
}

fn main(rt: HostRuntime) -> io::Result<()> {
    let sheet = read_sheet(&rt)?;
    match answer_sheet(sheet.as_slice()) {
        Ok(answers) => print!(rt; "{answers}"),
        Err(fault) => println!(rt; "{fault}"),
    }
}
