//! keep_rows: opens the file of one shard, changes its rows and prints them, by the commands on standard input. It is for
//! looking at what a store has on the disk.
#![tactic(auto)]

mod command;
mod session;

use command::command_of;
use session::Session;
use std::io::{BufRead, BufReader, Read, Write};
use std::process::ExitCode;

/// Why the commands end before standard input does.
enum Stop {
    NoCommand,
    ReadFault,
    WriteFault,
    NoMemory,
}

fn main(rt: HostRuntime) -> ExitCode {
    let mut session = Session::new(rt);
    let mut output = rt.stdout();
    let answer = match BufReader::new(rt.alloc(), rt.stdin()) {
        Ok(input) => run_all(&rt, input, &mut session, &mut output),
        Err(_) => Err(Stop::NoMemory),
    };
    session.close();
    ExitCode::from(code_of(answer))
}

fn code_of(answer: Result<(), Stop>) -> u8 {
    match answer {
        Ok(()) => 0,
        Err(Stop::NoCommand) => 2,
        Err(Stop::ReadFault) => 3,
        Err(Stop::WriteFault) => 4,
        Err(Stop::NoMemory) => 7,
    }
}

// Runs the lines of the input one after another. What a line answers is written before the next one is read.
fn run_all<I: Read + Drop, W: Write>(
    rt: &HostRuntime,
    input: BufReader<I>,
    session: &mut Session,
    output: &mut W,
) -> Result<(), Stop> {
    for line in input.lines(rt.alloc()) {
        match line {
            Ok(line) => run_one(rt, line, session, output)?,
            Err(_) => return Err(Stop::ReadFault),
        }
    }
    Ok(())
}

fn run_one<W: Write>(
    rt: &HostRuntime,
    line: String,
    session: &mut Session,
    output: &mut W,
) -> Result<(), Stop> {
    let mut told = Vec::new(rt.alloc());
    run_line(line.as_str(), session, &mut told)?;
    match output.write_all(&told) {
        Ok(()) => Ok(()),
        Err(_) => Err(Stop::WriteFault),
    }
}

fn run_line(line: &str, session: &mut Session, told: &mut Vec<u8>) -> Result<(), Stop> {
    let Some(command) = command_of(line) else {
        return Err(Stop::NoCommand);
    };
    match session.run(command, told) {
        Ok(()) => Ok(()),
        Err(_) => Err(Stop::NoMemory),
    }
}
