// Reads the hours of a month from standard input, and prints the month's peak energy rent or its refusal.
#![tactic(auto)]

use rent_input::{Month, read_month, report_on};
use std::io;
use std::io::Read;
use std::process::ExitCode;

fn input(rt: &HostRuntime) -> io::Result<Vec<u8>> {
    let mut text = Vec::new(rt.alloc());
    rt.stdin().read_to_end(&mut text)?;
    Ok(text)
}

fn answer(rt: &HostRuntime, month: &Month) -> io::Result<()> {
    // a refusal is an answer too, and is printed
    match report_on(month) {
        Ok(report) => println!(rt; "{report}"),
        Err(refusal) => {
            let number = refusal.number();
            println!(rt; "refused {number}")
        }
    }
}

// An input that cannot be read ends the program with a message and status 1, and nothing on standard output.
fn main(rt: HostRuntime) -> io::Result<ExitCode> {
    let text = input(&rt)?;
    // both outcomes are told, each with its status
    match read_month(rt.alloc(), text.as_slice()) {
        Ok(month) => {
            answer(&rt, &month)?;
            Ok(ExitCode::SUCCESS)
        }
        Err(failure) => {
            eprintln!(rt; "{failure}")?;
            Ok(ExitCode::FAILURE)
        }
    }
}
