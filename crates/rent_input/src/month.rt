ghost use Rattle.std.specs.Prelude.{◌≡◌, ◌+◌, ◌^◌, ◌<◌, length};
ghost use Rattle.rent_input.specs.Months.{on_line, hours_from, month_of, Told};

use crate::faults::{Failure, Fault, Wrong};
use crate::line::{hour_at, peak_at};
use peak_rent::Hour;
use std::alloc::Global;
use text::Lines;

// The hours of a month, with the system peak in megawatts.
#[derive(Drop)]
pub struct Month {
    pub peak: u64,
    pub hours: Vec<Hour>,
}

// What is wrong with a line is a fault there.
fn on_line<T>(line: usize, read: Result<T, Wrong>) -> Result<T, Fault>
    ensures { result ≡ on_line line read }
{
    read.map_err(|wrong| Fault { line, wrong })
}

// The hours on the lines after the first.
#[tactic(auto, using(crate::proofs::Hours::hour_read, crate::proofs::Hours::hour_faulty, crate::proofs::Hours::hours_end))]
fn read_hours(heap: Global, lines: Lines<'_>) -> Result<Vec<Hour>, Failure>
    requires { length lines + 2 < 2 ^ 64 }
    ensures { Told (λ hours. hours.items) (hours_from 2 lines.entry) result }
{
    let mut hours = Vec::new(heap);
    for (before, line) in lines.enumerate() {
        hours.push(on_line(before + 2, hour_at(line))?)?;
    }
    Ok(hours)
}

// Reads a whole input: the peak on its first line, and an hour on each of the others.
#[tactic(auto, unfolding(crate::specs::Months::month_of))]
pub fn read_month(heap: Global, text: &[u8]) -> Result<Month, Failure>
    ensures { Told (λ month. (month.peak, month.hours.items)) (month_of text.now) result }
{
    let mut lines = Lines::new(text);
    let first = lines.next().ok_or(Fault {
        line: 1,
        wrong: Wrong::Missing(1),
    })?;
    let peak = on_line(1, peak_at(first))?;
    let hours = read_hours(heap, lines)?;
    Ok(Month { peak, hours })
}
