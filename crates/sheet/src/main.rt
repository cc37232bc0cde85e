// The bench sheet, run through the code: each case is printed with its answer and areas, and held to what the sheet says.
// Answers read as document 01 has them: the number, the state or a dash, the operations.
#![tactic(auto)]

use show::Tally;
use std::io;

mod areas;
mod boots;
mod cases;
mod show;
mod updater;

fn main(rt: HostRuntime) -> io::Result<()> {
    let mut tally = Tally { right: 0 };
    boots::lines(&rt, &mut tally)?;
    updater::lines(&rt, &mut tally)?;
    println!(rt; "{} of 25 cases as the sheet says", tally.right)
}
