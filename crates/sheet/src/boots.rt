// The sheet's lines of the boot loader.
use crate::areas::{self, Areas, Pages};
use crate::cases::{BOOTS, Case, Step};
use crate::show::{self, Difference, Tally, Told};
use boot_loader::BootLoader;
use firmware_state::BlockingFirmwareState;
use geometry::{Geometry, Refusal, StateSizes};
use rules::{Answer, Done, Stop};
use state::State;
use std::io;

// Erase 4, 4 and all of the state area; write 2, 2, 1; b = 2.
fn sizes(es: u32) -> Geometry {
    Geometry {
        ea: 4,
        wa: 2,
        ed: 4,
        wd: 2,
        state: StateSizes {
            es,
            ws: 1,
            ev: u32::from(State::ERASE_VALUE),
        },
        b: 2,
    }
}

// The same with seven state words of four bytes.
fn wide_sizes() -> Geometry {
    let narrow = sizes(28);
    Geometry {
        state: StateSizes {
            ws: 4,
            ..narrow.state
        },
        b: 4,
        ..narrow
    }
}

fn boot(geometry: Geometry, areas: &mut Areas, budget: u32) -> Answer {
    let loader = BootLoader::new(geometry);
    loader.prepare_boot(&mut areas.active, &mut areas.dfu, &mut areas.state, budget)
}

// A step before the last: the sheet has no answer of it.
fn take(step: Step, geometry: Geometry, areas: &mut Areas) {
    let _ = match step {
        Step::Boot(budget) => boot(geometry, areas, budget),
        Step::MarkBooted(budget) => {
            BlockingFirmwareState::new(geometry.state).mark_booted(&mut areas.state, budget)
        }
    };
}

fn run(rt: &impl Print, case: &Case<'_>, tally: &mut Tally) -> io::Result<()> {
    let geometry = sizes(case.words);
    let start = areas::swap_state(case.words);
    let mut areas = Areas::new(case.start, &start)?;
    for step in case.before {
        take(*step, geometry, &mut areas);
    }
    let answer = boot(geometry, &mut areas, case.budget);
    let end = Areas::new(case.end, case.state)?;
    println!(rt; "{}\n  {}", case.label, Told(answer))?;
    print!(rt; "{areas}")?;
    let right = show::held(&answer, &case.answer, Difference::Answer);
    tally.count(rt, right.and(show::held(&areas, &end, Difference::Areas)))
}

// Words of four bytes: a magic must fill its word. This case and the next are functions of their own, since no other has their geometry.
fn wide_magic(rt: &impl Print, tally: &mut Tally) -> io::Result<()> {
    let mut state = [State::ERASE_VALUE; 28];
    state[..3].fill(State::SWAP_MAGIC);
    let answer = BootLoader::new(wide_sizes()).read_state(&state);
    println!(rt; "4-byte words, F0 F0 F0 FF\n  {}", Told(answer))?;
    let said = Ok(Done {
        state: Some(State::Boot),
        count: 0,
    });
    tally.count(rt, show::held(&answer, &said, Difference::Answer))
}

// One erased byte keeps a mark open: the mark 00 FF 00 00 of step 0 is not done, so a boot begins with step 0.
fn wide_mark(rt: &impl Print, tally: &mut Tally) -> io::Result<()> {
    let start = Pages {
        active: &[1],
        dfu: &[4, 5],
    };
    let end = Pages {
        active: &[1],
        dfu: &[4, State::ERASE_VALUE],
    };
    let mut state = [State::ERASE_VALUE; 28];
    state[..4].fill(State::SWAP_MAGIC);
    state[8..12].copy_from_slice(&[0, State::ERASE_VALUE, 0, 0]);
    let mut areas = Areas::new(start, &state)?;
    let answer = boot(wide_sizes(), &mut areas, 1);
    let end = Areas::new(end, &state)?;
    println!(rt;
        "4-byte words, mark 00 FF 00 00, boot 1\n  {}",
        Told(answer)
    )?;
    print!(rt; "{areas}")?;
    let right = show::held(&answer, &Err(Stop::Cut(1)), Difference::Answer);
    tally.count(rt, right.and(show::held(&areas, &end, Difference::Areas)))
}

// An active area of so many bytes is refused. The verdict reads lengths alone.
fn long_active(
    rt: &impl Print,
    label: &str,
    active: usize,
    why: Refusal,
    tally: &mut Tally,
) -> io::Result<()> {
    let verdict = verdicts::boot_verdict(sizes(16), active, 16, 16);
    let number = match verdict {
        Ok(()) => 0,
        Err(why) => why.number(),
    };
    println!(rt; "{label}\n  {number}")?;
    let said = Err(why);
    tally.count(rt, show::held(&verdict, &said, Difference::Answer))
}

pub fn lines(rt: &impl Print, tally: &mut Tally) -> io::Result<()> {
    for case in &BOOTS {
        run(rt, case, tally)?;
    }
    wide_magic(rt, tally)?;
    wide_mark(rt, tally)?;
    // the longest is refused for its DFU, and one byte more for its length
    let longest = 1 << 24;
    long_active(
        rt,
        "active of 16,777,216 bytes",
        longest,
        Refusal::Area,
        tally,
    )?;
    long_active(
        rt,
        "active of 16,777,217 bytes",
        longest + 1,
        Refusal::Limit,
        tally,
    )
}
