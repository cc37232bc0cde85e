// The sheet's lines of the firmware state and the updater.
use crate::areas::Hex;
use crate::show::{self, Difference, Tally, Told};
use firmware_state::BlockingFirmwareState;
use firmware_updater::BlockingFirmwareUpdater;
use geometry::{Offset, Refusal, Sizes, StateSizes};
use rules::{Answer, Done, Stop};
use state::State;
use std::io;

// Words of one byte in one erase unit of sixteen.
const STATE_SIZES: StateSizes = StateSizes {
    es: 16,
    ws: 1,
    ev: State::ERASE_VALUE as u32,
};

const SIZES: Sizes = Sizes {
    ed: 4,
    wd: 2,
    state: STATE_SIZES,
};

// A state area that is marked twice: the second time there is nothing to do.
const MARKS: [(&str, u32); 2] = [("mark_updated 3 on all FF", 3), ("mark_updated 3 again", 0)];

fn marks(rt: &impl Print, tally: &mut Tally) -> io::Result<()> {
    let mut state = [State::ERASE_VALUE; 16];
    let mut marked = state;
    marked[0] = State::SWAP_MAGIC;
    for (label, count) in MARKS {
        let answer = BlockingFirmwareState::new(STATE_SIZES).mark_updated(&mut state, 3);
        println!(rt; "{label}\n  {}", Told(answer))?;
        println!(rt; "  state  {}", Hex(&state))?;
        let right = show::held(
            &answer,
            &Ok(Done {
                state: None,
                count: count,
            }),
            Difference::Answer,
        );
        tally.count(
            rt,
            right.and(show::held(&state, &marked, Difference::Areas)),
        )?;
    }
    Ok(())
}

// A write, its answer, and what it leaves: the sector remembered, and DFU byte by byte as the sheet has it.
#[derive(Clone, Copy)]
struct Write<'a> {
    label: &'a str,
    offset: usize,
    bytes: &'a [u8],
    answer: Answer,
    last: usize,
    dfu: [u8; 16],
}

// Two writes that remember, and the two at offset 1. Each hands its record to the next.
const WRITES: [Write<'static>; 4] = [
    Write {
        label: "write_firmware 01 02 03 04 at 2",
        offset: 2,
        bytes: &[1, 2, 3, 4],
        answer: Ok(Done {
            state: None,
            count: 4,
        }),
        last: 1,
        dfu: *b"\xFF\xFF\x01\x02\x03\x04\xFF\xFF\x00\x00\x00\x00\x00\x00\x00\x00",
    },
    Write {
        label: "write_firmware 09 09 at 0",
        offset: 0,
        bytes: &[9, 9],
        answer: Ok(Done {
            state: None,
            count: 2,
        }),
        last: 0,
        dfu: *b"\x09\x09\xFF\xFF\x03\x04\xFF\xFF\x00\x00\x00\x00\x00\x00\x00\x00",
    },
    Write {
        label: "write_firmware 07 07 at 1",
        offset: 1,
        bytes: &[7, 7],
        answer: Err(Stop::Refused(Refusal::Range)),
        last: 0,
        dfu: *b"\x09\x09\xFF\xFF\x03\x04\xFF\xFF\x00\x00\x00\x00\x00\x00\x00\x00",
    },
    Write {
        label: "write_firmware of nothing at 1",
        offset: 1,
        bytes: &[],
        answer: Ok(Done {
            state: None,
            count: 0,
        }),
        last: 0,
        dfu: *b"\x09\x09\xFF\xFF\x03\x04\xFF\xFF\x00\x00\x00\x00\x00\x00\x00\x00",
    },
];

fn writes(rt: &impl Print, tally: &mut Tally) -> io::Result<()> {
    let state = [State::ERASE_VALUE; 16];
    let mut dfu = [0; 16];
    let mut updater = BlockingFirmwareUpdater::new(SIZES);
    for write in &WRITES {
        let written = updater.write_firmware(
            &mut dfu,
            &state,
            Offset(write.offset),
            write.bytes,
            9,
        );
        updater = written.updater;
        println!(rt; "{}\n  {}", write.label, Told(written.answer))?;
        println!(rt; "  dfu    {}", Hex(&dfu))?;
        let right = show::held(&written.answer, &write.answer, Difference::Answer);
        let left = (updater.last_erased_dfu_sector_index, dfu);
        let said = (Some(write.last), write.dfu);
        tally.count(rt, right.and(show::held(&left, &said, Difference::Areas)))?;
    }
    Ok(())
}

pub fn lines(rt: &impl Print, tally: &mut Tally) -> io::Result<()> {
    marks(rt, tally)?;
    writes(rt, tally)
}
