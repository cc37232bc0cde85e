// The firmware updater: firmware_updater/blocking.rs. The areas are lent to each call, the sizes stand by value in the records, and a
// budget of operations stands for the power supply. DFU and the state area stay two parameters: a call changes one of them at the most,
// and which one differs. The marks are a method each, as in the Rust and in the firmware state: what they share is `firmware_marks::mark`.
#![tactic(auto)]

ghost use Rattle.std.specs.Prelude.{◌≡◌, [], length, None};
ghost use Rattle.mem_flash.specs.Run.{flash};
ghost use Rattle.rules.specs.Calls.{reported, report};
ghost use Rattle.rules.specs.FirmwareUpdater.{updater_get_state, updater_mark_updated, updater_mark_dfu, updater_mark_booted, check_and_mark_updated, read_dfu, read_out};
ghost use Rattle.firmware_hash.specs.Hash.{Hashed};
ghost use Rattle.firmware_updater.specs.Updated.{last_of, Marked, WroteFirmware, PreparedUpdate};

use geometry::{Offset, Refusal, Sizes};
use mem_flash::Budget;
use rules::{Answer, Done, Stop};
use state::State;

// The application's side: new firmware is written to DFU, and the next boot is told of it. The record is handed in and back,
// or lent (crate firmware_lent); it holds the sizes, and the sector that was erased last.
#[derive(Clone, Copy, Debug, PartialEq, Eq)]
pub struct BlockingFirmwareUpdater {
    pub sizes: Sizes,
    pub last_erased_dfu_sector_index: Option<usize>,
}

// A call's answer with the record that it hands back, which a refusal and a cut hand back too.
#[derive(Clone, Copy, Debug, PartialEq, Eq)]
pub struct Written {
    pub updater: BlockingFirmwareUpdater,
    pub answer: Answer,
}

impl BlockingFirmwareUpdater {
    pub fn new(sizes: Sizes) -> Self
        ensures sizes { result.sizes ≡ sizes }
        ensures last { last_of result ≡ None }
    {
        BlockingFirmwareUpdater {
            sizes,
            last_erased_dfu_sector_index: None,
        }
    }

    pub fn get_state(self, dfu: &[u8], state: &[u8]) -> Answer
        ensures { reported result ≡ report (updater_get_state self.sizes (flash [] dfu.now state.now)) 0 }
    {
        let z = self.sizes;
        verdicts::updater_verdict(z, dfu.len(), state.len())?;
        let found = state_area::read(state, z.state);
        Ok(Done {
            state: Some(found),
            count: 0,
        })
    }

    // Fills the buffer with the bytes of DFU from an offset on.
    pub fn read_dfu(self, dfu: &[u8], state: &[u8], offset: Offset, buf: &mut [u8]) -> Answer
        ensures answer { reported result ≡ report (read_dfu self.sizes offset.0 (length buf.old) (flash [] dfu.now state.now)) 0 }
        ensures buffer { buf.new ≡ read_out self.sizes offset.0 buf.old (flash [] dfu.now state.now) }
    {
        verdicts::updater_verdict(self.sizes, dfu.len(), state.len())?;
        if firmware_pieces::range::past_end(dfu.len(), offset, buf.len()) {
            return Err(Stop::Refused(Refusal::Range));
        }
        firmware_pieces::range::copy_out(buf, dfu, offset);
        Ok(Done {
            state: None,
            count: 0,
        })
    }

    pub fn mark_updated(self, dfu: &[u8], state: &mut [u8], budget: u32) -> Answer
        ensures { Marked (updater_mark_updated self.sizes) budget dfu.now state.old state.new result }
    {
        let z = self.sizes;
        let judged = verdicts::updater_verdict(z, dfu.len(), state.len());
        firmware_marks::mark(z.state, state, State::Swap, judged, budget)
    }

    // Marks the update if the first n bytes of DFU have this sum, a CRC-32. Not while a swap is pending. The Rust leaves it to its
    // caller to check an image (02, No. 7).
    pub fn check_and_mark_updated(
        self,
        dfu: &[u8],
        state: &mut [u8],
        n: usize,
        crc: u32,
        budget: u32,
    ) -> Answer
        ensures { Marked (check_and_mark_updated self.sizes n crc) budget dfu.now state.old state.new result }
    {
        let z = self.sizes;
        let checked = firmware_checks::check_verdict(z, dfu, state, n, crc);
        firmware_marks::mark(z.state, state, State::Swap, checked, budget)
    }

    // Not while a swap is pending.
    pub fn mark_dfu(self, dfu: &[u8], state: &mut [u8], budget: u32) -> Answer
        ensures { Marked (updater_mark_dfu self.sizes) budget dfu.now state.old state.new result }
    {
        let z = self.sizes;
        let judged = firmware_pieces::booted_verdict(z, dfu.len(), state);
        firmware_marks::mark(z.state, state, State::DfuDetach, judged, budget)
    }

    pub fn mark_booted(self, dfu: &[u8], state: &mut [u8], budget: u32) -> Answer
        ensures { Marked (updater_mark_booted self.sizes) budget dfu.now state.old state.new result }
    {
        let z = self.sizes;
        let judged = verdicts::updater_verdict(z, dfu.len(), state.len());
        firmware_marks::mark(z.state, state, State::Boot, judged, budget)
    }

    // Writes data at an offset of DFU, sector by sector. Not while a swap is pending.
    pub fn write_firmware(
        self,
        dfu: &mut [u8],
        state: &[u8],
        offset: Offset,
        data: &[u8],
        budget: u32,
    ) -> Written
        ensures { WroteFirmware self budget offset.0 «data».now dfu.old state.now dfu.new result.updater result.answer }
    {
        let mut updater = self;
        let answer = updater.write(dfu, state, offset, data, budget);
        Written { updater, answer }
    }

    // The same on the record where it stands, so that each way out leaves it as the pieces did.
    fn write(
        &mut self,
        dfu: &mut [u8],
        state: &[u8],
        offset: Offset,
        data: &[u8],
        budget: u32,
    ) -> Answer
        ensures { WroteFirmware self.old budget offset.0 «data».now dfu.old state.now dfu.new self.new result }
    {
        let z = self.sizes;
        firmware_pieces::write_verdict(z, dfu.len(), state, offset, data.len())?;
        let last = &mut self.last_erased_dfu_sector_index;
        let ended = firmware_pieces::pieces::write_pieces(
            dfu,
            z.ed as usize,
            z.state.cell(),
            last,
            offset,
            data,
            Budget(budget),
        );
        rules::answer(None, budget, ended)
    }

    // Erases all of DFU. Not while a swap is pending. The Rust hands DFU back; ours only answers, since DFU is the caller's.
    pub fn prepare_update(self, dfu: &mut [u8], state: &[u8], budget: u32) -> Written
        ensures { PreparedUpdate self budget dfu.old state.now dfu.new result.updater result.answer }
    {
        Written {
            updater: self,
            answer: self.erase(dfu, state, budget),
        }
    }

    fn erase(self, dfu: &mut [u8], state: &[u8], budget: u32) -> Answer
        ensures { PreparedUpdate self budget dfu.old state.now dfu.new self result }
    {
        let z = self.sizes;
        firmware_pieces::booted_verdict(z, dfu.len(), state)?;
        let n = dfu.len();
        let unit = z.ed as usize;
        let ended = mem_flash::erase(
            dfu,
            Offset(0),
            Offset(n),
            unit,
            z.state.cell(),
            Budget(budget),
        );
        rules::answer(None, budget, ended)
    }

    // The SHA-512 of the first bytes of DFU, taken in pieces of `chunk` bytes, into 64 bytes.
    pub fn hash(self, dfu: &[u8], state: &[u8], len: usize, chunk: usize, out: &mut [u8]) -> Answer
        ensures { Hashed self.sizes len chunk out.old out.new (flash [] dfu.now state.now) result }
    {
        firmware_hash::hash(self.sizes, dfu, state, len, chunk, out)
    }
}
