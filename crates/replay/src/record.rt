// A record of a sample: a call, what is lent to it, and what the original answered and left.
ghost use Rattle.std.specs.Prelude.{◌≡◌, IfOk};
ghost use Rattle.arrayvec.specs.ArrayVec.{array_vec_len};

use crate::SampleError;
use crate::kind::Kind;
use arrayvec::ArrayVec;
use byteorder::{ByteOrder, LittleEndian};
use std::io;
use std::io::Read;

// The numbers at the head of a record, of four bytes each; the halves of one of eight bytes count apart.
const HEAD_NUMBERS: usize = 22;

// No part of a record is longer.
const LONGEST: usize = 64;

type Part = ArrayVec<u8, LONGEST>;

// What the calls read of the sizes, one of them all eight.
#[derive(Clone, Copy)]
struct Sizes {
    ea: u32,
    wa: u32,
    ed: u32,
    wd: u32,
    es: u32,
    ws: u32,
    b: u32,
    ev: u32,
}

// How long each part is that a record lends.
#[derive(Clone, Copy)]
struct Lengths {
    active: u32,
    dfu: u32,
    state: u32,
    data: u32,
    out: u32,
}

// The numbers at the head of a record, as the sample has them: a kind that is unknown is told only where the record is replayed.
#[derive(Clone, Copy)]
struct Head {
    kind: u32,
    sizes: Sizes,
    lengths: Lengths,
    budget: u32,
    offset: u64,
    last_before: u32,
    result: u64,
    last_after: u32,
}

// A number of eight bytes, by its halves.
fn long(low: u32, high: u32) -> u64 {
    u64::from(high) << 32 | u64::from(low)
}

impl Head {
    // The head comes in one read, since nothing is held between the input and the sample.
    fn read(input: &mut impl Read) -> io::Result<Self> {
        let mut head = [0; 4 * HEAD_NUMBERS];
        input.read_exact(&mut head)?;
        let mut numbers = [0; HEAD_NUMBERS];
        LittleEndian::read_u32_into(&head, &mut numbers);
        // the record's length comes first, which those of its parts give as well
        let [
            _,
            kind,
            ea,
            wa,
            ed,
            wd,
            es,
            ws,
            b,
            ev,
            active,
            dfu,
            state,
            data,
            out,
            budget,
            offset_low,
            offset_high,
            last_before,
            result_low,
            result_high,
            last_after,
        ] = numbers;
        Ok(Head {
            kind,
            sizes: Sizes {
                ea,
                wa,
                ed,
                wd,
                es,
                ws,
                b,
                ev,
            },
            lengths: Lengths {
                active,
                dfu,
                state,
                data,
                out,
            },
            budget,
            offset: long(offset_low, offset_high),
            last_before,
            result: long(result_low, result_high),
            last_after,
        })
    }
}

fn read_part(input: &mut impl Read, length: u32) -> Result<Part, SampleError>
    ensures { IfOk result (λ part. array_vec_len part ≡ length) }
{
    if length as usize > LONGEST {
        return Err(SampleError::Broken);
    }
    let mut part = Part::from([0; LONGEST]);
    part.truncate(length as usize);
    input.read_exact(&mut part)?;
    Ok(part)
}

// Whether a part is what comes next in the sample. Where the sample ends first the part differs, and no record follows.
fn comes_next(input: &mut impl Read, part: &Part) -> Result<bool, SampleError> {
    let mut next = [0; LONGEST];
    let next = &mut next[..part.len()];
    match input.read_exact(next).map_err(SampleError::from) {
        Ok(()) => Ok(*next == **part),
        Err(SampleError::Broken) => Ok(false),
        Err(error) => Err(error),
    }
}

// What a record lends to its call: the areas, the bytes that are written, where bytes are read to, and the sector erased last.
#[derive(Drop)]
struct Lent {
    active: Part,
    dfu: Part,
    state: Part,
    data: Part,
    out: Part,
    last: u32,
}

impl Lent {
    fn read(input: &mut impl Read, head: &Head) -> Result<Self, SampleError> {
        let lengths = head.lengths;
        Ok(Lent {
            active: read_part(input, lengths.active)?,
            dfu: read_part(input, lengths.dfu)?,
            state: read_part(input, lengths.state)?,
            data: read_part(input, lengths.data)?,
            out: read_part(input, lengths.out)?,
            last: head.last_before,
        })
    }

    // The call, and its result.
    fn call(&mut self, kind: Kind, head: &Head) -> u64 {
        match kind {
            Kind::PrepareBoot => self.prepare_boot(head),
            Kind::ReadState => self.get_state(head, embassy_boot::eb_read_state),
            Kind::StateGetState => self.get_state(head, embassy_boot::eb_state_get_state),
            Kind::StateMarkUpdated => self.mark(head, embassy_boot::eb_state_mark_updated),
            Kind::StateMarkDfu => self.mark(head, embassy_boot::eb_state_mark_dfu),
            Kind::StateMarkBooted => self.mark(head, embassy_boot::eb_state_mark_booted),
            Kind::UpdaterGetState => self.updater_get_state(head),
            Kind::UpdaterMarkUpdated => {
                self.updater_mark(head, embassy_boot::eb_updater_mark_updated)
            }
            Kind::UpdaterMarkDfu => self.updater_mark(head, embassy_boot::eb_updater_mark_dfu),
            Kind::UpdaterMarkBooted => self.updater_mark(
                head,
                embassy_boot::eb_updater_mark_booted,
            ),
            Kind::ReadDfu => self.read_dfu(head),
            Kind::WriteFirmware => self.write_firmware(head),
            Kind::PrepareUpdate => self.prepare_update(head),
            Kind::StateFrom => u64::from(embassy_boot::eb_state_from(&self.data)),
        }
    }

    fn prepare_boot(&mut self, head: &Head) -> u64 {
        let s = head.sizes;
        embassy_boot::eb_prepare_boot(
            &mut self.active,
            &mut self.dfu,
            &mut self.state,
            s.ea,
            s.wa,
            s.ed,
            s.wd,
            s.es,
            s.ws,
            s.b,
            s.ev,
            head.budget,
        )
    }

    fn get_state<F: Fn(&[u8], u32, u32, u32) -> u64>(&self, head: &Head, get: F) -> u64
        requires { F.IsAlwaysCallable get }
    {
        let s = head.sizes;
        get(&self.state, s.es, s.ws, s.ev)
    }

    fn mark<F: Fn(&mut [u8], u32, u32, u32, u32) -> u64>(&mut self, head: &Head, mark: F) -> u64
        requires { F.IsAlwaysCallable mark }
    {
        let s = head.sizes;
        mark(&mut self.state, s.es, s.ws, s.ev, head.budget)
    }

    fn updater_get_state(&self, head: &Head) -> u64 {
        let s = head.sizes;
        embassy_boot::eb_updater_get_state(&self.dfu, &self.state, s.ed, s.wd, s.es, s.ws, s.ev)
    }

    fn updater_mark<F: Fn(&[u8], &mut [u8], u32, u32, u32, u32, u32, u32) -> u64>(
        &mut self,
        head: &Head,
        mark: F,
    ) -> u64
        requires { F.IsAlwaysCallable mark }
    {
        let s = head.sizes;
        mark(
            &self.dfu,
            &mut self.state,
            s.ed,
            s.wd,
            s.es,
            s.ws,
            s.ev,
            head.budget,
        )
    }

    // The boundary takes 32 bits of the offset.
    fn read_dfu(&mut self, head: &Head) -> u64 {
        let s = head.sizes;
        let offset = (head.offset & 0xFFFF_FFFF) as u32;
        embassy_boot::eb_updater_read_dfu(
            &self.dfu,
            &self.state,
            s.ed,
            s.wd,
            s.es,
            s.ws,
            s.ev,
            offset,
            &mut self.out,
        )
    }

    fn write_firmware(&mut self, head: &Head) -> u64 {
        let s = head.sizes;
        embassy_boot::eb_updater_write_firmware(
            &mut self.dfu,
            &self.state,
            s.ed,
            s.wd,
            s.es,
            s.ws,
            s.ev,
            head.offset,
            &self.data,
            &mut self.last,
            head.budget,
        )
    }

    fn prepare_update(&mut self, head: &Head) -> u64 {
        let s = head.sizes;
        embassy_boot::eb_updater_prepare_update(
            &mut self.dfu,
            &self.state,
            s.ed,
            s.wd,
            s.es,
            s.ws,
            s.ev,
            head.budget,
        )
    }
}

// Replays the record that comes next: its kind where the call came out the same. All that the record holds is read, however it
// comes out, since the next one follows.
pub fn replay(input: &mut impl Read) -> Result<Option<Kind>, SampleError> {
    let head = Head::read(input)?;
    let mut lent = Lent::read(input, &head)?;
    let kind = Kind::try_from(head.kind)?;
    let result = lent.call(kind, &head);
    let mut is_same = result == head.result && lent.last == head.last_after;
    for part in [&lent.active, &lent.dfu, &lent.state, &lent.out] {
        is_same &= comes_next(input, part)?;
    }
    Ok(is_same.then_some(kind))
}
