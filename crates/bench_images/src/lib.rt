// The three areas of the bench program: how they start, and what a command does. What is promised is in specs/Images.
#![tactic(auto)]

ghost use Rattle.std.specs.Prelude.{◌≡◌, ◌+◌, ◌%◌, ◌<◌, ◌≤◌, length};
ghost use Rattle.geometry.specs.Refusals.{verdict};
ghost use Rattle.mem_flash.specs.Run.{flash};
ghost use Rattle.rules.specs.Calls.{Did};
ghost use Rattle.lines.specs.Lines.{most_length};
ghost use Rattle.lines.specs.Grammar.{number_of};
ghost use Rattle.bench_images.specs.Images.{filled, blank, call_of, bench_call, areas, used, Fit, Begun, Obeyed};

use boot_loader::BootLoader;
use firmware_state::BlockingFirmwareState;
use geometry::{Geometry, Refusal};
use lines::{Command, Lengths};
use rules::{Answer, Stop};
use state::State;

// The most bytes of an area. All of them are lent; the second line says how many are used.
pub const MOST: usize = lines::MOST_LENGTH as usize;

// The three areas, as long as they may be.
#[derive(Clone, Copy)]
pub struct Areas {
    pub active: [u8; MOST],
    pub dfu: [u8; MOST],
    pub state: [u8; MOST],
}

// What the first two lines said, and whether a boot with them is refused.
#[derive(Clone, Copy)]
pub struct Setup {
    pub g: Geometry,
    pub l: Lengths,
    pub verdict: Result<(), Refusal>,
}

// What a page is filled with: its number from 1, with `before` pages before the area's first, modulo 256.
fn page_byte(before: usize, page: usize) -> u8
    ensures { result ≡ (before + page + 1) % 256 }
{
    ((before % 256 + page % 256 + 1) % 256) as u8
}

// Fills the pages of an area that stand after `before` others.
fn fill(area: &mut [u8], size: usize, before: usize)
    requires { 0 < size }
    ensures { area.new ≡ filled size before (length area.old) }
{
    for (i, byte) in area.iter_mut().enumerate() {
        *byte = page_byte(before, i / size);
    }
}

fn wipe(area: &mut [u8])
    ensures { area.new ≡ blank (length area.old) }
{
    area.fill(State::ERASE_VALUE);
}

impl Areas {
    // DFU's pages go on counting where active's end. Where a boot is refused the images are FF throughout.
    pub fn set_up(&mut self, g: Geometry, l: Lengths) -> Setup
        ensures { (result.g ≡ g) × (result.l ≡ l) × Begun g l self.new result.verdict }
    {
        wipe(&mut self.state);
        let verdict = verdicts::boot_verdict(g, l.active, l.dfu, l.state);
        let Ok(()) = verdict else {
            wipe(&mut self.active);
            wipe(&mut self.dfu);
            return Setup { g, l, verdict };
        };
        let size = g.page_size();
        fill(&mut self.active, size, 0);
        fill(&mut self.dfu, size, l.active / size);
        Setup { g, l, verdict }
    }

    // A command on the areas' first bytes, as many of each as the second line said. Where a boot is refused no call is made.
    pub fn obey(&mut self, s: Setup, command: Command) -> Answer
        ensures { Fit s.l → Obeyed
            (bench_call s.g (verdict s.verdict) command (used s.l self.old))
            (number_of command) s.l self.old self.new result }
    {
        s.verdict?;
        let Areas { active, dfu, state } = self;
        on_parts(s.g, s.l, command, active, dfu, state)
    }
}

// Each area is lent by itself, to be cut. The lengths are at most what is lent, since the line that gave them was read so. The test
// stays: `obey` takes any lengths, and `Fit` is a premise of what it promises.
fn on_parts(
    g: Geometry,
    l: Lengths,
    command: Command,
    active: &mut [u8; MOST],
    dfu: &mut [u8; MOST],
    state: &mut [u8; MOST],
) -> Answer
    ensures { Fit l → Obeyed
        (call_of g command (used l (areas active.old dfu.old state.old)))
        (number_of command) l
        (areas active.old dfu.old state.old)
        (areas active.new dfu.new state.new) result }
{
    if l.active > MOST || l.dfu > MOST || l.state > MOST {
        return Err(Stop::Refused(Refusal::Limit));
    }
    call(
        g,
        command,
        &mut active[..l.active],
        &mut dfu[..l.dfu],
        &mut state[..l.state],
    )
}

fn call(
    g: Geometry,
    command: Command,
    active: &mut [u8],
    dfu: &mut [u8],
    state: &mut [u8],
) -> Answer
    ensures { Did (call_of g command (flash active.old dfu.old state.old)) (number_of command)
        (flash active.old dfu.old state.old)
        (flash active.new dfu.new state.new) result }
{
    let marks = BlockingFirmwareState::new(g.state);
    match command {
        Command::Update(k) => marks.mark_updated(state, k),
        Command::Booted(k) => marks.mark_booted(state, k),
        Command::Boot(k) => BootLoader::new(g).prepare_boot(active, dfu, state, k),
    }
}
