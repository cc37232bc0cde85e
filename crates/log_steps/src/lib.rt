// The readers of a power log: 02, No. 12. A log is a slice of entries, each of four numbers. A step leaves the erases of its page, its chunk
// writes and its mark, and may be begun again after a cut; the two directions take turns.
#![tactic(auto)]

ghost use Rattle.std.specs.Prelude.{◌≡◌, ◌+◌, ◌*◌, ◌^◌, ◌≤◌, ◌<◌, is_ok};
ghost use Rattle.rules.specs.Steps.{swap_from};
ghost use Rattle.log_steps.specs.Entries.{entries};
ghost use Rattle.log_steps.specs.Steps.{step_for, nth, size};
ghost use Rattle.log_steps.specs.Reader.{tried, read_step, reads, Fits};

use geometry::Geometry;

// What was done: in a log 0 is an erase, 1 a write.
#[derive(Clone, Copy, Debug, PartialEq, Eq)]
pub enum Kind {
    Erase,
    Write,
}

// Where it was done: in a log 0 is active, 1 DFU, 2 the state area.
#[derive(Clone, Copy, Debug, PartialEq, Eq)]
pub enum Area {
    Active,
    Dfu,
    State,
}

#[derive(Clone, Copy, Debug, PartialEq, Eq)]
pub struct Entry {
    pub kind: Kind,
    pub area: Area,
    pub start: usize,
    pub length: usize,
}

// An entry that cannot stand where it does.
#[derive(Clone, Copy, Debug, PartialEq, Eq)]
pub struct Misfit;

impl TryFrom<u32> for Kind {
    ghost use Rattle.log_steps.specs.Code.{ReadsKind};

    type Error = Misfit;

    ghost try_from_gives = { ReadsKind };

    fn try_from(number: u32) -> Result<Kind, Misfit> {
        match number {
            0 => Ok(Kind::Erase),
            1 => Ok(Kind::Write),
            _ => Err(Misfit),
        }
    }
}

impl TryFrom<u32> for Area {
    ghost use Rattle.log_steps.specs.Code.{ReadsArea};

    type Error = Misfit;

    ghost try_from_gives = { ReadsArea };

    fn try_from(number: u32) -> Result<Area, Misfit> {
        match number {
            0 => Ok(Area::Active),
            1 => Ok(Area::Dfu),
            2 => Ok(Area::State),
            _ => Err(Misfit),
        }
    }
}

impl TryFrom<[u32; 4]> for Entry {
    ghost use Rattle.log_steps.specs.Code.{ReadsEntry};

    type Error = Misfit;

    ghost try_from_gives = { ReadsEntry };

    fn try_from(row: [u32; 4]) -> Result<Entry, Misfit> {
        let [kind, area, start, length] = row;
        Ok(Entry {
            kind: Kind::try_from(kind)?,
            area: Area::try_from(area)?,
            start: start as usize,
            length: length as usize,
        })
    }
}

// What a step leaves in a log, as numbers: so many erases of a page's units, so many chunks, and the mark's word.
#[derive(Clone, Copy)]
pub struct Step {
    pub area: Area,
    pub start: usize,
    pub units: usize,
    pub unit: usize,
    pub chunks: usize,
    pub chunk: usize,
    pub mark: usize,
    pub word: usize,
    pub ghost few: { (units ≤ 2 ^ 32) × (chunks ≤ 2 ^ 32) },
    pub ghost fits: { (start + units * unit ≤ 2 ^ 34) × (start + chunks * chunk ≤ 2 ^ 34) },
}

impl Step {
    ghost use Rattle.log_steps.specs.Code.{numbers, plain, Tells};

    // So many entries.
    #[tactic(auto, unfolding(crate::specs::Steps::size))]
    fn size(self) -> usize
        ensures { result ≡ size (plain self) }
    {
        self.units + self.chunks + 1
    }

    // Entry j.
    #[tactic(auto, unfolding(crate::specs::Steps::nth, state::specs::Choice::pick))]
    fn nth(self, j: usize) -> Entry
        ensures { numbers result ≡ nth (plain self) j }
    {
        if j < self.units {
            return Entry {
                kind: Kind::Erase,
                area: self.area,
                start: self.start + j * self.unit,
                length: self.unit,
            };
        }
        let written = j - self.units;
        if written < self.chunks {
            return Entry {
                kind: Kind::Write,
                area: self.area,
                start: self.start + written * self.chunk,
                length: self.chunk,
            };
        }
        Entry {
            kind: Kind::Write,
            area: Area::State,
            start: self.mark,
            length: self.word,
        }
    }

    // How much of the step is read behind an entry, with so much of the present try read before it: the entry goes on with the try, or
    // begins the step again; or it can do neither.
    #[tactic(auto, using(crate::proofs::Entries::entries_same), unfolding(crate::specs::Reader::tried, state::specs::Choice::pick))]
    fn tried(self, done: usize, entry: Entry) -> Option<usize>
        requires { done < 2 ^ 34 }
        ensures { result ≡ tried (plain self) done (numbers entry) }
    {
        if entry == self.nth(done) {
            return Some(done + 1);
        }
        if entry == self.nth(0) {
            return Some(1);
        }
        None
    }

    // Reads the tries of the step, to its mark: what stands behind it, or nothing where the log ends first.
    #[tactic(auto, using(crate::proofs::Reading::rows_read), unfolding(crate::specs::Steps::size))]
    fn read<'a>(self, log: &'a [[u32; 4]]) -> Result<Option<&'a [[u32; 4]]>, Misfit>
        ensures { Tells log.now (read_step (plain self) 0 (entries log.now)) result }
    {
        let size = self.size();
        let mut done = 0;
        for (i, row) in log.iter().enumerate() {
            done = self.tried(done, Entry::try_from(*row)?).ok_or(Misfit)?;
            if done == size {
                return Ok(Some(&log[i + 1..]));
            }
        }
        Ok(None)
    }
}

// Where the two readers stand: the rest of the log, the pages that are left to swap, and the next step. The last of those pages goes to
// DFU, one page further, and then to active.
#[derive(Clone, Copy)]
struct Reader<'a> {
    log: &'a [[u32; 4]],
    g: Geometry,
    page: usize,
    left: usize,
    step: usize,
    ghost fits: { Fits g page left step },
}

// The readers return after so many pages, so that the stack does not grow with the log.
const DEEPEST: usize = 16;

impl<'a> Reader<'a> {
    ghost use Rattle.log_steps.specs.Code.{area_of, plain, to_read, to_read_active, Reaches};

    // The next step fills the last page in an area that has erase units of so many bytes.
    #[tactic(auto, unfolding(crate::specs::Steps::step_for))]
    fn next_step(self, area: Area, unit: u32) -> Step
        requires { 0 < unit }
        ensures { plain result ≡ step_for self.entry.g self.entry.page (area_of area) unit self.entry.left (2 + self.entry.step) }
    {
        let unit = unit as usize;
        let chunk = self.g.b as usize;
        let word = self.g.state.ws as usize;
        Step {
            area,
            start: self.left * self.page,
            units: self.page / unit,
            unit,
            chunks: self.page / chunk,
            chunk,
            mark: (2 + self.step) * word,
            word,
        }
    }

    // Reads on where the next step goes to DFU. The two readers call each other, as the rules ask, for so many pages at most.
    #[cycle(to_active_to_dfu)]
    #[tactic(auto, using(crate::proofs::Turns::turns))]
    fn to_dfu(self, deep: usize) -> Result<Option<Reader<'a>>, Misfit>
        ensures { Reaches self.entry.log.now deep (to_read self.entry) result }
    {
        if self.left == 0 {
            if self.log.is_empty() {
                return Ok(None);
            }
            return Err(Misfit);
        }
        if deep == 0 {
            return Ok(Some(self));
        }
        let Some(log) = self.next_step(Area::Dfu, self.g.ed).read(self.log)? else {
            return Ok(None);
        };
        let behind = Reader {
            log,
            g: self.g,
            page: self.page,
            left: self.left - 1,
            step: self.step + 1,
        };
        behind.to_active(deep - 1)
    }

    // The same behind a step to DFU: the page goes to active, and the pages below it are left.
    #[cycle(to_active_to_dfu)]
    #[tactic(auto, using(crate::proofs::Turns::turns))]
    fn to_active(self, deep: usize) -> Result<Option<Reader<'a>>, Misfit>
        requires { Fits self.g self.page self.left (self.step + 1) }
        ensures { Reaches self.entry.log.now deep (to_read_active self.entry) result }
    {
        let Some(log) = self.next_step(Area::Active, self.g.ea).read(self.log)? else {
            return Ok(None);
        };
        let behind = Reader {
            log,
            g: self.g,
            page: self.page,
            left: self.left,
            step: self.step + 1,
        };
        behind.to_dfu(deep)
    }

    // Reads to the log's end.
    fn finish(self) -> Result<(), Misfit>
        ensures { is_ok result ≡ to_read self.entry }
    {
        let mut reached = self.to_dfu(DEEPEST)?;
        while let Some(reader) = reached {
            reached = reader.to_dfu(DEEPEST)?;
        }
        Ok(())
    }
}

// Whether a log can be read from the swap's first step on.
pub fn read_swap(log: &[[u32; 4]], g: Geometry, page: usize, pages: usize) -> bool
    requires { Fits g page pages 0 }
    ensures { result ≡ reads g (swap_from pages 0) (entries log.now) }
{
    let reader = Reader {
        log,
        g,
        page,
        left: pages,
        step: 0,
    };
    reader.finish().is_ok()
}
