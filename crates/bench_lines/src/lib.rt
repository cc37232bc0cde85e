// The bench program's lines, on values: a machine that takes the input in pieces and gives the text that is due, a line's at a time.
// What it gives is the definition `output` of the crate `bench_output`; how the two are joined is in specs/Machine. Reading and writing
// are the caller's. `Sound`, `Counted` and `Fit` are premises of the promises and no invariants of the types: docs/ARCHITECTURE names these
// functions, and they take any machine.
#![tactic(auto)]

ghost use Rattle.std.specs.Prelude.{◌≡◌, ℕ, ◌+◌, ◌<◌, ◌≤◌, List, [], ◌++◌, length, take, drop, ◌↔◌, IsTrue};
ghost use Rattle.lines.specs.Lines.{most_bytes, sizes_line, lengths_line, command_line};
ghost use Rattle.bench_images.specs.Images.{Fit, used};
ghost use Rattle.geometry.specs.Refusals.{verdict};
ghost use Rattle.bench_output.specs.Output.{bad, on_sizes, on_lengths, on_command, on_line, over, step};
ghost use Rattle.bench_lines.specs.Machine.{stage_of, most_lines, Fits, Passed, Stepped, Sound, Counted, Goes};

pub use answer_text::Text;
use bench_images::{Areas, MOST, Setup};
use geometry::Geometry;
use lines::{MOST_BYTES, Taken};

// Which line comes next.
#[derive(Clone, Copy)]
pub enum Phase {
    Sizes,
    Lengths(Geometry),
    Commands(Setup),
    // Nothing more is to be read or written: a variant and no None, so that `stage_of` is one match.
    Over,
}

// What the lines so far have made: the next line's kind, how many lines are done, and the areas.
#[derive(Clone, Copy)]
pub struct Bench {
    pub phase: Phase,
    pub lines: u64,
    pub areas: Areas,
}

// The bench, and the next line's first `held` bytes. An array and its count, and no vector: `lines::take_line` takes just these.
#[derive(Drop)]
pub struct Machine {
    pub bench: Bench,
    pub line: [u8; MOST_BYTES],
    pub held: usize,
}

// The text that is due for what was taken of a piece, and where in the piece the next line starts.
#[derive(Clone, Copy)]
pub struct Turn {
    pub text: Text,
    pub at: usize,
}

impl Bench {
    // One line more. The count could only wrap after more lines than anyone can send.
    fn pass(&mut self, next: Phase)
        ensures { Passed self.old next self.new }
    {
        self.phase = next;
        self.lines = self.lines.wrapping_add(1);
    }

    fn bad_line(&mut self) -> Text
        ensures { self.old.lines + 1 < most_lines → Stepped (bad (self.old.lines + 1)) self.old self.new result.items }
    {
        let text = answer_text::bad_line_text(self.lines.wrapping_add(1));
        self.pass(Phase::Over);
        text
    }

    fn on_sizes(&mut self, line: &[u8]) -> Text
        ensures { self.old.lines + 1 < most_lines
            → Stepped (on_sizes (self.old.lines + 1) (sizes_line line.now)) self.old self.new result.items }
    {
        let Some(g) = lines::read_sizes(line) else {
            return self.bad_line();
        };
        self.pass(Phase::Lengths(g));
        Text::new()
    }

    fn on_lengths(&mut self, g: Geometry, line: &[u8]) -> Text
        ensures { self.old.lines + 1 < most_lines
            → Stepped (on_lengths (self.old.lines + 1) g (lengths_line line.now)) self.old self.new result.items }
    {
        let Some(l) = lines::read_lengths(line) else {
            return self.bad_line();
        };
        let setup = self.areas.set_up(g, l);
        self.pass(Phase::Commands(setup));
        Text::new()
    }

    fn on_command(&mut self, s: Setup, line: &[u8]) -> Text
        ensures { self.old.lines + 1 < most_lines → Fit s.l
            → Stepped (on_command (self.old.lines + 1) s.g (verdict s.verdict) (used s.l self.old.areas) (command_line line.now))
            self.old self.new result.items }
    {
        let Some(command) = lines::read_command(line) else {
            return self.bad_line();
        };
        let answer = self.areas.obey(s, command);
        self.pass(Phase::Commands(s));
        answer_text::command_text(command, answer)
    }

    // A line that is whole.
    fn on_line(&mut self, line: &[u8]) -> Text
        ensures { self.old.lines + 1 < most_lines → Fits self.old.phase → length line.now ≤ most_bytes
            → Stepped (on_line (stage_of self.old.phase self.old.areas) (self.old.lines + 1) line.now) self.old self.new result.items }
    {
        match self.phase {
            Phase::Sizes => self.on_sizes(line),
            Phase::Lengths(g) => self.on_lengths(g, line),
            Phase::Commands(s) => self.on_command(s, line),
            Phase::Over => self.after_all(),
        }
    }

    // A line that has more bytes than can be held is bad before its end is seen, whatever it says.
    fn too_long(&mut self) -> Text
        ensures { self.old.lines + 1 < most_lines → (line : List ℕ) → most_bytes < length line
            → Stepped (on_line (stage_of self.old.phase self.old.areas) (self.old.lines + 1) line) self.old self.new result.items }
    {
        match self.phase {
            Phase::Over => self.after_all(),
            _ => self.bad_line(),
        }
    }

    // A line of which nothing is to be written.
    fn after_all(&mut self) -> Text
        ensures { self.old.lines + 1 < most_lines → Stepped (step [] over) self.old self.new result.items }
    {
        self.pass(Phase::Over);
        Text::new()
    }
}

// ---- the input, piece by piece

impl Machine {
    pub fn start() -> Self
        ensures { (result.bench.phase ≡ Phase.Sizes) × (result.bench.lines ≡ 0) × (result.held ≡ 0) }
    {
        Machine {
            bench: Bench {
                phase: Phase::Sizes,
                lines: 0,
                // What they hold until `set_up` is of no account.
                areas: Areas {
                    active: [0; MOST],
                    dfu: [0; MOST],
                    state: [0; MOST],
                },
            },
            line: [0; MOST_BYTES],
            held: 0,
        }
    }

    // Whether nothing more is to be read or written.
    pub fn is_over(&self) -> bool
        ensures { IsTrue result ↔ (self.now.bench.phase ≡ Phase.Over) }
    {
        matches!(self.bench.phase, Phase::Over)
    }

    // A line that is whole: its first n bytes are held.
    fn pass(&mut self, n: usize) -> Text
        ensures line { self.new.line ≡ self.old.line }
        ensures held { self.new.held ≡ 0 }
        ensures stepped { self.old.bench.lines + 1 < most_lines → Fits self.old.bench.phase → n ≤ most_bytes
            → Stepped (on_line (stage_of self.old.bench.phase self.old.bench.areas) (self.old.bench.lines + 1) (take n self.old.line)) self.old.bench self.new.bench result.items }
    {
        self.held = 0;
        if n > self.line.len() {
            return self.bench.bad_line();
        }
        self.bench.on_line(&self.line[..n])
    }

    // Takes the input's piece from `at` on, up to the end of a line or of the piece.
    pub fn next(&mut self, piece: &[u8], at: usize) -> Turn
        ensures at_lt_at { at < length piece.now → at < result.at }
        ensures by_index { (rest : List ℕ)
            → Goes self.old (drop at piece.now ++ rest) result.text.items self.new (drop result.at piece.now ++ rest) }
    {
        match lines::take_line(&mut self.line, self.held, piece, at) {
            Taken::Line(n, next) => {
                let text = self.pass(n);
                Turn { text, at: next }
            }
            Taken::Part(n) => {
                self.held = n;
                Turn {
                    text: Text::new(),
                    at: piece.len(),
                }
            }
            Taken::Long => {
                self.held = 0;
                Turn {
                    text: self.bench.too_long(),
                    at: piece.len(),
                }
            }
        }
    }

    // After the last piece: what is held is a line, the input's end being its end.
    pub fn last(&mut self) -> Text
        ensures line { self.new.line ≡ self.old.line }
        ensures goes { Goes self.old [] result.items self.new [] }
        ensures held { Sound self.old → Counted self.old [] → self.new.held ≡ 0 }
    {
        let n = self.held;
        if n == 0 {
            return Text::new();
        }
        self.pass(n)
    }
}
