// The sheet's boots: what comes before the one whose answer counts, that answer, and the areas that it leaves.
use crate::areas::Pages;
use geometry::Refusal;
use rules::{Answer, Done, Stop};
use state::State;

#[derive(Clone, Copy)]
pub enum Step {
    Boot(u32),
    MarkBooted(u32),
}

#[derive(Clone, Copy)]
pub struct Case<'a> {
    pub label: &'a str,
    pub start: Pages<'a>,
    // The words of the state area, of a byte each. A swap is to begin in them.
    pub words: u32,
    pub before: &'a [Step],
    // The budget of the last boot.
    pub budget: u32,
    pub answer: Answer,
    pub end: Pages<'a>,
    // The state area in the end, byte by byte as the sheet has it, so that the two can be laid side by side.
    pub state: &'a [u8],
}

const START: Pages<'static> = Pages {
    active: &[1, 2, 3],
    dfu: &[4, 5, 6, 7],
};

const NO_ACTIVE: Pages<'static> = Pages {
    active: &[],
    dfu: &[4],
};

pub const BOOTS: [Case<'static>; 15] = [
    Case {
        label: "a: boot 24",
        start: START,
        words: 16,
        before: &[],
        budget: 24,
        answer: Ok(Done {
            state: Some(State::Swap),
            count: 24,
        }),
        end: Pages {
            active: &[4, 5, 6],
            dfu: &[4, 1, 2, 3],
        },
        state: b"\xF0\xFF\x00\x00\x00\x00\x00\x00\xFF\xFF\xFF\xFF\xFF\xFF\xFF\xFF",
    },
    Case {
        label: "b: boot 23",
        start: START,
        words: 16,
        before: &[],
        budget: 23,
        answer: Err(Stop::Cut(23)),
        end: Pages {
            active: &[4, 5, 6],
            dfu: &[4, 1, 2, 3],
        },
        state: b"\xF0\xFF\x00\x00\x00\x00\x00\xFF\xFF\xFF\xFF\xFF\xFF\xFF\xFF\xFF",
    },
    Case {
        label: "c: boot 4",
        start: START,
        words: 16,
        before: &[],
        budget: 4,
        answer: Err(Stop::Cut(4)),
        end: Pages {
            active: &[1, 2, 3],
            dfu: &[4, 5, 6, 3],
        },
        state: b"\xF0\xFF\x00\xFF\xFF\xFF\xFF\xFF\xFF\xFF\xFF\xFF\xFF\xFF\xFF\xFF",
    },
    Case {
        label: "d: boot 1",
        start: START,
        words: 16,
        before: &[],
        budget: 1,
        answer: Err(Stop::Cut(1)),
        end: Pages {
            active: &[1, 2, 3],
            dfu: &[4, 5, 6, State::ERASE_VALUE],
        },
        state: b"\xF0\xFF\xFF\xFF\xFF\xFF\xFF\xFF\xFF\xFF\xFF\xFF\xFF\xFF\xFF\xFF",
    },
    Case {
        label: "e: boot 0",
        start: START,
        words: 16,
        before: &[],
        budget: 0,
        answer: Err(Stop::Cut(0)),
        end: Pages {
            active: &[1, 2, 3],
            dfu: &[4, 5, 6, 7],
        },
        state: b"\xF0\xFF\xFF\xFF\xFF\xFF\xFF\xFF\xFF\xFF\xFF\xFF\xFF\xFF\xFF\xFF",
    },
    Case {
        label: "f: boot 24, boot 27",
        start: START,
        words: 16,
        before: &[Step::Boot(24)],
        budget: 27,
        answer: Ok(Done {
            state: Some(State::Swap),
            count: 27,
        }),
        end: Pages {
            active: &[1, 2, 3],
            dfu: &[4, 5, 6, 3],
        },
        state: b"\xC0\xFF\xFF\xFF\xFF\xFF\xFF\xFF\xFF\xFF\xFF\xFF\xFF\xFF\xFF\xFF",
    },
    Case {
        label: "g: boot 24, boot 25",
        start: START,
        words: 16,
        before: &[Step::Boot(24)],
        budget: 25,
        answer: Err(Stop::Cut(25)),
        end: Pages {
            active: &[1, 2, 3],
            dfu: &[4, 5, 6, 3],
        },
        state: b"\xF0\x00\x00\x00\x00\x00\x00\x00\x00\x00\x00\x00\x00\x00\xFF\xFF",
    },
    Case {
        label: "h: boot 24, boot 25, boot 3",
        start: START,
        words: 16,
        before: &[Step::Boot(24), Step::Boot(25)],
        budget: 3,
        answer: Ok(Done {
            state: Some(State::Swap),
            count: 3,
        }),
        end: Pages {
            active: &[1, 2, 3],
            dfu: &[4, 5, 6, 3],
        },
        state: b"\xC0\xFF\xFF\xFF\xFF\xFF\xFF\xFF\xFF\xFF\xFF\xFF\xFF\xFF\xFF\xFF",
    },
    Case {
        label: "i: boot 24, boot 26, boot 0",
        start: START,
        words: 16,
        before: &[Step::Boot(24), Step::Boot(26)],
        budget: 0,
        answer: Ok(Done {
            state: Some(State::Boot),
            count: 0,
        }),
        end: Pages {
            active: &[1, 2, 3],
            dfu: &[4, 5, 6, 3],
        },
        state: b"\xFF\xFF\xFF\xFF\xFF\xFF\xFF\xFF\xFF\xFF\xFF\xFF\xFF\xFF\xFF\xFF",
    },
    // A swap, a confirmation that is cut after its invalidation, and a boot, which finishes it.
    Case {
        label: "j: boot 24, mark_booted 1, boot 3",
        start: START,
        words: 16,
        before: &[Step::Boot(24), Step::MarkBooted(1)],
        budget: 3,
        answer: Ok(Done {
            state: Some(State::Swap),
            count: 2,
        }),
        end: Pages {
            active: &[4, 5, 6],
            dfu: &[4, 1, 2, 3],
        },
        state: b"\xD0\xFF\xFF\xFF\xFF\xFF\xFF\xFF\xFF\xFF\xFF\xFF\xFF\xFF\xFF\xFF",
    },
    // The same with 4N + 2 state words. The last mark would never be read and the image would be mixed, so both boots are refused.
    Case {
        label: "k: 14 state bytes, boot 24, mark_booted 1, boot 7",
        start: START,
        words: 14,
        before: &[Step::Boot(24), Step::MarkBooted(1)],
        budget: 7,
        answer: Err(Stop::Refused(Refusal::StateArea)),
        end: Pages {
            active: &[1, 2, 3],
            dfu: &[4, 5, 6, 7],
        },
        state: b"\xF0\x00\xFF\xFF\xFF\xFF\xFF\xFF\xFF\xFF\xFF\xFF\xFF\xFF",
    },
    // And with 4N + 3, the fewest that are admitted.
    Case {
        label: "k with 15 state bytes",
        start: START,
        words: 15,
        before: &[Step::Boot(24), Step::MarkBooted(1)],
        budget: 7,
        answer: Ok(Done {
            state: Some(State::Swap),
            count: 2,
        }),
        end: Pages {
            active: &[4, 5, 6],
            dfu: &[4, 1, 2, 3],
        },
        state: b"\xD0\xFF\xFF\xFF\xFF\xFF\xFF\xFF\xFF\xFF\xFF\xFF\xFF\xFF\xFF",
    },
    // A word fewer still.
    Case {
        label: "13 state bytes, boot 24",
        start: START,
        words: 13,
        before: &[],
        budget: 24,
        answer: Err(Stop::Refused(Refusal::StateArea)),
        end: Pages {
            active: &[1, 2, 3],
            dfu: &[4, 5, 6, 7],
        },
        state: b"\xF0\xFF\xFF\xFF\xFF\xFF\xFF\xFF\xFF\xFF\xFF\xFF\xFF",
    },
    // No active page at all: it counts as swapped already.
    Case {
        label: "l: no active page, 3 state bytes, boot 3",
        start: NO_ACTIVE,
        words: 3,
        before: &[],
        budget: 3,
        answer: Ok(Done {
            state: Some(State::Swap),
            count: 3,
        }),
        end: Pages {
            active: &[],
            dfu: &[4],
        },
        state: b"\xC0\xFF\xFF",
    },
    Case {
        label: "l with 2 state bytes",
        start: NO_ACTIVE,
        words: 2,
        before: &[],
        budget: 3,
        answer: Err(Stop::Refused(Refusal::StateArea)),
        end: Pages {
            active: &[],
            dfu: &[4],
        },
        state: b"\xF0\xFF",
    },
];
