// The judge of power logs: 02, No. 12. A recorder that is not trusted lists flash operations; the judge says whether runs of
// prepare_boot from a freshly marked state can have left this list, whatever the budgets and the images were.
#![tactic(auto)]

ghost use Rattle.power_log.specs.Log.{Judged};

use geometry::{Geometry, Refusal};

// An enum of its own, as the request of the judge names it, with its numbers in `answer_number` and `answer_yes`.
#[derive(Clone, Copy, Debug, PartialEq, Eq)]
pub enum LogAnswer {
    Yes,
    No,
    Refused(Refusal),
}

// Of a log: 65,536 entries of four numbers.
const MOST_NUMBERS: usize = 4 * 65_536;

// The log is a slice of numbers, four to an entry: kind (0 an erase, 1 a write), area (0 active, 1 DFU, 2 state), start, length.
#[tactic(auto, using(crate::proofs::Judges::sizes))]
pub fn judge(log: &[u32], g: Geometry, la: usize, ld: usize, ls: usize) -> LogAnswer
    ensures { Judged g la ld ls log.now result }
{
    if let Err(why) = verdicts::boot_verdict(g, la, ld, ls) {
        return LogAnswer::Refused(why);
    }
    if MOST_NUMBERS < log.len() {
        return LogAnswer::Refused(Refusal::Range);
    }
    if log.len() % 4 != 0 {
        return LogAnswer::No;
    }
    // Nothing is left behind the entries.
    let (entries, _) = log.as_chunks::<4>();
    let page = g.page_size();
    if log_steps::read_swap(entries, g, page, la / page) {
        return LogAnswer::Yes;
    }
    LogAnswer::No
}
