// What becomes of a member on its way through the calls, as far as the notes tell: nothing is asked.
ghost use Rattle.std.specs.Prelude.{◌≡◌, ◌<◌};
ghost use Rattle.eval.specs.Memo.{NOTES, told_in};
ghost use Rattle.eval.specs.Step.{Steps};

use crate::walk::Walk;
use meaning::Method;

// A `where` drops it, it passes all calls and has a row, or the last call counts it, with whether its predicate is true.
#[derive(Clone, Copy)]
pub(crate) enum Step {
    Dropped,
    Listed,
    Counted(bool),
}

impl<'a> Walk<'a> {
    // What becomes of a member whose notes begin at a place, by the calls from one on; nothing where the notes do not tell.
    #[inline(always)]
    pub(crate) fn step_of(&self, from: usize, place: usize) -> Option<Step>
        requires { place < NOTES }
        ensures { Steps self.now.pipeline.calls.now from place self.now.notes.now result }
    {
        let calls = self.pipeline.calls;
        for i in from..calls.len() {
            match calls[i].method {
                Method::Where => {
                    if !self.told(i, place)? {
                        return Some(Step::Dropped);
                    }
                }
                Method::All | Method::Any | Method::None => {
                    return Some(Step::Counted(self.told(i, place)?));
                }
                Method::Count => return Some(Step::Counted(false)),
                Method::Features => return None,
                Method::Diagnostics => {}
            }
        }
        Some(Step::Listed)
    }

    // Whether the predicate of call i is true of the members whose notes begin at a place, if that is noted.
    #[inline(always)]
    fn told(&self, i: usize, place: usize) -> Option<bool>
        requires { place < NOTES }
        ensures { result ≡ told_in self.now.notes.now i place }
    {
        self.noted(i, place).told()
    }
}
