//! The receiver's state: when it is bad, how the batch stands, and what a record's effect makes of it.
ghost use Rattle.std.specs.Prelude.{◌≡◌, ◌<◌};
ghost use Rattle.batch.specs.State.{limit, is_bad, told_stand, stand_told};
ghost use Rattle.batch.specs.Verdict.{after};

use crate::judge::Effect;
use crate::{Receiver, Standing};

impl Receiver {
    // No mark may stand here or above: the slot count, or a taken close's count.
    pub(crate) fn limit(&self) -> usize
        ensures { result ≡ limit self.now }
    {
        match self.close {
            None => self.slots,
            Some(close) => close.count,
        }
    }

    pub(crate) fn is_bad(&self, n: usize) -> bool
        ensures { result ≡ is_bad self.now n }
    {
        // Two tests before anything is counted.
        if self.slots > crate::slots::room_for(n) {
            return true;
        }
        if self.slots > crate::slots::MOST {
            return true;
        }
        let limit = self.limit();
        let marked = marks::count(&self.marks);
        let below = marks::count_below(&self.marks, limit);
        if marked > below {
            return true;
        }
        if limit > self.slots {
            return true;
        }
        self.total > record::MOST_WEIGHT * (marked as u32)
    }

    pub(crate) fn standing(&self) -> Standing
        ensures { told_stand result ≡ stand_told self.now }
    {
        let Some(close) = self.close else {
            return Standing::Open;
        };
        let marked = marks::count(&self.marks);
        if close.count > marked {
            return Standing::Missing(close.count - marked);
        }
        if self.total == close.total {
            return Standing::Complete;
        }
        Standing::Differs
    }

    pub(crate) fn apply(&mut self, effect: Effect)
        requires { (after effect self.old).total < 4294967296 }
        ensures { self.new ≡ after effect self.old }
    {
        match effect {
            Effect::Repeat => {}
            Effect::Store { index, weight } => {
                marks::mark(&mut self.marks, index as usize);
                self.total += weight;
            }
            Effect::Close(close) => self.close = Some(close),
        }
    }
}
