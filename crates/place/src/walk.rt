//! The walk over a body's groups, from code to code, which decoding in place and measuring share.
ghost use Rattle.std.specs.Prelude.{◌≡◌, ◌≤◌, ◌<◌, length};
ghost use Rattle.cobs.specs.Code.{body, masked};
ghost use Rattle.place.specs.Walk.{closed, first, past};

use crate::place::BodyError;

/// Where the walk stands: at `from` in a body of `end` bytes, with `to` bytes decoded.
#[derive(Clone, Copy)]
pub(crate) struct Walk {
    pub(crate) from: usize,
    pub(crate) to: usize,
    pub(crate) end: usize,
}

// How long the body is: up to the first sentinel, or all.
fn body_end(buf: &[u8], sentinel: u8) -> usize
    ensures { result ≡ length (body (masked sentinel buf.now)) }
{
    buf.iter().position(|b| *b == sentinel).unwrap_or(buf.len())
}

impl Walk {
    // At the first code of the body, each byte XORed with the sentinel.
    pub(crate) fn first(buf: &[u8], sentinel: u8) -> Result<Walk, BodyError>
        ensures { result ≡ first (masked sentinel buf.now) }
    {
        if buf.is_empty() {
            return Err(BodyError::EmptyFrame);
        }
        let end = body_end(buf, sentinel);
        if end == 0 {
            return Err(BodyError::InvalidFrame { decoded: 0 });
        }
        Ok(Walk {
            from: 0,
            to: 0,
            end,
        })
    }

    // Past the group of this code, or why it is none.
    pub(crate) fn past(self, code: u8) -> Result<Walk, BodyError>
        requires code { 0 < code }
        requires place { (self.to ≤ self.from) × (self.from < self.end) }
        ensures { result ≡ past self code }
    {
        // The code, and the bytes that follow it.
        let n = code as usize;
        if self.end - self.from < n {
            return Err(BodyError::InvalidFrame { decoded: self.to });
        }
        Ok(Walk {
            from: self.from + n,
            to: self.to + n - 1,
            end: self.end,
        })
    }

    // Past the zero that comes between a group of this code and another, unless its code is FF.
    pub(crate) fn closed(self, code: u8) -> Walk
        requires { self.to < self.from }
        ensures { result ≡ closed self code }
    {
        if code == 0xFF {
            return self;
        }
        Walk {
            from: self.from,
            to: self.to + 1,
            end: self.end,
        }
    }
}
