//! A case: the words of a line after its name. First decimal numbers; after `of` the bytes that are read; after `on` the
//! buffer that is written. Bytes are in hexadecimal, `254*01` is a row of equal ones, and `-` is none. What is read may also be a
//! longer row of zeros alone.
ghost use Rattle.std.specs.Prelude.{◌≤◌, ◌<◌, IfSome};

use crate::calls::Call;

// The most bytes of a message, and of a buffer.
const MOST: usize = 65_552;

/// The most zeros of a message that is zeros alone: one more than the longest that can be encoded.
pub(crate) const MOST_ZEROS: usize = 1_048_577;

/// Bytes and how many of them count: with no heap, an array of the most. By value, since a buffer goes on only from a line that can
/// be read.
#[derive(Clone, Copy)]
pub(crate) struct Bytes {
    pub all: [u8; 65_552],
    pub len: usize,
    ghost fits: { len ≤ 65_552 },
}

/// What a call reads: bytes, or more zeros than their array holds.
#[derive(Clone, Copy)]
pub(crate) enum Message {
    Bytes(Bytes),
    Zeros(usize),
}

/// Which parts a line has.
#[derive(Clone, Copy)]
pub(crate) enum Parts {
    Neither,
    Of,
    On,
    Both,
}

/// A line's name, its numbers and its parts.
pub(crate) type Words<'a> = (&'a str, &'a [usize], Parts);

/// What a line says. A line without `on` keeps the buffer of the lines before it.
#[derive(Clone, Copy)]
pub(crate) struct Case {
    pub call: Call,
    pub message: Message,
    pub buffer: Option<Bytes>,
}

// A row of equal bytes.
#[derive(Clone, Copy)]
struct Row {
    count: usize,
    byte: u8,
}

// The words that were read; with no heap, an array of the most numbers. A word is added in place: as a value that comes back it
// copied all the bytes, for a number too.
#[derive(Clone, Copy)]
struct Given {
    numbers: [usize; 6],
    count: usize,
    message: Option<Message>,
    buffer: Option<Bytes>,
}

fn decimal(word: &str) -> Option<usize> {
    if word.starts_with('+') {
        return None;
    }
    word.parse().ok()
}

// A number below 0 is taken modulo 2 to the 64.
fn signed(word: &str) -> Option<usize> {
    let Some(digits) = word.strip_prefix('-') else {
        return decimal(word);
    };
    Some(0usize.wrapping_sub(decimal(digits)?))
}

// By hand: `to_digit` takes A to F too, which a line may not have.
fn nibble(digit: u8) -> Option<u8>
    ensures { IfSome result (λ n. n < 16) }
{
    match digit {
        b'0'..=b'9' => Some(digit - b'0'),
        b'a'..=b'f' => Some(digit - b'a' + 10),
        _ => None,
    }
}

// Two digits, and nothing after them.
fn octet(word: &str) -> Option<u8> {
    let [high, low] = word.as_bytes() else {
        return None;
    };
    Some(nibble(*high)? * 16 + nibble(*low)?)
}

impl Row {
    fn parse(word: &str) -> Option<Row> {
        let Some((count, byte)) = word.split_once('*') else {
            return Some(Row {
                count: 1,
                byte: octet(word)?,
            });
        };
        Some(Row {
            count: decimal(count)?,
            byte: octet(byte)?,
        })
    }
}

impl Bytes {
    pub(crate) fn new() -> Bytes {
        Bytes {
            all: [0; 65_552],
            len: 0,
        }
    }

    // That row after the bytes, where it fits.
    fn add(&mut self, row: Row) -> Option<()> {
        if MOST - self.len < row.count {
            return None;
        }
        let to = self.len + row.count;
        self.all[self.len..to].fill(row.byte);
        self.len = to;
        Some(())
    }

    // Those that the word says, after the bytes.
    fn add_word(&mut self, word: &str) -> Option<()> {
        if word == "-" {
            return Some(());
        }
        self.add(Row::parse(word)?)
    }
}

impl Message {
    // The same; zeros alone may be more than the array holds, and nothing follows them.
    fn with_word(self, word: &str) -> Option<Message> {
        if word == "-" {
            return Some(self);
        }
        let row = Row::parse(word)?;
        let Message::Bytes(bytes) = self else {
            return None;
        };
        if bytes.len == 0 && row.byte == 0 && MOST < row.count && row.count <= MOST_ZEROS {
            return Some(Message::Zeros(row.count));
        }
        let mut longer = bytes;
        longer.add(row)?;
        Some(Message::Bytes(longer))
    }
}

impl Given {
    fn new() -> Given {
        Given {
            numbers: [0; 6],
            count: 0,
            message: None,
            buffer: None,
        }
    }

    // One past the most is counted, and not kept.
    fn add_number(&mut self, n: usize) {
        if let Some(slot) = self.numbers.get_mut(self.count) {
            *slot = n;
        }
        self.count = self.count.saturating_add(1);
    }

    // One word more: of the buffer once `on` has come, and of the message once `of` has.
    fn add(&mut self, word: &str) -> Option<()> {
        if let Some(buffer) = self.buffer {
            let mut longer = buffer;
            longer.add_word(word)?;
            self.buffer = Some(longer);
        } else if word == "on" {
            self.buffer = Some(Bytes::new());
        } else if let Some(message) = self.message {
            self.message = Some(message.with_word(word)?);
        } else if word == "of" {
            self.message = Some(Message::Bytes(Bytes::new()));
        } else {
            self.add_number(signed(word)?);
        }
        Some(())
    }

    fn parts(&self) -> Parts {
        match (self.message.is_some(), self.buffer.is_some()) {
            (false, false) => Parts::Neither,
            (true, false) => Parts::Of,
            (false, true) => Parts::On,
            (true, true) => Parts::Both,
        }
    }

    // How many numbers there are is told by the last digit of their count.
    fn call(&self, name: &str) -> Option<Call> {
        let numbers = self.numbers.get(..self.count % 10)?;
        Call::named((name, numbers, self.parts()))
    }
}

// The word without the space that ends it.
fn bare(word: &str) -> &str {
    word.strip_suffix(' ').unwrap_or(word)
}

/// What the line says, if it can be read to its end.
pub(crate) fn read(line: &[u8]) -> Option<Case> {
    let mut words = str::from_utf8(line).ok()?.split_inclusive(' ');
    let name = bare(words.next()?);
    let mut given = Given::new();
    for word in words {
        given.add(bare(word))?;
    }
    Some(Case {
        call: given.call(name)?,
        message: given.message.unwrap_or(Message::Bytes(Bytes::new())),
        buffer: given.buffer,
    })
}

/// A number, modulo a byte's size.
pub(crate) fn byte(n: usize) -> u8 {
    (n % 256) as u8
}

/// The first byte; 0 if there is none.
pub(crate) fn first(m: &[u8]) -> u8 {
    m.first().copied().unwrap_or(0)
}
