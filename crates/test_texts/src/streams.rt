//! Messages of streams, however the streams are cut into pieces.

ghost use Rattle.std.specs.Prelude.{◌≡◌};

use std::alloc::{AllocError, Global};
use test_support_data::{Answer, Area, Arguments, RowError};
use text_framing::{Message, Mode, Reader, stuff};

/// The most octets that may be held after each arrival.
const HELD_LIMIT: usize = 4_096;

/// The reader of a stream, which is asked in one mode until a message is complete.
#[derive(Drop)]
pub struct Stream {
    reader: Reader,
    awaits: Option<Mode>,
    ghost same: { reader.awaits ≡ awaits },
}

impl Stream {
    pub fn new(alloc: Global) -> Stream {
        Stream {
            reader: Reader::new(alloc),
            awaits: None,
        }
    }

    fn feed(&mut self, piece: &[u8]) -> Result<(), AllocError> {
        self.reader.feed(piece)
    }

    fn next(&mut self, mode: Mode) -> Result<Option<Message>, RowError> {
        if self.awaits.is_some_and(|awaited| awaited != mode) {
            return Err(RowError::Unreadable);
        }
        match self.reader.next(mode)? {
            Some(message) => {
                self.awaits = None;
                Ok(Some(message))
            }
            None => {
                self.awaits = Some(mode);
                Ok(None)
            }
        }
    }

    fn held(&self) -> usize {
        self.reader.held()
    }
}

impl Area for Stream {
    /// `line SIZE OCTETS` and `block SIZE OCTETS`: the first message that is complete when the octets arrive in pieces of
    /// this size. `stuff TEXT`: the text as it is sent, and the number of its own octets.
    fn answer(
        &mut self,
        alloc: Global,
        call: &str,
        arguments: &mut Arguments<'_>,
        answer: &mut Answer,
    ) -> Result<(), RowError> {
        match call {
            "line" => answer_message(self, Mode::Line, arguments, answer),
            "block" => answer_message(self, Mode::Block, arguments, answer),
            "stuff" => {
                let text = arguments.octets()?;
                answer.octets(stuff(alloc, text.as_slice())?.as_slice())?;
                answer.number(text.len() as u64)?;
                Ok(())
            }
            _ => Err(RowError::Unreadable),
        }
    }
}

fn answer_message(
    stream: &mut Stream,
    mode: Mode,
    arguments: &mut Arguments<'_>,
    answer: &mut Answer,
) -> Result<(), RowError> {
    let size = arguments.small()? as usize;
    let octets = arguments.octets()?;
    match message(stream, mode, octets.as_slice(), size)? {
        Some(Message::Line(line)) => {
            answer.word("line")?;
            answer.octets(line.as_slice())?;
        }
        Some(Message::Block(block)) => {
            answer.word("block")?;
            answer.octets(block.as_slice())?;
        }
        Some(Message::TooLong) => answer.word("too long")?,
        None => answer.word("nothing")?,
    }
    if stream.held() > HELD_LIMIT {
        answer.word("and holds too many octets")?;
    }
    Ok(())
}

/// The first message that is complete when octets arrive in pieces of this size.
fn message(
    stream: &mut Stream,
    mode: Mode,
    octets: &[u8],
    size: usize,
) -> Result<Option<Message>, RowError> {
    if size == 0 {
        return Err(RowError::Unreadable);
    }
    if let Some(message) = stream.next(mode)? {
        return Ok(Some(message));
    }
    for piece in octets.chunks(size) {
        stream.feed(piece)?;
        if let Some(message) = stream.next(mode)? {
            return Ok(Some(message));
        }
    }
    Ok(None)
}
