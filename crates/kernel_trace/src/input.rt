//! The octets that a session sent and that were not served yet.

ghost use Rattle.std.specs.Prelude.{◌≡◌, ◌++◌, [], List, ℕ, Some, None, IfOk, OnOk, OnErr};
ghost use Rattle.model.specs.declared.message.Mode.{Mode as ItsMode};
ghost use Rattle.kernel_trace.specs.Input.{Found, MayAsk, Waits};

use model::{Message, Mode};
use std::alloc::{AllocError, Global};
use text_framing::Reader;

/// What a session sent that was not served yet.
#[derive(Drop)]
pub struct Input {
    pub(crate) reader: Reader,
    /// The next message, if it was found and is not served yet.
    pub(crate) message: Option<Message>,
}

impl Input {
    pub(crate) fn new(alloc: Global) -> Input
        ensures { (mode : ItsMode) → Waits result mode [] }
    {
        Input {
            reader: Reader::new(alloc),
            message: None,
        }
    }

    /// Takes further octets. Refused only for want of memory, and then nothing is taken.
    pub(crate) fn feed(&mut self, piece: &[u8]) -> Result<(), AllocError>
        ensures ok { OnOk result ((mode : ItsMode) (stream : List ℕ) → Waits self.old mode stream
            → Waits self.new mode (stream ++ piece.now)) }
        ensures err { OnErr result (self.new ≡ self.old) }
    {
        self.reader.feed(piece)
    }

    /// Whether the next message has arrived whole. If so, it is held until it is served. Refused only for want of
    /// memory, and then nothing changes.
    pub(crate) fn find(&mut self, mode: Mode) -> Result<bool, AllocError>
        requires { MayAsk self.old mode }
        ensures found { IfOk result (λ found. (stream : List ℕ) → Waits self.old mode stream → Found found self.new mode stream) }
        ensures err { OnErr result (self.new ≡ self.old) }
    {
        if self.message.is_some() {
            return Ok(true);
        }
        match self.reader.next(mode)? {
            Some(message) => {
                self.message = Some(message);
                Ok(true)
            }
            None => Ok(false),
        }
    }
}
