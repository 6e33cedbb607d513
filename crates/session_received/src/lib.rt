//! A message as it is handed to a session: with what it says.
#![tactic(auto)]

ghost use Rattle.std.specs.Prelude.{◌≡◌, IfOk, IfSome};
ghost use Rattle.model.specs.declared.command.Parsed.TheVariants as parsed;
ghost use Rattle.session_received.specs.Said.{IsOfLine, IsSaid};

use model::{Command, Message, Parsed};
use session_grammar::read;
use std::alloc::{AllocError, Global};
use std::marker::Model;
use text_article::Reading;

/// A message that was read. Contracts see the message.
#[derive(Drop)]
pub struct Received<'m> {
    message: &'m Message,
    said: Said<'m>,
}

/// What a message says.
#[derive(Drop)]
enum Said<'m> {
    Line(Parsed),
    Block(Reading<'m>),
    /// It was too long, or an allocation was refused as it was read.
    Nothing,
}

impl<'m> Model for Received<'m> {
    ghost use Rattle.model.specs.declared.message.Message.{Message as MessageView};
    ghost use Rattle.session_received.specs.Said.{IsSaid};

    ghost Value = { MessageView };

    ghost view = { λ r. r.message.now };

    ghost invariant = { λ r. IsSaid r.message.now r.said };
}

impl<'m> Received<'m> {
    /// Reads a message: the command of a line, and the text of a block. What it says depends on no session and on no spool, so it can be
    /// read before either is at hand. This is never refused: if an allocation is, whatever then serves the message is refused for want of
    /// memory.
    pub fn of(alloc: Global, message: &'m Message) -> Received<'m>
        ensures { result ≡ message.now }
    {
        Received {
            message,
            said: said_by(alloc, message),
        }
    }

    /// The message.
    pub fn message(&self) -> &'m Message
        ensures { result.now ≡ self.now }
    {
        self.message
    }

    /// The command that a line is. `None` also if an allocation was refused as it was read.
    pub fn command(&self) -> Option<&Command>
        ensures { IfSome result (λ command. IsOfLine self.now (parsed.Command command.now)) }
    {
        match &self.said {
            Said::Line(Parsed::Command(command)) => Some(command),
            _ => None,
        }
    }

    /// What a line is (RFC 3977, section 3.1). Refused if the message is no line, or if an allocation was refused as it was read.
    pub fn into_parsed(self) -> Result<Parsed, AllocError>
        ensures { IfOk result (λ parsed. IsOfLine self.entry parsed) }
    {
        match self.said {
            Said::Line(parsed) => Ok(parsed),
            _ => Err(AllocError),
        }
    }

    /// What was read of a block. Refused if the message is no block, or if an allocation was refused as it was read.
    pub fn into_reading(self) -> Result<Reading<'m>, AllocError>
        ensures { IfOk result (λ text. Message.Block text ≡ self.entry) }
    {
        match self.said {
            Said::Block(reading) => Ok(reading),
            _ => Err(AllocError),
        }
    }
}

/// What a message says.
fn said_by<'m>(alloc: Global, message: &'m Message) -> Said<'m>
    ensures { IsSaid message.now result }
{
    match message {
        Message::Line(line) => match read(alloc, line.as_slice()) {
            Ok(parsed) => Said::Line(parsed),
            Err(_) => Said::Nothing,
        },
        Message::Block(text) => match Reading::of(alloc, text.as_slice()) {
            Ok(reading) => Said::Block(reading),
            Err(_) => Said::Nothing,
        },
        Message::TooLong => Said::Nothing,
    }
}
