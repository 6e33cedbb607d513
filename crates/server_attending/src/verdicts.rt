//! What the log tells of each post and each transfer.

use kernel_shared::ExecOutcome;
use model::Message;
use server_judging::{id_of, of_refusal};
use server_logging::{Log, LogEvent, PostRefusal, RefusedPost, TakenPost};
use server_releasing::Shared;
use std::alloc::AllocError;
use std::sync::Wait;
use std::time::Clock;

/// A post or a transfer of a session.
#[derive(Clone, Copy)]
pub struct Offered<'a> {
    pub session: u64,
    pub message: &'a Message,
}

/// Tells the log of posts and transfers.
#[derive(Clone, Copy)]
pub struct Verdicts<'a> {
    pub log: &'a Log,
    /// The host of the volume.
    pub host: &'a [u8],
}

impl<'a> Verdicts<'a> {
    /// Tells of a post or a transfer that was answered. Of one that was taken the log tells once it is durable. No thread
    /// holds the kernel meanwhile. A log that leaves such lines out counts them.
    pub fn tell<R: Wait + Clock, K, G>(
        &self,
        shared: &Shared<'_, R, K, G>,
        offered: Offered<'_>,
        answered: ExecOutcome,
    ) {
        if let Some(serial) = answered.accepted {
            self.log.count_taken(shared.rt);
            if !self.log.is_quiet() {
                self.tell_taken(shared, offered, serial);
            }
        }
        if let Some(why) = answered.refusal {
            self.tell_refused(shared, offered.session, of_refusal(why));
        }
    }

    /// Tells of a post or a transfer that was refused for this cause.
    pub fn tell_refused<R: Wait + Clock, K, G>(
        &self,
        shared: &Shared<'_, R, K, G>,
        session: u64,
        cause: PostRefusal,
    ) {
        let refused = RefusedPost { session, cause };
        self.log.note(shared.rt, LogEvent::NotPosted(refused));
    }

    /// Tells of one that was taken. Where memory for its message-id is refused, the line counts as lost.
    fn tell_taken<R: Wait + Clock, K, G>(
        &self,
        shared: &Shared<'_, R, K, G>,
        offered: Offered<'_>,
        serial: u64,
    ) {
        let Message::Block(text) = offered.message else {
            return;
        };
        match self.id_told(shared, text.as_slice(), serial) {
            Ok(id) => self.log.note_taken(
                shared.rt,
                TakenPost {
                    session: offered.session,
                    id,
                    serial,
                },
            ),
            Err(AllocError) => self.log.note_lost(),
        }
    }

    /// The message-id of an article that got this serial. It has octets from 33 to 126 alone.
    fn id_told<R, K, G>(
        &self,
        shared: &Shared<'_, R, K, G>,
        text: &[u8],
        serial: u64,
    ) -> Result<String, AllocError> {
        let id = id_of(shared.alloc, self.host, serial, text)?;
        String::from_utf8_lossy(shared.alloc, id.as_slice())
    }
}
