//! Articles that are sent to a spool.

use std::alloc::{AllocError, Global};

/// An article that is sent: its message-id, its groups, and the number of octets that it is padded to. Without an id it
/// lacks the fields that the server adds.
#[derive(Clone, Copy)]
pub struct Sent<'a> {
    pub id: &'a str,
    pub groups: &'a str,
    pub size: usize,
}

impl Sent<'_> {
    /// Its octets.
    pub fn text(&self, alloc: Global) -> Result<Vec<u8>, AllocError> {
        let Sent { id, groups, size } = self;
        let mut text = Vec::new(alloc);
        if !id.is_empty() {
            let added = format!(in alloc;
                "Path: p!not-for-mail\r\nDate: Sun, 09 Sep 2001 01:46:40 +0000\r\nMessage-ID: {id}\r\n"
            )?;
            text.extend_from_slice(added.as_bytes())?;
        }
        let written = format!(in alloc;
            "From: a@example.org\r\nNewsgroups: {groups}\r\nSubject: one\r\n\r\nhi\r\n"
        )?;
        text.extend_from_slice(written.as_bytes())?;
        if text.len() < *size {
            text.resize(size.saturating_sub(2), b'a')?;
            text.extend_from_slice(b"\r\n")?;
        }
        Ok(text)
    }
}
