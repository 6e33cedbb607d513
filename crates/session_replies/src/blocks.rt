//! The multi-line replies that never change. Each call is refused only for want of memory; then the reply may hold any
//! octets, and the caller discards it.

ghost use Rattle.std.specs.Prelude.{◌≡◌, ◌∷◌, ◌++◌, OnOk, flat_map};
ghost use Rattle.model.specs.Commands.{keyword_text, listing_text};
ghost use Rattle.session_replies.specs.Replies.{sent_block};
ghost use Rattle.session_replies.specs.declared.texts.FixedBlock.TheVariants as kinds;

use crate::reply_parts::push_heading;
use crate::texts::{FixedBlock, Heading};
use model::{KEYWORDS, Keyword, LISTINGS, Listing};
use std::alloc::AllocError;

/// The lines of CAPABILITIES before that of LIST.
const CAPABILITIES: &[u8] = b"VERSION 2\r\nREADER\r\nIHAVE\r\nPOST\r\nNEWNEWS\r\nOVER MSGID\r\n";

/// The lines of LIST OVERVIEW.FMT, and the end of the block.
const FIELDS: &[u8] =
    b"Subject:\r\nFrom:\r\nDate:\r\nMessage-ID:\r\nReferences:\r\n:bytes\r\n:lines\r\n.\r\n";

/// What ends the last line of a block, and the block.
const END: &[u8] = b"\r\n.\r\n";

/// Appends the whole reply.
pub fn push_block(reply: &mut Vec<u8>, which: FixedBlock) -> Result<(), AllocError>
    ensures { OnOk result (reply.new.items ≡ reply.old.items ++ sent_block which) }
{
    match which {
        FixedBlock::Capabilities => push_capabilities(reply),
        FixedBlock::Help => push_help(reply),
        FixedBlock::OverviewFormat => push_overview_format(reply),
    }
}

/// Appends CAPABILITIES. Its last line has the keywords of LIST.
fn push_capabilities(reply: &mut Vec<u8>) -> Result<(), AllocError>
    ensures { OnOk result (reply.new.items ≡ reply.old.items ++ sent_block kinds.Capabilities) }
{
    push_heading(reply, Heading::Capabilities)?;
    reply.extend_from_slice(CAPABILITIES)?;
    reply.extend_from_slice(Keyword::List.text())?;
    push_listings(reply, &LISTINGS)?;
    reply.extend_from_slice(END)?;
    Ok(())
}

/// Appends HELP, whose one line has every keyword.
fn push_help(reply: &mut Vec<u8>) -> Result<(), AllocError>
    ensures { OnOk result (reply.new.items ≡ reply.old.items ++ sent_block kinds.Help) }
{
    push_heading(reply, Heading::Help)?;
    reply.extend_from_slice(KEYWORDS[0].text())?;
    push_keywords(reply, &KEYWORDS[1..])?;
    reply.extend_from_slice(END)?;
    Ok(())
}

/// Appends LIST OVERVIEW.FMT.
fn push_overview_format(reply: &mut Vec<u8>) -> Result<(), AllocError>
    ensures { OnOk result (reply.new.items ≡ reply.old.items ++ sent_block kinds.OverviewFormat) }
{
    push_heading(reply, Heading::Information)?;
    reply.extend_from_slice(FIELDS)?;
    Ok(())
}

/// Appends the texts of keywords, each after a space.
fn push_keywords(reply: &mut Vec<u8>, keywords: &[Keyword]) -> Result<(), AllocError>
    ensures { OnOk result (reply.new.items ≡ reply.old.items ++ flat_map (λ k. 32 ∷ keyword_text k) keywords.now) }
{
    for keyword in keywords {
        reply.push(b' ')?;
        reply.extend_from_slice(keyword.text())?;
    }
    Ok(())
}

/// Appends the keywords of listings, each after a space.
fn push_listings(reply: &mut Vec<u8>, listings: &[Listing]) -> Result<(), AllocError>
    ensures { OnOk result (reply.new.items ≡ reply.old.items ++ flat_map (λ k. 32 ∷ listing_text k) listings.now) }
{
    for listing in listings {
        reply.push(b' ')?;
        reply.extend_from_slice(listing.text())?;
    }
    Ok(())
}
