//! Why a post or a transfer was refused, as the log names it, and the message-id of one that was taken. Nothing here is called under
//! the kernel's lock.
#![tactic(auto)]

ghost use Rattle.std.specs.Prelude.{◌≡◌, IfOk, option_map};
ghost use Rattle.model.specs.Article.{own_id};
ghost use Rattle.server_judging.specs.Judged.{id_told, of_cause, of_refusal};

use model::Cause;
use server_log_lines::PostRefusal;
use session_posting::Refusal;
use std::alloc::{AllocError, Global};
use text_article::made_id;
use text_fields::{fields_of, find_field, id_in_field};

/// The log's name of why an article was not filed.
pub fn of_refusal(refusal: Refusal) -> PostRefusal
    ensures { result ≡ of_refusal refusal }
{
    match refusal {
        Refusal::Text(cause) => of_cause(cause),
        Refusal::OtherId => PostRefusal::OtherId,
        Refusal::Repeat => PostRefusal::Repeat,
        Refusal::NoGroup => PostRefusal::NoGroup,
        Refusal::Closed => PostRefusal::Closed,
        Refusal::Full => PostRefusal::Full,
        Refusal::Stopped => PostRefusal::Stopped,
    }
}

/// The name of a cause for which a text is no article.
fn of_cause(cause: Cause) -> PostRefusal
    ensures { result ≡ of_cause cause }
{
    match cause {
        Cause::Octets => PostRefusal::Octets,
        Cause::NoEnd => PostRefusal::NoEnd,
        Cause::Field => PostRefusal::Field,
        Cause::Twice => PostRefusal::Twice,
        Cause::Missing => PostRefusal::Missing,
        Cause::Id => PostRefusal::Id,
        Cause::Groups => PostRefusal::Groups,
        Cause::Long => PostRefusal::Long,
    }
}

/// The message-id of an article that this host took under this serial: its own, or the one that the host made. Only its
/// header is read.
pub fn id_of(alloc: Global, host: &[u8], serial: u64, text: &[u8]) -> Result<Vec<u8>, AllocError>
    ensures { IfOk result (λ id. id.items ≡ id_told host.now serial text.now) }
{
    match own_id(alloc, text)? {
        Some(id) => id.to_vec(alloc),
        None => made_id(alloc, host, serial),
    }
}

/// The message-id that a text has itself.
fn own_id<'t>(alloc: Global, text: &'t [u8]) -> Result<Option<&'t [u8]>, AllocError>
    ensures { IfOk result (λ id. option_map (λ id. id.now) id ≡ own_id text.now) }
{
    let fields = fields_of(alloc, text)?;
    match find_field(&fields, b"Message-ID") {
        Some(field) => Ok(Some(id_in_field(field))),
        None => Ok(None),
    }
}
