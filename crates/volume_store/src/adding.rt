//! Adds a change to a spool.

ghost use Rattle.std.specs.Prelude.{◌≡◌, ◌≤◌, IfOk, IsTrue, None, length};
ghost use Rattle.std.specs.List.{list_all};
ghost use Rattle.model.specs.Article.{Carried, cause};
ghost use Rattle.model.specs.Lawful.{MayExpire, MayFile, MayFollow, MayMake, is_description_octet};
ghost use Rattle.model.specs.Names.{is_group_name};
ghost use Rattle.model.specs.declared.change.Change.TheVariants as changed;
ghost use Rattle.text_names.specs.Requests.{group_of};
ghost use Rattle.volume_store.specs.Adding.{IsAdded};

use model::{Change, Expiry, Filing, NewGroup};
use session_lookups::FilingError;
use spool::{AddError, ExpireError, Spool};
use std::alloc::{AllocError, Global};
use text_article::{Article, Origin, ReadError};
use text_names::{Description, GroupName, GroupRequest, NameError};

/// Adds a change that may follow those of the spool. Refused as `Full` exactly if there is no room for it, and otherwise
/// only as `Memory`; a refusal changes nothing.
pub(crate) fn add_change(
    alloc: Global,
    spool: &mut Spool,
    change: &Change,
) -> Result<(), FilingError>
    requires { MayFollow spool.old.host spool.old.changes change.now }
    ensures { IsAdded spool.old spool.new change.now result }
{
    match change {
        Change::Group(group) => add_group(alloc, spool, group),
        Change::Article(filing) => add_article(alloc, spool, filing),
        Change::Expire(expiry) => add_expiry(spool, expiry),
    }
}

/// The request of a group that may be made.
fn request_of(alloc: Global, group: &NewGroup) -> Result<GroupRequest, AllocError>
    requires is_name { IsTrue (is_group_name group.now.name) }
    requires short { length group.now.description ≤ 200 }
    requires printable { IsTrue (list_all is_description_octet group.now.description) }
    ensures { IfOk result (λ request. group_of request ≡ group.now) }
{
    let name = match GroupName::read(group.name.as_slice()) {
        Ok(name) => name,
        Err(_) => unreachable!(),
    };
    let description = match Description::read(alloc, group.description.as_slice()) {
        Ok(description) => description,
        Err(NameError::Memory) => return Err(AllocError),
        Err(NameError::Bad) => unreachable!(),
    };
    Ok(GroupRequest {
        name,
        status: group.status,
        description,
        moment: group.moment,
    })
}

/// Makes a group that may be made.
fn add_group(alloc: Global, spool: &mut Spool, group: &NewGroup) -> Result<(), FilingError>
    requires { MayMake spool.old.changes group.now }
    ensures { IsAdded spool.old spool.new (changed.Group group.now) result }
{
    let request = match request_of(alloc, group) {
        Ok(request) => request,
        Err(_) => return Err(FilingError::Memory),
    };
    match spool.add_group(&request) {
        Ok(_) => Ok(()),
        Err(AddError::Full) => Err(FilingError::Full),
        Err(AddError::Memory) => Err(FilingError::Memory),
        Err(AddError::Exists) => unreachable!(),
    }
}

/// Files an article that may be filed.
fn add_article(alloc: Global, spool: &mut Spool, filing: &Filing) -> Result<(), FilingError>
    requires { MayFile spool.old.host spool.old.changes filing.now }
    ensures { IsAdded spool.old spool.new (changed.Article filing.now) result }
{
    let article = match article_of(alloc, filing) {
        Ok(article) => article,
        Err(_) => return Err(FilingError::Memory),
    };
    match spool.add_article(&article, &filing.envelope) {
        Ok(_) => Ok(()),
        Err(error) => Err(error),
    }
}

/// Files an article that may be filed, as `add_article` does, and puts its file into the pack.
pub(crate) fn pack_article(
    alloc: Global,
    spool: &mut Spool,
    filing: &Filing,
) -> Result<(), FilingError>
    requires { MayFile spool.old.host spool.old.changes filing.now }
    ensures { IsAdded spool.old spool.new (changed.Article filing.now) result }
{
    let article = match article_of(alloc, filing) {
        Ok(article) => article,
        Err(_) => return Err(FilingError::Memory),
    };
    match spool.pack_article(&article, &filing.envelope) {
        Ok(_) => Ok(()),
        Err(error) => Err(error),
    }
}

/// The article of a filing whose text is a carried one. Refused only for want of memory.
fn article_of(alloc: Global, filing: &Filing) -> Result<Article<'_>, AllocError>
    requires { cause Carried filing.now.text ≡ None }
    ensures { IfOk result (λ article. article ≡ filing.now.text) }
{
    match Article::read(alloc, filing.text.as_slice(), Origin::Carried) {
        Ok(article) => Ok(article),
        Err(ReadError::Memory) => Err(AllocError),
        Err(ReadError::Bad(_)) => unreachable!(),
    }
}

/// Adds an expiry that may follow.
fn add_expiry(spool: &mut Spool, expiry: &Expiry) -> Result<(), FilingError>
    requires { MayExpire spool.old.changes expiry.now }
    ensures { IsAdded spool.old spool.new (changed.Expire expiry.now) result }
{
    // for the proof: the blocks hold the changes, so that they are few
    spool.kept();
    match spool.expire(expiry.group.as_slice(), expiry.number as u32) {
        Ok(_) => Ok(()),
        Err(ExpireError::Full) => Err(FilingError::Full),
        Err(ExpireError::Memory) => Err(FilingError::Memory),
        Err(ExpireError::NotFound) => unreachable!(),
    }
}
