//! News articles (RFC 5536): reading a text as an article, and the text that is stored of a posted one.
//! `specs/Article.antt` of the crate `model` defines each word.
#![tactic(auto)]

ghost use Rattle.std.specs.Prelude.{◌≡◌, ◌++◌, IfOk, IfErr, OnOk, IsTrue, Some, None, length, option_map};
ghost use Rattle.model.specs.Article as model_article;
ghost use Rattle.model.specs.Names.{is_host};
ghost use Rattle.text_fields.specs.Header.{IsHeader};
ghost use Rattle.text_article.specs.Origins.{names_host, origin_of};
ghost use Rattle.text_article.specs.Parts.{ArePartsOf};
ghost use Rattle.model.specs.declared.cause.Cause.{Cause as CauseView};

mod added_fields;
mod causes;
mod injected;
mod origin;
mod plain_parts;
mod text_reading;

pub use added_fields::made_id;
use added_fields::{added_length, push_front};
use causes::{copied_groups, field_cause, front_length, is_short};
pub use causes::{HEADER_LIMIT, TEXT_LIMIT};
pub use injected::Injected;
use model::{Cause, Moment, Text};
pub use origin::{Origin, ReadError};
use plain_parts::Parts;
use std::alloc::{AllocError, Global};
use std::borrow::CowSlice;
use std::marker::Model;
use text_fields::{find_field, id_in_field, line_count, push_content, unfold, value_of};
pub use text_reading::Reading;

/// A text that is an article, seen by contracts as its octets.
#[derive(Drop)]
pub struct Article<'t> {
    text: &'t [u8],
    header: usize,
    fields: Vec<&'t [u8]>,
    newsgroups: CowSlice<'t, u8>,
}

impl<'t> Model for Article<'t> {
    ghost use Rattle.std.specs.Prelude.{List, ℕ};

    ghost Value = { List ℕ };

    ghost use Rattle.text_article.specs.Kept.{IsKept};

    ghost view = { λ a. a.text.now };

    ghost invariant = { IsKept };
}

impl<'t> Article<'t> {
    /// Reads a text as an article of this origin. `Bad` comes exactly if the text has a cause, and names the first one;
    /// `Memory` may come for any text. The host of a posted text must be a valid host.
    pub fn read(alloc: Global, text: &'t [u8], origin: Origin<'_>) -> Result<Article<'t>, ReadError>
        requires { IsTrue (names_host (origin_of origin)) }
        ensures ok { IfOk result (λ article. article ≡ text.now) }
        ensures no_cause { OnOk result (model_article.cause (origin_of origin.entry) text.now ≡ None) }
        ensures bad { IfErr result (λ error. (cause : CauseView) → error ≡ ReadError.Bad cause
            → model_article.cause (origin_of origin.entry) text.now ≡ Some cause) }
    {
        let reading = Reading::of(alloc, text)?;
        match Article::of(reading, origin) {
            Ok(article) => Ok(article),
            Err(cause) => Err(ReadError::Bad(cause)),
        }
    }

    /// Makes the article of this origin from a text that was read, or names the first cause for which the text is none.
    /// Nothing is allocated. The host of a posted text must be a valid host.
    pub fn of(reading: Reading<'t>, origin: Origin<'_>) -> Result<Article<'t>, Cause>
        requires { IsTrue (names_host (origin_of origin)) }
        ensures ok { IfOk result (λ article. article ≡ reading.entry) }
        ensures no_cause { OnOk result (model_article.cause (origin_of origin.entry) reading.entry ≡ None) }
        ensures bad { IfErr result (λ cause. model_article.cause (origin_of origin.entry) reading.entry ≡ Some cause) }
    {
        let text = reading.text;
        let header = reading.header;
        match reading.parts {
            Ok(parts) => article_of(origin, text, header, parts),
            Err(cause) => Err(cause),
        }
    }

    /// The text.
    pub fn text(&self) -> &[u8]
        ensures { result.now ≡ self.now }
    {
        self.text
    }

    /// The header, without the empty line.
    pub fn header(&self) -> &[u8]
        ensures { result.now ≡ model_article.header self.now }
    {
        &self.text[..self.header]
    }

    /// The part after the empty line.
    pub fn body(&self) -> &[u8]
        ensures { result.now ≡ model_article.body self.now }
    {
        &self.text[self.header + 2..]
    }

    /// The number of lines of the body.
    pub fn line_count(&self) -> usize
        ensures { result ≡ length (model_article.body_lines self.now) }
    {
        line_count(self.body())
    }

    /// The content of the first field of this name, regardless of case: the part after name, colon and one SP, with the
    /// lines that continue it and without each CRLF.
    pub fn field(&self, alloc: Global, name: &[u8]) -> Result<Option<Vec<u8>>, AllocError>
        ensures { IfOk result (λ content. option_map (λ octets. octets.items) content ≡ model_article.field name.now self.now) }
    {
        match find_field(&self.fields, name) {
            Some(field) => Ok(Some(unfold(alloc, value_of(field))?)),
            None => Ok(None),
        }
    }

    /// Appends the content of the first field of this name, as `field` gives it, or nothing if there is none. Refused
    /// only for want of memory; then any octets may follow those that were already there.
    pub fn push_content(&self, octets: &mut Vec<u8>, name: &[u8]) -> Result<(), AllocError>
        ensures { OnOk result (octets.new.items ≡ octets.old.items ++ model_article.content name.now self.now) }
    {
        push_content(octets, &self.fields, name)
    }

    /// The message-id. An article that was posted may have none.
    pub fn id(&self) -> Option<&[u8]>
        ensures { option_map (λ id. id.now) result ≡ model_article.own_id self.now }
    {
        match find_field(&self.fields, b"Message-ID") {
            Some(field) => Some(id_in_field(field)),
            None => None,
        }
    }

    /// The names of its groups, in the order of Newsgroups.
    pub fn groups(&self, alloc: Global) -> Result<Vec<Text>, AllocError>
        ensures { IfOk result (λ groups. groups.items ≡ model_article.groups_of self.now) }
    {
        copied_groups(alloc, self.newsgroups.as_slice())
    }

    /// The text that is stored of it when it is posted to this host at this moment and gets this serial. Path, Date and
    /// Message-ID are put at its start where they are missing.
    pub fn inject(
        &self,
        alloc: Global,
        serial: u64,
        host: &[u8],
        moment: Moment,
    ) -> Result<Vec<u8>, AllocError>
        ensures { IfOk result (λ stored. stored.items ≡ model_article.injected host.now serial moment self.now) }
    {
        let room = added_length(&self.fields, serial, host).saturating_add(self.text.len());
        let mut stored = Vec::with_capacity(alloc, room)?;
        push_front(&mut stored, &self.fields, serial, host, moment)?;
        stored.extend_from_slice(self.text)?;
        Ok(stored)
    }

    /// The text that `inject` gives, with what was read of the posted one, so that the stored text isn't read again. The
    /// host must be valid, and the article one that this host may inject under this serial. Refused only for want of
    /// memory; then the article is gone.
    pub fn injected(
        self,
        alloc: Global,
        serial: u64,
        host: &[u8],
        moment: Moment,
    ) -> Result<Injected<'t>, AllocError>
        requires host { IsTrue (is_host host.now) }
        requires cause { model_article.cause (model_article.Posted host.now serial) self ≡ None }
        ensures { IfOk result (λ stored. stored ≡ model_article.injected host.now serial moment self.entry) }
    {
        let text = self.inject(alloc, serial, host, moment)?;
        let front = text.len() - self.text.len();
        let header = front + self.header;
        Ok(Injected {
            text,
            front,
            header,
            fields: self.fields,
            newsgroups: self.newsgroups,
        })
    }
}

/// Makes the article of this origin from a text whose header ends at `header` and whose lines have no cause, or names the
/// first cause in its fields, or `Long`.
fn article_of<'t>(
    origin: Origin<'_>,
    text: &'t [u8],
    header: usize,
    parts: Parts<'t>,
) -> Result<Article<'t>, Cause>
    requires host { IsTrue (names_host (origin_of origin)) }
    requires header { IsHeader text.now header }
    requires parts { ArePartsOf text.now parts }
    ensures ok { IfOk result (λ article. article ≡ text.now) }
    ensures no_cause { OnOk result (model_article.cause (origin_of origin.entry) text.now ≡ None) }
    ensures bad { IfErr result (λ cause. model_article.cause (origin_of origin.entry) text.now ≡ Some cause) }
{
    let added = front_length(origin, &parts.fields);
    let short = is_short(header, text.len(), added);
    if let Some(cause) = field_cause(origin, &parts.fields, parts.faults, short) {
        return Err(cause);
    }
    Ok(Article {
        text,
        header,
        fields: parts.fields,
        newsgroups: CowSlice::Owned(parts.newsgroups),
    })
}
