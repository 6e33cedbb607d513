//! Articles: why a text is not one, its parts, what is stored of it, and its overview line.

use crate::moments::moment_at;
use std::alloc::Global;
use test_support_data::{Answer, Area, Arguments, RowError};
use text_article::{Article, Origin, ReadError};
use text_names::is_host;
use text_overview::line;

/// The host to which texts are posted.
const HOST: &[u8] = b"news.example";

/// The serial that a posted text would get.
const SERIAL: u64 = 2;

/// When the posted texts are stored, in seconds since 1970.
const NOW: u64 = 1_000_000_000;

#[derive(Drop)]
pub struct Articles;

impl Area for Articles {
    /// `causes SERIAL TEXT`: why the text is no article, posted and carried. `CALL posted TEXT ..` or
    /// `CALL carried TEXT ..`: what the article answers.
    fn answer(
        &mut self,
        alloc: Global,
        call: &str,
        arguments: &mut Arguments<'_>,
        answer: &mut Answer,
    ) -> Result<(), RowError> {
        if call == "causes" {
            return answer_causes(alloc, arguments, answer);
        }
        let origin = origin_of(arguments.word()?)?;
        let text = arguments.octets()?;
        match read(alloc, text.as_slice(), origin) {
            Ok(article) => answer_article(alloc, &article, call, arguments, answer),
            Err(ReadError::Bad(_)) => Err(RowError::Unreadable),
            Err(ReadError::Memory) => Err(RowError::Memory),
        }
    }
}

fn origin_of(word: &str) -> Result<Origin<'static>, RowError> {
    match word {
        "posted" => Ok(posted(SERIAL)),
        "carried" => Ok(Origin::Carried),
        _ => Err(RowError::Unreadable),
    }
}

fn posted(serial: u64) -> Origin<'static> {
    Origin::Posted { host: HOST, serial }
}

/// The article that a text is.
fn read<'t>(alloc: Global, text: &'t [u8], origin: Origin<'_>) -> Result<Article<'t>, ReadError> {
    match origin {
        Origin::Posted { host, serial } if is_host(host) => {
            Article::read(alloc, text, Origin::Posted { host, serial })
        }
        _ => Article::read(alloc, text, Origin::Carried),
    }
}

fn answer_causes(
    alloc: Global,
    arguments: &mut Arguments<'_>,
    answer: &mut Answer,
) -> Result<(), RowError> {
    let serial = arguments.number()?;
    let text = arguments.octets()?;
    answer.word("posted")?;
    answer_cause(alloc, text.as_slice(), posted(serial), answer)?;
    answer.word("carried")?;
    answer_cause(alloc, text.as_slice(), Origin::Carried, answer)
}

fn answer_cause(
    alloc: Global,
    text: &[u8],
    origin: Origin<'_>,
    answer: &mut Answer,
) -> Result<(), RowError> {
    match read(alloc, text, origin) {
        Ok(_) => answer.word("good")?,
        Err(ReadError::Bad(cause)) => answer.shown(&cause)?,
        Err(ReadError::Memory) => return Err(RowError::Memory),
    }
    Ok(())
}

fn answer_article(
    alloc: Global,
    article: &Article<'_>,
    call: &str,
    arguments: &mut Arguments<'_>,
    answer: &mut Answer,
) -> Result<(), RowError> {
    match call {
        "text" => answer.octets(article.text())?,
        "header" => answer.octets(article.header())?,
        "body" => answer.octets(article.body())?,
        "line_count" => answer.number(article.line_count() as u64)?,
        "id" => answer.octets_or_none(article.id())?,
        "groups" => answer_groups(alloc, article, answer)?,
        _ => return answer_asked(alloc, article, call, arguments, answer),
    }
    Ok(())
}

/// What is asked with an argument: `field ORIGIN TEXT NAME`, `line ORIGIN TEXT NUMBER`, `stored ORIGIN TEXT SERIAL`.
fn answer_asked(
    alloc: Global,
    article: &Article<'_>,
    call: &str,
    arguments: &mut Arguments<'_>,
    answer: &mut Answer,
) -> Result<(), RowError> {
    match call {
        "field" => {
            let field = article.field(alloc, arguments.octets()?.as_slice())?;
            answer.octets_or_none(field.as_deref())?;
        }
        "line" => answer.octets(line(alloc, arguments.number()?, article)?.as_slice())?,
        "stored" => {
            let stored = article.inject(alloc, arguments.number()?, HOST, moment_at(NOW)?)?;
            answer.octets(stored.as_slice())?;
            answer.number(stored.len() as u64)?;
        }
        _ => return Err(RowError::Unreadable),
    }
    Ok(())
}

fn answer_groups(
    alloc: Global,
    article: &Article<'_>,
    answer: &mut Answer,
) -> Result<(), RowError> {
    for group in &article.groups(alloc)? {
        answer.octets(group.as_slice())?;
    }
    Ok(())
}
