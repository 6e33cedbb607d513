//! The causes for which a text is not an article.

ghost use Rattle.std.specs.Prelude.{◌≡◌, ◌==◌, nat_lt, length, map, codes, count_by, bytes_eq, IfOk, IsTrue};
ghost use Rattle.std.specs.List.{list_all, list_any};
ghost use Rattle.model.specs.Article as article;
ghost use Rattle.model.specs.Names as model_names;
ghost use Rattle.text_article.specs.Causes as causes;
ghost use Rattle.text_fields.specs.Header.{IsHeader};
ghost use Rattle.text_article.specs.Origins.{HasSmallSerial, names_host, origin_of};
ghost use Rattle.text_article.specs.Parts.{AreFaults};

use crate::added_fields::added_length;
use crate::origin::Origin;
use crate::plain_parts::Faults;
use memchr::memchr;
use model::{Cause, Text};
use std::alloc::{AllocError, Global};
use text_fields::{
    count, find_field, has_fields_alone, has_lines_alone, id_in_field, is_blank_field, trim,
    unfold, value_of,
};
use text_names::{is_group_name, is_message_id, is_of_host};

/// The largest number of octets of a header that is stored (this project's rule).
pub const HEADER_LIMIT: usize = 8_192;

/// The largest number of octets of a text that is stored (this project's rule).
pub const TEXT_LIMIT: usize = 262_144;

/// The largest number of groups of an article (this project's rule).
const GROUP_LIMIT: usize = 16;

/// The fields that may occur at most once (RFC 5536, 3.1 and 3.2).
const SINGLE_FIELDS: [&[u8]; 7] = [
    b"Date",
    b"From",
    b"Message-ID",
    b"Newsgroups",
    b"Path",
    b"Subject",
    b"References",
];

/// The fields that a client writes.
const WRITTEN_FIELDS: [&[u8]; 3] = [b"From", b"Newsgroups", b"Subject"];

/// The fields that a server adds where they are missing (RFC 5537, 3.5).
const ADDED_FIELDS: [&[u8]; 3] = [b"Date", b"Message-ID", b"Path"];

/// The fields that each article must have (RFC 5536, 3.1).
const MANDATORY_FIELDS: [&[u8]; 6] = [
    b"From",
    b"Newsgroups",
    b"Subject",
    b"Date",
    b"Message-ID",
    b"Path",
];

/// Whether two fields have one of the names.
fn any_twice(fields: &[&[u8]], names: &[&[u8]]) -> bool
    ensures { result ≡ list_any (λ name. nat_lt 1 (count_by (article.is_named name) (map (λ field. field.now) fields.now)))
        (map (λ name. name.now) names.now) }
{
    names.iter().any(|name| count(fields, name) > 1)
}

/// Whether no field has one of the names.
fn any_missing(fields: &[&[u8]], names: &[&[u8]]) -> bool
    ensures { result ≡ list_any (λ name. count_by (article.is_named name) (map (λ field. field.now) fields.now) == 0)
        (map (λ name. name.now) names.now) }
{
    names.iter().any(|name| count(fields, name) == 0)
}

/// Whether a field with one of the names is blank.
fn any_blank(fields: &[&[u8]], names: &[&[u8]]) -> bool
    ensures { result ≡ list_any (causes.is_blank_in (map (λ field. field.now) fields.now)) (map (λ name. name.now) names.now) }
{
    names.iter().any(|name| is_blank_field(fields, name))
}

/// What of the causes in the fields does not depend on the origin, given whether the groups are good.
pub(crate) fn faults_of(fields: &[&[u8]], has_good_groups: bool) -> Faults
    ensures faults { AreFaults result (map (λ field. field.now) fields.now) }
    ensures groups { result.good_groups ≡ has_good_groups }
{
    Faults {
        twice: any_twice(fields, &SINGLE_FIELDS),
        lacks_written: any_missing(fields, &WRITTEN_FIELDS),
        lacks_added: any_missing(fields, &ADDED_FIELDS),
        blank: any_blank(fields, &MANDATORY_FIELDS),
        valid_id: has_valid_id(fields),
        good_groups: has_good_groups,
    }
}

/// Whether a required field is missing, or a mandatory one is blank.
fn lacks_field(origin: Origin<'_>, faults: Faults) -> bool
    ensures { result ≡ causes.lacks_by (origin_of origin.entry) faults.lacks_written faults.lacks_added faults.blank }
{
    match origin {
        Origin::Posted { .. } => faults.lacks_written || faults.blank,
        Origin::Carried => faults.lacks_written || faults.lacks_added || faults.blank,
    }
}

/// Whether there is no message-id, or a valid one.
fn has_valid_id(fields: &[&[u8]]) -> bool
    ensures { result ≡ causes.has_good_id article.Carried (map (λ field. field.now) fields.now) }
{
    match find_field(fields, b"Message-ID") {
        Some(field) => is_message_id(id_in_field(field)),
        None => true,
    }
}

/// Whether there is a message-id with the host as its right side.
fn has_id_of(host: &[u8], fields: &[&[u8]]) -> bool
    ensures { result ≡ causes.has_id_of host.now (map (λ field. field.now) fields.now) }
{
    match find_field(fields, b"Message-ID") {
        Some(field) => is_of_host(host, id_in_field(field)),
        None => false,
    }
}

/// Whether there is no message-id, or one that this origin allows, given whether there is none or a valid one.
fn has_good_id(origin: Origin<'_>, fields: &[&[u8]], has_valid_id: bool) -> bool
    ensures { result ≡ causes.good_id_by (origin_of origin.entry) has_valid_id (map (λ field. field.now) fields.now) }
{
    match origin {
        Origin::Posted { host, .. } => has_valid_id && !has_id_of(host, fields),
        Origin::Carried => has_valid_id,
    }
}

/// The groups that a content lists, separated by commas.
fn groups_in(alloc: Global, content: &[u8]) -> Result<Vec<&[u8]>, AllocError>
    ensures { IfOk result (λ groups. map (λ group. group.now) groups.items ≡ map article.trimmed (model_names.parts 44 content.now)) }
{
    let mut groups = Vec::new(alloc);
    let mut rest = content;
    while let Some(end) = memchr(b',', rest) {
        let (group, later) = rest.split_at(end);
        groups.push(trim(group))?;
        rest = &later[1..];
    }
    groups.push(trim(rest))?;
    Ok(groups)
}

/// A copy of a text without leading and trailing SP and TAB.
fn trimmed_copy(alloc: Global, text: &[u8]) -> Result<Text, AllocError>
    ensures { IfOk result (λ copy. copy ≡ article.trimmed text.now) }
{
    Ok(Text::new(trim(text).to_vec(alloc)?))
}

/// Copies of the groups that a content lists, separated by commas.
pub(crate) fn copied_groups(alloc: Global, content: &[u8]) -> Result<Vec<Text>, AllocError>
    ensures { IfOk result (λ groups. groups.items ≡ map article.trimmed (model_names.parts 44 content.now)) }
{
    let mut groups = Vec::new(alloc);
    let mut rest = content;
    while let Some(end) = memchr(b',', rest) {
        let (group, later) = rest.split_at(end);
        groups.push(trimmed_copy(alloc, group)?)?;
        rest = &later[1..];
    }
    groups.push(trimmed_copy(alloc, rest)?)?;
    Ok(groups)
}

/// Whether the name is one of these.
fn is_among(name: &[u8], names: &[&[u8]]) -> bool
    ensures { result ≡ list_any (bytes_eq name.now) (map (λ other. other.now) names.now) }
{
    names.iter().any(|other| name == *other)
}

/// Whether no two of the names are equal. There are at most 16, so each is compared with all after it.
fn are_distinct(names: &[&[u8]]) -> bool
    ensures { result ≡ article.are_distinct (map (λ name. name.now) names.now) }
{
    let mut rest = names;
    while let [name, later @ ..] = rest {
        if is_among(name, later) {
            return false;
        }
        rest = later;
    }
    true
}

/// Whether each text is a group name.
fn are_group_names(names: &[&[u8]]) -> bool
    ensures { result ≡ list_all model_names.is_group_name (map (λ name. name.now) names.now) }
{
    names.iter().all(|name| is_group_name(name))
}

/// Whether a content lists more groups than an article may have. It takes no memory.
fn lists_too_many(content: &[u8]) -> bool
    ensures { result ≡ nat_lt 16 (length (model_names.parts 44 content.now)) }
{
    GROUP_LIMIT <= commas_in(content)
}

/// The number of commas in a content.
fn commas_in(content: &[u8]) -> usize
    ensures { result ≡ count_by (λ octet. octet == 44) content.now }
{
    content.iter().filter(|octet| **octet == b',').count()
}

/// Whether a content lists 1 to 16 distinct group names.
pub(crate) fn has_good_groups(alloc: Global, content: &[u8]) -> Result<bool, AllocError>
    ensures { IfOk result (λ good. good ≡ causes.has_good_groups content.now) }
{
    if lists_too_many(content) {
        return Ok(false);
    }
    let groups = groups_in(alloc, content)?;
    Ok(groups.len() <= GROUP_LIMIT && are_group_names(&groups) && are_distinct(&groups))
}

/// The content of Newsgroups, empty where the field is missing.
pub(crate) fn newsgroups_in(alloc: Global, fields: &[&[u8]]) -> Result<Vec<u8>, AllocError>
    ensures { IfOk result (λ content. content.items ≡ causes.content_in (codes "Newsgroups") (map (λ field. field.now) fields.now)) }
{
    match find_field(fields, b"Newsgroups") {
        Some(field) => unfold(alloc, value_of(field)),
        None => Ok(Vec::new(alloc)),
    }
}

/// The number of octets that would be put before a text. The host of a posted text must be a valid host.
pub(crate) fn front_length(origin: Origin<'_>, fields: &[&[u8]]) -> usize
    requires { IsTrue (names_host (origin_of origin)) }
    ensures length { result ≡ length (causes.front_for (origin_of origin.entry) (map (λ field. field.now) fields.now)) }
    ensures small { HasSmallSerial (origin_of origin.entry) }
{
    match origin {
        Origin::Posted { host, serial } => added_length(fields, serial, host),
        Origin::Carried => 0,
    }
}

/// Whether header and text stay within their limits when `added` octets are put before them.
pub(crate) fn is_short(header: usize, text: usize, added: usize) -> bool
    ensures { result ≡ causes.is_short header text added }
{
    header <= HEADER_LIMIT
        && text <= TEXT_LIMIT
        && added <= HEADER_LIMIT - header
        && added <= TEXT_LIMIT - text
}

/// The first cause in the lines of a text, whose header ends at `header`.
pub(crate) fn shape_cause(text: &[u8], header: usize) -> Option<Cause>
    requires { IsHeader text.now header }
    ensures { result ≡ causes.shape_cause text.now }
{
    if !has_lines_alone(text) {
        return Some(Cause::Octets);
    }
    if header == text.len() {
        return Some(Cause::NoEnd);
    }
    if !has_fields_alone(text) {
        return Some(Cause::Field);
    }
    None
}

/// The first cause in the fields of a text that holds.
fn first_cause(
    faults: Faults,
    lacks_field: bool,
    has_good_id: bool,
    is_short: bool,
) -> Option<Cause>
    ensures { result ≡ causes.first_of faults.twice lacks_field has_good_id faults.good_groups is_short }
{
    if faults.twice {
        return Some(Cause::Twice);
    }
    if lacks_field {
        return Some(Cause::Missing);
    }
    if !has_good_id {
        return Some(Cause::Id);
    }
    if !faults.good_groups {
        return Some(Cause::Groups);
    }
    if !is_short {
        return Some(Cause::Long);
    }
    None
}

/// The first cause in the fields of a text of this origin, given whether the text is short enough.
pub(crate) fn field_cause(
    origin: Origin<'_>,
    fields: &[&[u8]],
    faults: Faults,
    is_short: bool,
) -> Option<Cause>
    requires { AreFaults faults (map (λ field. field.now) fields.now) }
    ensures { result ≡ causes.field_cause (origin_of origin.entry)
        (map (λ field. field.now) fields.now) faults.good_groups is_short }
{
    let lacking = lacks_field(origin, faults);
    let good_id = has_good_id(origin, fields, faults.valid_id);
    first_cause(faults, lacking, good_id, is_short)
}
