//! The articles that are new (RFC 3977, section 7.4). The wildmat is matched with the name of each group once, and with
//! that of the first one that it matches twice. No text is read.

ghost use Rattle.std.specs.Prelude.{◌≡◌, ◌+◌, ◌-◌, ◌<◌, ◌++◌, ℕ, IfOk, IsSome, IsTrue, OnOk, false, length, map, option_map};
ghost use Rattle.std.specs.Prelude.{slice_index_or, true};
ghost use Rattle.std.specs.List.{list_any};
ghost use Rattle.std.specs.Option.{option_to_list};
ghost use Rattle.model.specs.Stream.{Octets};
ghost use Rattle.model.specs.Article as article;
ghost use Rattle.model.specs.Lawful.{IsLawful};
ghost use Rattle.model.specs.Names as model;
ghost use Rattle.model.specs.Spool.{Spool, articles};
ghost use Rattle.session_lookups.specs.Held.{article_with, groups_now, text_of};
ghost use Rattle.session_lookups.specs.News.{new_lines};
ghost use Rattle.spool_groups.specs.Finding.{EachRises, is_matching};
ghost use Rattle.spool_groups.specs.Shown.{shown};

use crate::Index;
use session_lookups::is_since;
use spool_groups::{Group, mark_groups, matching_from};
use std::alloc::AllocError;

impl Index {
    ghost use Rattle.spool_index.specs.View.{Indexes};

    /// The message-id of the article with this serial, if there is one.
    pub fn id(&self, serial: u64) -> Option<&[u8]>
        ensures { (S : Spool) → Indexes S self.now
            → option_map (λ id. id.now) result ≡ option_map (λ a. article.id a.text) (article_with S serial) }
    {
        match self.note(serial) {
            Some(note) => note.id(),
            None => None,
        }
    }

    /// Appends the message-id of the article with this serial; appends nothing if there is none. Refused only for want
    /// of memory; then the reply may hold any octets, and the caller discards it.
    pub fn push_id(&self, serial: u64, reply: &mut Vec<u8>) -> Result<(), AllocError>
        ensures { OnOk result ((S : Spool) → Indexes S self.now → IsSome (article_with S serial)
            → reply.new.items ≡ reply.old.items ++ article.id (text_of S serial)) }
    {
        match self.id(serial) {
            Some(id) => reply.extend_from_slice(id),
            None => Ok(()),
        }
    }

    /// Appends a line for each article that was filed at `from` or later, in seconds since 1970, and that is in a group
    /// whose name the wildmat matches: its message-id and CRLF, in rising serial. Refused only for want of memory; then
    /// the reply may hold any octets, and the caller discards it. The time it takes grows with the number of groups and,
    /// if the wildmat matches one of them that has such an article, with the number of changes since `from`.
    pub fn push_new_ids(
        &self,
        wildmat: &[u8],
        from: i64,
        reply: &mut Vec<u8>,
    ) -> Result<(), AllocError>
        requires { IsTrue (model.is_wildmat wildmat.now) }
        ensures { OnOk result ((host : Octets) (S : Spool) → IsLawful host S → Indexes S self.now
            → reply.new.items ≡ reply.old.items ++ new_lines S wildmat.now from (articles S)) }
    {
        let older = self.older_than(from);
        let groups = matching_from(&self.groups, wildmat, older);
        if groups.is_empty() {
            return Ok(());
        }
        let marks = self.marks(groups, wildmat, older)?;
        for place in older..self.notes.len() as u64 {
            if marks[(place - older) as usize] {
                self.push_if_since(place + 1, from, reply)?;
            }
        }
        Ok(())
    }

    /// For each change after the first ones, whether it filed an article that is in one of these groups, if the wildmat
    /// matches the name of the group.
    fn marks(&self, groups: &[Group], wildmat: &[u8], older: u64) -> Result<Vec<bool>, AllocError>
        requires { IsTrue (model.is_wildmat wildmat.now) }
        ensures size { IfOk result (λ marks. length marks.items ≡ length self.now.notes - older) }
        ensures marked { IfOk result (λ marks. EachRises (map shown groups.now) → (k : ℕ) → k < length marks.items
            → slice_index_or marks.items k false ≡ list_any (is_matching wildmat.now (older + 1 + k)) (map shown groups.now)) }
    {
        let size = (self.notes.len() as u64).saturating_sub(older) as usize;
        let mut marks = vec![in self.alloc; false; size]?;
        mark_groups(groups, wildmat, older, &mut marks);
        Ok(marks)
    }

    /// Appends the line of the article with this serial, if there is one that was filed at `from` or later.
    fn push_if_since(&self, serial: u64, from: i64, reply: &mut Vec<u8>) -> Result<(), AllocError>
        ensures { OnOk result ((S : Spool) (w : Octets) → Indexes S self.now
            → list_any (model.wildmat_matches w) (groups_now S serial) ≡ true
            → reply.new.items ≡ reply.old.items ++ new_lines S w from (option_to_list (article_with S serial))) }
    {
        let Some(moment) = self.moment(serial) else {
            return Ok(());
        };
        if !is_since(from, moment) {
            return Ok(());
        }
        self.push_id(serial, reply)?;
        reply.extend_from_slice(b"\r\n")
    }
}
