//! The commands' questions, answered by the spool.

use crate::Spool;
use kernel_outbox::{Lines, Source};
use model::Part;
use session_lookups::{GroupView, LookUps};
use std::alloc::AllocError;

impl LookUps for Spool {
    ghost use Rattle.spool.specs.Laws.{changes_few, changes_lawful, named_well};

    ghost changes = { λ s. s.changes };

    ghost host_of = { λ s. s.host };

    fn host(&self) -> &[u8] {
        self.host.as_slice()
    }

    fn len(&self) -> u64 {
        self.kept.index.len()
    }

    fn group(&self, name: &[u8]) -> Option<GroupView<'_>> {
        self.kept.index.view(name)
    }

    fn group_count(&self) -> usize {
        self.kept.index.group_count()
    }

    fn group_at(&self, place: usize) -> GroupView<'_> {
        self.kept.index.view_at(place)
    }

    fn by_number(&self, group: &[u8], number: u64) -> Option<u64> {
        self.kept.index.by_number(group, number)
    }

    fn by_id(&self, wanted: &[u8]) -> Option<u64> {
        self.kept.index.by_id(wanted)
    }

    fn gone_at(&self, serial: u64) -> Option<u64> {
        self.kept.index.gone_at(serial)
    }

    fn expired_at(&self, group: &[u8], number: u64) -> u64 {
        self.kept.index.expired_at(group, number)
    }

    fn moment(&self, serial: u64) -> Option<u64> {
        self.kept.index.moment(serial)
    }

    fn push_new_ids(
        &self,
        wildmat: &[u8],
        from: i64,
        reply: &mut Vec<u8>,
    ) -> Result<(), AllocError> {
        self.kept.index.push_new_ids(wildmat, from, reply)
    }

    fn push_id(&self, serial: u64, reply: &mut Vec<u8>) -> Result<(), AllocError> {
        self.kept.index.push_id(serial, reply)
    }

    fn push_part(&self, part: &Part, serial: u64, reply: &mut Vec<u8>) -> Result<(), AllocError> {
        spool_texts::push_part(
            &self.kept.volume,
            self.kept.inodes,
            &self.kept.index,
            &self.kept.places,
            part,
            serial,
            reply,
        )
    }

    fn push_overview(
        &self,
        serial: u64,
        number: u64,
        reply: &mut Vec<u8>,
    ) -> Result<(), AllocError> {
        spool_texts::push_overview(
            &self.kept.volume,
            self.kept.inodes,
            &self.kept.index,
            &self.kept.places,
            serial,
            number,
            reply,
        )
    }

    fn overview_lines(&self, group: &[u8], from: u64, to: u64) -> Lines {
        spool_texts::overview_lines(&self.kept.index, group, from, to)
    }

    ghost lawful = { λ s. changes_lawful s };

    ghost good_host = { λ s. named_well s };

    ghost few = { λ s. changes_few s };
}

/// Its lines are those of the overviews of its groups.
impl Source for Spool {
    ghost use Rattle.spool_texts.specs.Parts.{HasLines, lines_of};

    ghost octets_of = { λ s lines. lines_of s.changes lines };

    ghost keeps = { λ s lines. HasLines s.changes lines };

    fn make_some(&self, lines: Lines, octets: &mut Vec<u8>) -> Option<Lines> {
        spool_texts::push_some_lines(
            &self.kept.volume,
            self.kept.inodes,
            &self.kept.index,
            &self.kept.places,
            lines,
            octets,
        )
    }

    ghost counted = { λ s lines kept. kept.octets };
}
