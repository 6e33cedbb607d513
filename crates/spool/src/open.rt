//! Opens a spool.

ghost use Rattle.std.specs.Prelude.{◌≡◌, List, IfErr, IfOk, IsTrue};
ghost use Rattle.model.specs.Files.{HasRoom};
ghost use Rattle.model.specs.Layout.{HoldsIn};
ghost use Rattle.model.specs.Names.{is_host};
ghost use Rattle.model.specs.declared.change.Change.{Change};

use crate::Spool;
use journal_volume::Volume;
use model::Text;
use spool_opening::open;
use spool_reading::ReadSpoolError;
use std::alloc::Global;

impl Spool {
    /// Opens the spool of a host in the blocks of a volume of this format, whatever they contain. `Damaged` exactly if
    /// they hold no spool of the host (docs/FORMATS.md), `Memory` if an allocation was refused. No block changes.
    pub fn open(
        alloc: Global,
        host: Text,
        inodes: u32,
        format: u32,
        volume: Volume,
    ) -> Result<Spool, ReadSpoolError>
        requires named { IsTrue (is_host host) }
        requires room { HasRoom inodes volume.cache }
        requires seen { volume.seen ≡ volume.cache }
        ensures host { IfOk result (λ s. s.host ≡ host) }
        ensures inodes { IfOk result (λ s. s.inodes ≡ inodes) }
        ensures held { IfOk result (λ s. HoldsIn format host inodes volume.cache s.changes) }
        ensures blocks { IfOk result (λ s. s.blocks ≡ volume.cache) }
        ensures dirty { IfOk result (λ s. s.dirty ≡ volume.dirty) }
        ensures damaged { IfErr result (λ e. e ≡ ReadSpoolError.Damaged → (S : List Change)
            → HoldsIn format host inodes volume.cache S → ⊥) }
    {
        let opened = match open(alloc, &volume, inodes, format, host.as_slice()) {
            Ok(opened) => opened,
            Err(error) => return Err(error),
        };
        let index = opened.index;
        let places = opened.places;
        Ok(Spool::of(alloc, host, inodes, volume, index, places))
    }
}
