//! The keeper of a run over its save file.
ghost use Rattle.std.specs.Prelude.{◌≡◌};
ghost use Rattle.std.specs.Option.{option_map};
ghost use Rattle.square.specs.Keeping.{IsKeeperOf};
ghost use Rattle.save_file.specs.Saved.{kept_of_table};
ghost use Rattle.save_file.specs.Saving.{TakesSquares, quasis_in, telling_of};
ghost use Rattle.run_file.specs.RunFile.{TakesMore, telling_run, tells_since, tells_earlier, tells_kept};

use edge::Disk;
use save_file::SaveFile;
use square::{Keep, KeepFault, Square, Table};
use std::marker::Model;
use std::snapshot::Snapshot;

/// The save file of a run, with the table that it was taken up as, which has no bytes: contracts see of that table which
/// quasi-inverses the file had, and that these stay in the file.
#[derive(Drop)]
pub struct RunFile<D: Disk> {
    file: SaveFile<D>,
    opened: Snapshot<Table>,
}

impl<D: Disk> Model for RunFile<D> {
    ghost use Rattle.save_file.specs.Saved.{kept_of_table};
    ghost use Rattle.run_file.specs.RunFile.{RunState};

    ghost Value = { RunState D };

    ghost view = { λ k. record {
      file = k.file;
      had = kept_of_table k.opened.value;
    } };
}

impl<D: Disk> RunFile<D> {
    /// The keeper over a save file that was taken up as this table.
    pub fn over(table: &Table, file: SaveFile<D>) -> RunFile<D>
        ensures made { result ≡ record { file = file; had = kept_of_table table.now } }
        ensures live { (disk : D) → TakesSquares D.now D.images file →
            quasis_in D.now file ≡ option_map (λ _. kept_of_table table.now) (D.now disk) →
            TakesMore D.now D.images result }
        ensures of_table { IsKeeperOf (telling_of D.now D.moment D.images D.images_at D.since D.faults file) table.now →
            IsKeeperOf (telling_run D.now D.moment D.images D.images_at D.since D.faults result) table.now }
    {
        let opened = Snapshot::of(table);
        RunFile { file, opened }
    }

    /// The disk.
    pub fn into_disk(self) -> D
        ensures { result ≡ self.file.journal.disk }
    {
        self.file.into_disk()
    }
}

impl<D: Disk> Keep for RunFile<D> {
    ghost telling = { λ k. telling_run D.now D.moment D.images D.images_at D.since D.faults k };

    fn keep(&mut self, square: &Square) -> Result<(), KeepFault> {
        self.file.keep(square)
    }

    ghost since_is = { λ k t image.
        tells_since D.now D.moment D.images D.images_at D.since D.faults D.since_is k t image };

    ghost since_earlier = { λ k m n image le tells. tells_earlier D.since D.since_earlier k m n image le tells };

    ghost image_is_kept = { λ k live.
        tells_kept D.now D.moment D.images D.images_at D.since D.faults D.only_now k live };
}
