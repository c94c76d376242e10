//! The ship modes of batches, taken in one batch after another.
ghost use Rattle.std.specs.Prelude.{◌≡◌, ◌⊎◌, ◌+◌, ℕ, List, Some, slice_get, IfErr, IsErrOf, OnOk};
ghost use Rattle.cube_model.specs.declared.fault.Fault.TheVariants.{Device, Failed, Memory};
ghost use Rattle.cube_model.specs.declared.rows.LineOrder.{LineOrder};
ghost use Rattle.cube_model.specs.ShipModes.{modes_in};
ghost use Rattle.warehouse_objects.specs.Migration.{migration_refusal};
ghost use Rattle.warehouse_root.specs.declared.layout.Layout.TheVariants.{First};
ghost use Rattle.stored_rows.specs.Gathered.{IsGathered};

use crate::mode_column::ModeColumn;
use batch_admission::reserved_row;
use cube_model::{Fault, MemberPlace};
use std::alloc::Global;
use warehouse_objects::ShipModes;

/// The ship modes of the first batches, or where the first one too many is.
#[derive(Drop)]
pub(crate) struct Gathered {
    pub(crate) modes: ShipModes,
    pub(crate) crowded: Option<MemberPlace>,
}

impl Gathered {
    // Those of no batch.
    pub(crate) fn none(alloc: Global) -> Gathered
        ensures { (batches : List (List LineOrder)) → IsGathered batches 0 result }
    {
        Gathered {
            modes: ShipModes::none(alloc),
            crowded: None,
        }
    }

    // Takes in those of a further batch, of a number. It is refused where one is the text that means all of them.
    pub(crate) fn add(
        &mut self,
        alloc: Global,
        column: &ModeColumn,
        number: u32,
    ) -> Result<(), Fault>
        ensures ok { OnOk result ((batches : List (List LineOrder)) (before : ℕ) (batch : List LineOrder)
            → number ≡ before + 1 → slice_get batches before ≡ Some batch → column.now ≡ modes_in batch
            → IsGathered batches before self.old
            → IsGathered batches (before + 1) self.new) }
        ensures refused { IfErr result (λ fault. (fault ≡ Memory)
            ⊎ ((batches : List (List LineOrder)) (before : ℕ) (batch : List LineOrder)
            → number ≡ before + 1 → slice_get batches before ≡ Some batch → column.now ≡ modes_in batch
            → IsGathered batches before self.old
            → migration_refusal First batches ≡ Some fault)) }
        ensures device { IsErrOf result Device → ⊥ }
        ensures failed { IsErrOf result Failed → ⊥ }
    {
        let (own, codes) = column.coded();
        if let Some(row) = reserved_row(own, codes) {
            let place = MemberPlace::InStoredBatch { batch: number, row };
            return Err(Fault::ReservedMember { place });
        }
        if self.crowded.is_some() {
            return Ok(());
        }
        match self.modes.with_batch(alloc, own, codes) {
            Ok(more) => self.modes = more,
            Err(
                Fault::TooManyMembers {
                    place: MemberPlace::InBatch { row },
                },
            ) => self.crowded = Some(MemberPlace::InStoredBatch { batch: number, row }),
            Err(_) => return Err(Fault::Memory), // there is no other cause
        }
        Ok(())
    }
}
