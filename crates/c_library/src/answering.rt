//! The report of a query, over the bytes of a file.
ghost use Rattle.std.specs.Prelude.{◌⊎◌, None, IfErr, IfOk};
ghost use Rattle.object_store.specs.Disk.{disk, AllShow};
ghost use Rattle.warehouse_objects.specs.Facts.{Facts};
ghost use Rattle.warehouse.specs.Found.{MayRepresent};
ghost use Rattle.c_library.specs.Answers.{AnswerRefuses, IsReportOver, IsNoDevice};
ghost use Rattle.c_library.specs.Images.{HoldsWarehouse};

use cube_model::Fault;
use journal_device::ImageDisk;
use report_formats::Asked;
use sector_device::Sectors;
use std::alloc::Global;
use warehouse::open_as_is;
use warehouse_jobs::report_formatted;

/// The report that is asked for, over the first batches or over all, of the warehouse that the bytes of a file hold. An
/// upkeep that was cut off stays so.
///
/// `DeviceSize` where the bytes are no whole number of sectors, `BadQuery` where the query is not proper,
/// `NoSuchPrefix` where there are fewer batches, `Memory`, `Output` where there is none for the text, and the causes of
/// an opening where the bytes hold no warehouse.
pub fn answer(
    alloc: Global,
    image: &[u8],
    as_of: Option<u32>,
    asked: &Asked,
) -> Result<Vec<u8>, Fault>
    ensures answers { IfOk result (λ text. (facts : Facts) → HoldsWarehouse image.now facts
        → IsReportOver facts as_of asked.now text.items) }
    ensures refused { IfErr result (λ fault. (facts : Facts) → HoldsWarehouse image.now facts
        → IsNoDevice image.now fault
        ⊎ AnswerRefuses facts as_of asked.now fault) }
{
    let Some(disk) = ImageDisk::over(image) else {
        return Err(Fault::DeviceSize);
    };
    answer_on(alloc, disk, as_of, asked)
}

// The report of the warehouse on a device.
fn answer_on<D: Sectors + Drop>(
    alloc: Global,
    device: D,
    as_of: Option<u32>,
    asked: &Asked,
) -> Result<Vec<u8>, Fault>
    ensures answers { IfOk result (λ text. ((d : D) → D.keeps_word d) → (facts : Facts)
        → AllShow (disk D.Sectors device) (MayRepresent facts None)
        → IsReportOver facts as_of asked.now text.items) }
    ensures refused { IfErr result (λ fault. ((d : D) → D.keeps_word d) → (facts : Facts)
        → AllShow (disk D.Sectors device) (MayRepresent facts None)
        → AnswerRefuses facts as_of asked.now fault) }
{
    let mut session = match open_as_is(alloc, device) {
        Ok(session) => session,
        Err((fault, _)) => return Err(fault),
    };
    let mut text = Vec::new(alloc);
    match report_formatted(alloc, &mut session, as_of, asked, &mut text) {
        Ok(()) => Ok(text),
        Err(fault) => Err(fault),
    }
}
