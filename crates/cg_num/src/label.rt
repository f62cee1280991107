ghost use Rattle.std.specs.Prelude.{◌≡◌, ◌++◌, IfOk, OnOk, OnErr};
ghost use Rattle.cg_num.specs.Label.{label_of, LabelsNameTheirYears};

use crate::no_memory::NoMemory;
use crate::year::Year;
use itoa::Buffer;
use std::alloc::Global;

/// Appends the year's label, as `AD 1950` or `53 BC`: no leading zero, and one blank. A year of
/// `Year::of_calendar` is labelled by its own number.
///
/// `NoMemory` leaves `out` as it was.
pub fn write_label(alloc: Global, year: &Year, out: &mut Vec<u8>) -> Result<(), NoMemory>
    ensures ok { OnOk result (out.new.items ≡ out.old.items ++ label_of year.now) }
    ensures err { OnErr result (out.new.items ≡ out.old.items) }
{
    let label = label_of(alloc, year)?;
    out.extend_from_slice(label.as_slice())?;
    Ok(())
}

fn label_of(alloc: Global, year: &Year) -> Result<Vec<u8>, NoMemory>
    ensures { IfOk result (λ label. label.items ≡ label_of year.now) }
{
    let bp = year.bp();
    let mut digits = Buffer::new();
    let mut label = Vec::new(alloc);
    if bp <= 1949 {
        label.extend_from_slice(b"AD ")?;
        label.extend_from_slice(digits.format(1950 - bp).as_bytes())?;
    } else {
        label.extend_from_slice(digits.format(bp - 1949).as_bytes())?;
        label.extend_from_slice(b" BC")?;
    }
    Ok(label)
}

/// The law that a calendar year is printed as itself: `AD n` for n from 1 on, and `n BC` for -n.
/// Does nothing.
pub fn labels_name_their_years()
    ensures { LabelsNameTheirYears }
{}
