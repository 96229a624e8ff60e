use am824::Am824;
use faults::UnitFault;
use kinds::Kind;
use pack::{Pack, PackUnit};
use quadlets::Am824Unit;
use samples::{midi, raw, subframe};
use std::fmt::Display;
use texts::hex;
use units::{read_row, write_row};

/// A unit of each case of AM824, from bare numbers.
fn am824_units() -> Result<[Am824Unit; 10], UnitFault> {
    Ok([
        subframe(0, 15, 0x12_3456)?,
        subframe(1, 0, 0xff_ffff)?,
        subframe(3, 10, 0)?,
        raw(0, -1)?,
        raw(1, -16)?,
        raw(2, 8_388_352)?,
        midi(0, 0, 0, 0)?,
        midi(1, 0xf8, 0, 0)?,
        midi(2, 0xc0, 7, 0)?,
        midi(3, 0x90, 60, 100)?,
    ])
}

/// Writes units as one row, reads the row back into a list that was filled with `blank`, and prints
/// each with its bytes.
fn show_row<K: Kind>(rt: &HostRuntime, units: &[K::Unit], blank: K::Unit) -> anyhow::Result<()>
where
    K::Unit: Display,
{
    let size = 4 * K::size() as usize;
    let mut bytes = vec![in rt.alloc(); 0; size.saturating_mul(units.len())]?;
    write_row::<K>(units, &mut bytes)?;
    let mut list = vec![in rt.alloc(); blank; units.len()]?;
    read_row::<K>(&bytes, units.len(), &mut list)?;
    for (unit, code) in list.iter().zip(bytes.chunks(size)) {
        let code = hex(rt.alloc(), code)?;
        println!(rt; " {code}  {unit}")?;
    }
    Ok(())
}

pub fn show_am824(rt: &HostRuntime) -> anyhow::Result<()> {
    println!(rt; "AM824 units, as they stand in the row and as they are read back:")?;
    show_row::<Am824>(rt, &am824_units()?, Am824Unit::Midi0)
}

pub fn show_pack(rt: &HostRuntime) -> anyhow::Result<()> {
    println!(rt; "A pack:")?;
    let unit = PackUnit::new(1, -1, -8_388_608, 8_388_607)?;
    show_row::<Pack>(rt, &[unit], PackUnit::SILENCE)
}
