use am824::Am824;
use plans::{Plan, default_delay};

/// The number of the refusal, or none for a plan.
fn refused(sfc: u8, dimension: u32) -> Option<u8> {
    Plan::<Am824>::new(sfc, dimension)
        .err()
        .map(|fault| fault.refusal().number)
}

#[test]
fn a_full_packet_is_planned_and_no_more(rt: HostRuntime) {
    assert_eq!(rt; refused(6, 31), None);
    assert_eq!(rt; refused(6, 32), Some(2));
    assert_eq!(rt; refused(2, 127), None);
    assert_eq!(rt; refused(2, 128), Some(2));
    assert_eq!(rt; refused(0, 0), Some(2));
    assert_eq!(rt; refused(6, u32::MAX), Some(2));
    assert_eq!(rt; refused(7, 0), Some(1));
}

#[test]
fn default_delays(rt: HostRuntime) {
    let blocking = [14_848, 13_163, 12_800, 13_163, 12_800, 13_163, 12_800];
    for (sfc, ticks) in (0..7).zip(blocking) {
        assert_eq!(rt; default_delay(sfc, false).ok(), Some(8_704));
        assert_eq!(rt; default_delay(sfc, true).ok(), Some(ticks));
    }
    assert_eq!(rt; default_delay(7, true).ok(), None);
}
