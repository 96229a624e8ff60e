use am824::Am824;
use kinds::Kind;

/// The number of the refusal, or none for a unit.
fn refused(bytes: [u8; 4]) -> Option<u8> {
    Am824::read(&bytes)
        .err()
        .map(|fault| fault.refusal().number)
}

/// What a label is refused with, by its sixteen: second subframes, first subframes, none, first of
/// frame 0, samples, none, MIDI, none.
fn expected(label: u8) -> Option<u8> {
    match (label / 16, label % 16) {
        (0 | 1 | 3, _) | (4, 0..=2) | (8, 0..=3) => None,
        _ => Some(14),
    }
}

#[test]
fn every_label(rt: HostRuntime) {
    for label in 0..=255u8 {
        assert_eq!(rt;
            refused([label, 0, 0, 0]),
            expected(label),
            "a label with no data"
        );
    }
}

#[test]
fn every_last_byte_of_a_sample(rt: HostRuntime) {
    for last in 0..=255u8 {
        assert_eq!(rt; refused([0x40, 0x80, 0, last]), None);
        assert_eq!(rt;
            refused([0x41, 0x80, 0, last]),
            (last % 16 != 0).then_some(15)
        );
        assert_eq!(rt; refused([0x42, 0x80, 0, last]), (last != 0).then_some(15));
    }
}
