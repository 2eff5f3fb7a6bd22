use crate::{Moment, TimeFault, is_before, moment_cmp, read_generalized, write_generalized};
use std::cmp::Ordering;
use std::test::Fail;

// The seconds are those of `date -u +%s`.
#[test]
fn a_text_is_read_and_written_again(rt: HostRuntime) -> Result<(), Fail> {
    let rows: [(&[u8], i64, u32); 8] = [
        (b"19700101000000Z", 0, 0),
        (b"19851106210627.3Z", 500_159_187, 300_000_000),
        (b"20240229000000Z", 1_709_164_800, 0),
        (b"20260105120000Z", 1_767_614_400, 0),
        (b"20260105120000.000000001Z", 1_767_614_400, 1),
        (b"21000228235959.05Z", 4_107_542_399, 50_000_000),
        (b"99991231235959Z", 253_402_300_799, 0),
        (b"99991231235959.999999999Z", 253_402_300_799, 999_999_999),
    ];
    for &(text, seconds, nanos) in &rows {
        let moment = read_generalized(text).ok().ok_or("the text is a moment")?;
        assert_eq!(rt; (moment.seconds, moment.nanos), (seconds, nanos));
        assert_eq!(rt; write_generalized(rt.alloc(), &moment)?.as_slice(), text);
    }
    Ok(())
}

#[test]
fn a_text_out_of_form_is_refused_for_its_first_fault(rt: HostRuntime) {
    let rows: [(&[u8], TimeFault); 12] = [
        (b"", TimeFault::Shape),
        (b"202401010000Z", TimeFault::Shape),
        (b"20240101000000", TimeFault::Shape),
        (b"20240101000000.Z", TimeFault::Shape),
        (b"20240101000000,5Z", TimeFault::Shape),
        (b"20240101000000+0000", TimeFault::Shape),
        (b"20240101000000.10Z", TimeFault::Fraction),
        (b"20230229000000.1234567891Z", TimeFault::Fraction),
        (b"20230229000000Z", TimeFault::Range),
        (b"19691231235959Z", TimeFault::Range),
        (b"20240101240000Z", TimeFault::Range),
        (b"20240101000060Z", TimeFault::Range),
    ];
    for &(text, fault) in &rows {
        assert_eq!(rt; read_generalized(text), Err(fault));
    }
}

#[test]
fn the_seconds_decide_before_the_billionths(rt: HostRuntime) {
    let earlier = Moment {
        seconds: 4,
        nanos: 999_999_999,
    };
    let later = Moment {
        seconds: 5,
        nanos: 0,
    };
    assert_eq!(rt; moment_cmp(&earlier, &later), Ordering::Less);
    assert_eq!(rt; moment_cmp(&later, &earlier), Ordering::Greater);
    assert_eq!(rt; moment_cmp(&later, &later), Ordering::Equal);
    assert!(rt; is_before(&earlier, &later) && !is_before(&later, &later));
}
