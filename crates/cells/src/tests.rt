// Words at the limits, and picks at the ends of each kind.
use crate::echo::ReturnBits;
use crate::flags::Flags;
use crate::gray::Gray;
use crate::height::Height;
use crate::kind::{Kind, Measured, Ranked};
use crate::threshold::Threshold;
use crate::words::WordForm;

#[test]
fn gray_words_end_at_255(rt: HostRuntime) {
    assert_eq!(rt; <Gray as WordForm>::from_word(255), Some(Gray(255)));
    assert_eq!(rt; <Gray as WordForm>::from_word(256), None);
}

#[test]
fn return_words_end_at_the_infinities(rt: HostRuntime) {
    assert_eq!(rt;
        <ReturnBits as WordForm>::from_word(0x7f80_0000),
        Some(ReturnBits(0x7f80_0000))
    );
    assert_eq!(rt; <ReturnBits as WordForm>::from_word(0x7f80_0001), None);
    assert_eq!(rt;
        <ReturnBits as WordForm>::from_word(0xff80_0000),
        Some(ReturnBits(0xff80_0000))
    );
    assert_eq!(rt; <ReturnBits as WordForm>::from_word(0xff80_0001), None);
    assert_eq!(rt;
        <ReturnBits as WordForm>::from_word(0x8000_0000),
        Some(ReturnBits(0))
    );
}

#[test]
fn a_height_word_is_twos_complement(rt: HostRuntime) {
    assert_eq!(rt;
        <Height as WordForm>::from_word(0xffff_ffff),
        Some(Height(-1))
    );
    assert_eq!(rt; Height(i32::MIN).to_word(), 0x8000_0000);
}

#[test]
fn halfway_is_rounded_down(rt: HostRuntime) {
    assert_eq!(rt; Gray(7).midway(Gray(8)), Gray(7));
    assert_eq!(rt; Height(-1).midway(Height(0)), Height(-1));
    assert_eq!(rt; Height(-3).midway(Height(-4)), Height(-4));
    assert_eq!(rt; Height(i32::MIN).midway(Height(i32::MIN)), Height(i32::MIN));
    assert_eq!(rt; Height(i32::MAX).midway(Height(i32::MAX)), Height(i32::MAX));
}

#[test]
fn no_number_counts_as_the_infinity_of_its_sign(rt: HostRuntime) {
    assert_eq!(rt;
        ReturnBits(0x7fff_ffff).meet(ReturnBits(0x7f80_0000)),
        ReturnBits(0x7f80_0000)
    );
    assert_eq!(rt;
        ReturnBits(0xffff_ffff).join(ReturnBits(0xff80_0000)),
        ReturnBits(0xff80_0000)
    );
    assert_eq!(rt;
        ReturnBits(0x8000_0000).join(ReturnBits(0x8000_0001)),
        ReturnBits(0)
    );
    assert!(rt; !ReturnBits(0x8000_0000).above(ReturnBits(0)));
    assert!(rt; ReturnBits(0).above(ReturnBits(0xbf80_0000)));
}

#[test]
fn flags_meet_in_the_marks_of_both(rt: HostRuntime) {
    assert_eq!(rt; Flags(0b0110).meet(Flags(0b0011)), Flags(0b0010));
    assert_eq!(rt; Flags(0b0110).join(Flags(0b0011)), Flags(0b0111));
}

#[test]
fn there_is_no_threshold_at_0(rt: HostRuntime) {
    assert!(rt; Threshold::new(0).is_none());
    assert_eq!(rt; Threshold::new(9).map(|t| t.apply(Gray(8))), Some(Flags(0)));
    assert_eq!(rt;
        Threshold::new(9).map(|t| t.apply(Gray(9))),
        Some(Flags(255))
    );
}
