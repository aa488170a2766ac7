// Units of bytes, lists with known room, and counts.
use nvm_base::{Buffer, Span, Words, blocks_of, lines_of, overlaps, pages_of, raise};
use std::alloc::AllocError;

const fn span(start: u64, len: u64) -> Span {
    Span { start, len }
}

#[test]
fn a_span_touches_the_units_of_its_first_and_last_byte(rt: HostRuntime) {
    let bytes = Span {
        start: 4095,
        len: 4098,
    };
    let inside = Span {
        start: 8192,
        len: 1,
    };
    let behind = Span {
        start: 8193,
        len: 1,
    };
    assert_eq!(rt; lines_of(bytes), span(63, 66));
    assert_eq!(rt; blocks_of(bytes), span(7, 10));
    assert_eq!(rt; pages_of(bytes), span(0, 3));
    assert!(rt; overlaps(bytes, inside));
    assert!(rt; !overlaps(bytes, behind));
}

#[test]
fn a_list_takes_what_it_has_room_for(rt: HostRuntime) -> Result<(), AllocError> {
    let mut words = Words::new(rt.alloc());
    words.reserve(4)?;
    words.push(1)?;
    words.extend(&[2, 3])?;
    words.repeat(9, 2)?;
    words.as_mut_slice()[0] = 7;
    assert_eq!(rt; words.as_slice(), [7, 2, 3, 9, 9].as_slice());
    words.truncate(4);
    assert_eq!(rt; words.len(), 4);
    words.clear();
    assert!(rt; words.is_empty());
    Ok(())
}

#[test]
fn a_list_of_spans_is_a_list(rt: HostRuntime) -> Result<(), AllocError> {
    let mut spans: Buffer<Span> = Buffer::new(rt.alloc());
    spans.push(span(1, 2))?;
    assert_eq!(rt; spans.as_slice(), [span(1, 2)].as_slice());
    Ok(())
}

#[test]
fn a_count_stands_still_at_its_last_value(rt: HostRuntime) {
    let mut count = u64::MAX - 1;
    raise(&mut count);
    raise(&mut count);
    assert_eq!(rt; count, u64::MAX);
}
