// Events of lost bytes, and their queue.
use crate::names::named;
use error_events::{Event, Events};
use std::test::Fail;

fn bad_line(file: &str, offset: u64) -> Result<Event, Fail> {
    Ok(Event {
        file: named(file)?,
        offset,
        len: 64,
        mapped: false,
        live: true,
    })
}

#[test]
fn events_are_told_in_the_order_in_which_they_came(rt: HostRuntime) -> Result<(), Fail> {
    let first = bad_line("b", 128)?;
    let second = bad_line("a", 0)?;
    let third = Event {
        mapped: true,
        ..bad_line("b", 192)?
    };
    let mut events = Events::new(rt.alloc());
    assert_eq!(rt; events.next(), None);

    events.reserve(2)?;
    events.push(first);
    events.push(second);
    assert_eq!(rt; events.next(), Some(first));

    // The room of an event that was told serves the next one.
    events.push(third);
    assert_eq!(rt; events.next(), Some(second));
    assert_eq!(rt; events.next(), Some(third));
    assert_eq!(rt; events.next(), None);
    Ok(())
}

#[test]
fn a_full_queue_grows_and_keeps_its_events(rt: HostRuntime) -> Result<(), Fail> {
    let mut events = Events::new(rt.alloc());
    for k in 0..100_u64 {
        events.reserve(1)?;
        events.push(bad_line("log", 64 * k)?);
    }
    for k in 0..100_u64 {
        assert_eq!(rt; events.next(), Some(bad_line("log", 64 * k)?), "at {k}");
    }
    Ok(())
}
