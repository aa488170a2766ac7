// Lines kept in memory with their words' values, where there is memory.
use line_histories::HeldLine;
use std::test::Fail;

#[test]
fn a_line_keeps_what_its_words_had(rt: HostRuntime) -> Result<(), Fail> {
    let mut line = HeldLine::zeros(rt.alloc());
    line.put(2, 126, &[9, 9, 7, 7])?;
    line.put(2, 129, &[8; 64])?;
    let twin = line.duplicate()?;
    let (durable, log) = twin.values(0);
    assert_eq!(rt; durable, 0);
    assert_eq!(rt; log.len(), 9);
    assert_eq!(rt; log[0].value, 0x0707);
    assert_eq!(rt; log[1].value, 0x0808_0808_0808_0807);
    line.flush();
    let (durable, log) = line.values(7);
    assert_eq!(rt; durable, 0x0808_0808_0808_0808);
    assert_eq!(rt; log.len(), 0);
    Ok(())
}

#[test]
fn a_line_is_lost_worn_out_and_cleared(rt: HostRuntime) -> Result<(), Fail> {
    let mut line = HeldLine::of_bytes(rt.alloc(), &[1; 64], false);
    line.lose();
    assert!(rt; line.is_bad());
    line.clear();
    assert!(rt; !line.is_bad());
    assert_eq!(rt; line.values(7).0, 0);
    line.weaken();
    line.persist(5, 384, 1);
    assert!(rt; !line.is_bad());
    line.persist(5, 383, 1);
    assert!(rt; line.is_bad());
    Ok(())
}
