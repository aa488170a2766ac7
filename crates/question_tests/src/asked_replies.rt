use questions::{AskedReply, QuestionKind, read_question};
use std::test::Fail;

#[test]
fn replies_come_in_the_order_of_the_reads(rt: HostRuntime) -> Result<(), Fail> {
    let line = b"# never data 01,00*2 | _ | poison file log 64 64\r";
    let QuestionKind::Never(replies) = read_question(rt.alloc(), line)? else {
        return Err("another question".into());
    };
    match replies.as_slice() {
        [
            Some(AskedReply::Bytes(bytes)),
            None,
            Some(AskedReply::PoisonFile { name, offset }),
        ] => {
            assert_eq!(rt; bytes.as_slice(), [1, 0, 0].as_slice());
            assert_eq!(rt; name.bytes(), b"log".as_slice());
            assert_eq!(rt; *offset, 64);
        }
        _ => return Err("other replies".into()),
    }
    Ok(())
}
