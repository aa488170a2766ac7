use asked_reads::{BlockReply, PageReply, Read};
use exploration::{Reason, ScriptFault, Wanted, read_script};
use reply_text::Why;
use script_text::Command;
use std::test::Fail;
use word_tables::Geometry;

const SIZES: Geometry = Geometry {
    blocks: 8,
    vpages: 2,
    fpages: 32,
};

#[test]
fn questions_follow_a_program(rt: HostRuntime) -> Result<(), Fail> {
    assert!(rt; SIZES.valid());
    let script =
        b"bwrite 3 aa\n\n# look\nbread 3 1\nvload 0 2\n# never scarred 3 | data 00,01\n# never _ | data 02,03\n";
    let Ok(read) = read_script(rt.alloc(), SIZES, script) else {
        return Err("not taken".into());
    };
    assert_eq!(rt; read.program.len(), 2);
    assert!(rt; matches!(read.program[0], Some(Command::BWrite { block: 3, .. })));
    assert!(rt; read.program[1].is_none());
    assert_eq!(rt; read.questions.len(), 2);
    let first = &read.questions[0].question;
    assert_eq!(rt; first.blocks.len(), 1);
    assert!(rt; matches!(first.blocks[0].reply, BlockReply::Scar(3)));
    assert_eq!(rt; first.volume.len(), 1);
    assert!(rt; matches!(first.volume[0].reply, PageReply::Shows(_)));
    let second = &read.questions[1].question;
    assert_eq!(rt; second.blocks.len(), 0);
    assert_eq!(rt; second.volume.len(), 1);
    Ok(())
}

#[test]
fn files_are_asked_of_by_name(rt: HostRuntime) -> Result<(), Fail> {
    assert!(rt; SIZES.valid());
    let script =
        b"create log 1\n# look\nfread log 4294967232 2\nfread f 0 64\n# never poison file log 4294967232 64 | refused missing\n# never _ | data 07*64\n";
    let Ok(read) = read_script(rt.alloc(), SIZES, script) else {
        return Err("not taken".into());
    };
    assert_eq!(rt; read.reads.len(), 2);
    assert!(rt;
        matches!(
            read.reads[0],
            Read::File {
                start: 4294967232,
                len: 2,
                ..
            }
        )
    );
    assert_eq!(rt; read.questions.len(), 2);
    let first = &read.questions[0].question;
    assert_eq!(rt; first.volume.len(), 0);
    assert_eq!(rt; first.files.len(), 2);
    assert_eq!(rt; first.files[0].name.bytes(), b"log".as_slice());
    assert_eq!(rt; first.files[0].pages.start, 4294967232);
    assert!(rt; matches!(first.files[0].pages.reply, PageReply::Poison(4294967232)));
    assert_eq!(rt; first.files[1].name.bytes(), b"f".as_slice());
    assert!(rt; matches!(first.files[1].pages.reply, PageReply::Refuses(Why::Missing)));
    let second = &read.questions[1].question;
    assert_eq!(rt; second.files.len(), 1);
    assert!(rt; matches!(second.files[0].pages.reply, PageReply::Shows(_)));
    Ok(())
}

#[test]
fn a_line_of_another_file_is_no_reply(rt: HostRuntime) -> Result<(), Fail> {
    assert!(rt; SIZES.valid());
    let script = b"# look\nfread log 0 64\n# never poison file logs 0 64\n";
    assert!(rt;
        matches!(
            read_script(rt.alloc(), SIZES, script),
            Err(ScriptFault::Line(3, Reason::Kind(1)))
        )
    );
    Ok(())
}

#[test]
fn a_reply_that_no_read_gives_is_not_taken(rt: HostRuntime) -> Result<(), Fail> {
    assert!(rt; SIZES.valid());
    let script = b"# look\nvload 0 2\nbread 0 1\n# never data 00*2 | data 00*511\n";
    assert!(rt;
        matches!(
            read_script(rt.alloc(), SIZES, script),
            Err(ScriptFault::Line(4, Reason::Length(2)))
        )
    );
    Ok(())
}

#[test]
fn a_script_that_asks_nothing_is_not_taken(rt: HostRuntime) -> Result<(), Fail> {
    assert!(rt; SIZES.valid());
    let script = b"vstore 0 01\n# look\nvload 0 2\n";
    assert!(rt;
        matches!(
            read_script(rt.alloc(), SIZES, script),
            Err(ScriptFault::Line(4, Reason::NothingAsked))
        )
    );
    Ok(())
}

#[test]
fn cuts_are_asked_about_from_begin_on(rt: HostRuntime) -> Result<(), Fail> {
    assert!(rt; SIZES.valid());
    let script =
        b"create log 1\n# begin\n# refused\n\ncreate log 1\nvstore 0 01\n# look\nvload 0 1\n# may data 01\n# never data 02\n";
    let Ok(read) = read_script(rt.alloc(), SIZES, script) else {
        return Err("not taken".into());
    };
    assert_eq!(rt; read.first.len(), 2);
    assert!(rt; matches!(read.first[0], Some(Command::Create { .. })));
    assert!(rt; read.first[1].is_none());
    assert_eq!(rt; read.program.len(), 6);
    assert!(rt; read.program[0].is_none());
    assert!(rt; matches!(read.program[4], Some(Command::Create { .. })));
    assert!(rt; matches!(read.program[5], Some(Command::VStore { .. })));
    let refused = [false, false, false, false, true, false];
    assert!(rt; read.refused.as_slice() == refused.as_slice());
    assert_eq!(rt; read.questions.len(), 2);
    assert_eq!(rt; read.questions[0].wanted, Wanted::May);
    assert_eq!(rt; read.questions[1].wanted, Wanted::Never);
    Ok(())
}

#[test]
fn marks_stand_before_their_command(rt: HostRuntime) -> Result<(), Fail> {
    assert!(rt; SIZES.valid());
    let stops: [(&[u8], u64, Reason); 6] = [
        (
            b"# refused\n\n# look\nvload 0 1\n# list\n",
            1,
            Reason::NoCommand,
        ),
        (
            b"# refused\n# begin\n# refused\nvexists 0\n",
            3,
            Reason::Again,
        ),
        (b"# begin\nvexists 0\n# begin\n", 3, Reason::Again),
        (b"# look\nvload 0 1\n# begin\n", 3, Reason::NotInALook),
        (b"# look\nvload 0 1\n# may _\n", 3, Reason::NothingAsked),
        (b"# refused\nvstor\n", 1, Reason::NoCommand),
    ];
    for (script, number, reason) in stops {
        assert!(rt;
            matches!(
                read_script(rt.alloc(), SIZES, script),
                Err(ScriptFault::Line(n, why)) if n == number && why == reason
            )
        );
    }
    Ok(())
}
