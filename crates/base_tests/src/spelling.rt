// Numbers and bytes, read and printed.
use nvm_base::{Bytes, TextFault, print_bytes, print_number, read_bytes, read_number, spellings};
use std::alloc::AllocError;

static NUMBERS: [(&str, Option<u64>); 8] = [
    ("0", Some(0)),
    ("0000000042", Some(42)),
    ("4294967295", Some(4294967295)),
    ("4294967296", None),
    ("00000000001", None),
    ("", None),
    ("+1", None),
    ("1 ", None),
];

#[test]
fn numbers_have_one_to_ten_digits(rt: HostRuntime) {
    spellings();
    for &(text, number) in &NUMBERS {
        assert_eq!(rt; read_number(text.as_bytes()), number, "{text}");
    }
}

// Texts and what they give, where at most six bytes are wanted.
static DATA: [(&str, Result<&[u8], TextFault>); 13] = [
    ("72656320", Ok(b"rec ")),
    ("00*3,fF,0a0B", Ok(&[0, 0, 0, 255, 10, 11])),
    ("07*0000000006", Ok(&[7; 6])),
    ("", Err(TextFault::Bad)),
    ("0", Err(TextFault::Bad)),
    ("00,", Err(TextFault::Bad)),
    ("00*0", Err(TextFault::Bad)),
    ("0000*2", Err(TextFault::Bad)),
    ("00*2*2", Err(TextFault::Bad)),
    ("00*7,0g", Err(TextFault::Bad)),
    ("00*7", Err(TextFault::TooLong)),
    ("00*4294967295,01", Err(TextFault::TooLong)),
    ("00010203040506", Err(TextFault::TooLong)),
];

#[test]
fn data_spells_bytes_or_is_wrong_or_too_long(rt: HostRuntime) {
    for &(text, told) in &DATA {
        match read_bytes(rt.alloc(), text.as_bytes(), 6) {
            Ok(read) => assert!(rt; told == Ok(read.as_slice()), "{text}"),
            Err(fault) => assert!(rt; told == Err(fault), "{text}"),
        }
    }
}

#[test]
fn bytes_print_as_runs_behind_what_is_there(rt: HostRuntime) -> Result<(), AllocError> {
    let mut out = Bytes::new(rt.alloc());
    out.extend(b"data ")?;
    print_bytes(b"rec 1", &mut out)?;
    out.push(b' ')?;
    print_bytes(&[0, 0, 255, 0], &mut out)?;
    out.push(b' ')?;
    print_number(4294967295, &mut out)?;
    assert_eq!(rt;
        out.as_slice(),
        b"data 72,65,63,20,31 00*2,ff,00 4294967295".as_slice()
    );
    Ok(())
}
