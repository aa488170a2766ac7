// Names of files, and lists of files.
use nvm_base::{FileEntry, FileList, Name};
use std::test::Fail;

pub(crate) fn named(text: &str) -> Result<Name, Fail> {
    Ok(Name::read(text.as_bytes()).ok_or("no name")?)
}

// Texts, and whether they are names.
static TEXTS: [(&str, bool); 12] = [
    ("a", true),
    ("._-", true),
    ("settings.v2-old_1", true),
    ("0123456789abcdefghijklmnopqrstuv", true),
    ("0123456789abcdefghijklmnopqrstuvw", false),
    ("", false),
    ("A", false),
    ("a b", false),
    ("a/b", false),
    ("a\0", false),
    ("{", false),
    ("\u{e9}", false),
];

#[test]
fn names_have_1_to_32_letters_digits_and_marks(rt: HostRuntime) {
    for &(text, is_name) in &TEXTS {
        let name = Name::read(text.as_bytes());
        assert_eq!(rt; name.is_some(), is_name, "{text}");
        if let Some(name) = name {
            assert_eq!(rt; name.bytes(), text.as_bytes(), "{text}");
            assert_eq!(rt; Name::from_padded(name.padded()), Some(name), "{text}");
        }
    }
}

static ASCENDING: [&str; 12] = [
    "-", ".", "0", "00", "1", "_", "a", "a-", "a0", "aa", "ab", "b",
];

#[test]
fn names_are_in_the_order_of_their_bytes(rt: HostRuntime) -> Result<(), Fail> {
    let mut before: Option<Name> = None;
    for &text in &ASCENDING {
        let name = named(text)?;
        assert!(rt; before < Some(name), "{text}");
        before = Some(name);
    }
    Ok(())
}

#[test]
fn padding_is_zeros_to_the_end(rt: HostRuntime) {
    let mut bytes = [0; 32];
    assert_eq!(rt; Name::from_padded(bytes), None);
    bytes[0] = b'a';
    assert_eq!(rt; Name::from_padded(bytes), Name::read(b"a"));
    bytes[31] = b'b';
    assert_eq!(rt; Name::from_padded(bytes), None);
    bytes[1] = b'B';
    assert_eq!(rt; Name::from_padded(bytes), None);
    assert_eq!(rt; Name::from_padded([b'z'; 32]).is_some(), true);
}

#[test]
fn a_list_of_files_is_a_list(rt: HostRuntime) -> Result<(), Fail> {
    let file = FileEntry {
        name: named("log.0")?,
        pages: 256,
    };
    let mut files = FileList::new(rt.alloc());
    files.push(file)?;
    assert_eq!(rt; files.as_slice(), [file].as_slice());
    Ok(())
}
