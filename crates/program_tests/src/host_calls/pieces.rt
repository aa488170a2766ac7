// Scripts that come in pieces.

use super::{repeated, replies_to};
use crate::fresh::fresh_image;
use line_module::Module;
use std::test::Fail;
use test_devices::Recorder;

// Each script with its replies: a cut at the second call of a store that touches two lines; and cuts, failures and media errors,
// each in the mode that the one before left.
static SCRIPTS: [(&str, &str); 2] = [
    (
        "vstore 0 07*8\ncut\nrestart none\ncut in 2\nvstore 60 aa*8\nrestart all\nvload 60 8\n",
        "ok\nok\nok bad 0\nok\npower lost\nok bad 0\ndata aa*4,00*4\n",
    ),
    (
        "vstore 60 aa*8\ncut in 2\nvsync 60 8\nfail in 1\nrestart none\nrecover\nbwrite 1 11*512\nfail in 2\nbwrite 1 22*512\ncut\nrestart all\nbread 1 1\npoison meta 9\nvload 60 8\nbwrite 2 05*512\nfail in 1\nvload 60 8\nrecover\npoison meta 3\nbread 1 1\ncut\nrestart none\ncut in 1\n",
        "ok\nok\npower lost\nok\nrefused device\nok bad 0\nok\nok\nrefused device\nok\nok bad 0\ndata 11*512\nok\ndata aa*4,00*4\nrefused meta 9\nok\nrefused device\nstopped meta 9\nok\nrefused meta 3\nok\nstopped meta 3\nok\n",
    ),
];

#[test]
fn a_script_gets_its_replies_whatever_pieces_it_comes_in(rt: HostRuntime) -> Result<(), Fail> {
    let alloc = rt.alloc();
    let image = fresh_image(alloc)?;
    for &(script, replies) in &SCRIPTS {
        let bytes = repeated(alloc, script, 1)?;
        let sink = replies_to(alloc, &mut Module::new(alloc), image.as_slice(), bytes, 1)?;
        assert!(rt; sink.written() == replies.as_bytes(), "{script}");
        let bytes = repeated(alloc, script, 1)?;
        let mut recorder = Recorder::new(alloc, Module::new(alloc));
        let sink = replies_to(alloc, &mut recorder, image.as_slice(), bytes, 65536)?;
        assert!(rt; sink.written() == replies.as_bytes(), "{script}");
    }
    Ok(())
}
