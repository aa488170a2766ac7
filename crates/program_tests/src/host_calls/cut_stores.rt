// A store over a page of a file that is there and over a hole, cut in each call of it in turn.

use super::{repeated, replies_to};
use crate::fresh::fresh_image;
use line_module::Module;
use std::test::Fail;

// How a restart is asked for; what is written where the power went in the store, and what where it came to its end.
type Trial = (&'static str, &'static [&'static str], &'static str);

static TRIALS: [Trial; 2] = [
    (
        "none",
        &["ok\nok\nok\npower lost\nrefused off\nok bad 0\ndata 00*8\ndata 00\n"],
        "ok\nok\nok\nok\nok\nok bad 0\ndata 00*8\ndata 00\n",
    ),
    (
        "all",
        &[
            "ok\nok\nok\npower lost\nrefused off\nok bad 0\ndata 00*8\ndata 05\n",
            "ok\nok\nok\npower lost\nrefused off\nok bad 0\ndata 11*4,00*4\ndata 05\n",
        ],
        "ok\nok\nok\nok\nok\nok bad 0\ndata 11*8\ndata 05\n",
    ),
];

#[test]
fn a_store_over_a_hole_is_cut_in_each_of_its_calls(rt: HostRuntime) -> Result<(), Fail> {
    let alloc = rt.alloc();
    let image = fresh_image(alloc)?;
    for &(choice, cut, whole) in &TRIALS {
        let mut done = false;
        for calls in 1..200_u64 {
            let text = format!(in alloc;
                "create a 2\nfwrite a 0 05\ncut in {calls}\nfwrite a 4092 11*8\ncut\nrestart {choice}\nfread a 4092 8\nfread a 0 1\n"
            )?;
            let script = repeated(alloc, &text, 1)?;
            let sink = replies_to(
                alloc,
                &mut Module::new(alloc),
                image.as_slice(),
                script,
                65536,
            )?;
            done = sink.written() == whole.as_bytes();
            let allowed = done
                || cut
                    .iter()
                    .any(|replies| sink.written() == replies.as_bytes());
            assert!(rt; allowed, "{choice} {calls}");
            if done {
                break;
            }
        }
        assert!(rt; done);
    }
    Ok(())
}
