//! `nvmexplore`: whether a program over persistent memory may ever find something after a power cut.
#![tactic(auto)]

use explore_program::nvmexplore;
use host_io::{FileImages, StdinSource, StdoutSink};
use line_module::Module;
use std::env;
use std::process::ExitCode;

fn main(rt: HostRuntime) -> ExitCode {
    let alloc = rt.alloc();
    // Words that can't be read ask for nothing, as no words do.
    let words = match env::args(&rt) {
        Ok(all) => all.skip(1).collect(alloc),
        Err(_) => Ok(Vec::new(alloc)),
    };
    let Ok(words) = words else {
        return ExitCode::from(6);
    };
    let mut device = Module::new(alloc);
    let mut images = FileImages::new(&rt);
    let mut script = StdinSource::new(&rt);
    let mut answers = StdoutSink::new(&rt);
    ExitCode::from(nvmexplore(
        alloc,
        &words,
        &mut device,
        &mut images,
        &mut script,
        &mut answers,
    ))
}
