//! `nvmhost`: what a program over persistent memory may find after a power cut or a media error.
#![tactic(auto)]

use host_io::{FileImages, StdinSource, StdoutSink};
use host_program::nvmhost;
use line_module::Module;
use std::env;
use std::process::ExitCode;

fn main(rt: HostRuntime) -> ExitCode {
    let alloc = rt.alloc();
    // Words that can't be read are in none of the forms, as no words are.
    let words = match env::args(&rt) {
        Ok(all) => all.skip(1).collect(alloc),
        Err(_) => Ok(Vec::new(alloc)),
    };
    let Ok(words) = words else {
        return ExitCode::from(6);
    };
    let mut device = Module::new(alloc);
    let mut images = FileImages::new(&rt);
    let mut script = StdinSource::new(&rt);
    let mut replies = StdoutSink::new(&rt);
    ExitCode::from(nvmhost(
        alloc,
        &words,
        &mut device,
        &mut images,
        &mut script,
        &mut replies,
    ))
}
