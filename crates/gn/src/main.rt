//! The program `gn`: the top call over real files and standard output.
#![tactic(auto)]

mod file_sink;
mod file_source;
mod standing;
mod start;

use file_sink::FileSink;
use file_source::FileSource;
use gn_beside::deal;
use gn_outside::{Sink, SinkStop};
use gn_top::{USAGE, run_gn};
use standing::{FILES_AT_ONCE, File, Look, Standing, standing_at};
use start::Start;
use std::alloc::AllocError;
use std::collections::VecDeque;
use std::process::ExitCode;

// The statuses of a run that doesn't come to the top call, as those of one that does.
const NO_FORM: u8 = 2;

const CANNOT_WRITE: u8 = 4;

const NO_MEMORY: u8 = 5;

fn main(rt: HostRuntime) -> ExitCode {
    let alloc = rt.alloc();
    let look = move |files: &VecDeque<File>, count: usize| -> Result<Vec<Standing>, AllocError> {
        let at = |place: usize| -> Result<Standing, AllocError> {
            Ok(standing_at(&rt, files, place))
        };
        deal(&rt, alloc, count, FILES_AT_ONCE, &at)
    };
    let Ok(at) = Box::new(alloc, look) else {
        return ExitCode::from(NO_MEMORY);
    };
    let mut sink = FileSink::new(rt, Look { at });
    let (words, host) = match start::start_of(&rt) {
        Start::Run(words, host) => (words, host),
        Start::NoForm => return ExitCode::from(say_usage(&mut sink)),
        Start::NoMemory => return ExitCode::from(NO_MEMORY),
    };
    let Ok(sources) = start::sources(alloc, rt) else {
        return ExitCode::from(NO_MEMORY);
    };
    let ended = run_gn(&rt, alloc, &words, &host, sources, &mut sink);
    ExitCode::from(ended.status)
}

// Says the usage line.
fn say_usage<K: Sink>(sink: &mut K) -> u8 {
    match sink.say(USAGE.as_bytes()) {
        Ok(()) => NO_FORM,
        Err(SinkStop::Failed) => CANNOT_WRITE,
        Err(SinkStop::Memory) => NO_MEMORY,
    }
}
