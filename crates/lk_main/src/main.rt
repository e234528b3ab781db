//! The program `locks`: runs its command line on the streams, files and sockets of the system.
#![tactic(auto)]

mod asking;
mod node;
mod plans;
mod seeding;
mod subcommand;
mod words;

use std::alloc::Global;
use std::fs::{File, Files};
use std::io::{BufReader, BufWriter, Write};
use std::net::Net;
use std::process::ExitCode;
use std::rt::Env;
use std::time::Clock;
use std::{env, io};
use words::{run_words, write_start_error};

// Returns the words of the command line as texts, with `locks` for the program's path, since the usage text begins with
// the first word.
fn texts_of<'a>(alloc: Global, words: &'a [String]) -> io::Result<Vec<&'a str>> {
    let mut texts = Vec::new(alloc);
    texts.push("locks")?;
    for word in words.get(1..).unwrap_or(&[]) {
        texts.push(word.as_str())?;
    }
    Ok(texts)
}

// Runs a command line on the program's streams.
fn run_texts<'a, R: Input + Print + Eprint + Files<File = File> + Net + Clock, E: Write>(
    rt: &R,
    alloc: Global,
    texts: &'a [&'a str],
    err: &mut E,
) -> io::Result<u8> {
    let mut reader = BufReader::new(alloc, rt.reader())?;
    let mut out = BufWriter::new(alloc, io::writer(rt))?;
    Ok(run_words(rt, alloc, texts, &mut reader, &mut out, err))
}

// Runs the program's command line on its streams. It fails if it is out of memory or a word is not valid text.
fn run<
    R: Env + Input + Print + Eprint + Files<File = File> + Net + Clock + Alloc<A = Global>,
    E: Write,
>(rt: &R, err: &mut E) -> io::Result<u8> {
    let alloc = rt.alloc();
    let words: Vec<String> = env::args(rt)?.collect(alloc)?;
    let texts = texts_of(alloc, &words)?;
    run_texts(rt, alloc, &texts, err)
}

// Exits with the status of the command line.
fn main(rt: HostRuntime) -> ExitCode {
    let mut err = rt.stderr();
    let status = match run(&rt, &mut err) {
        Ok(status) => status,
        Err(error) => write_start_error(&error, &mut err),
    };
    ExitCode::from(status)
}
