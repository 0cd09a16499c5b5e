//! The program `ix`: `ix FOLDER WORDS..` does what the words say over the store in that folder, with standard input and output.
#![tactic(auto)]

pub mod ending;
#[cfg(test)]
mod tests;
pub mod top_call;
mod words;

use ending::Ending;
use ix_host::Folder;
use ix_io::{ReaderSource, WriterSink};
use ix_plain::MAX_INPUT;
use ix_types::Seq;
use std::alloc::AllocError;
use std::process::ExitCode;
use std::rt::{Env, Files};
use std::{env, fs, io};
use top_call::{Ended, plain};

const VERSION: &str = "ix 0.2.0";

fn main(rt: HostRuntime) -> ExitCode {
    ExitCode::from(match arguments(&rt) {
        Ok(arguments) => status(&rt, arguments.as_slice()),
        Err(_) => told(&rt, &Ending::Memory),
    })
}

/// The arguments behind the program's name. Where one isn't UTF-8 there are none.
fn arguments<R: Env + AllocGlobal>(rt: &R) -> Result<Vec<String>, AllocError> {
    match env::args(rt) {
        Ok(all) => all.skip(1).collect(rt.alloc()),
        Err(error) => {
            if error.kind() == io::ErrorKind::OutOfMemory {
                Err(AllocError)
            } else {
                Ok(Vec::new(rt.alloc()))
            }
        }
    }
}

/// Prints what a lone `--help` or `--version` asks for, or does what the words behind the folder say.
fn status<R: Input + Print + Eprint + Files + AllocGlobal>(rt: &R, arguments: &[String]) -> u8 {
    match arguments {
        [only] if only.as_str() == "--help" => after_print(rt, print_help(rt)),
        [only] if only.as_str() == "--version" => after_print(rt, println!(rt; "{VERSION}")),
        [folder, words @ ..] => done(rt, folder.as_str(), words),
        [] => done(rt, ".", &[]),
    }
}

fn print_help(rt: &impl Print) -> io::Result<()> {
    println!(rt;
        "ix: an index store that is queried while it is built

usage: ix FOLDER replay < SCRIPT    runs a script's lanes over the store in the folder, and prints the transcript
       ix FOLDER check              prints the units of the store, and the unit files that opening it would remove
       ix --help
       ix --version

A folder that isn't there is made. The exit status is 0 where the output is whole and nothing failed, else

  1  other words                          6  memory was wanting
  2  the script is refused                7  the input is larger than {MAX_INPUT} bytes
  3  the folder failed during the run     8  the store could not be opened
  4  the input could not be read          9  a file of the store was lost or damaged during the run
  5  the output could not be written

and a line on standard error says so. With 3 and 9 the output is whole, and says which step failed."
    )
}

/// The exit status once something was printed, or not.
fn after_print(rt: &impl Eprint, printed: io::Result<()>) -> u8 {
    match printed {
        Ok(()) => Ending::Done.status(),
        Err(_) => told(rt, &Ending::WriteFault),
    }
}

/// Says on standard error how a call ended, where there is something to say, and gives the exit status.
fn told(rt: &impl Eprint, ending: &Ending) -> u8 {
    let status = ending.status();
    if status != 0 {
        let _ = eprintln!(rt; "{ending}");
    }
    status
}

/// Makes the real source, sink and directory, does what the words say, and gives the exit status.
fn done<R: Input + Print + Eprint + Files + AllocGlobal>(
    rt: &R,
    folder: &str,
    words: &[String],
) -> u8 {
    let words = match bytes_of(rt, words) {
        Ok(words) => words,
        Err(_) => return told(rt, &Ending::Memory),
    };
    let dir = match Folder::new(rt, folder) {
        Ok(dir) => dir,
        Err(_) => return told(rt, &Ending::Memory),
    };
    let mut source = ReaderSource::new(rt.reader());
    let mut sink = WriterSink::new(io::writer(rt));
    let Ended { ending, .. } = plain(rt.alloc(), &words, &mut source, &mut sink, dir);
    if ending == Ending::OpenFault && !is_folder(rt, folder) {
        return no_folder(rt, folder);
    }
    told(rt, &ending)
}

/// Each word as its UTF-8 bytes.
fn bytes_of<R: AllocGlobal>(rt: &R, words: &[String]) -> Result<Seq<Seq<u8>>, AllocError> {
    let mut all = Vec::new(rt.alloc());
    for word in words {
        all.push(Seq::of(word.as_bytes().to_vec(rt.alloc())?))?;
    }
    Ok(Seq::of(all))
}

/// Whether there is a folder at the path.
fn is_folder<R: Files>(rt: &R, path: &str) -> bool {
    match fs::metadata(rt, path) {
        Ok(found) => found.is_dir(),
        Err(_) => false,
    }
}

/// Says that the store could not be opened since there is no folder and none could be made.
fn no_folder(rt: &impl Eprint, folder: &str) -> u8 {
    let ending = Ending::OpenFault;
    let _ = eprintln!(rt; "{ending}: \"{folder}\" is no folder, and none could be made");
    ending.status()
}
