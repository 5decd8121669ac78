//! The program. It reads its words, and serves them over the files of the working folder, standard
//! output and standard error.
#![tactic(auto)]

ghost use Rattle.std.specs.Prelude.{◌≡◌, ◌++◌, ◌≢◌, Some, map, string_bytes};
ghost use Rattle.std.specs.Process.{exit_status};
ghost use Rattle.al_value.specs.Outside.{Told};
ghost use Rattle.al_io.specs.Outside.{Bytes};
ghost use Rattle.al_words.specs.declared.command.Command.{Command};
ghost use Rattle.al_words.specs.Words.{IsCommand};
ghost use Rattle.al_query.specs.declared.status.Status.{Status as Ended};
ghost use Rattle.al_query.specs.Lines.{code_of};
ghost use Rattle.al_query.specs.Served.{IsDue, IsText};

use al_io::{FolderSource, Sink, Source, StreamSink};
use al_query::{Status, plain_command};
use std::alloc::Global;
use std::env;
use std::io::ErrorKind;
use std::process::ExitCode;

/// The words behind the program's name. A word that is no text is no word of a command.
fn words_of(rt: &HostRuntime) -> Result<Vec<String>, Status> {
    match env::args(rt) {
        Ok(words) => match words.skip(1).collect(rt.alloc()) {
            Ok(words) => Ok(words),
            Err(_) => Err(Status::NoMemory),
        },
        Err(e) if e.kind() == ErrorKind::OutOfMemory => Err(Status::NoMemory),
        Err(_) => Err(Status::Usage),
    }
}

/// How the process ends by a status.
fn ending(status: &Status) -> ExitCode
    ensures { exit_status result ≡ code_of status.now }
{
    ExitCode::from(status.code())
}

/// Serves the command of the words. The process ends with the number of a status that is due, and
/// with 0 exactly where the text that the command asks for was written.
fn serve<S: Source, K: Sink, E: Sink>(
    alloc: Global,
    words: &[String],
    source: &mut S,
    out: &mut K,
    err: &mut E,
) -> ExitCode
    ensures ended { (status : Ended) × (exit_status result ≡ code_of status) × Told (S.files source.old) (λ fs. IsDue (map string_bytes words.now) fs status) }
    ensures done { exit_status result ≡ 0 → Told (S.files source.old) (λ fs. Told (K.written out.old)
        (λ was. (c : Command) × (text : Bytes) × IsCommand (map string_bytes words.now) c × IsText c fs text × (K.written out.new ≡ Some (was ++ text)))) }
    ensures untouched { exit_status result ≢ 0 → exit_status result ≢ 6 → K.written out.new ≡ K.written out.old }
{
    let served = plain_command(alloc, words, source, out, err);
    ending(&served)
}

fn main(rt: HostRuntime) -> ExitCode {
    let mut source = FolderSource::new(&rt, rt.alloc());
    let mut out = StreamSink::new(rt.stdout(), rt.alloc());
    let mut err = StreamSink::new(rt.stderr(), rt.alloc());
    match words_of(&rt) {
        Ok(words) => serve(
            rt.alloc(),
            words.as_slice(),
            &mut source,
            &mut out,
            &mut err,
        ),
        Err(status) => {
            let _ = status.write_line(&mut err);
            ending(&status)
        }
    }
}
