//! The commands of the program.

ghost use Rattle.std.specs.Prelude.{◌≡◌, ◌≢◌, ◌⊎◌, ℕ, ◌<◌, ◌++◌, ◌-◌, ◌^◌, Some, map, not, string_bytes, IfErr, true, false};
ghost use Rattle.al_value.specs.Outside.{Counted, Rose, Told};
ghost use Rattle.al_io.specs.Outside.{Bytes, GainsPrefix};
ghost use Rattle.al_words.specs.declared.command.Command.{Command as Asked};
ghost use Rattle.al_words.specs.declared.command.Command.TheVariants as asked;
ghost use Rattle.al_words.specs.Words.{IsCommand};
ghost use Rattle.al_csv.specs.Generator.{generated};
ghost use Rattle.al_query.specs.declared.status.Status.{Status as Ended};
ghost use Rattle.al_query.specs.Lines.{status_line};
ghost use Rattle.al_query.specs.Served.{IsDue, IsDueOrCut, IsFitting, IsGood, IsText, MayEnd, Writes, is_served, is_settled};
ghost use Rattle.al_query.specs.Tells.{IsInRange, IsNoEnd, IsPlanStop, TellsGenerated, TellsPrinted, TellsText, is_idle, is_source_fault, is_usage};

use crate::answer::answer;
use crate::explain::explained;
use crate::plan::read_accepted;
use crate::status::Status;
use al_csv::generate;
use al_infer::acceptance_laws;
use al_io::{Sink, Source, write_whole};
use al_print::print_plan;
use al_read::one_plan_reading;
use al_value::{Failed, List, NoMemory};
use al_words::{Command, WordsFault, one_command, read_words};
use std::alloc::Global;

/// Serves the command of the words, and tells of its status by one line on `err`. A fault of
/// `err` changes no status.
pub fn plain_command<S: Source, K: Sink, E: Sink>(
    alloc: Global,
    words: &[String],
    source: &mut S,
    out: &mut K,
    err: &mut E,
) -> Status
    // The headline: what `out` gained is the text that the command asks for. For `plain` and `step`
    // it is the text of an answer that the plan allows over the records of its data files.
    ensures done { result ≡ Status.Done → Told (S.files source.old) (λ fs. Told (K.written out.old)
        (λ was. (c : Asked) × (text : Bytes) × IsCommand (map string_bytes words.now) c × IsText c fs text × (K.written out.new ≡ Some (was ++ text)))) }
    ensures sink_part { result ≡ Status.SinkFault → Told (S.files source.old) (λ fs. Told (K.written out.old)
        (λ was. (c : Asked) × (text : Bytes) × IsCommand (map string_bytes words.now) c × IsText c fs text × GainsPrefix was text (K.written out.new))) }
    ensures untouched { result ≢ Status.Done → result ≢ Status.SinkFault → K.written out.new ≡ K.written out.old }

    // Each answer has its cause, and the cause brings the answer unless a fault came first.
    ensures usage { result ≡ Status.Usage → (c : Asked) → IsCommand (map string_bytes words.now) c → is_served c ≡ false }
    ensures refused_words { ((c : Asked) → IsCommand (map string_bytes words.now) c → is_served c ≡ false) → (result ≡ Status.Usage) ⊎ (result ≡ Status.NoMemory) }
    ensures cause { Told (S.files source.old) (λ fs. IsDue (map string_bytes words.now) fs result) }
    ensures exact { Told (S.files source.old) (λ fs. (due : Ended) → is_settled due ≡ true → IsDue (map string_bytes words.now) fs due → IsDueOrCut due result) }
    ensures complete { Told (S.files source.old) (λ fs. (c : Asked) → IsCommand (map string_bytes words.now) c → IsGood c fs
        → ¬ Rose (S.faults source.old) (S.faults source.new)
        → ¬ Rose (K.faults out.old) (K.faults out.new)
        → (result ≡ Status.Done) ⊎ (result ≡ Status.NoMemory)) }
    ensures idle { (seed rows : ℕ) → (result ≡ Status.Usage) ⊎ IsCommand (map string_bytes words.now) (asked.Gen seed rows) → source.new ≡ source.old }
    ensures source_fault { result ≡ Status.SourceFault → Rose (S.faults source.old) (S.faults source.new) }
    ensures source_quiet { result ≢ Status.SourceFault → S.faults source.new ≡ S.faults source.old }
    ensures sink_fault { result ≡ Status.SinkFault → Rose (K.faults out.old) (K.faults out.new) }
    ensures sink_quiet { result ≢ Status.SinkFault → K.faults out.new ≡ K.faults out.old }

    // What holds whatever the source tells: which commands may end so, and what `gen` writes.
    ensures fitting { IsFitting (map string_bytes words.now) result }
    ensures generates { (seed rows : ℕ) → IsCommand (map string_bytes words.now) (asked.Gen seed rows) → Writes (generated seed rows) (K.written out.old) (K.written out.new) result }

    // What `err` gained. Its faults change no status, since no clause on the status speaks of them.
    ensures line { E.faults err.new ≡ E.faults err.old → E.faults err.old < 2 ^ 64 - 1
        → Told (E.written err.old) (λ was. E.written err.new ≡ Some (was ++ status_line result)) }
    ensures line_part { Told (E.written err.old) (λ was. GainsPrefix was (status_line result) (E.written err.new)) }
{
    one_command();
    one_plan_reading();
    acceptance_laws();
    let status = serve(alloc, words, source, out);
    let _ = status.write_line(err);
    status
}

/// Serves the command of the words.
fn serve<S: Source, K: Sink>(alloc: Global, words: &[String], source: &mut S, out: &mut K) -> Status
    ensures done { result ≡ Status.Done → Told (S.files source.old) (λ fs. Told (K.written out.old)
        (λ was. (c : Asked) × (text : Bytes) × IsCommand (map string_bytes words.now) c × IsText c fs text × (K.written out.new ≡ Some (was ++ text)))) }
    ensures sink_part { result ≡ Status.SinkFault → Told (S.files source.old) (λ fs. Told (K.written out.old)
        (λ was. (c : Asked) × (text : Bytes) × IsCommand (map string_bytes words.now) c × IsText c fs text × GainsPrefix was text (K.written out.new))) }
    ensures untouched { result ≢ Status.Done → result ≢ Status.SinkFault → K.written out.new ≡ K.written out.old }
    ensures usage { result ≡ Status.Usage → (c : Asked) → IsCommand (map string_bytes words.now) c → is_served c ≡ false }
    ensures refused_words { ((c : Asked) → IsCommand (map string_bytes words.now) c → is_served c ≡ false) → (result ≡ Status.Usage) ⊎ (result ≡ Status.NoMemory) }
    ensures cause { Told (S.files source.old) (λ fs. IsDue (map string_bytes words.now) fs result) }
    ensures fitting { IsFitting (map string_bytes words.now) result }
    ensures generates { (seed rows : ℕ) → IsCommand (map string_bytes words.now) (asked.Gen seed rows) → Writes (generated seed rows) (K.written out.old) (K.written out.new) result }
    ensures idle { (seed rows : ℕ) → (result ≡ Status.Usage) ⊎ IsCommand (map string_bytes words.now) (asked.Gen seed rows) → source.new ≡ source.old }
    ensures source_fault { result ≡ Status.SourceFault → Rose (S.faults source.old) (S.faults source.new) }
    ensures source_quiet { result ≢ Status.SourceFault → S.faults source.new ≡ S.faults source.old }
    ensures sink_fault { result ≡ Status.SinkFault → Rose (K.faults out.old) (K.faults out.new) }
    ensures sink_quiet { result ≢ Status.SinkFault → K.faults out.new ≡ K.faults out.old }
{
    one_command();
    let command = match read_words(alloc, words) {
        Ok(command) => command,
        Err(WordsFault::Usage) => return Status::Usage,
        Err(WordsFault::NoMemory) => return Status::NoMemory,
    };
    let text = match command_text(alloc, &command, source) {
        Ok(text) => text,
        Err(status) => return status,
    };
    match write_whole(out, text.as_slice()) {
        Ok(()) => Status::Done,
        Err(Failed) => Status::SinkFault,
    }
}

/// The text that a command writes, all of which is made before anything is written.
fn command_text<S: Source>(
    alloc: Global,
    command: &Command,
    source: &mut S,
) -> Result<List<u8>, Status>
    requires { IsInRange command.now }
    ensures tells { Told (S.files source.old) (λ fs. TellsText command.now fs result) }
    ensures stops { IfErr result IsNoEnd }
    ensures ends { IfErr result (MayEnd command.now) }
    ensures generates { TellsGenerated command.now result }
    ensures usage { is_usage result ≡ not (is_served command.now) }
    ensures idle { is_idle command.now ≡ true → source.new ≡ source.old }
    ensures cause { Counted (is_source_fault result) (S.faults source.old) (S.faults source.new) }
{
    match command {
        Command::Check { plan } => printed(alloc, plan.as_str(), source),
        Command::Explain { plan, partitions } => {
            explained(alloc, plan.as_str(), *partitions, source)
        }
        Command::Plain { plan } => answer(alloc, plan.as_str(), source),
        Command::Step { plan, .. } => answer(alloc, plan.as_str(), source),
        Command::Gen { seed, rows } => match generate(alloc, *seed, *rows) {
            Ok(text) => Ok(text),
            Err(NoMemory) => Err(Status::NoMemory),
        },
        Command::Run { .. } => Err(Status::Usage),
        Command::Drill { .. } => Err(Status::Usage),
        Command::Frames { .. } => Err(Status::Usage),
    }
}

/// The canonical text of a plan file that is accepted; no dataset is opened.
fn printed<S: Source>(alloc: Global, name: &str, source: &mut S) -> Result<List<u8>, Status>
    ensures tells { Told (S.files source.old) (λ fs. TellsPrinted fs name.now result) }
    ensures stops { IfErr result IsPlanStop }
    ensures cause { Counted (is_source_fault result) (S.faults source.old) (S.faults source.new) }
{
    let file = match read_accepted(alloc, name, source) {
        Ok(file) => file,
        Err(status) => return Err(status),
    };
    match print_plan(alloc, file.get()) {
        Ok(text) => Ok(text),
        Err(NoMemory) => Err(Status::NoMemory),
    }
}
