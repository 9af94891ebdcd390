// From the words of the command line to the status.
ghost use Rattle.std.specs.Prelude.{◌≡◌, ◌≢◌, ℕ, List, IsTrue, false, map, string_bytes, Option, Some, None};
ghost use Rattle.glacier_cli.specs.Endings.{PrintsEnding, sink_use};
ghost use Rattle.glacier_cli.specs.FileUse.{KeepsContents, file_use};
ghost use Rattle.glacier_cli.specs.Forms.{ServeWords, form_of, hash as hash_form, serve as serve_form};
ghost use Rattle.glacier_cli.specs.Program.{StandsFor, HeadlineOf};
ghost use Rattle.glacier_cli.specs.Runs.{HashRun, ServeRun, UsageRun, HasReason};
ghost use Rattle.glacier_cli.specs.StationUse.{station_use};

use crate::command::Command;
use crate::ending::Ending;
use crate::hash::hash;
use crate::serve::serve_keys;
use glacier_base::{Files, Sink};
use glacier_disk::Station;
use std::alloc::Global;
use std::thread::Threads;

/// Does what the words say.
fn ending_of<R: Threads + Sync, F: Files, S: Station>(
    rt: &R,
    alloc: Global,
    words: &[String],
    files: &mut F,
    station: &mut S,
) -> Ending
    requires closed { (S.told station.old).opened ≡ false }
    requires not_listening { (S.told station.old).listener.listening ≡ false }
    requires not_connected { (S.told station.old).connected ≡ false }
    ensures stands { StandsFor (form_of (map string_bytes words.now))
        (file_use F.tells (F.told files.old) (F.told files.new))
        (station_use S.tells (S.told station.old) (S.told station.new)) result }
    ensures headline { (told : ServeWords) →
        form_of (map string_bytes words.now) ≡ Some (serve_form told) → IsTrue S.tells →
        HeadlineOf (file_use F.tells (F.told files.old) (F.told files.new))
        (station_use S.tells (S.told station.old) (S.told station.new)) told }
    ensures contents { KeepsContents (file_use F.tells (F.told files.old) (F.told files.new)) }
    ensures alone { ((told : ServeWords) →
        form_of (map string_bytes words.now) ≢ Some (serve_form told)) →
        station.new ≡ station.old }
{
    match &Command::of(words) {
        Some(Command::Hash(name)) => hash(rt, alloc, *name, files),
        Some(Command::Serve(serving)) => serve_keys(rt, alloc, serving, files, station),
        None => Ending::Usage,
    }
}

/// Does what the words say, prints a line and answers the status: 0 where all went well, 2 where
/// the words are none of the forms, 3 where a file couldn't be opened or read or a line of the key
/// file is bad, 4 where memory was wanting, 5 where the folder couldn't be opened or a call of the
/// disk failed, 6 where the address couldn't be listened at or no connection be accepted, 7 where
/// the line couldn't be written, 8 where no store stands in the folder or, to make one, it isn't
/// empty, 10 where the journal had no room for an event, 11 where an account uses more than its quota.
///
/// The forms are `hash [FILE]`, which prints the tree hash of the file or of standard input, and
/// `serve FOLDER KEYS --listen ADDR [--region R] [--delay N] [--connections N] [--new]`, which reads
/// the key file, opens the store in the folder, or makes one with `--new`, serves the accounts on the
/// connections that come to the address, at most N, else 1,000,000, and prints how many they were.
/// The options stand in any order, each once. R, else `us-east-1`, is the region. With `--delay` a
/// retrieval job takes so many seconds, 0 to 31,536,000, whatever its tier.
pub fn run<R: Threads + Sync, F: Files, S: Station, O: Sink>(
    rt: &R,
    alloc: Global,
    words: &[String],
    files: &mut F,
    station: &mut S,
    out: &mut O,
) -> u8
    requires closed { (S.told station.old).opened ≡ false }
    requires not_listening { (S.told station.old).listener.listening ≡ false }
    requires not_connected { (S.told station.old).connected ≡ false }

    // One ending stands for the words and for what was done, and is printed.
    ensures ends { (ending : Ending) × StandsFor (form_of (map string_bytes words.now))
        (file_use F.tells (F.told files.old) (F.told files.new))
        (station_use S.tells (S.told station.old) (S.told station.new)) ending
        × PrintsEnding (sink_use O.tells (O.told out.old) (O.told out.new)) ending result }

    // What is served is the vault machine's, and what a crash leaves holds all that was answered.
    ensures headline { (told : ServeWords) →
        form_of (map string_bytes words.now) ≡ Some (serve_form told) → IsTrue S.tells →
        HeadlineOf (file_use F.tells (F.told files.old) (F.told files.new))
        (station_use S.tells (S.told station.old) (S.told station.new)) told }

    // What each form does, and words of no form.
    ensures hash { (name : Option (List ℕ)) →
        form_of (map string_bytes words.now) ≡ Some (hash_form name) →
        HashRun (file_use F.tells (F.told files.old) (F.told files.new))
        (sink_use O.tells (O.told out.old) (O.told out.new)) name result }
    ensures serve { (told : ServeWords) →
        form_of (map string_bytes words.now) ≡ Some (serve_form told) →
        ServeRun (file_use F.tells (F.told files.old) (F.told files.new))
        (station_use S.tells (S.told station.old) (S.told station.new))
        (sink_use O.tells (O.told out.old) (O.told out.new)) told result }
    ensures usage { form_of (map string_bytes words.now) ≡ None →
        UsageRun (file_use F.tells (F.told files.old) (F.told files.new)) result }
    ensures reason { HasReason (form_of (map string_bytes words.now))
        (file_use F.tells (F.told files.old) (F.told files.new))
        (station_use S.tells (S.told station.old) (S.told station.new))
        (sink_use O.tells (O.told out.old) (O.told out.new)) result }

    // No content changes, and `serve` alone does anything at the station.
    ensures alone { KeepsContents (file_use F.tells (F.told files.old) (F.told files.new))
        × (((told : ServeWords) →
        form_of (map string_bytes words.now) ≢ Some (serve_form told)) →
        station.new ≡ station.old) }
{
    ending_of(rt, alloc, words, files, station).print(out)
}
