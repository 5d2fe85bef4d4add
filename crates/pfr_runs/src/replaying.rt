//! What `pfreplay run` does.
ghost use Rattle.std.specs.Prelude.{◌≡◌, ◌≤◌, false, nat_lt, Contains, IfOk, IfSome, OnOk, length};
ghost use Rattle.std.specs.List.{list_any};
ghost use Rattle.pfr_command.specs.Outputs.{file_names};
ghost use Rattle.pfr_files.specs.Standard.{is_standard, standard_inputs};
ghost use Rattle.pfr_files.specs.Jobs as spec;

use crate::host::Host;
use pfr_capture::{Source, Tail, WriterSink};
use pfr_command::{Messages, RunWords, inputs_of, outputs_of};
use pfr_files::{
    CUT, Connection, DONE, Destination, Failure, Place, STANDARD, begin_progress, connected,
    created, has_standard, is_standard, job_by, repeated_output, repeats_input, sources,
};
use pfr_headers::Tap;
use pfr_notices::{Meter, Two, Wanted, Warning, Watch, warn};
use pfr_out::{Form, Gate, PacketSinks, Report, RunSettings, Sinks, Sources, replay_job};
use pfr_packet::Job;
use pfr_prepare::prepared_text;
use pfr_values::CaptureWords;
use std::alloc::{AllocError, AllocGlobal};
use std::io::{ErrorKind, Read, Write};
use std::net::Net;
use std::rt::Files;
use std::{fs, io};

/// What takes an output, by the files and the network of a runtime, and by standard output.
type OutputSink<R, O> = WriterSink<
    Destination<<R as Files>::File, O, Connection<<R as Net>::Stream>>,
>;

/// Replays captures through a ruleset, and answers the status. If the words ask for warnings, `err` is told why a file
/// wasn't opened.
pub fn replay<'a, R: Host, I: Read + Drop, O: Write + Copy, E: Write, M: Meter>(
    rt: &R,
    asked: &RunWords<'a>,
    input: I,
    out: &mut O,
    err: &mut E,
    meter: &M,
) -> Result<u8, Failure<'a>> {
    let ended = replay_words(rt, asked, input, out, err, meter);
    if let Err(failure) = &ended {
        if asked.warns {
            warn_of(rt, *failure, asked.captures.as_slice(), err);
        }
    }
    ended
}

/// Warns of what stands behind a failure, if the system says more of it.
fn warn_of<'a, R: Files, E: Write>(
    rt: &R,
    failure: Failure<'a>,
    captures: &[CaptureWords<'a>],
    err: &mut E,
) {
    match failure.place {
        Place::Unopened(name, reason) => warn(&Warning::NotOpened(name, reason), err),
        Place::Unread(place, _, _) => warn_of_folder(rt, captures.get(place), err),
        _ => {}
    }
}

/// Warns of a capture that is a folder: it can be opened, and not be read.
fn warn_of_folder<'a, R: Files, E: Write>(rt: &R, words: Option<&CaptureWords<'a>>, err: &mut E) {
    if let Some(words) = words {
        if let Ok(metadata) = fs::metadata(rt, words.capture) {
            if metadata.is_dir() {
                let reason = io::Error::from(ErrorKind::IsADirectory);
                warn(&Warning::NotOpened(words.capture, reason), err);
            }
        }
    }
}

/// Replays captures through a ruleset, prints what there is to warn of, and how many packets were committed, and answers the status.
/// If standard output takes an output of the run, that number goes to `err`.
fn replay_words<'a, R: Host, I: Read + Drop, O: Write + Copy, E: Write, M: Meter>(
    rt: &R,
    asked: &RunWords<'a>,
    input: I,
    out: &mut O,
    err: &mut E,
    meter: &M,
) -> Result<u8, Failure<'a>> {
    let is_taken = takes_standard(rt, asked)?;
    // A fault of the ruleset is reported before any other file is touched.
    let job = job_of(rt, asked, err)?;
    let report = watched(rt, asked, job, input, *out, err, meter)?;
    if is_taken {
        finish(&report, err)
    } else {
        finish(&report, out)
    }
}

/// Whether standard output takes an output of the run. More than one capture from standard input is refused, and an output that is
/// another file of the run.
fn takes_standard<'a, R: Files + AllocGlobal>(
    rt: &R,
    asked: &RunWords<'a>,
) -> Result<bool, Failure<'a>>
    ensures taken { IfOk result (λ is_taken. is_taken ≡ list_any (λ name. is_standard name.now) (file_names asked.now.captures asked.now.outputs)) }
    ensures input { OnOk result (nat_lt 1 (standard_inputs asked.now.captures) ≡ false) }
{
    let outputs = outputs_of(rt.alloc(), asked)?;
    if repeats_input(asked.captures.as_slice()) {
        return Err(Failure::same_file(STANDARD));
    }
    match repeated(rt, asked, outputs.as_slice())? {
        Some(name) => Err(Failure::same_file(name)),
        None => Ok(has_standard(outputs.as_slice())),
    }
}

/// The name of the first of these outputs that is another file of the run.
fn repeated<'a, R: Files + AllocGlobal>(
    rt: &R,
    asked: &RunWords<'_>,
    outputs: &[&'a str],
) -> Result<Option<&'a str>, AllocError>
    requires { outputs.now ≡ file_names asked.now.captures asked.now.outputs }
    ensures { IfOk result (λ repeated. IfSome repeated (Contains (file_names asked.now.captures asked.now.outputs))) }
{
    let inputs = inputs_of(rt.alloc(), &asked.rules)?;
    repeated_output(rt, asked.captures.as_slice(), inputs.as_slice(), outputs)
}

/// Replays captures by a job, writes the outputs, and prints what there is to warn of.
fn watched<'a, R: Host, I: Read + Drop, O: Write + Copy, E: Write, M: Meter>(
    rt: &R,
    asked: &RunWords<'a>,
    job: Job,
    input: I,
    out: O,
    err: &mut E,
    meter: &M,
) -> Result<Report, Failure<'a>> {
    let wanted = if asked.warns {
        Wanted::Everything
    } else {
        Wanted::Nothing
    };
    let shows_wire = matches!(asked.ways.tap, Tap::Wire);
    match Watch::new(rt.alloc(), job.rules(), wanted, shows_wire) {
        Ok(watch) => {
            begin_progress(rt, asked.progresses, asked.captures.as_slice(), meter);
            let both = Two {
                first: &watch,
                second: meter,
            };
            let ended = replayed(rt, asked, job, input, out, err, &both);
            meter.end();
            if let Ok(report) = &ended {
                watch.warn(report.committed, err);
            }
            drop(watch);
            ended
        }
        Err(refused) => {
            drop(job);
            Err(Failure::from(refused))
        }
    }
}

/// Replays captures by a job, and writes the outputs. A gate is told of the packets.
fn replayed<'a, R: Host, I: Read + Drop, O: Write + Copy, E: Write, G: Gate>(
    rt: &R,
    asked: &RunWords<'a>,
    job: Job,
    input: I,
    out: O,
    err: &mut E,
    gate: &G,
) -> Result<Report, Failure<'a>> {
    let addresses = asked.ways.link_addresses.as_slice();
    match sources(rt, asked.captures.as_slice(), addresses, input) {
        Ok(mut sources) => {
            let ended = replayed_from(rt, asked, job, &mut sources, out, err, gate);
            drop(sources);
            ended
        }
        Err(failure) => {
            drop(job);
            Err(failure)
        }
    }
}

/// Replays what these sources have by a job, and writes the outputs.
fn replayed_from<'a, R: Host, S: Source, O: Write + Copy, E: Write, G: Gate>(
    rt: &R,
    asked: &RunWords<'a>,
    job: Job,
    sources: &mut Sources<S>,
    out: O,
    err: &mut E,
    gate: &G,
) -> Result<Report, Failure<'a>>
    requires { length sources.old ≤ 8 }
{
    let settings = RunSettings {
        batch: asked.batch,
        workers: asked.workers,
        form: form_of(&asked.outputs.messages),
    };
    match sinks(rt, asked, out) {
        Ok(mut sinks) => {
            let ended = replay_job(rt, sources, job, settings, &mut sinks, gate);
            drop(sinks);
            match ended {
                Ok(report) => Ok(report),
                Err(stop) => Err(Failure::of_run(&stop, asked.captures.as_slice(), err)),
            }
        }
        Err(failure) => {
            drop(job);
            Err(failure)
        }
    }
}

/// What the packets of the run are evaluated by. The ruleset's text is read here, and nowhere else.
fn job_of<'a, R: Files + AllocGlobal, E: Write>(
    rt: &R,
    asked: &RunWords<'a>,
    err: &mut E,
) -> Result<Job, Failure<'a>>
    ensures { IfOk result (spec.IsAsked asked.now.rules asked.now.ways asked.now.seed) }
{
    let text = prepared_text(rt, &asked.rules, err)?;
    job_by(
        rt.alloc(),
        &asked.rules,
        &text,
        &asked.ways,
        asked.seed,
        None,
        err,
    )
}

/// The form in which messages are written.
fn form_of(messages: &Messages<'_>) -> Form {
    match messages {
        Messages::File(_) => Form::File,
        Messages::Peer(_) => Form::Peer,
        Messages::Nowhere => Form::None,
    }
}

/// Creates the files of the outputs, in this order, and behind them the connection to a peer. One at most is standard output.
fn sinks<'a, R: Files + Net + AllocGlobal, O: Write + Copy>(
    rt: &R,
    asked: &RunWords<'a>,
    out: O,
) -> Result<Sinks<OutputSink<R, O>>, Failure<'a>> {
    let mut sinks = Sinks {
        verdicts: nowhere(),
        packets: PacketSinks::new(Vec::new(rt.alloc())),
        counters: nowhere(),
        states: nowhere(),
        messages: nowhere(),
    };
    open_sinks(rt, asked, out, &mut sinks).and(Ok(sinks))
}

/// Has outputs that went nowhere go where the words say.
fn open_sinks<'a, R: Files + Net + AllocGlobal, O: Write + Copy>(
    rt: &R,
    asked: &RunWords<'a>,
    out: O,
    sinks: &mut Sinks<OutputSink<R, O>>,
) -> Result<(), Failure<'a>> {
    let names = &asked.outputs;
    sinks.verdicts = sink(rt, names.verdicts, out)?;
    sinks.packets = packet_sinks(rt, asked.captures.as_slice(), out)?;
    sinks.counters = sink(rt, names.counters, out)?;
    sinks.states = sink(rt, names.states, out)?;
    sinks.messages = messages_sink(rt, &names.messages, out)?;
    Ok(())
}

/// Creates the files of the packets, by the places of their captures.
fn packet_sinks<'a, R: Files + Net + AllocGlobal, O: Write + Copy>(
    rt: &R,
    captures: &[CaptureWords<'a>],
    out: O,
) -> Result<PacketSinks<OutputSink<R, O>>, Failure<'a>> {
    let mut sinks = Vec::with_capacity(rt.alloc(), captures.len())?;
    add_sinks(rt, captures, out, &mut sinks).and(Ok(PacketSinks::new(sinks)))
}

/// Adds the files of the packets behind the last of these outputs.
fn add_sinks<'a, R: Files + Net + AllocGlobal, O: Write + Copy>(
    rt: &R,
    captures: &[CaptureWords<'a>],
    out: O,
    sinks: &mut Vec<OutputSink<R, O>>,
) -> Result<(), Failure<'a>> {
    for words in captures {
        let sink = sink(rt, words.packets, out)?;
        sinks.push(sink).map_err(AllocError::from)?;
    }
    Ok(())
}

/// An output that goes nowhere.
fn nowhere<F: Write + Drop, O: Write + Copy, S: Write + Drop>() -> WriterSink<
    Destination<F, O, S>,
> {
    WriterSink::new(Destination::Nowhere)
}

/// Creates the file of an output, or takes standard output.
fn sink<'a, R: Files, O: Write + Copy, S: Write + Drop>(
    rt: &R,
    name: &'a str,
    out: O,
) -> Result<WriterSink<Destination<R::File, O, S>>, Failure<'a>> {
    if is_standard(name) {
        return Ok(WriterSink::new(Destination::Standard(out)));
    }
    Ok(WriterSink::new(Destination::File(created(rt, name)?)))
}

/// Creates the file of the messages, or connects to the peer that they go to.
fn messages_sink<'a, R: Files + Net, O: Write + Copy>(
    rt: &R,
    messages: &Messages<'a>,
    out: O,
) -> Result<OutputSink<R, O>, Failure<'a>> {
    match messages {
        Messages::File(name) => sink(rt, name, out),
        Messages::Peer(peer) => {
            let connection = connected(rt, peer)?;
            Ok(WriterSink::new(Destination::Stream(connection)))
        }
        Messages::Nowhere => Ok(nowhere()),
    }
}

/// Prints how a run ended, and answers its status.
fn finish<'a, O: Write>(report: &Report, out: &mut O) -> Result<u8, Failure<'a>> {
    let committed = report.committed;
    let (end, status) = match report.tail {
        Tail::Clean => ("", DONE),
        Tail::Cut => (", cut", CUT),
    };
    match writeln!(out, "committed {committed}{end}") {
        Ok(()) => Ok(status),
        Err(_) => Err(Failure::of_printing()),
    }
}
