//! The program, over a reader and two writers.

ghost use Rattle.std.specs.Prelude.{◌≡◌, ◌&&◌, IfNone, IfSome, List, MatchBool, [], map};
ghost use Rattle.tp_hub.specs.Streams.{StreamCall};
ghost use Rattle.tp_lines.specs.Pipes.{IsPiped};
ghost use Rattle.tp_tasks.specs.CommandLine.{IsScript};
ghost use Rattle.tp_tasks.specs.declared.task.Task.TheVariants.{Play};
ghost use Rattle.tp_failures.specs.Failures.{number_of};
ghost use Rattle.tp_commands.specs.Images.{IsChecked, IsCleared};
ghost use Rattle.tp_program.specs.Statuses.{EndsBy, status_after, status_code, status_of, status_without};
ghost use Rattle.tp_program.specs.Tasks.{AsksStatus, Does, DoesOn, DoesPlain, Feeds, LacksScript, Performs, Plays, PlaysFile, offered, plain_of};

use crate::clients::serve_image;
use crate::running::run_image;
use crate::streams::Terminals;
use nbd_session::Profile;
use std::alloc::Global;
use std::convert::AsStr;
use std::fs::File;
use std::io::{self, Read, Write};
use std::marker::Brand;
use std::net::{Net, TcpListener, TcpStream};
use std::rt::Files;
use std::sync::Wait;
use std::thread::Threads;
use std::time::Clock;
use tp_commands::asking::format;
use tp_commands::{
    Unplayed, check_image, clear_image, create, feed_fresh, feed_image, message_to_image,
    play_fresh, play_image, status_of_image, tell_listing, try_image, volume_asked,
};
use tp_failures::{Cause, Explanation, Failure};
use tp_hub::Stream;
use tp_images::Images;
use tp_lines::{Begins, Ends, Piped};
use tp_model::Refusal;
use tp_places::{ask_place, delta_at};
use tp_progress::Progress;
use tp_words::{Image, NoWords, Task, Unread, command};

/// How a program ends.
#[derive(Clone, Copy, Debug, PartialEq, Eq)]
pub enum Status {
    /// All was done.
    Done,
    /// The task was refused.
    Refused,
    /// The words are no command line.
    Misused,
}

impl Status {
    /// The exit status of the process.
    pub fn code(self) -> u8
        ensures { result ≡ status_code self }
    {
        match self {
            Status::Done => 0,
            Status::Refused => 1,
            Status::Misused => 2,
        }
    }
}

/// Does what the words ask for, on images, and on the scripts and the sockets of a system. Help goes to `output`, what is wrong with the words, where clients
/// are waited for, that the pool fails while they are served and why the task was refused to `errors`: the number and name of a refusal on a line, and where that
/// is a terminal, or the words ask for it, what that means here on a second one. How far long work is goes to `progress`.
pub fn program<S: AsStr, F, I: Images, R: Read, W: Write, E, P: Progress + Drop>(
    system: &F,
    images: &mut I,
    alloc: Global,
    words: &[S],
    terminals: Terminals,
    progress: P,
    input: &mut R,
    output: &mut W,
    errors: &mut E,
) -> Status
where
    F: Files<File = File>
        + Net<Listener = TcpListener, Stream = TcpStream>
        + Threads
        + Wait
        + Clock
        + Sync,
    E: Write + Send,
    ensures ends { EndsBy (map S.text words.now) result }
    ensures performs { Performs (terminals.input && terminals.errors) (map S.text words.now) (I.deeds images.old) (I.deeds images.new)
        (R.remaining input.old) (R.remaining input.new) (W.contents output.old) (W.contents output.new) result }
{
    match command(alloc, words) {
        Ok(asked) => {
            let done = perform(
                system, images, alloc, asked.task, terminals, progress, input, output, errors,
            );
            conclude_task(
                &asked.task,
                done,
                asked.explains || terminals.errors,
                errors,
            )
        }
        Err(Unread::Help(text)) => conclude(tell(output, text.as_bytes()), errors),
        Err(Unread::Misused(text)) => misuse(text.as_str(), errors),
        Err(Unread::Memory) => conclude(Err(Refusal::Memory), errors),
    }
}

/// Reports that a closed standard stream cannot be replaced by /dev/null, with error 5 (Fault): an
/// image could be opened in its place.
pub fn without_streams<E: Write>(error: &io::Error, errors: &mut E) -> Status
    ensures { result ≡ Status.Refused }
{
    let told = conclude(Err(Refusal::Fault), errors);
    let _ = writeln!(errors, "thinpool: /dev/null cannot be opened: {error}");
    told
}

/// Reports that the command line cannot be read, and returns the exit status.
///
/// An argument that is not valid UTF-8 is a usage error, and the message has its number.
pub fn without_words<E: Write>(why: NoWords, errors: &mut E) -> Status
    ensures { result ≡ status_without why }
{
    match why {
        NoWords::NotUtf8(number) => {
            let _ = write!(
                errors,
                "error: argument {number} is not valid UTF-8; all arguments, including paths, must be UTF-8 (argument 0 is the program's name)\n\nUsage: thinpool <COMMAND>\n"
            );
            Status::Misused
        }
        NoWords::Memory => conclude(Err(Refusal::Memory), errors),
    }
}

/// Prints a usage error and returns its exit status.
fn misuse<E: Write>(text: &str, errors: &mut E) -> Status
    ensures { result ≡ Status.Misused }
{
    let _ = errors.write_all(text.as_bytes());
    Status::Misused
}

/// Prints the error of a task, if any, and returns the exit status.
fn conclude<E: Write>(done: Result<(), Refusal>, errors: &mut E) -> Status
    ensures { result ≡ status_of done }
{
    match done {
        Ok(()) => Status::Done,
        Err(reason) => {
            let _ = writeln!(errors, "thinpool: {reason}");
            Status::Refused
        }
    }
}

/// Returns whether errors of this task are explained even without a terminal and `--explain`: those
/// of the commands that no other program has.
fn always_explains(task: &Task<'_>) -> bool {
    matches!(
        task,
        Task::Run { .. }
            | Task::Ask { .. }
            | Task::Create { .. }
            | Task::Report { .. }
            | Task::DeltaAt { .. }
    )
}

/// Prints the number and name of an error, and its explanation on a second line if `explains`, for a
/// command that always explains, or if it has the number of volumes that fit.
fn tell_failure<E: Write>(task: &Task<'_>, failure: Failure, explains: bool, errors: &mut E) {
    let told = writeln!(errors, "thinpool: {}", failure.refusal);
    let is_explained = explains || always_explains(task) || failure.needs_reason();
    if is_explained && told.is_ok() {
        let explanation = Explanation {
            task: *task,
            failure,
        };
        let _ = writeln!(errors, "thinpool: {explanation}");
    }
}

/// Prints the error of a task or the number of a bad script line, and returns the exit status.
fn conclude_task<E: Write>(
    task: &Task<'_>,
    done: Result<(), Unplayed>,
    explains: bool,
    errors: &mut E,
) -> Status
    ensures { result ≡ status_after done }
{
    match done {
        Ok(()) => Status::Done,
        Err(Unplayed::Refused(failure)) => {
            tell_failure(task, failure, explains, errors);
            Status::Refused
        }
        Err(Unplayed::BadLine(number)) => {
            let _ = writeln!(errors, "thinpool: bad script line {number}");
            Status::Misused
        }
    }
}

/// The same of a task without a script.
fn plain(done: Result<(), Failure>) -> Result<(), Unplayed>
    ensures { result ≡ plain_of done }
{
    match done {
        Ok(()) => Ok(()),
        Err(why) => Err(Unplayed::Refused(why)),
    }
}

/// Tells the status of the pool of an image, or of one of its volumes.
fn tell_status<I: Images, S: Stream>(
    images: &mut I,
    alloc: Global,
    image: &str,
    id: Option<u64>,
    stream: &mut S,
) -> Result<(), Failure>
    ensures { AsksStatus image.now id (I.deeds images.old) (I.deeds images.new) (S.calls stream.old) (S.calls stream.new) (number_of result) }
{
    match volume_asked(id) {
        Ok(id) => status_of_image(images, alloc, image, id, stream),
        Err(reason) => Err(Failure::from(reason)),
    }
}

/// Checks an image, and clears the flag of its pool where that is asked for.
fn check<I: Images, S: Stream, P: Progress + Drop>(
    images: &mut I,
    alloc: Global,
    image: &str,
    clears: bool,
    progress: P,
    stream: &mut S,
) -> Result<(), Failure>
    ensures { MatchBool clears
        (IsCleared image.now (I.deeds images.old) (I.deeds images.new) (S.calls stream.old) (S.calls stream.new) (number_of result))
        (IsChecked image.now (I.deeds images.old) (I.deeds images.new) (S.calls stream.old) (S.calls stream.new) (number_of result)) }
{
    if clears {
        clear_image(images, alloc, image, progress, stream)
    } else {
        check_image(images, alloc, image, progress, stream)
    }
}

/// What is offered to the clients of standard input and of a script.
fn offered(is_extended: bool) -> Profile
    ensures { result ≡ offered is_extended }
{
    if is_extended {
        Profile::Extended
    } else {
        Profile::Strict
    }
}

/// Serves one client over a pool in memory, or over that of an image.
fn feed<I: Images, S: Stream>(
    images: &mut I,
    alloc: Global,
    image: Image<'_>,
    profile: &Profile,
    stream: &mut S,
) -> Result<(), Failure>
    ensures { Feeds profile.now image.entry (I.deeds images.old) (I.deeds images.new) (S.calls stream.old) (S.calls stream.new) (number_of result) }
{
    match image {
        Image::Memory => feed_fresh(alloc, profile, stream),
        Image::File(name) => feed_image(images, alloc, name, profile, stream),
    }
}

/// Plays the script that a stream gives over a pool in memory, or over that of an image.
fn play_on<I: Images, S: Stream>(
    images: &mut I,
    alloc: Global,
    image: Image<'_>,
    profile: &Profile,
    stream: &mut S,
) -> Result<(), Unplayed>
    ensures { Plays profile.now image.entry (I.deeds images.old) (I.deeds images.new) (S.calls stream.old) (S.calls stream.new) result }
{
    match image {
        Image::Memory => play_fresh(alloc, profile, stream),
        Image::File(name) => play_image(images, alloc, name, profile, stream),
    }
}

/// The same of the lines of a reader, their answers going to a writer, as a pipe from where this one begins.
fn play_since<'a, I: Images, R: Read, W: Write, K: Begins>(
    images: &mut I,
    alloc: Global,
    image: Image<'_>,
    profile: &Profile,
    ends: Ends<'a, R, W>,
) -> (Ends<'a, R, W>, Result<(), Unplayed>)
    requires { K.opening ≡ record { reader = ends.input.ghost_name; writer = ends.output.ghost_name; left = R.remaining ends.input.now; told = W.contents ends.output.now } }
    ensures same { (result.0.input.ghost_name ≡ ends.entry.input.ghost_name) × (result.0.output.ghost_name ≡ ends.entry.output.ghost_name) }
    ensures played { (did : List StreamCall) × IsPiped (R.remaining ends.entry.input.now) (R.remaining result.0.input.now) (W.contents ends.entry.output.now) (W.contents result.0.output.now) did
        × Plays profile.now image.entry (I.deeds images.old) (I.deeds images.new) [] did result.1 }
{
    let mut piped = Piped::<R, W, K>::begin(ends);
    let played = play_on(images, alloc, image, profile, &mut piped);
    (piped.end(), played)
}

/// The same of the lines of a reader, their answers going to a writer.
fn play_lines<I: Images, R: Read, W: Write>(
    images: &mut I,
    alloc: Global,
    image: Image<'_>,
    profile: &Profile,
    input: &mut R,
    output: &mut W,
) -> Result<(), Unplayed>
    ensures { (did : List StreamCall) × IsPiped (R.remaining input.old) (R.remaining input.new) (W.contents output.old) (W.contents output.new) did
        × Plays profile.now image.entry (I.deeds images.old) (I.deeds images.new) [] did result }
{
    let (_, played) = play_since::<I, R, W, Brand>(
        images,
        alloc,
        image,
        profile,
        Ends { input, output },
    );
    played
}

/// Why a script that cannot be opened is not played. The image is opened before a script is, so what
/// is wrong with the image is told first.
fn without_script<I: Images>(
    images: &mut I,
    alloc: Global,
    image: Image<'_>,
    error: io::Error,
) -> Failure
    ensures { LacksScript image.entry (I.deeds images.old) (I.deeds images.new) result }
{
    match image {
        Image::Memory => Failure::fault(Cause::Script(error)),
        Image::File(name) => match try_image(images, alloc, name) {
            Ok(()) => Failure::fault(Cause::Script(error)),
            Err(why) => why,
        },
    }
}

/// Plays the script in a file over a pool.
fn play_file<F: Files<File = File>, I: Images, W: Write>(
    files: &F,
    images: &mut I,
    alloc: Global,
    image: Image<'_>,
    profile: &Profile,
    path: &str,
    output: &mut W,
) -> Result<(), Unplayed>
    ensures { PlaysFile profile.now image.entry (I.deeds images.old) (I.deeds images.new) (W.contents output.old) (W.contents output.new) result }
{
    match File::open(files, path) {
        Ok(mut script) => play_lines(images, alloc, image, profile, &mut script, output),
        Err(error) => Err(Unplayed::Refused(without_script(images, alloc, image, error))),
    }
}

/// Performs a task that has no script, over the stream that it reads and writes.
fn perform_on<F, I: Images, S: Stream, E, P: Progress + Drop>(
    system: &F,
    images: &mut I,
    alloc: Global,
    task: Task<'_>,
    asks: bool,
    progress: P,
    stream: &mut S,
    errors: &mut E,
) -> Result<(), Failure>
where
    F: Files<File = File>
        + Net<Listener = TcpListener, Stream = TcpStream>
        + Threads
        + Wait
        + Clock
        + Sync,
    E: Write + Send,
    requires { IsScript task → ⊥ }
    ensures { DoesPlain asks task.entry (I.deeds images.old) (I.deeds images.new) (S.calls stream.old) (S.calls stream.new) (number_of result) }
{
    match task {
        Task::Format {
            image,
            sizes,
            overwrites,
        } => format(
            images, alloc, image, &sizes, overwrites, asks, progress, stream, errors,
        ),
        Task::Create {
            image,
            wanted,
            overwrites,
        } => create(
            images, alloc, image, &wanted, overwrites, asks, progress, stream, errors,
        ),
        Task::Message { image, line } => message_to_image(images, alloc, image, line, stream),
        Task::Status { image, id } => tell_status(images, alloc, image, id, stream),
        Task::Check { image, clears } => check(images, alloc, image, clears, progress, stream),
        Task::Report {
            image,
            listing,
            is_json,
        } => tell_listing(images, alloc, image, &listing, is_json, progress, stream),
        Task::DeltaAt {
            place,
            old,
            new,
            is_json,
        } => delta_at(system, alloc, place, old, new, is_json, stream),
        Task::Feed { image, is_extended } => {
            feed(images, alloc, image, &offered(is_extended), stream)
        }
        Task::Serve {
            image,
            address,
            clients,
            control,
        } => serve_image(
            system, images, alloc, image, address, clients, control, errors,
        ),
        Task::Run { image, service } => run_image(system, images, alloc, image, &service, errors),
        Task::Ask { place, lines } => ask_place(system, place, &lines, stream),
        Task::Play { .. } => Err(Failure::fault(Cause::Output)),
    }
}

/// The same over a reader and a writer, as a pipe from where this one begins.
fn perform_since<'a, F, I: Images, R: Read, W: Write, E, P: Progress + Drop, K: Begins>(
    system: &F,
    images: &mut I,
    alloc: Global,
    task: Task<'_>,
    asks: bool,
    progress: P,
    ends: Ends<'a, R, W>,
    errors: &mut E,
) -> (Ends<'a, R, W>, Result<(), Unplayed>)
where
    F: Files<File = File>
        + Net<Listener = TcpListener, Stream = TcpStream>
        + Threads
        + Wait
        + Clock
        + Sync,
    E: Write + Send,
    requires no_script { IsScript task → ⊥ }
    requires begins { K.opening ≡ record { reader = ends.input.ghost_name; writer = ends.output.ghost_name; left = R.remaining ends.input.now; told = W.contents ends.output.now } }
    ensures same { (result.0.input.ghost_name ≡ ends.entry.input.ghost_name) × (result.0.output.ghost_name ≡ ends.entry.output.ghost_name) }
    ensures done { (did : List StreamCall) × IsPiped (R.remaining ends.entry.input.now) (R.remaining result.0.input.now) (W.contents ends.entry.output.now) (W.contents result.0.output.now) did
        × DoesOn asks task.entry (I.deeds images.old) (I.deeds images.new) [] did result.1 }
{
    let mut piped = Piped::<R, W, K>::begin(ends);
    let done = perform_on(
        system, images, alloc, task, asks, progress, &mut piped, errors,
    );
    (piped.end(), plain(done))
}

/// The same over a reader and a writer.
fn perform_piped<F, I: Images, R: Read, W: Write, E, P: Progress + Drop>(
    system: &F,
    images: &mut I,
    alloc: Global,
    task: Task<'_>,
    asks: bool,
    progress: P,
    input: &mut R,
    output: &mut W,
    errors: &mut E,
) -> Result<(), Unplayed>
where
    F: Files<File = File>
        + Net<Listener = TcpListener, Stream = TcpStream>
        + Threads
        + Wait
        + Clock
        + Sync,
    E: Write + Send,
    requires { IsScript task → ⊥ }
    ensures { (did : List StreamCall) × IsPiped (R.remaining input.old) (R.remaining input.new) (W.contents output.old) (W.contents output.new) did
        × DoesOn asks task.entry (I.deeds images.old) (I.deeds images.new) [] did result }
{
    let ends = Ends { input, output };
    let (_, done) = perform_since::<F, I, R, W, E, P, Brand>(
        system, images, alloc, task, asks, progress, ends, errors,
    );
    done
}

/// Whether a terminal is there to answer what is asked on another one.
fn can_answer(terminals: Terminals) -> bool
    ensures { result ≡ (terminals.input && terminals.errors) }
{
    terminals.input && terminals.errors
}

/// The pool and the script of a task that plays one, and whether its clients are offered what `run` offers.
fn script_of<'a>(task: &Task<'a>) -> Option<(Image<'a>, &'a str, bool)>
    ensures script { IfSome result (λ script. task.now ≡ Play script.0 script.1 script.2) }
    ensures none { IfNone result (IsScript task.now → ⊥) }
{
    match *task {
        Task::Play {
            image,
            script,
            is_extended,
        } => Some((image, script, is_extended)),
        _ => None,
    }
}

/// Performs a task.
fn perform<F, I: Images, R: Read, W: Write, E, P: Progress + Drop>(
    system: &F,
    images: &mut I,
    alloc: Global,
    task: Task<'_>,
    terminals: Terminals,
    progress: P,
    input: &mut R,
    output: &mut W,
    errors: &mut E,
) -> Result<(), Unplayed>
where
    F: Files<File = File>
        + Net<Listener = TcpListener, Stream = TcpStream>
        + Threads
        + Wait
        + Clock
        + Sync,
    E: Write + Send,
    ensures { Does (terminals.input && terminals.errors) task.entry (I.deeds images.old) (I.deeds images.new)
        (R.remaining input.old) (R.remaining input.new) (W.contents output.old) (W.contents output.new) result }
{
    match script_of(&task) {
        Some((image, script, is_extended)) => play_file(
            system,
            images,
            alloc,
            image,
            &offered(is_extended),
            script,
            output,
        ),
        None => perform_piped(
            system,
            images,
            alloc,
            task,
            can_answer(terminals),
            progress,
            input,
            output,
            errors,
        ),
    }
}

/// Writes a text, or answers a fault where the writer fails.
fn tell<W: Write>(output: &mut W, text: &[u8]) -> Result<(), Refusal> {
    match output.write_all(text) {
        Ok(()) => Ok(()),
        Err(_) => Err(Refusal::Fault),
    }
}
