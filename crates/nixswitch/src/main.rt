//! Makes a built NixOS system the one of a root folder.
#![tactic(auto)]

use host_files::{OutSink, Syncing, place_in};
use host_folder::FolderHost;
use std::alloc::Global;
use std::fs::{File, TryLockError};
use std::io::ErrorKind;
use std::process::ExitCode;
use std::rt::Files;
use std::{env, io};
use switch_names::Text;
use switch_run::{Asked, Status, run};

/// What `--help` prints.
const HELP: &str = "\
nixswitch makes a built NixOS system the one of a root folder.

usage: nixswitch ROOT switch|test|boot|dry-activate SYSTEM
       nixswitch ROOT rollback|start-up|generations
       nixswitch ROOT collect KEEP
       nixswitch ROOT rehearse|rehearse-jobs NUMBER
       nixswitch --help | --version

ROOT is a folder with the file tree below ROOT/tree, one node file for each file or link.
SYSTEM is a built system: nix/store/NAME, with or without a slash before it.

switch SYSTEM        makes the system the boot default, as boot does, and brings it into use: its accounts, its /etc and
                     its units
test SYSTEM          brings the system into use, and leaves the profile and the boot menu as they are
boot SYSTEM          makes a generation for the system, points the profile to it, and makes the boot menu
dry-activate SYSTEM  says what bringing the system into use would do, and changes nothing
rollback             points the profile back to the greatest generation below the current one that names a system, makes
                     the boot menu, and brings that system into use; cut and run again, it goes to the same generation
start-up             does as the machine starts up what a test does of the system that the profile names, and starts
                     multi-user.target with what that wants
generations          lists the generations: the number, the system, and a mark at the current one; it changes nothing
collect KEEP         drops the generations but the KEEP with the highest numbers and the current one, and then what of the store
                     no root reaches; it is refused where a switch is unfinished
rehearse NUMBER      makes a machine from the number, in memory alone, switches it under cuts until that ends, and tells what it
                     has left; ROOT is neither read nor changed

One run goes on at a time in a ROOT: another one ends with 3 at once, and nobody else may change the tree meanwhile.

exit status: 0 done, 1 usage, 2 refused, 3 fault of the host, 4 units failed, 5 no memory, 6 fault of the output
";

/// What `--version` prints.
const VERSION: &str = "nixswitch 0.1.0\n";

/// The words on the command line, without the program's name.
fn read_line(rt: &HostRuntime) -> io::Result<Vec<Text>> {
    let mut words = Vec::new(rt.alloc());
    let mut arguments = env::args(rt)?;
    let _program = arguments.next();
    for word in arguments {
        words.push(Text::from_string(word))?;
    }
    Ok(words)
}

/// How a run ended, and the line that tells of a fault of the host where it was and what it was.
struct End {
    status: Status,
    fault: Option<Text>,
}

/// One call: a derived drop is proved anew in each function that lets one go.
impl Drop for End {
    fn drop(self) {
        let End {
            status: _,
            fault: _,
        } = self;
    }
}

impl End {
    /// An end that has one line.
    fn plain(status: Status) -> End {
        End {
            status,
            fault: None,
        }
    }
}

/// Whether a run syncs what it writes: not where the variable `NIXOS_NO_SYNC` is 1.
fn syncing_of(rt: &HostRuntime) -> Syncing {
    match env::var(rt, "NIXOS_NO_SYNC") {
        Ok(value) if value.as_str() == "1" => Syncing::Off,
        _ => Syncing::On,
    }
}

/// Runs the words of a command on a root folder and standard output.
fn run_on<R: Files + Print + AllocGlobal + Clone + Drop>(
    rt: &R,
    alloc: Global,
    root: &str,
    syncing: Syncing,
    words: &[Text],
) -> End {
    let Ok(mut host) = FolderHost::open(rt, root) else {
        return End::plain(Status::NoMemory);
    };
    let Ok(mut out) = OutSink::new(rt) else {
        return End::plain(Status::NoMemory);
    };
    host.set_syncing(syncing);
    let status = run(alloc, words, &mut host, &mut out);
    let fault = host.last_fault(alloc).unwrap_or(None);
    End { status, fault }
}

/// Locks a root folder against other runs, until the file that is answered is closed: flock(2).
///
/// A folder that can't be opened or locked is left as it is. So is an empty text, which names none.
fn lock_root(rt: &HostRuntime, root: &str) -> Result<Option<File>, End> {
    if root.is_empty() {
        return Ok(None);
    }
    let Ok(folder) = place_in(rt.alloc(), root, ".") else {
        return Err(End::plain(Status::NoMemory));
    };
    let Ok(file) = File::open(rt, folder.as_str()) else {
        return Ok(None);
    };
    match file.try_lock() {
        Err(TryLockError::WouldBlock) => Err(End {
            status: Status::HostFault,
            fault: Text::from_str(rt.alloc(), "another run goes on here").ok(),
        }),
        _ => Ok(Some(file)),
    }
}

/// Runs the words of a command on a root folder, unless another run goes on there.
fn run_alone(rt: &HostRuntime, root: &str, words: &[Text]) -> End {
    match lock_root(rt, root) {
        Ok(_locked) => run_on(rt, rt.alloc(), root, syncing_of(rt), words),
        Err(end) => end,
    }
}

/// Runs the words of the command line, whose first names the root folder. Words that ask for nothing need none, and neither does
/// a rehearsal.
fn run_line(rt: &HostRuntime, line: &[Text]) -> End {
    let [root, words @ ..] = line else {
        return End::plain(Status::Usage);
    };
    match Asked::read(rt.alloc(), words) {
        Ok(Asked::Command(_) | Asked::Generations | Asked::Collection(_)) => run_alone(
            rt,
            root.as_str(),
            words,
        ),
        Ok(Asked::Rehearsal(_) | Asked::RehearsalWithJobs(_)) => {
            run_on(rt, rt.alloc(), root.as_str(), syncing_of(rt), words)
        }
        Ok(Asked::Nothing) => End::plain(Status::Usage),
        Err(_) => End::plain(Status::NoMemory),
    }
}

/// What of a status's line is the same each time, for when there is no memory to write the line.
fn fixed_line(status: &Status) -> &'static str {
    match status {
        Status::Done => "",
        Status::Usage => "usage",
        Status::Refused(_) => "refused",
        Status::HostFault => "fault: host",
        Status::SinkFault => "fault: output",
        Status::UnitsFailed => "units failed",
        Status::NoMemory => "no memory",
    }
}

/// Puts a line on standard error, unless it is empty.
fn tell(rt: &HostRuntime, line: &str) {
    if !line.is_empty() {
        let _ = rt.eprintln(line);
    }
}

/// Says how a run ended, on standard error and by the exit status.
fn finish(rt: &HostRuntime, status: &Status) -> ExitCode {
    match status.text(rt.alloc()) {
        Ok(text) => tell(rt, text.as_str()),
        Err(_) => tell(rt, fixed_line(status)),
    }
    ExitCode::from(status.number())
}

/// Says how a run ended, and of a fault of the host where it was and what it was.
fn finish_run(rt: &HostRuntime, end: &End) -> ExitCode {
    let code = finish(rt, &end.status);
    if let (Status::HostFault, Some(line)) = (&end.status, &end.fault) {
        tell(rt, line.as_str());
    }
    code
}

/// Prints a text, and ends with 0 where standard output takes it.
fn show(rt: &HostRuntime, text: &str) -> ExitCode {
    match rt.print(text) {
        Ok(()) => ExitCode::from(0),
        Err(_) => finish(rt, &Status::SinkFault),
    }
}

fn main(rt: HostRuntime) -> ExitCode {
    match read_line(&rt) {
        Ok(line) => match line.as_slice() {
            [only] if only.as_str() == "--help" => show(&rt, HELP),
            [only] if only.as_str() == "--version" => show(&rt, VERSION),
            words => finish_run(&rt, &run_line(&rt, words)),
        },
        Err(fault) if fault.kind() == ErrorKind::OutOfMemory => finish(&rt, &Status::NoMemory),
        Err(_) => finish(&rt, &Status::Usage),
    }
}
