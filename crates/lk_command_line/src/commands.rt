//! The tables of the program's subcommands and arguments, and the `clap` parser made of them.

use clap::{Arg, ArgAction, Command};
use std::alloc::{AllocError, Global};

// The version of the package, the format of the stores that it writes, and the kit with which it is proved: its name,
// and its logic, which the compiler writes into each proved program too (`tools/quick_check.py` compares them).
const VERSION: &str = "0.1.0, stores of format 2, rattle-kit-13 logic dac8208d650f15bf";

// How an argument is given.
#[derive(Clone, Copy)]
enum Kind {
    // A required word after `--NAME`.
    Word,
    // An optional word after `--NAME`.
    Given,
    // A required word after `--NAME`; the option may be repeated.
    Several,
    // An optional word after `--NAME`; the option may be repeated.
    Any,
    // An optional `--NAME` alone.
    Flag,
    // One or more required words without `--NAME`.
    Words,
    // One or more required words after `--NAME`; the option may be repeated.
    Many,
    // Two optional words after `--NAME`.
    Pair,
}

// An argument: how it is given, its name, and its help.
type Row<'a> = (Kind, &'a str, &'a str);

// A subcommand: its name, what it does, and its arguments.
type Usage<'a> = (&'a str, &'a str, &'a [Row<'a>]);

// The subcommands.
#[rattlefmt::skip]
const SUBCOMMANDS: &[Usage] = &[
    ("sim", "runs a script from standard input", &[
        (Kind::Flag, "state",
            "prints, after the last line, what the disks of each node hold, as inspect does, and how much of it is synced"),
    ]),
    ("fuzz", "runs random events in a world of three nodes", &[
        (Kind::Word, "start", "the seed of the events"),
        (Kind::Word, "events", "how many events, 0 to 20000"),
        (Kind::Flag, "groups", "nodes also take several datagrams as one group"),
        (Kind::Flag, "nudges", "nodes are also nudged, in place of one in four ticks"),
        (Kind::Flag, "script", "prints a script of what happens, for sim"),
    ]),
    ("node", "runs a node on the files of a folder and a UDP port", &[
        (Kind::Word, "genesis", "CLUSTER,ALPHA,NODE:PORT,.."),
        (Kind::Word, "number", "the number of the node"),
        (Kind::Word, "port", "the UDP port of the node"),
        (Kind::Word, "dir", "the folder of its files"),
        (Kind::Flag, "existing", "begins no store: ends if the folder has none"),
        (Kind::Flag, "sums",
            "writes the next snapshot, and all after it, with sums that show changed bytes; older programs cannot read them"),
        (Kind::Given, "hosts", "a file of lines NODE ADDRESS: where each node lives"),
        (Kind::Given, "bind",
            "the address at which the node listens; by default that of its line in the hosts, or 127.0.0.1"),
        (Kind::Given, "key", "the file of the key that the nodes share"),
        (Kind::Given, "client-key", "the file of the master from which the clients' keys are derived"),
        (Kind::Given, "admin",
            "CLIENT,..: the clients from which it takes join, leave, raise and break; by default all"),
        (Kind::Given, "ticks", "what ticks go by: datagrams, or clock (each 100 ms; always with a key)"),
        (Kind::Flag, "bundle", "sends a node what goes to it at once in one UDP payload; older nodes drop that"),
        (Kind::Flag, "events", "writes leaders, members, snapshots and faults to standard error, with the time"),
        (Kind::Flag, "log", "writes each position that is counted or executed to standard error"),
        (Kind::Flag, "verbose", "writes what --log does, and what else happens to the node"),
    ]),
    ("init", "begins the store of a node in a folder that has none", &[
        (Kind::Word, "genesis", "CLUSTER,ALPHA,NODE:PORT,.."),
        (Kind::Word, "number", "the number of the node"),
        (Kind::Word, "dir", "the folder of its files"),
        (Kind::Flag, "sums", "writes the store with sums that show changed bytes; older programs cannot read it"),
    ]),
    ("ask", "sends a request to a node, and prints the reply", &[
        (Kind::Word, "cluster", "the number of the cluster"),
        (Kind::Several, "port",
            "PORT or NODE:PORT of a node; with several, the next one is asked if no reply comes"),
        (Kind::Given, "address", "the address of the nodes that the hosts do not name; 127.0.0.1 by default"),
        (Kind::Given, "hosts", "a file of lines NODE ADDRESS: where each node lives"),
        (Kind::Given, "client-key", "the file of the client's key"),
        (Kind::Word, "client", "the number of the client, 1 to 256"),
        (Kind::Word, "request", "the number of the request, higher each time"),
        (Kind::Flag, "force", "sends a join or leave without a look at whether a majority will have caught up"),
        (Kind::Given, "wait",
            "SECONDS, up to 86400: while another client holds the lock, an acquire or share waits so long and asks again, each time with the next number; the last one is printed to standard error"),
        (Kind::Words, "op",
            "acquire NAME, release NAME FENCE, ask NAME, check NAME FENCE, share NAME, break NAME FENCE, join NODE PORT, leave NODE, raise 2 or raw HEX"),
    ]),
    ("status", "asks several nodes for their status, and prints a line for each", &[
        (Kind::Word, "cluster", "the number of the cluster"),
        (Kind::Many, "port", "PORT or NODE:PORT of each node that is asked"),
        (Kind::Given, "address", "the address of the nodes that the hosts do not name"),
        (Kind::Given, "hosts", "a file of lines NODE ADDRESS: where each node lives"),
        (Kind::Given, "client", "the number of the client whose key is given"),
        (Kind::Given, "client-key", "the file of that client's key"),
        (Kind::Flag, "json", "prints one object of JSON"),
        (Kind::Flag, "prometheus", "prints metrics for node_exporter's textfile collector"),
        (Kind::Given, "wait", "how long to wait for silent nodes, in milliseconds; 500 by default"),
        (Kind::Pair, "until",
            "ready SECONDS: waits up to this long until all nodes have executed what the leader had at first"),
    ]),
    ("demo", "shows three nodes and two clients", &[]),
    ("dump", "prints the generation, the promise and the counts of a folder's store", &[
        (Kind::Word, "dir", "the folder of a node's files"),
    ]),
    ("inspect", "prints the members, the locks and the position of a folder's store", &[
        (Kind::Word, "dir", "the folder of a node's files"),
        (Kind::Flag, "all", "prints the names that are free too, each with its last fence"),
    ]),
    ("scrub", "checks the sums of a folder's store, also while a node runs on it", &[
        (Kind::Word, "dir", "the folder of a node's files"),
    ]),
    ("seed", "begins a new cluster whose fences are above those of a lost one", &[
        (Kind::Several, "from", "a folder that the lost cluster has left"),
        (Kind::Word, "past", "how many grants of a name may be missing in those folders"),
        (Kind::Any, "name", "NAME:FENCE: a name, and the greatest fence of it that a resource remembers"),
        (Kind::Word, "genesis", "CLUSTER,ALPHA,NODE:PORT: a new number, and the only member"),
        (Kind::Word, "number", "the number of that node"),
        (Kind::Word, "dir", "the folder of its files, which must have none"),
    ]),
    ("client-key", "prints the key of a client", &[
        (Kind::Word, "master", "the file of the master from which the clients' keys are derived"),
        (Kind::Word, "client", "the number of the client, 1 to 256"),
    ]),
];

// Makes a required argument `--NAME WORD`.
fn word<'a>(alloc: Global, name: &'a str) -> Arg<'a> {
    Arg::new(alloc, name)
        .long(name)
        .required(true)
        .action(ArgAction::Set)
}

// Makes the argument of a row.
fn argument<'a>(alloc: Global, kind: Kind, name: &'a str, help: &'a str) -> Arg<'a> {
    let argument = match kind {
        Kind::Word => word(alloc, name),
        Kind::Given => word(alloc, name).required(false),
        Kind::Several => word(alloc, name).action(ArgAction::Append),
        Kind::Any => word(alloc, name).required(false).action(ArgAction::Append),
        Kind::Flag => Arg::new(alloc, name).long(name).action(ArgAction::SetTrue),
        Kind::Words => Arg::new(alloc, name).required(true).num_args(1..),
        Kind::Many => word(alloc, name).action(ArgAction::Append).num_args(1..),
        Kind::Pair => word(alloc, name).required(false).num_args(2),
    };
    argument.help(help)
}

// Makes a subcommand with the arguments of these rows. Fails if it is out of memory.
fn subcommand<'a>(
    alloc: Global,
    name: &'a str,
    about: &'a str,
    rows: &'a [Row<'a>],
) -> Result<Command<'a>, AllocError> {
    let mut command = Command::new(alloc, name).about(about);
    for (kind, name, help) in rows {
        command = command.arg(argument(alloc, *kind, name, help))?;
    }
    Ok(command)
}

// Makes the program's command without subcommands.
fn alone<'a>(alloc: Global) -> Command<'a> {
    Command::new(alloc, "locks")
        .about("a replicated service of named locks with fencing numbers")
        .version(VERSION)
        .subcommand_required(true)
}

// Makes the program's command with these subcommands. Fails if it is out of memory.
fn with_all<'a>(alloc: Global, rows: &'a [Usage<'a>]) -> Result<Command<'a>, AllocError> {
    let mut program = alone(alloc);
    for (name, about, arguments) in rows {
        let command = subcommand(alloc, name, about, arguments)?;
        program = program.subcommand(command)?;
    }
    Ok(program)
}

/// Returns the `clap` command of the program with all its subcommands. Fails if it is out of memory.
pub fn program<'a>(alloc: Global) -> Result<Command<'a>, AllocError> {
    with_all(alloc, SUBCOMMANDS)
}
